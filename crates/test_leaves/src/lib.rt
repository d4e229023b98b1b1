//! Tests of the crates that stand alone, below the State: texts and frames by hand, bases in memory, over a real folder and over a host that fails, the job
//! queue, and the volume gate. There is nothing here but tests, as in `test_core`.
#![tactic(auto)]

#[cfg(test)]
mod base_tests;
#[cfg(test)]
mod frame_tests;
#[cfg(test)]
mod host_tests;
#[cfg(test)]
mod queue_tests;
#[cfg(test)]
mod rundown_tests;
#[cfg(test)]
mod slow_host;
#[cfg(test)]
mod text_tests;
