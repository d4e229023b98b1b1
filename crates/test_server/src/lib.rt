//! Frames as bytes through the server over the one-thread manager, each with the bytes that come out and with how serving ends; and words of the
//! server's programs. There is nothing here but tests.
#![tactic(auto)]

#[cfg(test)]
mod memory_tests;
#[cfg(test)]
mod pass_tests;
#[cfg(test)]
mod pipes;
#[cfg(test)]
mod serve_tests;
#[cfg(test)]
mod serving;
#[cfg(test)]
mod word_tests;
