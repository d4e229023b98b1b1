//! What no stored script can say of a script: as many lines and handles as there may be, the longest read, readers and writers that fail, and memory that is refused. There is
//! nothing here but tests, as in `test_core`, which needn't wait for the script.
#![tactic(auto)]

#[cfg(test)]
mod limit_tests;
#[cfg(test)]
mod memory_tests;
#[cfg(test)]
mod script_tests;
