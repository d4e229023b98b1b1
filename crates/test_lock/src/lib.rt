//! Rows through the manager that threads share: the lines of a script, each made as one event of a `Manager`, by one hand for each worker; and what no
//! script can say of it.
#![tactic(auto)]

mod declared;
mod driver;
mod script;
#[cfg(test)]
mod tests;

pub use crate::script::Rows;
