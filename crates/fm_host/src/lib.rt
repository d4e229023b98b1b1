//! The base over a folder of the host: its files are the files of the host, named by paths below that
//! folder. What a file holds between two calls is the host's to say.
#![tactic(auto)]

mod answer;
mod files;
mod host_base;
mod kinds;
mod names;
mod paths;

pub use crate::host_base::HostBase;
