//! A folder of the host behind a Unix socket: connections ask for operations and for filters, workers carry the operations on, and a client asks for one
//! thing at a time.
//!
//! `front_with` is the whole of a server program, over filters of one's own, `front` that over the samples, and `client` that of its client. What a connection asks is answered by a `Connection` over the manager that all
//! of them share.
#![tactic(auto)]

mod connection;
mod connections;
mod endpoint;
mod exec;
mod faults;
mod gate_seat;
mod leftovers;
mod limits;
mod line;
mod program;
mod request;
mod samples;
mod server;
mod waiting;
mod words;

pub use crate::endpoint::{Endpoint, Folder, prepare};
pub use crate::program::{front, front_with, show_usage};
pub use crate::request::{CLIENT_USAGE, client};
pub use crate::words::{Invocation, endpoint_of, texts, words_of};
