//! The script language: a line is read into a command, a command becomes one or more events of the filter manager's state, and what they
//! answer is printed.
#![tactic(auto)]

mod command;
mod context_command;
mod context_list;
mod devices;
mod file_command;
mod ids;
mod interpreter;
mod keyword;
pub mod laws;
mod line;
mod output;
mod passed_lines;
mod reading;
mod runner;
mod said;
mod script_end;
mod short_line;
mod sink;
mod task;
mod teardown_command;
mod verdict_command;

pub use crate::context_list::ContextList;
pub use crate::devices::Devices;
pub use crate::interpreter::Interpreter;
pub use crate::keyword::Keyword;
pub use crate::output::Output;
pub use crate::reading::{Heard, Listener, Ran, read_lines, script};
pub use crate::runner::{Runner, is_silent};
pub use crate::said::{
    Said, Word, said_attached, said_called, said_count, said_done, said_given, said_of, said_phase,
};
pub use crate::script_end::ScriptEnd;
pub use crate::sink::Sink;
pub use crate::task::Task;
pub use fm_words::{
    read_hex, read_id, read_number, read_status, split_at_byte, split_words, write_hex,
};
