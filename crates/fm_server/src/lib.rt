//! The server: frames are read from a stream, each is answered by an `Exec`, and the replies are written, in order. Nothing here knows what
//! answers, nor where the stream comes from.
#![tactic(auto)]

mod answering;
mod connection;
mod exec;
mod got;
mod guard;
mod replies;
mod serve_end;
mod sink;
mod source;
mod writing;

pub use crate::connection::{MOST_READS, serve};
pub use crate::exec::Exec;
pub use crate::guard::guarded;
pub use crate::replies::{bare_reply, status_reply};
pub use crate::serve_end::ServeEnd;
pub use crate::sink::{Sink, WriterSink};
pub use crate::source::{ReaderSource, Source};
