//! The line to a client.

use std::io::Write;
use std::os::unix::net::UnixStream;
use std::sync::Arc;

/// The line to a client, or that to one that is gone for certain.
#[derive(Drop)]
pub(crate) struct ClientLine {
    stream: Option<Arc<UnixStream>>,
}

impl ClientLine {
    /// The line along that stream.
    pub(crate) fn along(stream: Arc<UnixStream>) -> ClientLine {
        ClientLine {
            stream: Some(stream),
        }
    }

    /// A line at which nobody waits.
    pub(crate) fn cut() -> ClientLine {
        ClientLine { stream: None }
    }

    /// Whether nobody waits at its other end. A write of no bytes fails then; it waits for nothing, and what the client sent stays to be read. A client that
    /// has only said that it sends no more still waits.
    pub(crate) fn is_cut(&self) -> bool {
        match &self.stream {
            Some(stream) => {
                let mut writer: &UnixStream = stream;
                writer.write(&[]).is_err()
            }
            None => true,
        }
    }
}
