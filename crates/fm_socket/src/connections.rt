//! The connections of a server: how they come in, are served and end.

use crate::connection::Connection;
use crate::line::ClientLine;
use crossbeam_channel::{Receiver, Sender, bounded};
use fm_device::Device;
use fm_filter::Callbacks;
use fm_server::{ReaderSource, ServeEnd, WriterSink, serve};
use fm_types::Status;
use fm_types::limits::CONNECTIONS;
use std::alloc::Global;
use std::net::Shutdown;
use std::os::unix::net::UnixStream;
use std::sync::atomic::{AtomicBool, AtomicUsize, Ordering};
use std::sync::ledger::Ledger;
use std::sync::{Arc, Wait};
use std::time::Clock;

/// The end at which new connections come in.
pub(crate) type Incoming = Sender<Arc<UnixStream>, Global>;

/// New connections on their way to a thread, how many there are, and how a Stop ends the wait for more.
#[derive(Drop)]
pub(crate) struct Connections<'a, R: Wait> {
    rt: &'a R,
    alloc: Global,
    // A second descriptor of the listening socket: once it is shut down, who waits for a connection there waits no more.
    bell: UnixStream,
    is_stopping: AtomicBool,
    open: AtomicUsize,
    streams: Receiver<Arc<UnixStream>, Global>,
}

impl<'a, R: Wait> Connections<'a, R> {
    /// No connection yet, and the end at which they come in. Refused with 1, if memory is refused.
    pub(crate) fn new(
        rt: &'a R,
        alloc: Global,
        bell: UnixStream,
    ) -> Result<(Connections<'a, R>, Incoming), Status> {
        let (incoming, streams) = bounded(alloc, CONNECTIONS)?;
        let connections = Connections {
            rt,
            alloc,
            bell,
            is_stopping: AtomicBool::new(false),
            open: AtomicUsize::new(0),
            streams,
        };
        Ok((connections, incoming))
    }

    /// The runtime.
    pub(crate) fn rt(&self) -> &'a R {
        self.rt
    }

    /// Whether no new connection is taken any more.
    pub(crate) fn is_stopping(&self) -> bool {
        self.is_stopping.load(Ordering::SeqCst)
    }

    // Counts a connection in, unless as many are there as may be.
    fn enter(&self) -> bool {
        if self.open.fetch_add(1, Ordering::SeqCst) < CONNECTIONS {
            return true;
        }
        self.leave();
        false
    }

    // Counts a connection out.
    fn leave(&self) {
        self.open.fetch_sub(1, Ordering::SeqCst);
    }

    /// Takes a connection in. It is closed at once if as many are there as may be, or if memory is refused for it.
    pub(crate) fn admit(&self, incoming: &Incoming, stream: UnixStream) {
        if !self.enter() {
            return;
        }
        let Ok(stream) = Arc::new(self.alloc, stream) else {
            self.leave();
            return;
        };
        if incoming.send(self.rt, stream).is_err() {
            self.leave();
        }
    }

    // No new connection is taken after this, whatever became of the socket's path: the one that waits for them is woken.
    fn stop(&self) {
        self.is_stopping.store(true, Ordering::SeqCst);
        let _ = self.bell.shutdown(Shutdown::Both);
    }
}

impl<R: Wait + Clock> Connections<'_, R> {
    // Answers a connection's frames until it ends.
    fn serve_frames<F: Callbacks, L: Ledger, D: Device>(
        &self,
        stream: &UnixStream,
        connection: &mut Connection<'_, F, L, R, D>,
    ) {
        let mut source = ReaderSource::new(stream);
        let mut sink = WriterSink::new(stream);
        if serve(self.alloc, &mut source, &mut sink, connection) == ServeEnd::Stopped {
            self.stop();
        }
    }

    // A connection, from its first frame to the close of its handles. Its stream ends behind them: a client that sees the end finds them closed, and its place
    // free.
    fn serve_connection<F: Callbacks, L: Ledger, D: Device>(
        &self,
        stream: Arc<UnixStream>,
        connection: &mut Connection<'_, F, L, R, D>,
    ) {
        if let Ok(own) = Arc::try_clone(&stream) {
            connection.begin(ClientLine::along(own));
            self.serve_frames(&stream, connection);
        }
        connection.end();
        self.leave();
        drop(stream);
    }

    /// A thread's life: one connection after the other, until no more come in.
    pub(crate) fn serve_thread<F: Callbacks, L: Ledger, D: Device>(
        &self,
        connection: &mut Connection<'_, F, L, R, D>,
    ) {
        'connections: for _ in self.rt.forever() {
            let Ok(stream) = self.streams.recv(self.rt) else {
                break 'connections;
            };
            self.serve_connection(stream, connection);
        }
    }
}
