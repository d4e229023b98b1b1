//! What is served, and a row of bytes in, bytes out and an end.

use crate::pipes::{Pace, Pieces, Taken};
use fm_base::MemoryBase;
use fm_local::LocalManager;
use fm_local_exec::LocalExec;
use fm_samples::{Guard, Sample};
use fm_server::{Exec, ReaderSource, ServeEnd, WriterSink, serve};
use fm_types::Name;
use std::alloc::Global;
use std::process::Abort;

/// Bytes that come in, the bytes that go out for them, and how serving ends.
#[derive(Clone, Copy)]
pub struct Row<'a> {
    pub input: &'a [u8],
    pub output: &'a [u8],
    pub end: ServeEnd,
}

/// A manager with the filter `guard`, and an empty file system in memory as volume 0.
fn manager_of(rt: &impl Abort, alloc: Global) -> LocalManager<Sample, MemoryBase> {
    let mut filters = Vec::new(alloc);
    let name = Name::read(b"guard").expect(rt, "a name");
    filters
        .push((name, Sample::Guard(Guard)))
        .expect(rt, "memory");
    let mut manager = LocalManager::new(alloc, filters).expect(rt, "a manager");
    let name = Name::read(b"v0").expect(rt, "a name");
    manager
        .mount(name, MemoryBase::new(alloc))
        .expect(rt, "a volume");
    manager
}

// Serves that input, and says how it ended and what the writer took.
fn served_by<E: Exec>(
    alloc: Global,
    exec: &mut E,
    input: &[u8],
    pace: Pace,
    room: usize,
) -> (ServeEnd, Vec<u8>) {
    let mut source = ReaderSource::new(Pieces::new(input, pace));
    let mut sink = WriterSink::new(Taken::new(alloc, room));
    let end = serve(alloc, &mut source, &mut sink, exec);
    (end, sink.into_writer().into_text())
}

/// Whether the row is so, read at that pace, and written to so much room.
pub fn is_so(rt: &impl Abort, alloc: Global, row: &Row, pace: Pace, room: usize) -> bool {
    let mut exec = LocalExec::new(alloc, manager_of(rt, alloc));
    let (end, text) = served_by(alloc, &mut exec, row.input, pace, room);
    end == row.end && text.as_slice() == row.output
}
