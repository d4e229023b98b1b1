//! A script of as many lines as there may be, and readers and writers that fail.

use fm_script::{ScriptEnd, script};
use std::alloc::Global;
use std::cell::Cell;
use std::io;
use std::io::{Read, Write};
use std::process::Abort;

// A writer whose pipe is broken.
#[derive(Drop)]
struct Broken;

impl Write for Broken {
    fn write(&mut self, _: &[u8]) -> io::Result<usize> {
        Err(io::Error::from(io::ErrorKind::BrokenPipe))
    }

    fn flush(&mut self) -> io::Result<()> {
        Ok(())
    }
}

// A reader that gives its text in pieces, and fails at its end.
#[derive(Drop)]
struct Failing<'a>(&'a [u8]);

impl Read for Failing<'_> {
    fn read(&mut self, buf: &mut [u8]) -> io::Result<usize> {
        if self.0.is_empty() {
            return Err(io::Error::from(io::ErrorKind::BrokenPipe));
        }
        let most = 5.min(buf.len());
        self.0.read(&mut buf[..most])
    }
}

/// How the script ends, and whether that is what it prints.
pub fn end_of<R: Read + Drop>(alloc: Global, reader: R, output: &[u8]) -> (ScriptEnd, bool) {
    let mut bytes = Vec::new(alloc);
    let end = script(alloc, reader, &mut bytes).end;
    (end, bytes.as_slice() == output)
}

// A hundred thousand lines, of which the first and the last print, and these bytes after them.
fn end_behind_most_lines(rt: &impl Abort, alloc: Global, rest: &[u8]) -> (ScriptEnd, bool) {
    let mut input = b"load f\n".to_vec(alloc).expect(rt, "memory");
    let lines = Vec::from_elem(alloc, b'\n', 99_998).expect(rt, "memory");
    input.extend_from_slice(&lines).expect(rt, "memory");
    input.extend_from_slice(b"mount v\n").expect(rt, "memory");
    input.extend_from_slice(rest).expect(rt, "memory");
    end_of(alloc, input.as_slice(), b"ok f0\nok v0\n")
}

#[test]
fn most_lines(rt: HostRuntime) {
    let whole = end_behind_most_lines(&rt, rt.alloc(), b"");
    let comment = end_behind_most_lines(&rt, rt.alloc(), b"#");
    let more = end_behind_most_lines(&rt, rt.alloc(), b"mount u\nmount w\n");
    assert!(rt; whole == (ScriptEnd::Ended, true));
    assert!(rt; comment == (ScriptEnd::ReadFault, true));
    assert!(rt; more == (ScriptEnd::ReadFault, true));
}

// How a script ends whose writer fails.
fn end_of_broken(alloc: Global, input: &[u8]) -> ScriptEnd {
    script(alloc, input, Broken).end
}

#[test]
fn faults(rt: HostRuntime) {
    let read = end_of(rt.alloc(), Failing(b"load f\nmount"), b"ok f0\n");
    assert!(rt; read == (ScriptEnd::ReadFault, true));
    assert!(rt; end_of_broken(rt.alloc(), b"load f\nload g") == ScriptEnd::WriteFault);
    assert!(rt; end_of_broken(rt.alloc(), b"# nothing") == ScriptEnd::Ended);
}

// A reader that fails where what was printed before wasn't flushed.
#[derive(Drop)]
struct Asking<'a> {
    rest: &'a [u8],
    flushes: &'a Cell<u32>,
    reads: u32,
}

impl Read for Asking<'_> {
    fn read(&mut self, buf: &mut [u8]) -> io::Result<usize> {
        self.reads = self.reads.saturating_add(1);
        if self.flushes.get() < self.reads {
            return Err(io::Error::from(io::ErrorKind::TimedOut));
        }
        let most = 1.min(buf.len());
        self.rest.read(&mut buf[..most])
    }
}

// A writer that counts its flushes.
#[derive(Drop)]
struct Flushed<'a>(&'a Cell<u32>);

impl Write for Flushed<'_> {
    fn write(&mut self, buf: &[u8]) -> io::Result<usize> {
        Ok(buf.len())
    }

    fn flush(&mut self) -> io::Result<()> {
        self.0.set(self.0.get().saturating_add(1));
        Ok(())
    }
}

fn end_of_asking(alloc: Global) -> ScriptEnd {
    let flushes = Cell::new(0);
    let reader = Asking {
        rest: b"load f\nmount v\n",
        flushes: &flushes,
        reads: 0,
    };
    script(alloc, reader, Flushed(&flushes)).end
}

#[test]
fn flushed_before_each_read(rt: HostRuntime) {
    assert!(rt; end_of_asking(rt.alloc()) == ScriptEnd::Ended);
}
