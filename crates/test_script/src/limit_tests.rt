//! Scripts at limits that are too long to be stored.

use crate::script_tests::end_of;
use fm_script::ScriptEnd;
use std::alloc::Global;
use std::io::Write;
use std::process::Abort;

// A script and what it is to print.
#[derive(Drop)]
struct Row {
    input: Vec<u8>,
    output: Vec<u8>,
}

// Lines, and what they print.
type Lines = (&'static [u8], &'static [u8]);

// A volume, and a file open by handle h0.
const FILE: Lines = (
    b"mount v\ncreate v0 f always\ngo w0 o0\n",
    b"ok v0\nok o0\nbase 0\nreply 0 0 -\n",
);

impl Row {
    // A script of these lines.
    fn of(rt: &impl Abort, alloc: Global, lines: Lines) -> Row {
        let mut row = Row {
            input: Vec::new(alloc),
            output: Vec::new(alloc),
        };
        row.add(rt, lines);
        row
    }

    // Lines behind those that are there.
    fn add(&mut self, rt: &impl Abort, lines: Lines) {
        self.input.extend_from_slice(lines.0).expect(rt, "memory");
        self.output.extend_from_slice(lines.1).expect(rt, "memory");
    }

    // How it ends, and whether it prints that.
    fn end(&self, alloc: Global) -> (ScriptEnd, bool) {
        end_of(alloc, self.input.as_slice(), self.output.as_slice())
    }
}

// All handles that there may be, but for the first.
fn add_creates(rt: &impl Abort, row: &mut Row) {
    for number in 1..4096u32 {
        writeln!(row.input, "create v0 f always\ngo w0 o{number}").expect(rt, "memory");
        writeln!(row.output, "ok o{number}\nbase 0\nreply 0 {number} -").expect(rt, "memory");
    }
}

const ONE_MORE_HANDLE: Lines = (
    b"create v0 f always\ncleanup h7\ngo w0 o4096\nclose h7\ngo w0 o4097\ncreate v0 f always\ncreate v0 f always\ngo w0 o4098\n",
    b"no 29\nok o4096\nbase 0\nreply 0 0 -\nok o4097\nbase 0\nreply 0 0 -\nok o4098\nno 29\nbase 0\nreply 0 4096 -\n",
);

fn end_of_most_handles(rt: &impl Abort, alloc: Global) -> (ScriptEnd, bool) {
    let mut row = Row::of(rt, alloc, FILE);
    add_creates(rt, &mut row);
    row.add(rt, ONE_MORE_HANDLE);
    row.end(alloc)
}

const LONG_READ: Lines = (
    b"setsize h0 40000\ngo w0 o1\nread h0 0 32769\nread h0 0 32768\ngo w0 o2\n",
    b"ok o1\nbase 0\nreply 0 0 -\nno 32\nok o2\nbase 0\nreply 0 32768 ",
);

// The digits of that reply, which are zeros.
fn add_zeros(rt: &impl Abort, row: &mut Row) {
    for _ in 0..65_536 {
        row.output.push(b'0').expect(rt, "memory");
    }
    row.output.push(b'\n').expect(rt, "memory");
}

fn end_of_longest_read(rt: &impl Abort, alloc: Global) -> (ScriptEnd, bool) {
    let mut row = Row::of(rt, alloc, FILE);
    row.add(rt, LONG_READ);
    add_zeros(rt, &mut row);
    row.end(alloc)
}

#[test]
fn most_handles_and_longest_read(rt: HostRuntime) {
    assert!(rt; end_of_most_handles(&rt, rt.alloc()) == (ScriptEnd::Ended, true));
    assert!(rt; end_of_longest_read(&rt, rt.alloc()) == (ScriptEnd::Ended, true));
}
