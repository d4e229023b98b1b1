//! What a script makes of refused memory.

use crate::script_tests::end_of;
use fm_script::{ScriptEnd, script};
use std::alloc::Global;
use std::process::Abort;

// A script whose lines print one line each: among them is each event that takes memory, and none is on a file, since a base that is refused memory answers
// with its own status.
const INPUT: &[u8] =
    b"load f\nmount v\nattach f0 v0 a 100\nsetup w1 f0 v0 b 200\nalloc w1 instance 0a0b\nbody w1 c0\nsetdone w1 yes\nlist v0\nnext w0 o0\npre w0 none\nnext w0 o0\npre w0 with\nnext w0 o0\nbase w0\nnext w0 o0\npost w0 done\nnext w0 o0\ncollect o0\nleaks\n";

const OUTPUT: &[u8] =
    b"ok f0\nok v0\nok i0\nok i1\nok c0\nbody 0a0b\nok\nok o0\npre i1\nok\npre i0\nok\nbase\nok\npost i0\nok\ndone\nreply 0 0 -\nleaks 1\n";

// Room for what is printed, so that the writer isn't refused any.
fn room(rt: &impl Abort, alloc: Global) -> Vec<u8> {
    match Vec::with_capacity(alloc, 1024) {
        Ok(room) => room,
        Err(_) => Vec::with_capacity(alloc, 1024).expect(rt, "memory"),
    }
}

// The place of the line that says that an event was refused memory, if one was.
fn refused_at(text: &[u8]) -> Option<usize> {
    text.split_inclusive(|byte| *byte == b'\n')
        .position(|line| line == b"no 1\n".as_slice())
}

// The text without the line at that place.
fn without(rt: &impl Abort, alloc: Global, text: &[u8], place: usize) -> Vec<u8> {
    let mut rest = Vec::new(alloc);
    for (at, line) in text.split_inclusive(|byte| *byte == b'\n').enumerate() {
        if at != place {
            rest.extend_from_slice(line).expect(rt, "memory");
        }
    }
    rest
}

// Whether the script without the line at that place prints the same but for that line.
fn is_as_without(rt: &impl Abort, alloc: Global, printed: &[u8], place: usize) -> bool {
    let input = without(rt, alloc, INPUT, place);
    let output = without(rt, alloc, printed, place);
    end_of(alloc, input.as_slice(), output.as_slice()) == (ScriptEnd::Ended, true)
}

// Whether the script prints what it should. If memory is refused, it ends after a right beginning, or the line that was refused is as if it weren't there.
fn is_right(rt: &impl Abort, alloc: Global) -> bool {
    let mut printed = room(rt, alloc);
    let end = script(alloc, INPUT, &mut printed).end;
    match (end, refused_at(printed.as_slice())) {
        (ScriptEnd::Ended, Some(place)) => is_as_without(rt, alloc, printed.as_slice(), place),
        (ScriptEnd::Ended, None) => printed.as_slice() == OUTPUT,
        (ScriptEnd::NoMemory, None) => OUTPUT.starts_with(printed.as_slice()),
        _ => false,
    }
}

// For `rt try --test --fail-alloc N`: whichever allocation is refused, once.
#[test]
fn refused_memory(rt: HostRuntime) {
    assert!(rt; is_right(&rt, rt.alloc()));
}
