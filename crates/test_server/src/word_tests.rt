//! The words of the server's programs.

use fm_cli::{front_of, request_of};
use fm_types::Status;
use fm_wire::encode;
use std::alloc::Global;
use std::process::Abort;

// The bytes of the frame that the words name, or their refusal.
fn bytes_of(alloc: Global, words: &[&str]) -> Result<Vec<u8>, Status> {
    let frame = request_of(alloc, words)?;
    Ok(encode(alloc, &frame)?.into_vec())
}

// Whether the words name the frame with these bytes.
fn is_spelled(alloc: Global, words: &[&str], bytes: &[u8]) -> bool {
    match bytes_of(alloc, words) {
        Ok(text) => text.as_slice() == bytes,
        Err(_) => false,
    }
}

fn is_refused(alloc: Global, words: &[&str]) -> bool {
    matches!(bytes_of(alloc, words), Err(Status::BadRequest))
}

/// Words, and the bytes of their frames.
const NAMED: [(&[&str], &[u8]); 16] = [
    (&["list", "0"], b"\x00\x00\x00\x06\x07\x00\x00\x00\x01\x00"),
    (
        &["create", "0", "always", "x"],
        b"\x00\x00\x00\x08\x01\x00\x00\x00\x01\x00\x02x",
    ),
    (
        &["read", "1", "2", "3"],
        b"\x00\x00\x00\x19\x02\x00\x00\x00\x01\x00\x00\x00\x00\x00\x00\x00\x01\x00\x00\x00\x00\x00\x00\x00\x02\x00\x00\x00\x03",
    ),
    (
        &["write", "1", "2", "6162"],
        b"\x00\x00\x00\x17\x03\x00\x00\x00\x01\x00\x00\x00\x00\x00\x00\x00\x01\x00\x00\x00\x00\x00\x00\x00\x02ab",
    ),
    (
        &["querysize", "1"],
        b"\x00\x00\x00\x0d\x04\x00\x00\x00\x01\x00\x00\x00\x00\x00\x00\x00\x01",
    ),
    (
        &["setsize", "1", "9"],
        b"\x00\x00\x00\x15\x05\x00\x00\x00\x01\x00\x00\x00\x00\x00\x00\x00\x01\x00\x00\x00\x00\x00\x00\x00\x09",
    ),
    (
        &["flush", "1"],
        b"\x00\x00\x00\x0d\x06\x00\x00\x00\x01\x00\x00\x00\x00\x00\x00\x00\x01",
    ),
    (
        &["setdelete", "1"],
        b"\x00\x00\x00\x0d\x08\x00\x00\x00\x01\x00\x00\x00\x00\x00\x00\x00\x01",
    ),
    (
        &["close", "007"],
        b"\x00\x00\x00\x0d\x09\x00\x00\x00\x01\x00\x00\x00\x00\x00\x00\x00\x07",
    ),
    (
        &["restore", "1"],
        b"\x00\x00\x00\x0d\x0a\x00\x00\x00\x01\x00\x00\x00\x00\x00\x00\x00\x01",
    ),
    (
        &["load", "meter"],
        b"\x00\x00\x00\x0a\x10\x00\x00\x00\x01meter",
    ),
    (
        &["attach", "1", "0", "a", "0100.50"],
        b"\x00\x00\x00\x0e\x11\x00\x00\x00\x01\x01\x00\x01a100.5",
    ),
    (
        &["detach", "258"],
        b"\x00\x00\x00\x07\x12\x00\x00\x00\x01\x01\x02",
    ),
    (
        &["unload", "255"],
        b"\x00\x00\x00\x06\x13\x00\x00\x00\x01\xff",
    ),
    (
        &["dismount", "0"],
        b"\x00\x00\x00\x06\x14\x00\x00\x00\x01\x00",
    ),
    (&["stop"], b"\x00\x00\x00\x05\x15\x00\x00\x00\x01"),
];

/// Words that name no request.
const REFUSED: [&[&str]; 14] = [
    &[],
    &["list"],
    &["list", "0", "0"],
    &["List", "0"],
    &["list", "256"],
    &["list", ""],
    &["detach", "65536"],
    &["read", "0", "0", "32769"],
    &["write", "0", "0", "6"],
    &["write", "0", "0", "4A"],
    &["create", "0", "open", "x"],
    &["create", "0", "new", "/x"],
    &["load", "a b"],
    &["attach", "0", "0", "a", "1.2.3"],
];

#[test]
fn command_words(rt: HostRuntime) {
    for (words, bytes) in &NAMED {
        assert!(rt; is_spelled(rt.alloc(), words, bytes));
    }
    for words in &REFUSED {
        assert!(rt; is_refused(rt.alloc(), words));
    }
}

// Whether the words start a server of the folder `d` and the socket `s`, with so many workers.
fn starts(alloc: Global, words: &[&str], workers: u8) -> bool {
    match front_of(alloc, words) {
        Ok(front) => front.folder == "d" && front.socket == "s" && front.workers == workers,
        Err(_) => false,
    }
}

fn is_no_front(alloc: Global, words: &[&str]) -> bool {
    matches!(front_of(alloc, words), Err(Status::BadRequest))
}

#[test]
fn front_words(rt: HostRuntime) {
    assert!(rt; starts(rt.alloc(), &["d", "s"], 4));
    assert!(rt; starts(rt.alloc(), &["d", "s", "--workers", "16"], 16));
    assert!(rt; starts(rt.alloc(), &["--workers=1", "d", "s"], 1));
    assert!(rt; is_no_front(rt.alloc(), &["d", "s", "--workers", "17"]));
    assert!(rt; is_no_front(rt.alloc(), &["d", "s", "--workers", "0"]));
    assert!(rt; is_no_front(rt.alloc(), &["d"]));
    assert!(rt; is_no_front(rt.alloc(), &["d", "s", "t"]));
    assert!(rt; is_no_front(rt.alloc(), &["--help"]));
    assert!(rt; is_no_front(rt.alloc(), &["--version"]));
}
