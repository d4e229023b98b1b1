//! What the server and the readers of words make of refused memory.

use crate::pipes::{BYTE_BY_BYTE, Pieces, Taken};
use fm_callback_data::{Reply, Request};
use fm_cli::{front_of, request_of};
use fm_server::{Exec, ReaderSource, ServeEnd, WriterSink, serve, status_reply};
use fm_types::Status;
use fm_wire::{Control, encode};
use std::alloc::Global;
use std::process::Abort;

// Answers each request with success, without memory.
#[derive(Drop)]
struct Agreeing {
    alloc: Global,
}

impl Exec for Agreeing {
    ghost operates = { λ old request said new. Unit {0} };

    ghost controls = { λ old control said new. Unit {0} };

    fn operate(&mut self, _request: Request) -> Reply {
        status_reply(self.alloc, Status::Success)
    }

    fn control(&mut self, _control: Control) -> Reply {
        status_reply(self.alloc, Status::Success)
    }
}

/// Three lists, and a frame fault.
const INPUT: &[u8] =
    b"\x00\x00\x00\x06\x07\x00\x00\x00\x01\x00\x00\x00\x00\x06\x07\x00\x00\x00\x02\x00\x00\x00\x00\x06\x07\x00\x00\x00\x03\x00\x00\x00\x00\x04";

/// The replies, of 18 bytes each.
const OUTPUT: &[u8] =
    b"\x00\x00\x00\x0e\x80\x00\x00\x00\x01\x00\x00\x00\x00\x00\x00\x00\x00\x00\x00\x00\x00\x0e\x80\x00\x00\x00\x02\x00\x00\x00\x00\x00\x00\x00\x00\x00\
\x00\x00\x00\x0e\x80\x00\x00\x00\x03\x00\x00\x00\x00\x00\x00\x00\x00\x00\x00\x00\x00\x0e\x80\x00\x00\x00\x00\x20\x00\x00\x00\x00\x00\x00\x00\x00";

// Whether all replies go out; or if memory is refused, the replies to the first frames.
fn is_served(rt: &impl Abort, alloc: Global) -> bool {
    let mut source = ReaderSource::new(Pieces::new(INPUT, BYTE_BY_BYTE));
    let mut sink = WriterSink::new(Taken::with_room(rt, alloc, 1_000));
    let end = serve(alloc, &mut source, &mut sink, &mut Agreeing { alloc });
    let text = sink.into_writer().into_text();
    match end {
        ServeEnd::BadFrame => text.as_slice() == OUTPUT,
        ServeEnd::NoMemory => text.len() % 18 == 0 && OUTPUT.starts_with(text.as_slice()),
        _ => false,
    }
}

// Whether the words name the list of volume 0, or memory was refused.
fn is_list(alloc: Global) -> bool {
    match request_of(alloc, &["list", "0"]) {
        Ok(frame) => match encode(alloc, &frame) {
            Ok(text) => text.as_slice() == b"\x00\x00\x00\x06\x07\x00\x00\x00\x01\x00".as_slice(),
            Err(status) => status == Status::NoMemory,
        },
        Err(status) => status == Status::NoMemory,
    }
}

// Whether the words are taken or refused as ever, or memory was refused.
fn is_front(alloc: Global, words: &[&str], workers: Option<u8>) -> bool {
    match front_of(alloc, words) {
        Ok(front) => workers == Some(front.workers),
        Err(Status::BadRequest) => workers.is_none(),
        Err(status) => status == Status::NoMemory,
    }
}

// For `rt try --test --fail-alloc N`: whichever allocation is refused, once.
#[test]
fn refused_memory(rt: HostRuntime) {
    assert!(rt; is_served(&rt, rt.alloc()));
    assert!(rt; is_list(rt.alloc()));
    assert!(rt; is_front(rt.alloc(), &["d", "s", "--workers", "3"], Some(3)));
    assert!(rt; is_front(rt.alloc(), &["d", "s", "--workers", "17"], None));
}
