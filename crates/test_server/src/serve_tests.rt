//! The server over the one-thread manager.

use crate::pipes::{BYTE_BY_BYTE, Pace, WHOLE};
use crate::serving::{Row, is_so};
use fm_server::ServeEnd;

/// More room than any output takes.
const ROOM: usize = 1_000;

/// Asks for the files of volume 0 under the number 7, and the reply that there are none.
const LIST: &[u8] = b"\x00\x00\x00\x06\x07\x00\x00\x00\x07\x00";

const LISTED: &[u8] = b"\x00\x00\x00\x0e\x80\x00\x00\x00\x07\x00\x00\x00\x00\x00\x00\x00\x00\x00";

/// The reply to a frame fault.
const FAULT: &[u8] = b"\x00\x00\x00\x0e\x80\x00\x00\x00\x00\x20\x00\x00\x00\x00\x00\x00\x00\x00";

/// What goes in and out, and how it ends.
const ROWS: [Row; 8] = [
    Row {
        input: b"",
        output: b"",
        end: ServeEnd::Ended,
    },
    Row {
        input: LIST,
        output: LISTED,
        end: ServeEnd::Ended,
    },
    // a body of no bytes, and one of 33,001
    Row {
        input: b"\x00\x00\x00\x00",
        output: FAULT,
        end: ServeEnd::BadFrame,
    },
    Row {
        input: b"\x00\x00\x80\xe9",
        output: FAULT,
        end: ServeEnd::BadFrame,
    },
    // a read of 32,769 bytes, and an unknown code
    Row {
        input: b"\x00\x00\x00\x19\x02\x00\x00\x00\x01\x00\x00\x00\x00\x00\x00\x00\x00\x00\x00\x00\x00\x00\x00\x00\x00\x00\x00\x80\x01\
\x00\x00\x00\x05\x63\x00\x00\x00\x02",
        output: b"\x00\x00\x00\x0e\x80\x00\x00\x00\x01\x20\x00\x00\x00\x00\x00\x00\x00\x00\
\x00\x00\x00\x0e\x80\x00\x00\x00\x02\x20\x00\x00\x00\x00\x00\x00\x00\x00",
        end: ServeEnd::Ended,
    },
    // a stop, and a frame after it
    Row {
        input: b"\x00\x00\x00\x05\x15\x00\x00\x00\x03\x00\x00\x00\x06\x07\x00\x00\x00\x07\x00",
        output: b"\x00\x00\x00\x0e\x80\x00\x00\x00\x03\x00\x00\x00\x00\x00\x00\x00\x00\x00",
        end: ServeEnd::Stopped,
    },
    // a load of guard, its attach at 100 as `g`, a create of `deny/x`, and a dismount
    Row {
        input: b"\x00\x00\x00\x0a\x10\x00\x00\x00\x01guard\
\x00\x00\x00\x0c\x11\x00\x00\x00\x02\x00\x00\x01g100\
\x00\x00\x00\x0d\x01\x00\x00\x00\x03\x00\x02deny/x\
\x00\x00\x00\x06\x14\x00\x00\x00\x04\x00",
        output: b"\x00\x00\x00\x0e\x80\x00\x00\x00\x01\x00\x00\x00\x00\x00\x00\x00\x00\x00\
\x00\x00\x00\x0e\x80\x00\x00\x00\x02\x00\x00\x00\x00\x00\x00\x00\x00\x00\
\x00\x00\x00\x0e\x80\x00\x00\x00\x03\x11\x00\x00\x00\x00\x00\x00\x00\x00\
\x00\x00\x00\x0e\x80\x00\x00\x00\x04\x20\x00\x00\x00\x00\x00\x00\x00\x00",
        end: ServeEnd::Ended,
    },
    // frames in front of a fault
    Row {
        input: b"\x00\x00\x00\x06\x07\x00\x00\x00\x07\x00\x00\x00\x00\x04",
        output: b"\x00\x00\x00\x0e\x80\x00\x00\x00\x07\x00\x00\x00\x00\x00\x00\x00\x00\x00\
\x00\x00\x00\x0e\x80\x00\x00\x00\x00\x20\x00\x00\x00\x00\x00\x00\x00\x00",
        end: ServeEnd::BadFrame,
    },
];

#[test]
fn frame_bytes(rt: HostRuntime) {
    for row in &ROWS {
        assert!(rt; is_so(&rt, rt.alloc(), row, WHOLE, ROOM));
        assert!(rt; is_so(&rt, rt.alloc(), row, BYTE_BY_BYTE, ROOM));
    }
}

#[test]
fn cut_frames(rt: HostRuntime) {
    for count in 1..10 {
        let row = Row {
            input: &LIST[..count],
            output: b"",
            end: ServeEnd::Truncated,
        };
        assert!(rt; is_so(&rt, rt.alloc(), &row, WHOLE, ROOM));
        assert!(rt; is_so(&rt, rt.alloc(), &row, BYTE_BY_BYTE, ROOM));
    }
}

#[test]
fn serve_faults(rt: HostRuntime) {
    let pace = Pace {
        most: 16_384,
        fails: true,
    };
    let read = Row {
        input: LIST,
        output: LISTED,
        end: ServeEnd::ReadFault,
    };
    let write = Row {
        input: LIST,
        output: b"\x00\x00\x00\x0e\x80",
        end: ServeEnd::WriteFault,
    };
    assert!(rt; is_so(&rt, rt.alloc(), &read, pace, ROOM));
    assert!(rt; is_so(&rt, rt.alloc(), &write, WHOLE, 5));
}
