//! Frames with their bytes, written by hand from the table.

use fm_altitude::Altitude;
use fm_callback_data::{FileRequest, Reply, Request};
use fm_types::{
    Bytes, CreateMode, FilterId, HandleId, InstanceId, Name, OpId, RelPath, SharedPath, Status,
    VolumeId,
};
use fm_wire::{Body, Control, Decoder, Frame, encode};
use std::alloc::Global;
use std::process::Abort;

// The number of each frame here.
const NUMBER: u32 = 0x0102_0304;

// What a frame says, as data.
enum Says {
    /// A create of `a/b` on volume 3.
    Creates(CreateMode),
    /// A request on handle 0x0506.
    Asks(Asked),
    /// A list of volume 7.
    Lists,
    Manages(Managed),
    Replies(Status, u64, &'static [u8]),
    /// A reply of so many zeros.
    RepliesZeros(usize),
    /// Operation 0x0506 is held.
    Holds,
    Refuses,
}

// What is asked of a file.
enum Asked {
    /// So many bytes.
    Reads(u32),
    Writes(&'static [u8]),
    /// A write of so many zeros.
    WritesZeros(usize),
    QueriesSize,
    SetsSize,
    Flushes,
    SetsDelete,
    Restores,
    Cleans,
    Closes,
}

// How filters are managed.
enum Managed {
    /// The filter `shift`.
    Loads,
    /// An instance `i0` of filter 2 on volume 1, at altitude 100.5.
    Attaches,
    /// Instance 0x0102.
    Detaches,
    /// Filter 3.
    Unloads,
    /// Volume 7.
    Dismounts,
    Stops,
}

use Asked::{
    Cleans, Closes, Flushes, QueriesSize, Reads, Restores, SetsDelete, SetsSize, Writes,
    WritesZeros,
};
use Managed::{Attaches, Detaches, Dismounts, Loads, Stops, Unloads};
use Says::{Asks, Creates, Holds, Lists, Manages, Refuses, Replies, RepliesZeros};

fn copy(rt: &impl Abort, alloc: Global, bytes: &[u8]) -> Bytes {
    Bytes::copy_of(alloc, bytes).expect(rt, "memory")
}

fn zeros(rt: &impl Abort, alloc: Global, len: usize) -> Bytes {
    Bytes::from_vec(Vec::from_elem(alloc, 0, len).expect(rt, "memory"))
}

fn name(rt: &impl Abort, text: &[u8]) -> Name {
    Name::read(text).expect(rt, "a name")
}

fn path(rt: &impl Abort, alloc: Global) -> SharedPath {
    let path = RelPath::read(b"a/b").expect(rt, "a path");
    SharedPath::new(alloc, path).expect(rt, "memory")
}

fn write(bytes: Bytes) -> FileRequest {
    FileRequest::Write {
        offset: 1 << 32,
        bytes,
    }
}

fn file_request(rt: &impl Abort, alloc: Global, asked: &Asked) -> FileRequest {
    match asked {
        Reads(len) => FileRequest::Read {
            offset: 0x0003_0000,
            len: *len,
        },
        Writes(bytes) => write(copy(rt, alloc, bytes)),
        WritesZeros(len) => write(zeros(rt, alloc, *len)),
        QueriesSize => FileRequest::QuerySize,
        SetsSize => FileRequest::SetSize {
            size: 0x0100_0000_0002,
        },
        Flushes => FileRequest::Flush,
        SetsDelete => FileRequest::SetDelete,
        Restores => FileRequest::Restore,
        Cleans => FileRequest::Cleanup,
        Closes => FileRequest::Close,
    }
}

fn control(rt: &impl Abort, managed: &Managed) -> Control {
    match managed {
        Loads => Control::Load {
            name: name(rt, b"shift"),
        },
        Attaches => Control::Attach {
            filter: FilterId(2),
            volume: VolumeId(1),
            name: name(rt, b"i0"),
            altitude: Altitude::read(b"0100.50").expect(rt, "an altitude"),
        },
        Detaches => Control::Detach {
            instance: InstanceId(0x0102),
        },
        Unloads => Control::Unload {
            filter: FilterId(3),
        },
        Dismounts => Control::Dismount {
            volume: VolumeId(7),
        },
        Stops => Control::Stop,
    }
}

fn reply(status: Status, information: u64, bytes: Bytes) -> Body {
    Body::Reply(Reply::Done {
        status,
        information,
        bytes,
    })
}

fn body(rt: &impl Abort, alloc: Global, says: &Says) -> Body {
    match says {
        Creates(mode) => Body::Operation(Request::Create {
            volume: VolumeId(3),
            path: path(rt, alloc),
            mode: *mode,
        }),
        Asks(asked) => Body::Operation(Request::OnHandle {
            handle: HandleId(0x0506),
            request: file_request(rt, alloc, asked),
        }),
        Lists => Body::Operation(Request::List {
            volume: VolumeId(7),
        }),
        Manages(managed) => Body::Control(control(rt, managed)),
        Replies(status, information, bytes) => {
            reply(*status, *information, copy(rt, alloc, bytes))
        }
        RepliesZeros(len) => reply(Status::Success, 0, zeros(rt, alloc, *len)),
        Holds => Body::Reply(Reply::Held(OpId(0x0506))),
        Refuses => Body::Refused(Status::BadPath),
    }
}

// Feeds a piece, once more where memory is refused. One refusal in a row is met.
fn fed(decoder: &mut Decoder, piece: &[u8]) -> Result<Vec<Frame>, Status> {
    match decoder.feed(piece) {
        Err(Status::NoMemory) => decoder.feed(piece),
        answer => answer,
    }
}

// Encodes a frame, once more where memory is refused.
fn encoded(alloc: Global, frame: &Frame) -> Result<Bytes, Status> {
    match encode(alloc, frame) {
        Err(Status::NoMemory) => encode(alloc, frame),
        answer => answer,
    }
}

// Whether the frame has that one spelling.
fn is_spelled(alloc: Global, frame: &Frame, bytes: &[u8]) -> bool {
    match encoded(alloc, frame) {
        Ok(text) => text.as_slice() == bytes,
        Err(_) => false,
    }
}

// How many frames end with the piece, all of which have that spelling.
fn ended(
    rt: &impl Abort,
    alloc: Global,
    decoder: &mut Decoder,
    piece: &[u8],
    bytes: &[u8],
) -> usize {
    let frames = fed(decoder, piece).expect(rt, "frames");
    for frame in &frames {
        assert!(rt; is_spelled(alloc, frame, bytes));
    }
    frames.len()
}

// How many frames the bytes are, fed one by one.
fn one_by_one(rt: &impl Abort, alloc: Global, bytes: &[u8]) -> usize {
    let mut decoder = Decoder::new(alloc);
    let mut count = 0usize;
    for byte in bytes {
        count = count.saturating_add(ended(rt, alloc, &mut decoder, &[*byte], bytes));
    }
    count
}

fn frame(rt: &impl Abort, alloc: Global, says: &Says) -> Frame {
    Frame {
        number: NUMBER,
        body: body(rt, alloc, says),
    }
}

// What frames say, beside their bytes.
const SPELLED: &[(Says, &[u8])] = &[
    (
        Creates(CreateMode::Existing),
        &[0, 0, 0, 10, 1, 1, 2, 3, 4, 3, 0, b'a', b'/', b'b'],
    ),
    (
        Creates(CreateMode::New),
        &[0, 0, 0, 10, 1, 1, 2, 3, 4, 3, 1, b'a', b'/', b'b'],
    ),
    (
        Creates(CreateMode::Always),
        &[0, 0, 0, 10, 1, 1, 2, 3, 4, 3, 2, b'a', b'/', b'b'],
    ),
    // as many bytes as may be
    (
        Asks(Reads(32_768)),
        &[
            0, 0, 0, 25, 2, 1, 2, 3, 4, 0, 0, 0, 0, 0, 0, 5, 6, 0, 0, 0, 0, 0, 3, 0, 0, 0, 0, 0x80,
            0,
        ],
    ),
    (
        Asks(Writes(&[0x61, 0x62, 0xff])),
        &[
            0, 0, 0, 24, 3, 1, 2, 3, 4, 0, 0, 0, 0, 0, 0, 5, 6, 0, 0, 0, 1, 0, 0, 0, 0, 0x61, 0x62,
            0xff,
        ],
    ),
    (
        Asks(QueriesSize),
        &[0, 0, 0, 13, 4, 1, 2, 3, 4, 0, 0, 0, 0, 0, 0, 5, 6],
    ),
    (
        Asks(SetsSize),
        &[
            0, 0, 0, 21, 5, 1, 2, 3, 4, 0, 0, 0, 0, 0, 0, 5, 6, 0, 0, 1, 0, 0, 0, 0, 2,
        ],
    ),
    (
        Asks(Flushes),
        &[0, 0, 0, 13, 6, 1, 2, 3, 4, 0, 0, 0, 0, 0, 0, 5, 6],
    ),
    (Lists, LIST),
    (
        Asks(SetsDelete),
        &[0, 0, 0, 13, 8, 1, 2, 3, 4, 0, 0, 0, 0, 0, 0, 5, 6],
    ),
    (
        Asks(Closes),
        &[0, 0, 0, 13, 9, 1, 2, 3, 4, 0, 0, 0, 0, 0, 0, 5, 6],
    ),
    (
        Asks(Restores),
        &[0, 0, 0, 13, 10, 1, 2, 3, 4, 0, 0, 0, 0, 0, 0, 5, 6],
    ),
    (
        Manages(Loads),
        &[0, 0, 0, 10, 16, 1, 2, 3, 4, b's', b'h', b'i', b'f', b't'],
    ),
    (
        Manages(Attaches),
        &[
            0, 0, 0, 15, 17, 1, 2, 3, 4, 2, 1, 2, b'i', b'0', b'1', b'0', b'0', b'.', b'5',
        ],
    ),
    (Manages(Detaches), &[0, 0, 0, 7, 18, 1, 2, 3, 4, 1, 2]),
    (Manages(Unloads), &[0, 0, 0, 6, 19, 1, 2, 3, 4, 3]),
    (Manages(Dismounts), &[0, 0, 0, 6, 20, 1, 2, 3, 4, 7]),
    (Manages(Stops), &[0, 0, 0, 5, 21, 1, 2, 3, 4]),
    (
        Replies(Status::Success, 0, &[]),
        &[0, 0, 0, 14, 128, 1, 2, 3, 4, 0, 0, 0, 0, 0, 0, 0, 0, 0],
    ),
    (
        Replies(Status::Success, 3, &[0x61, 0x62, 0xff]),
        &[
            0, 0, 0, 17, 128, 1, 2, 3, 4, 0, 0, 0, 0, 0, 0, 0, 0, 3, 0x61, 0x62, 0xff,
        ],
    ),
    (
        Replies(Status::BadRequest, 0, &[]),
        &[0, 0, 0, 14, 128, 1, 2, 3, 4, 32, 0, 0, 0, 0, 0, 0, 0, 0],
    ),
    (
        Replies(Status::Busy(0x0102), 0x0102, &[]),
        &[0, 0, 0, 14, 128, 1, 2, 3, 4, 34, 0, 0, 0, 0, 0, 0, 1, 2],
    ),
    (
        Holds,
        &[0, 0, 0, 13, 129, 1, 2, 3, 4, 0, 0, 0, 0, 0, 0, 5, 6],
    ),
];

// Whether what is said has those bytes as its spelling, and they are one frame that has it too.
fn is_exact(rt: &impl Abort, alloc: Global, says: &Says, bytes: &[u8]) -> bool {
    let frame = frame(rt, alloc, says);
    is_spelled(alloc, &frame, bytes) && one_by_one(rt, alloc, bytes) == 1
}

// The number of the first row that isn't so.
fn other_row(rt: &impl Abort, alloc: Global, rows: &[(Says, &[u8])]) -> Option<usize> {
    for (number, (says, bytes)) in rows.iter().enumerate() {
        if !is_exact(rt, alloc, says, bytes) {
            return Some(number);
        }
    }
    None
}

#[test]
fn frame_bytes(rt: HostRuntime) {
    assert_eq!(rt; other_row(&rt, rt.alloc(), SPELLED), None);
}

// Bytes of frames that say nothing, with the number and the status that are told.
const REFUSED: &[(&[u8], u32, Status)] = &[
    (
        &[
            0, 0, 0, 25, 2, 0, 0, 0, 1, 0, 0, 0, 0, 0, 0, 0, 0, 0, 0, 0, 0, 0, 0, 0, 0, 0, 0, 0x80,
            1,
        ],
        1,
        Status::BadRequest,
    ),
    (&[0, 0, 0, 5, 0x63, 0, 0, 0, 2], 2, Status::BadRequest),
    (
        &[0, 0, 0, 11, 1, 0, 0, 0, 1, 0, 0, b'a', b'/', b'/', b'b'],
        1,
        Status::BadPath,
    ),
    (
        &[0, 0, 0, 8, 16, 0, 0, 0, 2, b'a', b' ', b'b'],
        2,
        Status::BadName,
    ),
    (
        &[0, 0, 0, 11, 17, 0, 0, 0, 3, 0, 0, 1, b'i', b'+', b'1'],
        3,
        Status::BadAltitude,
    ),
    // the name is read first
    (
        &[0, 0, 0, 11, 17, 0, 0, 0, 4, 0, 0, 1, b' ', b'+', b'1'],
        4,
        Status::BadName,
    ),
    // no mode is 3
    (
        &[0, 0, 0, 8, 1, 0, 0, 0, 1, 0, 3, b'/'],
        1,
        Status::BadRequest,
    ),
    // a name past the end
    (
        &[0, 0, 0, 9, 17, 0, 0, 0, 2, 0, 0, 2, b' '],
        2,
        Status::BadRequest,
    ),
    // a field too many
    (&[0, 0, 0, 6, 21, 0, 0, 0, 3, 0], 3, Status::BadRequest),
    // a byte too few
    (&[0, 0, 0, 6, 18, 0, 0, 0, 4, 0], 4, Status::BadRequest),
    // no status is 35
    (
        &[0, 0, 0, 14, 128, 0, 0, 0, 5, 35, 0, 0, 0, 0, 0, 0, 0, 0],
        5,
        Status::BadRequest,
    ),
    (&[0, 0, 0, 5, 0x63, 0, 0, 0, 0], 0, Status::BadRequest),
];

// Whether the decoder gives one frame for the bytes, so refused under that number.
fn is_refused(
    decoder: &mut Decoder,
    bytes: &[u8],
    number: u32,
    status: Status,
) -> Result<bool, Status> {
    let frames = decoder.feed(bytes)?;
    Ok(match frames.as_slice() {
        [frame] => {
            frame.number == number && matches!(frame.body, Body::Refused(told) if told == status)
        }
        _ => false,
    })
}

// The first number under which one decoder doesn't refuse what the row has.
fn other_refusal(alloc: Global, rows: &[(&[u8], u32, Status)]) -> Option<u32> {
    let mut decoder = Decoder::new(alloc);
    for (bytes, number, status) in rows {
        if is_refused(&mut decoder, bytes, *number, *status) != Ok(true) {
            return Some(*number);
        }
    }
    None
}

#[test]
fn serve_faults(rt: HostRuntime) {
    assert_eq!(rt; other_refusal(rt.alloc(), REFUSED), None);
}

// The bytes of a list of volume 7.
const LIST: &[u8] = &[0, 0, 0, 6, 7, 1, 2, 3, 4, 7];

// Lengths that no frame has, whole and in pieces.
const FAULTS: &[&[&[u8]]] = &[
    &[&[0, 0, 0, 0]],
    &[&[0, 0, 0, 0, 1]],
    &[&[0, 0, 0x80, 0xe9]],
    &[&[0, 0], &[0], &[4]],
    &[LIST, LIST, &[0, 0, 0, 4]],
];

// What the decoder says of the last of the pieces, and of whatever comes behind it.
fn faults(alloc: Global, pieces: &[&[u8]]) -> [Option<Status>; 3] {
    let mut decoder = Decoder::new(alloc);
    let mut told = None;
    for piece in pieces {
        told = decoder.feed(piece).err();
    }
    [told, decoder.feed(&[]).err(), decoder.feed(LIST).err()]
}

// Two lists, and a length that no frame has.
const IN_FRONT: &[u8] = &[
    0, 0, 0, 6, 7, 1, 2, 3, 4, 7, 0, 0, 0, 6, 7, 1, 2, 3, 4, 7, 0, 0, 0, 0, 1,
];

// How many frames there are in front of the fault, and what is said to an empty piece behind it.
fn in_front(alloc: Global) -> (Result<usize, Status>, Option<Status>) {
    let mut decoder = Decoder::new(alloc);
    let count = match decoder.feed(IN_FRONT) {
        Ok(frames) => Ok(frames.len()),
        Err(status) => Err(status),
    };
    (count, decoder.feed(&[]).err())
}

// The number of the first of them of which something else is said than 32.
fn other_fault(alloc: Global, rows: &[&[&[u8]]]) -> Option<usize> {
    for (number, pieces) in rows.iter().enumerate() {
        if faults(alloc, pieces) != [Some(Status::BadRequest); 3] {
            return Some(number);
        }
    }
    None
}

#[test]
fn frame_faults(rt: HostRuntime) {
    assert_eq!(rt; other_fault(rt.alloc(), FAULTS), None);
    assert_eq!(rt; in_front(rt.alloc()), (Ok(2), Some(Status::BadRequest)));
}

// What comes of a body of that length under an unknown code, behind its length.
fn told_of(rt: &impl Abort, alloc: Global, len: u32) -> Result<bool, Status> {
    let mut bytes = Vec::new(alloc);
    bytes
        .extend_from_slice(&len.to_be_bytes())
        .expect(rt, "memory");
    bytes.push(0x63).expect(rt, "memory");
    bytes.resize(len as usize + 4, 0).expect(rt, "memory");
    let mut decoder = Decoder::new(alloc);
    is_refused(&mut decoder, bytes.as_slice(), 0, Status::BadRequest)
}

const LENGTHS: &[(u32, Result<bool, Status>)] = &[
    (4, Err(Status::BadRequest)),
    (5, Ok(true)),
    (33_000, Ok(true)),
    (33_001, Err(Status::BadRequest)),
];

#[test]
fn longest_frame(rt: HostRuntime) {
    for (len, told) in LENGTHS {
        assert_eq!(rt; told_of(&rt, rt.alloc(), *len), *told, "{len} bytes");
    }
}

// The spelling's length, or the refusal.
fn spelled_len(alloc: Global, frame: &Frame) -> Result<usize, Status> {
    match encode(alloc, frame) {
        Ok(text) => Ok(text.len()),
        Err(status) => Err(status),
    }
}

const BAD: Result<usize, Status> = Err(Status::BadRequest);

// What frames say, and the length of their spelling, if they have one.
const LIMITS: &[(Says, Result<usize, Status>)] = &[
    (Asks(WritesZeros(32_768)), Ok(32_793)),
    (Asks(WritesZeros(32_769)), BAD),
    (RepliesZeros(32_986), Ok(33_004)),
    (RepliesZeros(32_987), BAD),
    (Asks(Reads(32_769)), BAD),
    (Replies(Status::Busy(2), 2, &[]), Ok(18)),
    (Replies(Status::Busy(2), 3, &[]), BAD),
    (Replies(Status::EndOfFile, 3, &[]), Ok(18)),
    (Refuses, BAD),
    (Asks(Cleans), BAD),
];

#[test]
fn frames_without_a_spelling(rt: HostRuntime) {
    let alloc = rt.alloc();
    for (says, len) in LIMITS {
        assert_eq!(rt; spelled_len(alloc, &frame(&rt, alloc, says)), *len);
    }
}

// A write, in pieces and whole.
const WRITE: &[u8] = &[
    0, 0, 0, 24, 3, 0, 0, 0, 2, 0, 0, 0, 0, 0, 0, 0, 5, 0, 0, 0, 0, 0, 0, 0, 1, 0x61, 0x62, 0x63,
];

const WRITE_IN_PIECES: &[&[u8]] = &[
    &[0, 0, 0],
    &[24, 3, 0, 0, 0, 2, 0, 0, 0, 0, 0, 0, 0, 5, 0, 0, 0],
    &[0, 0, 0, 0, 1, 0x61, 0x62, 0x63],
    WRITE,
];

// How many frames the pieces are, all of which have that spelling.
fn count(rt: &impl Abort, alloc: Global, pieces: &[&[u8]], bytes: &[u8]) -> usize {
    let mut decoder = Decoder::new(alloc);
    let mut count = 0usize;
    for piece in pieces {
        count = count.saturating_add(ended(rt, alloc, &mut decoder, piece, bytes));
    }
    count
}

// Says the same whichever one allocation of it is refused.
#[test]
fn refused_memory(rt: HostRuntime) {
    assert_eq!(rt; count(&rt, rt.alloc(), WRITE_IN_PIECES, WRITE), 2);
}
