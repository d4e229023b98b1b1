//! Frames: encodes writes of 4,096 bytes, and decodes a stream of such frames that comes in pieces of 65,536 bytes, for so many times 256 frames.

use fm_callback_data::{FileRequest, Request};
use fm_types::{Bytes, HandleId, Status};
use fm_wire::{Body, Decoder, Frame, encode};
use std::alloc::Global;
use std::io;
use std::time::{Duration, Instant};

/// How many bytes each frame writes.
const WRITTEN: usize = 4_096;

/// How many frames are made or read in one round.
const FRAMES: u32 = 256;

/// How many bytes a piece of the stream has.
const PIECE: usize = 65_536;

fn write_frame(alloc: Global) -> Result<Frame, Status> {
    let mut bytes = Bytes::new(alloc);
    bytes.set_len(WRITTEN)?;
    Ok(Frame {
        number: 1,
        body: Body::Operation(Request::OnHandle {
            handle: HandleId(0),
            request: FileRequest::Write { offset: 0, bytes },
        }),
    })
}

// Encodes the frame as often as a round has frames; the answer is the stream that they make.
fn stream_of(alloc: Global, frame: &Frame) -> Result<Vec<u8>, Status> {
    let mut stream = Vec::new(alloc);
    for _ in 0..FRAMES {
        stream.extend_from_slice(encode(alloc, frame)?.as_slice())?;
    }
    Ok(stream)
}

// Encodes so many rounds of frames; the answer is how many bytes they have.
fn encode_rounds(alloc: Global, frame: &Frame, rounds: u64) -> Result<u64, Status> {
    let mut made = 0u64;
    for _ in 0..rounds {
        made = made.wrapping_add(encode_round(alloc, frame)?);
    }
    Ok(made)
}

fn encode_round(alloc: Global, frame: &Frame) -> Result<u64, Status> {
    let mut made = 0u64;
    for _ in 0..FRAMES {
        made = made.wrapping_add(encode(alloc, frame)?.len() as u64);
    }
    Ok(made)
}

// Decodes the stream so many times over, as one stream; the answer is how many bytes it has.
fn decode_rounds(alloc: Global, stream: &[u8], rounds: u64) -> Result<u64, Status> {
    let mut decoder = Decoder::new(alloc);
    let mut read = 0u64;
    for _ in 0..rounds {
        read = read.wrapping_add(decode_round(&mut decoder, stream)?);
    }
    Ok(read)
}

fn decode_round(decoder: &mut Decoder, stream: &[u8]) -> Result<u64, Status> {
    let mut frames = 0;
    for piece in stream.chunks(PIECE) {
        frames = decoder.feed(piece)?.len().wrapping_add(frames);
    }
    if frames != FRAMES as usize {
        return Err(Status::BadRequest);
    }
    Ok(stream.len() as u64)
}

// How many megabytes a second, where so many bytes took so long.
fn megabytes_a_second(bytes: u64, time: Duration) -> u128 {
    let microseconds = time.as_micros().max(1);
    u128::from(bytes) / microseconds
}

fn failed(_status: Status) -> io::Error {
    io::Error::from(io::ErrorKind::Other)
}

/// Encodes and decodes that many rounds, once where no number is given, and prints how many megabytes passed in a second each way.
pub fn measure(rt: &HostRuntime, given: Option<u64>) -> io::Result<()> {
    let rounds = given.unwrap_or(1);
    let alloc = rt.alloc();
    let frame = write_frame(alloc).map_err(failed)?;
    let start = Instant::now(rt)?;
    let made = encode_rounds(alloc, &frame, rounds).map_err(failed)?;
    let encoding = start.elapsed(rt)?;
    let stream = stream_of(alloc, &frame).map_err(failed)?;
    let start = Instant::now(rt)?;
    let read = decode_rounds(alloc, stream.as_slice(), rounds).map_err(failed)?;
    let decoding = start.elapsed(rt)?;
    if given.is_some() {
        let (encoded, decoded) = (
            megabytes_a_second(made, encoding),
            megabytes_a_second(read, decoding),
        );
        println!(rt; "encoded {encoded}, decoded {decoded} megabytes a second")?;
    }
    Ok(())
}
