//! The client program: one request, and its reply.

use crate::faults::{fault_of, outside};
use crate::program::{show_usage, tell};
use fm_callback_data::Reply;
use fm_cli::{Fault, request_of};
use fm_types::Status;
use fm_wire::{Body, Decoder, Frame, encode};
use fm_words::write_hex;
use std::alloc::{AllocError, Global};
use std::io::{Read, Write};
use std::net::{Net, TcpListener, TcpStream};
use std::os::unix::net::UnixStream;

/// How the client is used.
pub const CLIENT_USAGE: &str = "usage: fltc SOCKET WORDS";

/// How many bytes are read at once.
const PIECE: usize = 4096;

// Reads the frames that come next, at least one. A stream that ends before, that has bytes behind them, or that is none of frames, is a fault.
fn read_frames(alloc: Global, stream: &UnixStream) -> Result<Vec<Frame>, Fault> {
    let mut decoder = Decoder::new(alloc);
    let mut piece = vec![in alloc; 0u8; PIECE]?;
    let mut reader = stream;
    for _ in 0..u32::MAX {
        let count = match reader.read(piece.as_mut_slice()) {
            Ok(count) => count,
            Err(error) => return Err(outside(error)),
        };
        if count == 0 {
            break;
        }
        let frames = decoder.feed(&piece[..count]).map_err(fault_of)?;
        if !frames.is_empty() {
            return if decoder.is_between_frames() {
                Ok(frames)
            } else {
                Err(fault_of(Status::DeviceFault))
            };
        }
    }
    Err(fault_of(Status::EndOfFile))
}

// Sends the request, and takes its reply. An answer that isn't one frame under the request's number is a fault.
fn ask<R>(rt: &R, alloc: Global, socket: &str, request: &Frame) -> Result<Frame, Fault>
where
    R: Net<Listener = TcpListener, Stream = TcpStream>,
{
    let text = encode(alloc, request).map_err(fault_of)?;
    let stream = UnixStream::connect(rt, socket).map_err(outside)?;
    let mut writer = &stream;
    writer.write_all(text.as_slice()).map_err(outside)?;
    writer.flush().map_err(outside)?;
    let mut frames = read_frames(alloc, &stream)?;
    match frames.pop() {
        Some(frame) if frames.is_empty() && frame.number == request.number => Ok(frame),
        _ => Err(fault_of(Status::DeviceFault)),
    }
}

// The line for a reply.
fn line_of(
    alloc: Global,
    status: Status,
    information: u64,
    bytes: &[u8],
) -> Result<Vec<u8>, AllocError> {
    let head = format!(in alloc; "status {} info {} bytes ", status.number(), information)?;
    let mut line = Vec::new(alloc);
    line.extend_from_slice(head.as_bytes())?;
    write_hex(&mut line, bytes)?;
    line.push(b'\n')?;
    Ok(line)
}

// Prints a reply: its status. An answer that is no reply, or says that an operation is held, is a fault.
fn say<W: Write>(alloc: Global, answer: Frame, out: &mut W) -> Result<Status, Fault> {
    let Body::Reply(
        Reply::Done {
            status,
            information,
            bytes,
        },
    ) = answer.body
    else {
        return Err(fault_of(Status::DeviceFault));
    };
    let line = line_of(alloc, status, information, bytes.as_slice())?;
    out.write_all(line.as_slice()).map_err(outside)?;
    out.flush().map_err(outside)?;
    Ok(status)
}

// The request that the words stand for.
fn read(alloc: Global, words: &[&str]) -> Result<Frame, Fault> {
    match request_of(alloc, words) {
        Ok(request) => Ok(request),
        Err(Status::BadRequest) => Err(Fault::Words),
        Err(status) => Err(fault_of(status)),
    }
}

fn converse<R, W>(
    rt: &R,
    alloc: Global,
    socket: &str,
    words: &[&str],
    out: &mut W,
) -> Result<Status, Fault>
where
    R: Net<Listener = TcpListener, Stream = TcpStream>,
    W: Write,
{
    let request = read(alloc, words)?;
    let answer = ask(rt, alloc, socket, &request)?;
    say(alloc, answer, out)
}

/// The client program: sends the request that the words stand for, and prints `status S info I bytes HEX`. The exit status: 0; 1 if a growth was refused; 2,
/// and the usage is printed, for words that stand for no request; 3, and `fault` is printed, if the socket failed or the answer was no reply; 4 if the reply's
/// status isn't 0.
pub fn client<R, W>(rt: &R, alloc: Global, socket: &str, words: &[&str], out: &mut W) -> u8
where
    R: Net<Listener = TcpListener, Stream = TcpStream>,
    W: Write,
{
    match converse(rt, alloc, socket, words, out) {
        Ok(Status::Success) => 0,
        Ok(_) => 4,
        Err(fault) => {
            if matches!(fault, Fault::Words) {
                return show_usage(CLIENT_USAGE, 2, out);
            }
            tell(&fault, out)
        }
    }
}
