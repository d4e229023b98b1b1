//! The decoder: frames out of a stream that comes in pieces.

ghost use Rattle.std.specs.Prelude.{◌≡◌, ◌≤◌, ◌↔◌, ◌⊎◌, ◌++◌, [], Ok, Err, Some, None, IsTrue, IfSome, IfOk, IfErr, OnErr, OnOk, drop, length};
ghost use Rattle.fm_wire.specs.Stream.{Gives, IsFault, Refuses, Splits};

use crate::frame::Frame;
use crate::stream::{is_fault, is_fault_across, read_frames};
use fm_types::Status;
use std::alloc::{AllocError, Global};
use std::marker::Model;

/// Reads a stream of frames that comes in pieces, however it is cut. Between two pieces it holds less
/// than one frame. Contracts see the bytes that it holds, or `None` once it met a frame fault.
#[derive(Drop)]
pub struct Decoder {
    alloc: Global,
    held: Vec<u8>,
    is_broken: bool,
}

impl Model for Decoder {
    ghost use Rattle.std.specs.Prelude.{List, ℕ, Option, Some, None, cond};
    ghost use Rattle.fm_wire.specs.Stream.{IsPartial};

    ghost Value = { Option (List ℕ) };

    ghost view = { λ decoder. cond decoder.is_broken None (Some decoder.held.items) };

    ghost invariant = { λ decoder. IsPartial decoder.held.items };
}

// Takes the whole frames of a piece behind which nothing is held, and holds the rest of it. So the bytes
// of a frame that comes in one piece are copied once.
fn take_from_piece(alloc: Global, held: &mut Vec<u8>, piece: &[u8]) -> Result<Vec<Frame>, Status>
    requires { held.old.items ≡ [] }
    ensures ok { IfOk result (λ frames. Splits piece.now frames.items held.new.items) }
    ensures err { OnErr result (held.new.items ≡ held.old.items) }
    ensures refused { IfErr result (λ status. status ≡ Status.NoMemory) }
{
    let (frames, used) = read_frames(alloc, piece)?;
    held.extend_from_slice(&piece[used..])?;
    Ok(frames)
}

// Lets go of so many bytes at the front. The rest moves at once; a drain would turn it round, and take off byte by byte.
fn keep_from(held: &mut Vec<u8>, count: usize) -> Result<(), AllocError>
    requires { count ≤ length held.old.items }
    ensures ok { OnOk result (held.new.items ≡ drop count held.old.items) }
    ensures err { OnErr result (held.new.items ≡ held.old.items) }
{
    if count > 0 {
        let rest = held.split_off(count)?;
        *held = rest;
    }
    Ok(())
}

// Takes the whole frames from the front.
fn take_front(alloc: Global, held: &mut Vec<u8>) -> Result<Vec<Frame>, Status>
    ensures ok { IfOk result (λ frames. Splits held.old.items frames.items held.new.items) }
    ensures err { OnErr result (held.new.items ≡ held.old.items) }
    ensures refused { IfErr result (λ status. status ≡ Status.NoMemory) }
{
    let (frames, used) = read_frames(alloc, held.as_slice())?;
    keep_from(held, used)?;
    Ok(frames)
}

// Appends the piece to what is held, and takes the whole frames from the front.
fn take_from_held(alloc: Global, held: &mut Vec<u8>, piece: &[u8]) -> Result<Vec<Frame>, Status>
    ensures ok { IfOk result (λ frames. Splits (held.old.items ++ piece.now) frames.items held.new.items) }
    ensures err { OnErr result (held.new.items ≡ held.old.items) }
    ensures refused { IfErr result (λ status. status ≡ Status.NoMemory) }
{
    let before = held.len();
    held.extend_from_slice(piece)?;
    match take_front(alloc, held) {
        Ok(frames) => Ok(frames),
        Err(status) => {
            held.truncate(before);
            Err(status)
        }
    }
}

fn take_frames(alloc: Global, held: &mut Vec<u8>, piece: &[u8]) -> Result<Vec<Frame>, Status>
    ensures ok { IfOk result (λ frames. Splits (held.old.items ++ piece.now) frames.items held.new.items) }
    ensures err { OnErr result (held.new.items ≡ held.old.items) }
    ensures refused { IfErr result (λ status. status ≡ Status.NoMemory) }
{
    if held.is_empty() {
        take_from_piece(alloc, held, piece)
    } else {
        take_from_held(alloc, held, piece)
    }
}

impl Decoder {
    /// A decoder at the beginning of a stream; takes no memory.
    pub fn new(alloc: Global) -> Decoder
        ensures { result ≡ Some [] }
    {
        Decoder {
            alloc,
            held: Vec::new(alloc),
            is_broken: false,
        }
    }

    /// Whether nothing is held: what was fed ends where a frame ends. Says nothing of a decoder that met a
    /// frame fault.
    pub fn is_between_frames(&self) -> bool
        ensures { IfSome self.now (λ held. IsTrue result ↔ (held ≡ [])) }
    {
        self.held.is_empty()
    }

    /// Whether the decoder met a frame fault, and takes nothing any more: the next piece would be refused with 32.
    pub fn is_at_fault(&self) -> bool
        ensures { IsTrue result ↔ (self.now ≡ None) }
    {
        self.is_broken
    }

    /// Takes the next piece of the stream, and gives the frames that are whole now, in their order. A
    /// frame that says nothing is among them, as a refused one.
    ///
    /// 32 (`BadRequest`) where a length that is no body's stands in a frame's place (a frame fault), from
    /// then on for each piece, an empty one too; frames that stand in front of it in the piece are given
    /// first. 1 (`NoMemory`) where memory is refused; the decoder is then as before, and the same piece
    /// may be fed again.
    pub fn feed(&mut self, piece: &[u8]) -> Result<Vec<Frame>, Status>
        ensures ok { IfOk result (λ frames. Gives self.old piece.now frames.items self.new) }
        ensures refused { (result ≡ Err Status.BadRequest) ↔ Refuses self.old piece.now }
        ensures broken { result ≡ Err Status.BadRequest → self.new ≡ None }
        ensures memory { result ≡ Err Status.NoMemory → self.new ≡ self.old }
        ensures errors { IfErr result (λ status. (status ≡ Status.BadRequest) ⊎ (status ≡ Status.NoMemory)) }
    {
        if self.is_broken {
            return Err(Status::BadRequest);
        }
        if is_fault_across(self.held.as_slice(), piece) {
            self.held.clear();
            self.is_broken = true;
            return Err(Status::BadRequest);
        }
        let frames = take_frames(self.alloc, &mut self.held, piece)?;
        if is_fault(self.held.as_slice()) {
            self.held.clear();
            self.is_broken = true;
        }
        Ok(frames)
    }
}
