//! A filter that scans what is opened.

ghost use Rattle.std.specs.Prelude.{◌≡◌};
ghost use Rattle.fm_callback_data.specs.Data.{current_of};
ghost use Rattle.fm_samples.specs.Scan.{AsksMark, Marks, ReadsHead, ScansCalls, ScansFile, ScansOpened, ScansPre, opened};
ghost use Rattle.fm_samples.specs.Common.{IsBarePost};

use crate::common::{plain_completion, set_unless_there};
use fm_callback_data::{CallbackData, Completion, Params, PostVerdict, PreVerdict};
use fm_filter::{Agreeable, Port};
use fm_types::{Bytes, ContextKind, ContextMask, HandleId, OpMask, Registration, Status};
use fm_world::About;
use std::alloc::Global;

/// Reads the first four bytes of each file that is opened, below itself, and denies reads by a handle of a file that began with `foul` (what a scanner does). A
/// context of the handle marks it. If a call is refused the file passes.
#[derive(Clone, Copy)]
pub struct Scan {
    alloc: Global,
}

// The handle that a create opened.
fn opened(about: Result<About, Status>) -> Option<HandleId>
    ensures { result ≡ opened about }
{
    match about {
        Ok(about) => about.operation?.handle,
        Err(_) => None,
    }
}

// Whether a file begins with the four bytes.
fn begins_foul<P: Port>(port: &mut P, handle: HandleId) -> bool
    ensures calls { ReadsHead P.Port handle result port.old port.new }
    ensures far { P.kept port.new ≡ P.kept port.old }
{
    match port.read(handle, 0, 4) {
        Ok(answer) => answer.bytes.as_slice().starts_with(b"foul"),
        Err(_) => false,
    }
}

// Whether the callback's handle is marked.
fn is_marked<P: Port>(port: &mut P) -> bool
    ensures calls { AsksMark P.Port result port.old port.new }
    ensures far { P.kept port.new ≡ P.kept port.old }
{
    match port.get(ContextKind::Handle) {
        Ok(context) => {
            let _ = port.release(context);
            true
        }
        Err(_) => false,
    }
}

impl Scan {
    /// The filter, which takes no memory.
    pub fn new(alloc: Global) -> Scan {
        Scan { alloc }
    }

    // Marks the callback's handle.
    fn mark<P: Port>(&self, port: &mut P)
        ensures calls { Marks P.Port port.old port.new }
        ensures far { P.kept port.new ≡ P.kept port.old }
    {
        let body = Bytes::new(self.alloc);
        if let Some(context) = set_unless_there(port, ContextKind::Handle, body) {
            let _ = port.release(context);
        }
    }

    // Scans the file of a handle.
    fn scan<P: Port>(&self, port: &mut P, handle: HandleId)
        ensures calls { ScansFile P.Port handle port.old port.new }
        ensures far { P.kept port.new ≡ P.kept port.old }
    {
        if begins_foul(port, handle) {
            self.mark(port);
        }
    }
}

impl Agreeable for Scan {
    ghost use Rattle.fm_samples.specs.Scan.{ScansPre, scan_registers};
    ghost use Rattle.fm_samples.specs.Common.{IsBarePost, CountsNothing};

    ghost registers = { λ _. scan_registers };

    ghost pre_may = { λ _. ScansPre };

    ghost post_may = { λ _. IsBarePost };

    ghost cleanup_may = { λ _. CountsNothing };

    ghost is_quiet = { λ _. ⊥ };

    fn registration(&self) -> Registration {
        Registration {
            pre: OpMask(OpMask::CREATE.0 | OpMask::READ.0),
            post: OpMask::CREATE,
            contexts: ContextMask::HANDLE,
            query: true,
            unload: true,
        }
    }

    fn pre<P: Port>(&self, lent: &mut CallbackData, port: &mut P) -> PreVerdict
        ensures may { ScansPre lent.old result lent.new }
        ensures kept { lent.new.received ≡ lent.old.received }
        ensures calls { ScansCalls P.Port (current_of lent.old) result port.old port.new }
        ensures far { P.kept port.new ≡ P.kept port.old }
    {
        match lent.params() {
            Params::Create { .. } => PreVerdict::WithCallback(plain_completion()),
            Params::Read { .. } if is_marked(port) => PreVerdict::Complete(Status::AccessDenied),
            _ => PreVerdict::NoCallback,
        }
    }

    fn post<P: Port>(
        &self,
        _lent: &mut CallbackData,
        _completion: Completion,
        port: &mut P,
    ) -> PostVerdict
        ensures may { IsBarePost _lent.old _completion result _lent.new }
        ensures kept { _lent.new.received ≡ _lent.old.received }
        ensures calls { ScansOpened P.Port port.old port.new }
        ensures far { P.kept port.new ≡ P.kept port.old }
    {
        if let Some(handle) = opened(port.about()) {
            self.scan(port, handle);
        }
        PostVerdict::Finished
    }

    fn cleanup(&self, _kind: ContextKind, _body: &[u8]) -> u64 {
        0
    }
}
