//! The bodies of contexts: bytes that the filter manager doesn't read.

ghost use Rattle.std.specs.Prelude.{◌≡◌, ◌<◌, ◌≤◌, ◌+◌, true, is_some, nat_lt, length};
ghost use Rattle.fm_types.specs.Refusals.{Answers, AnswersOrMemory};
ghost use Rattle.fm_ctx.specs.Table.{context_at};
ghost use Rattle.fm_ctx.specs.Bodies.{Bumps, body_at, bumped, bump_refusal, kept_rewritten, raised, read_refusal, write_refusal};

use crate::contexts::Contexts;
use fm_types::{Bytes, CtxId, Status, WorkerId};

// Whether eight bytes from that place on end past the length.
fn is_past(place: u64, len: usize) -> bool
    ensures { result ≡ nat_lt len (place + 8) }
{
    if len < 8 {
        return true;
    }
    place > (len - 8) as u64
}

impl Contexts {
    /// A copy of the body of a context that the worker holds. Refused in this order: `NotHeld` (25),
    /// `NoMemory` (1).
    pub fn read_body(&self, worker: WorkerId, id: CtxId) -> Result<Bytes, Status>
        requires { worker.0 < 48 }
        ensures { AnswersOrMemory (read_refusal self.now.table worker.0 id) result self.now self.now (λ body. body ≡ body_at self.now.table.slots id) }
    {
        if !self.holds(worker, id) {
            return Err(Status::NotHeld);
        }
        Ok(Bytes::copy_of(self.alloc, self.body(id))?)
    }

    /// Writes the body of a context that the worker holds. Refused, with nothing changed, in this
    /// order: `NotHeld` (25), `BadRequest` (32) where the length is another than the body's. It takes
    /// no memory.
    pub fn write_body(&mut self, worker: WorkerId, id: CtxId, bytes: &[u8]) -> Result<(), Status>
        requires { worker.0 < 48 }
        ensures { Answers (write_refusal self.old.table worker.0 id bytes.now) result self.old self.new (λ _. self.new ≡ kept_rewritten self.old id bytes.now) }
    {
        if !self.holds(worker, id) {
            return Err(Status::NotHeld);
        }
        if bytes.len() != self.body(id).len() {
            return Err(Status::BadRequest);
        }
        self.put_body(id, bytes);
        Ok(())
    }

    /// Adds to a number in the body of a context that the worker holds, modulo 2^64, and answers the
    /// sum: the eight bytes from `place` on, the highest first. Refused, with nothing changed, in this
    /// order: `NotHeld` (25), `BadRequest` (32) where `place` plus 8 is past the body's end. It takes no
    /// memory.
    pub fn bump(&mut self, worker: WorkerId, id: CtxId, place: u64, by: u64) -> Result<u64, Status>
        requires { worker.0 < 48 }
        ensures { Answers (bump_refusal self.old.table worker.0 id place) result self.old self.new (Bumps self.old self.new id place by) }
    {
        if !self.holds(worker, id) {
            return Err(Status::NotHeld);
        }
        if is_past(place, self.body(id).len()) {
            return Err(Status::BadRequest);
        }
        Ok(self.add_at(id, place as usize, by))
    }

    fn body(&self, id: CtxId) -> &[u8]
        requires { is_some (context_at self.now.table.slots id) ≡ true }
        ensures { result.now ≡ body_at self.now.table.slots id }
    {
        self.rows.entry(id.slot as usize).body.as_slice()
    }

    fn put_body(&mut self, id: CtxId, bytes: &[u8])
        requires there { is_some (context_at self.old.table.slots id) ≡ true }
        requires length { length bytes.now ≡ length (body_at self.old.table.slots id) }
        ensures { self.new ≡ kept_rewritten self.old id bytes.now }
    {
        self.rows.write_body(id.slot as usize, bytes);
    }

    fn add_at(&mut self, id: CtxId, place: usize, by: u64) -> u64
        requires there { is_some (context_at self.old.table.slots id) ≡ true }
        requires within { place + 8 ≤ length (body_at self.old.table.slots id) }
        ensures sum { result ≡ raised place by (body_at self.old.table.slots id) }
        ensures after { self.new ≡ record self.old { table = bumped self.old.table id place by } }
    {
        self.rows.bump(id.slot as usize, place, by)
    }
}
