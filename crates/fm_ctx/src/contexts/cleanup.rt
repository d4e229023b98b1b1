//! Cleaning up the contexts that lost their last reference.

ghost use Rattle.std.specs.Prelude.{◌≡◌, ◌<◌, None, Some};
ghost use Rattle.fm_ctx.specs.Bags.{cleaning_of};
ghost use Rattle.fm_ctx.specs.Cleanup.{due_reply, after_take_due, cleaned};

use crate::contexts::Contexts;
use crate::due::Due;
use fm_types::{Bytes, CtxId, WorkerId};

impl Contexts {
    /// The worker takes the context that has been due longest, to call its filter's cleanup; none where
    /// none is due. The body goes out with it. It takes no memory.
    pub fn take_due(&mut self, worker: WorkerId) -> Option<Due>
        requires within { worker.0 < 48 }
        requires idle { cleaning_of self.old.table.cleaning worker.0 ≡ None }
        ensures reply { result ≡ due_reply self.old.table }
        ensures after { self.new ≡ record self.old { table = after_take_due self.old.table worker.0 } }
    {
        let id = self.due.pop()?;
        let slot = id.slot as usize;
        let body = self.rows.take_body(slot, Vec::new(self.alloc));
        self.cleaning[worker.0 as usize] = Some(id);
        let entry = self.rows.entry(slot);
        Some(Due {
            id,
            kind: entry.kind,
            owner: entry.owner,
            body: Bytes::from_vec(body),
        })
    }

    /// The worker has cleaned up the context that it took. It takes no memory.
    pub fn cleaned(&mut self, worker: WorkerId, id: CtxId)
        requires within { worker.0 < 48 }
        requires cleaning { cleaning_of self.old.table.cleaning worker.0 ≡ Some id }
        ensures { self.new ≡ record self.old { table = cleaned self.old.table worker.0 id } }
    {
        self.rows.clean(id.slot as usize);
        self.tally.end();
        self.cleaning[worker.0 as usize] = None;
    }
}
