//! The spelling of replies.

ghost use Rattle.std.specs.Prelude.{◌≡◌, ◌++◌, ◌↔◌, IsTrue, OnOk, length};
ghost use Rattle.fm_wire.specs.Spelling as spelling;
ghost use Rattle.fm_wire.specs.Grammar.{FitsReply, HasCount, KeepsReplyLimits};

use crate::encoding::numbers::put_u64;
use fm_callback_data::Reply;
use fm_types::Status;
use std::alloc::AllocError;

/// The number of `Busy`.
const BUSY: u8 = 34;

// A count has no field of its own.
fn has_count(status: Status, information: u64) -> bool
    ensures { IsTrue result ↔ HasCount status information }
{
    status.number() != BUSY || status.information() == information
}

/// Whether a busy status has the information for its count.
pub(crate) fn keeps_reply_limits(reply: &Reply) -> bool
    ensures { IsTrue result ↔ KeepsReplyLimits reply.now }
{
    match reply {
        Reply::Done {
            status,
            information,
            ..
        } => has_count(*status, *information),
        Reply::Held(_) => true,
    }
}

/// The code of a reply.
pub(crate) fn reply_code(reply: &Reply) -> u8
    ensures { result ≡ spelling.reply_code reply.now }
{
    match reply {
        Reply::Done { .. } => 128,
        Reply::Held(_) => 129,
    }
}

/// How many bytes a reply's fields take.
#[tactic(auto, unfolding(crate::specs::Spelling::bytes_of_u64))]
pub(crate) fn reply_len(reply: &Reply) -> usize
    ensures { result ≡ length (spelling.reply_fields reply.now) }
{
    match reply {
        Reply::Done { bytes, .. } => 9 + bytes.as_slice().len(),
        Reply::Held(_) => 8,
    }
}

/// Appends the fields of a reply.
pub(crate) fn put_reply(out: &mut Vec<u8>, reply: &Reply) -> Result<(), AllocError>
    ensures ok { OnOk result (out.new.items ≡ out.old.items ++ spelling.reply_fields reply.now) }
    ensures fits { OnOk result (FitsReply reply.now) }
{
    match reply {
        Reply::Done {
            status,
            information,
            bytes,
        } => {
            out.push(status.number())?;
            put_u64(out, *information)?;
            out.extend_from_slice(bytes.as_slice())
        }
        Reply::Held(operation) => put_u64(out, operation.0),
    }
}
