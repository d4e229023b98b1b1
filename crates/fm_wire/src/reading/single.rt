//! Bodies whose one field is a number: of a handle or an operation, or in a byte of a volume or a filter.

ghost use Rattle.std.specs.Prelude.{◌≡◌, ◌⊎◌, ◌∷◌, []};
ghost use Rattle.fm_wire.specs.Spelling.{bytes_of_u64};
ghost use Rattle.fm_wire.specs.Grammar.{Reading, Says, HasTexts, canonical_body};

use crate::frame::{Body, Control};
use crate::numbers::{read_byte, read_u64};
use fm_callback_data::{FileRequest, Reply, Request};
use fm_types::{FilterId, HandleId, OpId, Status, VolumeId};

fn on_handle(number: u64, request: FileRequest) -> Body
    ensures { result ≡ Body.Operation (Request.OnHandle (record { 0 = number }) request) }
{
    let handle = HandleId(number);
    Body::Operation(Request::OnHandle { handle, request })
}

fn on_number(code: u8, number: u64) -> Body
    requires { (code ≡ 4) ⊎ (code ≡ 6) ⊎ (code ≡ 8) ⊎ (code ≡ 9) ⊎ (code ≡ 10) ⊎ (code ≡ 129) }
    ensures said { Says code (bytes_of_u64 number) result }
    ensures texts { HasTexts result }
    ensures canonical { canonical_body result ≡ result }
{
    match code {
        4 => on_handle(number, FileRequest::QuerySize),
        6 => on_handle(number, FileRequest::Flush),
        8 => on_handle(number, FileRequest::SetDelete),
        9 => on_handle(number, FileRequest::Close),
        10 => on_handle(number, FileRequest::Restore),
        _ => Body::Reply(Reply::Held(OpId(number))),
    }
}

/// Reads a handle or an operation that is all there is.
pub(crate) fn read_on_number(code: u8, fields: &[u8]) -> Result<Body, Status>
    requires { (code ≡ 4) ⊎ (code ≡ 6) ⊎ (code ≡ 8) ⊎ (code ≡ 9) ⊎ (code ≡ 10) ⊎ (code ≡ 129) }
    ensures { Reading code fields.now result }
{
    match read_u64(fields) {
        Ok(number) => Ok(on_number(code, number)),
        Err(status) => Err(status),
    }
}

fn on_byte(code: u8, byte: u8) -> Body
    requires { (code ≡ 7) ⊎ (code ≡ 19) ⊎ (code ≡ 20) }
    ensures said { Says code (byte ∷ []) result }
    ensures texts { HasTexts result }
    ensures canonical { canonical_body result ≡ result }
{
    match code {
        7 => Body::Operation(Request::List {
            volume: VolumeId(byte),
        }),
        19 => Body::Control(Control::Unload {
            filter: FilterId(byte),
        }),
        _ => Body::Control(Control::Dismount {
            volume: VolumeId(byte),
        }),
    }
}

/// Reads a volume or a filter that is all there is.
pub(crate) fn read_on_byte(code: u8, fields: &[u8]) -> Result<Body, Status>
    requires { (code ≡ 7) ⊎ (code ≡ 19) ⊎ (code ≡ 20) }
    ensures { Reading code fields.now result }
{
    match read_byte(fields) {
        Ok(byte) => Ok(on_byte(code, byte)),
        Err(status) => Err(status),
    }
}
