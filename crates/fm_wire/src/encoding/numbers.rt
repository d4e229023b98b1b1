//! Numbers as bytes, the highest byte first.

ghost use Rattle.std.specs.Prelude.{◌≡◌, ◌++◌, OnOk};
ghost use Rattle.fm_wire.specs.Spelling.{bytes_of_u16, bytes_of_u32, bytes_of_u64};

use std::alloc::AllocError;

/// Appends a number in two bytes.
#[tactic(auto, unfolding(crate::specs::Spelling::bytes_of_u16))]
pub(crate) fn put_u16(out: &mut Vec<u8>, number: u16) -> Result<(), AllocError>
    ensures { OnOk result (out.new.items ≡ out.old.items ++ bytes_of_u16 number) }
{
    out.extend_from_slice(&number.to_be_bytes())
}

/// Appends a number in four bytes.
#[tactic(auto, unfolding(crate::specs::Spelling::bytes_of_u32))]
pub(crate) fn put_u32(out: &mut Vec<u8>, number: u32) -> Result<(), AllocError>
    ensures { OnOk result (out.new.items ≡ out.old.items ++ bytes_of_u32 number) }
{
    out.extend_from_slice(&number.to_be_bytes())
}

/// Appends a number in eight bytes.
#[tactic(auto, unfolding(crate::specs::Spelling::bytes_of_u64))]
pub(crate) fn put_u64(out: &mut Vec<u8>, number: u64) -> Result<(), AllocError>
    ensures { OnOk result (out.new.items ≡ out.old.items ++ bytes_of_u64 number) }
{
    out.extend_from_slice(&number.to_be_bytes())
}
