//! Numbers at the front of a field text, the highest byte first.

ghost use Rattle.std.specs.Prelude.{◌≡◌, ◌≢◌, ◌<◌, ◌≤◌, ◌^◌, ◌+◌, ◌++◌, ◌∷◌, [], IfErr, IfOk, length};
ghost use Rattle.fm_wire.specs.Spelling.{bytes_of_u16, bytes_of_u32, bytes_of_u64};

use fm_types::Status;

/// The first byte, and what lies behind it.
pub(crate) fn split_u8(fields: &[u8]) -> (u8, &[u8])
    requires { 1 ≤ length fields.now }
    ensures spelled { fields.now ≡ result.0 ∷ result.1.now }
    ensures small { result.0 < 256 }
    ensures shorter { length result.1.now + 1 ≡ length fields.now }
{
    let (byte, rest) = fields.split_first().unwrap();
    (*byte, rest)
}

/// The number in the first two bytes, and what lies behind them.
pub(crate) fn split_u16(fields: &[u8]) -> (u16, &[u8])
    requires { 2 ≤ length fields.now }
    ensures spelled { fields.now ≡ bytes_of_u16 result.0 ++ result.1.now }
    ensures small { result.0 < 2 ^ 16 }
    ensures shorter { length result.1.now + 2 ≡ length fields.now }
{
    let (front, rest) = fields.split_first_chunk::<2>().unwrap();
    (u16::from_be_bytes(*front), rest)
}

/// The number in the first four bytes, and what lies behind them.
pub(crate) fn split_u32(fields: &[u8]) -> (u32, &[u8])
    requires { 4 ≤ length fields.now }
    ensures spelled { fields.now ≡ bytes_of_u32 result.0 ++ result.1.now }
    ensures small { result.0 < 2 ^ 32 }
    ensures shorter { length result.1.now + 4 ≡ length fields.now }
{
    let (front, rest) = fields.split_first_chunk::<4>().unwrap();
    (u32::from_be_bytes(*front), rest)
}

/// The number in the first eight bytes, and what lies behind them.
pub(crate) fn split_u64(fields: &[u8]) -> (u64, &[u8])
    requires { 8 ≤ length fields.now }
    ensures spelled { fields.now ≡ bytes_of_u64 result.0 ++ result.1.now }
    ensures small { result.0 < 2 ^ 64 }
    ensures shorter { length result.1.now + 8 ≡ length fields.now }
{
    let (front, rest) = fields.split_first_chunk::<8>().unwrap();
    (u64::from_be_bytes(*front), rest)
}

/// The byte that is all there is; `BadRequest` where there are none or more.
pub(crate) fn read_byte(fields: &[u8]) -> Result<u8, Status>
    ensures ok { IfOk result (λ byte. (fields.now ≡ byte ∷ []) × (byte < 256)) }
    ensures refused { IfErr result (λ status. (status ≡ Status.BadRequest) × (length fields.now ≢ 1)) }
{
    match fields {
        [byte] => Ok(*byte),
        _ => Err(Status::BadRequest),
    }
}

/// The number of eight bytes that are all there is; `BadRequest` where there are fewer or more.
pub(crate) fn read_u64(fields: &[u8]) -> Result<u64, Status>
    ensures ok { IfOk result (λ number. (fields.now ≡ bytes_of_u64 number) × (number < 2 ^ 64)) }
    ensures refused { IfErr result (λ status. (status ≡ Status.BadRequest) × (length fields.now ≢ 8)) }
{
    if fields.len() != 8 {
        return Err(Status::BadRequest);
    }
    let (number, _) = split_u64(fields);
    Ok(number)
}
