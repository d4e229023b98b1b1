//! What a worker was lent, as C sees it, and what C puts in its place.

ghost use Rattle.std.specs.Prelude.{◌≡◌, IfErr, IfOk, Some};
ghost use Rattle.kazdrin_c.specs.Data.{call_path, call_told, data_told, lent_bytes, lent_told, mode_number, nothing_lent, params_bytes, params_told};
ghost use Rattle.kazdrin_c.specs.Refusals.{Unnamed, UnreadParams};
ghost use Rattle.kazdrin_c.specs.Calls.{bytes_given};
ghost use Rattle.kazdrin_c.specs.Named.{flag_in, params_at, params_named, status_at};

use crate::event::{KazdrinEvent, create_mode_of, major_of, named, status_of};
use fm_callback_data::{BaseCall, CallbackData, Params};
use fm_session::Lent;
use fm_types::{Bytes, CreateMode, RelPath, SharedPath, Status};
use std::alloc::Global;

/// What a worker was lent: 0 nothing, 1 the data of a preoperation, 2 a call of the base, 3 the data of a postoperation, 4 a drain. Of data and of a call:
/// the operation by its event's number, what it asks for, and the answer so far; `length` is how many bytes there are, of which as many are copied as there is
/// room for.
#[repr(C)]
#[derive(Clone, Copy, Drop)]
pub struct KazdrinData {
    pub offset: u64,
    pub information: u64,
    pub number: u64,
    pub length: u64,
    pub len: u32,
    pub volume: u8,
    pub operation: u8,
    pub mode: u8,
    pub status: u8,
    pub lent: u8,
}

/// A status for an answer, and bytes, if C gives some.
#[derive(Drop)]
pub struct DataGiven {
    pub status: Status,
    pub bytes: Option<Bytes>,
}

fn nothing_lent() -> KazdrinData
    ensures { result ≡ nothing_lent }
{
    KazdrinData {
        offset: 0,
        information: 0,
        number: 0,
        length: 0,
        len: 0,
        volume: 0,
        operation: 0,
        mode: 0,
        status: 0,
        lent: 0,
    }
}

fn mode_number(mode: CreateMode) -> u8
    ensures { result ≡ mode_number mode }
{
    match mode {
        CreateMode::Existing => 0,
        CreateMode::New => 1,
        CreateMode::Always => 2,
    }
}

// What an operation asks for, but for its bytes.
fn params_told(params: &Params) -> KazdrinData
    ensures { result ≡ params_told params.now }
{
    let mut told = nothing_lent();
    match params {
        Params::Create { path: _, mode } => {
            told.operation = 4;
            told.mode = mode_number(*mode);
        }
        Params::List => told.operation = 5,
        Params::Read { offset, len } => {
            told.operation = 6;
            told.offset = *offset;
            told.len = *len;
        }
        Params::Write { offset, bytes: _ } => {
            told.operation = 7;
            told.offset = *offset;
        }
        Params::QuerySize => told.operation = 8,
        Params::SetSize { size } => {
            told.operation = 9;
            told.offset = *size;
        }
        Params::Flush => told.operation = 10,
        Params::SetDelete => told.operation = 11,
        Params::Cleanup => told.operation = 12,
        Params::Close => told.operation = 13,
        Params::Restore => told.operation = 49,
        Params::Other { major, number } => {
            told.operation = 50;
            told.mode = major.code();
            told.offset = *number;
        }
    }
    told
}

// Its bytes: a create's path, and what is written.
fn params_bytes(params: &Params) -> &[u8]
    ensures { result.now ≡ params_bytes params.now }
{
    match params {
        Params::Create { path, mode: _ } => path.path().text(),
        Params::Write { offset: _, bytes } => bytes.as_slice(),
        _ => &[],
    }
}

// Callback data: of a preoperation, 1, or of a postoperation, 3.
fn data_told(kind: u8, own: &CallbackData) -> KazdrinData
    ensures { result ≡ data_told kind own.now }
{
    let mut told = params_told(own.params());
    let status = own.status();
    told.lent = kind;
    told.status = status.number();
    told.number = status.information();
    told.information = own.information();
    told
}

fn call_told(call: &BaseCall) -> KazdrinData
    ensures { result ≡ call_told call.now }
{
    let mut told = params_told(call.params());
    told.lent = 2;
    told.volume = call.volume().0;
    told
}

/// What a worker was lent, but for its bytes.
pub fn lent_told(lent: &Lent) -> KazdrinData
    ensures { result ≡ lent_told lent.now }
{
    match lent {
        Lent::Nothing => nothing_lent(),
        Lent::Pre(own) => data_told(1, own),
        Lent::Base(call) => call_told(call),
        Lent::Post(own) => data_told(3, own),
        Lent::Drain => KazdrinData {
            lent: 4,
            ..nothing_lent()
        },
    }
}

// The path of a call's file; none of a listing.
fn call_path(call: &BaseCall) -> &[u8]
    ensures { result.now ≡ call_path call.now }
{
    match call.path() {
        Some(path) => path.path().text(),
        None => &[],
    }
}

/// The bytes of what was lent: those that it asks for, or those of the answer so far; of a call of the base its file's path in their place.
pub fn lent_bytes(is_answer: bool, lent: &Lent) -> &[u8]
    ensures { result.now ≡ lent_bytes is_answer lent.now }
{
    match lent {
        Lent::Pre(own) | Lent::Post(own) => {
            if is_answer {
                own.out_bytes()
            } else {
                params_bytes(own.params())
            }
        }
        Lent::Base(call) => {
            if is_answer {
                call_path(call)
            } else {
                params_bytes(call.params())
            }
        }
        Lent::Nothing | Lent::Drain => &[],
    }
}

impl KazdrinEvent {
    /// The parameters that the event's number and fields name, with the bytes as path or data. Refused with 32 for a number that is no operation's or no create's
    /// mode, with 15 for a text that is no path, and with 1 where memory was refused.
    pub fn params(&self, alloc: Global, bytes: &[u8]) -> Result<Params, Status>
        ensures named { IfOk result (λ params. params_named self.now bytes.now ≡ Some params) }
        ensures refused { IfErr result (λ status. UnreadParams self.now.event bytes.now (params_named self.now bytes.now) status) }
    {
        self.params_at(self.event, alloc, bytes)
    }

    /// Those that the number of another event names. It refuses as `params` does.
    pub(crate) fn params_at(
        &self,
        number: u32,
        alloc: Global,
        bytes: &[u8],
    ) -> Result<Params, Status>
        ensures named { IfOk result (λ params. params_at number self.now bytes.now ≡ Some params) }
        ensures refused { IfErr result (λ status. UnreadParams number bytes.now (params_at number self.now bytes.now) status) }
    {
        let params = match number {
            4 => Params::Create {
                path: SharedPath::new(alloc, RelPath::read(bytes)?)?,
                mode: named(create_mode_of(self.mode))?,
            },
            5 => Params::List,
            6 => Params::Read {
                offset: self.offset,
                len: self.len,
            },
            7 => Params::Write {
                offset: self.offset,
                bytes: Bytes::copy_of(alloc, bytes)?,
            },
            8 => Params::QuerySize,
            9 => Params::SetSize { size: self.offset },
            10 => Params::Flush,
            11 => Params::SetDelete,
            12 => Params::Cleanup,
            13 => Params::Close,
            49 => Params::Restore,
            50 => Params::Other {
                major: named(major_of(self.mode))?,
                number: self.offset,
            },
            _ => return Err(Status::BadRequest),
        };
        Ok(params)
    }

    /// The status that the event names, and the bytes, if the flag says that there are some. Refused with 32 for a number that is no status's, and with 1 where
    /// memory was refused.
    pub fn answer(&self, alloc: Global, bytes: &[u8]) -> Result<DataGiven, Status>
        ensures status { IfOk result (λ given. status_at self.now.status self.now.number ≡ Some given.status) }
        ensures bytes { IfOk result (λ given. given.bytes ≡ bytes_given self.now bytes.now) }
        ensures refused { IfErr result (λ status. Unnamed (flag_in self.now) (status_at self.now.status self.now.number) status) }
    {
        let status = named(status_of(self.status, self.number))?;
        if self.flag == 0 {
            return Ok(DataGiven {
                status,
                bytes: None,
            });
        }
        Ok(DataGiven {
            status,
            bytes: Some(Bytes::copy_of(alloc, bytes)?),
        })
    }
}
