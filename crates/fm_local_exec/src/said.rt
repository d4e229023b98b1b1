//! What is said of a call's result.

ghost use Rattle.std.specs.Prelude.{◌≡◌};
ghost use Rattle.fm_local_exec.specs.Said.{filter_reply, instance_reply, number_reply, status_reply, unit_reply};

use fm_callback_data::Reply;
use fm_types::{Bytes, FilterId, InstanceId, Status};
use std::alloc::Global;

/// A success, with a number.
pub(crate) fn number_reply(alloc: Global, number: u64) -> Reply
    ensures { result ≡ number_reply number }
{
    Reply::Done {
        status: Status::Success,
        information: number,
        bytes: Bytes::new(alloc),
    }
}

/// A status, with its count if it is Busy.
pub(crate) fn status_reply(alloc: Global, status: Status) -> Reply
    ensures { result ≡ status_reply status }
{
    let information = match status {
        Status::Busy(count) => count,
        _ => 0,
    };
    Reply::Done {
        status,
        information,
        bytes: Bytes::new(alloc),
    }
}

/// The number of a filter, or why there is none.
pub(crate) fn filter_reply(alloc: Global, filter: Result<FilterId, Status>) -> Reply
    ensures { result ≡ filter_reply filter }
{
    match filter {
        Ok(filter) => number_reply(alloc, u64::from(filter.0)),
        Err(status) => status_reply(alloc, status),
    }
}

/// The number of an instance, or why there is none.
pub(crate) fn instance_reply(alloc: Global, instance: Result<InstanceId, Status>) -> Reply
    ensures { result ≡ instance_reply instance }
{
    match instance {
        Ok(instance) => number_reply(alloc, u64::from(instance.0)),
        Err(status) => status_reply(alloc, status),
    }
}

/// That it was done, or why not.
pub(crate) fn unit_reply(alloc: Global, done: Result<(), Status>) -> Reply
    ensures { result ≡ unit_reply done }
{
    match done {
        Ok(()) => number_reply(alloc, 0),
        Err(status) => status_reply(alloc, status),
    }
}
