//! The manager for C: a handle on a session, and each event as a call. `c/include/kazdrin.h` declares what is exported here.
#![tactic(auto)]

ghost use Rattle.std.specs.Prelude.{◌≡◌, ◌≢◌, IfSome, slice_get};
ghost use Rattle.kazdrin_c.specs.Opened.{CallsOn, HasFresh, IsFresh, Opened};
ghost use Rattle.kazdrin_c.specs.Calls.{AnswerPut, AttachOn, BaseTold, BasedTold, ChangeTold, LentOn, NextTold, PostTold, PreTold, StepOn};
ghost use Rattle.kazdrin_c.specs.Counts.{CountsTold, HeldTold, LeftTold};
ghost use Rattle.kazdrin_c.specs.Phases.{PhaseTold};
ghost use Rattle.kazdrin_c.specs.Named.{post_named, verdict_named};

mod counts;
mod data;
mod event;
mod handle;
mod host;
mod phase;
mod raw_box;
mod told;

pub use crate::counts::KazdrinCounts;
pub use crate::data::KazdrinData;
pub use crate::event::KazdrinEvent;
pub use crate::handle::Kazdrin;
use crate::host::SessionHost;
pub use crate::told::KazdrinTold;
use std::alloc::Global;

/// What every call answers on a handle that isn't open; no status has that number.
const CLOSED: u32 = 35;

/// Opens a handle: a session before its first event. Refused with 30 if it is open already, and with 1 if memory was refused; then it stays as it was.
#[unsafe(no_mangle)]
pub extern "C" fn kazdrin_open(alloc: Global, kazdrin: &mut Kazdrin) -> u32
    ensures open { kazdrin.old.is_open ≡ 1 → (result ≡ 30) × (kazdrin.new ≡ kazdrin.old) }
    ensures new { kazdrin.old.is_open ≢ 1 → result ≡ 0 → (kazdrin.new.is_open ≡ 1) × HasFresh kazdrin.new.kept.host }
    ensures refused { kazdrin.old.is_open ≢ 1 → result ≢ 0 → (result ≡ 1) × (kazdrin.new ≡ kazdrin.old) }
{
    if kazdrin.is_open == 1 {
        return 30;
    }
    match boxed(alloc) {
        Some(host) => {
            kazdrin.put(host);
            0
        }
        None => 1,
    }
}

// A new session on the heap, if there is memory for it.
fn boxed(alloc: Global) -> Option<Box<SessionHost>>
    ensures { IfSome result (λ host. IsFresh host.value) }
{
    match SessionHost::new(alloc) {
        Ok(host) => match Box::new(alloc, host) {
            Ok(host) => Some(host),
            Err(_) => None,
        },
        Err(_) => None,
    }
}

/// Closes a handle, and frees what lies behind it.
#[unsafe(no_mangle)]
pub extern "C" fn kazdrin_close(alloc: Global, kazdrin: &mut Kazdrin)
    ensures { kazdrin.new.is_open ≢ 1 }
{
    let _ = kazdrin.take(alloc);
}

/// Makes the event that the number names, and tells its answer: 0, or the number of the status with which it was refused. A number that names no event is
/// refused with 32, and a text that is no name or no path with 3 or 15; nothing changes then.
#[unsafe(no_mangle)]
pub extern "C" fn kazdrin_step(
    alloc: Global,
    kazdrin: &mut Kazdrin,
    event: &KazdrinEvent,
    bytes: &[u8],
    told: &mut KazdrinTold,
    room: &mut [u8],
) -> u32
    ensures { CallsOn kazdrin.old result kazdrin.new (StepOn event.now bytes.now told.old room.old result told.new room.new) }
{
    let Some(mut host) = kazdrin.take(alloc) else {
        return CLOSED;
    };
    let result = host.step(event, bytes, told, room);
    kazdrin.put(host);
    result
}

/// The worker attaches the event's filter to its volume, and enters its setup callback. A text that is no name or no altitude is refused with 3 or 2.
#[unsafe(no_mangle)]
pub extern "C" fn kazdrin_attach(
    alloc: Global,
    kazdrin: &mut Kazdrin,
    event: &KazdrinEvent,
    name: &[u8],
    altitude: &[u8],
    told: &mut KazdrinTold,
    room: &mut [u8],
) -> u32
    ensures { CallsOn kazdrin.old result kazdrin.new (AttachOn event.now name.now altitude.now told.old room.old result told.new room.new) }
{
    let Some(mut host) = kazdrin.take(alloc) else {
        return CLOSED;
    };
    let result = host.attach(event, name, altitude, told, room);
    kazdrin.put(host);
    result
}

/// The worker takes the operation's next step, and keeps what it is lent for it until the return.
#[unsafe(no_mangle)]
pub extern "C" fn kazdrin_next(
    alloc: Global,
    kazdrin: &mut Kazdrin,
    event: &KazdrinEvent,
    told: &mut KazdrinTold,
) -> u32
    ensures { CallsOn kazdrin.old result kazdrin.new (λ old new. NextTold event.now old told.old result new told.new) }
{
    let Some(mut host) = kazdrin.take(alloc) else {
        return CLOSED;
    };
    let result = host.next(event, told);
    kazdrin.put(host);
    result
}

/// The worker's preoperation returns with the verdict that the event names, and with what it was lent.
#[unsafe(no_mangle)]
pub extern "C" fn kazdrin_pre_returned(
    alloc: Global,
    kazdrin: &mut Kazdrin,
    event: &KazdrinEvent,
) -> u32
    ensures { CallsOn kazdrin.old result kazdrin.new (λ old new. PreTold event.now old result new (verdict_named event.now)) }
{
    let Some(mut host) = kazdrin.take(alloc) else {
        return CLOSED;
    };
    let result = host.pre_returned(event);
    kazdrin.put(host);
    result
}

/// The worker's postoperation or drain returns with the verdict that the event names, and with what it was lent.
#[unsafe(no_mangle)]
pub extern "C" fn kazdrin_post_returned(
    alloc: Global,
    kazdrin: &mut Kazdrin,
    event: &KazdrinEvent,
) -> u32
    ensures { CallsOn kazdrin.old result kazdrin.new (λ old new. PostTold event.now old result new (post_named event.now.mode)) }
{
    let Some(mut host) = kazdrin.take(alloc) else {
        return CLOSED;
    };
    let result = host.post_returned(event);
    kazdrin.put(host);
    result
}

/// The file system in memory of the operation's volume carries out the call that the worker was lent, and the call returns.
#[unsafe(no_mangle)]
pub extern "C" fn kazdrin_base(alloc: Global, kazdrin: &mut Kazdrin, event: &KazdrinEvent) -> u32
    ensures { CallsOn kazdrin.old result kazdrin.new (λ old new. BaseTold event.now old result new) }
{
    let Some(mut host) = kazdrin.take(alloc) else {
        return CLOSED;
    };
    let result = host.base(event);
    kazdrin.put(host);
    result
}

/// C answers the call of the base that the worker was lent, in place of the file system in memory: the status, the number in `offset`, and with the flag the
/// bytes.
#[unsafe(no_mangle)]
pub extern "C" fn kazdrin_based(
    alloc: Global,
    kazdrin: &mut Kazdrin,
    event: &KazdrinEvent,
    bytes: &[u8],
) -> u32
    ensures { CallsOn kazdrin.old result kazdrin.new (λ old new. BasedTold event.now bytes.now old result new) }
{
    let Some(mut host) = kazdrin.take(alloc) else {
        return CLOSED;
    };
    let result = host.based(event, bytes);
    kazdrin.put(host);
    result
}

/// Looks at what the worker was lent: the parameters' bytes, or with the flag those of the answer so far (of a call of the base its file's path). Refused with
/// 30 if there is no such worker. Nothing changes but what is told.
#[unsafe(no_mangle)]
pub extern "C" fn kazdrin_lent(
    alloc: Global,
    kazdrin: &mut Kazdrin,
    event: &KazdrinEvent,
    told: &mut KazdrinData,
    room: &mut [u8],
) -> u32
    ensures { CallsOn kazdrin.old result kazdrin.new (LentOn event.now told.old room.old result told.new room.new) }
{
    let Some(host) = kazdrin.take(alloc) else {
        return CLOSED;
    };
    let result = host.lent(event, told, room);
    kazdrin.put(host);
    result
}

/// The callback that the worker is in changes the parameters that it was lent (`FltSetCallbackDataDirty`), to those that the event names by the number of the
/// operation's own event.
#[unsafe(no_mangle)]
pub extern "C" fn kazdrin_change(
    alloc: Global,
    kazdrin: &mut Kazdrin,
    event: &KazdrinEvent,
    bytes: &[u8],
) -> u32
    ensures { CallsOn kazdrin.old result kazdrin.new (λ old new. ChangeTold event.now bytes.now old result new) }
{
    let Some(mut host) = kazdrin.take(alloc) else {
        return CLOSED;
    };
    let result = host.change(event, bytes);
    kazdrin.put(host);
    result
}

/// The callback that the worker is in changes the answer (`IoStatus`): the status, the number in `offset`, and with the flag the bytes.
#[unsafe(no_mangle)]
pub extern "C" fn kazdrin_answer(
    alloc: Global,
    kazdrin: &mut Kazdrin,
    event: &KazdrinEvent,
    bytes: &[u8],
) -> u32
    ensures { CallsOn kazdrin.old result kazdrin.new (λ old new. AnswerPut event.now bytes.now old result new) }
{
    let Some(mut host) = kazdrin.take(alloc) else {
        return CLOSED;
    };
    let result = host.answer(event, bytes);
    kazdrin.put(host);
    result
}

/// Reads the manager's counts, and how many references the worker holds. Nothing changes but what is told.
#[unsafe(no_mangle)]
pub extern "C" fn kazdrin_counts(
    alloc: Global,
    kazdrin: &mut Kazdrin,
    event: &KazdrinEvent,
    counts: &mut KazdrinCounts,
) -> u32
    ensures { CallsOn kazdrin.old result kazdrin.new (λ old new. CountsTold event.now old result new counts.new) }
{
    let Some(host) = kazdrin.take(alloc) else {
        return CLOSED;
    };
    *counts = host.counts(event);
    kazdrin.put(host);
    0
}

/// Reads the reference at a place of the worker's hand: none if it holds fewer. Nothing changes but what is told.
#[unsafe(no_mangle)]
pub extern "C" fn kazdrin_held_at(
    alloc: Global,
    kazdrin: &mut Kazdrin,
    event: &KazdrinEvent,
    told: &mut KazdrinTold,
) -> u32
    ensures { CallsOn kazdrin.old result kazdrin.new (λ old new. HeldTold event.now old result new told.new) }
{
    let Some(host) = kazdrin.take(alloc) else {
        return CLOSED;
    };
    *told = host.held_at(event);
    kazdrin.put(host);
    0
}

/// Reads how far the life of an instance, a filter or a volume has come. Nothing changes but what is told.
#[unsafe(no_mangle)]
pub extern "C" fn kazdrin_phase(
    alloc: Global,
    kazdrin: &mut Kazdrin,
    event: &KazdrinEvent,
    told: &mut KazdrinTold,
) -> u32
    ensures { CallsOn kazdrin.old result kazdrin.new (λ old new. PhaseTold event.now old result new told.new) }
{
    let Some(host) = kazdrin.take(alloc) else {
        return CLOSED;
    };
    *told = host.phase(event);
    kazdrin.put(host);
    0
}

/// Reads a context that the worker's last callback left in its hand, by its place there: none if there were fewer. Nothing changes but what is told.
#[unsafe(no_mangle)]
pub extern "C" fn kazdrin_left(
    alloc: Global,
    kazdrin: &mut Kazdrin,
    event: &KazdrinEvent,
    told: &mut KazdrinTold,
) -> u32
    ensures { CallsOn kazdrin.old result kazdrin.new (λ old new. LeftTold event.now old result new told.new) }
{
    let Some(host) = kazdrin.take(alloc) else {
        return CLOSED;
    };
    *told = host.left(event);
    kazdrin.put(host);
    0
}
