//! The calls of the callbacks that get a port, and what is answered if there is no filter.

ghost use Rattle.std.specs.Prelude.{◌≡◌, MatchOption, false, ⊤};
ghost use Rattle.fm_filter.specs.Absent.{SkipsPre, SkipsPost};

use crate::callbacks::Callbacks;
use crate::port::Port;
use fm_callback_data::{CallbackData, Completion, PostVerdict, PreVerdict};

/// Asks a filter whether it agrees to a new instance. Without a filter nobody agrees.
pub fn ask_setup<P: Port, F: Callbacks>(filter: Option<&F>, port: &mut P) -> bool
    ensures may { MatchOption filter.entry (result ≡ false) (λ f. F.setup_may f.now result) }
    ensures quiet { MatchOption filter.entry ⊤ (λ f. F.is_quiet f.now) → port.new ≡ port.old }
    ensures far { P.kept port.new ≡ P.kept port.old }
{
    match filter {
        Some(filter) => filter.setup(port),
        None => false,
    }
}

/// Asks a filter what becomes of an operation on its way down. Without a filter it goes on, as it is.
pub fn ask_pre<P: Port, F: Callbacks>(
    filter: Option<&F>,
    lent: &mut CallbackData,
    port: &mut P,
) -> PreVerdict
    ensures may { MatchOption filter.entry (SkipsPre lent.old result lent.new) (λ f. F.pre_may f.now lent.old result lent.new) }
    ensures kept { lent.new.received ≡ lent.old.received }
    ensures quiet { MatchOption filter.entry ⊤ (λ f. F.is_quiet f.now) → port.new ≡ port.old }
    ensures far { P.kept port.new ≡ P.kept port.old }
{
    match filter {
        Some(filter) => filter.pre(lent, port),
        None => PreVerdict::NoCallback,
    }
}

/// Asks a filter what becomes of an operation on its way up, with the completion that its preoperation gave. Without a filter it goes on, as it is.
pub fn ask_post<P: Port, F: Callbacks>(
    filter: Option<&F>,
    lent: &mut CallbackData,
    completion: Completion,
    port: &mut P,
) -> PostVerdict
    ensures may { MatchOption filter.entry (SkipsPost lent.old result lent.new) (λ f. F.post_may f.now lent.old completion result lent.new) }
    ensures kept { lent.new.received ≡ lent.old.received }
    ensures quiet { MatchOption filter.entry ⊤ (λ f. F.is_quiet f.now) → port.new ≡ port.old }
    ensures far { P.kept port.new ≡ P.kept port.old }
{
    match filter {
        Some(filter) => filter.post(lent, completion, port),
        None => PostVerdict::Finished,
    }
}

/// Has a filter let go of what a completion names, since its postoperation won't come.
pub fn let_go<P: Port, F: Callbacks>(filter: Option<&F>, completion: Completion, port: &mut P)
    ensures told { MatchOption filter.entry ⊤ (λ f. F.drained f.now completion) }
    ensures quiet { MatchOption filter.entry ⊤ (λ f. F.is_quiet f.now) → port.new ≡ port.old }
    ensures far { P.kept port.new ≡ P.kept port.old }
{
    if let Some(filter) = filter {
        filter.drain(completion, port);
    }
}

/// Asks a filter whether it agrees to have an instance detached. Without a filter nobody agrees.
pub fn ask_query<P: Port, F: Callbacks>(filter: Option<&F>, port: &mut P) -> bool
    ensures may { MatchOption filter.entry (result ≡ false) (λ f. F.query_may f.now result) }
    ensures quiet { MatchOption filter.entry ⊤ (λ f. F.is_quiet f.now) → port.new ≡ port.old }
    ensures far { P.kept port.new ≡ P.kept port.old }
{
    match filter {
        Some(filter) => filter.query_teardown(port),
        None => false,
    }
}

/// Tells a filter that the teardown of an instance starts.
pub fn tell_start<P: Port, F: Callbacks>(filter: Option<&F>, port: &mut P)
    ensures told { MatchOption filter.entry ⊤ (λ f. F.started f.now) }
    ensures quiet { MatchOption filter.entry ⊤ (λ f. F.is_quiet f.now) → port.new ≡ port.old }
    ensures far { P.kept port.new ≡ P.kept port.old }
{
    if let Some(filter) = filter {
        filter.teardown_start(port);
    }
}

/// Tells a filter that the teardown of an instance is complete.
pub fn tell_complete<P: Port, F: Callbacks>(filter: Option<&F>, port: &mut P)
    ensures told { MatchOption filter.entry ⊤ (λ f. F.completed f.now) }
    ensures quiet { MatchOption filter.entry ⊤ (λ f. F.is_quiet f.now) → port.new ≡ port.old }
    ensures far { P.kept port.new ≡ P.kept port.old }
{
    if let Some(filter) = filter {
        filter.teardown_complete(port);
    }
}
