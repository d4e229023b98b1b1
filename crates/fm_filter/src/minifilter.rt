//! The trait of all minifilters.

ghost use Rattle.std.specs.Prelude.{◌≡◌};

use crate::port::Port;
use fm_callback_data::{CallbackData, Completion, PostVerdict, PreVerdict};
use fm_types::{ContextKind, Registration};

/// A minifilter: what it registers for, and its callbacks (`FLT_REGISTRATION`). The manager calls them
/// with none of its locks held, and several may run at once.
///
/// Each callback has a relation, a ghost member: of what it may answer and how it may change the data, or,
/// where it answers nothing, of what holds once it was called. It gets a port for what it may call of the
/// manager; a filter that is quiet calls nothing that changes the manager. No callback changes what it
/// received, nor what the port keeps.
///
/// A filter that refuses no attach, detach or unload is written as an `Agreeable`, without the callbacks that do nothing.
pub trait Minifilter: Send + Sync + Drop {
    ghost use Rattle.std.specs.Prelude.{ℕ, Bool, List};
    ghost use Rattle.fm_types.specs.declared.context_kind.ContextKind.{ContextKind};
    ghost use Rattle.fm_types.specs.declared.registration.Registration.{Registration};
    ghost use Rattle.fm_callback_data.specs.Data.{Data};
    ghost use Rattle.fm_callback_data.specs.declared.verdict.Completion.{Completion};
    ghost use Rattle.fm_callback_data.specs.declared.verdict.PreVerdict.{PreVerdict};
    ghost use Rattle.fm_callback_data.specs.declared.verdict.PostVerdict.{PostVerdict};

    /// What it registers for.
    ghost registers: { Self → Registration };

    /// Whether it may agree to an attach, or refuse it.
    ghost setup_may: { Self → Bool → Type 0 };

    /// Which verdict its preoperation may give on data, and what it may leave of the data.
    ghost pre_may: { Self → Data → PreVerdict → Data → Type 0 };

    /// Which verdict its postoperation may give on data with that completion, and what it may leave of
    /// the data.
    ghost post_may: { Self → Data → Completion → PostVerdict → Data → Type 0 };

    /// Whether it may agree to a manual detach, or refuse it.
    ghost query_may: { Self → Bool → Type 0 };

    /// Whether it may agree to be unloaded, or refuse it.
    ghost unload_may: { Self → Bool → Type 0 };

    /// Which number the cleanup of a context of a kind, with that body, may return.
    ghost cleanup_may: { Self → ContextKind → List ℕ → ℕ → Type 0 };

    /// What holds once its drain has let go of what a completion names.
    ghost drained: { Self → Completion → Type 0 };

    /// What holds once it was told that an instance's teardown begins.
    ghost started: { Self → Type 0 };

    /// What holds once it was told that an instance's teardown is complete.
    ghost completed: { Self → Type 0 };

    /// Whether none of its callbacks changes its port.
    ghost is_quiet: { Self → Type 0 };

    /// What the filter wants to be called for (`FltRegisterFilter`). It is asked once, when the filter is
    /// loaded.
    fn registration(&self) -> Registration
        ensures { result ≡ registers self.now };

    /// A new instance is set up on a volume (`PFLT_INSTANCE_SETUP_CALLBACK`). True attaches it
    /// (`STATUS_SUCCESS`), and false refuses (`STATUS_FLT_DO_NOT_ATTACH`).
    fn setup<P: Port>(&self, port: &mut P) -> bool
        ensures may { setup_may self.now result }
        ensures quiet { is_quiet self.now → port.new ≡ port.old }
        ensures far { P.kept port.new ≡ P.kept port.old };

    /// An operation comes down to the instance (`PFLT_PRE_OPERATION_CALLBACK`), with data that the
    /// callback may read and change. `WithCallback` lets it go on and asks for the postoperation,
    /// `Synchronize` asks for it on the same worker, `NoCallback` asks for none, `Complete` ends the descent
    /// with a status, and `Pending` holds the operation until a callback of the instance resumes it.
    fn pre<P: Port>(&self, lent: &mut CallbackData, port: &mut P) -> PreVerdict
        ensures may { pre_may self.now lent.old result lent.new }
        ensures kept { lent.new.received ≡ lent.old.received }
        ensures quiet { is_quiet self.now → port.new ≡ port.old }
        ensures far { P.kept port.new ≡ P.kept port.old };

    /// An operation comes back up to an instance that asked for it (`PFLT_POST_OPERATION_CALLBACK`), with
    /// the answer so far, which the callback may change, and the completion that its preoperation gave.
    /// `Finished` lets it go on up, and `MoreProcessing` holds it until a callback of the instance resumes
    /// it.
    fn post<P: Port>(
        &self,
        lent: &mut CallbackData,
        completion: Completion,
        port: &mut P,
    ) -> PostVerdict
        ensures may { post_may self.now lent.old completion result lent.new }
        ensures kept { lent.new.received ≡ lent.old.received }
        ensures quiet { is_quiet self.now → port.new ≡ port.old }
        ensures far { P.kept port.new ≡ P.kept port.old };

    /// Stands in the place of `post` where the instance is being torn down
    /// (`PFLT_POST_OPERATION_CALLBACK` with `FLTFL_POST_OPERATION_DRAINING`): there is no data, and the
    /// callback only lets go of what its completion names.
    fn drain<P: Port>(&self, completion: Completion, port: &mut P)
        ensures told { drained self.now completion }
        ensures quiet { is_quiet self.now → port.new ≡ port.old }
        ensures far { P.kept port.new ≡ P.kept port.old };

    /// Someone wants to detach the instance (`PFLT_INSTANCE_QUERY_TEARDOWN_CALLBACK`). True agrees, and
    /// false refuses (`STATUS_FLT_DO_NOT_DETACH`). It isn't called where the filter didn't register it.
    fn query_teardown<P: Port>(&self, port: &mut P) -> bool
        ensures may { query_may self.now result }
        ensures quiet { is_quiet self.now → port.new ≡ port.old }
        ensures far { P.kept port.new ≡ P.kept port.old };

    /// The instance's teardown begins (`PFLT_INSTANCE_TEARDOWN_CALLBACK`, `InstanceTeardownStartCallback`):
    /// no operation comes to it any more, and it resumes what it holds.
    fn teardown_start<P: Port>(&self, port: &mut P)
        ensures told { started self.now }
        ensures quiet { is_quiet self.now → port.new ≡ port.old }
        ensures far { P.kept port.new ≡ P.kept port.old };

    /// Nothing is in flight at the instance any more (`PFLT_INSTANCE_TEARDOWN_CALLBACK`,
    /// `InstanceTeardownCompleteCallback`). Its contexts lose their links after it.
    fn teardown_complete<P: Port>(&self, port: &mut P)
        ensures told { completed self.now }
        ensures quiet { is_quiet self.now → port.new ≡ port.old }
        ensures far { P.kept port.new ≡ P.kept port.old };

    /// Someone wants to unload the filter (`PFLT_FILTER_UNLOAD_CALLBACK`). True agrees, and false refuses
    /// (`STATUS_FLT_DO_NOT_DETACH`). It isn't called where the filter didn't register it, nor at a mandatory
    /// unload (`FLTFL_FILTER_UNLOAD_MANDATORY`).
    fn unload(&self) -> bool
        ensures { unload_may self.now result };

    /// A context of the filter that nobody refers to any more is freed, with its body
    /// (`PFLT_CONTEXT_CLEANUP_CALLBACK`). The manager adds up the numbers that are returned, modulo 2^64.
    fn cleanup(&self, kind: ContextKind, body: &[u8]) -> u64
        ensures { cleanup_may self.now kind body.now result };
}
