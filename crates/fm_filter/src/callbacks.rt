//! A minifilter's callbacks, as those call them who don't ask on which threads they run.

ghost use Rattle.std.specs.Prelude.{◌≡◌};

use crate::minifilter::Minifilter;
use crate::port::Port;
use fm_callback_data::{CallbackData, Completion, PostVerdict, PreVerdict};
use fm_types::{ContextKind, Registration};

/// The callbacks of a minifilter and their relations, without a word of threads. Each `Minifilter` has them, and nobody else should: a filter is written as
/// one. What calls a filter (`Manager`, `Worker`, a server) is written over this trait, and asks for `Send` and `Sync` where it starts a thread.
pub trait Callbacks: Drop {
    ghost use Rattle.std.specs.Prelude.{ℕ, Bool, List};
    ghost use Rattle.fm_types.specs.declared.context_kind.ContextKind.{ContextKind};
    ghost use Rattle.fm_types.specs.declared.registration.Registration.{Registration};
    ghost use Rattle.fm_callback_data.specs.Data.{Data};
    ghost use Rattle.fm_callback_data.specs.declared.verdict.Completion.{Completion};
    ghost use Rattle.fm_callback_data.specs.declared.verdict.PreVerdict.{PreVerdict};
    ghost use Rattle.fm_callback_data.specs.declared.verdict.PostVerdict.{PostVerdict};

    /// As `Minifilter::registers`.
    ghost registers: { Self → Registration };

    /// As `Minifilter::setup_may`.
    ghost setup_may: { Self → Bool → Type 0 };

    /// As `Minifilter::pre_may`.
    ghost pre_may: { Self → Data → PreVerdict → Data → Type 0 };

    /// As `Minifilter::post_may`.
    ghost post_may: { Self → Data → Completion → PostVerdict → Data → Type 0 };

    /// As `Minifilter::query_may`.
    ghost query_may: { Self → Bool → Type 0 };

    /// As `Minifilter::unload_may`.
    ghost unload_may: { Self → Bool → Type 0 };

    /// As `Minifilter::cleanup_may`.
    ghost cleanup_may: { Self → ContextKind → List ℕ → ℕ → Type 0 };

    /// As `Minifilter::drained`.
    ghost drained: { Self → Completion → Type 0 };

    /// As `Minifilter::started`.
    ghost started: { Self → Type 0 };

    /// As `Minifilter::completed`.
    ghost completed: { Self → Type 0 };

    /// As `Minifilter::is_quiet`.
    ghost is_quiet: { Self → Type 0 };

    /// As `Minifilter::registration`.
    fn registration(&self) -> Registration
        ensures { result ≡ registers self.now };

    /// As `Minifilter::setup`.
    fn setup<P: Port>(&self, port: &mut P) -> bool
        ensures may { setup_may self.now result }
        ensures quiet { is_quiet self.now → port.new ≡ port.old }
        ensures far { P.kept port.new ≡ P.kept port.old };

    /// As `Minifilter::pre`.
    fn pre<P: Port>(&self, lent: &mut CallbackData, port: &mut P) -> PreVerdict
        ensures may { pre_may self.now lent.old result lent.new }
        ensures kept { lent.new.received ≡ lent.old.received }
        ensures quiet { is_quiet self.now → port.new ≡ port.old }
        ensures far { P.kept port.new ≡ P.kept port.old };

    /// As `Minifilter::post`.
    fn post<P: Port>(
        &self,
        lent: &mut CallbackData,
        completion: Completion,
        port: &mut P,
    ) -> PostVerdict
        ensures may { post_may self.now lent.old completion result lent.new }
        ensures kept { lent.new.received ≡ lent.old.received }
        ensures quiet { is_quiet self.now → port.new ≡ port.old }
        ensures far { P.kept port.new ≡ P.kept port.old };

    /// As `Minifilter::drain`.
    fn drain<P: Port>(&self, completion: Completion, port: &mut P)
        ensures told { drained self.now completion }
        ensures quiet { is_quiet self.now → port.new ≡ port.old }
        ensures far { P.kept port.new ≡ P.kept port.old };

    /// As `Minifilter::query_teardown`.
    fn query_teardown<P: Port>(&self, port: &mut P) -> bool
        ensures may { query_may self.now result }
        ensures quiet { is_quiet self.now → port.new ≡ port.old }
        ensures far { P.kept port.new ≡ P.kept port.old };

    /// As `Minifilter::teardown_start`.
    fn teardown_start<P: Port>(&self, port: &mut P)
        ensures told { started self.now }
        ensures quiet { is_quiet self.now → port.new ≡ port.old }
        ensures far { P.kept port.new ≡ P.kept port.old };

    /// As `Minifilter::teardown_complete`.
    fn teardown_complete<P: Port>(&self, port: &mut P)
        ensures told { completed self.now }
        ensures quiet { is_quiet self.now → port.new ≡ port.old }
        ensures far { P.kept port.new ≡ P.kept port.old };

    /// As `Minifilter::unload`.
    fn unload(&self) -> bool
        ensures { unload_may self.now result };

    /// As `Minifilter::cleanup`.
    fn cleanup(&self, kind: ContextKind, body: &[u8]) -> u64
        ensures { cleanup_may self.now kind body.now result };
}

impl<F: Minifilter> Callbacks for F {
    ghost registers = { F.registers };

    ghost setup_may = { F.setup_may };

    ghost pre_may = { F.pre_may };

    ghost post_may = { F.post_may };

    ghost query_may = { F.query_may };

    ghost unload_may = { F.unload_may };

    ghost cleanup_may = { F.cleanup_may };

    ghost drained = { F.drained };

    ghost started = { F.started };

    ghost completed = { F.completed };

    ghost is_quiet = { F.is_quiet };

    fn registration(&self) -> Registration {
        Minifilter::registration(self)
    }

    fn setup<P: Port>(&self, port: &mut P) -> bool {
        Minifilter::setup(self, port)
    }

    fn pre<P: Port>(&self, lent: &mut CallbackData, port: &mut P) -> PreVerdict {
        Minifilter::pre(self, lent, port)
    }

    fn post<P: Port>(
        &self,
        lent: &mut CallbackData,
        completion: Completion,
        port: &mut P,
    ) -> PostVerdict {
        Minifilter::post(self, lent, completion, port)
    }

    fn drain<P: Port>(&self, completion: Completion, port: &mut P) {
        Minifilter::drain(self, completion, port);
    }

    fn query_teardown<P: Port>(&self, port: &mut P) -> bool {
        Minifilter::query_teardown(self, port)
    }

    fn teardown_start<P: Port>(&self, port: &mut P) {
        Minifilter::teardown_start(self, port);
    }

    fn teardown_complete<P: Port>(&self, port: &mut P) {
        Minifilter::teardown_complete(self, port);
    }

    fn unload(&self) -> bool {
        Minifilter::unload(self)
    }

    fn cleanup(&self, kind: ContextKind, body: &[u8]) -> u64 {
        Minifilter::cleanup(self, kind, body)
    }
}
