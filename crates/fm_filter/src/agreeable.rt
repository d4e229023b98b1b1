//! Minifilters that agree to all that is asked of them.

ghost use Rattle.std.specs.Prelude.{◌≡◌, true};

use crate::minifilter::Minifilter;
use crate::port::Port;
use fm_callback_data::{CallbackData, Completion, PostVerdict, PreVerdict};
use fm_types::{ContextKind, Registration};

/// A minifilter that agrees to each attach, detach and unload (`STATUS_SUCCESS`): each is a `Minifilter`, whose query and unload agree. The callbacks have
/// their contracts from there; those that do nothing needn't be written (NULL in `FLT_REGISTRATION`).
pub trait Agreeable: Send + Sync + Drop {
    ghost use Rattle.std.specs.Prelude.{ℕ, List};
    ghost use Rattle.fm_types.specs.declared.context_kind.ContextKind.{ContextKind};
    ghost use Rattle.fm_types.specs.declared.registration.Registration.{Registration};
    ghost use Rattle.fm_callback_data.specs.Data.{Data};
    ghost use Rattle.fm_callback_data.specs.declared.verdict.Completion.{Completion};
    ghost use Rattle.fm_callback_data.specs.declared.verdict.PreVerdict.{PreVerdict};
    ghost use Rattle.fm_callback_data.specs.declared.verdict.PostVerdict.{PostVerdict};

    /// What it registers for.
    ghost registers: { Self → Registration };

    /// As `Minifilter::pre_may`.
    ghost pre_may: { Self → Data → PreVerdict → Data → Type 0 };

    /// As `Minifilter::post_may`.
    ghost post_may: { Self → Data → Completion → PostVerdict → Data → Type 0 };

    /// As `Minifilter::cleanup_may`.
    ghost cleanup_may: { Self → ContextKind → List ℕ → ℕ → Type 0 };

    /// As `Minifilter::is_quiet`.
    ghost is_quiet: { Self → Type 0 };

    /// As `Minifilter::registration`.
    fn registration(&self) -> Registration
        ensures { result ≡ registers self.now };

    /// As `Minifilter::setup`. It agrees.
    fn setup<P: Port>(&self, _port: &mut P) -> bool
        ensures agrees { result ≡ true }
        ensures quiet { is_quiet self.now → _port.new ≡ _port.old }
        ensures far { P.kept _port.new ≡ P.kept _port.old }
    {
        true
    }

    /// As `Minifilter::pre`.
    fn pre<P: Port>(&self, lent: &mut CallbackData, port: &mut P) -> PreVerdict
        ensures may { pre_may self.now lent.old result lent.new }
        ensures kept { lent.new.received ≡ lent.old.received }
        ensures quiet { is_quiet self.now → port.new ≡ port.old }
        ensures far { P.kept port.new ≡ P.kept port.old };

    /// As `Minifilter::post`.
    fn post<P: Port>(
        &self,
        lent: &mut CallbackData,
        completion: Completion,
        port: &mut P,
    ) -> PostVerdict
        ensures may { post_may self.now lent.old completion result lent.new }
        ensures kept { lent.new.received ≡ lent.old.received }
        ensures quiet { is_quiet self.now → port.new ≡ port.old }
        ensures far { P.kept port.new ≡ P.kept port.old };

    /// As `Minifilter::drain`.
    fn drain<P: Port>(&self, _completion: Completion, _port: &mut P)
        ensures quiet { is_quiet self.now → _port.new ≡ _port.old }
        ensures far { P.kept _port.new ≡ P.kept _port.old }
    {}

    /// As `Minifilter::teardown_start`.
    fn teardown_start<P: Port>(&self, _port: &mut P)
        ensures quiet { is_quiet self.now → _port.new ≡ _port.old }
        ensures far { P.kept _port.new ≡ P.kept _port.old }
    {}

    /// As `Minifilter::teardown_complete`.
    fn teardown_complete<P: Port>(&self, _port: &mut P)
        ensures quiet { is_quiet self.now → _port.new ≡ _port.old }
        ensures far { P.kept _port.new ≡ P.kept _port.old }
    {}

    /// As `Minifilter::cleanup`.
    fn cleanup(&self, kind: ContextKind, body: &[u8]) -> u64
        ensures { cleanup_may self.now kind body.now result };
}

impl<F: Agreeable> Minifilter for F {
    ghost use Rattle.std.specs.Prelude.{◌≡◌, true, ⊤};

    ghost registers = { F.registers };

    ghost setup_may = { λ _ answer. answer ≡ true };

    ghost pre_may = { F.pre_may };

    ghost post_may = { F.post_may };

    ghost query_may = { λ _ answer. answer ≡ true };

    ghost unload_may = { λ _ answer. answer ≡ true };

    ghost cleanup_may = { F.cleanup_may };

    ghost drained = { λ _ _. ⊤ };

    ghost started = { λ _. ⊤ };

    ghost completed = { λ _. ⊤ };

    ghost is_quiet = { F.is_quiet };

    fn registration(&self) -> Registration {
        Agreeable::registration(self)
    }

    fn setup<P: Port>(&self, port: &mut P) -> bool {
        Agreeable::setup(self, port)
    }

    fn pre<P: Port>(&self, lent: &mut CallbackData, port: &mut P) -> PreVerdict {
        Agreeable::pre(self, lent, port)
    }

    fn post<P: Port>(
        &self,
        lent: &mut CallbackData,
        completion: Completion,
        port: &mut P,
    ) -> PostVerdict {
        Agreeable::post(self, lent, completion, port)
    }

    fn drain<P: Port>(&self, completion: Completion, port: &mut P) {
        Agreeable::drain(self, completion, port);
    }

    fn query_teardown<P: Port>(&self, _port: &mut P) -> bool {
        true
    }

    fn teardown_start<P: Port>(&self, port: &mut P) {
        Agreeable::teardown_start(self, port);
    }

    fn teardown_complete<P: Port>(&self, port: &mut P) {
        Agreeable::teardown_complete(self, port);
    }

    fn unload(&self) -> bool {
        true
    }

    fn cleanup(&self, kind: ContextKind, body: &[u8]) -> u64 {
        Agreeable::cleanup(self, kind, body)
    }
}
