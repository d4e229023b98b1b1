//! The recording filter.

ghost use Rattle.std.specs.Prelude.{◌≡◌, ⊤};

use crate::contexts::{let_all_go, let_first_go, set_and_release, set_once};
use crate::log::{Callback, For, Log, Seen};
use crate::plan::Plan;
use fm_callback_data::{CallbackData, Completion, Params, PostVerdict, PreVerdict};
use fm_filter::{Minifilter, Port};
use fm_types::{ContextKind, ContextMask, Name, OpMask, Registration, Status};
use fm_world::About;
use std::alloc::Global;
use std::sync::Arc;

/// What a postoperation is asked for with, where no context goes along.
const NOTHING: Completion = Completion {
    number: 0,
    context: None,
};

/// Notes each of its callbacks, and answers by its plan.
#[derive(Drop)]
pub struct Recorder {
    alloc: Global,
    log: Arc<Log>,
    name: Name,
    plan: Plan,
}

/// A recording filter of each plan, under its name, all with one log. Refused with 1.
pub fn recorders(alloc: Global, log: &Arc<Log>) -> Result<Vec<(Name, Recorder)>, Status> {
    let mut filters = Vec::new(alloc);
    for (name, plan) in Plan::all(alloc)? {
        let recorder = Recorder {
            alloc,
            log: Arc::try_clone(log)?,
            name,
            plan,
        };
        filters.push((name, recorder))?;
    }
    Ok(filters)
}

// What a callback of an instance is for.
fn what_of(about: &About) -> For {
    match &about.operation {
        Some(operation) => For::Operation(operation.kind),
        None => For::Itself,
    }
}

impl Recorder {
    // Notes a callback of an instance.
    fn note<P: Port>(&self, callback: Callback, port: &P) {
        if let Ok(about) = port.about() {
            self.log.note(Seen {
                callback,
                whose: about.instance_name,
                what: what_of(&about),
            });
        }
    }

    // Notes a callback of the filter alone.
    fn note_own(&self, callback: Callback, what: For) {
        self.log.note(Seen {
            callback,
            whose: self.name,
            what,
        });
    }

    // What becomes of a read.
    fn read<P: Port>(&self, port: &mut P) -> PreVerdict
        ensures far { P.kept port.new ≡ P.kept port.old }
    {
        match self.plan {
            Plan::With | Plan::Keep => PreVerdict::WithCallback(NOTHING),
            Plan::Without | Plan::Deny => PreVerdict::NoCallback,
            Plan::Hold | Plan::Late => PreVerdict::Pending,
            Plan::Sync => PreVerdict::Synchronize(NOTHING),
            Plan::Carry => PreVerdict::WithCallback(Completion {
                number: 0,
                context: set_once(self.alloc, ContextKind::Handle, port),
            }),
            Plan::Meter => {
                set_and_release(self.alloc, ContextKind::Stream, port);
                PreVerdict::NoCallback
            }
        }
    }

    // What becomes of any other operation.
    fn pass(&self) -> PreVerdict {
        match self.plan {
            Plan::With => PreVerdict::WithCallback(NOTHING),
            _ => PreVerdict::NoCallback,
        }
    }

    // What becomes of a flush: what is held goes on.
    fn flush<P: Port>(&self, port: &mut P) -> PreVerdict
        ensures far { P.kept port.new ≡ P.kept port.old }
    {
        match self.plan {
            Plan::Hold | Plan::Late | Plan::Keep => {
                let_all_go(self.plan, PreVerdict::WithCallback(NOTHING), port);
                PreVerdict::WithCallback(NOTHING)
            }
            _ => self.pass(),
        }
    }
}

// Releases what a completion brought.
fn release<P: Port>(completion: Completion, port: &mut P)
    ensures far { P.kept port.new ≡ P.kept port.old }
{
    if let Some(context) = completion.context {
        let _ = port.release(context);
    }
}

impl Minifilter for Recorder {
    ghost use Rattle.std.specs.Prelude.{⊤, true};

    ghost registers = { λ _. record { pre = record { 0 = 576460752303423487 }; post = record { 0 = 576460752303423487 }; contexts = record { 0 = 14 }; query = true; unload = true } };

    ghost setup_may = { λ _ _. ⊤ };

    ghost pre_may = { λ _ _ _ _. ⊤ };

    ghost post_may = { λ _ _ _ _ _. ⊤ };

    ghost query_may = { λ _ _. ⊤ };

    ghost unload_may = { λ _ _. ⊤ };

    ghost cleanup_may = { λ _ _ _ _. ⊤ };

    ghost drained = { λ _ _. ⊤ };

    ghost started = { λ _. ⊤ };

    ghost completed = { λ _. ⊤ };

    ghost is_quiet = { λ _. ⊥ };

    fn registration(&self) -> Registration {
        Registration {
            pre: OpMask::ALL,
            post: OpMask::ALL,
            contexts: ContextMask(
                ContextMask::INSTANCE.0 | ContextMask::STREAM.0 | ContextMask::HANDLE.0,
            ),
            query: true,
            unload: true,
        }
    }

    fn setup<P: Port>(&self, port: &mut P) -> bool {
        self.note(Callback::Setup, port);
        if self.plan == Plan::Meter {
            set_and_release(self.alloc, ContextKind::Instance, port);
        }
        true
    }

    fn pre<P: Port>(&self, lent: &mut CallbackData, port: &mut P) -> PreVerdict {
        self.note(Callback::Pre, port);
        match lent.params() {
            Params::Read { .. } => self.read(port),
            Params::Flush => self.flush(port),
            Params::SetSize { .. } if self.plan == Plan::Hold => PreVerdict::Pending,
            Params::Create { .. } if self.plan == Plan::Deny => {
                PreVerdict::Complete(Status::AccessDenied)
            }
            _ => self.pass(),
        }
    }

    fn post<P: Port>(
        &self,
        lent: &mut CallbackData,
        completion: Completion,
        port: &mut P,
    ) -> PostVerdict {
        self.note(Callback::Post, port);
        release(completion, port);
        match lent.params() {
            Params::Read { .. } if self.plan == Plan::Keep => PostVerdict::MoreProcessing,
            _ => PostVerdict::Finished,
        }
    }

    fn drain<P: Port>(&self, completion: Completion, port: &mut P) {
        self.note(Callback::Drain, port);
        release(completion, port);
    }

    fn query_teardown<P: Port>(&self, port: &mut P) -> bool {
        self.note(Callback::Query, port);
        true
    }

    fn teardown_start<P: Port>(&self, port: &mut P) {
        self.note(Callback::Start, port);
        if self.plan == Plan::Late {
            let_first_go(self.plan, PreVerdict::NoCallback, port);
        } else {
            let_all_go(self.plan, PreVerdict::NoCallback, port);
        }
    }

    fn teardown_complete<P: Port>(&self, port: &mut P) {
        self.note(Callback::Complete, port);
    }

    fn unload(&self) -> bool {
        self.note_own(Callback::Unload, For::Itself);
        true
    }

    fn cleanup(&self, kind: ContextKind, _body: &[u8]) -> u64 {
        self.note_own(Callback::Cleanup, For::Context(kind));
        0
    }
}
