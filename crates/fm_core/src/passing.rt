//! Callbacks that answer where they are called: neither looks at its data, and neither calls the manager. `next` and the callback's return are one event then,
//! in which nothing is lent.

ghost use Rattle.std.specs.Prelude.{◌≡◌, IfSome};
ghost use Rattle.fm_world.specs.Hands.{OnlyHandOf};
ghost use Rattle.fm_core.specs.Passing.{ComesDown, ComesUp, IsComing, LiesNext, OwesPlain, Passes, PassesDown, PassesUp, answered_by, numbered};

use crate::descent::{cursor, has_post, has_pre, is_stopping};
use crate::references::end_callback;
use crate::state::State;
use fm_callback_data::{Completion, PreVerdict};
use fm_operations::{Ask, OperationRecord, Stage, may_take};
use fm_stack::Stack;
use fm_types::{InstanceId, OpId, WorkerId};

/// An instance that an operation passed: on its way down, or on its way up.
#[derive(Clone, Copy, Debug, PartialEq, Eq)]
pub enum Passed {
    /// Its preoperation was called, and asked at once for its postoperation, handing on that number.
    Down(InstanceId, u64),
    /// Its postoperation was called, and finished at once.
    Up(InstanceId),
}

// What an operation can pass next: an instance below it, with the number that its preoperation hands on, or one that is owed its postoperation.
enum Coming {
    Down(InstanceId, u64),
    Up(Ask),
}

// The number that the preoperation of an instance hands on, where it asks for its postoperation and hands on no context.
fn number_alone(verdicts: &[PreVerdict], instance: InstanceId) -> Option<u64>
    ensures { IfSome result (λ n. answered_by verdicts.now instance ≡ PreVerdict.WithCallback (numbered n)) }
{
    match verdicts.get(usize::from(instance.0)) {
        None => Some(0),
        Some(
            PreVerdict::WithCallback(
                Completion {
                    number,
                    context: None,
                },
            ),
        ) => Some(*number),
        Some(_) => None,
    }
}

/// The instance that an operation comes to on its way down, where its filter has a callback before the operation and one after it.
fn next_down(stack: &Stack, operation: &OperationRecord) -> Option<InstanceId>
    ensures { IfSome result (λ i. LiesNext stack.now operation.now i) }
{
    let Stage::Descending = operation.stage() else {
        return None;
    };
    let kind = operation.operation();
    let instance = stack.next_below(
        operation.volume(),
        cursor(operation),
        operation.entries_before_last(),
        operation.born(),
        kind,
    )?;
    if has_pre(stack, instance, kind) && has_post(stack, instance, kind) {
        Some(instance)
    } else {
        None
    }
}

/// The postoperation that an operation owes next, where that worker may make it, it isn't a drain, and no context comes back with it.
fn next_up(stack: &Stack, operation: &OperationRecord, worker: WorkerId) -> Option<Ask>
    ensures { IfSome result (λ ask. OwesPlain stack.now operation.now worker ask) }
{
    let Stage::Ascending = operation.stage() else {
        return None;
    };
    let ask = operation.next_owed()?;
    if ask.completion.context.is_some() || !may_take(worker, ask) || is_stopping(stack, Some(ask)) {
        return None;
    }
    Some(ask)
}

impl State {
    // What the operation passes next, where the worker is idle and neither of the two callbacks needs more than an answer.
    fn coming(&self, worker: WorkerId, operation: OpId, verdicts: &[PreVerdict]) -> Option<Coming>
        ensures { IfSome result (λ coming. IsComing self.now worker operation verdicts.now coming) }
    {
        if !self.is_idle(worker) {
            return None;
        }
        let record = self.flow.record(operation)?;
        if let Some(instance) = next_down(&self.stack, record) {
            let number = number_alone(verdicts, instance)?;
            return Some(Coming::Down(instance, number));
        }
        let ask = next_up(&self.stack, record, worker)?;
        Some(Coming::Up(ask))
    }

    // The operation passes an instance on its way down: `next`, whose preoperation callback returns at once, asking for its postoperation with that number
    // and no context.
    fn pass_down(&mut self, worker: WorkerId, operation: OpId, instance: InstanceId, number: u64)
        requires { ComesDown self.old worker operation instance }
        ensures event { PassesDown self.old worker operation instance (numbered number) self.new }
        ensures hand { OnlyHandOf worker.0 self.old self.new }
    {
        self.contexts.laws();
        let completion = Completion {
            number,
            context: None,
        };
        self.flow.pass_down(operation, worker, instance, completion);
        end_callback(&mut self.contexts, worker, None);
    }

    // The operation passes the instance that is owed its next postoperation: `next`, whose postoperation callback returns at once, finished.
    fn pass_up(&mut self, worker: WorkerId, operation: OpId, ask: Ask)
        requires { ComesUp self.old worker operation ask }
        ensures event { PassesUp self.old worker operation ask.instance self.new }
        ensures hand { OnlyHandOf worker.0 self.old self.new }
    {
        self.contexts.laws();
        self.flow.pass_up(operation, worker, ask);
        end_callback(&mut self.contexts, worker, None);
    }

    /// The operation passes one instance: `next`, and the return of the callback that it calls, in one event, where that callback answers where it is
    /// called. `verdicts` says by the instances' numbers what a preoperation answers; one that isn't there asks for its postoperation with the number 0.
    /// On the way down the instance's filter has both callbacks, and its verdict asks for the postoperation (`FLT_PREOP_SUCCESS_WITH_CALLBACK`) with a
    /// number and no context. On the way up the postoperation is finished (`FLT_POSTOP_FINISHED_PROCESSING`); no context comes back with it, it is no drain,
    /// and the worker may make it. None, and nothing changed, in each other case: `next` tells what is to be done then. It takes no memory.
    pub fn pass(
        &mut self,
        worker: WorkerId,
        operation: OpId,
        verdicts: &[PreVerdict],
    ) -> Option<Passed>
        ensures event { Passes self.old worker operation verdicts.now result self.new }
        ensures hand { OnlyHandOf worker.0 self.old self.new }
    {
        match self.coming(worker, operation, verdicts)? {
            Coming::Down(instance, number) => {
                self.pass_down(worker, operation, instance, number);
                Some(Passed::Down(instance, number))
            }
            Coming::Up(ask) => {
                self.pass_up(worker, operation, ask);
                Some(Passed::Up(ask.instance))
            }
        }
    }
}
