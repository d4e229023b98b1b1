//! What a worker is given to do, and what it is lent for it.

ghost use Rattle.std.specs.Prelude.{◌≡◌};
ghost use Rattle.fm_types.specs.Refusals.{Answers};
ghost use Rattle.fm_session.specs.Sessions.{answer_refused, answered_in, change_refused, changed_in, given_by, lent_by, out_refused, params_refused, put_in, with_params};

use fm_callback_data::{BaseCall, CallbackData, Completion, Params};
use fm_operations::FlowAction;
use fm_types::{Bytes, InstanceId, Status};

/// What a worker was lent, and hasn't given back.
#[derive(Drop)]
pub enum Lent {
    /// Nothing.
    Nothing,
    /// The data of a preoperation callback.
    Pre(CallbackData),
    /// A call of the base.
    Base(BaseCall),
    /// The data of a postoperation callback.
    Post(CallbackData),
    /// A drain, which has no data.
    Drain,
}

/// What a worker has to do next for an operation, apart from what it is lent.
#[derive(Clone, Copy, Debug, PartialEq, Eq)]
pub enum Given {
    /// Call that instance's preoperation.
    Pre(InstanceId),
    /// Ask the base.
    Base,
    /// Call that instance's postoperation with its completion.
    Post(InstanceId, Completion),
    /// Give that instance its completion back, for it is torn down.
    Drain(InstanceId, Completion),
    /// Nothing: an entry was made without a call. Ask again.
    Moved,
    /// Nothing: a filter holds the operation.
    Held,
    /// Nothing: the operation is done.
    Done,
}

impl Given {
    /// What an action has a worker do.
    pub fn of(action: &FlowAction) -> Given
        ensures { result ≡ given_by action.now }
    {
        match action {
            FlowAction::Pre(instance, _) => Given::Pre(*instance),
            FlowAction::Base(_) => Given::Base,
            FlowAction::Post(instance, _, completion) => Given::Post(*instance, *completion),
            FlowAction::Drain(instance, completion) => Given::Drain(*instance, *completion),
            FlowAction::Moved => Given::Moved,
            FlowAction::Held => Given::Held,
            FlowAction::Done => Given::Done,
        }
    }
}

impl Lent {
    /// What an action lends.
    pub fn by(action: FlowAction) -> Lent
        ensures { result ≡ lent_by action }
    {
        match action {
            FlowAction::Pre(_, data) => Lent::Pre(data),
            FlowAction::Base(call) => Lent::Base(call),
            FlowAction::Post(_, data, _) => Lent::Post(data),
            FlowAction::Drain(_, _) => Lent::Drain,
            FlowAction::Moved | FlowAction::Held | FlowAction::Done => Lent::Nothing,
        }
    }

    // Puts other parameters in the data.
    pub(crate) fn change(&mut self, params: Params) -> Result<(), Status>
        ensures { Answers (change_refused params self.old) result self.old self.new (λ done. self.new ≡ changed_in params self.old) }
    {
        match self {
            Lent::Pre(lent) => put_params(lent, params),
            Lent::Post(lent) => put_params(lent, params),
            Lent::Nothing | Lent::Base(_) | Lent::Drain => Err(Status::WrongStep),
        }
    }

    // Puts another answer in the data: a status and a number, and bytes where there are some.
    pub(crate) fn answer(
        &mut self,
        status: Status,
        information: u64,
        bytes: Option<Bytes>,
    ) -> Result<(), Status>
        ensures { Answers (answer_refused bytes self.old) result self.old self.new (λ done. self.new ≡ answered_in status information bytes self.old) }
    {
        match self {
            Lent::Pre(lent) => put_answer(lent, status, information, bytes),
            Lent::Post(lent) => put_answer(lent, status, information, bytes),
            Lent::Nothing | Lent::Base(_) | Lent::Drain => Err(Status::WrongStep),
        }
    }
}

// Other parameters for callback data.
fn put_params(lent: &mut CallbackData, params: Params) -> Result<(), Status>
    ensures { Answers (params_refused params lent.old) result lent.old lent.new (λ done. lent.new ≡ with_params params lent.old) }
{
    lent.change(params)
}

// Another answer for callback data.
fn put_answer(
    lent: &mut CallbackData,
    status: Status,
    information: u64,
    bytes: Option<Bytes>,
) -> Result<(), Status>
    ensures { Answers (out_refused bytes) result lent.old lent.new (λ done. lent.new ≡ put_in status information bytes lent.old) }
{
    if let Some(bytes) = bytes {
        lent.set_out(bytes)?;
    }
    lent.set_status(status, information);
    Ok(())
}
