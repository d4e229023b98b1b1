//! What happened in a run, as values: a script's, a trial's or another's. The words and the JSON of a run are made of them.
//!
//! A new event is a kind with its name and its pattern of words, and what makes it; the objects, the colours and the pictures read its facts.
#![tactic(auto)]

mod counted;
mod event;
mod facts;
mod json;
mod kind;
mod named;
mod notes;
mod object;
mod pattern;
mod push;
mod status;
mod tally;
mod teller;
mod text;
mod verbs;
mod words;

pub use crate::counted::{counted_for, held_at, held_operations, stands_at};
pub use crate::event::{Event, InstanceVisit, Moment, callback_of, instance_in, operation_in};
pub use crate::facts::Facts;
pub use crate::json::{
    Detail, ObjectDetail, say_begin_json, say_change_json, say_comment_json, say_end_json,
    say_expectation_json, say_json, say_leak_json,
};
pub use crate::kind::{Kind, Tone};
pub use crate::named::{
    kind_word, phase_word, push_context, push_filter, push_instance, push_operation, push_place,
    push_volume,
};
pub use crate::notes::{
    Change, ContextNote, InstanceNote, LeakNote, Loaded, Notes, OperationNote, What, what_of,
};
pub use crate::pattern::fill;
pub use crate::push::{push_ascii, push_count, push_number};
pub use crate::status::sentence;
pub use crate::tally::{RunFault, Summary};
pub use crate::teller::{CallbackDetail, Teller};
pub use crate::text::Text;
pub use crate::verbs::{push_those, push_verb};
pub use crate::words::{say_detail, say_leak};
