//! The trait of what carries out the calls of the base.

ghost use Rattle.std.specs.Prelude.{ℕ, ◌≤◌, length};
ghost use Rattle.fm_callback_data.specs.Calls.{BaseCall};
ghost use Rattle.fm_callback_data.specs.declared.answer.Answer.{Answer};

use fm_callback_data::{Answer, BaseCall};

/// What lies below the lowest instances of all volumes (the file system drivers and disks of the kit).
pub trait Device: Drop {
    ghost use Rattle.fm_callback_data.specs.Calls.{BaseCall};
    ghost use Rattle.fm_callback_data.specs.declared.answer.Answer.{Answer};

    /// How it may answer a call, and what the call may make of it.
    ghost carries: { Self → BaseCall → Answer → Self → Type 0 };

    /// Carries out what an operation that reached the base asks (`IoCallDriver`), and answers with at most 32,768 bytes.
    fn call(&mut self, call: &BaseCall) -> Answer
        ensures carried { carries self.old call.now result self.new }
        ensures within { length result.bytes ≤ 32768 };
}
