//! What is told what the lines of a script answered.

ghost use Rattle.std.specs.Prelude.{◌≡◌, Err};

use crate::output::Output;
use crate::said::Said;
use crate::script_end::ScriptEnd;
use fm_types::InstanceId;
use std::io::Write;

/// What is told what the lines of a script answered, one value for each line of an answer: an output prints it, and a list keeps it.
pub trait Sink {
    /// Takes what one line of an answer says. An error ends the script.
    fn tell(&mut self, said: Said) -> Result<(), ScriptEnd>
        ensures never { result ≡ Err ScriptEnd.Ended → ⊥ };

    /// Takes that the preoperation of an instance asked for its postoperation, and hands on that number. An error ends the script.
    fn tell_down(&mut self, instance: InstanceId, number: u64) -> Result<(), ScriptEnd>
        ensures never { result ≡ Err ScriptEnd.Ended → ⊥ }
    {
        self.tell(Said::asks(instance, number))
    }

    /// Takes that the postoperation of an instance returned. An error ends the script.
    fn tell_up(&mut self, instance: InstanceId) -> Result<(), ScriptEnd>
        ensures never { result ≡ Err ScriptEnd.Ended → ⊥ }
    {
        self.tell(Said::returns(instance))
    }
}

impl<W: Write + Drop> Sink for Output<W> {
    fn tell(&mut self, said: Said) -> Result<(), ScriptEnd> {
        self.say(&said)
    }

    fn tell_down(&mut self, instance: InstanceId, number: u64) -> Result<(), ScriptEnd> {
        self.say_down(instance, number)
    }

    fn tell_up(&mut self, instance: InstanceId) -> Result<(), ScriptEnd> {
        self.say_up(instance)
    }
}

impl Sink for Vec<Said> {
    fn tell(&mut self, said: Said) -> Result<(), ScriptEnd> {
        self.push(said).map_err(|_| ScriptEnd::NoMemory)
    }
}
