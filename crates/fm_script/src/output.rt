//! Where a script prints: lines are held back until there are enough of them, or until it is flushed.

ghost use Rattle.std.specs.Prelude.{◌≡◌, ◌<◌, ◌++◌, [], Err, IfErr, IfOk, OnErr, length, vec_capacity};
ghost use Rattle.fm_script.specs.Printing.{Adds, Changes, HandsOver, Holds, Says, printed};
ghost use Rattle.fm_script.specs.Passed.{asks_said, down_text, up_text};
ghost use Rattle.fm_script.specs.Sayings.{text_with};
ghost use Rattle.fm_script.specs.declared.said.Said.TheVariants as SaidOf;
ghost use Rattle.fm_script.specs.declared.said.Word.TheVariants as WordOf;

use crate::passed_lines::PassedLines;
use crate::said::Said;
use crate::script_end::ScriptEnd;
use fm_types::InstanceId;
use std::alloc::{AllocError, Global};
use std::io::Write;
use std::mem;

/// How many bytes are held back at most before they are written.
const HELD: usize = 8192;

/// A script's writer, with the lines that it hasn't been given yet.
#[derive(Drop)]
pub struct Output<W: Write + Drop> {
    text: Vec<u8>,
    writer: W,
    passed: PassedLines,
}

impl<W: Write + Drop> Output<W> {
    /// An output that has printed nothing.
    pub fn new(alloc: Global, writer: W) -> Self
        ensures { printed W.contents result ≡ record { given = W.contents writer; held = [] } }
    {
        Output {
            text: Vec::new(alloc),
            writer,
            passed: PassedLines::new(alloc),
        }
    }

    /// Prints a line: it is held back, and with it all that is held goes to the writer once that is 8,192 bytes or more. It is NoMemory if there is no
    /// memory for the line, which the writer wasn't given then, and never if there is room for it after what is held back. It is WriteFault if the writer
    /// fails; then nothing is held back any more.
    pub fn say(&mut self, line: &Said) -> Result<(), ScriptEnd>
        ensures never { result ≡ Err ScriptEnd.Ended → ⊥ }
        ensures says { Says line.now result (printed W.contents self.old) (printed W.contents self.new) }
        ensures full { IfErr result (λ end. end ≡ ScriptEnd.NoMemory → vec_capacity self.old.text < length (text_with self.old.text.items line.now)) }
    {
        line.print(&mut self.text).map_err(|_| ScriptEnd::NoMemory)?;
        self.hand_on()
    }

    /// Prints the line for a preoperation that asks for its postoperation, as `say` does.
    pub fn say_down(&mut self, instance: InstanceId, number: u64) -> Result<(), ScriptEnd>
        ensures says { Says (asks_said instance.0 number) result (printed W.contents self.old) (printed W.contents self.new) }
        ensures never { result ≡ Err ScriptEnd.Ended → ⊥ }
    {
        if let Ok(()) = self.append_down(instance) {
            return self.hand_on();
        }
        self.say(&Said::asks(instance, number))
    }

    /// Prints the line for a postoperation, as `say` does.
    pub fn say_up(&mut self, instance: InstanceId) -> Result<(), ScriptEnd>
        ensures says { Says (SaidOf.Id WordOf.Post 105 instance.0) result (printed W.contents self.old) (printed W.contents self.new) }
        ensures never { result ≡ Err ScriptEnd.Ended → ⊥ }
    {
        if let Ok(()) = self.append_up(instance) {
            return self.hand_on();
        }
        self.say(&Said::returns(instance))
    }

    // Appends the line for a preoperation that asks for its postoperation. The error says that memory was refused, and nothing is appended.
    fn append_down(&mut self, instance: InstanceId) -> Result<(), AllocError>
        ensures ok { IfOk result (λ _. Adds (down_text instance.0) (printed W.contents self.old) (printed W.contents self.new)) }
        ensures err { OnErr result (printed W.contents self.new ≡ printed W.contents self.old) }
    {
        self.passed.make(instance)?;
        self.passed.down(instance).append(&mut self.text)
    }

    // The same for a postoperation.
    fn append_up(&mut self, instance: InstanceId) -> Result<(), AllocError>
        ensures ok { IfOk result (λ _. Adds (up_text instance.0) (printed W.contents self.old) (printed W.contents self.new)) }
        ensures err { OnErr result (printed W.contents self.new ≡ printed W.contents self.old) }
    {
        self.passed.make(instance)?;
        self.passed.up(instance).append(&mut self.text)
    }

    /// The writer. What is held back is gone.
    pub fn into_writer(self) -> W
        ensures { result ≡ self.writer }
    {
        self.writer
    }

    // All that is held back goes to the writer once that is 8,192 bytes or more.
    fn hand_on(&mut self) -> Result<(), ScriptEnd>
        ensures holds { Holds self.old.text.items result (printed W.contents self.old) (printed W.contents self.new) }
        ensures fault { IfErr result (λ end. end ≡ ScriptEnd.WriteFault) }
    {
        if self.text.len() >= HELD {
            self.write()?;
        }
        Ok(())
    }

    /// Hands all that was printed to the writer, and has it flushed. It is WriteFault if the writer fails; nothing is held back any more, however it went.
    pub fn flush(&mut self) -> Result<(), ScriptEnd>
        ensures { HandsOver result (printed W.contents self.old) (printed W.contents self.new) }
    {
        self.write()?;
        self.writer.flush().map_err(|_| ScriptEnd::WriteFault)
    }

    /// Hands all that was printed to the writer, gives that back, and goes on with another one, with nothing held back. It is WriteFault if the writer
    /// fails: then it stays, and nothing is held back any more.
    pub fn change_writer(&mut self, writer: W) -> Result<W, ScriptEnd>
        ensures { Changes writer result (printed W.contents self.old) (printed W.contents self.new) W.contents }
    {
        self.write()?;
        Ok(mem::replace(&mut self.writer, writer))
    }

    fn write(&mut self) -> Result<(), ScriptEnd>
        ensures { HandsOver result (printed W.contents self.old) (printed W.contents self.new) }
    {
        let written = self.writer.write_all(self.text.as_slice());
        self.text.clear();
        written.map_err(|_| ScriptEnd::WriteFault)
    }
}
