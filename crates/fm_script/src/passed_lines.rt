//! What `go` prints for the instances that an operation passes.

ghost use Rattle.std.specs.Prelude.{◌≡◌, ◌<◌, ◌≤◌, ◌+◌, [], IfOk, length};
ghost use Rattle.fm_script.specs.Passed.{down_text, up_text};
ghost use Rattle.fm_script.specs.Sayings.{text_with};

use crate::said::Said;
use crate::short_line::ShortLine;
use fm_types::InstanceId;
use std::alloc::{AllocError, Global};
use std::marker::Model;

/// The lines for one instance: for its preoperation, which asks for its postoperation, and for that.
#[derive(Drop)]
pub struct PassedLine {
    down: ShortLine,
    up: ShortLine,
}

/// The lines for the instances, by their numbers: they are made when one is first passed, and appended whole from then on. Contracts see for how many
/// instances they are made.
#[derive(Drop)]
pub struct PassedLines {
    alloc: Global,
    rows: Vec<PassedLine>,
}

impl Model for PassedLines {
    ghost use Rattle.std.specs.Prelude.{ℕ, length};
    ghost use Rattle.fm_script.specs.Passed.{AreMade};

    ghost Value = { ℕ };

    ghost view = { λ lines. length lines.rows.items };

    ghost invariant = { λ lines. AreMade lines.rows.items };
}

// A line that is short.
fn short(alloc: Global, said: &Said) -> Result<ShortLine, AllocError>
    requires { length (text_with [] said.now) ≤ 16 }
    ensures { IfOk result (λ line. line ≡ text_with [] said.now) }
{
    let mut text = Vec::new(alloc);
    said.print(&mut text)?;
    Ok(ShortLine::of(text.as_slice()))
}

impl PassedLines {
    /// None are made.
    pub fn new(alloc: Global) -> PassedLines
        ensures { result ≡ 0 }
    {
        PassedLines {
            alloc,
            rows: Vec::new(alloc),
        }
    }

    /// Makes the lines for an instance, and for all of lower numbers. It fails if there is no memory for them: then the line is made as any other, and a script
    /// ends for want of memory only where that one has no room.
    pub fn make(&mut self, instance: InstanceId) -> Result<(), AllocError>
        ensures { IfOk result (λ _. instance.0 < self.new) }
    {
        while self.rows.len() <= instance.0 as usize {
            self.add()?;
        }
        Ok(())
    }

    // Makes the lines for one more instance.
    #[cold]
    fn add(&mut self) -> Result<(), AllocError>
        requires { self.old < 65536 }
        ensures { IfOk result (λ _. self.new ≡ self.old + 1) }
    {
        let instance = InstanceId(self.rows.len() as u16);
        let down = short(self.alloc, &Said::asks(instance, 0))?;
        let up = short(self.alloc, &Said::returns(instance))?;
        self.rows.push(PassedLine { down, up })?;
        Ok(())
    }

    /// The line for the preoperation of an instance, which asks for its postoperation.
    pub fn down(&self, instance: InstanceId) -> &ShortLine
        requires { instance.0 < self.now }
        ensures { result.now ≡ down_text instance.0 }
    {
        &self.rows[instance.0 as usize].down
    }

    /// The line for its postoperation.
    pub fn up(&self, instance: InstanceId) -> &ShortLine
        requires { instance.0 < self.now }
        ensures { result.now ≡ up_text instance.0 }
    {
        &self.rows[instance.0 as usize].up
    }
}
