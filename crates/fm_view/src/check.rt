//! Scripts as tests: each is run, and whether it is as its lines expect is told in the words of TAP.

use crate::view::{Shown, ViewFormat, run_shown};
use fm_report::{Text, push_ascii};
use std::alloc::Global;
use std::fs;
use std::io::{self, Write};
use std::rt::Files;

/// How scripts are checked.
#[derive(Clone, Copy)]
pub struct Strictness {
    /// Whether a refusal that no line expects counts as an expectation that isn't met.
    pub is_strict: bool,
    /// Whether a script of which no line expects anything is passed over, and doesn't fail.
    pub skips: bool,
}

// What came of a script.
#[derive(Drop)]
struct Run {
    status: u8,
    expected: u64,
    said: Vec<u8>,
}

// Runs a script.
fn run_script(alloc: Global, strictness: Strictness, script: &[u8]) -> Run {
    let shown = Shown {
        is_strict: strictness.is_strict,
        ..Shown::new(ViewFormat::Check)
    };
    let mut said = Vec::new(alloc);
    let (status, expected) = run_shown(alloc, shown, None, script, &mut said);
    Run {
        status,
        expected,
        said,
    }
}

// Appends each line as a remark.
fn remark(text: &mut Text, lines: &[u8]) {
    for line in lines.split(|byte| *byte == b'\n') {
        if !line.is_empty() {
            text.push_str("# ");
            push_ascii(text, line);
            text.push('\n');
        }
    }
}

// Appends whether a script passes, with its number and its name.
fn say_head(text: &mut Text, word: &str, number: usize, name: &str) {
    text.push_str(word);
    text.push_number(number as u64);
    text.push_str(" - ");
    push_ascii(text, name.as_bytes())
}

// Appends what came of a script. Whether it passes.
fn say_run(text: &mut Text, number: usize, name: &str, run: &Run, skips: bool) -> bool {
    let is_skipped = skips && run.status == 0 && run.expected == 0;
    if is_skipped {
        say_head(text, "ok ", number, name);
        text.push_str(" # SKIP no line says what is expected\n");
        return true;
    }
    let is_well = run.status == 0 && run.expected > 0;
    if is_well {
        say_head(text, "ok ", number, name);
        text.push('\n');
        return true;
    }
    say_head(text, "not ok ", number, name);
    text.push('\n');
    say_why(text, run);
    false
}

// Appends why a script doesn't pass.
fn say_why(text: &mut Text, run: &Run) {
    remark(text, run.said.as_slice());
    if run.expected == 0 {
        text.push_str("# no line says what is expected, as `#! expect status 0` would\n");
    }
    text.push_str("# status ");
    text.push_number(u64::from(run.status));
    text.push('\n')
}

// Runs the script of a file, and writes what came of it. Whether it passes.
fn check_file<R: Files + AllocGlobal, W: Write>(
    rt: &R,
    strictness: Strictness,
    number: usize,
    name: &str,
    out: &mut W,
) -> io::Result<bool> {
    let alloc = rt.alloc();
    let mut text = Text::new(alloc);
    let is_well = match fs::read(rt, name) {
        Ok(script) => {
            let run = run_script(alloc, strictness, script.as_slice());
            say_run(&mut text, number, name, &run, strictness.skips)
        }
        Err(error) => {
            let words = format!(in alloc; "\n# it can't be read: {error}\n")?;
            say_head(&mut text, "not ok ", number, name);
            text.push_str(words.as_str());
            false
        }
    };
    let text = text.finish()?;
    out.write_all(text.as_bytes())?;
    out.flush()?;
    Ok(is_well)
}

/// Runs the scripts of these files as tests, and writes what came of each as TAP has it. Whether all pass: each ends with status 0, and a line of it says what
/// is expected. It fails where memory or a write does.
pub fn check_scripts<R: Files + AllocGlobal, W: Write>(
    rt: &R,
    strictness: Strictness,
    files: &[&str],
    out: &mut W,
) -> io::Result<bool> {
    let plan = format!(in rt.alloc(); "1..{}\n", files.len())?;
    out.write_all(plan.as_bytes())?;
    let mut is_well = true;
    for (place, name) in files.iter().enumerate() {
        if !check_file(rt, strictness, place.saturating_add(1), name, out)? {
            is_well = false;
        }
    }
    Ok(is_well)
}
