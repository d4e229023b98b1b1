//! An object of the JSON that a run is told in.

use crate::named::major_word;
use crate::push::{is_plain, push_ascii, push_hex, push_id};
use crate::text::Text;
use fm_types::Major;
use serde_json::{Map, Value, json, put};
use std::alloc::{AllocError, Global};

/// An object that is being made. Where memory is refused it notes that, and the text to which it is appended is told.
#[derive(Drop)]
pub struct JsonObject {
    alloc: Global,
    members: Map<String, Value>,
    is_full: bool,
}

impl JsonObject {
    /// What happened on that line, under its name.
    pub fn new(alloc: Global, line: u32, event: &str) -> JsonObject {
        let mut object = JsonObject {
            alloc,
            members: Map::new(alloc),
            is_full: false,
        };
        object.number("line", u64::from(line));
        object.text("event", event);
        object
    }

    // Puts a value.
    fn put(&mut self, key: &str, value: Value) {
        if put(&mut self.members, self.alloc, key, value).is_err() {
            self.is_full = true;
        }
    }

    // Puts a value, if there was memory for it.
    fn put_made(&mut self, key: &str, made: Result<Value, AllocError>) {
        match made {
            Ok(value) => self.put(key, value),
            Err(_) => self.is_full = true,
        }
    }

    // Puts a text that was written.
    fn put_text(&mut self, key: &str, text: Text) {
        match text.finish() {
            Ok(text) => self.put(key, Value::String(text)),
            Err(_) => self.is_full = true,
        }
    }

    /// Puts a text.
    pub fn text(&mut self, key: &str, text: &str) {
        let made = json!(in self.alloc; text);
        self.put_made(key, made)
    }

    /// Puts a number.
    pub fn number(&mut self, key: &str, number: u64) {
        let made = json!(in self.alloc; number);
        self.put_made(key, made)
    }

    /// Puts an id, behind its letter.
    pub fn id(&mut self, key: &str, letter: char, number: u64) {
        let mut text = Text::new(self.alloc);
        push_id(&mut text, letter, number);
        self.put_text(key, text)
    }

    /// Puts the kit's name of a major function, as `FltGetIrpName` has it.
    pub fn major(&mut self, key: &str, major: Major) {
        let mut text = Text::new(self.alloc);
        text.push_str("IRP_MJ_");
        text.push_str(major_word(major));
        self.put_text(key, text)
    }

    /// Puts an id, if there is one.
    pub fn maybe(&mut self, key: &str, letter: char, number: Option<u64>) {
        if let Some(number) = number {
            self.id(key, letter, number);
        }
    }

    /// Puts bytes, in hexadecimal.
    pub fn bytes(&mut self, key: &str, bytes: &[u8]) {
        let mut text = Text::new(self.alloc);
        push_hex(&mut text, bytes);
        self.put_text(key, text)
    }

    /// Puts what was written, as a text in which a byte that isn't from the space to `~` stands as `\x` and two digits; where there is such a byte, the bytes
    /// stand under `raw` too, in hexadecimal.
    pub fn written(&mut self, key: &str, raw: &str, bytes: &[u8]) {
        let mut text = Text::new(self.alloc);
        push_ascii(&mut text, bytes);
        self.put_text(key, text);
        if !bytes.iter().all(|byte| is_plain(*byte)) {
            self.bytes(raw, bytes);
        }
    }

    /// Puts the lines of what was printed, as a list of texts.
    pub fn lines(&mut self, key: &str, printed: &[u8]) {
        match lines_of(self.alloc, printed) {
            Ok(lines) => self.put(key, Value::Array(lines)),
            Err(_) => self.is_full = true,
        }
    }

    /// Appends it, as a line.
    pub fn finish(self, text: &mut Text) {
        let JsonObject {
            alloc,
            members,
            is_full,
        } = self;
        match Value::Object(members).to_string(alloc) {
            Ok(line) if !is_full => {
                text.push_str(line.as_str());
                text.push('\n')
            }
            _ => text.fail(),
        }
    }
}

// Bytes as a text.
fn text_of(alloc: Global, bytes: &[u8]) -> Result<String, AllocError> {
    let mut text = Text::new(alloc);
    push_ascii(&mut text, bytes);
    text.finish()
}

// The lines of what was printed.
fn lines_of(alloc: Global, printed: &[u8]) -> Result<Vec<Value>, AllocError> {
    let mut all = Vec::new(alloc);
    for line in printed.split(|byte| *byte == b'\n') {
        if !line.is_empty() {
            let text = text_of(alloc, line)?;
            all.push(Value::String(text))?;
        }
    }
    Ok(all)
}
