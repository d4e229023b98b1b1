//! A text that is being written.

use std::alloc::{AllocError, Global};

/// A text that is being written. Where memory is refused it notes that, and takes no more: so those who write it needn't look at each piece, and whoever takes
/// the whole is told.
#[derive(Drop)]
pub struct Text {
    text: String,
    is_full: bool,
}

impl Text {
    /// The empty text.
    pub fn new(alloc: Global) -> Text {
        Text {
            text: String::new(alloc),
            is_full: false,
        }
    }

    /// Appends a text.
    pub fn push_str(&mut self, piece: &str) {
        if !self.is_full && self.text.push_str(piece).is_err() {
            self.is_full = true;
        }
    }

    /// Appends a letter.
    pub fn push(&mut self, letter: char) {
        if !self.is_full && self.text.push(letter).is_err() {
            self.is_full = true;
        }
    }

    /// Appends a number.
    pub fn push_number(&mut self, number: u64) {
        if !self.is_full && write!(self.text, "{number}").is_err() {
            self.is_full = true;
        }
    }

    /// Memory was refused for what was to be written.
    pub fn fail(&mut self) {
        self.is_full = true;
    }

    /// What was written so far.
    pub fn as_str(&self) -> &str {
        self.text.as_str()
    }

    /// How many bytes that is.
    pub fn len(&self) -> usize {
        self.text.len()
    }

    /// Fails if memory was refused for a piece of it.
    pub fn check(&self) -> Result<(), AllocError> {
        if self.is_full {
            Err(AllocError)
        } else {
            Ok(())
        }
    }

    /// The whole text. It fails if memory was refused for a piece of it.
    pub fn finish(self) -> Result<String, AllocError> {
        let Text { text, is_full } = self;
        if is_full {
            return Err(AllocError);
        }
        Ok(text)
    }
}
