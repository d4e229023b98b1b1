//! A text in a picture.

use crate::escape::escaped;
use std::alloc::{AllocError, Global};
use std::str;

/// A text that can't break out of the place where it stands.
#[derive(Drop)]
pub struct Label {
    bytes: Vec<u8>,
}

impl Label {
    /// The label of any bytes.
    pub fn new(alloc: Global, bytes: &[u8]) -> Result<Label, AllocError> {
        Ok(Label {
            bytes: escaped(alloc, bytes)?,
        })
    }

    /// That of no bytes.
    pub fn empty(alloc: Global) -> Label {
        Label {
            bytes: Vec::new(alloc),
        }
    }

    /// Its text.
    pub fn text(&self) -> &str {
        match str::from_utf8(self.bytes.as_slice()) {
            Ok(text) => text,
            Err(_) => "",
        }
    }
}
