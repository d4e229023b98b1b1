//! A line, read into what it has to be done.

ghost use Rattle.std.specs.Prelude.{◌≡◌, IfOk, map};
ghost use Rattle.fm_script.specs.Lines.{ReadsBehind, ReadsBytes, ReadsTask, Spells};
ghost use Rattle.fm_words.specs.Words.{words_of};

use super::Interpreter;
use crate::command::{is_create, read_command, read_create, read_with_bytes, takes_bytes};
use crate::keyword::Keyword;
use crate::task::Task;
use fm_types::{Bytes, Status};
use fm_words::{read_hex, split_words};
use smallvec::SmallVec;
use std::alloc::{AllocError, Global};

impl Interpreter {
    /// What a line of at most 4,096 bytes that isn't silent has to be done, or why it is refused before anything is done: what a script does with it. It fails
    /// if there is no memory for reading it.
    pub fn read(&self, alloc: Global, line: &[u8]) -> Result<Result<Task, Status>, AllocError>
        ensures { IfOk result (ReadsTask (words_of line.now) self.now) }
    {
        let mut words = SmallVec::new(alloc);
        split_words(&mut words, line)?;
        self.read_words(alloc, words.as_slice())
    }

    // The same by its words.
    fn read_words(&self, alloc: Global, words: &[&[u8]]) -> Result<Result<Task, Status>, AllocError>
        ensures { IfOk result (ReadsTask (map (λ word. word.now) words.now) self.now) }
    {
        let Some((first, words)) = words.split_first() else {
            return Ok(Err(Status::BadRequest));
        };
        match Keyword::read(first) {
            Some(keyword) => self.read_behind(alloc, keyword, words),
            None => Ok(Err(Status::BadRequest)),
        }
    }

    // The same by the keyword and what stands behind it.
    fn read_behind(
        &self,
        alloc: Global,
        keyword: Keyword,
        words: &[&[u8]],
    ) -> Result<Result<Task, Status>, AllocError>
        ensures { IfOk result (ReadsBehind (Some keyword) (map (λ word. word.now) words.now) self.now) }
    {
        let state = self.state();
        if is_create(keyword) {
            return read_create(alloc, state, words);
        }
        if takes_bytes(keyword) {
            return self.read_bytes(alloc, keyword, words);
        }
        let contexts = self.contexts.as_slice();
        Ok(read_command(state, contexts, keyword, words))
    }

    // The same of a command that takes bytes, which its last word spells. They are read before the other words. That changes no refusal: a word that can't be read
    // is 32 wherever it stands, and no id is looked up before.
    #[inline(never)]
    fn read_bytes(
        &self,
        alloc: Global,
        keyword: Keyword,
        words: &[&[u8]],
    ) -> Result<Result<Task, Status>, AllocError>
        ensures { IfOk result (ReadsBytes keyword (map (λ word. word.now) words.now) self.now) }
    {
        let [one, other, word] = words else {
            return Ok(Err(Status::BadRequest));
        };
        let bytes = match bytes_of(alloc, word)? {
            Ok(bytes) => bytes,
            Err(status) => return Ok(Err(status)),
        };
        let state = self.state();
        let contexts = self.contexts.as_slice();
        Ok(read_with_bytes(state, contexts, keyword, &[*one, *other], bytes))
    }
}

// The bytes that a word spells.
fn bytes_of(alloc: Global, word: &[u8]) -> Result<Result<Bytes, Status>, AllocError>
    ensures { IfOk result (Spells word.now) }
{
    match read_hex(alloc, word)? {
        Some(bytes) => Ok(Ok(Bytes::from_vec(bytes))),
        None => Ok(Err(Status::BadRequest)),
    }
}
