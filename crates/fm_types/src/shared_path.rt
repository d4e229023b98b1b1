//! Paths with several owners.

ghost use Rattle.std.specs.Prelude.{◌≡◌, IfOk};

use crate::path::RelPath;
use std::alloc::{AllocError, Global};
use std::marker::Model;
use std::sync::Arc;

/// A path that several owners share, so that its text stands once: a file's stream, the operations on
/// it and what they ask of the base (as `FLT_FILE_NAME_INFORMATION` is counted). Contracts see its text.
#[derive(Drop)]
pub struct SharedPath {
    path: Arc<RelPath, Global>,
}

impl Model for SharedPath {
    ghost use Rattle.std.specs.Prelude.{List, ℕ};
    ghost use Rattle.std.specs.Arc.{arc_value};

    ghost Value = { List ℕ };

    ghost view = { λ shared. arc_value shared.path };
}

impl SharedPath {
    /// A path with one owner; the error says that memory was refused.
    pub fn new(alloc: Global, path: RelPath) -> Result<SharedPath, AllocError>
        ensures { IfOk result (λ shared. shared ≡ path) }
    {
        match Arc::new(alloc, path) {
            Ok(path) => Ok(SharedPath { path }),
            Err(_) => Err(AllocError),
        }
    }

    /// One more owner of the same path (`FltReferenceFileNameInformation`). Nothing is copied; the error
    /// says that no more owners can be counted.
    pub fn share(&self) -> Result<SharedPath, AllocError>
        ensures { IfOk result (λ shared. shared ≡ self.now) }
    {
        let path = Arc::try_clone(&self.path)?;
        Ok(SharedPath { path })
    }

    /// The path.
    pub fn path(&self) -> &RelPath
        ensures { result.now ≡ self.now }
    {
        &self.path
    }
}
