//! The base over a folder of the host.

ghost use Rattle.std.specs.Prelude.{◌≡◌, ◌⊎◌, ◌≤◌, IfOk, IfErr, length};
ghost use Rattle.fm_base.specs.Answers.{faults_after};
ghost use Rattle.fm_host.specs.Names.{IsListing};
ghost use Rattle.fm_host.specs.Told.{IsHostRefusal};

use crate::answer::answer;
use crate::files;
use crate::kinds::folder_there;
use crate::names::listing;
use fm_base::Base;
use fm_types::{Bytes, CreateMode, RelPath, Status};
use std::marker::Model;
use std::rt::Files;
use std::{fs, io};

/// A base over a folder of the host. Its files are the host's regular files below that folder; it makes no
/// folders, and what else is there under a name (a folder, a FIFO, a device, a socket) is no file of it.
///
/// A file, or a folder above it, that isn't there is 19; a new file where anything is there already is 20; a
/// growth of memory that was refused is 1; all else that the host refuses is 18, and is counted, also each
/// other call on what is no file: nothing of that is opened, since it might wait. Contracts see that count,
/// and know nothing of what the folder holds.
#[derive(Drop)]
pub struct HostBase<R: Files + AllocGlobal + Clone + Drop> {
    rt: R,
    folder: String,
    failures: u64,
}

impl<R: Files + AllocGlobal + Clone + Drop> Model for HostBase<R> {
    ghost use Rattle.std.specs.Prelude.{ℕ};

    ghost Value = { ℕ };

    ghost view = { λ base. base.failures };
}

// The runtime and the folder's path, once it is sure that the folder is there.
fn folder_at<R: Files + AllocGlobal + Clone>(rt: &R, folder: &str) -> io::Result<(R, String)> {
    folder_there(fs::metadata(rt, folder)?.is_dir())?;
    let path = String::from_str(rt.alloc(), folder)?;
    Ok((rt.clone()?, path))
}

impl<R: Files + AllocGlobal + Clone + Drop> HostBase<R> {
    /// The base over that folder. Refused with 19 where there is no such folder, with 1 where memory was
    /// refused, and with 18 on another fault.
    pub fn new(rt: &R, folder: &str) -> Result<HostBase<R>, Status>
        ensures ok { IfOk result (λ base. base ≡ 0) }
        ensures refused { IfErr result IsHostRefusal }
    {
        let mut failures = 0;
        let told = folder_at(rt, folder);
        let (rt, folder) = answer(&mut failures, told)?;
        Ok(HostBase {
            rt,
            folder,
            failures: 0,
        })
    }
}

impl<R: Files + AllocGlobal + Clone + Drop> Base for HostBase<R> {
    ghost use Rattle.std.specs.Prelude.{None};

    ghost folder = { λ _. None };

    ghost faults = { λ failures. failures };

    ghost calls = { λ _. None };

    fn create(&mut self, path: &RelPath, mode: CreateMode) -> Result<(), Status>
        ensures counts { self.new ≡ faults_after self.old result }
        ensures refused { IfErr result IsHostRefusal }
    {
        let told = files::create(&self.rt, self.folder.as_str(), path, mode);
        answer(&mut self.failures, told)
    }

    fn read(&mut self, path: &RelPath, offset: u64, len: u32) -> Result<Bytes, Status>
        ensures counts { self.new ≡ faults_after self.old result }
        ensures within { IfOk result (λ bytes. length bytes ≤ len) }
        ensures refused { IfErr result (λ status. (status ≡ Status.EndOfFile) ⊎ IsHostRefusal status) }
    {
        let told = files::read(&self.rt, self.folder.as_str(), path, offset, len);
        answer(&mut self.failures, told)?.ok_or(Status::EndOfFile)
    }

    fn write(&mut self, path: &RelPath, offset: u64, bytes: &[u8]) -> Result<(), Status>
        ensures counts { self.new ≡ faults_after self.old result }
        ensures refused { IfErr result IsHostRefusal }
    {
        let told = files::write(&self.rt, self.folder.as_str(), path, offset, bytes);
        answer(&mut self.failures, told)
    }

    fn size(&mut self, path: &RelPath) -> Result<u64, Status>
        ensures counts { self.new ≡ faults_after self.old result }
        ensures refused { IfErr result IsHostRefusal }
    {
        let told = files::size(&self.rt, self.folder.as_str(), path);
        answer(&mut self.failures, told)
    }

    fn set_size(&mut self, path: &RelPath, size: u64) -> Result<(), Status>
        ensures counts { self.new ≡ faults_after self.old result }
        ensures refused { IfErr result IsHostRefusal }
    {
        let told = files::set_size(&self.rt, self.folder.as_str(), path, size);
        answer(&mut self.failures, told)
    }

    fn flush(&mut self, path: &RelPath) -> Result<(), Status>
        ensures counts { self.new ≡ faults_after self.old result }
        ensures refused { IfErr result IsHostRefusal }
    {
        let told = files::flush(&self.rt, self.folder.as_str(), path);
        answer(&mut self.failures, told)
    }

    fn list(&mut self) -> Result<Bytes, Status>
        ensures counts { self.new ≡ faults_after self.old result }
        ensures listing { IfOk result IsListing }
        ensures refused { IfErr result (λ status. (status ≡ Status.TooMany) ⊎ IsHostRefusal status) }
    {
        let told = listing(&self.rt, self.folder.as_str());
        answer(&mut self.failures, told)?.ok_or(Status::TooMany)
    }

    fn unlink(&mut self, path: &RelPath) -> Result<(), Status>
        ensures counts { self.new ≡ faults_after self.old result }
        ensures refused { IfErr result IsHostRefusal }
    {
        let told = files::unlink(&self.rt, self.folder.as_str(), path);
        answer(&mut self.failures, told)
    }

    fn failures(&self) -> u64 {
        self.failures
    }
}
