//! The base that keeps its files in memory.

ghost use Rattle.std.specs.Prelude.{◌≡◌, ◌≢◌, ◌+◌, ◌^◌, ◌≤◌, Some, [], length, IfOk, OnOk, OnErr, IfErr};
ghost use Rattle.std.specs.FinMap.{empty, insert};
ghost use Rattle.fm_types.specs.ByteLists.{resized, written};
ghost use Rattle.fm_base.specs.Folders.{created, changed, unlinked, told, bytes_from, size_of, presence_of, listed};
ghost use Rattle.fm_base.specs.Answers.{Makes, Tells};
ghost use Rattle.fm_base.specs.Stored.{folder_of};

use crate::base::Base;
use crate::file::File;
use crate::listing::list_files;
use fm_types::{Bytes, CreateMode, RelPath, Status};
use std::alloc::Global;
use std::collections::BTreeMap;
use std::marker::Model;

/// A base in memory: its folder is exactly what was made of it, no folder of a path needs to be there,
/// and it never answers 18.
#[derive(Drop)]
pub struct MemoryBase {
    alloc: Global,
    files: BTreeMap<RelPath, File>,
}

impl Model for MemoryBase {
    ghost use Rattle.std.specs.Coded.{coded_ℕ, coded_list};
    ghost use Rattle.std.specs.FinMap as map;
    ghost use Rattle.fm_base.specs.Folders.{Folder};
    ghost use Rattle.fm_base.specs.Stored.{folder_of};

    ghost Value = { Folder };

    ghost coded = { map.code (coded_list coded_ℕ) (coded_list coded_ℕ) };

    ghost view = { λ base. folder_of base.files.entries };
}

// Adds an empty file.
fn add_file(
    files: &mut BTreeMap<RelPath, File>,
    alloc: Global,
    path: &RelPath,
) -> Result<(), Status>
    ensures ok { OnOk result (folder_of files.new.entries ≡ insert (folder_of files.old.entries) path.now []) }
    ensures err { OnErr result (folder_of files.new.entries ≡ folder_of files.old.entries) }
    ensures refused { IfErr result (λ status. status ≡ Status.NoMemory) }
{
    files.insert(*path, File::new(alloc))?;
    Ok(())
}

fn create_file(
    files: &mut BTreeMap<RelPath, File>,
    alloc: Global,
    path: &RelPath,
    mode: CreateMode,
) -> Result<(), Status>
    ensures makes { Makes path.now (created mode path.now) (folder_of files.old.entries) (folder_of files.new.entries) result }
    ensures sound { result ≢ Err Status.DeviceFault }
{
    if files.contains_key(path) {
        return match mode {
            CreateMode::New => Err(Status::AlreadyExists),
            CreateMode::Existing | CreateMode::Always => Ok(()),
        };
    }
    match mode {
        CreateMode::Existing => Err(Status::FileNotFound),
        CreateMode::New | CreateMode::Always => add_file(files, alloc, path),
    }
}

fn write_file(
    files: &mut BTreeMap<RelPath, File>,
    alloc: Global,
    path: &RelPath,
    offset: u64,
    bytes: &[u8],
) -> Result<(), Status>
    requires { offset + length bytes.now ≤ 2 ^ 40 }
    ensures makes { Makes path.now (changed (written offset bytes.now) path.now) (folder_of files.old.entries) (folder_of files.new.entries) result }
    ensures sound { result ≢ Err Status.DeviceFault }
{
    let Some(file) = files.get_mut(path) else {
        return Err(Status::FileNotFound);
    };
    file.write(alloc, offset, bytes)?;
    Ok(())
}

// The bytes of a file, unless some are asked for past its end.
fn bytes_of(file: &File, alloc: Global, offset: u64, len: u32) -> Result<Bytes, Status>
    ensures tells { Tells (bytes_from offset len file.now) result }
    ensures within { IfOk result (λ bytes. length bytes ≤ len) }
    ensures sound { result ≢ Err Status.DeviceFault }
{
    if file.size() <= offset && len > 0 {
        return Err(Status::EndOfFile);
    }
    Ok(file.read(alloc, offset, len)?)
}

fn read_file(
    files: &BTreeMap<RelPath, File>,
    alloc: Global,
    path: &RelPath,
    offset: u64,
    len: u32,
) -> Result<Bytes, Status>
    ensures tells { Tells (told (bytes_from offset len) path.now (folder_of files.now.entries)) result }
    ensures within { IfOk result (λ bytes. length bytes ≤ len) }
    ensures sound { result ≢ Err Status.DeviceFault }
{
    let Some(file) = files.get(path) else {
        return Err(Status::FileNotFound);
    };
    bytes_of(file, alloc, offset, len)
}

fn size_of_file(files: &BTreeMap<RelPath, File>, path: &RelPath) -> Result<u64, Status>
    ensures { result ≡ told size_of path.now (folder_of files.now.entries) }
{
    let Some(file) = files.get(path) else {
        return Err(Status::FileNotFound);
    };
    Ok(file.size())
}

fn set_size_of_file(
    files: &mut BTreeMap<RelPath, File>,
    path: &RelPath,
    size: u64,
) -> Result<(), Status>
    requires { size ≤ 2 ^ 40 }
    ensures makes { Makes path.now (changed (resized size) path.now) (folder_of files.old.entries) (folder_of files.new.entries) result }
    ensures sound { result ≢ Err Status.DeviceFault }
    ensures steady { result ≢ Err Status.NoMemory }
{
    let Some(file) = files.get_mut(path) else {
        return Err(Status::FileNotFound);
    };
    file.set_size(size);
    Ok(())
}

fn look_for_file(files: &BTreeMap<RelPath, File>, path: &RelPath) -> Result<(), Status>
    ensures { result ≡ told presence_of path.now (folder_of files.now.entries) }
{
    let Some(_file) = files.get(path) else {
        return Err(Status::FileNotFound);
    };
    Ok(())
}

fn unlink_file(files: &mut BTreeMap<RelPath, File>, path: &RelPath) -> Result<(), Status>
    ensures makes { Makes path.now (unlinked path.now) (folder_of files.old.entries) (folder_of files.new.entries) result }
    ensures sound { result ≢ Err Status.DeviceFault }
    ensures steady { result ≢ Err Status.NoMemory }
{
    match files.remove(path) {
        Some(_file) => Ok(()),
        None => Err(Status::FileNotFound),
    }
}

impl MemoryBase {
    /// A base with no file; takes no memory.
    pub fn new(alloc: Global) -> MemoryBase
        ensures { result ≡ empty }
    {
        MemoryBase {
            alloc,
            files: BTreeMap::new(alloc),
        }
    }
}

impl Base for MemoryBase {
    ghost use Rattle.std.specs.Prelude.{Some, None};
    ghost use Rattle.fm_base.specs.Folders.{Folder};

    ghost folder = { λ base. Some base };

    ghost faults = { λ _. 0 };

    ghost calls = { λ _. None };

    fn create(&mut self, path: &RelPath, mode: CreateMode) -> Result<(), Status>
        ensures makes { Makes path.now (created mode path.now) self.old self.new result }
        ensures sound { result ≢ Err Status.DeviceFault }
    {
        create_file(&mut self.files, self.alloc, path, mode)
    }

    fn read(&mut self, path: &RelPath, offset: u64, len: u32) -> Result<Bytes, Status>
        ensures tells { Tells (told (bytes_from offset len) path.now self.old) result }
        ensures within { IfOk result (λ bytes. length bytes ≤ len) }
        ensures same { self.new ≡ self.old }
        ensures sound { result ≢ Err Status.DeviceFault }
    {
        read_file(&self.files, self.alloc, path, offset, len)
    }

    fn write(&mut self, path: &RelPath, offset: u64, bytes: &[u8]) -> Result<(), Status>
        requires { offset + length bytes.now ≤ 2 ^ 40 }
        ensures makes { Makes path.now (changed (written offset bytes.now) path.now) self.old self.new result }
        ensures sound { result ≢ Err Status.DeviceFault }
    {
        write_file(&mut self.files, self.alloc, path, offset, bytes)
    }

    fn size(&mut self, path: &RelPath) -> Result<u64, Status>
        ensures value { result ≡ told size_of path.now self.old }
        ensures same { self.new ≡ self.old }
    {
        size_of_file(&self.files, path)
    }

    fn set_size(&mut self, path: &RelPath, size: u64) -> Result<(), Status>
        requires { size ≤ 2 ^ 40 }
        ensures makes { Makes path.now (changed (resized size) path.now) self.old self.new result }
        ensures sound { result ≢ Err Status.DeviceFault }
        ensures steady { result ≢ Err Status.NoMemory }
    {
        set_size_of_file(&mut self.files, path, size)
    }

    fn flush(&mut self, path: &RelPath) -> Result<(), Status>
        ensures value { result ≡ told presence_of path.now self.old }
        ensures same { self.new ≡ self.old }
    {
        look_for_file(&self.files, path)
    }

    fn list(&mut self) -> Result<Bytes, Status>
        ensures tells { Tells (listed self.old) result }
        ensures within { IfOk result (λ names. length names ≤ 32768) }
        ensures same { self.new ≡ self.old }
        ensures sound { result ≢ Err Status.DeviceFault }
    {
        list_files(&self.files, self.alloc)
    }

    fn unlink(&mut self, path: &RelPath) -> Result<(), Status>
        ensures makes { Makes path.now (unlinked path.now) self.old self.new result }
        ensures sound { result ≢ Err Status.DeviceFault }
        ensures steady { result ≢ Err Status.NoMemory }
    {
        unlink_file(&mut self.files, path)
    }

    fn failures(&self) -> u64
        ensures { result ≡ 0 }
    {
        0
    }
}
