//! A base one of whose calls fails.

ghost use Rattle.std.specs.Prelude.{◌≡◌, ◌≢◌, ◌+◌, ◌^◌, ◌≤◌, cond, length, Some, IsSome, IfOk, IsTrue, ◌↔◌};
ghost use Rattle.fm_types.specs.ByteLists.{resized, written};
ghost use Rattle.fm_base.specs.Folders.{created, changed, unlinked, told, bytes_from, size_of, presence_of, listed};
ghost use Rattle.fm_base.specs.Answers.{MakesKnown, TellsKnown, faults_after, calls_after};
ghost use Rattle.fm_base.specs.Failing.{counted, faults_of, FailsNth};

use crate::base::Base;
use fm_types::{Bytes, CreateMode, RelPath, Status};
use std::marker::Model;

/// A base like another one, but that one of its device calls fails: call number `number`, counted from
/// 1, answers 18 and doesn't reach the other base; all other calls do. Every call of `Base` but
/// `failures` is a device call. The count of calls stays at 2^64 - 1 once it is there.
#[derive(Drop)]
pub struct FailNth<B: Base> {
    base: B,
    number: u64,
    calls: u64,
    failures: u64,
}

impl<B: Base> Model for FailNth<B> {
    ghost use Rattle.fm_base.specs.Failing.{Failing};

    ghost Value = { Failing B };

    ghost view = { λ s. record { base = s.base; number = s.number; calls = s.calls; failures = s.failures } };
}

impl<B: Base> FailNth<B> {
    /// The base whose device call `number` fails, counted from 1; none does where `number` is 0.
    pub fn new(base: B, number: u64) -> FailNth<B>
        ensures { result ≡ record { base = base; number = number; calls = 0; failures = 0 } }
    {
        FailNth {
            base,
            number,
            calls: 0,
            failures: 0,
        }
    }

    // Counts a device call. Whether it is the one that fails, which is counted too.
    fn count_call(&mut self) -> bool
        ensures fails { IsTrue result ↔ (self.old.calls + 1 ≡ self.old.number) }
        ensures calls { self.new ≡ record self.old { calls = counted self.old.calls; failures = self.new.failures } }
        ensures failures { self.new.failures ≡ cond result (counted self.old.failures) self.old.failures }
    {
        let fails = self.calls.checked_add(1) == Some(self.number);
        self.calls = self.calls.saturating_add(1);
        if fails {
            self.failures = self.failures.saturating_add(1);
        }
        fails
    }
}

impl<B: Base> Base for FailNth<B> {
    ghost use Rattle.fm_base.specs.Failing.{Failing};

    ghost folder = { λ s. B.folder s.base };

    ghost faults = { faults_of B.faults };

    ghost calls = { λ s. Some s.calls };

    fn create(&mut self, path: &RelPath, mode: CreateMode) -> Result<(), Status>
        ensures makes { MakesKnown path.now (created mode path.now) (B.folder self.old.base) (B.folder self.new.base) result }
        ensures counts { faults_of B.faults self.new ≡ faults_after (faults_of B.faults self.old) result }
        ensures nth { FailsNth B.calls self.old self.new result }
        ensures once { Some self.new.calls ≡ calls_after (Some self.old.calls) }
    {
        if self.count_call() {
            return Err(Status::DeviceFault);
        }
        self.base.create(path, mode)
    }

    fn read(&mut self, path: &RelPath, offset: u64, len: u32) -> Result<Bytes, Status>
        ensures tells { TellsKnown (told (bytes_from offset len) path.now) (B.folder self.old.base) result }
        ensures within { IfOk result (λ bytes. length bytes ≤ len) }
        ensures same { B.folder self.new.base ≡ B.folder self.old.base }
        ensures counts { faults_of B.faults self.new ≡ faults_after (faults_of B.faults self.old) result }
        ensures nth { FailsNth B.calls self.old self.new result }
        ensures once { Some self.new.calls ≡ calls_after (Some self.old.calls) }
    {
        if self.count_call() {
            return Err(Status::DeviceFault);
        }
        self.base.read(path, offset, len)
    }

    fn write(&mut self, path: &RelPath, offset: u64, bytes: &[u8]) -> Result<(), Status>
        requires { offset + length bytes.now ≤ 2 ^ 40 }
        ensures makes { MakesKnown path.now (changed (written offset bytes.now) path.now) (B.folder self.old.base) (B.folder self.new.base) result }
        ensures counts { faults_of B.faults self.new ≡ faults_after (faults_of B.faults self.old) result }
        ensures nth { FailsNth B.calls self.old self.new result }
        ensures once { Some self.new.calls ≡ calls_after (Some self.old.calls) }
    {
        if self.count_call() {
            return Err(Status::DeviceFault);
        }
        self.base.write(path, offset, bytes)
    }

    fn size(&mut self, path: &RelPath) -> Result<u64, Status>
        ensures tells { TellsKnown (told size_of path.now) (B.folder self.old.base) result }
        ensures same { B.folder self.new.base ≡ B.folder self.old.base }
        ensures steady { IsSome (B.folder self.old.base) → result ≢ Err Status.NoMemory }
        ensures counts { faults_of B.faults self.new ≡ faults_after (faults_of B.faults self.old) result }
        ensures nth { FailsNth B.calls self.old self.new result }
        ensures once { Some self.new.calls ≡ calls_after (Some self.old.calls) }
    {
        if self.count_call() {
            return Err(Status::DeviceFault);
        }
        self.base.size(path)
    }

    fn set_size(&mut self, path: &RelPath, size: u64) -> Result<(), Status>
        requires { size ≤ 2 ^ 40 }
        ensures makes { MakesKnown path.now (changed (resized size) path.now) (B.folder self.old.base) (B.folder self.new.base) result }
        ensures counts { faults_of B.faults self.new ≡ faults_after (faults_of B.faults self.old) result }
        ensures nth { FailsNth B.calls self.old self.new result }
        ensures once { Some self.new.calls ≡ calls_after (Some self.old.calls) }
    {
        if self.count_call() {
            return Err(Status::DeviceFault);
        }
        self.base.set_size(path, size)
    }

    fn flush(&mut self, path: &RelPath) -> Result<(), Status>
        ensures tells { TellsKnown (told presence_of path.now) (B.folder self.old.base) result }
        ensures same { B.folder self.new.base ≡ B.folder self.old.base }
        ensures steady { IsSome (B.folder self.old.base) → result ≢ Err Status.NoMemory }
        ensures counts { faults_of B.faults self.new ≡ faults_after (faults_of B.faults self.old) result }
        ensures nth { FailsNth B.calls self.old self.new result }
        ensures once { Some self.new.calls ≡ calls_after (Some self.old.calls) }
    {
        if self.count_call() {
            return Err(Status::DeviceFault);
        }
        self.base.flush(path)
    }

    fn list(&mut self) -> Result<Bytes, Status>
        ensures tells { TellsKnown listed (B.folder self.old.base) result }
        ensures within { IfOk result (λ names. length names ≤ 32768) }
        ensures same { B.folder self.new.base ≡ B.folder self.old.base }
        ensures counts { faults_of B.faults self.new ≡ faults_after (faults_of B.faults self.old) result }
        ensures nth { FailsNth B.calls self.old self.new result }
        ensures once { Some self.new.calls ≡ calls_after (Some self.old.calls) }
    {
        if self.count_call() {
            return Err(Status::DeviceFault);
        }
        self.base.list()
    }

    fn unlink(&mut self, path: &RelPath) -> Result<(), Status>
        ensures makes { MakesKnown path.now (unlinked path.now) (B.folder self.old.base) (B.folder self.new.base) result }
        ensures steady { IsSome (B.folder self.old.base) → result ≢ Err Status.NoMemory }
        ensures counts { faults_of B.faults self.new ≡ faults_after (faults_of B.faults self.old) result }
        ensures nth { FailsNth B.calls self.old self.new result }
        ensures once { Some self.new.calls ≡ calls_after (Some self.old.calls) }
    {
        if self.count_call() {
            return Err(Status::DeviceFault);
        }
        self.base.unlink(path)
    }

    fn failures(&self) -> u64
        ensures { result ≡ faults_of B.faults self.now }
    {
        self.base.failures().saturating_add(self.failures)
    }
}
