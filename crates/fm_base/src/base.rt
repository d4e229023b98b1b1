//! The trait of all bases: its calls, and what each one answers and changes.

ghost use Rattle.std.specs.Prelude.{◌≡◌, ◌≢◌, ℕ, ◌+◌, ◌^◌, ◌≤◌, Option, length, IsSome, IfOk};
ghost use Rattle.fm_types.specs.ByteLists.{resized, written};
ghost use Rattle.fm_base.specs.Folders.{Folder, created, changed, unlinked, told, bytes_from, size_of, presence_of, listed};
ghost use Rattle.fm_base.specs.Answers.{MakesKnown, TellsKnown, faults_after, calls_after};

use fm_types::{Bytes, CreateMode, RelPath, Status};

/// A file system below the lowest instance of a volume (what a file system driver is to the kit). Files
/// are named by their paths, and none stays open between two calls.
///
/// Every call but `failures` may answer `DeviceFault` (18), only where the device failed in that call,
/// and the ones that take memory may answer `NoMemory` (1), only where a growth was refused; then
/// nothing is changed. After 18 from `create`, `write`, `set_size` or `unlink` nothing is known of that
/// file, and all others stay; after 18 from another call nothing is changed.
pub trait Base: Drop {
    /// The folder that the base stands for, or None where nothing can be known of it.
    ghost folder: { Self → Option Folder };

    /// How many faults of its device the base has met.
    ghost faults: { Self → ℕ };

    /// How many calls but `failures` were made to it, or None where it doesn't count them.
    ghost calls: { Self → Option ℕ };

    /// Opens or makes a file (`IRP_MJ_CREATE`). `Existing` is refused with 19 where the file is absent,
    /// `New` with 20 where it is there. Where the call isn't refused an absent file is made empty, and
    /// one that is there keeps its bytes.
    fn create(&mut self, path: &RelPath, mode: CreateMode) -> Result<(), Status>
        ensures makes { MakesKnown path.now (created mode path.now) (folder self.old) (folder self.new) result }
        ensures counts { faults self.new ≡ faults_after (faults self.old) result }
        ensures once { calls self.new ≡ calls_after (calls self.old) };

    /// The bytes of a file from `offset` on, `len` of them or fewer at the end (`IRP_MJ_READ`). Refused
    /// with 19 where the file is absent, and with 31 where `offset` is at its end or past it and `len`
    /// is above 0.
    fn read(&mut self, path: &RelPath, offset: u64, len: u32) -> Result<Bytes, Status>
        ensures tells { TellsKnown (told (bytes_from offset len) path.now) (folder self.old) result }
        ensures within { IfOk result (λ bytes. length bytes ≤ len) }
        ensures same { folder self.new ≡ folder self.old }
        ensures counts { faults self.new ≡ faults_after (faults self.old) result }
        ensures once { calls self.new ≡ calls_after (calls self.old) };

    /// Writes all the bytes at `offset` (`IRP_MJ_WRITE`): a gap before them is filled with zeros, and
    /// what lies behind them stays. Writing no bytes changes nothing. Refused with 19 where the file is
    /// absent. The end of what is written is at most 2^40.
    fn write(&mut self, path: &RelPath, offset: u64, bytes: &[u8]) -> Result<(), Status>
        requires { offset + length bytes.now ≤ 2 ^ 40 }
        ensures makes { MakesKnown path.now (changed (written offset bytes.now) path.now) (folder self.old) (folder self.new) result }
        ensures counts { faults self.new ≡ faults_after (faults self.old) result }
        ensures once { calls self.new ≡ calls_after (calls self.old) };

    /// How many bytes a file has (`FileStandardInformation`). Refused with 19 where it is absent.
    fn size(&mut self, path: &RelPath) -> Result<u64, Status>
        ensures tells { TellsKnown (told size_of path.now) (folder self.old) result }
        ensures same { folder self.new ≡ folder self.old }
        ensures steady { IsSome (folder self.old) → result ≢ Err Status.NoMemory }
        ensures counts { faults self.new ≡ faults_after (faults self.old) result }
        ensures once { calls self.new ≡ calls_after (calls self.old) };

    /// Cuts a file to that size, at most 2^40, or fills it up to it with zeros
    /// (`FileEndOfFileInformation`). Refused with 19 where the file is absent.
    fn set_size(&mut self, path: &RelPath, size: u64) -> Result<(), Status>
        requires { size ≤ 2 ^ 40 }
        ensures makes { MakesKnown path.now (changed (resized size) path.now) (folder self.old) (folder self.new) result }
        ensures counts { faults self.new ≡ faults_after (faults self.old) result }
        ensures once { calls self.new ≡ calls_after (calls self.old) };

    /// Sees to it that what was written to a file is on the device (`IRP_MJ_FLUSH_BUFFERS`). Refused
    /// with 19 where the file is absent.
    fn flush(&mut self, path: &RelPath) -> Result<(), Status>
        ensures tells { TellsKnown (told presence_of path.now) (folder self.old) result }
        ensures same { folder self.new ≡ folder self.old }
        ensures steady { IsSome (folder self.old) → result ≢ Err Status.NoMemory }
        ensures counts { faults self.new ≡ faults_after (faults self.old) result }
        ensures once { calls self.new ≡ calls_after (calls self.old) };

    /// The names of the files directly in the folder, ascending by bytes, each followed by byte 0x0A
    /// (`IRP_MN_QUERY_DIRECTORY`). Refused with 29 where that is above 32,768 bytes.
    fn list(&mut self) -> Result<Bytes, Status>
        ensures tells { TellsKnown listed (folder self.old) result }
        ensures within { IfOk result (λ names. length names ≤ 32768) }
        ensures same { folder self.new ≡ folder self.old }
        ensures counts { faults self.new ≡ faults_after (faults self.old) result }
        ensures once { calls self.new ≡ calls_after (calls self.old) };

    /// Takes a file away (`FileDispositionInformation`, at the last close). Refused with 19 where it is
    /// absent.
    fn unlink(&mut self, path: &RelPath) -> Result<(), Status>
        ensures makes { MakesKnown path.now (unlinked path.now) (folder self.old) (folder self.new) result }
        ensures steady { IsSome (folder self.old) → result ≢ Err Status.NoMemory }
        ensures counts { faults self.new ≡ faults_after (faults self.old) result }
        ensures once { calls self.new ≡ calls_after (calls self.old) };

    /// How many calls answered 18 so far; the number stays at 2^64 - 1 once it is there.
    fn failures(&self) -> u64
        ensures { result ≡ faults self.now };
}
