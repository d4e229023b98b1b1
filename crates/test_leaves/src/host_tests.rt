//! Bases over a real folder, and over a host that is slow, fails in mid-stream or has strange names.

use crate::slow_host::{SlowHost, Way};
use fm_base::{Base, FailNth};
use fm_host::HostBase;
use fm_types::{Bytes, CreateMode, RelPath, Status};
use std::alloc::{AllocError, Global};
use std::os::fd::{AsFd, AsRawFd};
use std::os::unix::net::UnixListener;
use std::rt::Files;
use std::{env, fs, io};

// The path of a folder of the host for one test.
fn folder_for(rt: &HostRuntime, test: &str) -> Option<String> {
    let place = env::temp_dir(rt).ok()?;
    let number = std::process::id(rt.process());
    format!(in rt.alloc(); "{}/kazdrin-{test}-{number}", place.as_path().display()).ok()
}

// The path of what is in a folder.
fn inside(rt: &HostRuntime, folder: &str, name: &str) -> Result<String, AllocError> {
    format!(in rt.alloc(); "{folder}/{name}")
}

// A call of a base.
#[derive(Clone, Copy)]
enum Call {
    Create(&'static [u8], CreateMode),
    Read(&'static [u8], u64, u32),
    Write(&'static [u8], u64, &'static [u8]),
    Size(&'static [u8]),
    SetSize(&'static [u8], u64),
    Flush(&'static [u8]),
    Unlink(&'static [u8]),
    List,
}

// What a call is told.
#[derive(Clone, Copy)]
enum Answer {
    Done,
    Number(u64),
    Bytes(&'static [u8]),
    /// So many bytes.
    Long(usize),
    No(Status),
}

// Whether a call that tells nothing else was told so.
fn is_done(told: Result<(), Status>, answer: Answer) -> bool {
    match told {
        Ok(()) => matches!(answer, Answer::Done),
        Err(status) => is_refusal(status, answer),
    }
}

fn is_refusal(status: Status, answer: Answer) -> bool {
    matches!(answer, Answer::No(wanted) if wanted == status)
}

fn are_bytes(told: Result<Bytes, Status>, answer: Answer) -> bool {
    match told {
        Ok(bytes) => match answer {
            Answer::Bytes(wanted) => wanted == bytes.as_slice(),
            Answer::Long(wanted) => wanted == bytes.len(),
            _ => false,
        },
        Err(status) => is_refusal(status, answer),
    }
}

fn is_number(told: Result<u64, Status>, answer: Answer) -> bool {
    match told {
        Ok(number) => matches!(answer, Answer::Number(wanted) if wanted == number),
        Err(status) => is_refusal(status, answer),
    }
}

// The path that the call names; a list names none.
fn path_of(call: Call) -> &'static [u8] {
    match call {
        Call::Create(path, _)
        | Call::Read(path, _, _)
        | Call::Write(path, _, _)
        | Call::Size(path)
        | Call::SetSize(path, _)
        | Call::Flush(path)
        | Call::Unlink(path) => path,
        Call::List => b"-",
    }
}

// Makes the call, if it stays within 200 bytes; whether it is told that answer.
fn is_told<B: Base>(base: &mut B, path: &RelPath, call: Call, answer: Answer) -> bool {
    match call {
        Call::Create(_, mode) => is_done(base.create(path, mode), answer),
        Call::Read(_, offset, len) => are_bytes(base.read(path, offset, len), answer),
        Call::Write(_, offset, bytes) if offset < 100 && bytes.len() < 100 => {
            is_done(base.write(path, offset, bytes), answer)
        }
        Call::Size(_) => is_number(base.size(path), answer),
        Call::SetSize(_, size) if size < 100 => is_done(base.set_size(path, size), answer),
        Call::Flush(_) => is_done(base.flush(path), answer),
        Call::Unlink(_) => is_done(base.unlink(path), answer),
        Call::List => are_bytes(base.list(), answer),
        Call::Write(..) | Call::SetSize(..) => false,
    }
}

// A call, and what it is told.
type Row = (Call, Answer);

// How many of the calls are left, from the first on that isn't told its answer: none where all are told theirs.
fn left<B: Base>(base: &mut B, rows: &[Row]) -> usize {
    let mut left = rows.len();
    for (call, answer) in rows {
        match RelPath::read(path_of(*call)) {
            Ok(path) if is_told(base, &path, *call, *answer) => {}
            _ => return left,
        }
        left = left.saturating_sub(1);
    }
    left
}

// How many calls are left, and how many faults of the host the base has counted.
type Told = (usize, u64);

// What a base is told where the call of that number fails; none does where it is 0.
fn told_by<B: Base + Drop>(base: B, fails: u64, rows: &[Row]) -> Told {
    let mut base = FailNth::new(base, fails);
    let left = left(&mut base, rows);
    (left, base.failures())
}

// The same of a base over that folder.
fn told_in<R: Files + AllocGlobal + Clone + Drop>(
    rt: &R,
    folder: &str,
    fails: u64,
    rows: &[Row],
) -> Result<Told, Status> {
    match HostBase::new(rt, folder) {
        Ok(base) => Ok(told_by(base, fails, rows)),
        Err(status) => Err(status),
    }
}

// A create keeps the bytes of a file that is there; `a` is no folder, and there is no folder `c`. The folder is empty at the end.
const FILES: &[Row] = &[
    (Call::Create(b"a", CreateMode::New), Answer::Done),
    (
        Call::Create(b"a", CreateMode::New),
        Answer::No(Status::AlreadyExists),
    ),
    (
        Call::Create(b"b", CreateMode::Existing),
        Answer::No(Status::FileNotFound),
    ),
    (Call::Write(b"a", 2, &[0x41]), Answer::Done),
    (Call::Read(b"a", 0, 9), Answer::Bytes(&[0, 0, 0x41])),
    (Call::List, Answer::Bytes(&[0x61, 0x0a])),
    (Call::Unlink(b"a"), Answer::Done),
    (Call::Size(b"a"), Answer::No(Status::FileNotFound)),
    (Call::Create(b"a", CreateMode::Always), Answer::Done),
    (Call::Write(b"a", 0, b"abc"), Answer::Done),
    (Call::Read(b"a", 0, 3), Answer::Bytes(b"abc")),
    (Call::Create(b"a", CreateMode::Always), Answer::Done),
    (Call::Write(b"a", 9, b""), Answer::Done),
    (Call::Size(b"a"), Answer::Number(3)),
    (Call::Read(b"a", 3, 1), Answer::No(Status::EndOfFile)),
    (Call::Read(b"a", u64::MAX, 1), Answer::No(Status::EndOfFile)),
    (Call::Read(b"a", u64::MAX, 0), Answer::Bytes(b"")),
    (Call::SetSize(b"a", 1), Answer::Done),
    (Call::SetSize(b"a", 2), Answer::Done),
    (Call::Flush(b"a"), Answer::Done),
    (Call::Read(b"a", 0, 9), Answer::Bytes(b"a\0")),
    (
        Call::Create(b"a/b", CreateMode::New),
        Answer::No(Status::FileNotFound),
    ),
    (
        Call::Create(b"c/b", CreateMode::New),
        Answer::No(Status::FileNotFound),
    ),
    (Call::Unlink(b"a"), Answer::Done),
    (Call::List, Answer::Bytes(b"")),
    (Call::Read(b"a", 0, 0), Answer::No(Status::FileNotFound)),
    (Call::Write(b"a", 0, b""), Answer::No(Status::FileNotFound)),
    (Call::Write(b"a", 0, b"x"), Answer::No(Status::FileNotFound)),
    (Call::SetSize(b"a", 0), Answer::No(Status::FileNotFound)),
    (Call::Flush(b"a"), Answer::No(Status::FileNotFound)),
    (Call::Unlink(b"a"), Answer::No(Status::FileNotFound)),
    (Call::List, Answer::Bytes(b"")),
];

// Of a folder that is gone.
const GONE: &[Row] = &[(Call::List, Answer::No(Status::FileNotFound))];

// What a base is told before and after its folder, which is empty, goes.
fn told_without_folder(rt: &HostRuntime, folder: &str) -> Result<(usize, bool, Told), Status> {
    let mut base = HostBase::new(rt, folder)?;
    let there = left(&mut base, FILES);
    let is_removed = fs::remove_dir(rt, folder).is_ok();
    let gone = left(&mut base, GONE);
    Ok((there, is_removed, (gone, base.failures())))
}

// What is said where there is no such folder.
fn refusal(rt: &HostRuntime, folder: &str) -> Option<Status> {
    HostBase::new(rt, folder).err()
}

#[test]
fn files_of_a_folder(rt: HostRuntime) {
    let folder = folder_for(&rt, "files").expect(&rt, "a path");
    assert!(rt; fs::create_dir(&rt, folder.as_str()).is_ok());
    let told = told_without_folder(&rt, folder.as_str());
    assert_eq!(rt; told, Ok((0, true, (0, 0))));
    assert_eq!(rt; refusal(&rt, folder.as_str()), Some(Status::FileNotFound));
}

// In a folder with a folder `inner`, which isn't listed, and is no file.
const FOLDERS: &[Row] = &[
    (Call::Create(b"inner/x", CreateMode::New), Answer::Done),
    (Call::Create(b"y", CreateMode::New), Answer::Done),
    (Call::Create(b".hidden", CreateMode::New), Answer::Done),
    (Call::List, Answer::Bytes(b".hidden\ny\n")),
];

// What isn't a regular file is no file of a base. It is there, and each call but a new create is a fault.
const NO_FILE: &[Row] = &[
    (
        Call::Create(b"inner", CreateMode::New),
        Answer::No(Status::AlreadyExists),
    ),
    (
        Call::Create(b"inner", CreateMode::Existing),
        Answer::No(Status::DeviceFault),
    ),
    (
        Call::Create(b"inner", CreateMode::Always),
        Answer::No(Status::DeviceFault),
    ),
    (Call::Read(b"inner", 0, 1), Answer::No(Status::DeviceFault)),
    (Call::Read(b"inner", 0, 0), Answer::No(Status::DeviceFault)),
    (
        Call::Write(b"inner", 0, b"x"),
        Answer::No(Status::DeviceFault),
    ),
    (
        Call::Write(b"inner", 0, b""),
        Answer::No(Status::DeviceFault),
    ),
    (Call::Size(b"inner"), Answer::No(Status::DeviceFault)),
    (Call::SetSize(b"inner", 0), Answer::No(Status::DeviceFault)),
    (Call::Flush(b"inner"), Answer::No(Status::DeviceFault)),
    (Call::Unlink(b"inner"), Answer::No(Status::DeviceFault)),
];

// How many of these are faults.
const FAULTS: u64 = 10;

const EMPTIED: &[Row] = &[
    (Call::Unlink(b"inner/x"), Answer::Done),
    (Call::Unlink(b"y"), Answer::Done),
    (Call::Unlink(b".hidden"), Answer::Done),
];

fn are_made(rt: &HostRuntime, folder: &str, inner: &str) -> bool {
    fs::create_dir(rt, folder).is_ok() && fs::create_dir(rt, inner).is_ok()
}

fn are_removed(rt: &HostRuntime, folder: &str, inner: &str) -> bool {
    fs::remove_dir(rt, inner).is_ok() && fs::remove_dir(rt, folder).is_ok()
}

// Whether the folders can be made, what is told there as files come, what of the folder `inner`, what is said of `y`, which is no folder, what is told as the
// files go, and whether the folders are empty then.
fn told_among_folders(
    rt: &HostRuntime,
    folder: &str,
    inner: &str,
    file: &str,
) -> (
    bool,
    Result<Told, Status>,
    Result<Told, Status>,
    Option<Status>,
    Result<Told, Status>,
    bool,
) {
    let is_made = are_made(rt, folder, inner);
    let first = told_in(rt, folder, 0, FOLDERS);
    let no_file = told_in(rt, folder, 0, NO_FILE);
    let refused = refusal(rt, file);
    let last = told_in(rt, folder, 0, EMPTIED);
    (
        is_made,
        first,
        no_file,
        refused,
        last,
        are_removed(rt, folder, inner),
    )
}

#[test]
fn folders_are_no_files(rt: HostRuntime) {
    let folder = folder_for(&rt, "folders").expect(&rt, "a path");
    let inner = inside(&rt, folder.as_str(), "inner").expect(&rt, "a path");
    let file = inside(&rt, folder.as_str(), "y").expect(&rt, "a path");
    let told = told_among_folders(&rt, folder.as_str(), inner.as_str(), file.as_str());
    let refused = Some(Status::FileNotFound);
    let done = Ok((0, 0));
    assert!(rt; told == (true, done, Ok((0, FAULTS)), refused, done, true));
}

// A socket isn't listed either.
const NONE_LISTED: &[Row] = &[(Call::List, Answer::Bytes(b""))];

// What is told in a new folder with a socket `inner`, and whether both are there to be removed afterwards.
fn told_of_socket(
    rt: &HostRuntime,
    folder: &str,
    socket: &str,
) -> io::Result<(Result<Told, Status>, Result<Told, Status>)> {
    fs::create_dir(rt, folder)?;
    let _listener = UnixListener::bind(rt, socket)?;
    let no_file = told_in(rt, folder, 0, NO_FILE);
    let listed = told_in(rt, folder, 0, NONE_LISTED);
    fs::remove_file(rt, socket)?;
    fs::remove_dir(rt, folder)?;
    Ok((no_file, listed))
}

#[test]
fn sockets_are_no_files(rt: HostRuntime) {
    let folder = folder_for(&rt, "socket").expect(&rt, "a path");
    let socket = inside(&rt, folder.as_str(), "inner").expect(&rt, "a path");
    let told = told_of_socket(&rt, folder.as_str(), socket.as_str()).expect(&rt, "a socket");
    assert!(rt; told == (Ok((0, FAULTS)), Ok((0, 0))));
}

// The same of a file with another path.
fn left_at<B: Base>(base: &mut B, path: &RelPath, rows: &[Row]) -> usize {
    let mut left = rows.len();
    for (call, answer) in rows {
        if !is_told(base, path, *call, *answer) {
            return left;
        }
        left = left.saturating_sub(1);
    }
    left
}

// What a base over the open files of this program is told of an end of a pipe, which is a FIFO.
fn told_of_pipe(rt: &HostRuntime) -> Option<Told> {
    let (reader, writer) = io::pipe(rt).ok()?;
    let number = reader.as_fd().as_raw_fd();
    let name = format!(in rt.alloc(); "{number}").ok()?;
    let path = RelPath::read(name.as_bytes()).ok()?;
    let mut base = HostBase::new(rt, "/proc/self/fd").ok()?;
    let left = left_at(&mut base, &path, NO_FILE);
    let _ends = (reader, writer);
    Some((left, base.failures()))
}

#[test]
fn pipes_are_no_files(rt: HostRuntime) {
    assert_eq!(rt; told_of_pipe(&rt), Some((0, FAULTS)));
}

const SLOW: &[Row] = &[
    (Call::Read(b"file", 2, 3), Answer::Bytes(b"cde")),
    (Call::Read(b"file", 0, 99), Answer::Bytes(b"abcdefgh")),
    (Call::Read(b"file", 8, 1), Answer::No(Status::EndOfFile)),
];

// With place 4 failing: two faults of the host, and that it wants memory is one too; this program's own want of memory is none.
const FAILING: &[Row] = &[
    (Call::Read(b"file", 0, 8), Answer::No(Status::DeviceFault)),
    (Call::Read(b"file", 0, 4), Answer::Bytes(b"abcd")),
    (Call::Write(b"file", 0, b"1234"), Answer::Done),
    (
        Call::Write(b"file", 2, b"123"),
        Answer::No(Status::DeviceFault),
    ),
    (Call::Size(b"memory"), Answer::No(Status::NoMemory)),
    (Call::Size(b"crowded"), Answer::No(Status::DeviceFault)),
];

// The host would open this one.
const NOT_OPENED: &[Row] = &[
    (Call::Read(b"fifo", 0, 1), Answer::No(Status::DeviceFault)),
    (
        Call::Write(b"fifo", 0, b"x"),
        Answer::No(Status::DeviceFault),
    ),
    (Call::SetSize(b"fifo", 1), Answer::No(Status::DeviceFault)),
    (Call::Flush(b"fifo"), Answer::No(Status::DeviceFault)),
];

// What writes a file syncs nothing, and what opens one neither. A flush, and what makes a name or takes it away, does.
const SYNCED: &[Row] = &[
    (Call::Write(b"file", 0, b"x"), Answer::Done),
    (Call::Create(b"file", CreateMode::Existing), Answer::Done),
    (Call::Flush(b"file"), Answer::No(Status::DeviceFault)),
    (
        Call::Create(b"made", CreateMode::New),
        Answer::No(Status::DeviceFault),
    ),
    (Call::Unlink(b"file"), Answer::No(Status::DeviceFault)),
];

const MIXED: &[Row] = &[(Call::List, Answer::Bytes(b".b\na\na c\nb\n"))];

// A name that isn't UTF-8 is a fault.
const NOT_TEXT: &[Row] = &[(Call::List, Answer::No(Status::DeviceFault))];

const LONGEST: &[Row] = &[(Call::List, Answer::Long(32_768))];

const TOO_LONG: &[Row] = &[(Call::List, Answer::No(Status::TooMany))];

// A fault of the host, the call that fails, and one more.
const SECOND: &[Row] = &[
    (Call::Size(b"folder"), Answer::No(Status::DeviceFault)),
    (Call::Size(b"file"), Answer::No(Status::DeviceFault)),
    (Call::Size(b"file"), Answer::Number(8)),
];

// How slow hosts are, the call of the base that fails, if one does, what the base is told, and the faults that are counted then.
const HOSTS: &[(Way, u64, &[Row], u64)] = &[
    (Way::Plain, 0, SLOW, 0),
    (Way::FailsAt(4), 0, FAILING, 3),
    (Way::Plain, 0, NOT_OPENED, 4),
    (Way::FailsToSync, 0, SYNCED, 3),
    (Way::Mixed, 0, MIXED, 0),
    (Way::NotText, 0, NOT_TEXT, 1),
    (Way::Long(128), 0, LONGEST, 0),
    (Way::Long(129), 0, TOO_LONG, 0),
    (Way::Plain, 2, SECOND, 2),
];

fn told_over(alloc: Global, way: Way, fails: u64, rows: &[Row]) -> Result<Told, Status> {
    told_in(&SlowHost::new(alloc, way), "root", fails, rows)
}

// The number of the first host over which something else is told.
fn other_host(alloc: Global, hosts: &[(Way, u64, &[Row], u64)]) -> Option<usize> {
    for (number, (way, fails, rows, failures)) in hosts.iter().enumerate() {
        if told_over(alloc, *way, *fails, rows) != Ok((0, *failures)) {
            return Some(number);
        }
    }
    None
}

#[test]
fn slow_hosts(rt: HostRuntime) {
    assert_eq!(rt; other_host(rt.alloc(), HOSTS), None);
}
