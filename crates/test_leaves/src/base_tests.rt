//! The longest listing of a base in memory and the order of one, how often a call is handed on, and what is proved of any base at two of them.

use fm_base::{Base, FailNth, MemoryBase, laws};
use fm_types::{CreateMode, RelPath, Status};
use std::alloc::Global;

// A name of 255 letters, of which the last two are that number's.
fn long_name(number: u8) -> Result<RelPath, Status> {
    let mut name = [b'n'; 255];
    name[253] = b'a' + number / 16;
    name[254] = b'a' + number % 16;
    RelPath::read(name.as_slice())
}

fn create_long(base: &mut MemoryBase, number: u8) -> Result<(), Status> {
    base.create(&long_name(number)?, CreateMode::New)
}

// Makes 128 files of such names.
fn fill(base: &mut MemoryBase) -> Result<(), Status> {
    for number in 0..128 {
        create_long(base, number)?;
    }
    Ok(())
}

// The length of their listing, what is said with one file more, and the length with one of them less.
fn listed(base: &mut MemoryBase) -> Result<(usize, Option<Status>, usize), Status> {
    fill(base)?;
    let whole = base.list()?.len();
    base.create(&RelPath::read(b"a")?, CreateMode::New)?;
    let refused = base.list().err();
    base.unlink(&long_name(0)?)?;
    Ok((whole, refused, base.list()?.len()))
}

#[test]
fn listing_of_32768_bytes(rt: HostRuntime) {
    let mut base = MemoryBase::new(rt.alloc());
    let told = listed(&mut base);
    assert_eq!(rt; told, Ok((32_768, Some(Status::TooMany), 32_514)));
}

// Whether the base gives back what is written to a new file.
fn reads_back<B: Base>(base: &mut B) -> Result<bool, Status> {
    let path = RelPath::read(b"f")?;
    base.create(&path, CreateMode::Always)?;
    let bytes = laws::write_and_read(base, &path, 5, b"bytes")?;
    Ok(bytes.as_slice() == b"bytes".as_slice())
}

fn memory_reads_back(alloc: Global) -> Result<bool, Status> {
    reads_back(&mut MemoryBase::new(alloc))
}

fn failing_reads_back(alloc: Global) -> Result<bool, Status> {
    reads_back(&mut FailNth::new(MemoryBase::new(alloc), 9))
}

#[test]
fn any_base_reads_back(rt: HostRuntime) {
    assert_eq!(rt; memory_reads_back(rt.alloc()), Ok(true));
    assert_eq!(rt; failing_reads_back(rt.alloc()), Ok(true));
}

// The listing of two files that were made in the other order.
fn lists_by_name(alloc: Global) -> Result<bool, Status> {
    let mut base = MemoryBase::new(alloc);
    base.create(&RelPath::read(b"b")?, CreateMode::New)?;
    base.create(&RelPath::read(b"a")?, CreateMode::New)?;
    Ok(base.list()?.as_slice() == b"a\nb\n".as_slice())
}

#[test]
fn listing_by_name(rt: HostRuntime) {
    assert_eq!(rt; lists_by_name(rt.alloc()), Ok(true));
}

// Two calls of a base whose third one fails, through another one that hands its calls on.
fn hands_on(alloc: Global) -> Result<(), Status> {
    let third = FailNth::new(MemoryBase::new(alloc), 3);
    let mut base = FailNth::new(third, 100);
    let path = RelPath::read(b"f")?;
    base.create(&path, CreateMode::New)?;
    base.flush(&path)
}

#[test]
fn a_call_is_handed_on_once(rt: HostRuntime) {
    assert_eq!(rt; hands_on(rt.alloc()), Ok(()));
}
