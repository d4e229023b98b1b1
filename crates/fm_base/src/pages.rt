//! The pages of a file in memory, by their numbers: what a write, a read and a cut do with them.

ghost use Rattle.std.specs.Prelude.{◌≡◌, ℕ, ◌+◌, ◌^◌, ◌<◌, ◌≤◌, ◌++◌, ◌==◌, cond, [], length, take, drop, map, OnOk, IfOk};
ghost use Rattle.std.specs.List.{range_with_len};
ghost use Rattle.std.specs.BTreeMap as tree;
ghost use Rattle.fm_types.specs.ByteLists.{resized};
ghost use Rattle.fm_base.specs.Pages.{page_of, byte_at, overwritten, SameBytes, NoneShorter, HasRoom, Overwrites, Cuts};

use crate::page::Page;
use std::alloc::{AllocError, Global};
use std::collections::BTreeMap;

/// How many bytes a page has at most.
pub const PAGE_SIZE: u64 = 4096;

// Makes the page of that number at least so long; its bytes stay as they are.
fn make_page(
    pages: &mut BTreeMap<u64, Page>,
    alloc: Global,
    number: u64,
    len: usize,
) -> Result<(), AllocError>
    ensures same { SameBytes pages.old pages.new }
    ensures longer { NoneShorter pages.old pages.new }
    ensures ok { OnOk result (len ≤ length (page_of pages.new number)) }
{
    if let Some(page) = pages.get_mut(&number) {
        return page.grow(len);
    }
    let mut page = Page::new(alloc);
    page.grow(len)?;
    pages.insert(number, page)?;
    Ok(())
}

/// Takes the memory to write the bytes of the file from one place up to another. What the file holds
/// stays as it is, whatever the answer.
pub fn make_room(
    pages: &mut BTreeMap<u64, Page>,
    alloc: Global,
    from: u64,
    end: u64,
) -> Result<(), AllocError>
    requires some { from < end }
    requires end { end ≤ 2 ^ 40 }
    ensures same { SameBytes pages.old pages.new }
    ensures ok { OnOk result (HasRoom from end pages.new) }
{
    for number in from / PAGE_SIZE..(end - 1) / PAGE_SIZE + 1 {
        let len = (end - number * PAGE_SIZE).min(PAGE_SIZE);
        make_page(pages, alloc, number, len as usize)?;
    }
    Ok(())
}

// Writes over a part of one page, which has to be that long.
fn overwrite_page(pages: &mut BTreeMap<u64, Page>, number: u64, from: usize, bytes: &[u8])
    requires { from + length bytes.now ≤ length (page_of pages.old number) }
    ensures { let old = page_of pages.old in (q : ℕ) → page_of pages.new q ≡ cond (q == number) (overwritten from bytes.now (old number)) (old q) }
{
    if let Some(page) = pages.get_mut(&number) {
        page.overwrite(from, bytes);
    }
}

/// Writes over what lies from `offset` on. The pages have to have room for it.
pub fn overwrite(pages: &mut BTreeMap<u64, Page>, offset: u64, bytes: &[u8])
    requires end { offset + length bytes.now ≤ 2 ^ 40 }
    requires room { HasRoom offset (offset + length bytes.now) pages.old }
    ensures { Overwrites offset bytes.now pages.old pages.new }
{
    let mut done = 0;
    while done < bytes.len() {
        let at = offset + done as u64;
        let from = (at % PAGE_SIZE) as usize;
        let count = (PAGE_SIZE as usize - from).min(bytes.len() - done);
        overwrite_page(pages, at / PAGE_SIZE, from, &bytes[done..done + count]);
        done += count;
    }
}

// Appends a part of one page to others.
fn append_page(
    pages: &BTreeMap<u64, Page>,
    out: &mut Vec<u8>,
    number: u64,
    from: usize,
    count: usize,
) -> Result<(), AllocError>
    requires { length out.old.items + count ≤ 2 ^ 63 }
    ensures { OnOk result (out.new.items ≡ out.old.items ++ resized count (drop from (page_of pages.now number))) }
{
    match pages.get(&number) {
        Some(page) => page.append_to(out, from, count),
        None => out.resize(out.len() + count, 0),
    }
}

/// A copy of the `len` bytes of the file from `offset` on.
pub fn copy(
    pages: &BTreeMap<u64, Page>,
    alloc: Global,
    offset: u64,
    len: u32,
) -> Result<Vec<u8>, AllocError>
    requires { offset + len < 2 ^ 64 }
    ensures { IfOk result (λ out. out.items ≡ map (byte_at pages.now) (range_with_len offset len)) }
{
    let end = len as usize;
    let mut out = Vec::with_capacity(alloc, end)?;
    while out.len() < end {
        let at = offset + out.len() as u64;
        let from = (at % PAGE_SIZE) as usize;
        let count = (PAGE_SIZE as usize - from).min(end - out.len());
        append_page(pages, &mut out, at / PAGE_SIZE, from, count)?;
    }
    Ok(out)
}

// Drops all pages from that number on.
fn drop_pages(pages: &mut BTreeMap<u64, Page>, end: u64)
    ensures below { (q : ℕ) → q < end → page_of pages.new q ≡ page_of pages.old q }
    ensures past { (q : ℕ) → end ≤ q → page_of pages.new q ≡ [] }
{
    while let Some((number, _page)) = pages.last_key_value() {
        if *number < end {
            break;
        }
        pages.pop_last();
    }
}

/// Takes away what lies from that place of the file on.
pub fn cut(pages: &mut BTreeMap<u64, Page>, size: u64)
    ensures { Cuts size pages.old pages.new }
{
    drop_pages(pages, size.div_ceil(PAGE_SIZE));
    if let Some(page) = pages.get_mut(&(size / PAGE_SIZE)) {
        page.cut((size % PAGE_SIZE) as usize);
    }
}
