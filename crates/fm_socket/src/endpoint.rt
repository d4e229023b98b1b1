//! What a server stands on.

use crate::faults::{fault_of, outside};
use fm_cli::{Fault, Front};
use fm_device::Bases;
use fm_host::HostBase;
use fm_types::Status;
use fm_types::limits::CONNECTIONS;
use std::alloc::Global;
use std::io;
use std::net::Net;
use std::os::fd::OwnedFd;
use std::os::unix::net::{UnixListener, UnixStream};
use std::rt::Files;

/// What a server stands on: the devices of each worker and of each connection, its socket, and a second descriptor of that, by which a Stop ends the wait for
/// connections.
#[derive(Drop)]
pub struct Endpoint<D: Drop> {
    pub(crate) workers: Vec<D>,
    pub(crate) connections: Vec<D>,
    pub(crate) listener: UnixListener,
    pub(crate) bell: UnixStream,
}

/// A folder of the host as the only volume.
pub type Folder<R> = Bases<HostBase<R>>;

// So many bases over that folder.
fn bases<R>(rt: &R, alloc: Global, folder: &str, count: usize) -> Result<Vec<Folder<R>>, Status>
where
    R: Files + AllocGlobal + Clone + Drop,
{
    let mut all = Vec::with_capacity(alloc, count)?;
    for _ in 0..count {
        let mut bases = Bases::new(alloc)?;
        bases.place(HostBase::new(rt, folder)?);
        all.push(bases)?;
    }
    Ok(all)
}

// Holds so many descriptors at once.
fn hold<R: Net>(rt: &R, alloc: Global, count: usize) -> io::Result<Vec<UnixStream>> {
    let (first, second) = UnixStream::pair(rt)?;
    let mut held = Vec::with_capacity(alloc, count)?;
    for _ in 0..count {
        held.push(first.try_clone()?)?;
    }
    drop(second);
    Ok(held)
}

// A socket at that path, and a second descriptor of it. An empty path is refused: it would be a name that no folder has.
fn listen<R: Files + Net>(rt: &R, path: &str) -> io::Result<(UnixListener, UnixStream)> {
    if path.is_empty() {
        return Err(io::Error::from(io::ErrorKind::InvalidFilename));
    }
    let listener = UnixListener::bind(rt, path)?;
    let again = listener.try_clone()?;
    Ok((listener, UnixStream::from(OwnedFd::from(again))))
}

// The same once so many descriptors were had at once: they are held until the socket is there.
fn listen_with_room<R: Files + Net>(
    rt: &R,
    alloc: Global,
    path: &str,
    count: usize,
) -> io::Result<(UnixListener, UnixStream)> {
    let held = hold(rt, alloc, count)?;
    let made = listen(rt, path);
    drop(held);
    made
}

/// Looks at the folder that a server is asked to serve, and then makes its socket, whose path must not be there yet. Each thread gets a base of its own over the
/// folder. `Memory` if a growth was refused, `Outside` if the folder isn't there, the socket can't be made, or the host has too few descriptors for 32 connections
/// and a file of each of them and of each worker.
pub fn prepare<R>(rt: &R, alloc: Global, asked: &Front<'_>) -> Result<Endpoint<Folder<R>>, Fault>
where
    R: Files + Net + AllocGlobal + Clone + Drop,
{
    let count = usize::from(asked.workers);
    let workers = bases(rt, alloc, asked.folder, count).map_err(fault_of)?;
    let connections = bases(rt, alloc, asked.folder, CONNECTIONS).map_err(fault_of)?;
    let descriptors = CONNECTIONS
        .saturating_add(CONNECTIONS)
        .saturating_add(count);
    match listen_with_room(rt, alloc, asked.socket, descriptors) {
        Ok((listener, bell)) => Ok(Endpoint {
            workers,
            connections,
            listener,
            bell,
        }),
        Err(error) => Err(outside(error)),
    }
}
