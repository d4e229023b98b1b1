//! One connection: what it may ask for, and what it is answered.

ghost use Rattle.std.specs.Prelude.{◌≡◌};
ghost use Rattle.fm_socket.specs.Answering.{IsDone};

use crate::exec::{ManagerExec, is_foreign};
use crate::gate_seat::{ServerWorker, VolumeSeat};
use crate::leftovers::Leftovers;
use crate::line::ClientLine;
use fm_callback_data::{Reply, Request};
use fm_device::Device;
use fm_filter::Callbacks;
use fm_lock::Hand;
use fm_rundown::Look;
use fm_server::{Exec, guarded, status_reply};
use fm_types::{Status, VolumeId};
use fm_wire::Control;
use std::alloc::Global;
use std::sync::Wait;
use std::sync::ledger::Ledger;
use std::time::Clock;

/// The server's only volume.
pub(crate) const VOLUME: VolumeId = VolumeId(0);

/// What answers the frames of one connection: operations between their entry at the rundown gate and their end there, dismounts by its seat, and all else by
/// the manager. A handle that it didn't open is refused with 14.
#[derive(Drop)]
pub(crate) struct Connection<'a, F: Drop, L: Ledger, R: Wait, D: Device> {
    alloc: Global,
    exec: ManagerExec<'a, F, L, R, D>,
    seat: VolumeSeat<'a>,
}

// The volume that an operation is of: a handle's is the only one that there is.
fn volume_of(request: &Request) -> VolumeId {
    match request {
        Request::Create { volume, .. }
        | Request::List { volume }
        | Request::OnVolume { volume, .. } => *volume,
        Request::OnHandle { .. } => VOLUME,
    }
}

impl<'a, F: Callbacks, L: Ledger, R: Wait, D: Device> Connection<'a, F, L, R, D> {
    /// A thread's place for connections, by that worker and that seat: nobody is connected yet.
    pub(crate) fn new(
        alloc: Global,
        worker: ServerWorker<'a, F, L, R, D>,
        leftovers: &'a Leftovers,
        seat: VolumeSeat<'a>,
    ) -> Connection<'a, F, L, R, D> {
        Connection {
            alloc,
            exec: ManagerExec::new(alloc, worker, leftovers),
            seat,
        }
    }

    /// A connection begins: its client is at the end of that line.
    pub(crate) fn begin(&mut self, line: ClientLine) {
        self.exec.begin(line);
    }

    /// The worker of its thread.
    pub(crate) fn worker(&mut self) -> &mut ServerWorker<'a, F, L, R, D> {
        self.exec.worker()
    }

    /// The hand of its thread, at the end.
    pub(crate) fn into_hand(self) -> Hand<L> {
        let Connection { exec, .. } = self;
        exec.into_worker().into_parts().0
    }

    /// Ends the dismount of the volume, if one began.
    pub(crate) fn end_dismount(&mut self) {
        let VolumeSeat { rundown, seat, .. } = &mut self.seat;
        if !matches!(rundown.look(seat, VOLUME), Ok(Look::Open)) {
            let _ = self.exec.dismount(rundown, seat, VOLUME);
        }
    }
}

impl<F: Callbacks, L: Ledger, R: Wait + Clock, D: Device> Connection<'_, F, L, R, D> {
    /// The connection ends: its handles are closed.
    pub(crate) fn end(&mut self) {
        self.exec.end();
    }

    fn dismount(&mut self, volume: VolumeId) -> Reply
        ensures done { IsDone result }
        ensures handles { self.new.exec.handles.items ≡ self.old.exec.handles.items }
    {
        self.exec.collect_orphans();
        let VolumeSeat { rundown, seat, .. } = &mut self.seat;
        match self.exec.dismount(rundown, seat, volume) {
            Ok(()) => status_reply(self.alloc, Status::Success),
            Err(status) => status_reply(self.alloc, status),
        }
    }
}

impl<F: Callbacks, L: Ledger, R: Wait + Clock, D: Device> Exec for Connection<'_, F, L, R, D> {
    ghost use Rattle.std.specs.Prelude.{◌≡◌};
    ghost use Rattle.fm_socket.specs.Answering.{IsDone, OperatesOver};

    ghost operates = { λ old request answer new. OperatesOver request answer old.exec.handles.items new.exec.handles.items };

    ghost controls = { λ old control answer new. IsDone answer × new.exec.handles.items ≡ old.exec.handles.items };

    fn operate(&mut self, request: Request) -> Reply {
        if is_foreign(self.exec.handles(), &request) {
            return status_reply(self.alloc, Status::NoHandle);
        }
        let volume = volume_of(&request);
        let VolumeSeat { rundown, seat, .. } = &mut self.seat;
        guarded(self.alloc, rundown, seat, volume, &mut self.exec, request)
    }

    fn control(&mut self, control: Control) -> Reply {
        match control {
            Control::Dismount { volume } => self.dismount(volume),
            other => self.exec.control(other),
        }
    }
}
