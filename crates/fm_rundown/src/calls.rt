//! What a seat does at the gate. No call waits, and none tries again: each is one exchange on the volume's word, or two where `enter` is
//! refused.

ghost use Rattle.std.specs.Prelude.{◌≡◌, ◌<◌, true, false, length, nat_lt, IfOk, IfErr};
ghost use Rattle.fm_types.specs.declared.status.Status.{Status};
ghost use Rattle.fm_rundown.specs.Views.{most_volumes, volume_of};
ghost use Rattle.fm_rundown.specs.Kinds.{is_closing_word};
ghost use Rattle.fm_rundown.specs.Tables.{IsAt};
ghost use Rattle.fm_rundown.specs.Seats.{IsSeatOf, volumes_of};
ghost use Rattle.fm_rundown.specs.Calls.{OnVolume, Enters, Leaves, Closes, Sees, Looks};

use crate::gate::RundownGate;
use crate::look::{Look, Seen};
use crate::seat::GateSeat;
use crate::steps::{Shared, add, read, release, shut, undo};
use crate::view::SeatView;
use atomic_table::Seat;
use fm_types::limits::{PASSES, VOLUMES};
use fm_types::{Status, VolumeId};

// Whether a word says that its volume is closing.
fn is_closing(word: u64) -> bool
    ensures { result ≡ is_closing_word word }
{
    word % 2 == 1
}

// `enter`, for a seat that holds so many passes of the volume.
fn try_enter(
    shared: &Shared,
    seat: &mut Seat<(), SeatView>,
    volume: usize,
    held: u16,
) -> Result<(), Status>
    requires own { IsAt shared.now.table_id seat.old }
    requires volume { volume < most_volumes }
    requires long { volume < length (seat.old.me.0).volumes }
    requires rest { ((volume_of volume seat.old.me.0).held ≡ held) × ((volume_of volume seat.old.me.0).tentative ≡ 0) }
    ensures own { IsAt shared.now.table_id seat.new }
    ensures enters { Enters volume seat.old.me.0 result seat.new.me.0 }
{
    let found = add(shared, seat, volume);
    if is_closing(found) {
        undo(shared, seat, volume);
        return Err(Status::Dismounting);
    }
    if held >= PASSES {
        undo(shared, seat, volume);
        return Err(Status::TooMany);
    }
    Ok(())
}

// `look`.
fn see(shared: &Shared, seat: &mut Seat<(), SeatView>, volume: VolumeId) -> Look
    requires own { IsAt shared.now.table_id seat.old }
    requires volume { volume.0 < most_volumes }
    ensures own { IsAt shared.now.table_id seat.new }
    ensures sees { Sees volume.0 seat.old.me.0 result seat.new.me.0 }
{
    match read(shared, seat, usize::from(volume.0)) {
        1 => Look::Drained(Seen { volume }),
        found if is_closing(found) => Look::Closing,
        _ => Look::Open,
    }
}

impl RundownGate {
    // The place of a volume's word.
    fn place(&self, volume: VolumeId) -> Result<usize, Status>
        ensures here { IfOk result (λ v. (v ≡ volume.0) × (nat_lt v (volumes_of self.now) ≡ true) × (v < most_volumes)) }
        ensures refused { IfErr result (λ status. (status ≡ Status.NoVolume) × (nat_lt volume.0 (volumes_of self.now) ≡ false)) }
    {
        let place = usize::from(volume.0);
        if volume.0 < self.volumes && place < VOLUMES {
            Ok(place)
        } else {
            Err(Status::NoVolume)
        }
    }

    /// Takes a pass of the volume (`ExAcquireRundownProtection`). Refused with 7 where the gate has no such volume; with 33 where it was found
    /// closing, as it is ever after the seat has seen that; with 29 where the seat holds 1,000 passes of it. A refusal leaves the seat's
    /// passes as they were.
    pub fn enter(&self, seat: &mut GateSeat, volume: VolumeId) -> Result<(), Status>
        requires own { IsSeatOf self.now seat.old }
        ensures own { IsSeatOf self.now seat.new }
        ensures enters { OnVolume Enters self.now volume.0 seat.old result seat.new }
    {
        let place = self.place(volume)?;
        let GateSeat { seat, held } = seat;
        try_enter(&self.table.shared, seat, place, held[place])?;
        held[place] += 1;
        Ok(())
    }

    /// Gives a pass of the volume back (`ExReleaseRundownProtection`). Refused with 7 where the gate has no such volume, and with 25 where the
    /// seat holds no pass of it; then nothing changes.
    pub fn leave(&self, seat: &mut GateSeat, volume: VolumeId) -> Result<(), Status>
        requires own { IsSeatOf self.now seat.old }
        ensures own { IsSeatOf self.now seat.new }
        ensures leaves { OnVolume Leaves self.now volume.0 seat.old result seat.new }
    {
        let place = self.place(volume)?;
        let GateSeat { seat, held } = seat;
        if held[place] == 0 {
            return Err(Status::NotHeld);
        }
        release(&self.table.shared, seat, place);
        held[place] -= 1;
        Ok(())
    }

    /// Closes the volume for good: every later `enter` of it, by any seat, is refused with 33. Refused with 7 where the gate has no such
    /// volume, and then nothing changes.
    pub fn close(&self, seat: &mut GateSeat, volume: VolumeId) -> Result<(), Status>
        requires own { IsSeatOf self.now seat.old }
        ensures own { IsSeatOf self.now seat.new }
        ensures closes { OnVolume Closes self.now volume.0 seat.old result seat.new }
    {
        let place = self.place(volume)?;
        let GateSeat { seat, held: _ } = seat;
        shut(&self.table.shared, seat, place);
        Ok(())
    }

    /// How far the volume's rundown has come. Drained is final, and names the volume: nobody holds a pass of it then, and nobody gets one
    /// (`laws::drained_is_final`). While an `enter` takes its pass back, the answer may be Closing. Refused with 7 where the gate has no such
    /// volume, and then nothing changes.
    pub fn look(&self, seat: &mut GateSeat, volume: VolumeId) -> Result<Look, Status>
        requires own { IsSeatOf self.now seat.old }
        ensures own { IsSeatOf self.now seat.new }
        ensures looks { OnVolume Looks self.now volume.0 seat.old result seat.new }
    {
        self.place(volume)?;
        let GateSeat { seat, held: _ } = seat;
        Ok(see(&self.table.shared, seat, volume))
    }
}
