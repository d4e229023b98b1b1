//! The gate's beginning and its end.

ghost use Rattle.std.specs.Prelude.{◌≡◌, ◌<◌, ◌≤◌, ◌-◌, All, IfOk, length, sum_by};
ghost use Rattle.fm_rundown.specs.Views.{fresh_seat, one_made};
ghost use Rattle.fm_rundown.specs.Tables.{IsAt};
ghost use Rattle.fm_rundown.specs.Seats.{view_of, IsSeatOf, volumes_of, seats_of, passes_held};
ghost use Rattle.fm_rundown.specs.Calls.{NewRefused, Ends};

use crate::gate::{MAX_SEATS, RundownGate};
use crate::seat::GateSeat;
use crate::steps::make;
use crate::view::SeatView;
use atomic_table::{Seat, Table};
use fm_types::Status;
use fm_types::limits::VOLUMES;
use std::alloc::{AllocError, Global};

impl RundownGate {
    /// A gate before so many volumes, none of which is closed, and so many seats, none of which holds a pass or has seen anything. Refused with
    /// 32 where either number is 0, where there are more than 8 volumes or more than 65,536 seats, and with 1 where memory was refused.
    pub fn new(
        alloc: Global,
        volumes: usize,
        seats: usize,
    ) -> Result<(RundownGate, Vec<GateSeat>), Status>
        ensures refused { NewRefused volumes seats result }
        ensures numbers { IfOk result (λ made. (volumes_of made.0 ≡ volumes) × (seats_of made.0 ≡ seats) × (length made.1.items ≡ seats)) }
        ensures own { IfOk result (λ made. All (λ seat. IsSeatOf made.0 seat) made.1.items) }
        ensures fresh { IfOk result (λ made. All (λ seat. view_of seat ≡ fresh_seat 0) made.1.items) }
    {
        if volumes == 0 || seats == 0 || VOLUMES < volumes || MAX_SEATS < seats {
            return Err(Status::BadRequest);
        }
        let (gate, first) = RundownGate::with_one_seat(alloc, volumes, seats)?;
        let all = gate.every_seat(alloc, first)?;
        Ok((gate, all))
    }

    // Every seat, the first one last.
    fn every_seat(
        &self,
        alloc: Global,
        first: Seat<(), SeatView>,
    ) -> Result<Vec<GateSeat>, AllocError>
        requires own { IsAt self.now.table.shared.table_id first }
        requires fresh { first.me.0 ≡ fresh_seat (seats_of self.now - 1) }
        requires some { 0 < seats_of self.now }
        ensures number { IfOk result (λ all. length all.items ≡ seats_of self.now) }
        ensures own { IfOk result (λ all. All (λ seat. IsSeatOf self.now seat) all.items) }
        ensures fresh { IfOk result (λ all. All (λ seat. view_of seat ≡ fresh_seat 0) all.items) }
    {
        let mut first = first;
        let mut all = Vec::with_capacity(alloc, self.seats)?;
        for _ in 1..self.seats {
            all.push(self.make_seat(&mut first))?;
        }
        all.push(GateSeat::fresh(first))?;
        Ok(all)
    }

    // A gate and its first seat, with the others still to be made.
    fn with_one_seat(
        alloc: Global,
        volumes: usize,
        seats: usize,
    ) -> Result<(RundownGate, Seat<(), SeatView>), AllocError>
        requires volumes { volumes ≤ 8 }
        requires seats { (0 < seats) × (seats ≤ 65536) }
        ensures numbers { IfOk result (λ made. (volumes_of made.0 ≡ volumes) × (seats_of made.0 ≡ seats)) }
        ensures own { IfOk result (λ made. IsAt made.0.table.shared.table_id made.1) }
        ensures fresh { IfOk result (λ made. made.1.me.0 ≡ fresh_seat (seats - 1)) }
    {
        let (table, first) = Table::of_words(alloc, &[0; VOLUMES], &seats)?;
        let gate = RundownGate {
            table,
            volumes: volumes as u8,
            seats,
        };
        Ok((gate, first))
    }

    // Another seat.
    fn make_seat(&self, first: &mut Seat<(), SeatView>) -> GateSeat
        requires own { IsAt self.now.table.shared.table_id first.old }
        requires some { 0 < (first.old.me.0).to_make }
        ensures own { IsAt self.now.table.shared.table_id first.new × IsSeatOf self.now result }
        ensures left { first.new.me.0 ≡ one_made first.old.me.0 }
        ensures fresh { view_of result ≡ fresh_seat 0 }
    {
        GateSeat::fresh(make(&self.table.shared, first))
    }

    /// Ends the gate, once all its seats are here and none holds a pass. Hands the gate and the seats back as they were with 32 where seats are
    /// missing, and with 34 and the number of passes where passes are held.
    pub fn end(self, seats: Vec<GateSeat>) -> Result<(), (RundownGate, Vec<GateSeat>, Status)>
        requires own { All (λ seat. IsSeatOf self seat) seats.items }
        ensures answers { Ends self seats.items result }
        ensures none { IfOk result (λ _. (length seats.items ≡ seats_of self) × All (λ seat. passes_held seat ≡ 0) seats.items) }
    {
        if seats.len() != self.seats {
            return Err((self, seats, Status::BadRequest));
        }
        let held = passes_of_all(&seats);
        if 0 < held {
            return Err((self, seats, Status::Busy(held)));
        }
        Ok(())
    }
}

// How many passes the seats hold together.
fn passes_of_all(seats: &[GateSeat]) -> u64
    requires { length seats.now ≤ 65536 }
    ensures { result ≡ sum_by passes_held seats.now }
{
    let mut total = 0;
    for seat in seats {
        total += seat.passes();
    }
    total
}
