//! The order of a volume: its instances that aren't detached, the highest first.

ghost use Rattle.std.specs.Prelude.{◌≡◌, ◌<◌, ◌≤◌, [], length, IfOk, position, unwrap_or, find, option_copied};
ghost use Rattle.std.specs.List.{insert, remove, list_any};
ghost use Rattle.fm_stack.specs.Events.{has_name_on, has_altitude_on};
ghost use Rattle.fm_stack.specs.Orders.{SitsOnce, is_seat_of, is_called_for, seat_passes, is_under, is_in_time, is_visited, place_under, place_behind, seats_at, instance_of};

use crate::instance::{Instance, Phase};
use fm_altitude::Altitude;
use fm_types::limits::LIVE;
use fm_types::{InstanceId, Name, Operation, Registration, VolumeId};
use std::alloc::{AllocError, Global};
use std::marker::Model;

/// The place of an instance in the order of its volume.
#[derive(Clone, Copy)]
pub struct Seat {
    /// Who sits there.
    pub instance: InstanceId,
    /// What its filter registered, so that a search needn't look up the filter.
    pub registration: Registration,
}

impl Seat {
    /// Whether the instance is called before or after such an operation.
    #[inline(always)]
    pub fn is_called_for(&self, operation: Operation) -> bool
        ensures { result ≡ is_called_for operation self.now }
    {
        self.registration.pre.has(operation) || self.registration.post.has(operation)
    }

    fn has_name_on(&self, rows: &[Instance], volume: VolumeId, name: &Name) -> bool
        ensures { result ≡ seat_passes rows.now (has_name_on volume name.now) self.now }
    {
        let Some(row) = rows.get(self.instance.0 as usize) else {
            return false;
        };
        row.has_name_on(volume, name)
    }

    fn has_altitude_on(&self, rows: &[Instance], volume: VolumeId, altitude: &Altitude) -> bool
        ensures { result ≡ seat_passes rows.now (has_altitude_on volume altitude.now) self.now }
    {
        let Some(row) = rows.get(self.instance.0 as usize) else {
            return false;
        };
        row.has_altitude_on(volume, altitude)
    }

    fn is_under(&self, rows: &[Instance], altitude: &Altitude) -> bool
        ensures { result ≡ seat_passes rows.now (is_under altitude.now) self.now }
    {
        let Some(row) = rows.get(self.instance.0 as usize) else {
            return false;
        };
        row.altitude.cmp(altitude).is_lt()
    }

    // Attached before that many were.
    #[inline(always)]
    fn is_in_time(&self, rows: &[Instance], born: u64) -> bool
        ensures { result ≡ seat_passes rows.now (is_in_time born) self.now }
    {
        let Some(row) = rows.get(self.instance.0 as usize) else {
            return false;
        };
        matches!(row.phase, Phase::Attached) && row.birth < born
    }

    #[inline(always)]
    fn is_visited(&self, rows: &[Instance], born: u64, operation: Operation) -> bool
        ensures { result ≡ is_visited rows.now born operation self.now }
    {
        self.is_called_for(operation) && self.is_in_time(rows, born)
    }
}

/// The instances of one volume that aren't detached, the highest first, with room for 32. Contracts see
/// the list of its seats.
#[derive(Drop)]
pub struct Order {
    seats: Vec<Seat>,
}

impl Model for Order {
    ghost use Rattle.std.specs.Prelude.{List, ◌≤◌, vec_capacity};
    ghost use Rattle.fm_stack.specs.declared.order.Seat.{Seat};

    ghost Value = { List Seat };

    ghost view = { λ order. order.seats.items };

    ghost invariant = { λ order. 32 ≤ vec_capacity order.seats };
}

impl Order {
    /// An order of nobody, with room for 32; the error says that memory was refused.
    pub fn new(alloc: Global) -> Result<Order, AllocError>
        ensures { IfOk result (λ order. order ≡ []) }
    {
        let seats = Vec::with_capacity(alloc, LIVE)?;
        Ok(Order { seats })
    }

    /// The seats, the highest first.
    pub fn seats(&self) -> &[Seat]
        ensures { result.now ≡ self.now }
    {
        &self.seats
    }

    /// One more seat, at that place. It takes no memory.
    pub fn insert(&mut self, place: usize, seat: Seat)
        requires within { place ≤ length self.old }
        requires room { length self.old < 32 }
        ensures { self.new ≡ insert self.old place seat }
    {
        let Ok(()) = self.seats.insert(place, seat) else {
            unreachable!();
        };
    }

    /// The seat at that place goes.
    pub fn remove(&mut self, place: usize)
        requires { place < length self.old }
        ensures { self.new ≡ remove self.old place }
    {
        self.seats.remove(place);
    }
}

/// The order of a volume.
pub fn seats_at(orders: &[Order], volume: VolumeId) -> &[Seat]
    ensures { result.now ≡ seats_at orders.now volume.0 }
{
    match orders.get(volume.0 as usize) {
        Some(order) => order.seats(),
        None => &[],
    }
}

/// Whether one of them takes up that name on the volume.
pub fn has_name_on(rows: &[Instance], seats: &[Seat], volume: VolumeId, name: &Name) -> bool
    ensures { result ≡ list_any (seat_passes rows.now (has_name_on volume name.now)) seats.now }
{
    seats
        .iter()
        .any(|seat| seat.has_name_on(rows, volume, name))
}

/// Whether one of them takes up that altitude on the volume.
pub fn has_altitude_on(
    rows: &[Instance],
    seats: &[Seat],
    volume: VolumeId,
    altitude: &Altitude,
) -> bool
    ensures { result ≡ list_any (seat_passes rows.now (has_altitude_on volume altitude.now)) seats.now }
{
    seats
        .iter()
        .any(|seat| seat.has_altitude_on(rows, volume, altitude))
}

/// The place where that instance sits.
#[inline(never)]
pub fn place_of(seats: &[Seat], instance: InstanceId) -> Option<usize>
    ensures { result ≡ position (is_seat_of instance) seats.now }
{
    seats.iter().position(|seat| seat.instance.0 == instance.0)
}

// The same, looked for first at a place that the caller guesses.
#[inline(always)]
fn place_by(seats: &[Seat], instance: InstanceId, guess: usize) -> Option<usize>
    requires { SitsOnce seats.now }
    ensures { result ≡ position (is_seat_of instance) seats.now }
{
    if let Some(seat) = seats.get(guess) {
        if seat.instance.0 == instance.0 {
            return Some(guess);
        }
    }
    place_of(seats, instance)
}

#[inline(never)]
fn first_under(rows: &[Instance], seats: &[Seat], altitude: &Altitude) -> Option<usize>
    ensures { result ≡ position (seat_passes rows.now (is_under altitude.now)) seats.now }
{
    seats.iter().position(|seat| seat.is_under(rows, altitude))
}

/// The place of the highest under that altitude, or the end.
pub fn place_under(rows: &[Instance], seats: &[Seat], altitude: &Altitude) -> usize
    ensures place { result ≡ place_under rows.now altitude.now seats.now }
    ensures within { result ≤ length seats.now }
{
    match first_under(rows, seats, altitude) {
        Some(place) => place,
        None => seats.len(),
    }
}

/// The place behind an instance: behind its seat, or, where it has none any more, of the highest that
/// stands lower. Its seat is looked for first at the place `guess`, which may be any number.
#[inline(always)]
pub fn place_behind(
    rows: &[Instance],
    seats: &[Seat],
    last: Option<InstanceId>,
    guess: usize,
) -> usize
    requires { SitsOnce seats.now }
    ensures place { result ≡ place_behind rows.now seats.now last }
    ensures within { result ≤ length seats.now }
{
    let Some(last) = last else {
        return 0;
    };
    if let Some(place) = place_by(seats, last, guess) {
        return place + 1;
    }
    let Some(row) = rows.get(last.0 as usize) else {
        return seats.len();
    };
    place_under(rows, seats, &row.altitude)
}

fn first_visited<'a>(
    rows: &[Instance],
    seats: &'a [Seat],
    born: u64,
    operation: Operation,
) -> Option<&'a Seat>
    ensures { option_copied result ≡ find (is_visited rows.now born operation) seats.now }
{
    seats
        .iter()
        .find(|seat| seat.is_visited(rows, born, operation))
}

// Where the highest of them isn't visited.
#[inline(never)]
fn later_visited(
    rows: &[Instance],
    seats: &[Seat],
    born: u64,
    operation: Operation,
) -> Option<InstanceId>
    ensures { result ≡ instance_of (find (is_visited rows.now born operation) seats.now) }
{
    let seat = first_visited(rows, seats, born, operation)?;
    Some(seat.instance)
}

/// The first that an operation visits: attached before that many were, and called for it. Mostly it is the first of them all.
#[inline(always)]
pub fn next_visited(
    rows: &[Instance],
    seats: &[Seat],
    born: u64,
    operation: Operation,
) -> Option<InstanceId>
    ensures { result ≡ instance_of (find (is_visited rows.now born operation) seats.now) }
{
    match seats {
        [] => None,
        [first, rest @ ..] => {
            if first.is_visited(rows, born, operation) {
                return Some(first.instance);
            }
            later_visited(rows, rest, born, operation)
        }
    }
}
