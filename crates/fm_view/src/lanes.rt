//! Where things stand in a picture of a run.

use fm_report::{Moment, Notes};
use std::alloc::{AllocError, Global};

/// Where the lanes begin, from the left.
pub const LEFT: u32 = 190;

/// How wide a column is.
const STEP: u32 = 18;

/// How high a lane is, and how much one more context makes it higher.
pub const LANE: u32 = 34;

pub const BAR: u32 = 14;

/// How high a row of names is, above the lanes of a volume, and how many rows there are at most.
pub const ROW: u32 = 13;

const ROWS: usize = 12;

/// The columns of a run: one for each event that is drawn.
#[derive(Drop)]
pub struct Columns {
    places: Vec<u32>,
    count: u32,
}

impl Columns {
    /// The columns of these events.
    pub fn new(alloc: Global, moments: &[Moment]) -> Result<Columns, AllocError> {
        let mut places = Vec::new(alloc);
        let mut count = 0u32;
        for moment in moments {
            if moment.event.kind.is_drawn() {
                count = count.saturating_add(1);
            }
            places.push(count)?;
        }
        Ok(Columns { places, count })
    }

    /// How far right the event at that place is.
    pub fn x(&self, at: usize) -> u32 {
        match self.places.get(at) {
            Some(column) => x_of(*column),
            None => self.right(),
        }
    }

    /// How far right the run ends.
    pub fn right(&self) -> u32 {
        x_of(self.count.saturating_add(1))
    }

    /// How far right the first event of that line, or after it, is.
    pub fn x_of_line(&self, moments: &[Moment], line: u32) -> u32 {
        match moments.iter().position(|moment| moment.line >= line) {
            Some(at) => self.x(at),
            None => self.right(),
        }
    }
}

fn x_of(column: u32) -> u32 {
    LEFT.saturating_add(column.saturating_mul(STEP))
}

/// The rows in which the names of the operations on a volume stand, from the top: none runs into another one, or into another one's stalk.
#[derive(Drop)]
pub struct NameRows {
    ends: Vec<u32>,
}

impl NameRows {
    /// No name stands anywhere.
    pub fn new(alloc: Global) -> NameRows {
        NameRows {
            ends: Vec::new(alloc),
        }
    }

    /// The row of a name that begins there and is so wide: below all that reach so far right. None if all rows do.
    pub fn place(&mut self, x: u32, width: u32) -> Result<Option<u32>, AllocError> {
        let mut row = 0usize;
        for (at, end) in self.ends.iter().enumerate() {
            if *end > x {
                row = at.saturating_add(1);
            }
        }
        if row >= ROWS {
            return Ok(None);
        }
        let end = x.saturating_add(width);
        match self.ends.get_mut(row) {
            Some(place) => *place = end,
            None => self.ends.push(end)?,
        }
        Ok(u32::try_from(row).ok())
    }

    /// How many rows there are.
    pub fn count(&self) -> u32 {
        u32::try_from(self.ends.len()).unwrap_or(0)
    }
}

/// What a lane is for.
#[derive(Clone, Copy, PartialEq, Eq)]
pub enum LaneOwner {
    /// The heads of the operations on a volume.
    Client(u8),
    /// An instance.
    Instance(u16),
    /// The file system of a volume.
    Base(u8),
}

/// A lane.
#[derive(Clone, Copy)]
pub struct Lane {
    pub owner: LaneOwner,
    pub top: u32,
    pub height: u32,
}

impl Lane {
    /// Where its line is.
    pub fn y(&self) -> u32 {
        match self.owner {
            LaneOwner::Client(_) => self.top.saturating_add(self.height).saturating_sub(6),
            _ => self.top.saturating_add(LANE / 2),
        }
    }
}

/// The lanes, from the top: of each volume the clients', with room for so many rows of names, those of its instances by falling altitude, and its file
/// system's.
pub fn lanes(alloc: Global, notes: &Notes, rows: &[u32]) -> Result<Vec<Lane>, AllocError> {
    let mut lanes = Vec::new(alloc);
    let mut top = 40u32;
    for number in 0..notes.volumes.len() {
        let Ok(volume) = u8::try_from(number) else {
            return Ok(lanes);
        };
        let rows = rows.get(number).copied().unwrap_or(0);
        let head = rows.saturating_mul(ROW).saturating_add(30);
        top = add(&mut lanes, LaneOwner::Client(volume), top, head)?;
        for instance in by_altitude(alloc, notes, volume)? {
            let height = LANE.saturating_add(bars_of(notes, instance).saturating_mul(BAR));
            top = add(&mut lanes, LaneOwner::Instance(instance), top, height)?;
        }
        top = add(&mut lanes, LaneOwner::Base(volume), top, LANE)?;
        top = top.saturating_add(14);
    }
    Ok(lanes)
}

// A lane more: where the next one begins.
fn add(lanes: &mut Vec<Lane>, owner: LaneOwner, top: u32, height: u32) -> Result<u32, AllocError> {
    lanes.push(Lane { owner, top, height })?;
    Ok(top.saturating_add(height))
}

// How many contexts an instance allocated.
fn bars_of(notes: &Notes, instance: u16) -> u32 {
    let mut count = 0u32;
    for note in &notes.contexts {
        if note.instance == instance {
            count = count.saturating_add(1);
        }
    }
    count
}

// The instances of a volume, by falling altitude.
fn by_altitude(alloc: Global, notes: &Notes, volume: u8) -> Result<Vec<u16>, AllocError> {
    let mut sorted: Vec<u16> = Vec::new(alloc);
    for number in 0..notes.instances.len() {
        if let Some(instance) = instance_on(notes, number, volume) {
            let place = sorted
                .iter()
                .position(|other| is_higher(notes, instance, *other))
                .unwrap_or(sorted.len());
            sorted.insert(place, instance)?;
        }
    }
    Ok(sorted)
}

// The instance of that number, if it is on the volume.
fn instance_on(notes: &Notes, number: usize, volume: u8) -> Option<u16> {
    let note = notes.instances.get(number)?;
    if note.volume == volume {
        u16::try_from(number).ok()
    } else {
        None
    }
}

// Whether an instance stands above another one.
fn is_higher(notes: &Notes, instance: u16, other: u16) -> bool {
    match (
        notes.instances.get(usize::from(instance)),
        notes.instances.get(usize::from(other)),
    ) {
        (Some(instance), Some(other)) => instance.altitude > other.altitude,
        _ => false,
    }
}

/// Where the line of an owner is, if it has a lane.
pub fn y_of(lanes: &[Lane], owner: LaneOwner) -> Option<u32> {
    let lane = lanes.iter().find(|lane| lane.owner == owner)?;
    Some(lane.y())
}
