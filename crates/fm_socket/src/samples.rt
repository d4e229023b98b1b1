//! The filters that the server has ready to load.

use fm_samples::{Carry, Guard, Hold, Meter, Sample, Scan, Shift, Stay};
use fm_types::{Name, Status};
use std::alloc::Global;

/// The seven samples under their names. Refused with 1, if memory is refused.
pub(crate) fn samples(alloc: Global) -> Result<Vec<(Name, Sample)>, Status> {
    let mut filters = Vec::new(alloc);
    filters.push((Name::read(b"guard")?, Sample::Guard(Guard)))?;
    filters.push((Name::read(b"meter")?, Sample::Meter(Meter::new(alloc))))?;
    filters.push((Name::read(b"shift")?, Sample::Shift(Shift::new(alloc))))?;
    filters.push((Name::read(b"hold")?, Sample::Hold(Hold)))?;
    filters.push((Name::read(b"carry")?, Sample::Carry(Carry::new(alloc))))?;
    filters.push((Name::read(b"stay")?, Sample::Stay(Stay)))?;
    filters.push((Name::read(b"scan")?, Sample::Scan(Scan::new(alloc))))?;
    Ok(filters)
}
