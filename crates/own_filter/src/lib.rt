//! A filter of one's own, and the list of filters that a program has ready to load.
#![tactic(auto)]

mod audit;

pub use crate::audit::Audit;
use fm_types::{Name, Status};
use std::alloc::Global;

/// The filters under the names by which they are loaded. Refused with 1, if memory is refused.
pub fn filters(alloc: Global) -> Result<Vec<(Name, Audit)>, Status> {
    let mut filters = Vec::new(alloc);
    filters.push((Name::read(b"audit")?, Audit::new(alloc)))?;
    Ok(filters)
}
