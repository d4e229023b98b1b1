//! The vocabulary of the filter manager: ids, statuses, the kinds of operations and contexts, what a
//! filter registers for, names, paths and bytes. Every other crate speaks in these types.
#![tactic(auto)]

mod bytes;
mod context_kind;
mod ids;
pub mod limits;
mod major;
mod name;
mod operation;
mod path;
mod registration;
mod shared_path;
mod status;
mod text;

pub use crate::bytes::Bytes;
pub use crate::context_kind::{ContextKind, ContextMask};
pub use crate::ids::{CtxId, FilterId, HandleId, InstanceId, OpId, StreamId, VolumeId, WorkerId};
pub use crate::major::Major;
pub use crate::name::Name;
pub use crate::operation::{CreateMode, OpMask, Operation, Role};
pub use crate::path::RelPath;
pub use crate::registration::Registration;
pub use crate::shared_path::SharedPath;
pub use crate::status::Status;
