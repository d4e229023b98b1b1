//! What a line has to be done.

use fm_altitude::Altitude;
use fm_callback_data::{PostVerdict, PreVerdict};
use fm_core::Step;
use fm_types::{CtxId, FilterId, InstanceId, Name, OpId, VolumeId, WorkerId};

/// What a line has the manager, a worker or the script itself do.
#[derive(Drop)]
pub enum Task {
    /// One event.
    Event(Step),
    /// Worker 0 attaches an instance, and accepts its setup.
    Attach {
        filter: FilterId,
        volume: VolumeId,
        name: Name,
        altitude: Altitude,
    },
    /// The worker takes the operation's next step.
    Next {
        worker: WorkerId,
        operation: OpId,
    },
    /// The worker's preoperation callback returns.
    Pre {
        worker: WorkerId,
        verdict: PreVerdict,
    },
    /// The worker's base call is carried out, and returns.
    Base {
        worker: WorkerId,
    },
    /// The worker's postoperation callback or drain returns.
    Post {
        worker: WorkerId,
        verdict: PostVerdict,
    },
    /// The worker takes the operation's steps until it is held or done.
    Go {
        worker: WorkerId,
        operation: OpId,
    },
    /// What `go` will answer for the instance.
    Plan {
        instance: InstanceId,
        verdict: PreVerdict,
    },
    /// The instance's phase is told.
    Phase(InstanceId),
    /// How many operations are in flight at the instance is told.
    Flight(InstanceId),
    /// How far the context's life has come is told.
    Count(CtxId),
    /// How many references callbacks left behind is told.
    Leaks,
    /// The device call of that number fails.
    Fail(u64),
    /// How many device calls failed is told.
    Failures,
}
