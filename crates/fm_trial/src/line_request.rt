//! What a line asked for, once its request is gone.

use fm_callback_data::Request;
use fm_report::Facts;
use fm_wire::{Body, Control};

/// What a line asked for.
#[derive(Clone, Copy)]
pub(crate) enum LineRequest {
    /// An operation on that handle or volume.
    Operation(Facts),
    /// That filters be managed.
    Control(Control),
    /// Nothing.
    Nothing,
}

impl LineRequest {
    /// What a body asks for.
    pub(crate) fn of(body: &Body) -> LineRequest {
        match body {
            Body::Operation(request) => LineRequest::Operation(subject_of(request)),
            Body::Control(control) => LineRequest::Control(*control),
            Body::Reply(_) | Body::Refused(_) => LineRequest::Nothing,
        }
    }

    /// What it names.
    pub(crate) fn subject(&self) -> Facts {
        match self {
            LineRequest::Operation(subject) => *subject,
            LineRequest::Control(control) => controlled(*control),
            LineRequest::Nothing => Facts::none(),
        }
    }

    /// Why it is refused, where that isn't told by the status: a trial dismounts nothing.
    pub(crate) fn reason(&self) -> Option<&'static str> {
        match self {
            LineRequest::Control(Control::Dismount { .. }) => Some("a trial dismounts no volume"),
            _ => None,
        }
    }
}

// What a request names.
fn subject_of(request: &Request) -> Facts {
    match request {
        Request::Create { volume, .. }
        | Request::List { volume }
        | Request::OnVolume { volume, .. } => Facts {
            volume: Some(u64::from(volume.0)),
            ..Facts::none()
        },
        Request::OnHandle { handle, .. } => Facts {
            handle: Some(handle.0),
            ..Facts::none()
        },
    }
}

// What a control names.
fn controlled(control: Control) -> Facts {
    match control {
        Control::Attach { filter, volume, .. } => Facts {
            filter: Some(u64::from(filter.0)),
            volume: Some(u64::from(volume.0)),
            ..Facts::none()
        },
        Control::Detach { instance } => Facts {
            instance: Some(u64::from(instance.0)),
            ..Facts::none()
        },
        Control::Unload { filter } => Facts {
            filter: Some(u64::from(filter.0)),
            ..Facts::none()
        },
        Control::Dismount { volume } => Facts {
            volume: Some(u64::from(volume.0)),
            ..Facts::none()
        },
        Control::Load { .. } | Control::Stop => Facts::none(),
    }
}
