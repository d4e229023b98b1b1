//! The handle that C keeps: whether a session is open, and where it lies.

ghost use Rattle.std.specs.Prelude.{◌≡◌, ◌↔◌, Some, None, IsSome, IfSome, IfNone, Option};
ghost use Rattle.std.specs.Coded.{coded_option};
ghost use Rattle.kazdrin_c.specs.contracts.host.SessionHost.{the_row as host_row};
ghost use Rattle.kazdrin_c.specs.declared.host.SessionHost.{SessionHost};
ghost use Rattle.kazdrin_c.specs.Handles.{HasSession};

use crate::host::SessionHost;
use crate::raw_box::RawBox;
use std::alloc::Global;
use std::marker::Model;
use std::{mem, ptr};

/// A pointer to a session, or to nothing. C has no use of it but to hand it back.
#[repr(C)]
#[derive(Drop)]
pub struct SessionPointer {
    at: *mut u8,
    alloc: Global,
    pub ghost host: { Option SessionHost } by { coded_option (host_row).coded },
}

impl Model for SessionPointer {
    ghost use Rattle.kazdrin_c.specs.Handles.{held_at};

    ghost also_owns = { λ k. held_at k.at k.host };
}

impl SessionPointer {
    fn at(at: *mut u8, alloc: Global) -> SessionPointer
        ensures { result.host ≡ None }
    {
        SessionPointer { at, alloc }
    }

    fn of(raw_box: RawBox<SessionHost, Global>) -> SessionPointer
        ensures { result.host ≡ Some raw_box.value }
    {
        let RawBox { at, alloc } = raw_box;
        SessionPointer {
            at: at as *mut u8,
            alloc,
        }
    }

    fn raw_box(self) -> RawBox<SessionHost, Global>
        requires { IsSome self.host }
        ensures { self.host ≡ Some result.value }
    {
        let SessionPointer { at, alloc } = self;
        RawBox {
            at: at as *mut SessionHost,
            alloc,
        }
    }
}

/// What C keeps of a session. All zeros is a handle that is closed.
#[repr(C)]
#[derive(Drop)]
pub struct Kazdrin {
    pub kept: SessionPointer,
    pub is_open: u8,
    ghost told: { HasSession is_open kept.host },
}

fn null() -> *mut u8 {
    ptr::null_mut()
}

fn nothing(at: *mut u8, alloc: Global) -> SessionPointer
    ensures { result.host ≡ None }
{
    SessionPointer::at(at, alloc)
}

fn closed(alloc: Global) -> Kazdrin
    ensures { result.is_open ≡ 0 }
{
    Kazdrin {
        kept: nothing(null(), alloc),
        is_open: 0,
    }
}

impl Kazdrin {
    /// Takes the session out of an open handle, which then is closed; none, and nothing changed, if it isn't open.
    pub fn take(&mut self, alloc: Global) -> Option<Box<SessionHost, Global>>
        ensures open { IsSome result ↔ (self.old.is_open ≡ 1) }
        ensures some { IfSome result (λ host. self.old.kept.host ≡ Some host.value) }
        ensures after { IfSome result (λ _. self.new.is_open ≡ 0) }
        ensures none { IfNone result (self.new ≡ self.old) }
    {
        if self.is_open != 1 {
            return None;
        }
        let Kazdrin { kept, is_open: _ } = mem::replace(self, closed(alloc));
        Some(kept.raw_box().into_box())
    }

    /// Puts a session into a handle, which then is open.
    pub fn put(&mut self, host: Box<SessionHost, Global>)
        ensures open { self.new.is_open ≡ 1 }
        ensures host { self.new.kept.host ≡ Some host.value }
    {
        *self = Kazdrin {
            kept: SessionPointer::of(RawBox::of(host)),
            is_open: 1,
        };
    }
}
