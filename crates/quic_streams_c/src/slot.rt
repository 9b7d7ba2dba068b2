//! A place for a boxed session, behind a pointer that C may carry.

ghost use Rattle.std.specs.Prelude.{◌≡◌, IsSome};
ghost use Rattle.std.specs.declared.option.Option.{Option};
ghost use Rattle.std.specs.declared.option.Option.TheVariants.{Some, None};
ghost use Rattle.std.specs.Coded.{coded_option};
ghost use Rattle.quic_session.specs.declared.session.Session.{Session};
ghost use Rattle.quic_session.specs.contracts.session.Session.{the_row};
ghost use Rattle.quic_streams_c.specs.Held.{slot_holds};

use box_parts::parts::Parts;
use quic_session::Session;
use std::alloc::Global;
use std::marker::Model;

#[repr(C)]
#[derive(Drop)]
pub struct Slot {
    at: *mut u8,
    alloc: Global,
    pub ghost value: { Option Session } by { coded_option the_row.coded },
}

impl Model for Slot {
    ghost also_owns = { λ s. slot_holds s.alloc s.at s.value };
}

impl Slot {
    /// One with nothing in it.
    pub fn empty(alloc: Global) -> Slot
        ensures { result.value ≡ None }
    {
        Slot {
            at: std::ptr::null_mut(),
            alloc,
        }
    }

    /// One that has the session.
    pub fn of(session: Box<Session>) -> Slot
        ensures { result.value ≡ Some session.value }
    {
        Slot::of_parts(Parts::of(session))
    }

    /// The session of one that has it.
    pub fn into_box(self) -> Box<Session>
        requires { IsSome self.value }
        ensures { self.value ≡ Some result.value }
    {
        self.into_parts().into_box()
    }

    fn of_parts(parts: Parts<Session, Global>) -> Slot
        ensures { result.value ≡ Some parts.value }
    {
        let Parts { ptr, alloc } = parts;
        Slot {
            at: ptr as *mut u8,
            alloc,
        }
    }

    fn into_parts(self) -> Parts<Session, Global>
        requires { IsSome self.value }
        ensures { self.value ≡ Some result.value }
    {
        let Slot { at, alloc } = self;
        Parts {
            ptr: at as *mut Session,
            alloc,
        }
    }
}
