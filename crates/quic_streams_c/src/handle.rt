//! What C holds of a session.

ghost use Rattle.std.specs.Prelude.{◌≡◌, ◌↔◌, IsSome, MatchOption};
ghost use Rattle.std.specs.declared.option.Option.TheVariants.{Some, None};

use crate::slot::Slot;
use quic_session::Session;
use std::alloc::Global;
use std::mem::replace;

/// What C holds. All zero bytes is a handle that is closed.
#[repr(C)]
pub struct Handle {
    pub live: u64,
    pub slot: Slot,
    ghost tied: { (live ≡ 1) ↔ IsSome slot.value },
}

// A handle that is overwritten frees its session.
impl Drop for Handle {
    fn drop(self) {
        if let Some(session) = self.into_session() {
            drop(session);
        }
    }
}

impl Handle {
    // The session, where there is one.
    fn into_session(self) -> Option<Box<Session>>
        ensures { MatchOption result (self.slot.value ≡ None) (λ s. self.slot.value ≡ Some s.value) }
    {
        let Handle { live, slot } = self;
        if live == 1 {
            Some(slot.into_box())
        } else {
            None
        }
    }
}

// A handle that is closed.
pub(crate) fn closed(alloc: Global) -> Handle
    ensures { result.slot.value ≡ None }
{
    Handle {
        live: 0,
        slot: Slot::empty(alloc),
    }
}

// A handle of a session.
pub(crate) fn holding(session: Box<Session>) -> Handle
    ensures { result.slot.value ≡ Some session.value }
{
    Handle {
        live: 1,
        slot: Slot::of(session),
    }
}

// Takes the session out of a handle, which is closed then.
pub(crate) fn take_out(alloc: Global, handle: &mut Handle) -> Option<Box<Session>>
    ensures taken { MatchOption result (handle.old.slot.value ≡ None) (λ s. handle.old.slot.value ≡ Some s.value) }
    ensures closed { handle.new.slot.value ≡ None }
{
    replace(handle, closed(alloc)).into_session()
}
