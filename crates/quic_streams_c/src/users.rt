//! The host's word of each stream.

ghost use Rattle.std.specs.Prelude.{◌≡◌};
ghost use Rattle.quic_streams_c.specs.Answers.{closed_code, TellsNumber};
ghost use Rattle.quic_streams_c.specs.Calls.{Calls, Questions};
ghost use Rattle.quic_streams_c.specs.Users.{SetsUserRaw, TellsUserRaw};

use crate::application::tell_handled;
use crate::codes::{ARGUMENT, CLOSED, NO_STREAM, OK, stream_of};
use crate::handle::{Handle, holding, take_out};
use quic_sending::ClosedStream;
use quic_session::Session;
use std::alloc::Global;

/// Sets the host's word of a stream.
#[unsafe(no_mangle)]
pub extern "C" fn qs_stream_set_user(alloc: Global, handle: &mut Handle, id: u64, user: u64) -> i32
    ensures { Calls handle.old.slot.value result handle.new.slot.value (Unit {0}) (λ s t. SetsUserRaw s id user result t) }
{
    match take_out(alloc, handle) {
        None => CLOSED,
        Some(mut session) => {
            let code = set_user(&mut session, id, user);
            *handle = holding(session);
            code
        }
    }
}

// The same, of a session.
fn set_user(session: &mut Session, id: u64, user: u64) -> i32
    ensures { SetsUserRaw session.old id user result session.new }
{
    let Some(id) = stream_of(id) else {
        return ARGUMENT;
    };
    tell_handled(&session.set_user(id, user))
}

/// Tells the host's word of a stream.
#[unsafe(no_mangle)]
pub extern "C" fn qs_stream_user(alloc: Global, handle: &mut Handle, id: u64, user: &mut u64) -> i32
    ensures { Questions handle.old.slot.value result handle.new.slot.value (user.new ≡ user.old) (λ s. TellsUserRaw s id result user.old user.new) }
{
    match take_out(alloc, handle) {
        None => CLOSED,
        Some(session) => {
            let code = tell_user(&session, id, user);
            *handle = holding(session);
            code
        }
    }
}

// The same, of a session.
fn tell_user(session: &Session, id: u64, user: &mut u64) -> i32
    ensures { TellsUserRaw session.now id result user.old user.new }
{
    let Some(id) = stream_of(id) else {
        return ARGUMENT;
    };
    put_user(&session.user(id), user)
}

// A word that was told.
fn put_user(answer: &Result<u64, ClosedStream>, user: &mut u64) -> i32
    ensures { TellsNumber closed_code answer.now result user.old user.new }
{
    match answer {
        Ok(set) => {
            *user = *set;
            OK
        }
        Err(_) => NO_STREAM,
    }
}
