//! How many bytes a stream takes now.

ghost use Rattle.std.specs.Prelude.{◌≡◌};
ghost use Rattle.quic_streams_c.specs.Answers.{TellsNumber, closed_code};
ghost use Rattle.quic_streams_c.specs.Calls.{Questions};
ghost use Rattle.quic_streams_c.specs.Rooms.{TellsRoomRaw};

use crate::codes::{ARGUMENT, CLOSED, NO_STREAM, OK, stream_of};
use crate::handle::{Handle, holding, take_out};
use quic_sending::ClosedStream;
use quic_session::Session;
use std::alloc::Global;

/// Tells how many bytes one write would take now.
#[unsafe(no_mangle)]
pub extern "C" fn qs_stream_send_room(
    alloc: Global,
    handle: &mut Handle,
    id: u64,
    room: &mut u64,
) -> i32
    ensures { Questions handle.old.slot.value result handle.new.slot.value (room.new ≡ room.old) (λ s. TellsRoomRaw s id result room.old room.new) }
{
    match take_out(alloc, handle) {
        None => CLOSED,
        Some(session) => {
            let code = tell_room(&session, id, room);
            *handle = holding(session);
            code
        }
    }
}

// The same, of a session.
fn tell_room(session: &Session, id: u64, room: &mut u64) -> i32
    ensures { TellsRoomRaw session.now id result room.old room.new }
{
    let Some(id) = stream_of(id) else {
        return ARGUMENT;
    };
    put_room(&session.send_room(id), room)
}

// The room of a stream, or why there is none.
fn put_room(answer: &Result<u64, ClosedStream>, room: &mut u64) -> i32
    ensures { TellsNumber closed_code answer.now result room.old room.new }
{
    match answer {
        Ok(told) => {
            *room = *told;
            OK
        }
        Err(_) => NO_STREAM,
    }
}
