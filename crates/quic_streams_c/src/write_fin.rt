//! A write that may finish its stream.

ghost use Rattle.std.specs.Prelude.{◌≡◌};
ghost use Rattle.quic_streams_c.specs.Calls.{Calls};
ghost use Rattle.quic_streams_c.specs.WriteFin.{WritesFinRaw, is_end_alone, ends_write, TellsPart};

use crate::application::{stopped_first, tell_finish};
use crate::codes::{ARGUMENT, CLOSED, OK, code_of_write, stream_of};
use crate::handle::{Handle, holding, take_out};
use quic_sending::WriteError;
use quic_session::Session;
use std::alloc::Global;

/// Writes the first of some bytes, and finishes the stream if all were taken and it is asked to.
#[unsafe(no_mangle)]
pub extern "C" fn qs_stream_write_fin(
    alloc: Global,
    handle: &mut Handle,
    id: u64,
    bytes: &[u8],
    fin: u32,
    written: &mut usize,
    app_code: &mut u64,
) -> i32
    ensures { Calls handle.old.slot.value result handle.new.slot.value ((written.new ≡ written.old) × (app_code.new ≡ app_code.old)) (λ s t. WritesFinRaw s id bytes.now fin result t written.old written.new app_code.old app_code.new) }
{
    match take_out(alloc, handle) {
        None => CLOSED,
        Some(mut session) => {
            let code = write_fin(&mut session, id, bytes, fin, written, app_code);
            *handle = holding(session);
            code
        }
    }
}

// The same, of a session.
fn write_fin(
    session: &mut Session,
    id: u64,
    bytes: &[u8],
    fin: u32,
    written: &mut usize,
    app_code: &mut u64,
) -> i32
    ensures { WritesFinRaw session.old id bytes.now fin result session.new written.old written.new app_code.old app_code.new }
{
    let Some(id) = stream_of(id) else {
        return ARGUMENT;
    };
    if is_end_alone(bytes, fin) {
        *written = 0;
        return tell_finish(&session.finish(id), app_code);
    }
    let answer = session.write(id, bytes);
    if !ends_write(&answer, bytes.len(), fin) {
        return tell_part(&stopped_first(session, id, answer), written, app_code);
    }
    *written = bytes.len();
    tell_finish(&session.finish(id), app_code)
}

// Whether a write has no bytes, and is to finish its stream.
fn is_end_alone(bytes: &[u8], fin: u32) -> bool
    ensures { result ≡ is_end_alone bytes.now fin }
{
    bytes.is_empty() && fin != 0
}

// Whether a write took all of so many bytes, and is to finish its stream.
fn ends_write(answer: &Result<usize, WriteError>, len: usize, fin: u32) -> bool
    ensures { result ≡ ends_write answer.now len fin }
{
    match answer {
        Ok(count) => *count == len && fin != 0,
        Err(_) => false,
    }
}

// How many bytes were written, or why none.
fn tell_part(answer: &Result<usize, WriteError>, written: &mut usize, app_code: &mut u64) -> i32
    ensures { TellsPart answer.now result written.new app_code.old app_code.new }
{
    match answer {
        Ok(count) => {
            *written = *count;
            OK
        }
        Err(error) => {
            *written = 0;
            code_of_write(error, app_code)
        }
    }
}
