//! The calls of an application on streams.

ghost use Rattle.std.specs.Prelude.{◌≡◌, pos, true, false};
ghost use Rattle.quic_streams_c.specs.Answers.{memory_code, handle_code, closed_code, TellsDone, TellsSigned, TellsSome, TellsOption, stopped_first, TellsWrite, TellsFinish, TellsRead};
ghost use Rattle.quic_streams_c.specs.Calls.{Calls, Questions};
ghost use Rattle.quic_streams_c.specs.Sessions.{stop_code_of};
ghost use Rattle.quic_streams_c.specs.Streams.{OpensRaw, AcceptsRaw, WritesRaw, FinishesRaw, ResetsRaw, StopsRaw, SetsPriorityRaw, TellsPriorityRaw, TellsStopRaw, TellsResetRaw, ReadsRaw};

use crate::codes::{
    ARGUMENT, CLOSED, DONE, NO_MEMORY, NO_STREAM, OK, TOO_SMALL, code_of_finish, code_of_handle,
    code_of_last, code_of_readable, code_of_write, dir_of, id_of, small, stream_of,
};
use crate::handle::{Handle, holding, take_out};
use quic_receiving::{HandleError, ReadableError};
use quic_sending::{ClosedStream, FinishError, WriteError};
use quic_session::Session;
use quic_session::application::ReadInto;
use quic_values::{OutOfMemory, StreamId, VarInt};
use std::alloc::Global;

/// Opens the next stream of a direction.
#[unsafe(no_mangle)]
pub extern "C" fn qs_stream_open(alloc: Global, handle: &mut Handle, dir: u32, id: &mut u64) -> i32
    ensures { Calls handle.old.slot.value result handle.new.slot.value (id.new ≡ id.old) (λ s t. OpensRaw s dir result t id.old id.new) }
{
    match take_out(alloc, handle) {
        None => CLOSED,
        Some(mut session) => {
            let code = open(&mut session, dir, id);
            *handle = holding(session);
            code
        }
    }
}

// The same, of a session.
fn open(session: &mut Session, dir: u32, id: &mut u64) -> i32
    ensures { OpensRaw session.old dir result session.new id.old id.new }
{
    let Some(dir) = dir_of(dir) else {
        return ARGUMENT;
    };
    if session.reserve_stream().is_err() {
        return NO_MEMORY;
    }
    tell_opened(&session.open(dir), id)
}

// The id of a stream that was opened.
fn tell_opened(answer: &Result<Option<StreamId>, OutOfMemory>, id: &mut u64) -> i32
    ensures { TellsSome memory_code answer.now result id.old id.new }
{
    match answer {
        Ok(Some(opened)) => {
            *id = id_of(*opened);
            OK
        }
        Ok(None) => DONE,
        Err(_) => NO_MEMORY,
    }
}

/// Accepts the next stream of a direction that the peer opened.
#[unsafe(no_mangle)]
pub extern "C" fn qs_stream_accept(
    alloc: Global,
    handle: &mut Handle,
    dir: u32,
    id: &mut u64,
) -> i32
    ensures { Calls handle.old.slot.value result handle.new.slot.value (id.new ≡ id.old) (λ s t. AcceptsRaw s dir result t id.old id.new) }
{
    match take_out(alloc, handle) {
        None => CLOSED,
        Some(mut session) => {
            let code = accept(&mut session, dir, id);
            *handle = holding(session);
            code
        }
    }
}

// The same, of a session.
fn accept(session: &mut Session, dir: u32, id: &mut u64) -> i32
    ensures { AcceptsRaw session.old dir result session.new id.old id.new }
{
    let Some(dir) = dir_of(dir) else {
        return ARGUMENT;
    };
    if session.reserve_stream().is_err() {
        return NO_MEMORY;
    }
    tell_accepted(session.accept(dir), id)
}

// The id of a stream that was accepted.
fn tell_accepted(answer: Option<StreamId>, id: &mut u64) -> i32
    ensures { TellsOption answer (pos 1) result id.old id.new }
{
    match answer {
        Some(accepted) => {
            *id = id_of(accepted);
            OK
        }
        None => DONE,
    }
}

/// Writes the first of some bytes.
#[unsafe(no_mangle)]
pub extern "C" fn qs_stream_write(
    alloc: Global,
    handle: &mut Handle,
    id: u64,
    bytes: &[u8],
    written: &mut usize,
    app_code: &mut u64,
) -> i32
    ensures { Calls handle.old.slot.value result handle.new.slot.value ((written.new ≡ written.old) × (app_code.new ≡ app_code.old)) (λ s t. WritesRaw s id bytes.now result t written.old written.new app_code.old app_code.new) }
{
    match take_out(alloc, handle) {
        None => CLOSED,
        Some(mut session) => {
            let code = write(&mut session, id, bytes, written, app_code);
            *handle = holding(session);
            code
        }
    }
}

// The same, of a session.
fn write(
    session: &mut Session,
    id: u64,
    bytes: &[u8],
    written: &mut usize,
    app_code: &mut u64,
) -> i32
    ensures { WritesRaw session.old id bytes.now result session.new written.old written.new app_code.old app_code.new }
{
    let Some(id) = stream_of(id) else {
        return ARGUMENT;
    };
    let answer = session.write(id, bytes);
    tell_write(&stopped_first(session, id, answer), written, app_code)
}

// The result of a write: Stopped instead of Blocked if the peer sent STOP_SENDING for the stream.
pub(crate) fn stopped_first(
    session: &Session,
    id: StreamId,
    answer: Result<usize, WriteError>,
) -> Result<usize, WriteError>
    ensures { result ≡ stopped_first answer (stop_code_of session.now id) }
{
    if !matches!(answer, Err(WriteError::Blocked)) {
        return answer;
    }
    match session.stopped(id) {
        Ok(Some(code)) => Err(WriteError::Stopped(code)),
        _ => answer,
    }
}

// How many bytes were written, or why none.
fn tell_write(answer: &Result<usize, WriteError>, written: &mut usize, app_code: &mut u64) -> i32
    ensures { TellsWrite answer.now result written.old written.new app_code.old app_code.new }
{
    match answer {
        Ok(count) => {
            *written = *count;
            OK
        }
        Err(error) => code_of_write(error, app_code),
    }
}

/// Ends a stream.
#[unsafe(no_mangle)]
pub extern "C" fn qs_stream_finish(
    alloc: Global,
    handle: &mut Handle,
    id: u64,
    app_code: &mut u64,
) -> i32
    ensures { Calls handle.old.slot.value result handle.new.slot.value (app_code.new ≡ app_code.old) (λ s t. FinishesRaw s id result t app_code.old app_code.new) }
{
    match take_out(alloc, handle) {
        None => CLOSED,
        Some(mut session) => {
            let code = finish(&mut session, id, app_code);
            *handle = holding(session);
            code
        }
    }
}

// The same, of a session.
fn finish(session: &mut Session, id: u64, app_code: &mut u64) -> i32
    ensures { FinishesRaw session.old id result session.new app_code.old app_code.new }
{
    let Some(id) = stream_of(id) else {
        return ARGUMENT;
    };
    tell_finish(&session.finish(id), app_code)
}

// That a stream was ended, or why not.
pub(crate) fn tell_finish(answer: &Result<(), FinishError>, app_code: &mut u64) -> i32
    ensures { TellsFinish answer.now result app_code.old app_code.new }
{
    match answer {
        Ok(()) => OK,
        Err(error) => code_of_finish(error, app_code),
    }
}

/// Gives a stream up.
#[unsafe(no_mangle)]
pub extern "C" fn qs_stream_reset(alloc: Global, handle: &mut Handle, id: u64, app_code: u64) -> i32
    ensures { Calls handle.old.slot.value result handle.new.slot.value (Unit {0}) (λ s t. ResetsRaw s id app_code result t) }
{
    match take_out(alloc, handle) {
        None => CLOSED,
        Some(mut session) => {
            let code = reset(&mut session, id, app_code);
            *handle = holding(session);
            code
        }
    }
}

// The same, of a session.
fn reset(session: &mut Session, id: u64, app_code: u64) -> i32
    ensures { ResetsRaw session.old id app_code result session.new }
{
    let Some(id) = stream_of(id) else {
        return ARGUMENT;
    };
    let Some(app_code) = small(app_code) else {
        return ARGUMENT;
    };
    tell_handled(&session.reset(id, app_code))
}

/// Stops a stream.
#[unsafe(no_mangle)]
pub extern "C" fn qs_stream_stop(alloc: Global, handle: &mut Handle, id: u64, app_code: u64) -> i32
    ensures { Calls handle.old.slot.value result handle.new.slot.value (Unit {0}) (λ s t. StopsRaw s id app_code result t) }
{
    match take_out(alloc, handle) {
        None => CLOSED,
        Some(mut session) => {
            let code = stop(&mut session, id, app_code);
            *handle = holding(session);
            code
        }
    }
}

// The same, of a session.
fn stop(session: &mut Session, id: u64, app_code: u64) -> i32
    ensures { StopsRaw session.old id app_code result session.new }
{
    let Some(id) = stream_of(id) else {
        return ARGUMENT;
    };
    let Some(app_code) = small(app_code) else {
        return ARGUMENT;
    };
    tell_handled(&session.stop(id, app_code))
}

// That a call on a stream was done, or why not.
pub(crate) fn tell_handled(answer: &Result<(), HandleError>) -> i32
    ensures { TellsDone handle_code answer.now result }
{
    match answer {
        Ok(()) => OK,
        Err(error) => code_of_handle(error),
    }
}

/// Sets the priority of a stream.
#[unsafe(no_mangle)]
pub extern "C" fn qs_stream_set_priority(
    alloc: Global,
    handle: &mut Handle,
    id: u64,
    priority: i32,
) -> i32
    ensures { Calls handle.old.slot.value result handle.new.slot.value (Unit {0}) (λ s t. SetsPriorityRaw s id priority result t) }
{
    match take_out(alloc, handle) {
        None => CLOSED,
        Some(mut session) => {
            let code = set_priority(&mut session, id, priority);
            *handle = holding(session);
            code
        }
    }
}

// The same, of a session.
fn set_priority(session: &mut Session, id: u64, priority: i32) -> i32
    ensures { SetsPriorityRaw session.old id priority result session.new }
{
    let Some(id) = stream_of(id) else {
        return ARGUMENT;
    };
    tell_handled(&session.set_priority(id, priority))
}

/// Tells the priority of a stream.
#[unsafe(no_mangle)]
pub extern "C" fn qs_stream_priority(
    alloc: Global,
    handle: &mut Handle,
    id: u64,
    priority: &mut i32,
) -> i32
    ensures { Questions handle.old.slot.value result handle.new.slot.value (priority.new ≡ priority.old) (λ s. TellsPriorityRaw s id result priority.old priority.new) }
{
    match take_out(alloc, handle) {
        None => CLOSED,
        Some(session) => {
            let code = tell_priority(&session, id, priority);
            *handle = holding(session);
            code
        }
    }
}

// The same, of a session.
fn tell_priority(session: &Session, id: u64, priority: &mut i32) -> i32
    ensures { TellsPriorityRaw session.now id result priority.old priority.new }
{
    let Some(id) = stream_of(id) else {
        return ARGUMENT;
    };
    put_priority(&session.priority(id), priority)
}

// A priority that was told.
fn put_priority(answer: &Result<i32, ClosedStream>, priority: &mut i32) -> i32
    ensures { TellsSigned closed_code answer.now result priority.old priority.new }
{
    match answer {
        Ok(set) => {
            *priority = *set;
            OK
        }
        Err(_) => NO_STREAM,
    }
}

/// Tells whether the peer stopped a stream, and with which code.
#[unsafe(no_mangle)]
pub extern "C" fn qs_stream_stopped(
    alloc: Global,
    handle: &mut Handle,
    id: u64,
    app_code: &mut u64,
) -> i32
    ensures { Questions handle.old.slot.value result handle.new.slot.value (app_code.new ≡ app_code.old) (λ s. TellsStopRaw s id result app_code.old app_code.new) }
{
    match take_out(alloc, handle) {
        None => CLOSED,
        Some(session) => {
            let code = tell_stop(&session, id, app_code);
            *handle = holding(session);
            code
        }
    }
}

// The same, of a session.
fn tell_stop(session: &Session, id: u64, app_code: &mut u64) -> i32
    ensures { TellsStopRaw session.now id result app_code.old app_code.new }
{
    let Some(id) = stream_of(id) else {
        return ARGUMENT;
    };
    put_stop(&session.stopped(id), app_code)
}

// A code that was told, if there is one.
fn put_stop(answer: &Result<Option<VarInt>, ClosedStream>, app_code: &mut u64) -> i32
    ensures { TellsSome closed_code answer.now result app_code.old app_code.new }
{
    match answer {
        Ok(Some(code)) => {
            *app_code = code.into_inner();
            OK
        }
        Ok(None) => DONE,
        Err(_) => NO_STREAM,
    }
}

/// Tells whether the peer gave a stream up, and with which code.
#[unsafe(no_mangle)]
pub extern "C" fn qs_stream_received_reset(
    alloc: Global,
    handle: &mut Handle,
    id: u64,
    app_code: &mut u64,
) -> i32
    ensures { Calls handle.old.slot.value result handle.new.slot.value (app_code.new ≡ app_code.old) (λ s t. TellsResetRaw s id result t app_code.old app_code.new) }
{
    match take_out(alloc, handle) {
        None => CLOSED,
        Some(mut session) => {
            let code = tell_reset(&mut session, id, app_code);
            *handle = holding(session);
            code
        }
    }
}

// The same, of a session.
fn tell_reset(session: &mut Session, id: u64, app_code: &mut u64) -> i32
    ensures { TellsResetRaw session.old id result session.new app_code.old app_code.new }
{
    let Some(id) = stream_of(id) else {
        return ARGUMENT;
    };
    put_reset(&session.received_reset(id), app_code)
}

// The same of a call that may be refused otherwise.
fn put_reset(answer: &Result<Option<VarInt>, HandleError>, app_code: &mut u64) -> i32
    ensures { TellsSome handle_code answer.now result app_code.old app_code.new }
{
    match answer {
        Ok(Some(code)) => {
            *app_code = code.into_inner();
            OK
        }
        Ok(None) => DONE,
        Err(error) => code_of_handle(error),
    }
}

/// Reads the next chunk of a stream.
#[unsafe(no_mangle)]
pub extern "C" fn qs_stream_read(
    alloc: Global,
    handle: &mut Handle,
    id: u64,
    out: &mut [u8],
    count: &mut usize,
    offset: &mut u64,
    app_code: &mut u64,
) -> i32
    ensures { Calls handle.old.slot.value result handle.new.slot.value ((out.new ≡ out.old) × (count.new ≡ count.old) × (offset.new ≡ offset.old) × (app_code.new ≡ app_code.old)) (λ s t. ReadsRaw s id true result t (record { out = out.old; count = count.old; offset = offset.old; app_code = app_code.old }) (record { out = out.new; count = count.new; offset = offset.new; app_code = app_code.new })) }
{
    match take_out(alloc, handle) {
        None => CLOSED,
        Some(mut session) => {
            let code = read(&mut session, id, true, out, count, offset, app_code);
            *handle = holding(session);
            code
        }
    }
}

/// Reads a chunk of a stream as it came.
#[unsafe(no_mangle)]
pub extern "C" fn qs_stream_read_unordered(
    alloc: Global,
    handle: &mut Handle,
    id: u64,
    out: &mut [u8],
    count: &mut usize,
    offset: &mut u64,
    app_code: &mut u64,
) -> i32
    ensures { Calls handle.old.slot.value result handle.new.slot.value ((out.new ≡ out.old) × (count.new ≡ count.old) × (offset.new ≡ offset.old) × (app_code.new ≡ app_code.old)) (λ s t. ReadsRaw s id false result t (record { out = out.old; count = count.old; offset = offset.old; app_code = app_code.old }) (record { out = out.new; count = count.new; offset = offset.new; app_code = app_code.new })) }
{
    match take_out(alloc, handle) {
        None => CLOSED,
        Some(mut session) => {
            let code = read(&mut session, id, false, out, count, offset, app_code);
            *handle = holding(session);
            code
        }
    }
}

// The same, of a session.
fn read(
    session: &mut Session,
    id: u64,
    ordered: bool,
    out: &mut [u8],
    count: &mut usize,
    offset: &mut u64,
    app_code: &mut u64,
) -> i32
    ensures { ReadsRaw session.old id ordered result session.new (record { out = out.old; count = count.old; offset = offset.old; app_code = app_code.old }) (record { out = out.new; count = count.new; offset = offset.new; app_code = app_code.new }) }
{
    let Some(id) = stream_of(id) else {
        return ARGUMENT;
    };
    if out.is_empty() {
        return TOO_SMALL;
    }
    tell_read(
        &session.read_into(id, ordered, out),
        count,
        offset,
        app_code,
    )
}

// What a read gave, or why not.
fn tell_read(
    answer: &Result<ReadInto, ReadableError>,
    count: &mut usize,
    offset: &mut u64,
    app_code: &mut u64,
) -> i32
    ensures { TellsRead answer.now result count.old count.new offset.old offset.new app_code.old app_code.new }
{
    match answer {
        Err(error) => code_of_readable(error, count),
        Ok(read) => tell_chunk(read, count, offset, app_code),
    }
}

// The bytes that a read gave, or why there are none.
fn tell_chunk(read: &ReadInto, count: &mut usize, offset: &mut u64, app_code: &mut u64) -> i32
    ensures { TellsRead (Ok read.now) result count.old count.new offset.old offset.new app_code.old app_code.new }
{
    *count = read.count;
    if read.count == 0 {
        return code_of_last(&read.last, app_code);
    }
    *offset = read.offset;
    OK
}
