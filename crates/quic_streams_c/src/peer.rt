//! Frames of the peer.

ghost use Rattle.std.specs.Prelude.{◌≡◌, ◌==◌, ◌++◌, not, min, length, take, drop};
ghost use Rattle.quic_streams_c.specs.Calls.{Calls};
ghost use Rattle.quic_streams_c.specs.Frames.{IsTold, TellsTaken, TellsReceived, HandsFrame, HandsStream, HandsReset, HandsStop, HandsMaxData, HandsMaxStreamData, HandsMaxStreams, HandsDatagram, ReceivesRaw};

use crate::codes::{
    ARGUMENT, CLOSED, MALFORMED, NO_MEMORY, OK, OTHER_FRAME, PROTOCOL, dir_of, small, stream_of,
};
use crate::handle::{Handle, holding, take_out};
use quic_receiving::ShouldTransmit;
use quic_session::Session;
use quic_session::processing::Halt;
use quic_session::receiving::PayloadError;
use quic_wire::frame::{Datagram, ResetStream, StopSending, Stream};
use quic_wire::{Frame, ReceiveError, TransportError};
use std::alloc::Global;

/// What a CONNECTION_CLOSE says.
#[derive(Clone, Copy)]
#[repr(C)]
pub struct RawError {
    pub code: u64,
    pub reason_len: u64,
    pub reason: [u8; 80],
}

// An error in numbers.
fn tell(error: &TransportError, told: &mut RawError)
    ensures { IsTold error.now.code error.now.reason.now told.new }
{
    told.code = error.code;
    told.reason = [0; 80];
    let length = copy_front(error.reason.as_bytes(), &mut told.reason);
    told.reason_len = length as u64;
}

// The first bytes of a text are copied into as much room as there is. Says how many.
fn copy_front(text: &[u8], room: &mut [u8]) -> usize
    ensures count { result ≡ min (length text.now) (length room.old) }
    ensures room { room.new ≡ take result text.now ++ drop result room.old }
{
    let length = text.len().min(room.len());
    room[..length].copy_from_slice(&text[..length]);
    length
}

/// Processes a payload from an offset on, up to a frame that is not the library's.
#[unsafe(no_mangle)]
pub extern "C" fn qs_receive(
    alloc: Global,
    handle: &mut Handle,
    payload: &[u8],
    next: &mut usize,
    error: &mut RawError,
) -> i32
    ensures { Calls handle.old.slot.value result handle.new.slot.value ((next.new ≡ next.old) × (error.new ≡ error.old)) (λ s t. ReceivesRaw s payload.now next.old result t next.new error.old error.new) }
{
    match take_out(alloc, handle) {
        None => CLOSED,
        Some(mut session) => {
            let code = receive(&mut session, payload, next, error);
            *handle = holding(session);
            code
        }
    }
}

// The same, of a session.
fn receive(session: &mut Session, payload: &[u8], next: &mut usize, error: &mut RawError) -> i32
    ensures { ReceivesRaw session.old payload.now next.old result session.new next.new error.old error.new }
{
    if payload.len() < *next {
        return ARGUMENT;
    }
    let progress = session.process(payload, *next);
    *next = progress.next;
    tell_received(&progress.answer, error)
}

// What came of a payload.
pub(crate) fn tell_received(answer: &Result<Halt, PayloadError>, error: &mut RawError) -> i32
    ensures { TellsReceived answer.now result error.old error.new }
{
    match answer {
        Ok(Halt::End) => OK,
        Ok(Halt::OtherFrame) => OTHER_FRAME,
        Err(PayloadError::Malformed) => {
            tell(
                &TransportError::frame_encoding_error("malformed frame"),
                error,
            );
            MALFORMED
        }
        Err(PayloadError::Transport(why)) => {
            tell(why, error);
            PROTOCOL
        }
        Err(PayloadError::OutOfMemory) => NO_MEMORY,
    }
}

// Hands a frame to a session.
fn hand(session: &mut Session, frame: Frame, payload_len: usize, error: &mut RawError) -> i32
    ensures { HandsFrame session.old frame payload_len result session.new error.old error.new }
{
    tell_taken(&session.receive_frame_within(frame, payload_len), error)
}

// What came of a frame.
fn tell_taken(answer: &Result<ShouldTransmit, ReceiveError>, error: &mut RawError) -> i32
    ensures { TellsTaken answer.now result error.old error.new }
{
    match answer {
        Ok(_) => OK,
        Err(ReceiveError::OutOfMemory | ReceiveError::CompactionMemory) => NO_MEMORY,
        Err(ReceiveError::Transport(why)) => {
            tell(why, error);
            PROTOCOL
        }
    }
}

/// Takes a STREAM frame.
#[unsafe(no_mangle)]
pub extern "C" fn qs_on_stream(
    alloc: Global,
    handle: &mut Handle,
    id: u64,
    offset: u64,
    bytes: &[u8],
    fin: u32,
    payload_len: usize,
    error: &mut RawError,
) -> i32
    ensures { Calls handle.old.slot.value result handle.new.slot.value (error.new ≡ error.old) (λ s t. HandsStream s id offset bytes.now fin payload_len result t error.old error.new) }
{
    match take_out(alloc, handle) {
        None => CLOSED,
        Some(mut session) => {
            let code = hand_stream(&mut session, id, offset, bytes, fin, payload_len, error);
            *handle = holding(session);
            code
        }
    }
}

// The same, of a session.
fn hand_stream(
    session: &mut Session,
    id: u64,
    offset: u64,
    bytes: &[u8],
    fin: u32,
    payload_len: usize,
    error: &mut RawError,
) -> i32
    ensures { HandsStream session.old id offset bytes.now fin payload_len result session.new error.old error.new }
{
    let Some(id) = stream_of(id) else {
        return ARGUMENT;
    };
    let Some(offset) = small(offset) else {
        return ARGUMENT;
    };
    let Ok(bytes) = session.copy_of(bytes) else {
        return NO_MEMORY;
    };
    let frame = Frame::Stream(Stream {
        id,
        offset: offset.into_inner(),
        fin: fin != 0,
        bytes,
    });
    hand(session, frame, payload_len, error)
}

/// Takes a RESET_STREAM frame.
#[unsafe(no_mangle)]
pub extern "C" fn qs_on_reset_stream(
    alloc: Global,
    handle: &mut Handle,
    id: u64,
    app_code: u64,
    final_size: u64,
    error: &mut RawError,
) -> i32
    ensures { Calls handle.old.slot.value result handle.new.slot.value (error.new ≡ error.old) (λ s t. HandsReset s id app_code final_size result t error.old error.new) }
{
    match take_out(alloc, handle) {
        None => CLOSED,
        Some(mut session) => {
            let code = hand_reset(&mut session, id, app_code, final_size, error);
            *handle = holding(session);
            code
        }
    }
}

// The same, of a session.
fn hand_reset(
    session: &mut Session,
    id: u64,
    app_code: u64,
    final_size: u64,
    error: &mut RawError,
) -> i32
    ensures { HandsReset session.old id app_code final_size result session.new error.old error.new }
{
    let Some(id) = stream_of(id) else {
        return ARGUMENT;
    };
    let Some(app_code) = small(app_code) else {
        return ARGUMENT;
    };
    let Some(final_size) = small(final_size) else {
        return ARGUMENT;
    };
    let frame = Frame::ResetStream(ResetStream {
        id,
        error_code: app_code,
        final_offset: final_size,
    });
    hand(session, frame, 0, error)
}

/// Takes a STOP_SENDING frame.
#[unsafe(no_mangle)]
pub extern "C" fn qs_on_stop_sending(
    alloc: Global,
    handle: &mut Handle,
    id: u64,
    app_code: u64,
    error: &mut RawError,
) -> i32
    ensures { Calls handle.old.slot.value result handle.new.slot.value (error.new ≡ error.old) (λ s t. HandsStop s id app_code result t error.old error.new) }
{
    match take_out(alloc, handle) {
        None => CLOSED,
        Some(mut session) => {
            let code = hand_stop(&mut session, id, app_code, error);
            *handle = holding(session);
            code
        }
    }
}

// The same, of a session.
fn hand_stop(session: &mut Session, id: u64, app_code: u64, error: &mut RawError) -> i32
    ensures { HandsStop session.old id app_code result session.new error.old error.new }
{
    let Some(id) = stream_of(id) else {
        return ARGUMENT;
    };
    let Some(app_code) = small(app_code) else {
        return ARGUMENT;
    };
    let frame = Frame::StopSending(StopSending {
        id,
        error_code: app_code,
    });
    hand(session, frame, 0, error)
}

/// Takes a MAX_DATA frame.
#[unsafe(no_mangle)]
pub extern "C" fn qs_on_max_data(
    alloc: Global,
    handle: &mut Handle,
    limit: u64,
    error: &mut RawError,
) -> i32
    ensures { Calls handle.old.slot.value result handle.new.slot.value (error.new ≡ error.old) (λ s t. HandsMaxData s limit result t error.old error.new) }
{
    match take_out(alloc, handle) {
        None => CLOSED,
        Some(mut session) => {
            let code = hand_max_data(&mut session, limit, error);
            *handle = holding(session);
            code
        }
    }
}

// The same, of a session.
fn hand_max_data(session: &mut Session, limit: u64, error: &mut RawError) -> i32
    ensures { HandsMaxData session.old limit result session.new error.old error.new }
{
    let Some(limit) = small(limit) else {
        return ARGUMENT;
    };
    hand(session, Frame::MaxData(limit), 0, error)
}

/// Takes a MAX_STREAM_DATA frame.
#[unsafe(no_mangle)]
pub extern "C" fn qs_on_max_stream_data(
    alloc: Global,
    handle: &mut Handle,
    id: u64,
    limit: u64,
    error: &mut RawError,
) -> i32
    ensures { Calls handle.old.slot.value result handle.new.slot.value (error.new ≡ error.old) (λ s t. HandsMaxStreamData s id limit result t error.old error.new) }
{
    match take_out(alloc, handle) {
        None => CLOSED,
        Some(mut session) => {
            let code = hand_max_stream_data(&mut session, id, limit, error);
            *handle = holding(session);
            code
        }
    }
}

// The same, of a session.
fn hand_max_stream_data(session: &mut Session, id: u64, limit: u64, error: &mut RawError) -> i32
    ensures { HandsMaxStreamData session.old id limit result session.new error.old error.new }
{
    let Some(id) = stream_of(id) else {
        return ARGUMENT;
    };
    let Some(limit) = small(limit) else {
        return ARGUMENT;
    };
    let offset = limit.into_inner();
    hand(session, Frame::MaxStreamData { id, offset }, 0, error)
}

/// Takes a MAX_STREAMS frame.
#[unsafe(no_mangle)]
pub extern "C" fn qs_on_max_streams(
    alloc: Global,
    handle: &mut Handle,
    dir: u32,
    count: u64,
    error: &mut RawError,
) -> i32
    ensures { Calls handle.old.slot.value result handle.new.slot.value (error.new ≡ error.old) (λ s t. HandsMaxStreams s dir count result t error.old error.new) }
{
    match take_out(alloc, handle) {
        None => CLOSED,
        Some(mut session) => {
            let code = hand_max_streams(&mut session, dir, count, error);
            *handle = holding(session);
            code
        }
    }
}

// The same, of a session.
fn hand_max_streams(session: &mut Session, dir: u32, count: u64, error: &mut RawError) -> i32
    ensures { HandsMaxStreams session.old dir count result session.new error.old error.new }
{
    let Some(dir) = dir_of(dir) else {
        return ARGUMENT;
    };
    let Some(count) = small(count) else {
        return ARGUMENT;
    };
    let count = count.into_inner();
    hand(session, Frame::MaxStreams { dir, count }, 0, error)
}

/// Takes a DATAGRAM frame.
#[unsafe(no_mangle)]
pub extern "C" fn qs_on_datagram(
    alloc: Global,
    handle: &mut Handle,
    bytes: &[u8],
    error: &mut RawError,
) -> i32
    ensures { Calls handle.old.slot.value result handle.new.slot.value (error.new ≡ error.old) (λ s t. HandsDatagram s bytes.now result t error.old error.new) }
{
    match take_out(alloc, handle) {
        None => CLOSED,
        Some(mut session) => {
            let code = hand_datagram(&mut session, bytes, error);
            *handle = holding(session);
            code
        }
    }
}

// The same, of a session.
fn hand_datagram(session: &mut Session, bytes: &[u8], error: &mut RawError) -> i32
    ensures { HandsDatagram session.old bytes.now result session.new error.old error.new }
{
    let Ok(bytes) = session.copy_of(bytes) else {
        return NO_MEMORY;
    };
    hand(session, Frame::Datagram(Datagram { bytes }), 0, error)
}
