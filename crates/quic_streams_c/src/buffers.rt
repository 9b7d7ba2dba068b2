//! Buffers that C holds: payloads are written into them, and taken out of them, without a copy.

ghost use Rattle.std.specs.Prelude.{◌≡◌, ◌↔◌, IsSome, MatchOption, IfOk};
ghost use Rattle.std.specs.declared.option.Option.TheVariants.{Some, None};
ghost use Rattle.quic_streams_c.specs.Buffers.{IsShown, IsBufferReserved, ReservesRaw, Reserves, OpensBuffer, FreesRaw, EmitsHeld, EmitsBufferRaw, ReceivesHeld, ReceivesBufferRaw};
ghost use Rattle.quic_streams_c.specs.Answers.{TellsDone, memory_code};
ghost use Rattle.quic_streams_c.specs.Calls.{Calls};

use crate::buffer_slot::BufferSlot;
use crate::codes::{ARGUMENT, CLOSED, NO_MEMORY, OK};
use crate::handle::{Handle, holding, take_out};
use crate::payloads::{parts_of, tell_payload};
use crate::peer::{RawError, tell_received};
use quic_session::Session;
use quic_session::buffer::Buffer;
use quic_values::OutOfMemory;
use std::alloc::Global;
use std::mem::replace;

/// What C holds of a buffer, with the place and the number of its bytes. All zero bytes is one that is closed.
#[repr(C)]
pub struct RawBuffer {
    pub live: u64,
    pub slot: BufferSlot,
    pub bytes: *mut u8,
    pub len: usize,
    ghost tied: { (live ≡ 1) ↔ IsSome slot.value },
}

// One that is overwritten frees its buffer.
impl Drop for RawBuffer {
    fn drop(self) {
        if let Some(buffer) = self.into_buffer() {
            drop(buffer);
        }
    }
}

impl RawBuffer {
    // The buffer, where there is one.
    fn into_buffer(self) -> Option<Box<Buffer>>
        ensures { MatchOption result (self.slot.value ≡ None) (λ b. self.slot.value ≡ Some b.value) }
    {
        let RawBuffer {
            live,
            slot,
            bytes: _bytes,
            len: _len,
        } = self;
        if live == 1 {
            Some(slot.into_box())
        } else {
            None
        }
    }
}

// One that is closed.
fn no_buffer(alloc: Global) -> RawBuffer
    ensures none { result.slot.value ≡ None }
    ensures shows { IsShown None result.bytes result.len }
{
    RawBuffer {
        live: 0,
        slot: BufferSlot::empty(alloc),
        bytes: std::ptr::null_mut(),
        len: 0,
    }
}

// One that has a buffer, and shows where its bytes stand.
fn showing(buffer: Box<Buffer>) -> RawBuffer
    ensures holds { result.slot.value ≡ Some buffer.value }
    ensures shows { IsShown (Some buffer.value) result.bytes result.len }
{
    let mut buffer = buffer;
    let len = buffer.bytes.len();
    let bytes = buffer.bytes.as_mut_ptr();
    RawBuffer {
        live: 1,
        slot: BufferSlot::of(buffer),
        bytes,
        len,
    }
}

// Takes the buffer out of one, which is closed then.
fn take_buffer(alloc: Global, raw: &mut RawBuffer) -> Option<Box<Buffer>>
    ensures taken { MatchOption result (raw.old.slot.value ≡ None) (λ b. raw.old.slot.value ≡ Some b.value) }
    ensures closed { raw.new.slot.value ≡ None }
    ensures shows { IsShown None raw.new.bytes raw.new.len }
{
    replace(raw, no_buffer(alloc)).into_buffer()
}

/// Makes a buffer at least so long. One that is closed is opened.
#[unsafe(no_mangle)]
pub extern "C" fn qs_buffer_reserve(alloc: Global, buffer: &mut RawBuffer, size: usize) -> i32
    ensures { ReservesRaw buffer.old.slot.value size result (record { value = buffer.new.slot.value; bytes = buffer.new.bytes; len = buffer.new.len }) }
{
    match take_buffer(alloc, buffer) {
        None => open_buffer(alloc, buffer, size),
        Some(mut held) => {
            let code = reserve_held(&mut held, size);
            *buffer = showing(held);
            code
        }
    }
}

// Makes an open buffer at least so long. Takes no memory if it is.
fn reserve_held(held: &mut Buffer, size: usize) -> i32
    ensures { Reserves (Some held.old) size result (Some held.new) }
{
    if size <= held.bytes.len() {
        return OK;
    }
    tell_reserved(&held.reserve(size))
}

// Opens a buffer. Out of memory, nothing changes.
fn open_buffer(alloc: Global, buffer: &mut RawBuffer, size: usize) -> i32
    ensures { OpensBuffer (buffer.new ≡ buffer.old) size result (record { value = buffer.new.slot.value; bytes = buffer.new.bytes; len = buffer.new.len }) }
{
    match new_buffer(alloc, size) {
        Ok(held) => {
            *buffer = showing(held);
            OK
        }
        Err(_) => NO_MEMORY,
    }
}

// A new buffer that is so long.
fn new_buffer(alloc: Global, size: usize) -> Result<Box<Buffer>, OutOfMemory>
    ensures { IfOk result (λ b. IsBufferReserved None size (Some b.value)) }
{
    let mut buffer = Buffer::new(alloc);
    buffer.reserve(size)?;
    match Box::new(alloc, buffer) {
        Ok(buffer) => Ok(buffer),
        Err(_) => Err(OutOfMemory),
    }
}

// That there was memory, or that there was none.
fn tell_reserved(answer: &Result<(), OutOfMemory>) -> i32
    ensures { TellsDone memory_code answer.now result }
{
    match answer {
        Ok(()) => OK,
        Err(_) => NO_MEMORY,
    }
}

/// Frees a buffer. One that is closed stays as it is.
#[unsafe(no_mangle)]
pub extern "C" fn qs_buffer_free(alloc: Global, buffer: &mut RawBuffer)
    ensures { FreesRaw (record { value = buffer.new.slot.value; bytes = buffer.new.bytes; len = buffer.new.len }) }
{
    drop(take_buffer(alloc, buffer));
}

/// Writes what is to be sent into a buffer.
#[unsafe(no_mangle)]
pub extern "C" fn qs_emit_buffer_words(
    alloc: Global,
    handle: &mut Handle,
    parts: u32,
    fair: u32,
    cap: usize,
    buffer: &mut RawBuffer,
    words: &mut [u64],
) -> i32
    ensures { Calls handle.old.slot.value result handle.new.slot.value ((buffer.new ≡ buffer.old) × (words.new ≡ words.old)) (λ s t. EmitsBufferRaw s parts fair cap buffer.old.slot.value result t (record { value = buffer.new.slot.value; bytes = buffer.new.bytes; len = buffer.new.len }) words.old words.new) }
{
    match take_out(alloc, handle) {
        None => CLOSED,
        Some(mut session) => {
            let code = emit_buffer(alloc, &mut session, parts, fair, cap, buffer, words);
            *handle = holding(session);
            code
        }
    }
}

// The same, of a session.
fn emit_buffer(
    alloc: Global,
    session: &mut Session,
    parts: u32,
    fair: u32,
    cap: usize,
    buffer: &mut RawBuffer,
    words: &mut [u64],
) -> i32
    ensures { EmitsBufferRaw session.old parts fair cap buffer.old.slot.value result session.new (record { value = buffer.new.slot.value; bytes = buffer.new.bytes; len = buffer.new.len }) words.old words.new }
{
    match take_buffer(alloc, buffer) {
        None => CLOSED,
        Some(mut held) => {
            let code = emit_held(session, parts, fair, cap, &mut held, words);
            *buffer = showing(held);
            code
        }
    }
}

// The same, of a buffer.
fn emit_held(
    session: &mut Session,
    parts: u32,
    fair: u32,
    cap: usize,
    held: &mut Buffer,
    words: &mut [u64],
) -> i32
    ensures { EmitsHeld session.old parts fair cap held.old result session.new held.new words.old words.new }
{
    let Some(asked) = parts_of(parts) else {
        return ARGUMENT;
    };
    let fair = fair != 0;
    tell_payload(&session.emit_buffer(held, cap, asked, fair), words)
}

/// Processes the payload that is at the front of a buffer, as [`crate::peer::qs_receive`].
#[unsafe(no_mangle)]
pub extern "C" fn qs_receive_buffer(
    alloc: Global,
    handle: &mut Handle,
    buffer: &mut RawBuffer,
    len: usize,
    next: &mut usize,
    error: &mut RawError,
) -> i32
    ensures { Calls handle.old.slot.value result handle.new.slot.value ((buffer.new ≡ buffer.old) × (next.new ≡ next.old) × (error.new ≡ error.old)) (λ s t. ReceivesBufferRaw s buffer.old.slot.value len next.old result t (record { value = buffer.new.slot.value; bytes = buffer.new.bytes; len = buffer.new.len }) next.new error.old error.new) }
{
    match take_out(alloc, handle) {
        None => CLOSED,
        Some(mut session) => {
            let code = receive_buffer(alloc, &mut session, buffer, len, next, error);
            *handle = holding(session);
            code
        }
    }
}

// The same, of a session.
fn receive_buffer(
    alloc: Global,
    session: &mut Session,
    buffer: &mut RawBuffer,
    len: usize,
    next: &mut usize,
    error: &mut RawError,
) -> i32
    ensures { ReceivesBufferRaw session.old buffer.old.slot.value len next.old result session.new (record { value = buffer.new.slot.value; bytes = buffer.new.bytes; len = buffer.new.len }) next.new error.old error.new }
{
    match take_buffer(alloc, buffer) {
        None => CLOSED,
        Some(mut held) => {
            let code = receive_held(session, &mut held, len, next, error);
            *buffer = showing(held);
            code
        }
    }
}

// The same, of a buffer.
fn receive_held(
    session: &mut Session,
    held: &mut Buffer,
    len: usize,
    next: &mut usize,
    error: &mut RawError,
) -> i32
    ensures { ReceivesHeld session.old held.old len next.old result session.new held.new next.new error.old error.new }
{
    if held.bytes.len() < len || len < *next {
        return ARGUMENT;
    }
    let progress = session.process_buffer(held, len, *next);
    *next = progress.next;
    tell_received(&progress.answer, error)
}
