//! Reads of several chunks in one call.

ghost use Rattle.std.specs.Prelude.{◌≡◌, ◌≤◌, ◌++◌, Ok, OnOk, length, map, drop};
ghost use Rattle.quic_streams_c.specs.Answers.{TellsMany};
ghost use Rattle.quic_streams_c.specs.Calls.{Calls};
ghost use Rattle.quic_streams_c.specs.Streams.{ReadsManyRaw};
ghost use Rattle.quic_streams_c.specs.Slices.{raw_slice, PutsSlices, ReadsLentRaw};

use crate::codes::{ARGUMENT, CLOSED, TOO_SMALL, code_of_many, code_of_readable, stream_of};
use crate::handle::{Handle, holding, take_out};
use quic_receiving::ReadableError;
use quic_session::Session;
use quic_session::application::ReadInto;
use quic_session::lent_bytes::LentBytes;
use std::alloc::Global;

/// Reads the next chunks of a stream.
#[unsafe(no_mangle)]
pub extern "C" fn qs_stream_read_many(
    alloc: Global,
    handle: &mut Handle,
    id: u64,
    out: &mut [u8],
    count: &mut usize,
    offset: &mut u64,
    app_code: &mut u64,
) -> i32
    ensures { Calls handle.old.slot.value result handle.new.slot.value ((out.new ≡ out.old) × (count.new ≡ count.old) × (offset.new ≡ offset.old) × (app_code.new ≡ app_code.old)) (λ s t. ReadsManyRaw s id result t (record { out = out.old; count = count.old; offset = offset.old; app_code = app_code.old }) (record { out = out.new; count = count.new; offset = offset.new; app_code = app_code.new })) }
{
    match take_out(alloc, handle) {
        None => CLOSED,
        Some(mut session) => {
            let code = read_many(&mut session, id, out, count, offset, app_code);
            *handle = holding(session);
            code
        }
    }
}

// The same, of a session.
fn read_many(
    session: &mut Session,
    id: u64,
    out: &mut [u8],
    count: &mut usize,
    offset: &mut u64,
    app_code: &mut u64,
) -> i32
    ensures { ReadsManyRaw session.old id result session.new (record { out = out.old; count = count.old; offset = offset.old; app_code = app_code.old }) (record { out = out.new; count = count.new; offset = offset.new; app_code = app_code.new }) }
{
    let Some(id) = stream_of(id) else {
        return ARGUMENT;
    };
    if out.is_empty() {
        return TOO_SMALL;
    }
    tell_many(&session.read_many(id, out), count, offset, app_code)
}

// What a read gave, or why not.
fn tell_many(
    answer: &Result<ReadInto, ReadableError>,
    count: &mut usize,
    offset: &mut u64,
    app_code: &mut u64,
) -> i32
    ensures { TellsMany answer.now result count.old count.new offset.old offset.new app_code.old app_code.new }
{
    match answer {
        Err(error) => code_of_readable(error, count),
        Ok(read) => tell_chunks(read, count, offset, app_code),
    }
}

// The bytes that a read gave, and whether more may come.
fn tell_chunks(read: &ReadInto, count: &mut usize, offset: &mut u64, app_code: &mut u64) -> i32
    ensures { TellsMany (Ok read.now) result count.old count.new offset.old offset.new app_code.old app_code.new }
{
    *count = read.count;
    if read.count != 0 {
        *offset = read.offset;
    }
    code_of_many(&read.last, read.count, app_code)
}

/// Bytes that are lent: `len` of those at `memory`, from `start` on.
#[derive(Clone, Copy)]
#[repr(C)]
pub struct RawSlice {
    pub memory: *const u8,
    pub start: usize,
    pub len: usize,
}

/// Reads the next chunks of a stream, and lends them.
#[unsafe(no_mangle)]
pub extern "C" fn qs_stream_read_lent(
    alloc: Global,
    handle: &mut Handle,
    id: u64,
    slices: &mut [RawSlice],
    count: &mut usize,
    offset: &mut u64,
    app_code: &mut u64,
) -> i32
    ensures { Calls handle.old.slot.value result handle.new.slot.value ((slices.new ≡ slices.old) × (count.new ≡ count.old) × (offset.new ≡ offset.old) × (app_code.new ≡ app_code.old)) (λ s t. ReadsLentRaw s id result t (record { slices = slices.old; count = count.old; offset = offset.old; app_code = app_code.old }) (record { slices = slices.new; count = count.new; offset = offset.new; app_code = app_code.new })) }
{
    match take_out(alloc, handle) {
        None => CLOSED,
        Some(mut session) => {
            let code = read_lent(&mut session, id, slices, count, offset, app_code);
            *handle = holding(session);
            code
        }
    }
}

// The same, of a session.
fn read_lent(
    session: &mut Session,
    id: u64,
    slices: &mut [RawSlice],
    count: &mut usize,
    offset: &mut u64,
    app_code: &mut u64,
) -> i32
    ensures { ReadsLentRaw session.old id result session.new (record { slices = slices.old; count = count.old; offset = offset.old; app_code = app_code.old }) (record { slices = slices.new; count = count.new; offset = offset.new; app_code = app_code.new }) }
{
    let Some(id) = stream_of(id) else {
        return ARGUMENT;
    };
    if slices.is_empty() {
        return TOO_SMALL;
    }
    let answer = session.read_lent(id, slices.len());
    show_lent(&answer, session, slices);
    tell_many(&answer, count, offset, app_code)
}

// Where the bytes of a read that lends stand is put into the first slices.
fn show_lent(answer: &Result<ReadInto, ReadableError>, session: &Session, slices: &mut [RawSlice])
    requires { OnOk answer.now (length session.now.lent.items ≤ length slices.old) }
    ensures { PutsSlices answer.now session.now slices.old slices.new }
{
    match answer {
        Ok(_) => put_slices(session.lent_bytes(), slices),
        Err(_) => {}
    }
}

// Where what is lent stands is put into the first slices.
fn put_slices(lent: &[LentBytes], slices: &mut [RawSlice])
    requires { length lent.now ≤ length slices.old }
    ensures { slices.new ≡ map raw_slice lent.now ++ drop (length lent.now) slices.old }
{
    let mut at: usize = 0;
    for bytes in lent {
        slices[at] = raw_slice(bytes);
        at += 1;
    }
}

// Where bytes stand that are lent.
fn raw_slice(bytes: &LentBytes) -> RawSlice
    ensures { result ≡ raw_slice bytes.now }
{
    RawSlice {
        memory: bytes.memory.as_ptr(),
        start: bytes.start,
        len: bytes.len(),
    }
}
