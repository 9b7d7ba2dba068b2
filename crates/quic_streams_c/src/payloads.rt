//! Payloads that a session writes, and what becomes of them.

ghost use Rattle.std.specs.Prelude.{◌≡◌, ◌==◌, not};
ghost use Rattle.quic_streams_c.specs.Answers.{TellsDone, settle_code};
ghost use Rattle.quic_streams_c.specs.Calls.{Calls};
ghost use Rattle.quic_streams_c.specs.Payloads.{parts_at, payload_words, TellsPayload, TellsPlace, EmitsRaw, EmitsLentRaw, AcksRaw, LosesRaw};

use crate::codes::{ARGUMENT, CLOSED, DONE, NO_MEMORY, OK, code_of_settle};
use crate::handle::{Handle, holding, take_out};
use crate::words::fill_words;
use quic_session::Session;
use quic_session::emitting::{Emitted, Parts};
use quic_session::settling::SettleError;
use quic_values::OutOfMemory;
use std::alloc::Global;

// The parts of a number.
pub(crate) fn parts_of(number: u32) -> Option<Parts>
    ensures { result ≡ parts_at number }
{
    if number > 0 && number < 8 {
        Some(Parts {
            control: number % 2 == 1,
            datagrams: number / 2 % 2 == 1,
            streams: number / 4 == 1,
        })
    } else {
        None
    }
}

/// Writes what is to be sent.
#[unsafe(no_mangle)]
pub extern "C" fn qs_emit_words(
    alloc: Global,
    handle: &mut Handle,
    parts: u32,
    fair: u32,
    out: &mut [u8],
    words: &mut [u64],
) -> i32
    ensures { Calls handle.old.slot.value result handle.new.slot.value ((out.new ≡ out.old) × (words.new ≡ words.old)) (λ s t. EmitsRaw s parts fair out.old result t out.new words.old words.new) }
{
    match take_out(alloc, handle) {
        None => CLOSED,
        Some(mut session) => {
            let code = emit(&mut session, parts, fair, out, words);
            *handle = holding(session);
            code
        }
    }
}

// The same, of a session.
fn emit(session: &mut Session, parts: u32, fair: u32, out: &mut [u8], words: &mut [u64]) -> i32
    ensures { EmitsRaw session.old parts fair out.old result session.new out.new words.old words.new }
{
    let Some(parts) = parts_of(parts) else {
        return ARGUMENT;
    };
    let fair = fair != 0;
    tell_payload(&session.emit(out, parts, fair), words)
}

/// Writes what is to be sent into memory of the session, and tells where.
#[unsafe(no_mangle)]
pub extern "C" fn qs_emit_lent_words(
    alloc: Global,
    handle: &mut Handle,
    parts: u32,
    fair: u32,
    cap: usize,
    place: &mut *const u8,
    words: &mut [u64],
) -> i32
    ensures { Calls handle.old.slot.value result handle.new.slot.value ((place.new ≡ place.old) × (words.new ≡ words.old)) (λ s t. EmitsLentRaw s parts fair cap result t place.old place.new words.old words.new) }
{
    match take_out(alloc, handle) {
        None => CLOSED,
        Some(mut session) => {
            let code = emit_lent(&mut session, parts, fair, cap, place, words);
            *handle = holding(session);
            code
        }
    }
}

// The same, of a session.
fn emit_lent(
    session: &mut Session,
    parts: u32,
    fair: u32,
    cap: usize,
    place: &mut *const u8,
    words: &mut [u64],
) -> i32
    ensures { EmitsLentRaw session.old parts fair cap result session.new place.old place.new words.old words.new }
{
    let Some(asked) = parts_of(parts) else {
        return ARGUMENT;
    };
    let fair = fair != 0;
    let answer = session.emit_lent(cap, asked, fair);
    tell_lent(&answer, session, place, words)
}

// What was written, and where it stands, or why nothing.
fn tell_lent(
    answer: &Result<Option<Emitted>, OutOfMemory>,
    session: &Session,
    place: &mut *const u8,
    words: &mut [u64],
) -> i32
    ensures tells { TellsPayload answer.now result words.old words.new }
    ensures place { TellsPlace answer.now session.now place.old place.new }
{
    match answer {
        Ok(Some(emitted)) => {
            fill_words(words, &payload_words(emitted));
            *place = session.lent();
            OK
        }
        Ok(None) => DONE,
        Err(_) => NO_MEMORY,
    }
}

// What was written, or why nothing.
pub(crate) fn tell_payload(answer: &Result<Option<Emitted>, OutOfMemory>, words: &mut [u64]) -> i32
    ensures { TellsPayload answer.now result words.old words.new }
{
    match answer {
        Ok(Some(emitted)) => {
            fill_words(words, &payload_words(emitted));
            OK
        }
        Ok(None) => DONE,
        Err(_) => NO_MEMORY,
    }
}

// The words of a payload.
fn payload_words(emitted: &Emitted) -> [u64; 3]
    ensures { result ≡ payload_words emitted.now }
{
    let ends = if emitted.ends { 1 } else { 0 };
    [emitted.len as u64, emitted.token, ends]
}

/// A payload was acknowledged.
#[unsafe(no_mangle)]
pub extern "C" fn qs_acked(alloc: Global, handle: &mut Handle, token: u64) -> i32
    ensures { Calls handle.old.slot.value result handle.new.slot.value (Unit {0}) (λ s t. AcksRaw s token result t) }
{
    match take_out(alloc, handle) {
        None => CLOSED,
        Some(mut session) => {
            let code = acked(&mut session, token);
            *handle = holding(session);
            code
        }
    }
}

// The same, of a session.
fn acked(session: &mut Session, token: u64) -> i32
    ensures { AcksRaw session.old token result session.new }
{
    tell_settled(&session.acked(token))
}

/// A payload was lost.
#[unsafe(no_mangle)]
pub extern "C" fn qs_lost(alloc: Global, handle: &mut Handle, token: u64) -> i32
    ensures { Calls handle.old.slot.value result handle.new.slot.value (Unit {0}) (λ s t. LosesRaw s token result t) }
{
    match take_out(alloc, handle) {
        None => CLOSED,
        Some(mut session) => {
            let code = lost(&mut session, token);
            *handle = holding(session);
            code
        }
    }
}

// The same, of a session.
fn lost(session: &mut Session, token: u64) -> i32
    ensures { LosesRaw session.old token result session.new }
{
    tell_settled(&session.lost(token))
}

// That a payload was settled, or why not.
fn tell_settled(answer: &Result<(), SettleError>) -> i32
    ensures { TellsDone settle_code answer.now result }
{
    match answer {
        Ok(()) => OK,
        Err(error) => code_of_settle(error),
    }
}
