//! Datagrams (RFC 9221).

ghost use Rattle.std.specs.Prelude.{◌≡◌};
ghost use Rattle.quic_streams_c.specs.Answers.{TellsDone, TellsOption, datagram_code};
ghost use Rattle.quic_streams_c.specs.Calls.{Calls, Questions};
ghost use Rattle.quic_streams_c.specs.Datagrams.{QueuesRaw, TakesRaw, TellsMax, TellsSpace, SetsMax};

use crate::codes::{CLOSED, DATAGRAMS_OFF, DONE, OK, TOO_SMALL, code_of_datagram, length_of};
use crate::handle::{Handle, holding, take_out};
use quic_session::Session;
use quic_session::datagrams::DatagramError;
use std::alloc::Global;

/// Queues a datagram.
#[unsafe(no_mangle)]
pub extern "C" fn qs_datagram_send(
    alloc: Global,
    handle: &mut Handle,
    bytes: &[u8],
    drop_oldest: u32,
) -> i32
    ensures { Calls handle.old.slot.value result handle.new.slot.value (Unit {0}) (λ s t. QueuesRaw s bytes.now drop_oldest result t) }
{
    match take_out(alloc, handle) {
        None => CLOSED,
        Some(mut session) => {
            let code = send(&mut session, bytes, drop_oldest);
            *handle = holding(session);
            code
        }
    }
}

// The same, of a session.
fn send(session: &mut Session, bytes: &[u8], drop_oldest: u32) -> i32
    ensures { QueuesRaw session.old bytes.now drop_oldest result session.new }
{
    let drop_oldest = drop_oldest != 0;
    tell_queued(&session.send_datagram(bytes, drop_oldest))
}

// That a datagram was queued, or why not.
fn tell_queued(answer: &Result<(), DatagramError>) -> i32
    ensures { TellsDone datagram_code answer.now result }
{
    match answer {
        Ok(()) => OK,
        Err(error) => code_of_datagram(error),
    }
}

/// Takes the oldest received datagram out.
#[unsafe(no_mangle)]
pub extern "C" fn qs_datagram_recv(
    alloc: Global,
    handle: &mut Handle,
    out: &mut [u8],
    count: &mut usize,
) -> i32
    ensures { Calls handle.old.slot.value result handle.new.slot.value ((out.new ≡ out.old) × (count.new ≡ count.old)) (λ s t. TakesRaw s out.old result t out.new count.old count.new) }
{
    match take_out(alloc, handle) {
        None => CLOSED,
        Some(mut session) => {
            let code = receive(&mut session, out, count);
            *handle = holding(session);
            code
        }
    }
}

// The same, of a session.
fn receive(session: &mut Session, out: &mut [u8], count: &mut usize) -> i32
    ensures { TakesRaw session.old out.old result session.new out.new count.old count.new }
{
    let Some(length) = session.datagram_length() else {
        return DONE;
    };
    *count = length;
    if length > out.len() {
        return TOO_SMALL;
    }
    let Some(bytes) = session.recv_datagram() else {
        return DONE;
    };
    let length = bytes.len().min(out.len());
    out[..length].copy_from_slice(&bytes.as_slice()[..length]);
    session.give_back(bytes);
    OK
}

/// Tells the greatest length of a datagram.
#[unsafe(no_mangle)]
pub extern "C" fn qs_datagram_max_size(alloc: Global, handle: &mut Handle, size: &mut usize) -> i32
    ensures { Questions handle.old.slot.value result handle.new.slot.value (size.new ≡ size.old) (λ s. TellsMax s result size.old size.new) }
{
    match take_out(alloc, handle) {
        None => CLOSED,
        Some(session) => {
            let code = tell_max(&session, size);
            *handle = holding(session);
            code
        }
    }
}

// The same, of a session.
fn tell_max(session: &Session, size: &mut usize) -> i32
    ensures { TellsMax session.now result size.old size.new }
{
    match session.max_datagram() {
        Some(max) => {
            *size = max;
            OK
        }
        None => DATAGRAMS_OFF,
    }
}

/// Tells the greatest length that can be queued now.
#[unsafe(no_mangle)]
pub extern "C" fn qs_datagram_send_space(
    alloc: Global,
    handle: &mut Handle,
    size: &mut usize,
) -> i32
    ensures { Questions handle.old.slot.value result handle.new.slot.value (size.new ≡ size.old) (λ s. TellsSpace s result size.new) }
{
    match take_out(alloc, handle) {
        None => CLOSED,
        Some(session) => {
            *size = session.datagram_send_space();
            *handle = holding(session);
            OK
        }
    }
}

/// Sets the greatest length of a datagram.
#[unsafe(no_mangle)]
pub extern "C" fn qs_datagram_set_max_size(alloc: Global, handle: &mut Handle, size: u64) -> i32
    ensures { Calls handle.old.slot.value result handle.new.slot.value (Unit {0}) (λ s t. SetsMax s size result t) }
{
    match take_out(alloc, handle) {
        None => CLOSED,
        Some(mut session) => {
            let code = set_max(&mut session, size);
            *handle = holding(session);
            code
        }
    }
}

// The same, of a session.
fn set_max(session: &mut Session, size: u64) -> i32
    ensures { SetsMax session.old size result session.new }
{
    session.set_max_datagram(length_of(size));
    OK
}
