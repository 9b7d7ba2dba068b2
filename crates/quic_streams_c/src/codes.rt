//! The numbers that C has for answers.

ghost use Rattle.std.specs.Prelude.{◌≡◌};
ghost use Rattle.quic_streams_c.specs.Numbers.{dir_at, length_at, direction_number, small};
ghost use Rattle.quic_streams_c.specs.Answers.{write_code, write_stop, finish_code, finish_stop, handle_code, readable_code, readable_count, settle_code, datagram_code, last_code, last_reset, many_code};

use quic_receiving::{HandleError, ReadableError};
use quic_sending::{FinishError, WriteError};
use quic_session::datagrams::DatagramError;
use quic_session::settling::SettleError;
use quic_streams::progress::LastAnswer;
use quic_values::{Dir, StreamId, VarInt};

/// The call did what it says.
pub const OK: i32 = 0;
/// There is nothing to give now.
pub const DONE: i32 = 1;
/// All bytes up to the end of the stream were given.
pub const END: i32 = 2;
/// The next frame of the payload is one that the host processes.
pub const OTHER_FRAME: i32 = 3;
/// The handle is closed.
pub const CLOSED: i32 = -1;
/// There was no memory.
pub const NO_MEMORY: i32 = -2;
/// A number is above its bound, or names nothing.
pub const ARGUMENT: i32 = -3;
/// The handle is not closed.
pub const IN_USE: i32 = -4;
/// The stream was not given, or it is closed.
pub const NO_STREAM: i32 = -5;
/// Nothing can be written, read or queued now.
pub const BLOCKED: i32 = -6;
/// The peer asked to send no more.
pub const STOPPED: i32 = -7;
/// The peer gave the stream up.
pub const RESET: i32 = -8;
/// The stream was read as bytes came before.
pub const ORDER: i32 = -9;
/// The peer broke the protocol.
pub const PROTOCOL: i32 = -10;
/// The payload is no join of frames.
pub const MALFORMED: i32 = -11;
/// No payload has this token.
pub const TOKEN: i32 = -12;
/// Datagrams are off, here or at the peer.
pub const DATAGRAMS_OFF: i32 = -13;
/// The datagram is too long.
pub const TOO_LARGE: i32 = -14;
/// The buffer is too small.
pub const TOO_SMALL: i32 = -15;

// The direction of a number.
pub(crate) fn dir_of(number: u32) -> Option<Dir>
    ensures { result ≡ dir_at number }
{
    if number == 0 {
        return Some(Dir::Bi);
    }
    if number == 1 {
        return Some(Dir::Uni);
    }
    None
}

// The number of a direction.
pub(crate) fn direction_number(dir: Dir) -> u32
    ensures { result ≡ direction_number dir }
{
    match dir {
        Dir::Bi => 0,
        Dir::Uni => 1,
    }
}

// A number that can be encoded.
pub(crate) fn small(number: u64) -> Option<VarInt>
    ensures { result ≡ small number }
{
    VarInt::from_u64(number)
}

// The stream of a number.
pub(crate) fn stream_of(number: u64) -> Option<StreamId>
    ensures { result ≡ small number }
{
    match small(number) {
        Some(number) => Some(StreamId::from(number)),
        None => None,
    }
}

// The number of a stream.
pub(crate) fn id_of(id: StreamId) -> u64
    ensures { result ≡ id }
{
    VarInt::from(id).into_inner()
}

// A length where one is given, and `None` for the greatest number.
pub(crate) fn length_of(number: u64) -> Option<usize>
    ensures { result ≡ length_at number }
{
    if number == u64::MAX {
        None
    } else {
        Some(number as usize)
    }
}

pub(crate) fn code_of_write(error: &WriteError, app_code: &mut u64) -> i32
    ensures code { result ≡ write_code error.now }
    ensures app_code { app_code.new ≡ write_stop error.now app_code.old }
{
    match error {
        WriteError::Blocked => BLOCKED,
        WriteError::Stopped(code) => {
            *app_code = code.into_inner();
            STOPPED
        }
        WriteError::ClosedStream => NO_STREAM,
        WriteError::OutOfMemory => NO_MEMORY,
    }
}

pub(crate) fn code_of_finish(error: &FinishError, app_code: &mut u64) -> i32
    ensures code { result ≡ finish_code error.now }
    ensures app_code { app_code.new ≡ finish_stop error.now app_code.old }
{
    match error {
        FinishError::Stopped(code) => {
            *app_code = code.into_inner();
            STOPPED
        }
        FinishError::ClosedStream => NO_STREAM,
        FinishError::OutOfMemory => NO_MEMORY,
    }
}

pub(crate) fn code_of_handle(error: &HandleError) -> i32
    ensures { result ≡ handle_code error.now }
{
    match error {
        HandleError::ClosedStream => NO_STREAM,
        HandleError::OutOfMemory => NO_MEMORY,
    }
}

pub(crate) fn code_of_readable(error: &ReadableError, count: &mut usize) -> i32
    ensures code { result ≡ readable_code error.now }
    ensures count { count.new ≡ readable_count error.now count.old }
{
    match error {
        ReadableError::ClosedStream => NO_STREAM,
        ReadableError::IllegalOrderedRead => ORDER,
        ReadableError::OutOfMemory => {
            *count = 0;
            NO_MEMORY
        }
    }
}

// Why a read gave no bytes.
pub(crate) fn code_of_last(last: &LastAnswer, app_code: &mut u64) -> i32
    ensures code { result ≡ last_code last.now }
    ensures app_code { app_code.new ≡ last_reset last.now app_code.old }
{
    match last {
        LastAnswer::Blocked => BLOCKED,
        LastAnswer::Ended => END,
        LastAnswer::Reset(code) => {
            *app_code = code.into_inner();
            RESET
        }
        LastAnswer::Memory => NO_MEMORY,
        LastAnswer::More => OK,
    }
}

// Whether more may be read than was.
pub(crate) fn code_of_many(last: &LastAnswer, count: usize, app_code: &mut u64) -> i32
    ensures code { result ≡ many_code last.now count }
    ensures app_code { app_code.new ≡ last_reset last.now app_code.old }
{
    match last {
        LastAnswer::Blocked => DONE,
        LastAnswer::Ended => END,
        LastAnswer::Reset(code) => {
            *app_code = code.into_inner();
            RESET
        }
        LastAnswer::Memory => { if count == 0 { NO_MEMORY } else { OK } }
        LastAnswer::More => OK,
    }
}

pub(crate) fn code_of_settle(error: &SettleError) -> i32
    ensures { result ≡ settle_code error.now }
{
    match error {
        SettleError::UnknownToken => TOKEN,
        SettleError::OutOfMemory => NO_MEMORY,
    }
}

pub(crate) fn code_of_datagram(error: &DatagramError) -> i32
    ensures { result ≡ datagram_code error.now }
{
    match error {
        DatagramError::UnsupportedByPeer => DATAGRAMS_OFF,
        DatagramError::Disabled => DATAGRAMS_OFF,
        DatagramError::TooLarge => TOO_LARGE,
        DatagramError::Blocked => BLOCKED,
        DatagramError::OutOfMemory => NO_MEMORY,
    }
}
