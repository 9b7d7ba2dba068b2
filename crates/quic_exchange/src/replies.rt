//! What the calls of an end are replied.

ghost use Rattle.std.specs.Prelude.{◌≡◌};
ghost use Rattle.quic_exchange.specs.Replies.{accepted_reply, opened_reply, unwritten_reply, chunks_reply, finished_reply, unfinished_reply, unhandled_reply, handled_reply, code_reply, last_of, unread_reply, read_reply, event_reply, done_reply, received_reply, payload_reply};

use quic_receiving::{HandleError, ReadableError, ShouldTransmit};
use quic_sending::{FinishError, WriteError, Written};
use quic_steps::{Last, PairError, Reply};
use quic_streams::batches::ReadSome;
use quic_streams::progress::LastAnswer;
use quic_values::{OutOfMemory, StreamId, VarInt};
use quic_wire::{ReceiveError, StreamEvent};
use std::alloc::AllocError;

/// The reply to a stream that was accepted, or that none was there.
pub fn accepted_reply(id: Option<StreamId>) -> Result<Reply, PairError>
    ensures { result ≡ accepted_reply id }
{
    match id {
        Some(id) => Ok(Reply::Id(id)),
        None => Ok(Reply::Nothing),
    }
}

/// The reply to a stream that was opened, or why none was.
pub fn opened_reply(answer: Result<Option<StreamId>, OutOfMemory>) -> Result<Reply, PairError>
    ensures { result ≡ opened_reply answer }
{
    match answer {
        Ok(id) => accepted_reply(id),
        Err(_) => Err(PairError::OutOfMemory),
    }
}

/// The reply to a write that was refused.
pub fn unwritten_reply(error: WriteError) -> Result<Reply, PairError>
    ensures { result ≡ unwritten_reply error }
{
    match error {
        WriteError::Blocked => Ok(Reply::Blocked),
        WriteError::Stopped(code) => Ok(Reply::Stopped(code)),
        WriteError::ClosedStream => Ok(Reply::Closed),
        WriteError::OutOfMemory => Err(PairError::OutOfMemory),
    }
}

/// The reply to a write of chunks.
pub fn chunks_reply(answer: Result<Written, WriteError>) -> Result<Reply, PairError>
    ensures { result ≡ chunks_reply answer }
{
    match answer {
        Ok(written) => Ok(Reply::WroteChunks(written)),
        Err(error) => unwritten_reply(error),
    }
}

/// The reply to the end of a stream.
pub fn finished_reply(answer: Result<(), FinishError>) -> Result<Reply, PairError>
    ensures { result ≡ finished_reply answer }
{
    match answer {
        Ok(()) => Ok(Reply::Done),
        Err(error) => unfinished_reply(error),
    }
}

fn unfinished_reply(error: FinishError) -> Result<Reply, PairError>
    ensures { result ≡ unfinished_reply error }
{
    match error {
        FinishError::Stopped(code) => Ok(Reply::Stopped(code)),
        FinishError::ClosedStream => Ok(Reply::Closed),
        FinishError::OutOfMemory => Err(PairError::OutOfMemory),
    }
}

fn unhandled_reply(error: HandleError) -> Result<Reply, PairError>
    ensures { result ≡ unhandled_reply error }
{
    match error {
        HandleError::ClosedStream => Ok(Reply::Closed),
        HandleError::OutOfMemory => Err(PairError::OutOfMemory),
    }
}

/// The reply to a call on a stream that was done, or why not.
pub fn handled_reply(answer: Result<(), HandleError>) -> Result<Reply, PairError>
    ensures { result ≡ handled_reply answer }
{
    match answer {
        Ok(()) => Ok(Reply::Done),
        Err(error) => unhandled_reply(error),
    }
}

/// The reply to a code that was asked for.
pub fn code_reply(answer: Result<Option<VarInt>, HandleError>) -> Result<Reply, PairError>
    ensures { result ≡ code_reply answer }
{
    match answer {
        Ok(Some(code)) => Ok(Reply::Code(code)),
        Ok(None) => Ok(Reply::Nothing),
        Err(error) => unhandled_reply(error),
    }
}

fn last_of(answer: LastAnswer) -> Last
    ensures { result ≡ last_of answer }
{
    match answer {
        LastAnswer::Blocked => Last::Blocked,
        LastAnswer::Ended => Last::Ended,
        LastAnswer::Reset(code) => Last::Reset(code),
        LastAnswer::Memory => Last::Memory,
        LastAnswer::More => Last::More,
    }
}

fn unread_reply(error: ReadableError) -> Result<Reply, PairError>
    ensures { result ≡ unread_reply error }
{
    match error {
        ReadableError::ClosedStream => Ok(Reply::Closed),
        ReadableError::IllegalOrderedRead => Ok(Reply::Illegal),
        ReadableError::OutOfMemory => Err(PairError::OutOfMemory),
    }
}

/// The reply to a read.
pub fn read_reply(answer: Result<ReadSome, ReadableError>) -> Result<Reply, PairError>
    ensures { result ≡ read_reply answer }
{
    match answer {
        Ok(read) => Ok(Reply::Read {
            chunks: read.chunks,
            last: last_of(read.last),
            transmit: read.transmit.should_transmit(),
        }),
        Err(error) => unread_reply(error),
    }
}

/// The reply to a poll for events.
pub fn event_reply(event: Option<StreamEvent>) -> Result<Reply, PairError>
    ensures { result ≡ event_reply event }
{
    match event {
        Some(event) => Ok(Reply::Event(event)),
        None => Ok(Reply::Nothing),
    }
}

/// The reply to a call that only want of memory refuses.
pub fn done_reply(answer: Result<(), OutOfMemory>) -> Result<Reply, PairError>
    ensures { result ≡ done_reply answer }
{
    match answer {
        Ok(()) => Ok(Reply::Done),
        Err(_) => Err(PairError::OutOfMemory),
    }
}

/// The reply to a frame that an end was handed.
pub fn received_reply(answer: Result<ShouldTransmit, ReceiveError>) -> Result<Reply, PairError>
    ensures { result ≡ received_reply answer }
{
    match answer {
        Ok(ShouldTransmit(true)) => Ok(Reply::DoneTransmit),
        Ok(ShouldTransmit(false)) => Ok(Reply::Done),
        Err(ReceiveError::OutOfMemory) => Err(PairError::OutOfMemory),
        Err(error) => Ok(Reply::Fault(error)),
    }
}

/// What a payload is replied, of which this is the number, whether memory ran out, and the bytes.
pub fn payload_reply(
    number: usize,
    written: Result<(), OutOfMemory>,
    copy: Result<Vec<u8>, AllocError>,
) -> Result<Reply, PairError>
    ensures { result ≡ payload_reply number written copy }
{
    match (written, copy) {
        (Ok(()), Ok(bytes)) => Ok(Reply::Payload { number, bytes }),
        _ => Err(PairError::OutOfMemory),
    }
}
