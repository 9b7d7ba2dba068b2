//! The steps that one endpoint takes alone: each is a call of its session.

ghost use Rattle.std.specs.Prelude.{◌≡◌, IfOk, false, is_some, true};
ghost use Rattle.quic_sending.specs.Source.{slice_lists};
ghost use Rattle.quic_streams.specs.Connection.{is_shut};
ghost use Rattle.quic_session.specs.Sessions.{end_of, beside_of};
ghost use Rattle.quic_exchange.specs.Calls.{Opens, Accepts, OnGiven, Writes, WritesChunksOrNone, Finishes, ResetsOn, StopsOn, SetsPriorityOn, AsksReset, ReadsOn, SetsSendWindow, SetsReceiveWindow, SetsMaxConcurrent, Polls};
ghost use Rattle.quic_history.specs.Acknowledged.{was_given};
ghost use Rattle.quic_pair.specs.Calls.{caller_of, EndDoes, DoesStep};
ghost use Rattle.quic_pair.specs.Ends.{AreOpen, OnSession};

use quic_exchange::replies::{
    accepted_reply, chunks_reply, code_reply, done_reply, event_reply, finished_reply,
    handled_reply, opened_reply, read_reply, unwritten_reply,
};
use quic_session::Session;
use quic_steps::{End, PairError, Reply, Step};
use quic_values::{Bytes, ChunkList, Dir, OutOfMemory, StreamId, VarInt};
use std::alloc::Global;

/// The endpoint that takes a step alone. `None` for steps on payloads and for those that decide on early data.
pub(crate) fn caller_of(step: &Step) -> Option<End>
    ensures { result ≡ caller_of step.now }
{
    match step {
        Step::Open { who, .. }
        | Step::Accept { who, .. }
        | Step::Write { who, .. }
        | Step::WriteChunks { who, .. }
        | Step::Finish { who, .. }
        | Step::Reset { who, .. }
        | Step::Stop { who, .. }
        | Step::SetPriority { who, .. }
        | Step::Read { who, .. }
        | Step::ReceivedReset { who, .. }
        | Step::SetSendWindow { who, .. }
        | Step::SetReceiveWindow { who, .. }
        | Step::SetMaxConcurrent { who, .. }
        | Step::Poll { who } => Some(*who),
        Step::Emit { .. }
        | Step::EmitPart { .. }
        | Step::Deliver { .. }
        | Step::Lose { .. }
        | Step::Ack { .. }
        | Step::EarlyAccept
        | Step::EarlyReject
        | Step::Retry => None,
    }
}

// Makes the call that a step is, at the session of its endpoint.
fn call(end: &mut Session, alloc: Global, step: Step) -> Result<Reply, PairError>
    requires open { is_shut end.old.conn ≡ false }
    requires alone { is_some (caller_of step) ≡ true }
    ensures does { EndDoes step (end_of end.old) result (end_of end.new) }
    ensures beside { beside_of end.new ≡ beside_of end.old }
{
    match step {
        Step::Open { dir, .. } => open(end, dir),
        Step::Accept { dir, .. } => accepted_reply(end.accept(dir)),
        Step::Write { id, bytes, .. } => write(end, id, &bytes),
        Step::WriteChunks { id, chunks, .. } => write_chunks(end, alloc, id, &chunks),
        Step::Finish { id, .. } => finish(end, id),
        Step::Reset { id, code, .. } => reset(end, id, code),
        Step::Stop { id, code, .. } => stop(end, id, code),
        Step::SetPriority { id, priority, .. } => set_priority(end, id, priority),
        Step::Read {
            id,
            ordered,
            max,
            times,
            ..
        } => read(end, id, ordered, max, times),
        Step::ReceivedReset { id, .. } => received_reset(end, id),
        Step::SetSendWindow { window, .. } => set_send_window(end, window),
        Step::SetReceiveWindow { window, .. } => Ok(Reply::Expanded(end.set_receive_window(
            window,
        ))),
        Step::SetMaxConcurrent { dir, count, .. } => done_reply(end.set_max_concurrent(dir, count)),
        Step::Poll { .. } => event_reply(end.poll()),
        Step::Emit { .. }
        | Step::EmitPart { .. }
        | Step::Deliver { .. }
        | Step::Lose { .. }
        | Step::Ack { .. }
        | Step::EarlyAccept
        | Step::EarlyReject
        | Step::Retry => unreachable!(),
    }
}

/// Makes the call at one of two sessions.
pub(crate) fn call_on(
    a: &mut Session,
    b: &mut Session,
    alloc: Global,
    who: End,
    step: Step,
) -> Result<Reply, PairError>
    requires open { AreOpen a.old b.old }
    requires alone { is_some (caller_of step) ≡ true }
    ensures { OnSession (DoesStep step result) who a.old b.old a.new b.new }
{
    match who {
        End::A => call(a, alloc, step),
        End::B => call(b, alloc, step),
    }
}

fn open(end: &mut Session, dir: Dir) -> Result<Reply, PairError>
    requires { is_shut end.old.conn ≡ false }
    ensures does { Opens (end_of end.old) dir result (end_of end.new) }
    ensures beside { beside_of end.new ≡ beside_of end.old }
{
    opened_reply(end.open(dir))
}

fn write(end: &mut Session, id: StreamId, bytes: &Bytes) -> Result<Reply, PairError>
    requires { is_shut end.old.conn ≡ false }
    ensures does { OnGiven (end_of end.old) id result (end_of end.new) (Writes (end_of end.old) id (slice_lists bytes.now) result (end_of end.new)) }
    ensures beside { beside_of end.new ≡ beside_of end.old }
{
    if !end.streams().was_given(id) {
        return Err(PairError::UnknownId);
    }
    write_known(end, id, bytes)
}

// Writes to a stream that the application was given.
fn write_known(end: &mut Session, id: StreamId, bytes: &Bytes) -> Result<Reply, PairError>
    requires open { is_shut end.old.conn ≡ false }
    requires given { was_given (end_of end.old).streams id ≡ true }
    ensures does { Writes (end_of end.old) id (slice_lists bytes.now) result (end_of end.new) }
    ensures beside { beside_of end.new ≡ beside_of end.old }
{
    match end.write(id, bytes.as_slice()) {
        Ok(count) => Ok(Reply::Wrote(count)),
        Err(error) => unwritten_reply(error),
    }
}

fn write_chunks(
    end: &mut Session,
    alloc: Global,
    id: StreamId,
    chunks: &ChunkList,
) -> Result<Reply, PairError>
    requires { is_shut end.old.conn ≡ false }
    ensures does { OnGiven (end_of end.old) id result (end_of end.new) (WritesChunksOrNone (end_of end.old) id chunks.now result (end_of end.new)) }
    ensures beside { beside_of end.new ≡ beside_of end.old }
{
    if !end.streams().was_given(id) {
        return Err(PairError::UnknownId);
    }
    let mut copies = copies_of(alloc, chunks)?;
    chunks_reply(end.write_chunks(id, &mut copies))
}

// The chunks, each by itself.
fn copies_of(alloc: Global, chunks: &ChunkList) -> Result<Vec<Bytes>, OutOfMemory>
    ensures { IfOk result (λ copies. copies.items ≡ chunks.now) }
{
    let mut copies = Vec::with_capacity(alloc, chunks.len())?;
    for index in 0..chunks.len() {
        if let Some(chunk) = chunks.get(index) {
            copies.push(Bytes::copy_from_slice(alloc, chunk)?)?;
        }
    }
    Ok(copies)
}

fn finish(end: &mut Session, id: StreamId) -> Result<Reply, PairError>
    ensures does { OnGiven (end_of end.old) id result (end_of end.new) (Finishes (end_of end.old) id result (end_of end.new)) }
    ensures beside { beside_of end.new ≡ beside_of end.old }
{
    if !end.streams().was_given(id) {
        return Err(PairError::UnknownId);
    }
    finished_reply(end.finish(id))
}

fn reset(end: &mut Session, id: StreamId, code: VarInt) -> Result<Reply, PairError>
    ensures does { OnGiven (end_of end.old) id result (end_of end.new) (ResetsOn (end_of end.old) id code result (end_of end.new)) }
    ensures beside { beside_of end.new ≡ beside_of end.old }
{
    if !end.streams().was_given(id) {
        return Err(PairError::UnknownId);
    }
    handled_reply(end.reset(id, code))
}

fn stop(end: &mut Session, id: StreamId, code: VarInt) -> Result<Reply, PairError>
    ensures does { OnGiven (end_of end.old) id result (end_of end.new) (StopsOn (end_of end.old) id code result (end_of end.new)) }
    ensures beside { beside_of end.new ≡ beside_of end.old }
{
    if !end.streams().was_given(id) {
        return Err(PairError::UnknownId);
    }
    handled_reply(end.stop(id, code))
}

fn set_priority(end: &mut Session, id: StreamId, priority: i32) -> Result<Reply, PairError>
    ensures does { OnGiven (end_of end.old) id result (end_of end.new) (SetsPriorityOn (end_of end.old) id priority result (end_of end.new)) }
    ensures beside { beside_of end.new ≡ beside_of end.old }
{
    if !end.streams().was_given(id) {
        return Err(PairError::UnknownId);
    }
    handled_reply(end.set_priority(id, priority))
}

fn received_reset(end: &mut Session, id: StreamId) -> Result<Reply, PairError>
    ensures does { OnGiven (end_of end.old) id result (end_of end.new) (AsksReset (end_of end.old) id result (end_of end.new)) }
    ensures beside { beside_of end.new ≡ beside_of end.old }
{
    if !end.streams().was_given(id) {
        return Err(PairError::UnknownId);
    }
    code_reply(end.received_reset(id))
}

fn read(
    end: &mut Session,
    id: StreamId,
    ordered: bool,
    max: usize,
    times: u16,
) -> Result<Reply, PairError>
    ensures does { OnGiven (end_of end.old) id result (end_of end.new) (ReadsOn (end_of end.old) id ordered max times result (end_of end.new)) }
    ensures beside { beside_of end.new ≡ beside_of end.old }
{
    if !end.streams().was_given(id) {
        return Err(PairError::UnknownId);
    }
    read_reply(end.read(id, ordered, max, times))
}

fn set_send_window(end: &mut Session, window: u64) -> Result<Reply, PairError>
    ensures does { SetsSendWindow (end_of end.old) window result (end_of end.new) }
    ensures beside { beside_of end.new ≡ beside_of end.old }
{
    end.set_send_window(window);
    Ok(Reply::Done)
}
