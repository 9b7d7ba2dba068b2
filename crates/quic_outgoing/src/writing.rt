//! Writes on a stream.

ghost use Rattle.std.specs.Prelude.{◌≡◌, ◌≤◌, ◌<◌, is_some, true, false, Some, None, Err, IfOk, IfErr, OnErr};
ghost use Rattle.quic_sending.specs.Sending.{write_refusal};
ghost use Rattle.quic_retransmits.specs.Pending.{pending_view};
ghost use Rattle.quic_outgoing.specs.Senders.{bare, first_limit};
ghost use Rattle.quic_outgoing.specs.Outgoing.{is_stuck, with_send_half};
ghost use Rattle.quic_outgoing.specs.Calls.{MakesRoomAt, MayMakeRoom};
ghost use Rattle.quic_outgoing.specs.Seen.{senders, sender_room, sender_in};
ghost use Rattle.quic_outgoing.specs.Writing.{WritesOn, RefusesWrite, TakesBytes, TakesBytesIn, IsRefusedBy, refusal_of_write, lasting_refusal, refusal_to_stay};
ghost use Rattle.quic_outgoing.specs.History.{Writing, Continues};
ghost use Rattle.quic_outgoing.specs.Shown.{outgoing_view, permit_room};

use crate::closing::{queue_at, reserve_for};
use crate::entries::{SendEntries, greater};
use crate::outgoing::OutgoingStreams;
use crate::spare::SpareHalves;
use crate::transmitting::take_half;
use crate::waiting::join_waiting;
use quic_queue::SendQueue;
use quic_retransmits::Retransmits;
use quic_sending::{BytesSource, Send, WriteError, Written};
use quic_values::{StreamId, VarInt};

/// What a write took, and what is to be queued for it.
#[derive(Clone, Copy, Debug, PartialEq, Eq)]
pub struct Wrote {
    /// How many bytes and chunks were taken.
    pub written: Written,
    /// The priority at which the stream is to be queued. `None`: something was to be sent on it before, so that it is
    /// queued already.
    pub queue_at: Option<i32>,
}

#[tactic(auto, unfolding(crate::specs::Shown::outgoing_view, crate::specs::Shown::permit_room), using(crate::proofs::SenderMaps::sender_steps))]
impl OutgoingStreams {
    /// Writes the first bytes of a source on a stream: the least of what it has, of what may be written on all streams,
    /// and of what the limit of the stream leaves. Without bytes it takes none, where there is room.
    ///
    /// Where nothing may be written on any stream, the stream waits (see [`OutgoingStreams::poll_writable`]), and
    /// DATA_BLOCKED is queued once for each limit (RFC 9000 section 19.12). Where the limit of the stream leaves nothing,
    /// STREAM_DATA_BLOCKED is queued once for each limit (section 19.13). Other refusals change nothing: the stream is
    /// closed, or the peer stopped it, or memory runs out.
    ///
    /// Where the stream is to be queued, room for it was made in `queue` at its priority: such room may stay there where the
    /// write is refused. Nothing else of the queue changes.
    #[inline]
    pub fn write<S: BytesSource>(
        &mut self,
        pending: &mut Retransmits,
        queue: &mut SendQueue,
        id: StreamId,
        source: &mut S,
    ) -> Result<Wrote, WriteError>
        ensures writes { WritesOn (outgoing_view self.old) id (S.lists source.old) (pending_view pending.old) result (outgoing_view self.new) (S.lists source.new) (pending_view pending.new) }
        ensures memory { result ≡ Err WriteError.OutOfMemory → refusal_to_stay (outgoing_view self.old) ((outgoing_view self.old).halves id) ≡ None }
        ensures queue { IfOk result (λ wrote. MakesRoomAt queue.old wrote.queue_at queue.new) }
        ensures refused { OnErr result (MayMakeRoom ((outgoing_view self.old).halves id) queue.old queue.new) }
        ensures borrow { S.borrow source.new ≡ S.borrow source.old }
        ensures list_count { S.list_count source.new ≡ S.list_count source.old }
        ensures from { Continues (outgoing_view self.old) (Writing id (S.lists source.old) result) (outgoing_view self.new) }
    {
        self.write_source(pending, queue, id, source)
    }

    // The same, each way out.
    #[inline]
    fn write_source<S: BytesSource>(
        &mut self,
        pending: &mut Retransmits,
        queue: &mut SendQueue,
        id: StreamId,
        source: &mut S,
    ) -> Result<Wrote, WriteError>
        ensures writes { WritesOn (outgoing_view self.old) id (S.lists source.old) (pending_view pending.old) result (outgoing_view self.new) (S.lists source.new) (pending_view pending.new) }
        ensures memory { result ≡ Err WriteError.OutOfMemory → refusal_to_stay (outgoing_view self.old) ((outgoing_view self.old).halves id) ≡ None }
        ensures queue { IfOk result (λ wrote. MakesRoomAt queue.old wrote.queue_at queue.new) }
        ensures refused { OnErr result (MayMakeRoom ((outgoing_view self.old).halves id) queue.old queue.new) }
        ensures borrow { S.borrow source.new ≡ S.borrow source.old }
        ensures list_count { S.list_count source.new ≡ S.list_count source.old }
    {
        let limit = self.write_limit();
        if limit == 0 {
            return Err(self.wait(pending, id));
        }
        match self.halves.write(id, queue, source, limit) {
            Ok(wrote) => {
                self.budget.sent(wrote.written.bytes as u64);
                Ok(wrote)
            }
            Err(WriteError::Blocked) => Err(self.block(pending, id)),
            Err(error) => Err(error),
        }
    }

    // Nothing may be written on any stream: this one waits, and the peer is told. Answers why nothing is taken.
    fn wait(&mut self, pending: &mut Retransmits, id: StreamId) -> WriteError
        requires { is_stuck (outgoing_view self.old) ≡ true }
        ensures refuses { RefusesWrite (outgoing_view self.old) id (pending_view pending.old) result (outgoing_view self.new) (pending_view pending.new) }
        ensures memory { result ≡ WriteError.OutOfMemory → is_some ((outgoing_view self.old).halves id) ≡ true }
    {
        if self.blocked.reserve(1).is_err() {
            if self.halves.is_held(id) {
                return WriteError::OutOfMemory;
            }
            return WriteError::ClosedStream;
        }
        match self.halves.wait(id) {
            Err(_) => WriteError::OutOfMemory,
            Ok(None) => WriteError::ClosedStream,
            Ok(Some(joins)) => {
                join_waiting(&mut self.blocked, id, joins);
                pending.queue_data_blocked(self.budget.note_blocked());
                WriteError::Blocked
            }
        }
    }

    // The limit of a stream leaves nothing, and the peer is told. Answers why nothing is taken.
    fn block(&mut self, pending: &mut Retransmits, id: StreamId) -> WriteError
        requires some { is_stuck (outgoing_view self.old) ≡ false }
        requires blocked { refusal_of_write (outgoing_view self.old) ((outgoing_view self.old).halves id) ≡ Some WriteError.Blocked }
        ensures { RefusesWrite (outgoing_view self.old) id (pending_view pending.old) result (outgoing_view self.new) (pending_view pending.new) }
    {
        match self.halves.take(id) {
            Err(_) => WriteError::OutOfMemory,
            Ok(None) => WriteError::ClosedStream,
            Ok(Some(half)) => self.block_half(pending, id, half),
        }
    }

    // The same, with the half that was taken out.
    fn block_half(&mut self, pending: &mut Retransmits, id: StreamId, half: Box<Send>) -> WriteError
        requires there { is_some ((outgoing_view self.old).halves id) ≡ true }
        requires held { first_limit (outgoing_view self.old).side (outgoing_view self.old).first id ≤ half.value.max_data }
        requires some { is_stuck (outgoing_view self.old) ≡ false }
        requires blocked { write_refusal half.value ≡ Some WriteError.Blocked }
        ensures { RefusesWrite (with_send_half (outgoing_view self.old) id (Some (bare half.value))) id (pending_view pending.old) result (outgoing_view self.new) (pending_view pending.new) }
    {
        let mut half = half;
        let limit = half.max_data.into_inner();
        let told = match half.data_blocked_limit {
            Some(at) => at == limit,
            None => false,
        };
        if !told && pending.reserve_stream_blocked(id).is_err() {
            self.halves.put(id, half);
            return WriteError::OutOfMemory;
        }
        half.data_blocked_limit = Some(limit);
        self.halves.put(id, half);
        pending.queue_stream_blocked(id, !told);
        WriteError::Blocked
    }
}

#[tactic(auto, unfolding(crate::specs::Seen::senders))]
impl SendEntries {
    // Whether a half is held.
    fn is_held(&self, id: StreamId) -> bool
        ensures { result ≡ is_some (senders self.now id) }
    {
        self.entries.get(&id).is_some()
    }

    // Writes on the half of a stream, where it lies. If refused, nothing changes but the room in the queue.
    #[inline]
    fn write<S: BytesSource>(
        &mut self,
        id: StreamId,
        queue: &mut SendQueue,
        source: &mut S,
        limit: u64,
    ) -> Result<Wrote, WriteError>
        ensures ok { IfOk result (λ wrote. TakesBytesIn limit (senders self.old) id (S.lists source.old) wrote (S.lists source.new) (senders self.new)) }
        ensures err { IfErr result (λ error. IsRefusedBy (senders self.old id) error) }
        ensures memory { result ≡ Err WriteError.OutOfMemory → lasting_refusal (senders self.old id) ≡ None }
        ensures queue { IfOk result (λ wrote. MakesRoomAt queue.old wrote.queue_at queue.new) }
        ensures refused { OnErr result (MayMakeRoom (senders self.old id) queue.old queue.new) }
        ensures halves { OnErr result (senders self.new ≡ senders self.old) }
        ensures lists { OnErr result (S.lists source.new ≡ S.lists source.old) }
        ensures borrow { S.borrow source.new ≡ S.borrow source.old }
        ensures list_count { S.list_count source.new ≡ S.list_count source.old }
        ensures side { self.new.side ≡ self.old.side }
        ensures first { self.new.first ≡ self.old.first }
        ensures room { sender_room self.new ≡ sender_room self.old }
    {
        let first_limit = self.first_limit(id);
        match self.entries.get_mut(&id) {
            None => Err(WriteError::ClosedStream),
            Some(entry) => write_of_entry(
                &mut self.spare,
                first_limit,
                entry,
                queue,
                source,
                limit,
            ),
        }
    }
}

// Why nothing may be written on a half whatever its limits become, if so.
fn refusal_of_half(half: &Send) -> Option<WriteError>
    ensures { result ≡ lasting_refusal (Some half.now) }
{
    if !half.is_writable() {
        return Some(WriteError::ClosedStream);
    }
    match half.stop_reason {
        Some(code) => Some(WriteError::Stopped(code)),
        None => None,
    }
}

// Writes on the half of an entry. If refused, nothing changes but the room in the queue.
#[inline]
fn write_of_entry<S: BytesSource>(
    spare: &mut SpareHalves,
    first_limit: VarInt,
    entry: &mut Option<Box<Send>>,
    queue: &mut SendQueue,
    source: &mut S,
    limit: u64,
) -> Result<Wrote, WriteError>
    ensures ok { IfOk result (λ wrote. TakesBytes limit (sender_in first_limit entry.old) (S.lists source.old) wrote (S.lists source.new) (sender_in first_limit entry.new)) }
    ensures err { IfErr result (λ error. IsRefusedBy (Some (sender_in first_limit entry.old)) error) }
    ensures memory { result ≡ Err WriteError.OutOfMemory → lasting_refusal (Some (sender_in first_limit entry.old)) ≡ None }
    ensures queue { IfOk result (λ wrote. MakesRoomAt queue.old wrote.queue_at queue.new) }
    ensures refused { OnErr result (MayMakeRoom (Some (sender_in first_limit entry.old)) queue.old queue.new) }
    ensures half { OnErr result (sender_in first_limit entry.new ≡ sender_in first_limit entry.old) }
    ensures lists { OnErr result (S.lists source.new ≡ S.lists source.old) }
    ensures borrow { S.borrow source.new ≡ S.borrow source.old }
    ensures list_count { S.list_count source.new ≡ S.list_count source.old }
{
    let mut half = take_half(spare, first_limit, entry)?;
    half.max_data = greater(half.max_data, first_limit);
    let wrote = write_on(&mut half, queue, source, limit);
    *entry = Some(half);
    wrote
}

// Writes on a half. If refused, nothing changes but the room for further pieces and in the queue.
#[inline]
fn write_on<S: BytesSource>(
    half: &mut Send,
    queue: &mut SendQueue,
    source: &mut S,
    limit: u64,
) -> Result<Wrote, WriteError>
    ensures ok { IfOk result (λ wrote. TakesBytes limit half.old (S.lists source.old) wrote (S.lists source.new) half.new) }
    ensures err { IfErr result (λ error. IsRefusedBy (Some half.old) error) }
    ensures memory { result ≡ Err WriteError.OutOfMemory → lasting_refusal (Some half.old) ≡ None }
    ensures queue { IfOk result (λ wrote. MakesRoomAt queue.old wrote.queue_at queue.new) }
    ensures refused { OnErr result (MayMakeRoom (Some half.old) queue.old queue.new) }
    ensures half { OnErr result (bare half.new ≡ bare half.old) }
    ensures lists { OnErr result (S.lists source.new ≡ S.lists source.old) }
    ensures borrow { S.borrow source.new ≡ S.borrow source.old }
    ensures list_count { S.list_count source.new ≡ S.list_count source.old }
{
    let queue_at = queue_at(half);
    if let Err(refused) = reserve_for(queue, queue_at) {
        // (a refusal that stays comes first)
        return Err(refusal_of_half(half).unwrap_or(WriteError::from(refused)));
    }
    let written = half.write(source, limit)?;
    Ok(Wrote { written, queue_at })
}
