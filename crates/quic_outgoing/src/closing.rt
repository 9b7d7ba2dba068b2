//! The end of a stream, and its priority.

ghost use Rattle.std.specs.Prelude.{◌≡◌, ◌≤◌, ◌<◌, Some, None, Err, is_some, true, false, IfOk, IfErr, OnOk, OnErr};
ghost use Rattle.quic_sending.specs.Sending.{finish_refusal};
ghost use Rattle.quic_outgoing.specs.History.{Finished, Reset, SetPriority, Continues};
ghost use Rattle.quic_retransmits.specs.Pending.{pending_view};
ghost use Rattle.quic_outgoing.specs.Seen.{senders, sender_room, sender_in};
ghost use Rattle.quic_outgoing.specs.Calls.{QueuesAt, QueuesStreamAt, EndsHalf, EndsHalfIn, IsEndRefused, MakesRoomAt, MayMakeRoom, FinishesStream, ResetsStream, SetsPriority, told_of_half, end_refusal, is_reset_or_gone};
ghost use Rattle.quic_outgoing.specs.Shown.{outgoing_view, permit_room};

use crate::entries::SendEntries;
use crate::outgoing::OutgoingStreams;
use crate::spare::SpareHalves;
use crate::transmitting::take_half;
use quic_queue::SendQueue;
use quic_retransmits::Retransmits;
use quic_sending::{ClosedStream, FinishError, HandleError, Send};
use quic_values::{OutOfMemory, StreamId, VarInt};

#[tactic(auto, unfolding(crate::specs::Shown::outgoing_view, crate::specs::Shown::permit_room), using(crate::proofs::SenderMaps::sender_steps, crate::proofs::Histories::continues))]
impl OutgoingStreams {
    /// Ends a stream: its end is to be sent, and nothing more is written. Answers the priority at which it is to be
    /// queued, where nothing was to be sent on it before: room for it was made in `queue` at that priority. If refused, all
    /// is as it was, but that such room may stay in the queue.
    pub fn finish(
        &mut self,
        queue: &mut SendQueue,
        id: StreamId,
    ) -> Result<Option<i32>, FinishError>
        ensures finishes { FinishesStream (outgoing_view self.old) id result (outgoing_view self.new) }
        ensures memory { result ≡ Err FinishError.OutOfMemory → end_refusal ((outgoing_view self.old).halves id) ≡ None }
        ensures queue { IfOk result (λ queue_at. MakesRoomAt queue.old queue_at queue.new) }
        ensures refused { OnErr result (MayMakeRoom ((outgoing_view self.old).halves id) queue.old queue.new) }
        ensures from { Continues (outgoing_view self.old) (Finished id result) (outgoing_view self.new) }
    {
        self.halves.finish(id, queue)
    }

    /// Gives a stream up: what is retained of it is let go, and RESET_STREAM is queued with this code (RFC 9000 section
    /// 19.4). A stream that was reset is closed. If refused, all is as it was.
    pub fn reset(
        &mut self,
        pending: &mut Retransmits,
        id: StreamId,
        error_code: VarInt,
    ) -> Result<(), HandleError>
        ensures resets { ResetsStream (outgoing_view self.old) id error_code (pending_view pending.old) result (outgoing_view self.new) (pending_view pending.new) }
        ensures memory { result ≡ Err HandleError.OutOfMemory → is_reset_or_gone ((outgoing_view self.old).halves id) ≡ false }
        ensures from { Continues (outgoing_view self.old) (Reset id error_code result) (outgoing_view self.new) }
    {
        self.give_up(pending, id, error_code)
    }

    // The same, each way out.
    fn give_up(
        &mut self,
        pending: &mut Retransmits,
        id: StreamId,
        error_code: VarInt,
    ) -> Result<(), HandleError>
        ensures resets { ResetsStream (outgoing_view self.old) id error_code (pending_view pending.old) result (outgoing_view self.new) (pending_view pending.new) }
        ensures memory { result ≡ Err HandleError.OutOfMemory → is_reset_or_gone ((outgoing_view self.old).halves id) ≡ false }
    {
        match self.halves.take(id) {
            Err(_) => Err(HandleError::OutOfMemory),
            Ok(None) => Err(HandleError::ClosedStream),
            Ok(Some(half)) => {
                let mut half = half;
                if half.is_reset() {
                    self.halves.put(id, half);
                    return Err(HandleError::ClosedStream);
                }
                if pending.reserve_reset().is_err() {
                    self.halves.put(id, half);
                    return Err(HandleError::OutOfMemory);
                }
                let retained = half.pending.buffered();
                half.reset();
                self.halves.put(id, half);
                self.budget.release(retained);
                pending.queue_reset(id, error_code);
                Ok(())
            }
        }
    }

    /// Sets the priority at which a stream is queued from now on: a higher one is sent first.
    pub fn set_priority(&mut self, id: StreamId, priority: i32) -> Result<(), HandleError>
        ensures sets { SetsPriority (outgoing_view self.old) id priority result (outgoing_view self.new) }
        ensures memory { result ≡ Err HandleError.OutOfMemory → is_some ((outgoing_view self.old).halves id) ≡ true }
        ensures from { Continues (outgoing_view self.old) (SetPriority id priority result) (outgoing_view self.new) }
    {
        match self.halves.take(id) {
            Err(_) => Err(HandleError::OutOfMemory),
            Ok(None) => Err(HandleError::ClosedStream),
            Ok(Some(half)) => {
                let mut half = half;
                half.priority = priority;
                self.halves.put(id, half);
                Ok(())
            }
        }
    }

    /// The priority of a stream: the one that was set last, at first 0.
    pub fn priority(&self, id: StreamId) -> Result<i32, ClosedStream>
        ensures { result ≡ told_of_half (λ s. s.priority) ((outgoing_view self.now).halves id) }
    {
        self.halves.priority(id)
    }

    /// The priority at which a stream is to be queued where something comes to be sent on it. `None`: something is already,
    /// or the stream is not held.
    #[inline]
    pub fn queue_place(&self, id: StreamId) -> Option<i32>
        ensures { QueuesStreamAt ((outgoing_view self.now).halves id) result }
    {
        self.halves.queue_place(id)
    }
}

#[tactic(auto, unfolding(crate::specs::Seen::senders))]
impl SendEntries {
    // Ends a stream, on its half where that lies. If refused, nothing changes but the room in the queue.
    #[inline]
    fn finish(&mut self, id: StreamId, queue: &mut SendQueue) -> Result<Option<i32>, FinishError>
        ensures ok { IfOk result (λ queue. EndsHalfIn (senders self.old) id queue (senders self.new)) }
        ensures err { IfErr result (λ error. IsEndRefused (senders self.old id) error) }
        ensures memory { result ≡ Err FinishError.OutOfMemory → end_refusal (senders self.old id) ≡ None }
        ensures queue { IfOk result (λ queue_at. MakesRoomAt queue.old queue_at queue.new) }
        ensures refused { OnErr result (MayMakeRoom (senders self.old id) queue.old queue.new) }
        ensures halves { OnErr result (senders self.new ≡ senders self.old) }
        ensures side { self.new.side ≡ self.old.side }
        ensures first { self.new.first ≡ self.old.first }
        ensures room { sender_room self.new ≡ sender_room self.old }
    {
        let limit = self.first_limit(id);
        match self.entries.get_mut(&id) {
            None => Err(FinishError::ClosedStream),
            Some(entry) => finish_entry(&mut self.spare, limit, entry, queue),
        }
    }

    // The priority at which a stream is to be queued, where nothing is to be sent on it.
    #[inline]
    fn queue_place(&self, id: StreamId) -> Option<i32>
        ensures { QueuesStreamAt (senders self.now id) result }
    {
        match self.entries.get(&id) {
            None => None,
            Some(None) => Some(0),
            Some(Some(half)) => queue_at(half),
        }
    }
}

// Why a half cannot be finished, if so.
fn refusal_of_end(half: &Send) -> Option<FinishError>
    ensures { result ≡ finish_refusal half.now }
{
    if let Some(code) = half.stop_reason {
        return Some(FinishError::Stopped(code));
    }
    if half.is_writable() {
        return None;
    }
    Some(FinishError::ClosedStream)
}

// Ends the stream of an entry. If refused, nothing changes but the room in the queue.
#[inline]
fn finish_entry(
    spare: &mut SpareHalves,
    limit: VarInt,
    entry: &mut Option<Box<Send>>,
    queue: &mut SendQueue,
) -> Result<Option<i32>, FinishError>
    ensures ok { IfOk result (λ queue. EndsHalf (sender_in limit entry.old) queue (sender_in limit entry.new)) }
    ensures err { IfErr result (λ error. IsEndRefused (Some (sender_in limit entry.old)) error) }
    ensures memory { result ≡ Err FinishError.OutOfMemory → finish_refusal (sender_in limit entry.old) ≡ None }
    ensures queue { IfOk result (λ queue_at. MakesRoomAt queue.old queue_at queue.new) }
    ensures refused { OnErr result (MayMakeRoom (Some (sender_in limit entry.old)) queue.old queue.new) }
    ensures half { OnErr result (sender_in limit entry.new ≡ sender_in limit entry.old) }
{
    let mut half = take_half(spare, limit, entry)?;
    let answer = finish_half(&mut half, queue);
    *entry = Some(half);
    answer
}

// Ends a half. If refused, nothing changes but the room in the queue.
#[inline]
fn finish_half(half: &mut Send, queue: &mut SendQueue) -> Result<Option<i32>, FinishError>
    ensures ok { IfOk result (λ queue. EndsHalf half.old queue half.new) }
    ensures err { IfErr result (λ error. IsEndRefused (Some half.old) error) }
    ensures memory { result ≡ Err FinishError.OutOfMemory → finish_refusal half.old ≡ None }
    ensures half { OnErr result (half.new ≡ half.old) }
    ensures queue { IfOk result (λ queue_at. MakesRoomAt queue.old queue_at queue.new) }
    ensures refused { OnErr result (MayMakeRoom (Some half.old) queue.old queue.new) }
{
    let queue_at = queue_at(half);
    if let Err(refused) = reserve_for(queue, queue_at) {
        // (a refusal that stays comes first)
        return Err(refusal_of_end(half).unwrap_or(FinishError::from(refused)));
    }
    half.finish()?;
    Ok(queue_at)
}

// Makes room in the queue at a priority, where that is asked for. If refused, nothing changes.
#[inline]
pub(crate) fn reserve_for(queue: &mut SendQueue, queue_at: Option<i32>) -> Result<(), OutOfMemory>
    ensures ok { OnOk result (MakesRoomAt queue.old queue_at queue.new) }
    ensures err { OnErr result (queue.new ≡ queue.old) }
{
    match queue_at {
        Some(priority) => queue.reserve(priority),
        None => Ok(()),
    }
}

// The priority at which a stream is to be queued, where nothing was to be sent on it.
pub(crate) fn queue_at(half: &Send) -> Option<i32>
    ensures { QueuesAt half.now result }
{
    if half.is_pending() {
        None
    } else {
        Some(half.priority)
    }
}
