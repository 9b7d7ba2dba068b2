//! Acknowledgements and losses of the frames of a stream.

ghost use Rattle.std.specs.Prelude.{◌≡◌, ◌≤◌, ◌<◌, ◌&&◌, ◌||◌, not, is_some, true, IfOk, OnErr, Some};
ghost use Rattle.quic_sending.specs.Sending.{is_ready};
ghost use Rattle.quic_outgoing.specs.Senders.{bare};
ghost use Rattle.quic_outgoing.specs.Seen.{senders, sender_room, sender_in};
ghost use Rattle.quic_outgoing.specs.Acknowledging.{AcksStream, LosesOnStream, MayWantMemory, LossMayWantMemory, is_given_up, without_given_up};
ghost use Rattle.quic_outgoing.specs.Reports.{AcksOn, AcksIn, LosesOn, LosesIn};
ghost use Rattle.quic_outgoing.specs.History.{AckedFrame, LostFrame, ResetAcked, Continues};
ghost use Rattle.quic_outgoing.specs.Shown.{outgoing_view, permit_room};

use crate::closing::queue_at;
use crate::entries::SendEntries;
use crate::outgoing::OutgoingStreams;
use crate::spare::SpareHalves;
use crate::transmitting::take_half;
use quic_sending::Send;
use quic_values::{OutOfMemory, StreamId, VarInt};
use std::ops::Range;

#[tactic(auto, unfolding(crate::specs::Shown::outgoing_view, crate::specs::Shown::permit_room), using(crate::proofs::SenderMaps::sender_steps, crate::proofs::Histories::continues))]
impl OutgoingStreams {
    /// A STREAM frame with these offsets, and with the end or not, was acknowledged (RFC 9000 section 13.3). They are not
    /// sent again, and what is retained no more counts no more for the send window. Answers whether by this the end and
    /// every byte are acknowledged: the half of the stream is then let go.
    ///
    /// The report of a stream that is closed or was reset, or of offsets that were not sent, changes nothing. If refused,
    /// all is as it was. Memory is wanted only for offsets behind a gap, or where nothing was done on the stream.
    pub fn ack(&mut self, id: StreamId, offsets: Range<u64>, fin: bool) -> Result<bool, OutOfMemory>
        ensures acks { AcksStream (outgoing_view self.old) id offsets fin result (outgoing_view self.new) }
        ensures memory { OnErr result (MayWantMemory offsets ((outgoing_view self.old).halves id)) }
        ensures from { Continues (outgoing_view self.old) (AckedFrame id offsets fin result) (outgoing_view self.new) }
        ensures room { permit_room self.old ≤ permit_room self.new }
    {
        self.take_ack(id, offsets, fin)
    }

    // The same, each way out.
    #[inline]
    fn take_ack(
        &mut self,
        id: StreamId,
        offsets: Range<u64>,
        fin: bool,
    ) -> Result<bool, OutOfMemory>
        ensures acks { AcksStream (outgoing_view self.old) id offsets fin result (outgoing_view self.new) }
        ensures memory { OnErr result (MayWantMemory offsets ((outgoing_view self.old).halves id)) }
        ensures room { permit_room self.old ≤ permit_room self.new }
    {
        match self.halves.ack(id, offsets, fin) {
            Err(_) => Err(OutOfMemory),
            Ok(None) => Ok(false),
            Ok(Some(acked)) => {
                self.budget.release(acked.released);
                if acked.is_complete {
                    self.halves.remove(id);
                }
                Ok(acked.is_complete)
            }
        }
    }

    /// A STREAM frame with these offsets, and with the end or not, was lost: those that are not acknowledged are to be
    /// sent again, and the end of a finished stream (RFC 9000 section 13.3). Answers the priority at which the stream is
    /// to be queued, where nothing was to be sent on it before.
    ///
    /// The report of a stream that is closed or was reset, or of offsets that were not sent, changes nothing. If refused,
    /// all is as it was. Memory is wanted only for offsets above the acknowledged prefix, so not for an end alone, or where
    /// nothing was done on the stream.
    pub fn lose(
        &mut self,
        id: StreamId,
        offsets: Range<u64>,
        fin: bool,
    ) -> Result<Option<i32>, OutOfMemory>
        ensures loses { LosesOnStream (outgoing_view self.old) id offsets fin result (outgoing_view self.new) }
        ensures memory { OnErr result (LossMayWantMemory offsets ((outgoing_view self.old).halves id)) }
        ensures from { Continues (outgoing_view self.old) (LostFrame id offsets fin result) (outgoing_view self.new) }
    {
        self.take_loss(id, offsets, fin)
    }

    // The same, each way out.
    #[inline]
    fn take_loss(
        &mut self,
        id: StreamId,
        offsets: Range<u64>,
        fin: bool,
    ) -> Result<Option<i32>, OutOfMemory>
        ensures loses { LosesOnStream (outgoing_view self.old) id offsets fin result (outgoing_view self.new) }
        ensures memory { OnErr result (LossMayWantMemory offsets ((outgoing_view self.old).halves id)) }
    {
        self.halves.lose(id, offsets, fin)
    }

    /// Whether a stream was reset and its half is still held.
    #[inline]
    pub fn is_reset(&self, id: StreamId) -> bool
        ensures { result ≡ is_given_up ((outgoing_view self.now).halves id) }
    {
        self.halves.is_reset(id)
    }

    /// The RESET_STREAM of a stream was acknowledged: the half of one that was reset is let go. Answers whether one was.
    pub fn reset_acked(&mut self, id: StreamId) -> bool
        ensures told { result ≡ is_given_up ((outgoing_view self.old).halves id) }
        ensures without { outgoing_view self.new ≡ without_given_up (outgoing_view self.old) id }
        ensures from { Continues (outgoing_view self.old) (ResetAcked id result) (outgoing_view self.new) }
        ensures room { permit_room self.old ≤ permit_room self.new }
    {
        let given_up = self.is_reset(id);
        if given_up {
            self.halves.remove(id);
        }
        given_up
    }
}

// What the acknowledgement of a frame did to a half.
#[derive(Clone, Copy)]
pub(crate) struct Acked {
    // How many bytes are retained no more.
    released: u64,
    // Whether the end and every byte are acknowledged.
    is_complete: bool,
}

#[tactic(auto, unfolding(crate::specs::Seen::senders))]
impl SendEntries {
    // A frame is acknowledged on the half of a stream, where it lies. `None`: its report does not count.
    #[inline]
    fn ack(
        &mut self,
        id: StreamId,
        offsets: Range<u64>,
        fin: bool,
    ) -> Result<Option<Acked>, OutOfMemory>
        ensures ok { IfOk result (λ acked. AcksIn (senders self.old) id offsets fin acked (senders self.new)) }
        ensures err { OnErr result (senders self.new ≡ senders self.old) }
        ensures memory { OnErr result (MayWantMemory offsets (senders self.old id)) }
        ensures held { OnErr result (is_some (senders self.old id) ≡ true) }
        ensures side { self.new.side ≡ self.old.side }
        ensures first { self.new.first ≡ self.old.first }
        ensures room { sender_room self.new ≡ sender_room self.old }
    {
        let limit = self.first_limit(id);
        match self.entries.get_mut(&id) {
            None => Ok(None),
            Some(entry) => ack_of_entry(&mut self.spare, limit, entry, offsets, fin),
        }
    }

    // A frame is lost of the half of a stream, where it lies. Answers the priority at which the stream is to be queued.
    #[inline]
    fn lose(
        &mut self,
        id: StreamId,
        offsets: Range<u64>,
        fin: bool,
    ) -> Result<Option<i32>, OutOfMemory>
        ensures ok { IfOk result (λ queue. LosesIn (senders self.old) id offsets fin queue (senders self.new)) }
        ensures err { OnErr result (senders self.new ≡ senders self.old) }
        ensures memory { OnErr result (LossMayWantMemory offsets (senders self.old id)) }
        ensures held { OnErr result (is_some (senders self.old id) ≡ true) }
        ensures side { self.new.side ≡ self.old.side }
        ensures first { self.new.first ≡ self.old.first }
        ensures room { sender_room self.new ≡ sender_room self.old }
    {
        let limit = self.first_limit(id);
        match self.entries.get_mut(&id) {
            None => Ok(None),
            Some(entry) => loss_of_entry(&mut self.spare, limit, entry, offsets, fin),
        }
    }
}

// A frame is acknowledged on the half of an entry.
#[inline]
fn ack_of_entry(
    spare: &mut SpareHalves,
    limit: VarInt,
    entry: &mut Option<Box<Send>>,
    offsets: Range<u64>,
    fin: bool,
) -> Result<Option<Acked>, OutOfMemory>
    ensures ok { IfOk result (λ acked. AcksOn offsets fin (sender_in limit entry.old) acked (sender_in limit entry.new)) }
    ensures err { OnErr result (sender_in limit entry.new ≡ sender_in limit entry.old) }
    ensures memory { OnErr result (MayWantMemory offsets (Some (sender_in limit entry.old))) }
{
    let mut half = take_half(spare, limit, entry)?;
    let acked = ack_on(&mut half, offsets, fin);
    *entry = Some(half);
    acked
}

// A frame is acknowledged on a half.
#[inline]
fn ack_on(half: &mut Send, offsets: Range<u64>, fin: bool) -> Result<Option<Acked>, OutOfMemory>
    ensures ok { IfOk result (λ acked. AcksOn offsets fin (bare half.old) acked (bare half.new)) }
    ensures err { OnErr result (half.new ≡ half.old) }
    ensures memory { OnErr result ((half.old.pending.prefix < offsets.start) × (offsets.start < offsets.end)) }
{
    if half.is_reset() || offsets.end > half.pending.unsent() {
        return Ok(None);
    }
    let retained = half.pending.buffered();
    let is_complete = half.ack(offsets, fin)?;
    Ok(Some(Acked {
        released: retained.saturating_sub(half.pending.buffered()),
        is_complete,
    }))
}

// A frame is lost of the half of an entry.
#[inline]
fn loss_of_entry(
    spare: &mut SpareHalves,
    limit: VarInt,
    entry: &mut Option<Box<Send>>,
    offsets: Range<u64>,
    fin: bool,
) -> Result<Option<i32>, OutOfMemory>
    ensures ok { IfOk result (λ queue. LosesOn offsets fin (sender_in limit entry.old) queue (sender_in limit entry.new)) }
    ensures err { OnErr result (sender_in limit entry.new ≡ sender_in limit entry.old) }
    ensures memory { OnErr result (LossMayWantMemory offsets (Some (sender_in limit entry.old))) }
{
    let mut half = take_half(spare, limit, entry)?;
    let queue_at = lose_on(&mut half, offsets, fin);
    *entry = Some(half);
    queue_at
}

// A frame is lost of a half.
#[inline]
fn lose_on(half: &mut Send, offsets: Range<u64>, fin: bool) -> Result<Option<i32>, OutOfMemory>
    ensures ok { IfOk result (λ queue. LosesOn offsets fin half.old queue half.new) }
    ensures err { OnErr result (half.new ≡ half.old) }
    ensures memory { OnErr result ((offsets.start < offsets.end) × (half.old.pending.prefix < offsets.end)) }
{
    if half.is_reset() || offsets.end > half.pending.unsent() {
        return Ok(None);
    }
    let queue_at = queue_at(half);
    let fin_pending = is_end_due(half, fin);
    half.pending.retransmit(offsets)?;
    half.fin_pending = fin_pending;
    Ok(queue_at)
}

// Whether the end of a half is to be sent, once a frame was lost that had it or not.
fn is_end_due(half: &Send, fin: bool) -> bool
    ensures { result ≡ (half.now.fin_pending || (fin && not (is_ready half.now.state))) }
{
    half.fin_pending || (fin && !half.is_writable())
}
