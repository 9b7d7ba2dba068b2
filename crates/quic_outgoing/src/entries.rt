//! The send halves of a connection's streams.

ghost use Rattle.std.specs.Prelude.{ℕ, ◌≡◌, ◌+◌, ◌<◌, ◌≤◌, Some, None, IfOk, IfSome, IfNone, OnOk, OnErr, IsOk, is_some, true, false, max};
ghost use Rattle.std.specs.Option.{option_map};
ghost use Rattle.quic_outgoing.specs.Senders.{bare, new_sender, with_sender, first_limit, first_for, are_one_end, is_local, no_limits, joined, raised_by};
ghost use Rattle.quic_outgoing.specs.Calls.{told_of_half, blocked_limit, can_take};
ghost use Rattle.quic_outgoing.specs.Acknowledging.{is_given_up};
ghost use Rattle.quic_outgoing.specs.Early.{of_peer_anew, own_unsent, has_content, as_unsent, NoneAcked, KeepsAcked, QueuesUnsent};
ghost use Rattle.quic_outgoing.specs.Seen.{unsent_box, IsAckedAt};
ghost use Rattle.quic_outgoing.specs.Seen.{senders, sender_room};
ghost use Rattle.quic_sending.specs.Buffer.{is_acked};
ghost use Rattle.quic_sending.specs.Sending.{is_reset_sent};

use crate::closing::queue_at;
use crate::spare::SpareHalves;
use quic_sending::{ClosedStream, Send};
use quic_values::{Dir, OutOfMemory, Side, StreamId, VarInt};
use std::alloc::Global;
use std::collections::HashMap;

/// How many bytes the peer permits on a stream at first (RFC 9000 section 18.2).
#[derive(Clone, Copy, Debug, PartialEq, Eq)]
pub struct FirstLimits {
    /// On a unidirectional stream.
    pub uni: VarInt,
    /// On a bidirectional stream that this end opens.
    pub own_bi: VarInt,
    /// On a bidirectional stream that the peer opens.
    pub peer_bi: VarInt,
}

impl FirstLimits {
    /// None was given: nothing may be sent.
    pub(crate) fn none() -> Self
        ensures { result ≡ no_limits }
    {
        FirstLimits {
            uni: VarInt::new(0),
            own_bi: VarInt::new(0),
            peer_bi: VarInt::new(0),
        }
    }

    // The greater one of each.
    fn joined(self, other: FirstLimits) -> FirstLimits
        ensures { result ≡ joined self other }
    {
        FirstLimits {
            uni: greater(self.uni, other.uni),
            own_bi: greater(self.own_bi, other.own_bi),
            peer_bi: greater(self.peer_bi, other.peer_bi),
        }
    }

    // The one for streams of a direction, of this end or of the peer.
    pub(crate) fn of(self, local: bool, dir: Dir) -> VarInt
        ensures { result ≡ first_for local dir self }
    {
        match dir {
            Dir::Uni => self.uni,
            Dir::Bi => { if local { self.own_bi } else { self.peer_bi } }
        }
    }
}

// The greater number.
pub(crate) fn greater(a: VarInt, b: VarInt) -> VarInt
    ensures { result ≡ max a b }
{
    if a.into_inner() < b.into_inner() {
        b
    } else {
        a
    }
}

/// The send halves of the streams that are open, or that the peer may open. One to which nothing was written takes no
/// memory of its own.
#[derive(Drop)]
pub struct SendEntries {
    pub(crate) alloc: Global,
    side: Side,
    // The limits that streams begin with. Each half has at least its own.
    first: FirstLimits,
    // `None` is a half to which nothing was written.
    pub(crate) entries: HashMap<StreamId, Option<Box<Send>>>,
    pub(crate) spare: SpareHalves,
}

#[tactic(auto, unfolding(crate::specs::Seen::senders, crate::specs::Senders::with_sender))]
impl SendEntries {
    /// No halves. Takes no memory.
    pub(crate) fn new(alloc: Global, side: Side) -> Self
        ensures halves { senders result ≡ (λ id. None) }
        ensures side { result.side ≡ side }
        ensures first { result.first ≡ no_limits }
    {
        SendEntries {
            alloc,
            side,
            first: FirstLimits::none(),
            entries: HashMap::new(alloc),
            spare: SpareHalves::new(alloc),
        }
    }

    /// Which end this is.
    pub(crate) fn side(&self) -> Side
        ensures { result ≡ self.now.side }
    {
        self.side
    }

    // Whether this end opens the stream itself.
    #[inline]
    pub(crate) fn is_local(&self, id: StreamId) -> bool
        ensures { result ≡ is_local self.now.side id }
    {
        are_one_end(self.side, id.initiator())
    }

    /// Makes room for so many more.
    #[inline]
    pub(crate) fn reserve(&mut self, additional: usize) -> Result<(), OutOfMemory>
        ensures halves { senders self.new ≡ senders self.old }
        ensures side { self.new.side ≡ self.old.side }
        ensures first { self.new.first ≡ self.old.first }
        ensures ok { OnOk result (additional ≤ sender_room self.new) }
        ensures unneeded { additional ≤ sender_room self.old → IsOk result }
        ensures room { sender_room self.old ≤ sender_room self.new }
    {
        self.entries.reserve(additional)?;
        Ok(())
    }

    /// A stream is permitted, for which there is room.
    pub(crate) fn permit(&mut self, id: StreamId)
        requires { 0 < sender_room self.old }
        ensures halves { senders self.new ≡ with_sender (senders self.old) id (Some (new_sender (first_limit self.old.side self.old.first id))) }
        ensures side { self.new.side ≡ self.old.side }
        ensures first { self.new.first ≡ self.old.first }
        ensures room { sender_room self.old ≤ sender_room self.new + 1 }
    {
        let _ = self.entries.insert(id, None);
    }

    /// Whether the half of a stream is held.
    pub(crate) fn contains(&self, id: StreamId) -> bool
        ensures { result ≡ is_some (senders self.now id) }
    {
        self.entries.contains_key(&id)
    }

    // The limit that a stream begins with.
    #[inline]
    pub(crate) fn first_limit(&self, id: StreamId) -> VarInt
        ensures { result ≡ first_limit self.now.side self.now.first id }
    {
        self.first.of(self.is_local(id), id.dir())
    }

    /// Takes a half out, to be put back or removed. It is made where nothing was written yet.
    #[inline]
    pub(crate) fn take(&mut self, id: StreamId) -> Result<Option<Box<Send>>, OutOfMemory>
        ensures half { IfOk result (λ half. option_map (λ b. bare b.value) half ≡ senders self.old id) }
        ensures limit { IfOk result (λ half. IfSome half (λ b. first_limit self.old.side self.old.first id ≤ b.value.max_data)) }
        ensures halves { IfOk result (λ half. IfSome half (λ b. senders self.new ≡ with_sender (senders self.old) id (Some (new_sender (first_limit self.old.side self.old.first id))))) }
        ensures there { IfOk result (λ half. IfSome half (λ _. is_some (senders self.new id) ≡ true)) }
        ensures none { IfOk result (λ half. IfNone half (senders self.new ≡ senders self.old)) }
        ensures err { OnErr result (senders self.new ≡ senders self.old) }
        ensures held { OnErr result (is_some (senders self.old id) ≡ true) }
        ensures unused { OnErr result (senders self.old id ≡ Some (new_sender (first_limit self.old.side self.old.first id))) }
        ensures side { self.new.side ≡ self.old.side }
        ensures first { self.new.first ≡ self.old.first }
        ensures room { sender_room self.new ≡ sender_room self.old }
    {
        let limit = self.first_limit(id);
        let used = match self.entries.get_mut(&id) {
            None => return Ok(None),
            Some(entry) => entry.take(),
        };
        match used {
            Some(half) => {
                let mut half = half;
                half.max_data = greater(half.max_data, limit);
                Ok(Some(half))
            }
            None => {
                let half = self.spare.make(limit)?;
                Ok(Some(half))
            }
        }
    }

    /// The code of the first STOP_SENDING that came for a stream.
    pub(crate) fn stopped(&self, id: StreamId) -> Result<Option<VarInt>, ClosedStream>
        ensures { result ≡ told_of_half (λ s. s.stop_reason) (senders self.now id) }
    {
        match self.entries.get(&id) {
            None => Err(ClosedStream),
            Some(None) => Ok(None),
            Some(Some(half)) => Ok(half.stop_reason),
        }
    }

    /// The priority of a stream.
    pub(crate) fn priority(&self, id: StreamId) -> Result<i32, ClosedStream>
        ensures { result ≡ told_of_half (λ s. s.priority) (senders self.now id) }
    {
        match self.entries.get(&id) {
            None => Err(ClosedStream),
            Some(None) => Ok(0),
            Some(Some(half)) => Ok(half.priority),
        }
    }

    /// The limit of a stream that holds new data back, where STREAM_DATA_BLOCKED was queued for that very limit.
    pub(crate) fn blocked_limit(&self, id: StreamId) -> Option<VarInt>
        ensures { result ≡ blocked_limit (senders self.now id) }
    {
        match self.entries.get(&id) {
            None => None,
            Some(None) => None,
            Some(Some(half)) => {
                let limit = greater(half.max_data, self.first_limit(id));
                let told = match half.data_blocked_limit {
                    Some(at) => at == limit.into_inner(),
                    None => false,
                };
                if half.is_writable() && half.stop_reason.is_none() && told {
                    Some(limit)
                } else {
                    None
                }
            }
        }
    }

    /// How many bytes were written on a stream, if its half is held.
    pub(crate) fn final_size(&self, id: StreamId) -> Option<VarInt>
        ensures { result ≡ option_map (λ (s : Send). s.pending.offset) (senders self.now id) }
    {
        match self.entries.get(&id) {
            None => None,
            Some(None) => Some(VarInt::from(0u32)),
            Some(Some(half)) => Some(VarInt::new(half.offset())),
        }
    }

    /// Whether new data may be written on a stream, as far as it knows itself.
    pub(crate) fn can_take(&self, id: StreamId) -> bool
        ensures { result ≡ can_take (senders self.now id) }
    {
        let limit = self.first_limit(id);
        match self.entries.get(&id) {
            None => false,
            Some(None) => 0 < limit.into_inner(),
            Some(Some(half)) => {
                half.is_writable() && half.offset() < greater(half.max_data, limit).into_inner()
            }
        }
    }

    /// Whether a stream was reset and its half is still held.
    pub(crate) fn is_reset(&self, id: StreamId) -> bool
        ensures { result ≡ is_given_up (senders self.now id) }
    {
        match self.entries.get(&id) {
            None => false,
            Some(None) => false,
            Some(Some(half)) => half.is_reset(),
        }
    }

    /// Puts a half back.
    #[inline]
    pub(crate) fn put(&mut self, id: StreamId, half: Box<Send>)
        requires there { is_some (senders self.old id) ≡ true }
        requires limit { first_limit self.old.side self.old.first id ≤ half.value.max_data }
        ensures halves { senders self.new ≡ with_sender (senders self.old) id (Some (bare half.value)) }
        ensures side { self.new.side ≡ self.old.side }
        ensures first { self.new.first ≡ self.old.first }
        ensures room { sender_room self.new ≡ sender_room self.old }
    {
        match self.entries.get_mut(&id) {
            Some(entry) => *entry = Some(half),
            None => unreachable!(),
        }
    }

    /// Lets a half go.
    pub(crate) fn remove(&mut self, id: StreamId)
        ensures halves { senders self.new ≡ with_sender (senders self.old) id None }
        ensures side { self.new.side ≡ self.old.side }
        ensures first { self.new.first ≡ self.old.first }
        ensures room { sender_room self.old ≤ sender_room self.new }
    {
        let entry = self.entries.remove(&id);
        self.spare.keep(entry);
    }

    /// The halves of this end's streams go. Those of its peer's are new, with no limit.
    pub(crate) fn reject_early(&mut self)
        ensures halves { senders self.new ≡ of_peer_anew self.old.side (senders self.old) }
        ensures side { self.new.side ≡ self.old.side }
        ensures first { self.new.first ≡ no_limits }
        ensures room { sender_room self.old ≤ sender_room self.new }
    {
        let side = self.side;
        self.entries
            .retain(|id, _| !are_one_end(side, id.initiator()));
        self.entries.retain(|_, entry| {
            *entry = None;
            true
        });
        self.first = FirstLimits::none();
    }

    /// The priority at which a stream is to be queued once all counts as not sent that was sent on it.
    pub(crate) fn queue_unsent(&self, id: StreamId) -> Option<i32>
        ensures { QueuesUnsent (senders self.now id) result }
    {
        match self.entries.get(&id) {
            None => None,
            Some(None) => None,
            Some(Some(half)) => {
                if has_content(half) {
                    queue_at(half)
                } else {
                    None
                }
            }
        }
    }

    /// All that was sent on this end's streams counts as not sent.
    pub(crate) fn unsend_all(&mut self)
        ensures halves { NoneAcked self.old.side (senders self.old) → senders self.new ≡ own_unsent self.old.side (senders self.old) }
        ensures kept { KeepsAcked (senders self.old) (senders self.new) }
        ensures side { self.new.side ≡ self.old.side }
        ensures first { self.new.first ≡ self.old.first }
        ensures room { sender_room self.old ≤ sender_room self.new }
    {
        let side = self.side;
        self.entries.retain(|id, entry| {
            if are_one_end(side, id.initiator()) {
                unsend(entry);
            }
            true
        });
    }

    /// The peer gave limits that streams begin with. No limit falls.
    pub(crate) fn raise_first(&mut self, limits: FirstLimits)
        ensures halves { senders self.new ≡ raised_by self.old.side limits (senders self.old) }
        ensures side { self.new.side ≡ self.old.side }
        ensures first { self.new.first ≡ joined self.old.first limits }
        ensures room { sender_room self.new ≡ sender_room self.old }
    {
        self.first = self.first.joined(limits);
    }
}

// Whether two ends are one.
fn are_one_end(a: Side, b: Side) -> bool
    ensures { result ≡ are_one_end a b }
{
    match (a, b) {
        (Side::Client, Side::Client) => true,
        (Side::Client, Side::Server) => false,
        (Side::Server, Side::Client) => false,
        (Side::Server, Side::Server) => true,
    }
}

// Whether a half has data or an end to be sent.
fn has_content(half: &Send) -> bool
    ensures { result ≡ has_content half.now }
{
    !half.is_reset() && (half.offset() > 0 || !half.is_writable())
}

// All that was sent of a half counts as not sent, and nothing as lost, where nothing was acknowledged.
fn unsend_half(half: &mut Send)
    ensures kept { (n : ℕ) → is_acked half.old.pending n ≡ true → half.new ≡ half.old }
    ensures unsent { (is_reset_sent half.old.state ≡ false → (n : ℕ) → is_acked half.old.pending n ≡ false) → half.new ≡ as_unsent half.old }
{
    if half.is_reset() {
        return;
    }
    if !half.pending.none_acked() {
        return;
    }
    half.pending.retransmit_all_for_0rtt();
    half.fin_pending = half.fin_pending || !half.is_writable();
}

// The same of one that may have been used.
fn unsend(entry: &mut Option<Box<Send>>)
    ensures kept { (n : ℕ) → IsAckedAt n entry.old → entry.new ≡ entry.old }
    ensures unsent { (IfSome entry.old (λ b. is_reset_sent b.value.state ≡ false → (n : ℕ) → is_acked b.value.pending n ≡ false)) → entry.new ≡ option_map unsent_box entry.old }
{
    if let Some(half) = entry {
        unsend_half(half);
    }
}
