//! Queues of datagrams (RFC 9221), each under a bound.

ghost use Rattle.std.specs.Prelude.{◌≡◌, ◌+◌, ◌-◌, ◌<◌, ◌≤◌, ◌^◌, ◌++◌, ◌==◌, ◌&&◌, [], ◌∷◌, List, true, false, not, length, nat_lt, nat_le, MatchOption, IfOk, IfErr, OnOk, OnErr, IsSomeAnd, None, vec_len, vec_capacity};
ghost use Rattle.std.specs.VecDeque.{deque_len, deque_capacity};
ghost use Rattle.quic_datagrams.specs.Sending.{send_refusal, IsSendRefusal, after_refusal};
ghost use Rattle.quic_datagrams.specs.Queue.{cost, total_cost, oldest_length, newest_within, with_newest, no_longer_than, fits_in, oldest_fits_in, ends_within, IsWritten, IsReceiveRefusal, JoinsWithin};

use quic_wire::frame::Datagram;
use quic_wire::{Bytes, OutOfMemory, ReceiveError, TransportError};
use std::alloc::Global;
use std::collections::VecDeque;
use std::marker::Model;
use thiserror::Error;

// What a datagram counts beside its length.
const OVERHEAD: usize = 32;

// From this length on there is no DATAGRAM frame with a length (RFC 9000 section 16).
const LENGTH_END: usize = 1 << 62;

/// How much may wait, and what the peer takes.
#[derive(Clone, Copy, Debug, PartialEq, Eq)]
pub struct DatagramLimits {
    /// How much received datagrams may count together, or `None` where datagrams are off here.
    pub receive: Option<usize>,
    /// How much datagrams that wait to be sent may count together.
    pub send: usize,
    /// The greatest length that the path and the peer take, or `None` where datagrams are off at the peer.
    pub max: Option<usize>,
}

/// Why a datagram was not queued.
#[derive(Debug, Drop, Error, PartialEq, Eq)]
pub enum SendDatagramError {
    /// The peer takes no datagrams.
    #[error("datagrams not supported by peer")]
    UnsupportedByPeer,
    #[doc = "Datagrams are off here."]
    #[error("datagram support disabled")]
    Disabled,
    /// It is longer than the path, the peer or the buffer permits.
    #[error("datagram too large")]
    TooLarge,
    /// Others wait before it, and leave no room. The data come back.
    #[error("datagram send blocked")]
    Blocked(Bytes),
    /// No memory was there. The data come back.
    #[error("out of memory")]
    OutOfMemory(Bytes),
}

/// Datagrams that wait, the oldest first. Each counts its length and 32.
#[derive(Drop)]
pub struct DatagramBuffer {
    queue: VecDeque<Datagram>,
    // What the datagrams count together.
    size: usize,
}

impl Model for DatagramBuffer {
    ghost use Rattle.std.specs.Prelude.{◌≡◌, List};
    ghost use Rattle.quic_wire.specs.declared.frame.Datagram.{Datagram as DatagramValue};
    ghost use Rattle.quic_datagrams.specs.Queue.{total_cost};

    ghost Value = { List DatagramValue };

    ghost view = { λ b. b.queue.items };

    ghost invariant = { λ b. b.size ≡ total_cost b.queue.items };
}

impl DatagramBuffer {
    /// An empty queue. Takes no memory.
    pub fn new(alloc: Global) -> Self
        ensures { result ≡ [] }
    {
        DatagramBuffer {
            queue: VecDeque::new(alloc),
            size: 0,
        }
    }

    /// Whether no datagram waits.
    #[inline]
    pub fn is_empty(&self) -> bool
        ensures { result ≡ (length self.now == 0) }
    {
        self.queue.is_empty()
    }

    /// How many datagrams wait.
    #[inline]
    pub fn len(&self) -> usize
        ensures { result ≡ length self.now }
    {
        self.queue.len()
    }

    /// How many bytes the oldest datagram has, if one waits.
    pub fn oldest_length(&self) -> Option<usize>
        ensures { result ≡ oldest_length self.now }
    {
        match self.queue.front() {
            Some(oldest) => Some(oldest.bytes.len()),
            None => None,
        }
    }

    /// What the datagrams count together: their lengths, and 32 each.
    #[inline]
    pub fn memory_used(&self) -> usize
        ensures { result ≡ total_cost self.now }
    {
        self.size
    }

    /// Whether there is an oldest datagram, and its frame with a length takes at most `max_size` bytes.
    #[inline]
    pub fn can_send_1rtt(&self, max_size: usize) -> bool
        ensures { result ≡ oldest_fits_in self.now max_size }
    {
        match self.queue.front() {
            Some(oldest) => fits_in(oldest, max_size),
            None => false,
        }
    }

    // Appends a datagram, once the oldest went until it fits. If refused, it comes back, and none goes.
    fn push_within(&mut self, datagram: Datagram, window: usize) -> Result<(), Datagram>
        requires { cost datagram ≤ window }
        ensures ok { OnOk result (self.new ≡ with_newest window self.old datagram) }
        ensures joins { OnOk result (JoinsWithin window self.old datagram self.new) }
        ensures within { OnOk result (total_cost self.new ≤ window) }
        ensures err { OnErr result (self.new ≡ self.old) }
        ensures value_returned { IfErr result (λ back. back ≡ datagram) }
    {
        if self.queue.reserve(1).is_err() {
            return Err(datagram);
        }
        let cost = datagram.bytes.len() + OVERHEAD;
        drop_oldest(&mut self.queue, &mut self.size, window - cost);
        self.queue.push_back_reserved(datagram);
        self.size += cost;
        Ok(())
    }

    fn pop_front(&mut self) -> Option<Datagram>
        ensures { MatchOption result ((self.old ≡ []) × (self.new ≡ [])) (λ oldest. self.old ≡ oldest ∷ self.new) }
    {
        let oldest = self.queue.pop_front()?;
        self.size -= oldest.bytes.len() + OVERHEAD;
        Some(oldest)
    }

    // Drops the datagrams longer than `max` bytes, and says whether there were any.
    fn drop_longer(&mut self, max: usize) -> bool
        ensures kept { self.new ≡ no_longer_than max self.old }
        ensures dropped { result ≡ nat_lt (length self.new) (length self.old) }
    {
        let before = self.queue.len();
        self.queue.retain(|datagram| datagram.bytes.len() <= max);
        self.size = count_all(&self.queue);
        self.queue.len() < before
    }

    // Writes the oldest datagram as a frame with a length, if it then ends within `max_size` bytes.
    fn write_front(&mut self, buf: &mut Vec<u8>, max_size: usize) -> Result<bool, OutOfMemory>
        ensures ok { IfOk result (λ wrote. IsWritten max_size self.old self.new buf.old.items buf.new.items wrote) }
        ensures err { OnErr result ((self.new ≡ self.old) × (buf.new.items ≡ buf.old.items)) }
        ensures full { OnErr result (oldest_fits_in self.old (vec_capacity buf.old - vec_len buf.old) ≡ false) }
    {
        let Some(room) = max_size.checked_sub(buf.len()) else {
            return Ok(false);
        };
        let Some(oldest) = self.queue.front() else {
            return Ok(false);
        };
        if !fits_in(oldest, room) {
            return Ok(false);
        }
        oldest.encode(true, buf)?;
        self.pop_front();
        Ok(true)
    }
}

// Whether a frame of a datagram, with a length, takes at most `max_size` bytes.
#[inline]
fn fits_in(datagram: &Datagram, max_size: usize) -> bool
    ensures { result ≡ fits_in datagram.now max_size }
{
    datagram.bytes.len() < LENGTH_END && datagram.size(true) <= max_size
}

// The oldest go until the others count at most `room`.
fn drop_oldest(queue: &mut VecDeque<Datagram>, size: &mut usize, room: usize)
    requires { size.old ≡ total_cost queue.old.items }
    ensures kept { queue.new.items ≡ newest_within room queue.old.items }
    ensures size { size.new ≡ total_cost queue.new.items }
    ensures within { size.new ≤ room }
    ensures len { deque_len queue.new ≤ deque_len queue.old }
    ensures capacity { deque_capacity queue.new ≡ deque_capacity queue.old }
{
    while *size > room {
        let Some(oldest) = queue.pop_front() else {
            return;
        };
        *size -= oldest.bytes.len() + OVERHEAD;
    }
}

// What datagrams count together.
fn count_all(queue: &VecDeque<Datagram>) -> usize
    requires { total_cost queue.now.items < 2 ^ 64 }
    ensures { result ≡ total_cost queue.now.items }
{
    let mut size = 0;
    for datagram in queue.iter() {
        size += datagram.bytes.len() + OVERHEAD;
    }
    size
}

/// The datagrams of a connection.
#[derive(Drop)]
pub struct DatagramState {
    /// Those that were received and not read.
    pub incoming: DatagramBuffer,
    /// Those that wait to be sent.
    pub outgoing: DatagramBuffer,
    /// Whether one was refused for lack of room since the last one was dropped for its length.
    pub send_blocked: bool,
}

impl DatagramState {
    /// Nothing waits. Takes no memory.
    pub fn new(alloc: Global) -> Self
        ensures { result ≡ record { incoming = []; outgoing = []; send_blocked = false } }
    {
        DatagramState {
            incoming: DatagramBuffer::new(alloc),
            outgoing: DatagramBuffer::new(alloc),
            send_blocked: false,
        }
    }

    /// Takes a received datagram, and says whether none waited before. The oldest go until it fits the window. One that
    /// fits no window is a PROTOCOL_VIOLATION (RFC 9221 section 3). If refused, all is as it was.
    pub fn received(
        &mut self,
        datagram: Datagram,
        window: &Option<usize>,
    ) -> Result<bool, ReceiveError>
        ensures queued { OnOk result (IsSomeAnd window.now (λ w. (cost datagram ≤ w)
            × (self.new ≡ record self.old { incoming = with_newest w self.old.incoming datagram })
            × (total_cost self.new.incoming ≤ w))) }
        ensures oldest_go { OnOk result (IsSomeAnd window.now (λ w. JoinsWithin w self.old.incoming datagram self.new.incoming)) }
        ensures was_empty { IfOk result (λ was_empty. was_empty ≡ (length self.old.incoming == 0)) }
        ensures err { OnErr result (self.new ≡ self.old) }
        ensures refusal { IfErr result (λ e. IsReceiveRefusal window.now datagram e) }
    {
        let Some(window) = *window else {
            return Err(TransportError::protocol_violation("unexpected DATAGRAM frame").into());
        };
        if window < OVERHEAD || datagram.bytes.len() > window - OVERHEAD {
            return Err(TransportError::protocol_violation("oversized datagram").into());
        }
        let was_empty = self.incoming.is_empty();
        match self.incoming.push_within(datagram, window) {
            Ok(()) => Ok(was_empty),
            Err(_) => Err(ReceiveError::OutOfMemory),
        }
    }

    /// Takes the oldest received datagram out.
    pub fn recv(&mut self) -> Option<Bytes>
        ensures { MatchOption result
            ((self.old.incoming ≡ []) × (self.new ≡ self.old))
            (λ bytes. self.old ≡ record self.new { incoming = record { bytes = bytes } ∷ self.new.incoming }) }
    {
        let Datagram { bytes } = self.incoming.pop_front()?;
        Some(bytes)
    }

    /// Appends the oldest waiting datagram to `buf` as a DATAGRAM frame with a length (RFC 9221 section 4), if `buf` then
    /// has at most `max_size` bytes, and says whether it did. If refused, all is as it was.
    pub fn write(&mut self, buf: &mut Vec<u8>, max_size: usize) -> Result<bool, OutOfMemory>
        ensures ok { IfOk result (λ wrote. IsWritten max_size self.old.outgoing self.new.outgoing buf.old.items buf.new.items wrote) }
        ensures same { self.new ≡ record self.old { outgoing = self.new.outgoing } }
        ensures err { OnErr result ((self.new ≡ self.old) × (buf.new.items ≡ buf.old.items)) }

        // It is refused only where the buffer has no room for it.
        ensures full { OnErr result (oldest_fits_in self.old.outgoing (vec_capacity buf.old - vec_len buf.old) ≡ false) }
    {
        self.outgoing.write_front(buf, max_size)
    }

    /// Drops the waiting datagrams longer than `max_payload` bytes, and says whether there were any.
    pub fn drop_oversized(&mut self, max_payload: usize) -> bool
        ensures kept { self.new ≡ record self.old { outgoing = no_longer_than max_payload self.old.outgoing } }
        ensures dropped { result ≡ nat_lt (length self.new.outgoing) (length self.old.outgoing) }
    {
        self.outgoing.drop_longer(max_payload)
    }
}

/// The datagrams of a connection, with the limits of now.
#[derive(Drop)]
pub struct Datagrams<'a> {
    pub state: &'a mut DatagramState,
    pub limits: DatagramLimits,
}

impl<'a> Datagrams<'a> {
    ghost use Rattle.quic_datagrams.specs.Sending.{after_drop, has_unblocked};

    /// The datagrams, under limits.
    pub fn new(state: &'a mut DatagramState, limits: DatagramLimits) -> Datagrams<'a>
        ensures same_state { result.state.ghost_name ≡ state.entry.ghost_name }
        ensures state { result.state.now ≡ state.old }
        ensures limits { result.limits ≡ limits }
    {
        Datagrams { state, limits }
    }

    /// Queues a datagram. With `drop` the oldest that wait go until it fits, and without none goes. If refused, none
    /// goes either, and the data come back where they could be queued later.
    pub fn send(&mut self, bytes: Bytes, drop: bool) -> Result<(), SendDatagramError>
        ensures same_state { self.new.state.ghost_name ≡ self.old.state.ghost_name }
        ensures limits { self.new.limits ≡ self.old.limits }
        ensures permitted { OnOk result (send_refusal self.old.limits self.old.state.now.outgoing bytes drop ≡ None) }
        ensures queued { OnOk result (self.new.state.now ≡ record self.old.state.now {
          outgoing = with_newest self.old.limits.send self.old.state.now.outgoing (record { bytes = bytes });
        }) }
        ensures oldest_go { OnOk result (JoinsWithin self.old.limits.send self.old.state.now.outgoing (record { bytes = bytes }) self.new.state.now.outgoing) }
        ensures within { OnOk result (total_cost self.new.state.now.outgoing ≤ self.old.limits.send) }
        ensures roomy { total_cost self.old.state.now.outgoing + (length bytes + 32) ≤ self.old.limits.send
            → OnOk result (self.new.state.now.outgoing ≡ self.old.state.now.outgoing ++ record { bytes = bytes } ∷ []) }
        ensures without_drop { drop ≡ false
            → OnOk result (self.new.state.now.outgoing ≡ self.old.state.now.outgoing ++ record { bytes = bytes } ∷ []) }
        ensures refusal { IfErr result (λ e. IsSendRefusal self.old.limits self.old.state.now.outgoing bytes drop e) }
        ensures err { IfErr result (λ e. self.new.state.now ≡ after_refusal self.old.state.now e) }
    {
        send_within(self.state, self.limits, bytes, drop)
    }

    /// The greatest length of a datagram, or `None` where datagrams are off at the peer.
    #[inline]
    pub fn max_size(&self) -> Option<usize>
        ensures { result ≡ self.now.limits.max }
    {
        self.limits.max
    }

    /// Takes the oldest received datagram out.
    pub fn recv(&mut self) -> Option<Bytes>
        ensures same_state { self.new.state.ghost_name ≡ self.old.state.ghost_name }
        ensures limits { self.new.limits ≡ self.old.limits }
        ensures oldest { MatchOption result
            ((self.old.state.now.incoming ≡ []) × (self.new.state.now ≡ self.old.state.now))
            (λ bytes. self.old.state.now
            ≡ record self.new.state.now { incoming = record { bytes = bytes } ∷ self.new.state.now.incoming }) }
    {
        self.state.recv()
    }

    /// The greatest length that can be queued now without a drop, if it is above 0.
    pub fn send_buffer_space(&self) -> usize
        ensures { result ≡ self.now.limits.send - total_cost self.now.state.now.outgoing - 32 }
    {
        self.limits
            .send
            .saturating_sub(self.state.outgoing.memory_used())
            .saturating_sub(OVERHEAD)
    }

    /// Drops the waiting datagrams longer than the greatest length, if there is one. Says whether some went while a sender
    /// was blocked, which is then no longer so.
    pub fn drop_oversized(&mut self) -> bool
        ensures same_state { self.new.state.ghost_name ≡ self.old.state.ghost_name }
        ensures limits { self.new.limits ≡ self.old.limits }
        ensures state { self.new.state.now ≡ after_drop self.old.limits.max self.old.state.now }
        ensures unblocked { result ≡ has_unblocked self.old.limits.max self.old.state.now }
    {
        let Some(max) = self.limits.max else {
            return false;
        };
        if !self.state.drop_oversized(max) || !self.state.send_blocked {
            return false;
        }
        self.state.send_blocked = false;
        true
    }
}

// Queues a datagram, or says why not.
fn send_within(
    state: &mut DatagramState,
    limits: DatagramLimits,
    bytes: Bytes,
    drop: bool,
) -> Result<(), SendDatagramError>
    ensures permitted { OnOk result (send_refusal limits state.old.outgoing bytes drop ≡ None) }
    ensures queued { OnOk result (state.new ≡ record state.old { outgoing = with_newest limits.send state.old.outgoing (record { bytes = bytes }) }) }
    ensures oldest_go { OnOk result (JoinsWithin limits.send state.old.outgoing (record { bytes = bytes }) state.new.outgoing) }
    ensures within { OnOk result (total_cost state.new.outgoing ≤ limits.send) }
    ensures refusal { IfErr result (λ e. IsSendRefusal limits state.old.outgoing bytes drop e) }
    ensures err { IfErr result (λ e. state.new ≡ after_refusal state.old e) }
{
    if limits.receive.is_none() {
        return Err(SendDatagramError::Disabled);
    }
    let Some(max) = limits.max else {
        return Err(SendDatagramError::UnsupportedByPeer);
    };
    let Some(room) = limits.send.checked_sub(OVERHEAD) else {
        return Err(SendDatagramError::TooLarge);
    };
    let len = bytes.len();
    if len > max || len > room {
        return Err(SendDatagramError::TooLarge);
    }
    if !drop && state.outgoing.memory_used() > room - len {
        state.send_blocked = true;
        return Err(SendDatagramError::Blocked(bytes));
    }
    match state.outgoing.push_within(Datagram { bytes }, limits.send) {
        Ok(()) => Ok(()),
        Err(refused) => Err(SendDatagramError::OutOfMemory(refused.bytes)),
    }
}
