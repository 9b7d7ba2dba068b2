//! What is to be sent, again or for the first time, beside the data of streams.

ghost use Rattle.std.specs.Prelude.{◌≡◌, ◌+◌, ◌-◌, ◌<◌, ◌≤◌, ◌++◌, ◌||◌, IsOk, OnOk, OnErr, IfOk, IfErr, false, length, vec_len};
ghost use Rattle.std.specs.Vec.{vec_capacity};
ghost use Rattle.std.specs.VecDeque.{deque_len, deque_capacity};
ghost use Rattle.quic_retransmits.specs.Pending.{pending_view, nothing, merged, thin_view, merged_if, collected, HasRoomFor, numbers_from, IsRetireRefusal};

use crate::stream_ids::StreamIds;
use quic_wire::frame::{Crypto, StopSending};
use quic_wire::{Bytes, OutOfMemory, ReceiveError, StreamId, TransportError, VarInt};
use std::alloc::Global;
use std::collections::VecDeque;
use std::net::SocketAddr;
use std::ops::Range;

// How many sequence numbers may wait to be retired.
const MAX_PENDING_RETIRED_CIDS: usize = 50;

/// An id of this connection that was given to the peer (RFC 9000 section 19.15). Carried, and never looked into.
#[derive(Debug, Drop)]
pub struct IssuedCid {
    pub sequence: u64,
    pub id: Bytes,
    pub reset_token: [u8; 16],
}

impl IssuedCid {
    /// An equal id.
    pub fn try_clone(&self) -> Result<Self, OutOfMemory>
        ensures { IfOk result (λ copy. copy ≡ self.now) }
    {
        Ok(IssuedCid {
            sequence: self.sequence,
            id: self.id.try_clone()?,
            reset_token: self.reset_token,
        })
    }
}

/// What is to be sent beside the data of streams (RFC 9000 section 13.3).
#[derive(Drop)]
pub struct Retransmits {
    pub max_data: bool,
    pub data_blocked: bool,
    /// MAX_STREAMS for bidirectional streams, and for unidirectional ones.
    pub max_stream_id: [bool; 2],
    /// The id of each stream that is given up, and why.
    pub reset_stream: Vec<(StreamId, VarInt)>,
    pub stop_sending: Vec<StopSending>,
    pub max_stream_data: StreamIds,
    pub stream_data_blocked: StreamIds,
    pub crypto: VecDeque<Crypto>,
    pub new_cids: Vec<IssuedCid>,
    /// The sequence numbers of the peer's ids that are no longer used.
    pub retire_cids: Vec<u64>,
    pub ack_frequency: bool,
    pub handshake_done: bool,
    /// For each NEW_TOKEN frame, the address to which it goes.
    pub new_tokens: Vec<SocketAddr>,
}

impl Retransmits {
    /// Nothing is to be sent. Takes no memory.
    pub fn new(alloc: Global) -> Self
        ensures { pending_view result ≡ nothing }
    {
        Retransmits {
            max_data: false,
            data_blocked: false,
            max_stream_id: [false; 2],
            reset_stream: Vec::new(alloc),
            stop_sending: Vec::new(alloc),
            max_stream_data: StreamIds::new(alloc),
            stream_data_blocked: StreamIds::new(alloc),
            crypto: VecDeque::new(alloc),
            new_cids: Vec::new(alloc),
            retire_cids: Vec::new(alloc),
            ack_frequency: false,
            handshake_done: false,
            new_tokens: Vec::new(alloc),
        }
    }
}

impl Retransmits {
    /// Joins what `other` has: lists go behind, crypto in front, and sets are united. If refused, `other` comes back, and
    /// all is as it was.
    pub fn merge(&mut self, other: Retransmits) -> Result<(), Retransmits>
        ensures ok { OnOk result (pending_view self.new ≡ merged (pending_view self.old) (pending_view other)) }
        ensures err { OnErr result (pending_view self.new ≡ pending_view self.old) }
        ensures value_returned { IfErr result (λ back. back ≡ other) }

        // What is empty adds nothing, on either side.
        ensures with_nothing { pending_view other ≡ nothing → pending_view self.new ≡ pending_view self.old }
        ensures onto_nothing { pending_view self.old ≡ nothing → OnOk result (pending_view self.new ≡ pending_view other) }
    {
        if self.make_room(&other).is_err() {
            return Err(other);
        }
        self.take_in(other);
        Ok(())
    }

    /// Joins what `other` has, if it has anything. If refused, `other` comes back, and all is as it was.
    pub fn merge_thin(&mut self, other: ThinRetransmits) -> Result<(), ThinRetransmits>
        ensures ok { OnOk result (pending_view self.new ≡ merged_if (pending_view self.old) (thin_view other)) }
        ensures err { OnErr result (pending_view self.new ≡ pending_view self.old) }
        ensures value_returned { IfErr result (λ back. back ≡ other) }
        ensures with_none { thin_view other ≡ None → pending_view self.new ≡ pending_view self.old }
        ensures accepts_none { thin_view other ≡ None → IsOk result }
    {
        if let Some(retransmits) = &other.retransmits
            && self.make_room(retransmits).is_err()
        {
            return Err(other);
        }
        let ThinRetransmits { retransmits, .. } = other;
        if let Some(retransmits) = retransmits {
            self.take_in(Box::into_inner(retransmits));
        }
        Ok(())
    }

    /// Joins all of a list, from the first on.
    pub fn collect(alloc: Global, list: Vec<Retransmits>) -> Result<Self, OutOfMemory>
        ensures { IfOk result (λ all. pending_view all ≡ collected nothing list.items) }
    {
        let mut all = Retransmits::new(alloc);
        for part in list {
            if all.merge(part).is_err() {
                return Err(OutOfMemory);
            }
        }
        Ok(all)
    }

    /// The same again.
    pub fn clone(&self) -> Result<Self, OutOfMemory>
        ensures { IfOk result (λ copy. pending_view copy ≡ pending_view self.now) }
    {
        let alloc = *self.reset_stream.allocator();
        Ok(Retransmits {
            max_data: self.max_data,
            data_blocked: self.data_blocked,
            max_stream_id: self.max_stream_id,
            reset_stream: Vec::from_slice(alloc, self.reset_stream.as_slice())?,
            stop_sending: Vec::from_slice(alloc, self.stop_sending.as_slice())?,
            max_stream_data: self.max_stream_data.copy(alloc)?,
            stream_data_blocked: self.stream_data_blocked.copy(alloc)?,
            crypto: clone_crypto(alloc, &self.crypto)?,
            new_cids: clone_cids(alloc, self.new_cids.as_slice())?,
            retire_cids: Vec::from_slice(alloc, self.retire_cids.as_slice())?,
            ack_frequency: self.ack_frequency,
            handshake_done: self.handshake_done,
            new_tokens: Vec::from_slice(alloc, self.new_tokens.as_slice())?,
        })
    }

    fn make_room(&mut self, other: &Retransmits) -> Result<(), OutOfMemory>
        ensures same { pending_view self.new ≡ pending_view self.old }
        ensures ok { OnOk result (HasRoomFor self.new other.now) }
    {
        self.reset_stream.reserve(other.reset_stream.len())?;
        self.stop_sending.reserve(other.stop_sending.len())?;
        self.max_stream_data
            .reserve(other.max_stream_data.entries())?;
        self.stream_data_blocked
            .reserve(other.stream_data_blocked.entries())?;
        self.crypto.reserve(other.crypto.len())?;
        self.new_cids.reserve(other.new_cids.len())?;
        self.retire_cids.reserve(other.retire_cids.len())?;
        self.new_tokens.reserve(other.new_tokens.len())?;
        Ok(())
    }

    fn take_in(&mut self, other: Retransmits)
        requires { HasRoomFor self.old other }
        ensures { pending_view self.new ≡ merged (pending_view self.old) (pending_view other) }
    {
        let Retransmits {
            max_data,
            data_blocked,
            max_stream_id,
            reset_stream,
            stop_sending,
            max_stream_data,
            stream_data_blocked,
            crypto,
            new_cids,
            retire_cids,
            ack_frequency,
            handshake_done,
            new_tokens,
        } = other;
        self.max_data |= max_data;
        self.data_blocked |= data_blocked;
        let [bi, uni] = self.max_stream_id;
        self.max_stream_id = [bi | max_stream_id[0], uni | max_stream_id[1]];
        append_all(&mut self.reset_stream, reset_stream);
        append_all(&mut self.stop_sending, stop_sending);
        self.max_stream_data.add_all(&max_stream_data);
        self.stream_data_blocked.add_all(&stream_data_blocked);
        put_in_front(&mut self.crypto, crypto);
        append_all(&mut self.new_cids, new_cids);
        append_all(&mut self.retire_cids, retire_cids);
        self.ack_frequency |= ack_frequency;
        self.handshake_done |= handshake_done;
        append_all(&mut self.new_tokens, new_tokens);
    }

    /// Queues numbers to be retired. More than 50 never wait: past that it is a CONNECTION_ID_LIMIT_ERROR (RFC 9000
    /// section 5.1.2). If refused, all is as it was.
    pub fn retire_cids(&mut self, cids: Range<u64>) -> Result<(), ReceiveError>
        ensures ok { OnOk result (pending_view self.new ≡ record (pending_view self.old) {
          retire_cids = (pending_view self.old).retire_cids ++ numbers_from cids.start (cids.end - cids.start);
        }) }
        ensures few { OnOk result (length (pending_view self.new).retire_cids ≤ 50) }
        ensures err { OnErr result (pending_view self.new ≡ pending_view self.old) }
        ensures refusal { IfErr result (λ e. IsRetireRefusal (length (pending_view self.old).retire_cids + (cids.end - cids.start)) e) }
    {
        let count = cids.end.saturating_sub(cids.start);
        let waiting = self.retire_cids.len();
        if waiting > MAX_PENDING_RETIRED_CIDS
            || count > (MAX_PENDING_RETIRED_CIDS - waiting) as u64
        {
            return Err(TransportError::connection_id_limit_error(
                "queued too many retired CIDs",
            ).into());
        }
        self.retire_cids.reserve(count as usize)?;
        push_numbers(&mut self.retire_cids, cids.start, cids.end);
        Ok(())
    }
}

// Appends numbers for which room was made.
fn push_numbers(list: &mut Vec<u64>, start: u64, end: u64)
    requires { vec_len list.old + (end - start) ≤ vec_capacity list.old }
    ensures { list.new.items ≡ list.old.items ++ numbers_from start (end - start) }
{
    for number in start..end {
        list.push_reserved(number);
    }
}

// Appends a list for which room was made.
fn append_all<T: Drop>(list: &mut Vec<T>, more: Vec<T>)
    requires { vec_len list.old + vec_len more ≤ vec_capacity list.old }
    ensures { list.new.items ≡ list.old.items ++ more.items }
{
    let mut more = more;
    let _ = list.append(&mut more);
}

// Puts a queue in front of another, in its order, where room was made.
fn put_in_front(queue: &mut VecDeque<Crypto>, front: VecDeque<Crypto>)
    requires { deque_len queue.old + deque_len front ≤ deque_capacity queue.old }
    ensures { queue.new.items ≡ front.items ++ queue.old.items }
{
    let mut front = front;
    while let Some(last) = front.pop_back() {
        queue.push_front_reserved(last);
    }
}

fn clone_crypto(alloc: Global, queue: &VecDeque<Crypto>) -> Result<VecDeque<Crypto>, OutOfMemory>
    ensures { IfOk result (λ copy. copy.items ≡ queue.now.items) }
{
    let mut copy = VecDeque::with_capacity(alloc, queue.len())?;
    for frame in queue.iter() {
        copy.push_back(frame.try_clone()?)?;
    }
    Ok(copy)
}

fn clone_cids(alloc: Global, cids: &[IssuedCid]) -> Result<Vec<IssuedCid>, OutOfMemory>
    ensures { IfOk result (λ copy. copy.items ≡ cids.now) }
{
    let mut copy = Vec::with_capacity(alloc, cids.len())?;
    for cid in cids {
        copy.push(cid.try_clone()?)?;
    }
    Ok(copy)
}

/// The same, without memory of its own until there is something to be sent.
#[derive(Drop)]
pub struct ThinRetransmits {
    pub(crate) retransmits: Option<Box<Retransmits>>,
    pub(crate) alloc: Global,
}

impl ThinRetransmits {
    ghost use Rattle.std.specs.Prelude.{None, Some, unwrap_or};
    ghost use Rattle.std.specs.Borrow.{sem};
    ghost use Rattle.quic_retransmits.specs.Lending.{LendsPending};
    ghost use Rattle.std.specs.Option.{option_map};

    /// Nothing is to be sent. Takes no memory.
    pub fn new(alloc: Global) -> Self
        ensures { thin_view result ≡ None }
    {
        ThinRetransmits {
            retransmits: None,
            alloc,
        }
    }

    /// What is to be sent, if anything was asked for.
    pub fn get(&self) -> Option<&Retransmits>
        ensures { option_map (λ r. pending_view r.now) result ≡ thin_view self.now }
    {
        match &self.retransmits {
            Some(retransmits) => Some(retransmits),
            None => None,
        }
    }

    /// The same again.
    pub fn clone(&self) -> Result<Self, OutOfMemory>
        ensures { IfOk result (λ copy. thin_view copy ≡ thin_view self.now) }
    {
        let mut copy = ThinRetransmits::new(self.alloc);
        if let Some(retransmits) = self.get() {
            copy.retransmits = Some(Box::new(self.alloc, Retransmits::clone(retransmits)?)?);
        }
        Ok(copy)
    }

    /// What is to be sent, to be changed. Takes memory where nothing was asked for before.
    pub fn get_or_create(&mut self) -> Result<&mut Retransmits, OutOfMemory>
        ensures* lends { sem 𝓛 (LendsPending self.entry result) }
        ensures before { IfOk result (λ r. pending_view r.now ≡ unwrap_or (thin_view self.old) nothing) }
    {
        self.create()?;
        match &mut self.retransmits {
            Some(retransmits) => Ok(retransmits),
            None => unreachable!(),
        }
    }

    fn create(&mut self) -> Result<(), OutOfMemory>
        ensures ok { OnOk result (thin_view self.new ≡ Some (unwrap_or (thin_view self.old) nothing)) }
        ensures err { OnErr result (thin_view self.new ≡ thin_view self.old) }
    {
        if self.retransmits.is_none() {
            let retransmits = Box::new(self.alloc, Retransmits::new(self.alloc))?;
            self.retransmits = Some(retransmits);
        }
        Ok(())
    }
}
