//! Streams that wait, and limits that are given for them, on their halves where these lie.

ghost use Rattle.std.specs.Prelude.{◌≡◌, ◌<◌, ◌∷◌, ◌++◌, [], ℕ, true, false, All, Some, IfOk, OnOk, OnErr, IsOk, is_some, length, if◌then◌else◌, vec_len};
ghost use Rattle.std.specs.Vec.{vec_capacity};
ghost use Rattle.quic_outgoing.specs.Seen.{senders, sender_room, sender_in, is_made};
ghost use Rattle.quic_outgoing.specs.Senders.{first_limit};
ghost use Rattle.quic_outgoing.specs.Params.{is_woken_in};
ghost use Rattle.quic_outgoing.specs.Outgoing.{marked, first_of};
ghost use Rattle.quic_outgoing.specs.Calls.{unmarked};
ghost use Rattle.quic_outgoing.specs.Waits.{WaitsOn, WaitsIn, RaisesOn, RaisesIn};

use crate::entries::{SendEntries, greater};
use crate::limits::PeerLimits;
use crate::spare::SpareHalves;
use crate::transmitting::take_half;
use quic_sending::Send;
use quic_values::{OutOfMemory, StreamId, VarInt};

// What a limit that was given did to a half.
#[derive(Clone, Copy)]
pub(crate) struct Raised {
    // Whether the half can be written on again that was written up to its limit.
    pub(crate) is_woken: bool,
    // Whether its stream is to be put on the list of those that wait.
    pub(crate) joins: bool,
}

#[tactic(auto, unfolding(crate::specs::Seen::senders))]
impl SendEntries {
    /// A stream waits. Answers whether it is to be put on the list of those that do, or that none is held.
    #[inline]
    pub(crate) fn wait(&mut self, id: StreamId) -> Result<Option<bool>, OutOfMemory>
        ensures ok { IfOk result (λ joins. WaitsIn (senders self.old) id joins (senders self.new)) }
        ensures err { OnErr result (senders self.new ≡ senders self.old) }
        ensures held { OnErr result (is_some (senders self.old id) ≡ true) }
        ensures side { self.new.side ≡ self.old.side }
        ensures first { self.new.first ≡ self.old.first }
        ensures room { sender_room self.new ≡ sender_room self.old }
    {
        let limit = self.first_limit(id);
        match self.entries.get_mut(&id) {
            None => Ok(None),
            Some(entry) => {
                let joins = wait_of_entry(&mut self.spare, limit, entry)?;
                Ok(Some(joins))
            }
        }
    }

    /// A stream waits no more.
    #[inline]
    pub(crate) fn unmark(&mut self, id: StreamId)
        ensures halves { senders self.new ≡ unmarked (senders self.old) id }
        ensures side { self.new.side ≡ self.old.side }
        ensures first { self.new.first ≡ self.old.first }
        ensures room { sender_room self.new ≡ sender_room self.old }
    {
        match self.entries.get_mut(&id) {
            None => {}
            Some(entry) => unmark_entry(entry),
        }
    }

    /// Whether one of the limits that the peer gives lets a stream be written on that was written up to its limit.
    pub(crate) fn is_woken(&self, id: StreamId, params: &PeerLimits) -> bool
        ensures { result ≡ is_woken_in (first_limit self.now.side (first_of params.now) id) (senders self.now id) }
    {
        let first = self.first_limit(id);
        let limit = params.first_limits().of(self.is_local(id), id.dir());
        match self.entries.get(&id) {
            None => false,
            Some(None) => first.into_inner() == 0 && first.into_inner() < limit.into_inner(),
            Some(Some(half)) => {
                let held = greater(half.max_data, first).into_inner();
                half.is_writable() && held < limit.into_inner() && half.offset() == held
            }
        }
    }

    /// Makes the halves of streams that were not used, so that nothing that is done on them takes memory.
    pub(crate) fn make_all(&mut self, ids: &[StreamId]) -> Result<(), OutOfMemory>
        requires { All (λ q. is_some (senders self.old q) ≡ true) ids.now }
        ensures made { OnOk result (All (λ q. is_made self.new q ≡ true) ids.now) }
        ensures free { length ids.now ≡ 0 → IsOk result }
        ensures halves { senders self.new ≡ senders self.old }
        ensures side { self.new.side ≡ self.old.side }
        ensures first { self.new.first ≡ self.old.first }
        ensures room { sender_room self.new ≡ sender_room self.old }
    {
        for index in 0..ids.len() {
            self.make(ids[index])?;
        }
        Ok(())
    }

    // The same of one.
    fn make(&mut self, id: StreamId) -> Result<(), OutOfMemory>
        ensures made { OnOk result (is_some (senders self.old id) ≡ true → is_made self.new id ≡ true) }
        ensures kept { (q : ℕ) → is_made self.old q ≡ true → is_made self.new q ≡ true }
        ensures halves { senders self.new ≡ senders self.old }
        ensures side { self.new.side ≡ self.old.side }
        ensures first { self.new.first ≡ self.old.first }
        ensures room { sender_room self.new ≡ sender_room self.old }
    {
        let limit = self.first_limit(id);
        match self.entries.get_mut(&id) {
            None => Ok(()),
            Some(entry) => make_entry(&mut self.spare, limit, entry),
        }
    }

    /// A stream waits whose half was made. Answers whether it is to be put on the list of those that do.
    pub(crate) fn mark(&mut self, id: StreamId) -> bool
        requires { is_made self.old id ≡ true }
        ensures halves { WaitsIn (senders self.old) id (Some result) (senders self.new) }
        ensures kept { (q : ℕ) → is_made self.old q ≡ true → is_made self.new q ≡ true }
        ensures side { self.new.side ≡ self.old.side }
        ensures first { self.new.first ≡ self.old.first }
        ensures room { sender_room self.new ≡ sender_room self.old }
    {
        match self.entries.get_mut(&id) {
            None => unreachable!(),
            Some(entry) => mark_entry(entry),
        }
    }

    /// The peer gave a limit for a stream. Where nothing may be written, one that was woken waits. `None`: none is held.
    #[inline]
    pub(crate) fn raise(
        &mut self,
        id: StreamId,
        offset: u64,
        stuck: bool,
    ) -> Result<Option<Raised>, OutOfMemory>
        ensures ok { IfOk result (λ raised. RaisesIn (senders self.old) id offset stuck raised (senders self.new)) }
        ensures err { OnErr result (senders self.new ≡ senders self.old) }
        ensures side { self.new.side ≡ self.old.side }
        ensures first { self.new.first ≡ self.old.first }
        ensures room { sender_room self.new ≡ sender_room self.old }
    {
        let limit = self.first_limit(id);
        match self.entries.get_mut(&id) {
            None => Ok(None),
            Some(entry) => {
                let raised = raise_of_entry(&mut self.spare, limit, entry, offset, stuck)?;
                Ok(Some(raised))
            }
        }
    }
}

// Puts a stream behind those that wait, where it is not among them, in room that was made.
#[inline]
pub(crate) fn join_waiting(blocked: &mut Vec<StreamId>, id: StreamId, joins: bool)
    requires { vec_len blocked.old < vec_capacity blocked.old }
    ensures { blocked.new.items ≡ (if joins then blocked.old.items ++ id ∷ [] else blocked.old.items) }
{
    if joins {
        blocked.push_reserved(id);
    }
}

// The stream of an entry waits. Answers whether it is to be put on the list of those that do.
#[inline]
fn wait_of_entry(
    spare: &mut SpareHalves,
    limit: VarInt,
    entry: &mut Option<Box<Send>>,
) -> Result<bool, OutOfMemory>
    ensures ok { IfOk result (λ joins. WaitsOn (sender_in limit entry.old) joins (sender_in limit entry.new)) }
    ensures err { OnErr result (sender_in limit entry.new ≡ sender_in limit entry.old) }
{
    let mut half = take_half(spare, limit, entry)?;
    let joins = !half.connection_blocked;
    half.connection_blocked = true;
    *entry = Some(half);
    Ok(joins)
}

// Makes the half of an entry that was not used.
fn make_entry(
    spare: &mut SpareHalves,
    limit: VarInt,
    entry: &mut Option<Box<Send>>,
) -> Result<(), OutOfMemory>
    ensures same { sender_in limit entry.new ≡ sender_in limit entry.old }
    ensures made { OnOk result (is_some entry.new ≡ true) }
    ensures kept { is_some entry.old ≡ true → is_some entry.new ≡ true }
{
    if entry.is_none() {
        let half = spare.make(limit)?;
        *entry = Some(half);
    }
    Ok(())
}

// The stream of an entry waits whose half was made. Answers whether it is to be put on the list of those that do.
fn mark_entry(entry: &mut Option<Box<Send>>) -> bool
    requires { is_some entry.old ≡ true }
    ensures waits { (limit : ℕ) → WaitsOn (sender_in limit entry.old) result (sender_in limit entry.new) }
    ensures kept { is_some entry.new ≡ true }
{
    match entry {
        None => unreachable!(),
        Some(half) => {
            let joins = !half.connection_blocked;
            half.connection_blocked = true;
            joins
        }
    }
}

// The stream of an entry waits no more.
#[inline]
fn unmark_entry(entry: &mut Option<Box<Send>>)
    ensures { (limit : ℕ) → sender_in limit entry.new ≡ marked false (sender_in limit entry.old) }
{
    if let Some(half) = entry {
        half.connection_blocked = false;
    }
}

// The half of an entry is given a limit.
#[inline]
fn raise_of_entry(
    spare: &mut SpareHalves,
    limit: VarInt,
    entry: &mut Option<Box<Send>>,
    offset: u64,
    stuck: bool,
) -> Result<Raised, OutOfMemory>
    ensures ok { IfOk result (λ raised. RaisesOn offset stuck (sender_in limit entry.old) raised (sender_in limit entry.new)) }
    ensures err { OnErr result (sender_in limit entry.new ≡ sender_in limit entry.old) }
{
    let mut half = take_half(spare, limit, entry)?;
    half.max_data = greater(half.max_data, limit);
    let raised = raise_on(&mut half, offset, stuck);
    *entry = Some(half);
    Ok(raised)
}

// A half is given a limit.
#[inline]
fn raise_on(half: &mut Send, offset: u64, stuck: bool) -> Raised
    ensures { RaisesOn offset stuck half.old result half.new }
{
    let is_woken = half.increase_max_data(offset);
    let waits = is_woken && stuck;
    let joins = waits && !half.connection_blocked;
    if waits {
        half.connection_blocked = true;
    }
    Raised { is_woken, joins }
}
