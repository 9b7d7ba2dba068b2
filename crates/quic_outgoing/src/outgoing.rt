//! The streams on which one end of a connection sends.

ghost use Rattle.std.specs.Prelude.{[], ◌≡◌, ◌+◌, ◌<◌, ◌≤◌, ◌^◌, ◌⊎◌, ◌↔◌, Some, None, OnOk, OnErr, IsOk, is_some, nat_le};
ghost use Rattle.quic_limits.specs.SendingCredit.{writable, with_limit, with_window, is_blocked_reported};
ghost use Rattle.quic_values.specs.Ids.{dir_of, index_of};
ghost use Rattle.quic_outgoing.specs.Outgoing.{no_streams, with_send_half, fresh_sender, own_of};
ghost use Rattle.quic_outgoing.specs.Calls.{OpensStream, RaisesStreams, told_of_half, blocked_limit};
ghost use Rattle.quic_outgoing.specs.History.{Permitted, Removed, Opened, GaveData, GaveStreams, SetWindow, ComesFrom, Continues};
ghost use Rattle.quic_outgoing.specs.Shown.{outgoing_view, permit_room};

use crate::entries::SendEntries;
use quic_limits::{OwnStreams, SendCredit};
use quic_sending::ClosedStream;
use quic_values::{Dir, MAX_STREAM_COUNT, OutOfMemory, Side, StreamId, VarInt};
use quic_wire::TransportError;
use std::alloc::Global;

/// The streams on which one end of a connection sends (RFC 9000 sections 2 to 4): those that it opened, and the
/// bidirectional ones that the peer opened or may open.
///
/// It keeps no queue of streams with data to send and no list of events: each call answers what its caller is to queue.
#[derive(Drop)]
pub struct OutgoingStreams {
    pub(crate) own_bi: OwnStreams,
    pub(crate) own_uni: OwnStreams,
    pub(crate) budget: SendCredit,
    pub(crate) halves: SendEntries,
    // The streams that wait until something may be written. The last one is told of first.
    pub(crate) blocked: Vec<StreamId>,
}

#[tactic(auto, unfolding(crate::specs::Shown::outgoing_view, crate::specs::Shown::permit_room), using(crate::proofs::SenderMaps::sender_steps, crate::proofs::Histories::continues, crate::proofs::Histories::starts))]
impl OutgoingStreams {
    /// No streams. Nothing may be sent until the peer gives limits. At most `send_window` written bytes are to be
    /// retained. Takes no memory.
    pub fn new(alloc: Global, side: Side, send_window: u64) -> Self
        ensures none { outgoing_view result ≡ no_streams side send_window }
        ensures from { ComesFrom side send_window [] (outgoing_view result) }
    {
        OutgoingStreams {
            own_bi: OwnStreams::new(),
            own_uni: OwnStreams::new(),
            budget: SendCredit::new(send_window),
            halves: SendEntries::new(alloc, side),
            blocked: Vec::new(alloc),
        }
    }

    /// Makes room to permit so many more streams.
    pub fn reserve(&mut self, additional: usize) -> Result<(), OutOfMemory>
        ensures same { outgoing_view self.new ≡ outgoing_view self.old }
        ensures ok { OnOk result (additional ≤ permit_room self.new) }
        ensures unneeded { additional ≤ permit_room self.old → IsOk result }
        ensures room { permit_room self.old ≤ permit_room self.new }
    {
        self.halves.reserve(additional)
    }

    /// The peer may open a stream, for which room was made. Its half takes no memory until it is used.
    pub fn permit(&mut self, id: StreamId)
        requires { 0 < permit_room self.old }
        ensures permitted { outgoing_view self.new ≡ with_send_half (outgoing_view self.old) id (Some (fresh_sender (outgoing_view self.old) id)) }
        ensures room { permit_room self.old ≤ permit_room self.new + 1 }
        ensures from { Continues (outgoing_view self.old) (Permitted id) (outgoing_view self.new) }
    {
        self.halves.permit(id);
    }

    /// Whether the send half of a stream is held.
    pub fn contains(&self, id: StreamId) -> bool
        ensures { result ≡ is_some ((outgoing_view self.now).halves id) }
    {
        self.halves.contains(id)
    }

    /// Lets the send half of a stream go: it is sent on no more.
    pub fn remove(&mut self, id: StreamId)
        ensures removed { outgoing_view self.new ≡ with_send_half (outgoing_view self.old) id None }
        ensures from { Continues (outgoing_view self.old) (Removed id) (outgoing_view self.new) }
        ensures room { permit_room self.old ≤ permit_room self.new }
    {
        self.halves.remove(id);
    }

    /// Opens the next stream of a direction. `None`: as many were opened as the peer permits (RFC 9000 section 4.6). If
    /// refused, nothing is opened.
    pub fn open(&mut self, dir: Dir) -> Result<Option<StreamId>, OutOfMemory>
        ensures opens { OpensStream (outgoing_view self.old) dir result (outgoing_view self.new) }
        ensures from { Continues (outgoing_view self.old) (Opened dir result) (outgoing_view self.new) }
    {
        if self.opened(dir) >= self.max_streams(dir) {
            return Ok(None);
        }
        self.halves.reserve(1)?;
        let opened = match dir {
            Dir::Bi => self.own_bi.open(),
            Dir::Uni => self.own_uni.open(),
        };
        match opened {
            None => Ok(None),
            Some(index) => {
                let id = StreamId::new(self.halves.side(), dir, index);
                self.halves.permit(id);
                Ok(Some(id))
            }
        }
    }

    /// How many streams of a direction this end opened.
    pub fn opened(&self, dir: Dir) -> u64
        ensures count { result ≡ (own_of (outgoing_view self.now) dir).opened }
        ensures small { result ≤ 2 ^ 60 }
    {
        match dir {
            Dir::Bi => self.own_bi.opened(),
            Dir::Uni => self.own_uni.opened(),
        }
    }

    /// How many streams of a direction this end may open in all.
    pub fn max_streams(&self, dir: Dir) -> u64
        ensures { result ≡ (own_of (outgoing_view self.now) dir).limit }
    {
        match dir {
            Dir::Bi => self.own_bi.limit(),
            Dir::Uni => self.own_uni.limit(),
        }
    }

    /// Whether the index of a stream is at least the number of streams of its direction that this end opened.
    pub fn is_local_unopened(&self, id: StreamId) -> bool
        ensures { result ≡ nat_le (own_of (outgoing_view self.now) (dir_of id)).opened (index_of id) }
    {
        id.index() >= self.opened(id.dir())
    }

    /// The peer sent MAX_DATA (RFC 9000 section 19.9). A limit does not fall.
    pub fn raise_data(&mut self, limit: VarInt)
        ensures limit { outgoing_view self.new ≡ record (outgoing_view self.old) { budget = with_limit (outgoing_view self.old).budget limit } }
        ensures from { Continues (outgoing_view self.old) (GaveData limit) (outgoing_view self.new) }
    {
        let _ = self.budget.raise(limit);
    }

    /// The peer sent MAX_STREAMS (RFC 9000 section 19.11). Answers whether more streams may be opened than before. A
    /// count above 2^60 is a FRAME_ENCODING_ERROR.
    pub fn raise_streams(&mut self, dir: Dir, count: u64) -> Result<bool, TransportError>
        ensures raises { RaisesStreams (outgoing_view self.old) dir count result (outgoing_view self.new) }
        ensures from { Continues (outgoing_view self.old) (GaveStreams dir count result) (outgoing_view self.new) }
    {
        if count > MAX_STREAM_COUNT {
            return Err(TransportError::frame_encoding_error("unrepresentable stream limit"));
        }
        match dir {
            Dir::Bi => Ok(self.own_bi.raise(count)),
            Dir::Uni => Ok(self.own_uni.raise(count)),
        }
    }

    /// How many bytes may be written now on all streams together: the lesser of what the limit of the connection and
    /// what the send window leave.
    #[inline]
    pub fn write_limit(&self) -> u64
        ensures { result ≡ writable (outgoing_view self.now).budget }
    {
        self.budget.write_limit()
    }

    /// Sets how many written bytes may be retained.
    pub fn set_send_window(&mut self, send_window: u64)
        ensures window { outgoing_view self.new ≡ record (outgoing_view self.old) { budget = with_window (outgoing_view self.old).budget send_window } }
        ensures from { Continues (outgoing_view self.old) (SetWindow send_window) (outgoing_view self.new) }
    {
        self.budget.set_send_window(send_window);
    }

    /// Whether DATA_BLOCKED was queued for the limit that is held.
    pub fn can_send_data_blocked(&self) -> bool
        ensures { result ≡ is_blocked_reported (outgoing_view self.now).budget }
    {
        self.budget.is_blocked()
    }

    /// How many bytes the peer permits on all streams together.
    pub fn max_data(&self) -> VarInt
        ensures { result ≡ (outgoing_view self.now).budget.max_data }
    {
        VarInt::new(self.budget.max_data())
    }
}
