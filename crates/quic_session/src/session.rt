//! A session, and what its host sets.

ghost use Rattle.std.specs.Prelude.{ℕ, List, ◌∷◌, [], ◌≡◌, ◌≤◌, ◌^◌, IfOk, IsOk, None, not, nat_lt};
ghost use Rattle.quic_history.specs.World.{Made, made_with, start, remote_of};
ghost use Rattle.quic_history.specs.History.{Event, Sending, Resized, SetConcurrent, From};
ghost use Rattle.quic_history.specs.SendEvents.{SetWindow, Polled};
ghost use Rattle.quic_history.specs.Sends.{with_out, TellsNext};
ghost use Rattle.quic_limits.specs.SendingCredit.{with_window};
ghost use Rattle.quic_retransmits.specs.Pending.{nothing};
ghost use Rattle.quic_streams.specs.Shown.{streams_view};
ghost use Rattle.quic_history.specs.Acknowledged.{was_given};
ghost use Rattle.quic_endpoint.specs.Ends.{with_world, with_window_set, SetsConcurrentAt};
ghost use Rattle.quic_limits.specs.Remote.{lacking, open_now};
ghost use Rattle.quic_streams.specs.Waiting.{TellsEmpty};
ghost use Rattle.quic_session.specs.Sessions.{end_of, beside_of, datagrams_view, no_datagrams};
ghost use Rattle.quic_session.specs.Tokens.{unsettled};
ghost use Rattle.quic_session.specs.Users.{users_view, no_users};
ghost use Rattle.quic_session.specs.Counts.{counts_of, no_counts};
ghost use Rattle.quic_session.specs.Closing.{touched_by_event};

use crate::closing::touch_by_event;
use crate::counts::Counts;
use crate::lent_bytes::LentBytes;
use crate::memory::{FrameMemory, pieces_within};
use crate::unsettled::Unsettled;
use crate::users::Users;
use quic_assembler::Chunk;
use quic_datagrams::{DatagramLimits, DatagramState};
use quic_endpoint::Endpoint;
use quic_streams::PendingFrames;
use quic_streams::state::StreamsState;
use quic_streams::streams::ConnState;
use quic_values::{Dir, OutOfMemory, Side, StreamId, VarInt};
use quic_wire::{PieceMemory, StreamEvent};
use std::alloc::Global;

/// What a session begins with.
#[derive(Clone, Copy, Debug, PartialEq, Eq)]
pub struct Config {
    pub side: Side,
    /// How many unidirectional streams the peer may open at first, at most 2^60.
    pub max_remote_uni: VarInt,
    /// The same of bidirectional streams.
    pub max_remote_bi: VarInt,
    /// How many bytes that were written are kept at most until they are acknowledged.
    pub send_window: u64,
    /// How many bytes of all streams may be received and not read.
    pub receive_window: VarInt,
    /// The same of each stream.
    pub stream_window: VarInt,
    /// What is permitted of datagrams.
    pub datagrams: DatagramLimits,
}

/// One end of a connection, for a host that lays out packets, detects losses and encrypts.
#[derive(Drop)]
pub struct Session {
    pub(crate) endpoint: Endpoint,
    pub(crate) conn: ConnState,
    pub(crate) datagrams: DatagramState,
    pub(crate) limits: DatagramLimits,
    // Whether nothing is to be told of a received datagram, and of room for one to be sent.
    pub(crate) told_received: bool,
    pub(crate) told_room: bool,
    pub(crate) unsettled: Unsettled,
    // The streams that the host was given, with its words.
    pub(crate) users: Users,
    pub(crate) counts: Box<Counts>,
    // The memory of the last payload that was written, of the list of chunks of the last read, of the frames of the last
    // payload that came, and of bytes that were read. It is used again.
    pub(crate) bytes: Vec<u8>,
    pub(crate) chunks: Vec<Chunk>,
    pub(crate) frames: FrameMemory,
    pub(crate) pieces: PieceMemory,
    // What the last read lent.
    pub(crate) lent: Vec<LentBytes>,
    pub(crate) alloc: Global,
}

impl Session {
    /// A session of which no stream is open, and that has nothing to send.
    pub fn new(alloc: Global, config: &Config) -> Result<Self, OutOfMemory>
        requires uni { config.now.max_remote_uni ≤ 2 ^ 60 }
        requires bi { config.now.max_remote_bi ≤ 2 ^ 60 }
        ensures start { IfOk result (λ s. end_of s ≡ record { streams = start (made_with config.now.side config.now.max_remote_uni config.now.max_remote_bi config.now.send_window config.now.receive_window config.now.stream_window); pending = nothing }) }
        ensures from { IfOk result (λ s. From (made_with config.now.side config.now.max_remote_uni config.now.max_remote_bi config.now.send_window config.now.receive_window config.now.stream_window) [] (end_of s).streams) }
        ensures begun { IfOk result (λ s. s.conn ≡ ConnState.Open) }
        ensures datagrams { IfOk result (λ s. datagrams_view s ≡ no_datagrams config.now.datagrams) }
        ensures payloads { IfOk result (λ s. unsettled s.unsettled ≡ (λ token. None)) }
        ensures token { IfOk result (λ s. s.unsettled.next ≡ 1) }
        ensures users { IfOk result (λ s. users_view s.users ≡ no_users) }
        ensures counts { IfOk result (λ s. counts_of s ≡ no_counts) }
    {
        let endpoint = Endpoint::new(
            alloc,
            config.side,
            config.max_remote_uni,
            config.max_remote_bi,
            config.send_window,
            config.receive_window,
            config.stream_window,
        )?;
        let counts = Box::new(alloc, Counts::new())?;
        Ok(Session {
            endpoint,
            conn: ConnState::Open,
            datagrams: DatagramState::new(alloc),
            limits: config.datagrams,
            told_received: true,
            told_room: true,
            unsettled: Unsettled::new(alloc),
            users: Users::new(),
            counts,
            bytes: Vec::new(alloc),
            chunks: Vec::new(alloc),
            frames: FrameMemory::new(),
            pieces: PieceMemory::new(alloc, pieces_within(config.receive_window)),
            lent: Vec::new(alloc),
            alloc,
        })
    }

    /// Sets the send window: how many written bytes are buffered at most until they are acknowledged.
    pub fn set_send_window(&mut self, window: u64)
        ensures window { end_of self.new ≡ with_world (end_of self.old) (with_out (end_of self.old).streams (record (end_of self.old).streams.out { budget = with_window (end_of self.old).streams.out.budget window })) }
        ensures from { (m : Made) (h : List Event) → From m h (end_of self.old).streams → From m (Sending (SetWindow window) ∷ h) (end_of self.new).streams }
        ensures beside { beside_of self.new ≡ beside_of self.old }
        ensures users { self.new.users ≡ self.old.users }
    {
        self.endpoint.set_send_window(window);
    }

    /// Sets the receive window: how many bytes of all streams may be received and not read. Queues MAX_DATA and returns
    /// true if the window grew.
    pub fn set_receive_window(&mut self, window: VarInt) -> bool
        ensures window { end_of self.new ≡ with_window_set (end_of self.old) window result }
        ensures larger { result ≡ nat_lt (end_of self.old).streams.credit.receive_window window }
        ensures from { (m : Made) (h : List Event) → From m h (end_of self.old).streams → From m (Resized window result ∷ h) (end_of self.new).streams }
        ensures beside { beside_of self.new ≡ beside_of self.old }
        ensures users { self.new.users ≡ self.old.users }
    {
        let larger = self.endpoint.set_receive_window(window);
        self.pieces.set_most(pieces_within(window));
        larger
    }

    /// Sets how many streams of a direction the peer may use at a time. Queues MAX_STREAMS if it is due. On error nothing
    /// changes.
    pub fn set_max_concurrent(&mut self, dir: Dir, count: VarInt) -> Result<(), OutOfMemory>
        ensures sets { SetsConcurrentAt (end_of self.old) dir count result (end_of self.new) }
        ensures unneeded { lacking (remote_of (end_of self.old).streams dir) count ≡ 0 → IsOk result }
        ensures from { (m : Made) (h : List Event) → From m h (end_of self.old).streams → From m (SetConcurrent dir count result ∷ h) (end_of self.new).streams }
        ensures beside { beside_of self.new ≡ beside_of self.old }
        ensures users { self.new.users ≡ self.old.users }
    {
        self.endpoint.set_max_concurrent(dir, count)
    }

    /// The connection is closed: no stream is opened and nothing is written any more. What was received can be read.
    pub fn close(&mut self)
        ensures same { end_of self.new ≡ end_of self.old }
        ensures beside { beside_of self.new ≡ record (beside_of self.old) { conn = ConnState.Closed } }
        ensures users { self.new.users ≡ self.old.users }
    {
        self.conn = ConnState::Closed;
    }

    /// The next event of the streams for the application, if there is one.
    pub fn poll(&mut self) -> Option<StreamEvent>
        ensures polls { TellsNext (end_of self.old).streams result (end_of self.new).streams }
        ensures pending { (end_of self.new).pending ≡ (end_of self.old).pending }
        ensures from { (m : Made) (h : List Event) → From m h (end_of self.old).streams → From m (Sending (Polled result) ∷ h) (end_of self.new).streams }
        ensures beside { beside_of self.new ≡ beside_of self.old }
        ensures users { users_view self.new.users ≡ touched_by_event result (users_view self.old.users) }
    {
        let told = self.endpoint.poll();
        touch_by_event(&mut self.users, &told);
        told
    }

    /// The state of the streams.
    pub fn streams(&self) -> &StreamsState
        ensures { streams_view result.now ≡ (end_of self.now).streams }
    {
        self.endpoint.streams()
    }

    /// Whether a control frame is to be sent (RFC 9000 section 13.3).
    pub fn has_pending(&self) -> bool
        ensures { TellsEmpty (end_of self.now).streams (end_of self.now).pending (not result) }
    {
        !self.endpoint.pending().is_empty(self.endpoint.streams())
    }

    /// How many streams exist: those that the peer has open, bidirectional and unidirectional, and those with send state.
    pub fn stream_counts(&self) -> (u64, u64, usize)
        ensures bi { result.0 ≡ open_now (end_of self.now).streams.bi }
        ensures uni { result.1 ≡ open_now (end_of self.now).streams.uni }
        ensures send { result.2 ≡ (end_of self.now).streams.send_streams }
    {
        let streams = self.endpoint.streams();
        (
            streams.remote_open_streams(Dir::Bi),
            streams.remote_open_streams(Dir::Uni),
            streams.send_streams(),
        )
    }

    // Whether the application was given a stream.
    pub(crate) fn was_given(&self, id: StreamId) -> bool
        ensures { result ≡ was_given (end_of self.now).streams id }
    {
        self.endpoint.streams().was_given(id)
    }
}
