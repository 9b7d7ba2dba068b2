//! The streams of a connection, for the application.

ghost use Rattle.std.specs.Prelude.{ℕ, List, ◌∷◌, ◌≡◌, ◌<◌, ◌^◌, IfSome, Option, false, true};
ghost use Rattle.std.specs.Borrow.{sem};
ghost use Rattle.std.specs.Option.{option_map};
ghost use Rattle.quic_limits.specs.Remote.{open_now, one_accepted, acceptable_index};
ghost use Rattle.quic_streams.specs.Shown.{streams_view};
ghost use Rattle.quic_history.specs.Used.{used_halves};
ghost use Rattle.quic_history.specs.Acknowledged.{was_given};
ghost use Rattle.quic_history.specs.World.{Made, remote_of};
ghost use Rattle.quic_history.specs.Permitting.{with_accepted, acceptable};
ghost use Rattle.quic_history.specs.SendEvents.{OpenedOwn};
ghost use Rattle.quic_history.specs.Sends.{OpensOwn};
ghost use Rattle.quic_streams.specs.Connection.{is_shut};
ghost use Rattle.quic_streams.specs.Lending.{LendsState};
ghost use Rattle.quic_history.specs.History.{Event, Accepted, Sending, From};

pub use crate::batches::ReadSome;
pub use crate::pending::PendingFrames;
pub use crate::reading::Chunks;
pub use crate::recv_stream::RecvStream;
pub use crate::send_stream::SendStream;
pub use crate::state::StreamsState;
pub use crate::visiting::ReadVisitor;
pub use quic_history::progress::LastAnswer;
pub use quic_outgoing::PeerLimits;
use quic_values::{Dir, OutOfMemory, StreamId};
pub use quic_wire::StreamEvent;
pub use quic_writing::StreamMetaVec;

/// Whether a connection is open.
#[derive(Clone, Copy, Debug, PartialEq, Eq)]
pub enum ConnState {
    /// Streams may be opened and written.
    Open,
    /// Nothing is sent any more.
    Closed,
}

/// The streams of a connection.
#[derive(Drop)]
pub struct Streams<'a> {
    pub(crate) state: &'a mut StreamsState,
    pub(crate) conn: ConnState,
}

impl<'a> Streams<'a> {
    /// The streams of a connection that is open or closed.
    pub fn new(state: &'a mut StreamsState, conn: ConnState) -> Self
        ensures same_state { result.state.ghost_name ≡ state.entry.ghost_name }
        ensures state { result.state.now ≡ state.old }
        ensures conn { result.conn ≡ conn }
    {
        Streams { state, conn }
    }

    /// Opens the next stream of a direction (RFC 9000 section 2.1). `None`: the connection is closed, or as many were
    /// opened as the peer permits. If refused, nothing is opened.
    pub fn open(&mut self, dir: Dir) -> Result<Option<StreamId>, OutOfMemory>
        ensures same_state { self.new.state.ghost_name ≡ self.old.state.ghost_name }
        ensures conn { self.new.conn ≡ self.old.conn }
        ensures opens { OpensOwn (streams_view self.old.state.now) dir (is_shut self.old.conn) result (streams_view self.new.state.now) }
        ensures from { (m : Made) (h : List Event) → From m h (streams_view self.old.state.now) → From m (Sending (OpenedOwn dir (is_shut self.old.conn) result) ∷ h) (streams_view self.new.state.now) }
    {
        self.state.open(dir, self.conn)
    }

    /// Accepts the next stream of a direction that the peer opened, each once and in the order of their ids, also those
    /// of which nothing came yet (RFC 9000 section 2.1).
    pub fn accept(&mut self, dir: Dir) -> Option<StreamId>
        ensures same_state { self.new.state.ghost_name ≡ self.old.state.ghost_name }
        ensures conn { self.new.conn ≡ self.old.conn }
        ensures id { result ≡ acceptable (streams_view self.old.state.now) dir }
        ensures accepted { streams_view self.new.state.now ≡ with_accepted (streams_view self.old.state.now) dir }
        ensures from { (m : Made) (h : List Event) → From m h (streams_view self.old.state.now) → From m (Accepted dir result ∷ h) (streams_view self.new.state.now) }
    {
        self.state.accept(dir)
    }

    /// The state of the streams.
    pub fn state(&mut self) -> &mut StreamsState
        ensures* lends { sem 𝓛 (LendsState self.entry result) }
        ensures state { result.now ≡ self.old.state.now }
    {
        self.state
    }

    /// How many streams of a direction the peer has open: those that it opened, less those that were wholly freed.
    pub fn remote_open_streams(&self, dir: Dir) -> u64
        ensures { result ≡ open_now (remote_of (streams_view self.now.state.now) dir) }
    {
        self.state.remote_open(dir)
    }

    /// How many streams have a send half that is held: those that this end opened, and those of the peer that were
    /// accepted. One is held until the stream's end and all its data, or its reset, were acknowledged.
    pub fn send_streams(&self) -> usize
        ensures count { result ≡ (streams_view self.now.state.now).send_streams }
        ensures used { (m : Made) (h : List Event) → From m h (streams_view self.now.state.now) → result ≡ used_halves (streams_view self.now.state.now) }
    {
        self.state.used_halves()
    }
}

#[tactic(auto, unfolding(crate::specs::Shown::streams_view, quic_history::specs::World::with_receive))]
impl StreamsState {
    /// Whether the application was given a stream: it was opened by [`Streams::open`], or accepted by
    /// [`Streams::accept`].
    pub fn was_given(&self, id: StreamId) -> bool
        ensures { result ≡ was_given (streams_view self.now) id }
    {
        let given = match (self.is_own(id), id.dir()) {
            (true, dir) => self.outgoing.opened(dir),
            (false, Dir::Bi) => self.bi.next_reported(),
            (false, Dir::Uni) => self.uni.next_reported(),
        };
        id.index() < given
    }

    // Opens the next stream of a direction.
    fn open(&mut self, dir: Dir, conn: ConnState) -> Result<Option<StreamId>, OutOfMemory>
        ensures { OpensOwn (streams_view self.old) dir (is_shut conn) result (streams_view self.new) }
    {
        if matches!(conn, ConnState::Closed) {
            return Ok(None);
        }
        match dir {
            Dir::Bi => self.open_bi(),
            Dir::Uni => self.open_uni(),
        }
    }

    // Opens the next unidirectional stream.
    fn open_uni(&mut self) -> Result<Option<StreamId>, OutOfMemory>
        ensures { OpensOwn (streams_view self.old) Dir.Uni false result (streams_view self.new) }
    {
        match self.outgoing.open(Dir::Uni)? {
            None => Ok(None),
            Some(id) => {
                self.send_streams = self.send_streams.saturating_add(1);
                Ok(Some(id))
            }
        }
    }

    // How many send halves are held of the streams that this end opened or accepted.
    fn used_halves(&self) -> usize
        ensures count { result ≡ (streams_view self.now).send_streams }
        ensures used { (m : Made) (h : List Event) → From m h (streams_view self.now) → result ≡ used_halves (streams_view self.now) }
    {
        self.send_streams
    }

    // Opens the next bidirectional stream, with both halves.
    fn open_bi(&mut self) -> Result<Option<StreamId>, OutOfMemory>
        ensures { OpensOwn (streams_view self.old) Dir.Bi false result (streams_view self.new) }
    {
        self.receive.reserve(1)?;
        match self.outgoing.open(Dir::Bi)? {
            None => Ok(None),
            Some(id) => {
                self.receive.permit(id);
                self.send_streams = self.send_streams.saturating_add(1);
                Ok(Some(id))
            }
        }
    }

    // Accepts the next stream of a direction.
    pub(crate) fn accept(&mut self, dir: Dir) -> Option<StreamId>
        ensures id { result ≡ acceptable (streams_view self.old) dir }
        ensures accepted { streams_view self.new ≡ with_accepted (streams_view self.old) dir }
    {
        match dir {
            Dir::Bi => self.accept_bi(),
            Dir::Uni => self.accept_uni(),
        }
    }

    // Accepts the next bidirectional stream, on which this end sends as well while its send half is held.
    fn accept_bi(&mut self) -> Option<StreamId>
        ensures id { result ≡ acceptable (streams_view self.old) Dir.Bi }
        ensures accepted { streams_view self.new ≡ with_accepted (streams_view self.old) Dir.Bi }
    {
        let index = self.bi.accept()?;
        let id = StreamId::new(!self.outgoing.side(), Dir::Bi, index);
        if self.outgoing.contains(id) {
            self.send_streams = self.send_streams.saturating_add(1);
        }
        Some(id)
    }

    // Accepts the next unidirectional stream.
    fn accept_uni(&mut self) -> Option<StreamId>
        ensures id { result ≡ acceptable (streams_view self.old) Dir.Uni }
        ensures accepted { streams_view self.new ≡ with_accepted (streams_view self.old) Dir.Uni }
    {
        let index = self.uni.accept()?;
        Some(StreamId::new(!self.outgoing.side(), Dir::Uni, index))
    }
}
