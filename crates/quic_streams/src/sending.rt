//! What the peer permits, and what the application is told.

ghost use Rattle.std.specs.Prelude.{ℕ, List, ◌∷◌, ◌++◌, ◌≡◌, ◌+◌, ◌<◌, ◌≤◌, ◌^◌, IfErr, OnOk, OnErr, IsOk, None, Some, nat_le, nat_lt, false, true, length, map};
ghost use Rattle.std.specs.VecDeque.{deque_len, deque_capacity};
ghost use Rattle.quic_wire.specs.declared.event.StreamEvent.TheVariants as stream_event;
ghost use Rattle.quic_values.specs.Ids.{dir_of, index_of};
ghost use Rattle.quic_limits.specs.SendingCredit.{writable, with_limit, with_window, is_blocked_reported};
ghost use Rattle.quic_outgoing.specs.Outgoing.{own_of};
ghost use Rattle.quic_outgoing.specs.Calls.{blocked_limit};
ghost use Rattle.quic_streams.specs.Shown.{streams_view};
ghost use Rattle.quic_streams.specs.Room.{HasEventRoom};
ghost use Rattle.quic_history.specs.World.{Made, World, remote_of};
ghost use Rattle.quic_history.specs.SendEvents.{GaveLimits, RaisedData, RaisedCount, RaisedLimit, StoppedOwn, SetWindow, Polled};
ghost use Rattle.quic_history.specs.Sends.{TakesParams, with_params_given, OpensOwn, RaisesCount, RaisesLimit, StopsOwn, TellsNext, with_out, sending_refusal, is_permitted, told_writable};
ghost use Rattle.quic_history.specs.History.{Event, Sending, From};

use crate::state::StreamsState;
use quic_outgoing::PeerLimits;
use quic_values::{Dir, MAX_STREAM_COUNT, OutOfMemory, StreamId, VarInt};
use quic_wire::{ReceiveError, StreamEvent, TransportError};

#[tactic(auto, unfolding(crate::specs::Shown::streams_view, crate::specs::Room::HasEventRoom))]
impl StreamsState {
    /// Takes the limits of the peer's transport parameters (RFC 9000 section 7.4). Each counts that is above the one that
    /// was held. Each stream that this end opened is given its own as a MAX_STREAM_DATA frame would give it: where it lets
    /// a blocked stream be written on, the application is told, or the stream waits until the connection permits it. If
    /// refused, all is as it was. It is not refused where this end opened no stream.
    pub fn set_params(&mut self, params: &PeerLimits) -> Result<(), OutOfMemory>
        ensures params { OnOk result (streams_view self.new ≡ with_params_given (streams_view self.old) params.now) }
        ensures err { OnErr result (streams_view self.new ≡ streams_view self.old) }
        ensures free { (streams_view self.old).out.own_bi.opened ≡ 0 → (streams_view self.old).out.own_uni.opened ≡ 0 → IsOk result }
        ensures from { (m : Made) (h : List Event) → From m h (streams_view self.old) → From m (Sending (GaveLimits params.now result) ∷ h) (streams_view self.new) }
    {
        self.take_params(params)
    }

    // The same, each way out.
    fn take_params(&mut self, params: &PeerLimits) -> Result<(), OutOfMemory>
        ensures takes { TakesParams (streams_view self.old) params.now result (streams_view self.new) }
        ensures free { (streams_view self.old).out.own_bi.opened ≡ 0 → (streams_view self.old).out.own_uni.opened ≡ 0 → IsOk result }
    {
        let told = self.outgoing.newly_writable(params)?;
        self.events.reserve(told.len())?;
        self.outgoing.set_params(params)?;
        self.tell_each(told.as_slice());
        Ok(())
    }

    // The application is to be told that it may write on each of these streams. There is room for so many events.
    fn tell_each(&mut self, ids: &[StreamId])
        requires { deque_len self.old.events + length ids.now ≤ deque_capacity self.old.events }
        ensures { streams_view self.new ≡ record (streams_view self.old) { events = (streams_view self.old).events ++ map stream_event.Writable ids.now } }
    {
        for index in 0..ids.len() {
            self.events
                .push_back_reserved(StreamEvent::Writable { id: ids[index] });
        }
    }

    /// Takes a MAX_DATA frame (RFC 9000 section 19.9). A limit does not fall.
    pub fn received_max_data(&mut self, limit: VarInt)
        ensures raised { streams_view self.new ≡ with_out (streams_view self.old) (record (streams_view self.old).out { budget = with_limit (streams_view self.old).out.budget limit }) }
        ensures from { (m : Made) (h : List Event) → From m h (streams_view self.old) → From m (Sending (RaisedData limit) ∷ h) (streams_view self.new) }
    {
        self.outgoing.raise_data(limit);
    }

    /// Sets how many bytes that were written are retained at most until they are acknowledged.
    pub fn set_send_window(&mut self, send_window: u64)
        ensures window { streams_view self.new ≡ with_out (streams_view self.old) (record (streams_view self.old).out { budget = with_window (streams_view self.old).out.budget send_window }) }
        ensures from { (m : Made) (h : List Event) → From m h (streams_view self.old) → From m (Sending (SetWindow send_window) ∷ h) (streams_view self.new) }
    {
        self.outgoing.set_send_window(send_window);
    }

    /// How many bytes may be written now on all streams together: the least of what the peer's limit and what the send
    /// window leave.
    #[inline]
    pub fn write_limit(&self) -> u64
        ensures { result ≡ writable (streams_view self.now).out.budget }
    {
        self.outgoing.write_limit()
    }

    /// Whether the index of a stream is at least the number of streams of its direction that this end opened.
    pub fn is_local_unopened(&self, id: StreamId) -> bool
        ensures { result ≡ nat_le (own_of (streams_view self.now).out (dir_of id)).opened (index_of id) }
    {
        self.outgoing.is_local_unopened(id)
    }

    /// Whether DATA_BLOCKED was queued for the limit that is held now.
    pub fn can_send_data_blocked(&self) -> bool
        ensures { result ≡ is_blocked_reported (streams_view self.now).out.budget }
    {
        self.outgoing.can_send_data_blocked()
    }

    /// The limit of a stream for which STREAM_DATA_BLOCKED was queued, if it is the one held now, and data may still be
    /// written on the stream but for it.
    pub fn stream_data_blocked_limit(&self, id: StreamId) -> Option<VarInt>
        ensures { result ≡ blocked_limit ((streams_view self.now).out.halves id) }
    {
        self.outgoing.stream_data_blocked_limit(id)
    }

    /// Takes a MAX_STREAMS frame (RFC 9000 section 19.11). The application is told of a rise. A count above 2^60 is a
    /// FRAME_ENCODING_ERROR.
    pub fn received_max_streams(&mut self, dir: Dir, count: u64) -> Result<(), ReceiveError>
        ensures raises { RaisesCount (streams_view self.old) dir count result (streams_view self.new) }
        ensures from { (m : Made) (h : List Event) → From m h (streams_view self.old) → From m (Sending (RaisedCount dir count result) ∷ h) (streams_view self.new) }
    {
        self.raise_count(dir, count)
    }

    // The same, each way out.
    fn raise_count(&mut self, dir: Dir, count: u64) -> Result<(), ReceiveError>
        ensures { RaisesCount (streams_view self.old) dir count result (streams_view self.new) }
    {
        let rises = count > self.outgoing.max_streams(dir);
        if count <= MAX_STREAM_COUNT && rises && self.events.reserve(1).is_err() {
            return Err(ReceiveError::OutOfMemory);
        }
        match self.outgoing.raise_streams(dir, count) {
            Err(error) => Err(ReceiveError::Transport(error)),
            Ok(rose) => {
                if rose {
                    self.events
                        .push_back_reserved(StreamEvent::Available { dir });
                }
                Ok(())
            }
        }
    }

    /// Takes a MAX_STREAM_DATA frame (RFC 9000 section 19.10), which opens a stream of the peer that was not open. A limit
    /// does not fall. Where it lets a blocked stream be written on, the application is told, or the stream waits until the
    /// connection permits it.
    pub fn received_max_stream_data(
        &mut self,
        id: StreamId,
        offset: u64,
    ) -> Result<(), ReceiveError>
        ensures raises { RaisesLimit (streams_view self.old) id offset result (streams_view self.new) }
        ensures from { (m : Made) (h : List Event) → From m h (streams_view self.old) → From m (Sending (RaisedLimit id offset result) ∷ h) (streams_view self.new) }
    {
        self.raise_limit(id, offset)
    }

    // The same, each way out.
    fn raise_limit(&mut self, id: StreamId, offset: u64) -> Result<(), ReceiveError>
        ensures { RaisesLimit (streams_view self.old) id offset result (streams_view self.new) }
    {
        if let Err(error) = self.validate_send_id(id) {
            return Err(ReceiveError::Transport(error));
        }
        if self.events.reserve(1).is_err() {
            return Err(ReceiveError::OutOfMemory);
        }
        match self.outgoing.raise_stream(id, offset) {
            Err(_) => Err(ReceiveError::OutOfMemory),
            Ok(writable) => {
                self.tell_writable(id, writable);
                self.notice_open(id);
                Ok(())
            }
        }
    }

    // The error of a frame on the sending side of a stream.
    fn validate_send_id(&self, id: StreamId) -> Result<(), TransportError>
        ensures ok { OnOk result (sending_refusal (streams_view self.now) id ≡ None) }
        ensures err { IfErr result (λ error. sending_refusal (streams_view self.now) id ≡ Some error.code) }
    {
        if self.is_own(id) {
            if self.outgoing.is_local_unopened(id) {
                return Err(TransportError::stream_state_error(
                    "MAX_STREAM_DATA on unopened stream",
                ));
            }
            return Ok(());
        }
        match id.dir() {
            Dir::Uni => Err(TransportError::stream_state_error(
                "MAX_STREAM_DATA on recv-only stream",
            )),
            Dir::Bi => {
                if id.index() >= self.bi.max_remote() {
                    return Err(TransportError::stream_limit_error(""));
                }
                Ok(())
            }
        }
    }

    // The application is to be told that it may write on a stream.
    fn tell_writable(&mut self, id: StreamId, writable: bool)
        requires { HasEventRoom self.old }
        ensures { streams_view self.new ≡ told_writable (streams_view self.old) id writable }
    {
        if writable {
            self.events.push_back_reserved(StreamEvent::Writable { id });
        }
    }

    /// Takes a STOP_SENDING frame (RFC 9000 section 19.5). The application is told of the first of a stream, which opens
    /// a stream of the peer that was not open. One on a stream that is not there is dropped.
    pub fn received_stop_sending(
        &mut self,
        id: StreamId,
        error_code: VarInt,
    ) -> Result<(), OutOfMemory>
        ensures stops { StopsOwn (streams_view self.old) id error_code result (streams_view self.new) }
        ensures from { (m : Made) (h : List Event) → From m h (streams_view self.old) → From m (Sending (StoppedOwn id error_code result) ∷ h) (streams_view self.new) }
    {
        self.stop_sending(id, error_code)
    }

    // The same, each way out.
    fn stop_sending(&mut self, id: StreamId, error_code: VarInt) -> Result<(), OutOfMemory>
        ensures { StopsOwn (streams_view self.old) id error_code result (streams_view self.new) }
    {
        if !self.is_permitted(id) {
            return Ok(());
        }
        self.events.reserve(1)?;
        if self.outgoing.stop(id, error_code)? {
            self.events
                .push_back_reserved(StreamEvent::Stopped { id, error_code });
            self.notice_open(id);
        }
        Ok(())
    }

    // Whether a stream is this end's, or one that the peer may open.
    pub(crate) fn is_permitted(&self, id: StreamId) -> bool
        ensures { result ≡ is_permitted (streams_view self.now) id }
    {
        if self.is_own(id) {
            return true;
        }
        let max_remote = match id.dir() {
            Dir::Bi => self.bi.max_remote(),
            Dir::Uni => self.uni.max_remote(),
        };
        id.index() < max_remote
    }

    /// What the application is to be told next, if there is something: that the peer opened streams, that a stream which
    /// waited may be written on, or what is queued, in the order in which it came.
    pub fn poll(&mut self) -> Option<StreamEvent>
        ensures polls { TellsNext (streams_view self.old) result (streams_view self.new) }
        ensures from { (m : Made) (h : List Event) → From m h (streams_view self.old) → From m (Sending (Polled result) ∷ h) (streams_view self.new) }
    {
        self.poll_next()
    }

    // The same, each way out.
    fn poll_next(&mut self) -> Option<StreamEvent>
        ensures { TellsNext (streams_view self.old) result (streams_view self.new) }
    {
        if self.bi.tell_opened() {
            return Some(StreamEvent::Opened { dir: Dir::Bi });
        }
        if self.uni.tell_opened() {
            return Some(StreamEvent::Opened { dir: Dir::Uni });
        }
        match self.outgoing.poll_writable() {
            Some(id) => Some(StreamEvent::Writable { id }),
            None => self.events.pop_front(),
        }
    }
}
