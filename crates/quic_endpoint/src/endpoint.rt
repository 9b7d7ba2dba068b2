//! An end, and the calls of its application.

ghost use Rattle.std.specs.Prelude.{ℕ, List, ◌∷◌, [], ◌≡◌, ◌≤◌, ◌^◌, IfOk, OnOk, OnErr, IsOk, nat_lt};
ghost use Rattle.quic_history.specs.World.{Made, made_with, start, remote_of};
ghost use Rattle.quic_history.specs.History.{Event, Sending, Resized, SetConcurrent, From};
ghost use Rattle.quic_history.specs.SendEvents.{GaveLimits, SetWindow, Polled};
ghost use Rattle.quic_history.specs.Sends.{with_out, with_params_given, TellsNext};
ghost use Rattle.quic_limits.specs.SendingCredit.{with_window};
ghost use Rattle.quic_limits.specs.Remote.{lacking, open_now};
ghost use Rattle.quic_retransmits.specs.Pending.{nothing};
ghost use Rattle.quic_streams.specs.Shown.{streams_view};
ghost use Rattle.quic_endpoint.specs.Shown.{endpoint_view};
ghost use Rattle.quic_endpoint.specs.Ends.{with_world, with_counts_told_if, with_window_set, SetsConcurrentAt};

use quic_streams::state::StreamsState;
use quic_streams::streams::{ConnState, Streams};
use quic_streams::{PeerLimits, Retransmits};
use quic_values::{Dir, OutOfMemory, Side, VarInt};
use quic_wire::StreamEvent;
use std::alloc::Global;

/// One end of a connection: its streams, and what it has to send beside their data.
#[derive(Drop)]
pub struct Endpoint {
    pub(crate) streams: StreamsState,
    pub(crate) pending: Retransmits,
    pub(crate) alloc: Global,
}

#[tactic(auto, unfolding(crate::specs::Shown::endpoint_view))]
impl Endpoint {
    /// An end of which no stream is open, and that has nothing to send. The arguments are those of
    /// [`StreamsState::new`].
    pub fn new(
        alloc: Global,
        side: Side,
        max_remote_uni: VarInt,
        max_remote_bi: VarInt,
        send_window: u64,
        receive_window: VarInt,
        stream_window: VarInt,
    ) -> Result<Self, OutOfMemory>
        requires uni { max_remote_uni ≤ 2 ^ 60 }
        requires bi { max_remote_bi ≤ 2 ^ 60 }
        ensures start { IfOk result (λ end. endpoint_view end ≡ record { streams = start (made_with side max_remote_uni max_remote_bi send_window receive_window stream_window); pending = nothing }) }
        ensures from { IfOk result (λ end. From (made_with side max_remote_uni max_remote_bi send_window receive_window stream_window) [] (endpoint_view end).streams) }
    {
        let streams = StreamsState::new(
            alloc,
            side,
            max_remote_uni,
            max_remote_bi,
            send_window,
            receive_window,
            stream_window,
        )?;
        Ok(Endpoint {
            streams,
            pending: Retransmits::new(alloc),
            alloc,
        })
    }

    /// Takes the limits of the peer's transport parameters (RFC 9000 section 7.4). The application is told of each stream
    /// of this end that they let be written on. If refused, all is as it was. It is not refused where this end opened no
    /// stream.
    pub fn set_params(&mut self, params: &PeerLimits) -> Result<(), OutOfMemory>
        ensures params { OnOk result (endpoint_view self.new ≡ with_world (endpoint_view self.old) (with_params_given (endpoint_view self.old).streams params.now)) }
        ensures err { OnErr result (endpoint_view self.new ≡ endpoint_view self.old) }
        ensures free { (endpoint_view self.old).streams.out.own_bi.opened ≡ 0 → (endpoint_view self.old).streams.out.own_uni.opened ≡ 0 → IsOk result }
        ensures from { (m : Made) (h : List Event) → From m h (endpoint_view self.old).streams → From m (Sending (GaveLimits params.now result) ∷ h) (endpoint_view self.new).streams }
    {
        self.streams.set_params(params)
    }

    /// Sets how many bytes that were written are retained at most until they are acknowledged.
    pub fn set_send_window(&mut self, window: u64)
        ensures window { endpoint_view self.new ≡ with_world (endpoint_view self.old) (with_out (endpoint_view self.old).streams (record (endpoint_view self.old).streams.out { budget = with_window (endpoint_view self.old).streams.out.budget window })) }
        ensures from { (m : Made) (h : List Event) → From m h (endpoint_view self.old).streams → From m (Sending (SetWindow window) ∷ h) (endpoint_view self.new).streams }
    {
        self.streams.set_send_window(window);
    }

    /// Sets how many bytes of all streams may be received and not consumed. Where that is more than before, the answer is
    /// true, and MAX_DATA is queued.
    pub fn set_receive_window(&mut self, window: VarInt) -> bool
        ensures window { endpoint_view self.new ≡ with_window_set (endpoint_view self.old) window result }
        ensures larger { result ≡ nat_lt (endpoint_view self.old).streams.credit.receive_window window }
        ensures from { (m : Made) (h : List Event) → From m h (endpoint_view self.old).streams → From m (Resized window result ∷ h) (endpoint_view self.new).streams }
    {
        let larger = self.streams.set_receive_window(window);
        self.pending.queue_max_data(larger);
        larger
    }

    /// Sets how many streams of a direction the peer is to be able to use at a time, and queues MAX_STREAMS where it is
    /// due. A refusal changes nothing; where no more streams are permitted there is none.
    pub fn set_max_concurrent(&mut self, dir: Dir, count: VarInt) -> Result<(), OutOfMemory>
        ensures sets { SetsConcurrentAt (endpoint_view self.old) dir count result (endpoint_view self.new) }
        ensures unneeded { lacking (remote_of (endpoint_view self.old).streams dir) count ≡ 0 → IsOk result }
        ensures from { (m : Made) (h : List Event) → From m h (endpoint_view self.old).streams → From m (SetConcurrent dir count result ∷ h) (endpoint_view self.new).streams }
    {
        let answer = self.streams.set_max_concurrent(dir, count);
        self.tell_counts_if(answer.is_ok());
        answer
    }

    /// What the application is to be told next, if there is something.
    pub fn poll(&mut self) -> Option<StreamEvent>
        ensures polls { TellsNext (endpoint_view self.old).streams result (endpoint_view self.new).streams }
        ensures pending { (endpoint_view self.new).pending ≡ (endpoint_view self.old).pending }
        ensures from { (m : Made) (h : List Event) → From m h (endpoint_view self.old).streams → From m (Sending (Polled result) ∷ h) (endpoint_view self.new).streams }
    {
        self.streams.poll()
    }

    /// The state of the streams.
    pub fn streams(&self) -> &StreamsState
        ensures { streams_view result.now ≡ (endpoint_view self.now).streams }
    {
        &self.streams
    }

    /// How many bidirectional and unidirectional streams the peer has open, and how many streams have send state: those
    /// that this endpoint opened and those of the peer that it accepted, until they are freed.
    pub fn stream_counts(&mut self) -> (u64, u64, usize)
        ensures bi { result.0 ≡ open_now (endpoint_view self.old).streams.bi }
        ensures uni { result.1 ≡ open_now (endpoint_view self.old).streams.uni }
        ensures send { result.2 ≡ (endpoint_view self.old).streams.send_streams }
        ensures same { endpoint_view self.new ≡ endpoint_view self.old }
    {
        let streams = Streams::new(&mut self.streams, ConnState::Open);
        let (bi, uni) = (Dir::Bi, Dir::Uni);
        (
            streams.remote_open_streams(bi),
            streams.remote_open_streams(uni),
            streams.send_streams(),
        )
    }

    // MAX_STREAMS is queued where it is due, if a call was not refused for lack of memory.
    pub(crate) fn tell_counts_if(&mut self, handled: bool)
        ensures { endpoint_view self.new ≡ with_counts_told_if handled (endpoint_view self.old) }
    {
        if handled {
            let _ = self.streams.queue_max_stream_id(&mut self.pending);
        }
    }
}
