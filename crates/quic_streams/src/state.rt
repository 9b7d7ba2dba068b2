//! The streams of one end of a connection.

ghost use Rattle.std.specs.Prelude.{[], ◌≡◌, ◌+◌, ◌-◌, ◌<◌, ◌≤◌, ◌^◌, IfOk, IfErr, IfSome, OnOk, OnErr, IsOk, IfNone, Some, None, Err, is_some, true, false, length};
ghost use Rattle.std.specs.Vec.{vec_capacity};
ghost use Rattle.std.specs.Option.{option_map};
ghost use Rattle.quic_receiving.specs.Half.{new_half};
ghost use Rattle.quic_streams.specs.Held.{room};
ghost use Rattle.quic_streams.specs.InPlace.{IsInMode, ReadsIn, AsksIn, IngestsIn, ChangesHalves};
ghost use Rattle.quic_streams.specs.HalfReads.{ReadsSomeIn, is_due_after};
ghost use Rattle.quic_history.specs.Reading.{is_reading, bytes_in};
ghost use Rattle.quic_history.specs.Halves.{is_due_in, TellsCode};
ghost use Rattle.quic_outgoing.specs.Shown.{outgoing_view, permit_room};
ghost use Rattle.quic_streams.specs.Room.{rooms, HasEventRoom};
ghost use Rattle.quic_history.specs.History.{From};
ghost use Rattle.quic_history.specs.World.{made_with, World, start, id_refusal, is_own, is_same_side, own_refusal, with_permitted, replaced_in, released, with_freed, told_readable, noticed, with_receive, with_counted};
ghost use Rattle.quic_history.specs.Sends.{is_permitted};
ghost use Rattle.quic_streams.specs.Shown.{streams_view};

use crate::half_reads::HalfReads;
use crate::halves::{Ingested, ReceiveHalves};
use quic_assembler::Chunk;
use quic_history::progress::Progress;
use quic_limits::{ReceiveCredit, RemoteStreams};
use quic_outgoing::OutgoingStreams;
use quic_queue::SendQueue;
use quic_receiving::{ClosedStream, ReadError, ReadableError, Recv};
use quic_values::{Dir, OutOfMemory, Side, StreamId, VarInt};
use quic_wire::{StreamEvent, TransportError, frame};
use std::alloc::Global;
use std::collections::VecDeque;

/// The streams of one end of a connection (RFC 9000 sections 2 to 4).
#[derive(Drop)]
pub struct StreamsState {
    pub(crate) credit: ReceiveCredit,
    // The streams that the peer may open.
    pub(crate) bi: RemoteStreams,
    pub(crate) uni: RemoteStreams,
    pub(crate) receive: ReceiveHalves,
    // Which end this is, and what it sends.
    pub(crate) outgoing: OutgoingStreams,
    // The streams on which something is to be sent.
    pub(crate) queue: SendQueue,
    pub(crate) events: VecDeque<StreamEvent>,
    // How many send halves are held of the streams that this end opened or accepted.
    pub(crate) send_streams: usize,
    // Whether it was set how many streams the peer is to be able to use at a time.
    pub(crate) adjusted: bool,
}

#[tactic(auto, unfolding(crate::specs::Shown::streams_view, quic_history::specs::World::with_receive, crate::specs::Room::rooms, crate::specs::Room::HasEventRoom))]
impl StreamsState {
    /// The streams of one end, of which none is open. The peer may open so many unidirectional and bidirectional
    /// streams, and send `receive_window` bytes in all, and `stream_window` on each stream, before credit is
    /// given. `send_window` is how many bytes that were written this end keeps at most until they are acknowledged.
    pub fn new(
        alloc: Global,
        side: Side,
        max_remote_uni: VarInt,
        max_remote_bi: VarInt,
        send_window: u64,
        receive_window: VarInt,
        stream_window: VarInt,
    ) -> Result<Self, OutOfMemory>
        requires uni { max_remote_uni ≤ 2 ^ 60 }
        requires bi { max_remote_bi ≤ 2 ^ 60 }
        ensures start { IfOk result (λ state. streams_view state ≡ start (made_with side max_remote_uni max_remote_bi send_window receive_window stream_window)) }
        ensures from { IfOk result (λ state. From (made_with side max_remote_uni max_remote_bi send_window receive_window stream_window) [] (streams_view state)) }
    {
        let (uni, bi) = (max_remote_uni.into_inner(), max_remote_bi.into_inner());
        let mut receive = ReceiveHalves::new(alloc, stream_window);
        let mut outgoing = OutgoingStreams::new(alloc, side, send_window);
        receive.permit_first(!side, Dir::Bi, bi)?;
        receive.permit_first(!side, Dir::Uni, uni)?;
        outgoing.reserve(bi as usize)?;
        outgoing.permit_more(0, bi);
        Ok(StreamsState {
            credit: ReceiveCredit::new(receive_window),
            bi: RemoteStreams::new(bi),
            uni: RemoteStreams::new(uni),
            receive,
            outgoing,
            queue: SendQueue::new(alloc),
            events: VecDeque::new(alloc),
            send_streams: 0,
            adjusted: false,
        })
    }

    /// Whether this end opened a stream, or is to open it.
    #[inline]
    pub fn is_own(&self, id: StreamId) -> bool
        ensures { result ≡ is_own (streams_view self.now) id }
    {
        is_same_side(self.outgoing.side(), id.initiator())
    }

    // The error of a frame on a stream that the peer may not send on, or may not open.
    #[inline]
    pub(crate) fn validate_receive_id(&self, id: StreamId) -> Result<(), TransportError>
        ensures ok { OnOk result (id_refusal (streams_view self.now) id ≡ None) }
        ensures err { IfErr result (λ error. id_refusal (streams_view self.now) id ≡ Some error.code) }
    {
        if self.is_own(id) {
            return self.validate_own(id.dir(), id.index());
        }
        let max_remote = match id.dir() {
            Dir::Bi => self.bi.max_remote(),
            Dir::Uni => self.uni.max_remote(),
        };
        if id.index() >= max_remote {
            return Err(TransportError::stream_limit_error(""));
        }
        Ok(())
    }

    // The same for a stream of this end.
    fn validate_own(&self, dir: Dir, index: u64) -> Result<(), TransportError>
        ensures ok { OnOk result (own_refusal (streams_view self.now) dir index ≡ None) }
        ensures err { IfErr result (λ error. own_refusal (streams_view self.now) dir index ≡ Some error.code) }
    {
        match dir {
            Dir::Uni => Err(TransportError::stream_state_error(
                "illegal operation on send-only stream",
            )),
            Dir::Bi => {
                if index >= self.outgoing.opened(Dir::Bi) {
                    return Err(TransportError::stream_state_error("operation on unopened stream"));
                }
                Ok(())
            }
        }
    }

    // Makes room for a stream that takes the place of a freed one.
    #[inline]
    pub(crate) fn make_stream_room(&mut self) -> Result<(), OutOfMemory>
        ensures same { streams_view self.new ≡ streams_view self.old }
        ensures rooms { OnOk result (1 ≤ rooms self.new) }
        ensures unneeded { 1 ≤ rooms self.old → IsOk result }
        ensures events { HasEventRoom self.old → HasEventRoom self.new }
    {
        self.receive.reserve(1)?;
        self.outgoing.reserve(1)?;
        Ok(())
    }

    // Makes the room that a frame may need: for an event, and for a stream that takes the place of a freed one.
    #[inline]
    pub(crate) fn make_room(&mut self) -> Result<(), OutOfMemory>
        ensures same { streams_view self.new ≡ streams_view self.old }
        ensures rooms { OnOk result (1 ≤ rooms self.new) }
        ensures events { OnOk result (HasEventRoom self.new) }
        ensures unneeded { 1 ≤ rooms self.old → HasEventRoom self.old → IsOk result }
    {
        self.make_stream_room()?;
        self.events.reserve(1)?;
        Ok(())
    }

    // Takes a receive half out, to be put back or freed. It is made where nothing came yet.
    #[inline]
    pub(crate) fn take_half(&mut self, id: StreamId) -> Result<Option<Box<Recv>>, OutOfMemory>
        ensures half { IfOk result (λ half. option_map (λ b. b.value) half ≡ (streams_view self.old).receive id) }
        ensures taken { IfOk result (λ half. IfSome half (λ _. streams_view self.new ≡ with_receive (streams_view self.old) id (Some (new_half (streams_view self.old).window)))) }
        ensures none { IfOk result (λ half. IfNone half (streams_view self.new ≡ streams_view self.old)) }
        ensures err { OnErr result (streams_view self.new ≡ streams_view self.old) }
        ensures err_new { OnErr result ((streams_view self.old).receive id ≡ Some (new_half (streams_view self.old).window)) }
        ensures events { HasEventRoom self.old → HasEventRoom self.new }
        ensures rooms { rooms self.new ≡ rooms self.old }
    {
        self.receive.take(id)
    }

    // Puts a receive half back.
    #[inline]
    pub(crate) fn put_half(&mut self, id: StreamId, half: Box<Recv>)
        requires { is_some ((streams_view self.old).receive id) ≡ true }
        ensures put { streams_view self.new ≡ with_receive (streams_view self.old) id (Some half.value) }
        ensures events { HasEventRoom self.old → HasEventRoom self.new }
        ensures rooms { rooms self.new ≡ rooms self.old }
    {
        self.receive.put(id, half);
    }

    // Reads a receive half that is in this mode, where it lies.
    #[inline]
    pub(crate) fn read_in_place(
        &mut self,
        id: StreamId,
        max_length: usize,
        ordered: bool,
    ) -> Result<Option<Chunk>, ReadError>
        requires { IsInMode ((streams_view self.old).receive id) ordered }
        ensures reads { ReadsIn (streams_view self.old).receive id max_length ordered result (streams_view self.new).receive }
        ensures halves { ChangesHalves (streams_view self.old) (streams_view self.new) }
        ensures events { HasEventRoom self.old → HasEventRoom self.new }
        ensures rooms { rooms self.new ≡ rooms self.old }
    {
        self.receive.read(id, max_length, ordered)
    }

    // Asks a receive half for a mode, and reads it until nothing more comes or so many chunks were given, for which there
    // is room, where it lies.
    #[inline]
    pub(crate) fn read_some_in_place(
        &mut self,
        id: StreamId,
        ordered: bool,
        max_length: usize,
        times: u16,
        list: Vec<Chunk>,
    ) -> Result<HalfReads, ReadableError>
        requires empty { list.items ≡ [] }
        requires places { times ≤ vec_capacity list }
        ensures reads { IfOk result (λ r. ReadsSomeIn (streams_view self.old).receive id max_length times ordered r.chunks.items r.last (streams_view self.new).receive) }
        ensures bytes { IfOk result (λ r. r.read ≡ bytes_in r.chunks.items) }
        ensures due { IfOk result (λ r. r.window_due ≡ is_due_after r.last (streams_view self.new).window ((streams_view self.new).receive id)) }
        ensures refused { IfErr result (λ error. AsksIn (streams_view self.old).receive id ordered (Err error) (streams_view self.new).receive) }
        ensures halves { ChangesHalves (streams_view self.old) (streams_view self.new) }
        ensures rooms { rooms self.new ≡ rooms self.old }
    {
        self.receive.read_some(id, ordered, max_length, times, list)
    }

    // Asks a receive half for a mode, where it lies.
    #[inline]
    pub(crate) fn ask_in_place(&mut self, id: StreamId, ordered: bool) -> Result<(), ReadableError>
        ensures asks { AsksIn (streams_view self.old).receive id ordered result (streams_view self.new).receive }
        ensures reading { OnOk result (is_reading Progress.Readable ((streams_view self.new).receive id) ordered 0 ≡ true) }
        ensures halves { ChangesHalves (streams_view self.old) (streams_view self.new) }
        ensures rooms { rooms self.new ≡ rooms self.old }
    {
        self.receive.ask(id, ordered)
    }

    // Takes a STREAM frame on its receive half, where that lies. `None` where it is dropped.
    #[inline]
    pub(crate) fn ingest_in_place(
        &mut self,
        frame: frame::Stream,
        payload_len: usize,
        received: u64,
        permitted: u64,
    ) -> Result<Option<Ingested>, OutOfMemory>
        requires { length frame.bytes ≤ payload_len }
        ensures ingests { IfOk result (λ taken. IngestsIn (streams_view self.old).receive frame.id frame.offset frame.bytes frame.fin payload_len received permitted taken (streams_view self.new).receive) }
        ensures err { OnErr result (streams_view self.new ≡ streams_view self.old) }
        ensures halves { ChangesHalves (streams_view self.old) (streams_view self.new) }
        ensures events { HasEventRoom self.old → HasEventRoom self.new }
        ensures rooms { rooms self.new ≡ rooms self.old }
    {
        self.receive.ingest(frame, payload_len, received, permitted)
    }

    // Whether MAX_STREAM_DATA is worth a frame on a stream.
    #[inline]
    pub(crate) fn is_window_due(&self, id: StreamId) -> bool
        ensures { result ≡ is_due_in (streams_view self.now).window ((streams_view self.now).receive id) }
    {
        self.receive.is_window_due(id)
    }

    // The code of the reset of a stream that is not stopped, if it was reset.
    pub(crate) fn reset_code(&self, id: StreamId) -> Result<Option<VarInt>, ClosedStream>
        ensures { TellsCode ((streams_view self.now).receive id) result }
    {
        self.receive.reset_code(id)
    }

    // How many bytes of all streams were received, and how many are permitted.
    #[inline]
    pub(crate) fn received_of_permitted(&self) -> (u64, u64)
        ensures received { result.0 ≡ (streams_view self.now).credit.data_recvd }
        ensures permitted { result.1 ≡ (streams_view self.now).credit.local_max_data }
    {
        (self.credit.data_recvd(), self.credit.local_max_data())
    }

    // Counts bytes that lie above what was received before.
    #[inline]
    pub(crate) fn count(&mut self, new_bytes: u64)
        requires { (streams_view self.old).credit.data_recvd + new_bytes < 2 ^ 64 }
        ensures counted { streams_view self.new ≡ with_counted (streams_view self.old) new_bytes }
        ensures events { HasEventRoom self.old → HasEventRoom self.new }
        ensures rooms { rooms self.new ≡ rooms self.old }
    {
        self.credit.count(new_bytes);
    }

    // A stream of the peer is permitted.
    fn permit_uni(&mut self, index: u64)
        requires room { 0 < room self.old.receive }
        requires index { index < 2 ^ 60 }
        ensures { streams_view self.new ≡ with_permitted (streams_view self.old) Dir.Uni index }
    {
        self.receive
            .permit(StreamId::new(!self.outgoing.side(), Dir::Uni, index));
    }

    fn permit_bi(&mut self, index: u64)
        requires room { 0 < room self.old.receive }
        requires send_room { 0 < permit_room self.old.outgoing }
        requires index { index < 2 ^ 60 }
        ensures permitted { streams_view self.new ≡ with_permitted (streams_view self.old) Dir.Bi index }
        ensures events { HasEventRoom self.old → HasEventRoom self.new }
    {
        let id = StreamId::new(!self.outgoing.side(), Dir::Bi, index);
        self.receive.permit(id);
        self.outgoing.permit(id);
    }

    // A stream of the peer was wholly freed, and another may take its place.
    fn replace_uni(&mut self)
        requires { 0 < room self.old.receive }
        ensures { streams_view self.new ≡ replaced_in (streams_view self.old) Dir.Uni }
    {
        if let Some(index) = self.uni.replace() {
            self.permit_uni(index);
        }
    }

    pub(crate) fn replace_bi(&mut self)
        requires room { 0 < room self.old.receive }
        requires send_room { 0 < permit_room self.old.outgoing }
        ensures replaced { streams_view self.new ≡ replaced_in (streams_view self.old) Dir.Bi }
        ensures events { HasEventRoom self.old → HasEventRoom self.new }
    {
        if let Some(index) = self.bi.replace() {
            self.permit_bi(index);
        }
    }

    // A receive half is freed. There is room for a stream in its place.
    pub(crate) fn free_receive(&mut self, id: StreamId)
        requires { 1 ≤ rooms self.old }
        ensures { streams_view self.new ≡ with_freed (streams_view self.old) id }
    {
        self.receive.remove(id);
        if self.is_own(id) {
            return;
        }
        match id.dir() {
            Dir::Uni => self.replace_uni(),
            Dir::Bi => {
                if !self.outgoing.contains(id) {
                    self.replace_bi();
                }
            }
        }
    }

    // The application is to be told that it may read.
    #[inline]
    fn tell_readable(&mut self, id: StreamId, readable: bool)
        requires { HasEventRoom self.old }
        ensures told { streams_view self.new ≡ told_readable (streams_view self.old) id readable }
        ensures rooms { rooms self.new ≡ rooms self.old }
    {
        if readable {
            self.events.push_back_reserved(StreamEvent::Readable { id });
        }
    }

    // A frame that is not for the application came on a stream. It opens one of the peer that was not open.
    pub(crate) fn notice_open(&mut self, id: StreamId)
        requires { is_permitted (streams_view self.old) id ≡ true }
        ensures { streams_view self.new ≡ noticed (streams_view self.old) id false }
    {
        if self.is_own(id) {
            return;
        }
        let _ = match id.dir() {
            Dir::Bi => self.bi.open_up_to(id.index()),
            Dir::Uni => self.uni.open_up_to(id.index()),
        };
    }

    // A frame came on a stream.
    #[inline]
    pub(crate) fn notice(&mut self, id: StreamId, readable: bool)
        requires event { HasEventRoom self.old }
        requires known { id_refusal (streams_view self.old) id ≡ None }
        ensures noticed { streams_view self.new ≡ noticed (streams_view self.old) id readable }
        ensures rooms { rooms self.new ≡ rooms self.old }
    {
        if self.is_own(id) {
            self.tell_readable(id, readable);
            return;
        }
        let opens = match id.dir() {
            Dir::Bi => self.bi.open_up_to(id.index()),
            Dir::Uni => self.uni.open_up_to(id.index()),
        };
        if !opens {
            self.tell_readable(id, readable);
        }
    }
}

// Whether two ends are one.
#[inline]
fn is_same_side(a: Side, b: Side) -> bool
    ensures { result ≡ is_same_side a b }
{
    match (a, b) {
        (Side::Client, Side::Client) => true,
        (Side::Client, Side::Server) => false,
        (Side::Server, Side::Client) => false,
        (Side::Server, Side::Server) => true,
    }
}
