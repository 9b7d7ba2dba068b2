//! The receive halves of a connection's streams.

ghost use Rattle.std.specs.Prelude.{ℕ, [], Err, IfErr, true, ◌≡◌, ◌+◌, ◌<◌, ◌≤◌, length, ◌^◌, Some, None, IsSome, IfSome, IfOk, OnOk, OnErr, IsOk, is_some, false};
ghost use Rattle.std.specs.Option.{option_map};
ghost use Rattle.std.specs.Vec.{vec_capacity};
ghost use Rattle.quic_receiving.specs.Half.{new_half, is_window_due};
ghost use Rattle.quic_receiving.specs.Calls.{Reads};
ghost use Rattle.quic_streams.specs.Held.{halves_view, half_in, room};
ghost use Rattle.quic_streams.specs.InPlace.{mode_of, IsInMode, ReadsIn, AsksHalf, AsksIn, IngestsOn, IngestsIn};
ghost use Rattle.quic_streams.specs.HalfReads.{ReadsSomeIn, is_due_after};
ghost use Rattle.quic_history.specs.Reading.{is_reading, bytes_in};
ghost use Rattle.quic_history.specs.Halves.{with_half, with_first, with_more, taken, is_due_in, TellsCode};
ghost use Rattle.quic_outgoing.specs.Senders.{are_one_end};
ghost use Rattle.quic_history.specs.Early.{without_own};
ghost use Rattle.quic_history.specs.Permitting.{is_flow_controlled};
ghost use Rattle.quic_history.specs.Control.{announced_end, after_announced, with_announced};

use crate::half_reads::{HalfReads, read_some_on};
use crate::spare::SpareHalves;
use quic_assembler::{Chunk, EnsureError};
use quic_history::progress::Progress;
use quic_receiving::{ClosedStream, ReadError, ReadableError, Recv};
use quic_values::{Dir, OutOfMemory, Side, StreamId, VarInt};
use quic_wire::{ReceiveError, frame};
use std::alloc::Global;
use std::collections::HashMap;

/// The receive halves of the streams that are open, or that the peer may open. One to which nothing came takes no
/// memory of its own.
#[derive(Drop)]
pub struct ReceiveHalves {
    pub(crate) alloc: Global,
    // The first limit of each stream.
    window: VarInt,
    // `None` is a half to which nothing came.
    entries: HashMap<StreamId, Option<Box<Recv>>>,
    spare: SpareHalves,
}

/// What came of a frame that reached a half.
#[derive(Drop)]
pub struct Ingested {
    pub(crate) answer: Result<(u64, bool), ReceiveError>,
    // By how much the highest offset received grew.
    pub(crate) grown: u64,
    // Whether the half is stopped.
    pub(crate) stopped: bool,
}

#[tactic(auto, unfolding(crate::specs::Held::halves_view, quic_history::specs::Halves::with_half))]
impl ReceiveHalves {
    /// No halves. Takes no memory.
    pub(crate) fn new(alloc: Global, window: VarInt) -> Self
        ensures held { halves_view result ≡ (λ id. None) }
        ensures window { result.window ≡ window }
    {
        ReceiveHalves {
            alloc,
            window,
            entries: HashMap::new(alloc),
            spare: SpareHalves::new(alloc),
        }
    }

    /// Makes room for so many more.
    #[inline]
    pub(crate) fn reserve(&mut self, additional: usize) -> Result<(), OutOfMemory>
        ensures held { halves_view self.new ≡ halves_view self.old }
        ensures window { self.new.window ≡ self.old.window }
        ensures ok { OnOk result (additional ≤ room self.new) }
        ensures unneeded { additional ≤ room self.old → IsOk result }
        ensures room { room self.old ≤ room self.new }
    {
        self.entries.reserve(additional)?;
        Ok(())
    }

    /// A stream is permitted, for which there is room.
    pub(crate) fn permit(&mut self, id: StreamId)
        requires { 0 < room self.old }
        ensures held { halves_view self.new ≡ with_half (halves_view self.old) id (Some (new_half self.old.window)) }
        ensures window { self.new.window ≡ self.old.window }
        ensures room { room self.old ≤ room self.new + 1 }
    {
        let _ = self.entries.insert(id, None);
    }

    /// The first so many streams of an initiator and a direction are permitted.
    pub(crate) fn permit_first(
        &mut self,
        initiator: Side,
        dir: Dir,
        count: u64,
    ) -> Result<(), OutOfMemory>
        requires { count ≤ 2 ^ 60 }
        ensures held { OnOk result (halves_view self.new ≡ with_first (halves_view self.old) initiator dir count (Some (new_half self.old.window))) }
        ensures window { self.new.window ≡ self.old.window }
    {
        self.reserve(count as usize)?;
        for index in 0..count {
            self.permit(StreamId::new(initiator, dir, index));
        }
        Ok(())
    }

    /// So many streams of an initiator and a direction are permitted, from an index on. There is room for them.
    pub(crate) fn permit_more(&mut self, initiator: Side, dir: Dir, first: u64, count: u64)
        requires room { count ≤ room self.old }
        requires few { first + count ≤ 2 ^ 60 }
        ensures held { halves_view self.new ≡ with_more (halves_view self.old) initiator dir first count (Some (new_half self.old.window)) }
        ensures window { self.new.window ≡ self.old.window }
    {
        for offset in 0..count {
            self.permit(StreamId::new(initiator, dir, first + offset));
        }
    }

    /// Whether the half of a stream is held.
    #[inline]
    pub(crate) fn contains(&self, id: StreamId) -> bool
        ensures { result ≡ is_some (halves_view self.now id) }
    {
        self.entries.contains_key(&id)
    }

    /// Whether the half of a stream is held, is not stopped, and its final size is not known.
    pub(crate) fn is_flow_controlled(&self, id: StreamId) -> bool
        ensures { result ≡ is_flow_controlled (halves_view self.now id) }
    {
        match self.entries.get(&id) {
            None => false,
            Some(None) => true,
            Some(Some(half)) => !half.is_stopped() && half.final_offset_unknown(),
        }
    }

    /// Takes a half out, to be put back or removed. It is made where nothing came yet.
    #[inline]
    pub(crate) fn take(&mut self, id: StreamId) -> Result<Option<Box<Recv>>, OutOfMemory>
        ensures half { IfOk result (λ half. option_map (λ b. b.value) half ≡ halves_view self.old id) }
        ensures held { IfOk result (λ half. halves_view self.new ≡ taken (halves_view self.old) id self.old.window (halves_view self.old id)) }
        ensures err { OnErr result (halves_view self.new ≡ halves_view self.old) }
        ensures err_new { OnErr result (halves_view self.old id ≡ Some (new_half self.old.window)) }
        ensures window { self.new.window ≡ self.old.window }
        ensures room { room self.new ≡ room self.old }
    {
        let used = match self.entries.get_mut(&id) {
            None => return Ok(None),
            Some(entry) => entry.take(),
        };
        match used {
            Some(half) => Ok(Some(half)),
            None => {
                let half = self.spare.make(self.window)?;
                Ok(Some(half))
            }
        }
    }

    /// Reads a half that is held in this mode, where it lies.
    #[inline]
    pub(crate) fn read(
        &mut self,
        id: StreamId,
        max_length: usize,
        ordered: bool,
    ) -> Result<Option<Chunk>, ReadError>
        requires { IsInMode (halves_view self.old id) ordered }
        ensures reads { ReadsIn (halves_view self.old) id max_length ordered result (halves_view self.new) }
        ensures window { self.new.window ≡ self.old.window }
        ensures room { room self.new ≡ room self.old }
    {
        match self.entries.get_mut(&id) {
            None => unreachable!(),
            Some(entry) => read_on(entry, max_length, ordered),
        }
    }

    /// Asks a half for a mode, and reads it until nothing more comes or so many chunks were given, for which there is
    /// room, where it lies.
    #[inline]
    pub(crate) fn read_some(
        &mut self,
        id: StreamId,
        ordered: bool,
        max_length: usize,
        times: u16,
        list: Vec<Chunk>,
    ) -> Result<HalfReads, ReadableError>
        requires empty { list.items ≡ [] }
        requires places { times ≤ vec_capacity list }
        ensures reads { IfOk result (λ r. ReadsSomeIn (halves_view self.old) id max_length times ordered r.chunks.items r.last (halves_view self.new)) }
        ensures bytes { IfOk result (λ r. r.read ≡ bytes_in r.chunks.items) }
        ensures due { IfOk result (λ r. r.window_due ≡ is_due_after r.last self.new.window (halves_view self.new id)) }
        ensures refused { IfErr result (λ error. AsksIn (halves_view self.old) id ordered (Err error) (halves_view self.new)) }
        ensures window { self.new.window ≡ self.old.window }
        ensures room { room self.new ≡ room self.old }
    {
        match self.entries.get_mut(&id) {
            None => Err(ReadableError::ClosedStream),
            Some(entry) => read_some_on(
                &mut self.spare,
                self.window,
                entry,
                ordered,
                max_length,
                times,
                list,
            ),
        }
    }

    /// Asks a half for a mode, where it lies.
    #[inline]
    pub(crate) fn ask(&mut self, id: StreamId, ordered: bool) -> Result<(), ReadableError>
        ensures asks { AsksIn (halves_view self.old) id ordered result (halves_view self.new) }
        ensures reading { OnOk result (is_reading Progress.Readable (halves_view self.new id) ordered 0 ≡ true) }
        ensures window { self.new.window ≡ self.old.window }
        ensures room { room self.new ≡ room self.old }
    {
        match self.entries.get_mut(&id) {
            None => Err(ReadableError::ClosedStream),
            Some(entry) => ask_on(&mut self.spare, self.window, entry, ordered),
        }
    }

    /// Takes a STREAM frame on its half, where that lies. `None`: it is dropped, since the half is not held or was
    /// reset. `received` of `permitted` bytes came on all streams.
    #[inline]
    pub(crate) fn ingest(
        &mut self,
        frame: frame::Stream,
        payload_len: usize,
        received: u64,
        permitted: u64,
    ) -> Result<Option<Ingested>, OutOfMemory>
        requires { length frame.bytes ≤ payload_len }
        ensures ingests { IfOk result (λ taken. IngestsIn (halves_view self.old) frame.id frame.offset frame.bytes frame.fin payload_len received permitted taken (halves_view self.new)) }
        ensures err { OnErr result (halves_view self.new ≡ halves_view self.old) }
        ensures window { self.new.window ≡ self.old.window }
        ensures room { room self.new ≡ room self.old }
    {
        let id = frame.id;
        let window = self.window;
        match self.entries.get_mut(&id) {
            None => Ok(None),
            Some(entry) => ingest_on(
                &mut self.spare,
                window,
                entry,
                frame,
                payload_len,
                received,
                permitted,
            ),
        }
    }

    /// Whether MAX_STREAM_DATA is worth a frame on a stream.
    #[inline]
    pub(crate) fn is_window_due(&self, id: StreamId) -> bool
        ensures { result ≡ is_due_in self.now.window (halves_view self.now id) }
    {
        match self.entries.get(&id) {
            None => false,
            Some(entry) => is_window_due_on(entry, self.window),
        }
    }

    /// The limit to announce for a stream, where more data may come and are wanted.
    pub(crate) fn announced_end(&self, id: StreamId) -> Option<u64>
        ensures limit { result ≡ announced_end self.now.window (halves_view self.now id) }
        ensures small { IfSome result (λ limit. limit < 2 ^ 62) }
    {
        match self.entries.get(&id) {
            None => None,
            Some(None) => Some(self.window.into_inner()),
            Some(Some(half)) => {
                if half.is_stopped() || !half.final_offset_unknown() {
                    return None;
                }
                Some(half.max_stream_data(self.window.into_inner()).0)
            }
        }
    }

    /// The limit of [`ReceiveHalves::announced_end`], if there is one, was announced.
    pub(crate) fn announce(&mut self, id: StreamId)
        ensures held { halves_view self.new ≡ after_announced (halves_view self.old) self.old.window id (halves_view self.old id) }
        ensures window { self.new.window ≡ self.old.window }
        ensures room { room self.new ≡ room self.old }
    {
        let window = self.window;
        match self.entries.get_mut(&id) {
            Some(entry) => announce_on(entry, window),
            None => {}
        }
    }

    /// The code of the reset of a stream that is not stopped, if it was reset.
    pub(crate) fn reset_code(&self, id: StreamId) -> Result<Option<VarInt>, ClosedStream>
        ensures { TellsCode (halves_view self.now id) result }
    {
        match self.entries.get(&id) {
            None => Err(ClosedStream),
            Some(None) => Ok(None),
            Some(Some(half)) => {
                if half.is_stopped() {
                    return Err(ClosedStream);
                }
                Ok(half.reset_code())
            }
        }
    }

    /// Puts a half back.
    #[inline]
    pub(crate) fn put(&mut self, id: StreamId, half: Box<Recv>)
        requires { is_some (halves_view self.old id) ≡ true }
        ensures held { halves_view self.new ≡ with_half (halves_view self.old) id (Some half.value) }
        ensures window { self.new.window ≡ self.old.window }
        ensures room { room self.new ≡ room self.old }
    {
        match self.entries.get_mut(&id) {
            Some(entry) => *entry = Some(half),
            None => unreachable!(),
        }
    }

    /// Lets a half go.
    pub(crate) fn remove(&mut self, id: StreamId)
        ensures held { halves_view self.new ≡ with_half (halves_view self.old) id None }
        ensures window { self.new.window ≡ self.old.window }
        ensures room { room self.old ≤ room self.new }
    {
        let entry = self.entries.remove(&id);
        self.spare.keep(entry);
    }

    /// Lets the halves of the streams of one end go.
    pub(crate) fn remove_of(&mut self, side: Side)
        ensures held { halves_view self.new ≡ without_own side (halves_view self.old) }
        ensures window { self.new.window ≡ self.old.window }
        ensures room { room self.old ≤ room self.new }
    {
        self.entries
            .retain(|id, _| !are_one_end(side, id.initiator()));
    }
}

// Whether two ends are one.
fn are_one_end(a: Side, b: Side) -> bool
    ensures { result ≡ are_one_end a b }
{
    match (a, b) {
        (Side::Client, Side::Client) => true,
        (Side::Client, Side::Server) => false,
        (Side::Server, Side::Client) => false,
        (Side::Server, Side::Server) => true,
    }
}

// The limit of a half is announced, where more data may come and are wanted. That of a new half was announced by the
// transport parameters.
fn announce_on(entry: &mut Option<Box<Recv>>, window: VarInt)
    ensures { half_in window entry.new ≡ with_announced window (half_in window entry.old) }
{
    if let Some(half) = entry
        && !half.is_stopped()
        && half.final_offset_unknown()
    {
        let limit = half.max_stream_data(window.into_inner()).0;
        half.record_sent_max_stream_data(limit);
    }
}

// Whether MAX_STREAM_DATA is worth a frame on the stream of an entry.
#[inline]
pub(crate) fn is_window_due_on(entry: &Option<Box<Recv>>, window: VarInt) -> bool
    ensures { result ≡ is_window_due (half_in window entry.now) window }
{
    match entry {
        // Nothing was read.
        None => window.into_inner() < 8,
        Some(half) => half
            .max_stream_data(window.into_inner())
            .1
            .should_transmit(),
    }
}

// Reads the half of an entry. Of one to which nothing came there is nothing to read.
#[inline]
pub(crate) fn read_on(
    entry: &mut Option<Box<Recv>>,
    max_length: usize,
    ordered: bool,
) -> Result<Option<Chunk>, ReadError>
    requires { mode_of entry.old ≡ ordered }
    ensures reads { (window : ℕ) → Reads (half_in window entry.old) max_length result (half_in window entry.new) }
    ensures mode { mode_of entry.new ≡ ordered }
    ensures bound { (window : ℕ) → (half_in window entry.new).buffer.bytes_read < 2 ^ 64 }
{
    match entry {
        None => Err(ReadError::Blocked),
        Some(half) => {
            let answer = half.next(max_length, ordered);
            // All that was read came, so its count is a `u64`.
            let _read = half.bytes_read();
            answer
        }
    }
}

// Makes the half of an entry to which nothing came.
#[inline(always)]
fn make_half(
    spare: &mut SpareHalves,
    window: VarInt,
    entry: &mut Option<Box<Recv>>,
) -> Result<(), OutOfMemory>
    ensures same { half_in window entry.new ≡ half_in window entry.old }
    ensures made { OnOk result (is_some entry.new ≡ true) }
{
    if entry.is_some() {
        return Ok(());
    }
    put_new_half(spare, window, entry)
}

// Puts a new half into an entry to which nothing came.
#[inline(never)]
fn put_new_half(
    spare: &mut SpareHalves,
    window: VarInt,
    entry: &mut Option<Box<Recv>>,
) -> Result<(), OutOfMemory>
    requires { is_some entry.old ≡ false }
    ensures same { half_in window entry.new ≡ half_in window entry.old }
    ensures made { OnOk result (is_some entry.new ≡ true) }
{
    let half = spare.make(window)?;
    *entry = Some(half);
    Ok(())
}

// Asks the half of an entry for a mode.
#[inline]
pub(crate) fn ask_on(
    spare: &mut SpareHalves,
    window: VarInt,
    entry: &mut Option<Box<Recv>>,
    ordered: bool,
) -> Result<(), ReadableError>
    ensures asks { AsksHalf (half_in window entry.old) ordered result (half_in window entry.new) }
    ensures reading { OnOk result (is_reading Progress.Readable (Some (half_in window entry.new)) ordered 0 ≡ true) }
{
    // A new half is read in order.
    if ordered && entry.is_none() {
        return Ok(());
    }
    if make_half(spare, window, entry).is_err() {
        return Err(ReadableError::OutOfMemory);
    }
    match entry {
        None => unreachable!(),
        Some(half) => ask_half(half, ordered),
    }
}

// Asks a half for a mode.
#[inline]
fn ask_half(half: &mut Recv, ordered: bool) -> Result<(), ReadableError>
    ensures asks { AsksHalf half.old ordered result half.new }
    ensures reading { OnOk result (is_reading Progress.Readable (Some half.new) ordered 0 ≡ true) }
{
    if half.is_stopped() {
        return Err(ReadableError::ClosedStream);
    }
    match half.ensure_ordering(ordered) {
        Ok(()) => Ok(()),
        Err(EnsureError::IllegalOrderedRead) => Err(ReadableError::IllegalOrderedRead),
        Err(EnsureError::OutOfMemory) => Err(ReadableError::OutOfMemory),
    }
}

// Takes a STREAM frame on the half of an entry.
#[inline]
fn ingest_on(
    spare: &mut SpareHalves,
    window: VarInt,
    entry: &mut Option<Box<Recv>>,
    frame: frame::Stream,
    payload_len: usize,
    received: u64,
    permitted: u64,
) -> Result<Option<Ingested>, OutOfMemory>
    requires { length frame.bytes ≤ payload_len }
    ensures ingests { IfOk result (λ taken. IngestsOn (half_in window entry.old) frame.offset frame.bytes frame.fin payload_len received permitted taken (half_in window entry.new)) }
    ensures err { OnErr result (half_in window entry.new ≡ half_in window entry.old) }
{
    make_half(spare, window, entry)?;
    match entry {
        None => unreachable!(),
        Some(half) => Ok(ingest_half(half, frame, payload_len, received, permitted)),
    }
}

// Takes a STREAM frame on a half.
#[inline]
fn ingest_half(
    half: &mut Recv,
    frame: frame::Stream,
    payload_len: usize,
    received: u64,
    permitted: u64,
) -> Option<Ingested>
    requires { length frame.bytes ≤ payload_len }
    ensures { IngestsOn half.old frame.offset frame.bytes frame.fin payload_len received permitted result half.new }
{
    if !half.is_receiving() {
        return None;
    }
    let high = half.end();
    let stopped = half.is_stopped();
    let answer = half.ingest(frame, payload_len, received, permitted);
    Some(Ingested {
        answer,
        grown: half.end() - high,
        stopped,
    })
}
