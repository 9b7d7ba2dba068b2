//! STREAM frames of all streams, in the order of their priorities.

ghost use Rattle.std.specs.Prelude.{◌≡◌, ◌+◌, ◌<◌, ◌≤◌, ◌⊎◌, ℕ, List, [], IfOk, OnOk, OnErr, Some, true, false, length};
ghost use Rattle.smallvec.specs.SmallVec.{HasRoomFor};
ghost use Rattle.quic_outgoing.specs.Shown.{outgoing_view};
ghost use Rattle.quic_outgoing.specs.Transmitting.{sending_priority};
ghost use Rattle.quic_queue.specs.SendOrder.{first, line};
ghost use Rattle.quic_writing.specs.Appended.{AreWritten, AppendsFrames};
ghost use Rattle.quic_writing.specs.Writer.{writer, next_of, TakesTurn, TakesTurns, unreserved};

use quic_outgoing::OutgoingStreams;
use quic_queue::{Entry, Next, SendQueue};
use quic_values::OutOfMemory;
use quic_wire::frame::{Stream, StreamMeta};
use smallvec::SmallVec;

// For how many frames more room is made at once in a payload that has some.
const FURTHER_FRAMES: usize = 4;

/// The STREAM frames of a payload, without their data.
pub type StreamMetaVec = SmallVec<StreamMeta, 4>;

/// Appends STREAM frames (RFC 9000 section 19.8) to a payload of at most `max_size` bytes, and to `sent` what each of
/// them carries, as long as a stream is queued and a frame with the greatest head still fits.
///
/// Each turn is that of the first stream in the queue. It goes out of it or, where more is to be sent on it, is put anew
/// at its present priority where `fair`, and else kept back before all others. A stream that is not held any more, or
/// was reset, is let go. Only the last frame may lack a length, and then it ends the payload at `max_size`.
///
/// If memory is refused, the frames that were appended before stay, and the next one was not begun.
pub fn write_stream_frames(
    streams: &mut OutgoingStreams,
    queue: &mut SendQueue,
    buf: &mut Vec<u8>,
    sent: &mut StreamMetaVec,
    max_size: usize,
    fair: bool,
) -> Result<(), OutOfMemory>
    ensures turns { TakesTurns max_size fair (writer (outgoing_view streams.old) queue.old buf.old.items sent.old.items) (writer (outgoing_view streams.new) queue.new buf.new.items sent.new.items) }
    ensures full { OnOk result ((line queue.new ≡ []) ⊎ (max_size ≤ length buf.new.items + 25)) }
    ensures refused { OnErr result ((0 < length (line queue.new)) × (length buf.new.items + 25 < max_size)) }
    ensures text { (written : ℕ → List ℕ) → AreWritten written (outgoing_view streams.old) → AppendsFrames written max_size (writer (outgoing_view streams.old) queue.old buf.old.items sent.old.items) (writer (outgoing_view streams.new) queue.new buf.new.items sent.new.items) }
{
    take_turns(streams, queue, buf, sent, max_size, fair)
}

// The same, each way out.
fn take_turns(
    streams: &mut OutgoingStreams,
    queue: &mut SendQueue,
    buf: &mut Vec<u8>,
    sent: &mut StreamMetaVec,
    max_size: usize,
    fair: bool,
) -> Result<(), OutOfMemory>
    ensures turns { TakesTurns max_size fair (writer (outgoing_view streams.old) queue.old buf.old.items sent.old.items) (writer (outgoing_view streams.new) queue.new buf.new.items sent.new.items) }
    ensures full { OnOk result ((line queue.new ≡ []) ⊎ (max_size ≤ length buf.new.items + 25)) }
    ensures refused { OnErr result ((0 < length (line queue.new)) × (length buf.new.items + 25 < max_size)) }
{
    while buf.len() + Stream::SIZE_BOUND < max_size {
        if !take_turn(streams, queue, buf, sent, max_size, fair)? {
            break;
        }
    }
    Ok(())
}

// Serves the first stream in the queue. Answers whether there was one.
fn take_turn(
    streams: &mut OutgoingStreams,
    queue: &mut SendQueue,
    buf: &mut Vec<u8>,
    sent: &mut StreamMetaVec,
    max_size: usize,
    fair: bool,
) -> Result<bool, OutOfMemory>
    requires { length buf.old.items + 25 < max_size }
    ensures turn { IfOk result (λ served. served ≡ true → TakesTurn max_size fair (writer (outgoing_view streams.old) queue.old buf.old.items sent.old.items) (writer (outgoing_view streams.new) queue.new buf.new.items sent.new.items)) }
    ensures idle { IfOk result (λ served. served ≡ false → (line queue.old ≡ []) × (writer (outgoing_view streams.new) queue.new buf.new.items sent.new.items ≡ writer (outgoing_view streams.old) queue.old buf.old.items sent.old.items)) }
    ensures some { OnErr result (0 < length (line queue.new)) }
    ensures err { OnErr result (writer (outgoing_view streams.new) queue.new buf.new.items sent.new.items ≡ writer (outgoing_view streams.old) queue.old buf.old.items sent.old.items) }
{
    let Some(entry) = queue.first() else {
        return Ok(false);
    };
    if take_common_turn(streams, queue, &entry, buf, sent, max_size, fair)? {
        return Ok(true);
    }
    take_other_turn(streams, queue, &entry, buf, sent, max_size, fair)?;
    Ok(true)
}

// Serves the first stream in the queue where it has the priority at which it was put, and its own place serves if it is put
// anew. Else answers `false`, and nothing changes.
#[inline]
fn take_common_turn(
    streams: &mut OutgoingStreams,
    queue: &mut SendQueue,
    entry: &Entry,
    buf: &mut Vec<u8>,
    sent: &mut StreamMetaVec,
    max_size: usize,
    fair: bool,
) -> Result<bool, OutOfMemory>
    requires is_first { first queue.old ≡ Some entry.now }
    requires room { length buf.old.items + 25 < max_size }
    ensures turn { IfOk result (λ served. served ≡ true → TakesTurn max_size fair (writer (outgoing_view streams.old) queue.old buf.old.items sent.old.items) (writer (outgoing_view streams.new) queue.new buf.new.items sent.new.items)) }
    ensures passed { IfOk result (λ served. served ≡ false → writer (outgoing_view streams.new) queue.new buf.new.items sent.new.items ≡ writer (outgoing_view streams.old) queue.old buf.old.items sent.old.items) }
    ensures err { OnErr result (writer (outgoing_view streams.new) queue.new buf.new.items sent.new.items ≡ writer (outgoing_view streams.old) queue.old buf.old.items sent.old.items) }
{
    if fair && !queue.keeps_none() {
        return Ok(false);
    }
    reserve_frame(sent)?;
    let written = streams.write_frame_at(entry.id, entry.priority, max_size, buf)?;
    let Some(frame) = written else {
        return Ok(false);
    };
    let next = next_of(fair, entry.priority, frame.has_more);
    queue.end_turn(*entry, next);
    sent.push_reserved(by_fields(frame.meta));
    Ok(true)
}

// The same, field by field. A move as a whole copies what lies unused between the fields too, and such a copy waits until the
// data are stored.
#[inline(always)]
fn by_fields(meta: StreamMeta) -> StreamMeta
    ensures { result ≡ meta }
{
    let StreamMeta { id, offsets, fin } = meta;
    StreamMeta {
        id,
        offsets: offsets.start..offsets.end,
        fin,
    }
}

// Serves the first stream in the queue, at whatever priority it has now, or lets it go.
#[inline(never)]
fn take_other_turn(
    streams: &mut OutgoingStreams,
    queue: &mut SendQueue,
    entry: &Entry,
    buf: &mut Vec<u8>,
    sent: &mut StreamMetaVec,
    max_size: usize,
    fair: bool,
) -> Result<(), OutOfMemory>
    requires is_first { first queue.old ≡ Some entry.now }
    requires room { length buf.old.items + 25 < max_size }
    ensures turn { OnOk result (TakesTurn max_size fair (writer (outgoing_view streams.old) queue.old buf.old.items sent.old.items) (writer (outgoing_view streams.new) queue.new buf.new.items sent.new.items)) }
    ensures err { OnErr result (writer (outgoing_view streams.new) queue.new buf.new.items sent.new.items ≡ writer (outgoing_view streams.old) queue.old buf.old.items sent.old.items) }
{
    let Some(priority) = streams.sending_priority(entry.id) else {
        queue.end_turn(*entry, Next::LetGo);
        return Ok(());
    };
    reserve_place(queue, fair, priority)?;
    reserve_frame(sent)?;
    let frame = streams.write_frame(entry.id, max_size, buf)?;
    let next = next_of(fair, priority, frame.has_more);
    queue.end_turn(*entry, next);
    sent.push_reserved(frame.meta);
    Ok(())
}

// Makes the room to note a frame, and where there is none for several more.
#[inline]
fn reserve_frame(sent: &mut StreamMetaVec) -> Result<(), OutOfMemory>
    ensures same { sent.new.items ≡ sent.old.items }
    ensures room { OnOk result (HasRoomFor sent.new 1) }
{
    if sent.len() == sent.capacity() {
        sent.reserve(FURTHER_FRAMES)?;
    }
    Ok(())
}

// Makes the room to put a stream anew, where that may be.
fn reserve_place(queue: &mut SendQueue, fair: bool, priority: i32) -> Result<(), OutOfMemory>
    ensures same { unreserved queue.new ≡ unreserved queue.old }
    ensures place { OnOk result (fair ≡ true → queue.new.reserved ≡ Some priority) }
{
    if fair {
        queue.reserve(priority)?;
    }
    Ok(())
}

// What becomes of a stream at the end of its turn.
#[inline]
fn next_of(fair: bool, priority: i32, has_more: bool) -> Next
    ensures { result ≡ next_of fair priority has_more }
{
    if !has_more {
        return Next::LetGo;
    }
    if fair {
        Next::PutAnew(priority)
    } else {
        Next::KeepBack
    }
}
