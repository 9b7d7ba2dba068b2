//! The frames that are written of the streams of one end.

ghost use Rattle.std.specs.Prelude.{ℕ, List, [], ◌≡◌, ◌+◌, ◌<◌, ◌≤◌, ◌⊎◌, OnErr, OnOk, is_some, length};
ghost use Rattle.std.specs.List.{list_any};
ghost use Rattle.quic_queue.specs.SendOrder.{ids_of, line};
ghost use Rattle.quic_outgoing.specs.Transmitting.{sending_priority};
ghost use Rattle.quic_writing.specs.Appended.{AreWritten, AppendsFrames};
ghost use Rattle.quic_history.specs.World.{Made};
ghost use Rattle.quic_history.specs.History.{Event, From};
ghost use Rattle.quic_streams.specs.Shown.{streams_view};
ghost use Rattle.quic_streams.specs.Transmitting.{end_writer, WritesStreamFrames, GoesOnWithTurns, told_bytes};

use crate::state::StreamsState;
use quic_values::OutOfMemory;
use quic_writing::{StreamMetaVec, write_stream_frames};

#[tactic(auto, unfolding(crate::specs::Shown::streams_view))]
impl StreamsState {
    /// Appends STREAM frames (RFC 9000 section 19.8) to a payload of at most `max_buf_size` bytes, and to `sent` what
    /// each of them carries, as long as a stream is queued and a frame with the greatest head still fits.
    ///
    /// Streams of a higher priority come first, and those of equal priority as they were queued. A stream on which more
    /// is to be sent is queued anew behind those of its present priority where `fair`, and else comes before all others.
    /// Only the last frame may lack a length, and then it ends the payload at `max_buf_size`.
    ///
    /// If memory is refused, the frames that were appended before stay, and the next one was not begun.
    pub fn write_stream_frames(
        &mut self,
        buf: &mut Vec<u8>,
        sent: &mut StreamMetaVec,
        max_buf_size: usize,
        fair: bool,
    ) -> Result<(), OutOfMemory>
        ensures writes { WritesStreamFrames max_buf_size fair (streams_view self.old) buf.old.items sent.old.items (streams_view self.new) buf.new.items sent.new.items }
        ensures full { OnOk result ((line (streams_view self.new).queue ≡ []) ⊎ (max_buf_size ≤ length buf.new.items + 25)) }
        ensures refused { OnErr result ((0 < length (line (streams_view self.new).queue)) × (length buf.new.items + 25 < max_buf_size)) }
        ensures carries { (m : Made) (h : List Event) → From m h (streams_view self.old) → AppendsFrames (told_bytes m h) max_buf_size (end_writer (streams_view self.old) buf.old.items sent.old.items) (end_writer (streams_view self.new) buf.new.items sent.new.items) }
        ensures from { GoesOnWithTurns max_buf_size fair sent.old.items sent.new.items (streams_view self.old) (streams_view self.new) }
        ensures text { (written : ℕ → List ℕ) → AreWritten written (streams_view self.old).out → AppendsFrames written max_buf_size (end_writer (streams_view self.old) buf.old.items sent.old.items) (end_writer (streams_view self.new) buf.new.items sent.new.items) }
    {
        self.write_streams(buf, sent, max_buf_size, fair)
    }

    // The same, by its exact step.
    fn write_streams(
        &mut self,
        buf: &mut Vec<u8>,
        sent: &mut StreamMetaVec,
        max_buf_size: usize,
        fair: bool,
    ) -> Result<(), OutOfMemory>
        ensures writes { WritesStreamFrames max_buf_size fair (streams_view self.old) buf.old.items sent.old.items (streams_view self.new) buf.new.items sent.new.items }
        ensures full { OnOk result ((line (streams_view self.new).queue ≡ []) ⊎ (max_buf_size ≤ length buf.new.items + 25)) }
        ensures refused { OnErr result ((0 < length (line (streams_view self.new).queue)) × (length buf.new.items + 25 < max_buf_size)) }
        ensures text { (written : ℕ → List ℕ) → AreWritten written (streams_view self.old).out → AppendsFrames written max_buf_size (end_writer (streams_view self.old) buf.old.items sent.old.items) (end_writer (streams_view self.new) buf.new.items sent.new.items) }
    {
        let (streams, queue) = (&mut self.outgoing, &mut self.queue);
        write_stream_frames(streams, queue, buf, sent, max_buf_size, fair)
    }

    /// Whether a stream is queued on which data may be sent: one that is held and was not reset. A queued stream that was
    /// reset or is gone takes its turn without a frame.
    pub fn can_send_stream_data(&self) -> bool
        ensures { result ≡ list_any (λ id. is_some (sending_priority ((streams_view self.now).out.halves id))) (ids_of (line (streams_view self.now).queue)) }
    {
        let streams = &self.outgoing;
        self.queue.any(|id| streams.sending_priority(id).is_some())
    }
}
