//! A payload to which frames beside STREAM are written.

ghost use Rattle.std.specs.Prelude.{◌≡◌, ◌≤◌, IfSome, OnOk, OnErr, ℕ};
ghost use Rattle.quic_wire.specs.Text.{CanEncode, size_bound};
ghost use Rattle.quic_history.specs.Control.{kind_bound, IsOfKind};
ghost use Rattle.quic_streams.specs.Payload.{sheet_of, with_frame_written, with_frame_written_if, FitsIn};

use quic_history::control::ControlKind;
use quic_pieces::stats::FrameStats;
use quic_retransmits::ThinRetransmits;
use quic_values::OutOfMemory;
use quic_wire::Frame;
use quic_wire::frame::ResetStream;

// A payload, and what was noted of its frames.
#[derive(Drop)]
pub(crate) struct ControlPayload {
    pub(crate) bytes: Vec<u8>,
    pub(crate) sent: ThinRetransmits,
}

impl ControlPayload {
    // Appends a frame, and counts it. A refusal changes nothing.
    #[inline(always)]
    pub(crate) fn append(
        &mut self,
        frame: &Frame,
        stats: &mut FrameStats,
    ) -> Result<(), OutOfMemory>
        requires kind { CanEncode frame.now }
        requires short { size_bound frame.now ≤ ResetStream.SIZE_BOUND }
        ensures ok { OnOk result (sheet_of self.new stats.new ≡ with_frame_written (sheet_of self.old stats.old) frame.now) }
        ensures err { OnErr result (sheet_of self.new stats.new ≡ sheet_of self.old stats.old) }
        ensures fits { OnOk result (FitsIn (size_bound frame.now) frame.now) }
    {
        self.bytes.reserve(ResetStream::SIZE_BOUND)?;
        self.sent.note(frame)?;
        match frame.encode(&mut self.bytes) {
            Ok(()) => {}
            Err(_) => unreachable!(),
        }
        stats.record(frame);
        Ok(())
    }

    // Appends a frame of a kind, and counts it, if there is one. A refusal changes nothing.
    #[inline(always)]
    pub(crate) fn append_if(
        &mut self,
        kind: &ControlKind,
        frame: Option<Frame>,
        stats: &mut FrameStats,
    ) -> Result<(), OutOfMemory>
        requires { IfSome frame (IsOfKind kind.now) }
        ensures ok { OnOk result (sheet_of self.new stats.new ≡ with_frame_written_if (sheet_of self.old stats.old) frame) }
        ensures err { OnErr result (sheet_of self.new stats.new ≡ sheet_of self.old stats.old) }
        ensures fits { OnOk result (IfSome frame (FitsIn (kind_bound kind.now))) }
    {
        match frame {
            Some(frame) => self.append(&frame, stats),
            None => Ok(()),
        }
    }
}
