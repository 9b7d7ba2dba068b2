//! The kinds of frames beside STREAM that an end writes.

ghost use Rattle.std.specs.Prelude.{◌≡◌};
ghost use Rattle.quic_history.specs.Control.{kind_bound};

use quic_values::Dir;
use quic_wire::Frame;
use quic_wire::frame::{ResetStream, StopSending};

/// The kinds of frames that may be pending beside STREAM (RFC 9000 section 19), in the order in which they are written.
#[derive(Clone, Copy, Debug, PartialEq, Eq)]
pub enum ControlKind {
    /// A stream was given up.
    ResetStream,
    /// A stream is not read any more.
    StopSending,
    /// The limit of all streams grew.
    MaxData,
    /// The limit of a stream grew.
    MaxStreamData,
    /// The peer may open more streams of a direction.
    MaxStreams(Dir),
    /// The peer's limit of all streams holds data back.
    DataBlocked,
    /// The peer's limit of a stream does.
    StreamDataBlocked,
}

impl ControlKind {
    /// How many bytes a frame of the kind takes at most.
    pub fn size_bound(&self) -> usize
        ensures { result ≡ kind_bound self.now }
    {
        match self {
            ControlKind::ResetStream => ResetStream::SIZE_BOUND,
            ControlKind::StopSending => StopSending::SIZE_BOUND,
            ControlKind::MaxData => Frame::MAX_DATA_SIZE_BOUND,
            ControlKind::MaxStreamData => Frame::MAX_STREAM_DATA_SIZE_BOUND,
            ControlKind::MaxStreams(_) => Frame::MAX_STREAMS_SIZE_BOUND,
            ControlKind::DataBlocked => Frame::DATA_BLOCKED_SIZE_BOUND,
            ControlKind::StreamDataBlocked => Frame::STREAM_DATA_BLOCKED_SIZE_BOUND,
        }
    }
}
