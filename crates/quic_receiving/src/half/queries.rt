//! What a receive half tells of itself.

ghost use Rattle.std.specs.Prelude.{◌≡◌, ◌≤◌, is_none};
ghost use Rattle.quic_receiving.specs.Half.{IsHalf, is_open};

use super::Recv;
use crate::state::RecvState;
use quic_values::VarInt;

impl Recv {
    /// The code of the RESET_STREAM that was taken, if one was.
    #[inline]
    pub fn reset_code(&self) -> Option<VarInt>
        ensures { result ≡ self.now.reset }
    {
        self.state.reset_code()
    }

    /// Whether no RESET_STREAM was taken.
    #[inline]
    pub fn is_receiving(&self) -> bool
        ensures { result ≡ is_none self.now.reset }
    {
        matches!(self.state, RecvState::Recv { .. })
    }

    /// Whether no frame has told yet how many bytes the stream has (RFC 9000 section 4.5).
    #[inline]
    pub fn final_offset_unknown(&self) -> bool
        ensures { result ≡ is_none self.now.size }
    {
        self.state.final_size().is_none()
    }

    /// Whether MAX_STREAM_DATA is of use: more data may come, and are wanted.
    #[inline]
    pub fn can_send_flow_control(&self) -> bool
        ensures { result ≡ is_open self.now }
    {
        self.final_offset_unknown() && !self.is_stopped()
    }

    /// Whether the application stopped it.
    #[inline]
    pub fn is_stopped(&self) -> bool
        ensures { result ≡ self.now.stopped }
    {
        self.stopped
    }

    /// The highest offset received, which is the final size where that is known.
    #[inline]
    pub fn end(&self) -> u64
        ensures end { result ≡ self.now.end }
        ensures sound { IsHalf self.now }
    {
        self.end
    }

    /// How many bytes were read. They came, so there are at most as many as the highest offset received.
    #[inline]
    pub fn bytes_read(&self) -> u64
        ensures read { result ≡ self.now.buffer.bytes_read }
        ensures bound { result ≤ self.now.end }
    {
        self.assembler.bytes_read()
    }
}
