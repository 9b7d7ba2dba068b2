//! How many frames a session sent and received, and how many bytes were declared lost.

ghost use Rattle.std.specs.Prelude.{◌≡◌, length};
ghost use Rattle.quic_session.specs.Counts.{counts_of, no_counts, more, datagrams_added, streams_added, with_received, with_lost_bytes, stream_bytes};
ghost use Rattle.quic_session.specs.Sessions.{end_of, beside_of};

use crate::session::Session;
use quic_streams::SentPayload;
use quic_streams::stats::FrameStats;
use quic_wire::Frame;
use quic_wire::frame::StreamMeta;

/// What a session counts from its start. Each counter stops at the greatest number of its type.
#[derive(Clone, Copy)]
pub struct Counts {
    /// The frames that were written into payloads.
    pub sent: FrameStats,
    /// The frames that were processed, also those that were rejected.
    pub received: FrameStats,
    /// The stream data of the payloads that were declared lost, in bytes. A byte counts as often as it was lost.
    pub lost_bytes: u64,
}

impl Counts {
    // Nothing was counted.
    pub(crate) fn new() -> Self
        ensures { result ≡ no_counts }
    {
        Counts {
            sent: FrameStats::new(),
            received: FrameStats::new(),
            lost_bytes: 0,
        }
    }

    // Counts DATAGRAM frames that were written.
    pub(crate) fn add_sent_datagrams(&mut self, count: usize)
        ensures { self.new ≡ datagrams_added self.old count }
    {
        self.sent.datagram = self.sent.datagram.saturating_add(count as u64);
    }

    // Counts STREAM frames that were written.
    pub(crate) fn add_sent_streams(&mut self, count: usize)
        ensures { self.new ≡ streams_added self.old count }
    {
        self.sent.stream = self.sent.stream.saturating_add(count as u64);
    }

    // Counts a frame that is handed in.
    pub(crate) fn add_received(&mut self, frame: &Frame)
        ensures { self.new ≡ with_received self.old frame.now }
    {
        self.received.record(frame);
    }

    // Counts bytes of stream data that were declared lost.
    pub(crate) fn add_lost(&mut self, bytes: u64)
        ensures { self.new ≡ with_lost_bytes self.old bytes }
    {
        self.lost_bytes = self.lost_bytes.saturating_add(bytes);
    }
}

// How many bytes of stream data a payload has.
pub(crate) fn stream_bytes(sent: &SentPayload) -> u64
    ensures { result ≡ stream_bytes sent.now.streams.items }
{
    total_bytes(&sent.streams)
}

// How many bytes some STREAM frames carry.
fn total_bytes(frames: &[StreamMeta]) -> u64
    ensures { result ≡ stream_bytes frames.now }
{
    let mut total: u64 = 0;
    for frame in frames {
        let bytes = frame.offsets.end.saturating_sub(frame.offsets.start);
        total = total.saturating_add(bytes);
    }
    total
}

impl Session {
    /// What was counted.
    pub fn counts(&self) -> &Counts
        ensures { result.now ≡ counts_of self.now }
    {
        &self.counts
    }
}
