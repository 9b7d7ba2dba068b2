//! What a session counted.

ghost use Rattle.std.specs.Prelude.{◌≡◌};
ghost use Rattle.quic_streams_c.specs.Calls.{Questions};
ghost use Rattle.quic_streams_c.specs.Stats.{raw_stats, stats_words, TellsStats};

use crate::codes::{CLOSED, OK};
use crate::handle::{Handle, holding, take_out};
use crate::words::fill_words;
use quic_session::Session;
use quic_session::counts::Counts;
use std::alloc::Global;

/// How many frames a session sent and received, and how many bytes of stream data were declared lost.
#[derive(Clone, Copy)]
pub struct RawStats {
    pub sent_stream: u64,
    pub sent_reset_stream: u64,
    pub sent_stop_sending: u64,
    pub sent_max_data: u64,
    pub sent_max_stream_data: u64,
    pub sent_max_streams_bidi: u64,
    pub sent_max_streams_uni: u64,
    pub sent_data_blocked: u64,
    pub sent_stream_data_blocked: u64,
    pub sent_datagram: u64,
    pub received_stream: u64,
    pub received_reset_stream: u64,
    pub received_stop_sending: u64,
    pub received_max_data: u64,
    pub received_max_stream_data: u64,
    pub received_max_streams_bidi: u64,
    pub received_max_streams_uni: u64,
    pub received_data_blocked: u64,
    pub received_stream_data_blocked: u64,
    pub received_datagram: u64,
    pub lost_bytes: u64,
}

/// Tells the counters of a session.
#[unsafe(no_mangle)]
pub extern "C" fn qs_get_stats_words(alloc: Global, handle: &mut Handle, words: &mut [u64]) -> i32
    ensures { Questions handle.old.slot.value result handle.new.slot.value (words.new ≡ words.old) (λ s. TellsStats s result words.old words.new) }
{
    match take_out(alloc, handle) {
        None => CLOSED,
        Some(session) => {
            let code = tell_stats(&session, words);
            *handle = holding(session);
            code
        }
    }
}

// The same, of a session.
fn tell_stats(session: &Session, words: &mut [u64]) -> i32
    ensures { TellsStats session.now result words.old words.new }
{
    let stats = raw_stats(session.counts());
    fill_words(words, &stats_words(&stats));
    OK
}

// The counters as C has them.
fn raw_stats(counts: &Counts) -> RawStats
    ensures { result ≡ raw_stats counts.now }
{
    let (sent, received) = (&counts.sent, &counts.received);
    RawStats {
        sent_stream: sent.stream,
        sent_reset_stream: sent.reset_stream,
        sent_stop_sending: sent.stop_sending,
        sent_max_data: sent.max_data,
        sent_max_stream_data: sent.max_stream_data,
        sent_max_streams_bidi: sent.max_streams_bidi,
        sent_max_streams_uni: sent.max_streams_uni,
        sent_data_blocked: sent.data_blocked,
        sent_stream_data_blocked: sent.stream_data_blocked,
        sent_datagram: sent.datagram,
        received_stream: received.stream,
        received_reset_stream: received.reset_stream,
        received_stop_sending: received.stop_sending,
        received_max_data: received.max_data,
        received_max_stream_data: received.max_stream_data,
        received_max_streams_bidi: received.max_streams_bidi,
        received_max_streams_uni: received.max_streams_uni,
        received_data_blocked: received.data_blocked,
        received_stream_data_blocked: received.stream_data_blocked,
        received_datagram: received.datagram,
        lost_bytes: counts.lost_bytes,
    }
}

// Their words.
fn stats_words(stats: &RawStats) -> [u64; 21]
    ensures { result ≡ stats_words stats.now }
{
    [
        stats.sent_stream,
        stats.sent_reset_stream,
        stats.sent_stop_sending,
        stats.sent_max_data,
        stats.sent_max_stream_data,
        stats.sent_max_streams_bidi,
        stats.sent_max_streams_uni,
        stats.sent_data_blocked,
        stats.sent_stream_data_blocked,
        stats.sent_datagram,
        stats.received_stream,
        stats.received_reset_stream,
        stats.received_stop_sending,
        stats.received_max_data,
        stats.received_max_stream_data,
        stats.received_max_streams_bidi,
        stats.received_max_streams_uni,
        stats.received_data_blocked,
        stats.received_stream_data_blocked,
        stats.received_datagram,
        stats.lost_bytes,
    ]
}
