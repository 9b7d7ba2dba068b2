//! Texts of errors, and counters of frames.
use quic_datagrams::{FrameStats, SendDatagramError};
use quic_wire::{Bytes, Dir, Frame};
use std::alloc::Global;
use std::fmt::Debug;
use std::process::Abort;
use std::test::Fail;

// Both are the same, or the test fails and shows them.
fn same<T: PartialEq + Debug + Drop>(rt: &impl Abort, found: T, wanted: T) {
    assert_eq!(rt; found, wanted);
}

// The errors in their order, and the text of each.
const TEXTS: [&str; 5] = [
    "datagrams not supported by peer",
    "datagram support disabled",
    "datagram too large",
    "datagram send blocked",
    "out of memory",
];

fn error(alloc: Global, number: usize) -> SendDatagramError {
    match number {
        0 => SendDatagramError::UnsupportedByPeer,
        1 => SendDatagramError::Disabled,
        2 => SendDatagramError::TooLarge,
        3 => SendDatagramError::Blocked(Bytes::new(alloc)),
        _ => SendDatagramError::OutOfMemory(Bytes::new(alloc)),
    }
}

fn has_text(rt: &impl Abort, alloc: Global, number: usize, text: &str) -> Result<(), Fail> {
    same(rt, error(alloc, number).to_string(alloc)?.as_str(), text);
    Ok(())
}

#[test]
fn texts_of_errors(rt: HostRuntime) -> Result<(), Fail> {
    for (number, text) in TEXTS.iter().enumerate() {
        has_text(&rt, rt.alloc(), number, text)?;
    }
    Ok(())
}

// No frame, but as many PING as can be counted.
fn full_of_pings() -> FrameStats {
    FrameStats {
        ping: u64::MAX,
        ..FrameStats::new()
    }
}

fn record(stats: &mut FrameStats, frame: &Frame, times: u32) {
    for _ in 0..times {
        stats.record(frame);
    }
}

// How many HANDSHAKE_DONE, PING and STREAMS_BLOCKED of each direction were counted.
fn counted(stats: &FrameStats) -> (u8, u64, u64, u64) {
    (
        stats.handshake_done,
        stats.ping,
        stats.streams_blocked_bidi,
        stats.streams_blocked_uni,
    )
}

#[test]
fn counters_stop(rt: HostRuntime) -> Result<(), Fail> {
    let mut stats = full_of_pings();
    for (frame, times, wanted) in [
        (Frame::HandshakeDone, 300, (255, u64::MAX, 0, 0)),
        (Frame::Ping, 1, (255, u64::MAX, 0, 0)),
        (Frame::Padding, 1, (255, u64::MAX, 0, 0)),
        (
            Frame::StreamsBlocked { dir: Dir::Uni },
            1,
            (255, u64::MAX, 0, 1),
        ),
    ] {
        record(&mut stats, &frame, times);
        same(&rt, counted(&stats), wanted);
    }
    Ok(())
}

// The name of each counter stands before its own number.
#[test]
fn counters_by_name(rt: HostRuntime) -> Result<(), Fail> {
    let stats = FrameStats {
        acks: 1,
        ack_frequency: 2,
        connection_close: 3,
        crypto: 4,
        data_blocked: 5,
        datagram: 6,
        handshake_done: 7,
        immediate_ack: 8,
        max_data: 9,
        max_stream_data: 10,
        max_streams_bidi: 11,
        max_streams_uni: 12,
        new_connection_id: 13,
        new_token: 14,
        path_challenge: 15,
        path_response: 16,
        ping: 17,
        reset_stream: 18,
        retire_connection_id: 19,
        stream_data_blocked: 20,
        streams_blocked_bidi: 21,
        streams_blocked_uni: 22,
        stop_sending: 23,
        stream: 24,
    };
    let wanted = concat!(
        "FrameStats { ACK: 1, ACK_FREQUENCY: 2, CONNECTION_CLOSE: 3, CRYPTO: 4, DATA_BLOCKED: 5, DATAGRAM: 6, ",
        "HANDSHAKE_DONE: 7, IMMEDIATE_ACK: 8, MAX_DATA: 9, MAX_STREAM_DATA: 10, MAX_STREAMS_BIDI: 11, ",
        "MAX_STREAMS_UNI: 12, NEW_CONNECTION_ID: 13, NEW_TOKEN: 14, PATH_CHALLENGE: 15, PATH_RESPONSE: 16, PING: 17, ",
        "RESET_STREAM: 18, RETIRE_CONNECTION_ID: 19, STREAM_DATA_BLOCKED: 20, STREAMS_BLOCKED_BIDI: 21, ",
        "STREAMS_BLOCKED_UNI: 22, STOP_SENDING: 23, STREAM: 24 }"
    );
    same(&rt, format!(in rt.alloc(); "{stats:?}")?.as_str(), wanted);
    Ok(())
}
