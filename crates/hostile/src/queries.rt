//! What a session can be asked.

use crate::arrival::Arrival;
use quic_session::Session;
use quic_streams::state::StreamsState;
use quic_values::{Dir, StreamId};

/// What a session replies, of all streams and of the one that a frame names.
#[derive(Clone, Copy, Debug, PartialEq, Eq)]
pub struct Replies {
    all: [u64; 10],
    counts: [u64; 6],
    one: [u64; 5],
}

fn ask_all(streams: &StreamsState) -> [u64; 10] {
    [
        streams.write_limit(),
        streams.local_max_data(),
        streams.data_recvd(),
        streams.max_remote(Dir::Bi),
        streams.max_remote(Dir::Uni),
        streams.next_remote(Dir::Bi),
        streams.next_remote(Dir::Uni),
        streams.max_concurrent(Dir::Bi),
        streams.max_concurrent(Dir::Uni),
        u64::from(streams.can_send_data_blocked()),
    ]
}

fn ask_counts(end: &Session) -> [u64; 6] {
    let (bi, uni, send) = end.stream_counts();
    let datagram = match end.datagram_length() {
        Some(length) => length as u64,
        None => u64::MAX,
    };
    [
        bi,
        uni,
        send as u64,
        datagram,
        u64::from(end.has_pending()),
        end.unsettled_payloads() as u64,
    ]
}

fn ask_one(streams: &StreamsState, id: StreamId) -> [u64; 5] {
    let limit = match streams.stream_data_blocked_limit(id) {
        Some(limit) => limit.into_inner(),
        None => u64::MAX,
    };
    [
        u64::from(streams.is_local_unopened(id)),
        u64::from(streams.can_send_flow_control(id)),
        u64::from(streams.has_receive_side(id)),
        u64::from(streams.has_send_side(id)),
        limit,
    ]
}

/// Asks a session.
pub fn ask(end: &Session, arrival: &Arrival) -> Replies {
    let one = match arrival.named() {
        Some(id) => ask_one(end.streams(), id),
        None => [0; 5],
    };
    Replies {
        all: ask_all(end.streams()),
        counts: ask_counts(end),
        one,
    }
}
