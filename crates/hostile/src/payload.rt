//! Payloads that are drawn, and how each of their frames has to be answered.

use crate::arrival::Arrival;
use crate::peer::Peer;
use crate::record::{Record, Verdict};
use quic_streams::state::StreamsState;
use quic_values::OutOfMemory;
use quic_wire::TransportError;
use std::alloc::Global;

/// A frame, and how it has to be answered.
#[derive(Clone, Copy, Debug)]
pub struct Expected {
    pub arrival: Arrival,
    pub verdict: Verdict,
    /// Whether it may be one segment too many.
    pub is_crowded: bool,
}

/// A payload.
#[derive(Drop)]
pub struct Drawn {
    pub frames: Vec<Expected>,
    pub bytes: Vec<u8>,
    /// Whether its bytes are not frames.
    pub is_malformed: bool,
}

// The next frame. The record notes it, if it has to be accepted.
fn draw_frame(
    peer: &mut Peer,
    record: &mut Record,
    streams: &StreamsState,
    is_malformed: bool,
) -> Result<Expected, OutOfMemory> {
    let arrival = peer.next(record);
    let is_crowded = record.is_crowded(&arrival);
    let verdict = if is_malformed {
        Verdict::Refused(TransportError::FRAME_ENCODING_ERROR)
    } else {
        record.judge(&arrival)
    };
    if verdict == Verdict::Taken {
        record.note(&arrival)?;
        record.count_over(streams);
    }
    Ok(Expected {
        arrival,
        verdict,
        is_crowded,
    })
}

/// The next payload, of at most so many frames. The record notes those that have to be accepted.
pub fn draw(
    alloc: Global,
    peer: &mut Peer,
    record: &mut Record,
    streams: &StreamsState,
    most: u64,
) -> Result<Drawn, OutOfMemory> {
    let (mut frames, mut bytes) = (Vec::new(alloc), Vec::new(alloc));
    let count = peer.frame_count(most);
    let is_malformed = peer.is_malformed();
    for left in (0..count).rev() {
        let expected = draw_frame(peer, record, streams, is_malformed)?;
        let with_length = left > 0 || is_malformed || peer.with_length();
        expected.arrival.encode(with_length, &mut bytes)?;
        frames.push(expected)?;
    }
    if is_malformed {
        peer.spoil(&mut bytes)?;
    }
    Ok(Drawn {
        frames,
        bytes,
        is_malformed,
    })
}
