//! Frames that come and go, and what they come to.
use super::subject::Subject;
use quic_receiving::ShouldTransmit;
use quic_streams::ThinRetransmits;
use quic_streams::stats::FrameStats;
use quic_values::{Bytes, OutOfMemory, Side, StreamId, VarInt};
use quic_wire::ReceiveError;
use quic_wire::frame::Stream;
use std::alloc::Global;

/// The windows of an end, where a test does not say others.
pub const WINDOW: u32 = 1 << 20;

pub fn id(number: u32) -> StreamId {
    StreamId::from(VarInt::from(number))
}

/// What a frame came to.
#[derive(Clone, Copy, Debug, PartialEq, Eq)]
pub enum Answer {
    /// It was taken. Whether MAX_DATA is to be sent.
    Taken(bool),
    /// The code of an error.
    Refused(u64),
    NoMemory,
}

/// A client that permits so many streams of each direction.
pub fn client(
    alloc: Global,
    streams: u32,
    window: u32,
    stream_window: u32,
) -> Result<Subject, OutOfMemory> {
    Subject::new(
        alloc,
        Side::Client,
        streams,
        u64::from(WINDOW),
        VarInt::from(window),
        VarInt::from(stream_window),
    )
}

/// An end that permits its peer one stream of each direction, with the limits that its peer gave.
pub fn end(
    alloc: Global,
    side: Side,
    streams: u32,
    data: u32,
    stream_data: u32,
) -> Result<Subject, OutOfMemory> {
    let window = VarInt::from(WINDOW);
    let mut subject = Subject::new(alloc, side, 1, u64::from(WINDOW), window, window)?;
    subject.permit(streams, data, stream_data)?;
    Ok(subject)
}

/// The bytes of every stream: each tells its place.
pub fn pattern(alloc: Global, offset: u64, count: usize) -> Result<Bytes, OutOfMemory> {
    let mut bytes = Vec::with_capacity(alloc, count)?;
    for place in 0..count as u64 {
        bytes.push((offset.wrapping_add(place) % 251) as u8)?;
    }
    Bytes::copy_from_slice(alloc, bytes.as_slice())
}

pub fn answer_of(answer: Result<ShouldTransmit, ReceiveError>) -> Answer {
    match answer {
        Ok(transmit) => Answer::Taken(transmit.should_transmit()),
        Err(ReceiveError::Transport(error)) => Answer::Refused(error.code),
        Err(_) => Answer::NoMemory,
    }
}

/// Hands in so many bytes at an offset, maybe with the end.
pub fn receive(
    alloc: Global,
    subject: &mut Subject,
    stream: u32,
    offset: u64,
    count: usize,
    fin: bool,
) -> Result<Answer, OutOfMemory> {
    let frame = Stream {
        id: id(stream),
        offset,
        fin,
        bytes: pattern(alloc, offset, count)?,
    };
    Ok(answer_of(subject.received(frame)))
}

/// A payload of control frames, what was noted of it, and how many frames there were.
#[derive(Drop)]
pub struct Payload {
    pub bytes: Vec<u8>,
    pub sent: ThinRetransmits,
    pub stats: FrameStats,
}

pub fn new_payload(alloc: Global) -> Payload {
    Payload {
        bytes: Vec::new(alloc),
        sent: ThinRetransmits::new(alloc),
        stats: FrameStats::new(),
    }
}

/// Whether there was memory.
pub fn write_control(subject: &mut Subject, payload: &mut Payload, max_size: usize) -> bool {
    let (bytes, sent) = (&mut payload.bytes, &mut payload.sent);
    subject
        .write_control_frames(bytes, sent, &mut payload.stats, max_size)
        .is_ok()
}

/// The control frames of a new payload. They are asked for again where memory ran out: none is lost, and none comes twice.
pub fn control(alloc: Global, subject: &mut Subject, max_size: usize) -> Payload {
    let mut written = new_payload(alloc);
    if !write_control(subject, &mut written, max_size) {
        let _ = write_control(subject, &mut written, max_size);
    }
    written
}
