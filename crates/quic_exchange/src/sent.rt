//! Payloads that were sent, and the frames in them.

ghost use Rattle.std.specs.Prelude.{◌≡◌, ◌≤◌, ◌⊎◌, [], length, true, false, slice_get, IfOk, IfErr, OnOk, OnErr, Err, None, Some};
ghost use Rattle.quic_endpoint.specs.Receiving.{data_length};
ghost use Rattle.quic_exchange.specs.Payloads.{AreRead, IsFrameAt, LacksFrame, IsReadyToMark, IsMarked, AreAllAccepted, LacksAccepted, AreSet, LacksMark, AreFreshMarks, has_data};
ghost use Rattle.quic_exchange.specs.Notes.{HasLeftNetwork};

use crate::unsettled::Report;
use quic_steps::{End, PairError};
use quic_values::{Dir, OutOfMemory, StreamId};
use quic_wire::frame::{Datagram, Stream};
use quic_wire::{DecodeError, Frame, decode};
use std::alloc::Global;
use std::marker::Model;

/// A payload that an endpoint wrote. What a loss or an acknowledgement of it would still report, that endpoint keeps under
/// the token.
#[derive(Drop)]
pub struct Note {
    /// The endpoint that wrote it.
    pub writer: End,
    /// Its token there, until it leaves the network.
    pub token: Option<u64>,
    /// The report that was begun, for the rest of which there was no memory.
    pub begun: Option<Report>,
    pub text: SentText,
    /// Whether it left the network.
    pub gone: bool,
}

impl Note {
    /// A payload that was just written, of which nothing was delivered.
    pub fn new(alloc: Global, writer: End, token: u64, bytes: Vec<u8>) -> Self
        ensures { result ≡ record { writer = writer; token = Some token; begun = None; text = record { bytes = bytes.items; accepted = [] }; gone = false } }
    {
        Note {
            writer,
            token: Some(token),
            begun: None,
            text: SentText::new(alloc, bytes),
            gone: false,
        }
    }

    /// It leaves the network: its bytes are dropped, and nothing of it is reported any more.
    pub fn leave(&mut self, alloc: Global)
        ensures { HasLeftNetwork self.new }
    {
        self.gone = true;
        self.token = None;
        self.begun = None;
        self.text = SentText::new(alloc, Vec::new(alloc));
    }
}

/// The bytes of a payload, and what became of the frames in it.
#[derive(Drop)]
pub struct SentText {
    bytes: Vec<u8>,
    // The frames that the bytes spell, once they were read.
    frames: Vec<Frame>,
    // Of each frame whether it was accepted, once one was.
    accepted: Vec<bool>,
}

impl Model for SentText {
    ghost use Rattle.quic_exchange.specs.Payloads.{SentText as SentValue, IsDecoded};

    ghost Value = { SentValue };

    ghost view = { λ s. record { bytes = s.bytes.items; accepted = s.accepted.items } };

    ghost invariant = { λ s. IsDecoded s.bytes.items s.frames.items s.accepted.items };
}

impl SentText {
    fn new(alloc: Global, bytes: Vec<u8>) -> Self
        ensures { result ≡ record { bytes = bytes.items; accepted = [] } }
    {
        SentText {
            bytes,
            frames: Vec::new(alloc),
            accepted: Vec::new(alloc),
        }
    }

    pub fn bytes(&self) -> &[u8]
        ensures { result.now ≡ self.now.bytes }
    {
        self.bytes.as_slice()
    }

    /// The frame at a place, and the marks with which it can be marked as accepted. The frames are read from the bytes
    /// at first use.
    pub fn frame(
        &mut self,
        alloc: Global,
        index: usize,
    ) -> Result<(Frame, Option<Vec<bool>>), PairError>
        ensures same { self.new ≡ self.old }
        ensures found { IfOk result (λ found. IsFrameAt self.old.bytes index found.0) }
        ensures within { IfOk result (λ found. data_length found.0 ≤ length self.old.bytes) }
        ensures marks { IfOk result (λ found. IsReadyToMark self.old index found.1) }
        ensures none { result ≡ Err PairError.NoSuchFrame → LacksFrame self.old.bytes index }
        ensures only { IfErr result (λ e. (e ≡ PairError.NoSuchFrame) ⊎ (e ≡ PairError.OutOfMemory)) }
    {
        read_once(alloc, &self.bytes, &mut self.frames)?;
        let frame = frame_in(&self.frames, index)?;
        let marks = marks_for(alloc, &self.accepted, self.frames.len())?;
        Ok((frame, marks))
    }

    /// Marks a frame as accepted.
    pub fn accept(&mut self, index: usize, marks: Option<Vec<bool>>)
        requires { IsReadyToMark self.old index marks }
        ensures { IsMarked self.old index self.new }
    {
        if let Some(marks) = marks {
            self.accepted = marks;
        }
        if index < self.accepted.len() {
            self.accepted[index] = true;
        }
    }

    /// Whether every frame was accepted.
    pub fn is_all_accepted(&self) -> bool
        ensures yes { result ≡ true → AreAllAccepted self.now }
        ensures no { result ≡ false → LacksAccepted self.now }
    {
        if self.bytes.is_empty() {
            return true;
        }
        !self.accepted.is_empty() && are_set(&self.accepted)
    }
}

// Whether every mark is set.
fn are_set(marks: &[bool]) -> bool
    ensures yes { result ≡ true → AreSet marks.now }
    ensures no { result ≡ false → LacksMark marks.now }
{
    for index in 0..marks.len() {
        if !marks[index] {
            return false;
        }
    }
    true
}

// The frames that some bytes spell.
fn read_frames(alloc: Global, bytes: &[u8]) -> Result<Vec<Frame>, PairError>
    ensures read { IfOk result (λ all. AreRead bytes.now all.items) }
    ensures none { result ≡ Err PairError.NoSuchFrame → LacksFrame bytes.now 0 }
    ensures only { IfErr result (λ e. (e ≡ PairError.NoSuchFrame) ⊎ (e ≡ PairError.OutOfMemory)) }
{
    match decode(alloc, bytes) {
        Ok(frames) => Ok(frames),
        Err(DecodeError::OutOfMemory) => Err(PairError::OutOfMemory),
        Err(DecodeError::Malformed) => Err(PairError::NoSuchFrame),
    }
}

// The frames that some bytes spell, unless they were read before.
fn read_once(alloc: Global, bytes: &[u8], frames: &mut Vec<Frame>) -> Result<(), PairError>
    requires { (frames.old.items ≡ []) ⊎ AreRead bytes.now frames.old.items }
    ensures read { OnOk result (AreRead bytes.now frames.new.items) }
    ensures same { OnErr result (frames.new ≡ frames.old) }
    ensures none { result ≡ Err PairError.NoSuchFrame → LacksFrame bytes.now 0 }
    ensures only { IfErr result (λ e. (e ≡ PairError.NoSuchFrame) ⊎ (e ≡ PairError.OutOfMemory)) }
{
    if frames.is_empty() {
        *frames = read_frames(alloc, bytes)?;
    }
    Ok(())
}

// The frame at a place.
fn frame_in(frames: &[Frame], index: usize) -> Result<Frame, PairError>
    ensures found { IfOk result (λ frame. slice_get frames.now index ≡ Some frame) }
    ensures none { result ≡ Err PairError.NoSuchFrame → length frames.now ≤ index }
    ensures only { IfErr result (λ e. (e ≡ PairError.NoSuchFrame) ⊎ (e ≡ PairError.OutOfMemory)) }
{
    match frames.get(index) {
        Some(frame) => Ok(clone_frame(frame)?),
        None => Err(PairError::NoSuchFrame),
    }
}

// Marks for as many frames, where there are none.
fn marks_for(
    alloc: Global,
    accepted: &[bool],
    count: usize,
) -> Result<Option<Vec<bool>>, OutOfMemory>
    ensures { IfOk result (AreFreshMarks accepted.now count) }
{
    if accepted.is_empty() {
        Ok(Some(Vec::from_elem(alloc, false, count)?))
    } else {
        Ok(None)
    }
}

// An equal frame.
fn clone_frame(frame: &Frame) -> Result<Frame, OutOfMemory>
    ensures { IfOk result (λ copy. copy ≡ frame.now) }
{
    match frame {
        Frame::Stream(stream) => Ok(Frame::Stream(Stream {
            id: stream.id,
            offset: stream.offset,
            fin: stream.fin,
            bytes: stream.bytes.try_clone()?,
        })),
        Frame::Datagram(datagram) => Ok(Frame::Datagram(Datagram {
            bytes: datagram.bytes.try_clone()?,
        })),
        Frame::Crypto(crypto) => Ok(Frame::Crypto(crypto.try_clone()?)),
        _ => Ok(copy_of(frame)),
    }
}

// An equal frame, of one without data.
fn copy_of(frame: &Frame) -> Frame
    requires { has_data frame.now ≡ false }
    ensures { result ≡ frame.now }
{
    match frame {
        Frame::Padding => Frame::Padding,
        Frame::Ping => Frame::Ping,
        Frame::Ack => Frame::Ack,
        Frame::ResetStream(reset) => Frame::ResetStream(*reset),
        Frame::StopSending(stop) => Frame::StopSending(*stop),
        Frame::NewToken => Frame::NewToken,
        Frame::MaxData(limit) => Frame::MaxData(*limit),
        Frame::MaxStreamData { id, offset } => max_stream_data(*id, *offset),
        Frame::MaxStreams { dir, count } => max_streams(*dir, *count),
        Frame::DataBlocked { offset } => Frame::DataBlocked { offset: *offset },
        Frame::StreamDataBlocked { id, offset } => stream_data_blocked(*id, *offset),
        Frame::StreamsBlocked { dir } => Frame::StreamsBlocked { dir: *dir },
        Frame::NewConnectionId => Frame::NewConnectionId,
        Frame::RetireConnectionId => Frame::RetireConnectionId,
        Frame::PathChallenge => Frame::PathChallenge,
        Frame::PathResponse => Frame::PathResponse,
        Frame::Close => Frame::Close,
        Frame::AckFrequency => Frame::AckFrequency,
        Frame::ImmediateAck => Frame::ImmediateAck,
        Frame::HandshakeDone => Frame::HandshakeDone,
        Frame::Stream(_) | Frame::Datagram(_) | Frame::Crypto(_) => unreachable!(),
    }
}

fn max_stream_data(id: StreamId, offset: u64) -> Frame
    ensures { result ≡ Frame.MaxStreamData id offset }
{
    Frame::MaxStreamData { id, offset }
}

fn max_streams(dir: Dir, count: u64) -> Frame
    ensures { result ≡ Frame.MaxStreams dir count }
{
    Frame::MaxStreams { dir, count }
}

fn stream_data_blocked(id: StreamId, offset: u64) -> Frame
    ensures { result ≡ Frame.StreamDataBlocked id offset }
{
    Frame::StreamDataBlocked { id, offset }
}
