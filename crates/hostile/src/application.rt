//! The application and the host of the endpoint that the peer sends to: they poll, read, stop, write and send now and then.

use crate::arrival::byte_at;
use crate::peer::Draws;
use crate::record::{DATAGRAM, Record};
use quic_assembler::Chunk;
use quic_receiving::{HandleError, ReadableError};
use quic_session::Session;
use quic_session::buffer::Buffer;
use quic_session::emitting::Parts;
use quic_session::lent_bytes::LentBytes;
use quic_session::settling::SettleError;
use quic_streams::progress::LastAnswer;
use quic_values::{Dir, OutOfMemory, StreamId, VarInt};
use quic_wire::{DecodeError, StreamEvent, decode};
use std::alloc::Global;

// How many streams of its own the application keeps open, and how many it opens in both directions at all.
const OWN: usize = 8;

// How many payloads are sent before the first of them is acknowledged or lost.
const UNSETTLED: u64 = 8;

// The frames that a payload may carry.
const FRAMES: Parts = Parts {
    control: true,
    datagrams: true,
    streams: true,
};

/// An application, and the streams that it was given.
#[derive(Drop)]
pub struct Application {
    draws: Draws,
    own: Vec<StreamId>,
    accepted: Vec<StreamId>,
    opened_both: usize,
    // Payloads that are neither acknowledged nor lost.
    tokens: Vec<u64>,
    /// How many bytes it was given that are not those of their offsets.
    pub wrong_bytes: u64,
    /// How often a call did not do what the record wants.
    pub out_of_step: u64,
}

// The code of what it gives up.
fn code() -> VarInt {
    VarInt::from(3u32)
}

// How many of some bytes are not those of their offsets.
fn wrong_in(bytes: &[u8], first: u64) -> u64 {
    let mut wrong = 0u64;
    let mut offset = first;
    for byte in bytes {
        if *byte != byte_at(offset) {
            wrong = wrong.saturating_add(1);
        }
        offset = offset.wrapping_add(1);
    }
    wrong
}

// How many bytes were read, and how many of them are not those of their offsets.
fn count_chunks(chunks: &[Chunk]) -> (u64, u64) {
    let (mut count, mut wrong) = (0u64, 0u64);
    for chunk in chunks {
        count = count.saturating_add(chunk.bytes.len() as u64);
        wrong = wrong.saturating_add(wrong_in(chunk.bytes.as_slice(), chunk.offset));
    }
    (count, wrong)
}

// The same of bytes that are lent, of which the first has an offset.
fn count_lent(lent: &[LentBytes], first: u64) -> (u64, u64) {
    let (mut count, mut wrong) = (0u64, 0u64);
    for chunk in lent {
        let offset = first.wrapping_add(count);
        let bytes = &chunk.memory[chunk.start..];
        count = count.saturating_add(bytes.len() as u64);
        wrong = wrong.saturating_add(wrong_in(bytes, offset));
    }
    (count, wrong)
}

// Why something was not done: memory ran out.
fn memory_of(error: HandleError) -> Result<(), OutOfMemory> {
    match error {
        HandleError::ClosedStream => Ok(()),
        HandleError::OutOfMemory => Err(OutOfMemory),
    }
}

// The same of a read.
fn memory_of_read(error: ReadableError) -> Result<(), OutOfMemory> {
    match error {
        ReadableError::ClosedStream | ReadableError::IllegalOrderedRead => Ok(()),
        ReadableError::OutOfMemory => Err(OutOfMemory),
    }
}

impl Application {
    pub fn new(alloc: Global, seed: u64) -> Self {
        Application {
            draws: Draws(seed),
            own: Vec::new(alloc),
            accepted: Vec::new(alloc),
            opened_both: 0,
            tokens: Vec::new(alloc),
            wrong_bytes: 0,
            out_of_step: 0,
        }
    }

    /// Does what falls due.
    pub fn turn(
        &mut self,
        alloc: Global,
        end: &mut Session,
        record: &mut Record,
    ) -> Result<(), OutOfMemory> {
        poll(end)?;
        self.accept(end)?;
        self.open(end, record)?;
        self.attend(end, record)?;
        self.write(end, record)?;
        if self.draws.once_in(4) {
            self.take_datagram(end);
        }
        self.send(alloc, end, record)?;
        self.report(end)
    }

    // Something is as the record wants it, or not.
    fn expect(&mut self, is_wanted: bool) {
        if !is_wanted {
            self.out_of_step = self.out_of_step.saturating_add(1);
        }
    }

    fn accept(&mut self, end: &mut Session) -> Result<(), OutOfMemory> {
        for dir in [Dir::Bi, Dir::Uni] {
            for _ in 0..u32::MAX {
                match end.accept(dir) {
                    None => break,
                    Some(id) => self.accepted.push(id)?,
                }
            }
        }
        Ok(())
    }

    fn open(&mut self, end: &mut Session, record: &mut Record) -> Result<(), OutOfMemory> {
        if self.own.len() >= OWN {
            return Ok(());
        }
        let both = self.opened_both < OWN;
        let dir = if both { Dir::Bi } else { Dir::Uni };
        let opened = end.open(dir)?;
        self.expect(record.note_open(dir, &opened));
        if let Some(id) = opened {
            self.own.push(id)?;
            if both {
                self.opened_both = self.opened_both.saturating_add(1);
                self.accepted.push(id)?;
            }
        }
        Ok(())
    }

    // Looks after one of the streams on which something may be received.
    fn attend(&mut self, end: &mut Session, record: &mut Record) -> Result<(), OutOfMemory> {
        let place = self.draws.below(self.accepted.len() as u64) as usize;
        let Some(id) = self.accepted.get(place).copied() else {
            return Ok(());
        };
        match self.draws.below(64) {
            0..=20 => self.read(end, record, id, true),
            21..=41 => self.read_lent(end, record, id),
            42 => self.read(end, record, id, false),
            43 => self.stop(end, record, id),
            44..=51 => self.ask_reset(end, record, id),
            _ => Ok(()),
        }
    }

    fn read(
        &mut self,
        end: &mut Session,
        record: &mut Record,
        id: StreamId,
        ordered: bool,
    ) -> Result<(), OutOfMemory> {
        match end.read(id, ordered, 500, 20) {
            Err(error) => memory_of_read(error),
            Ok(some) => {
                let counts = count_chunks(some.chunks.as_slice());
                self.take_read(end, record, id, counts, some.last)
            }
        }
    }

    fn read_lent(
        &mut self,
        end: &mut Session,
        record: &mut Record,
        id: StreamId,
    ) -> Result<(), OutOfMemory> {
        match end.read_lent(id, 20) {
            Err(error) => memory_of_read(error),
            Ok(read) => {
                let counts = count_lent(end.lent_bytes(), read.offset);
                self.take_read(end, record, id, counts, read.last)
            }
        }
    }

    // Bytes were read, of which some are wrong.
    fn take_read(
        &mut self,
        end: &mut Session,
        record: &mut Record,
        id: StreamId,
        (count, wrong): (u64, u64),
        last: LastAnswer,
    ) -> Result<(), OutOfMemory> {
        self.wrong_bytes = self.wrong_bytes.saturating_add(wrong);
        record.note_read(id, count)?;
        match last {
            LastAnswer::Ended | LastAnswer::Reset(_) => self.let_go(end, record, id),
            LastAnswer::Memory => Err(OutOfMemory),
            LastAnswer::Blocked | LastAnswer::More => Ok(()),
        }
    }

    // A receive side is freed. What would be sent on the stream is given up too.
    fn let_go(
        &mut self,
        end: &mut Session,
        record: &mut Record,
        id: StreamId,
    ) -> Result<(), OutOfMemory> {
        record.free(id)?;
        self.forget(end, id)
    }

    fn forget(&mut self, end: &mut Session, id: StreamId) -> Result<(), OutOfMemory> {
        self.accepted.retain(|held| *held != id);
        give_up(end, id)
    }

    /// Stops a stream, and forgets it.
    pub fn stop(
        &mut self,
        end: &mut Session,
        record: &mut Record,
        id: StreamId,
    ) -> Result<(), OutOfMemory> {
        match end.stop(id, code()) {
            Ok(()) => {
                record.note_stop(id)?;
                self.forget(end, id)
            }
            Err(error) => memory_of(error),
        }
    }

    fn ask_reset(
        &mut self,
        end: &mut Session,
        record: &mut Record,
        id: StreamId,
    ) -> Result<(), OutOfMemory> {
        match end.received_reset(id) {
            Ok(Some(_)) => self.let_go(end, record, id),
            Ok(None) => Ok(()),
            Err(error) => memory_of(error),
        }
    }

    // Writes on one of its own streams, ends it now and then, and forgets one that is closed.
    fn write(&mut self, end: &mut Session, record: &mut Record) -> Result<(), OutOfMemory> {
        let place = self.draws.below(self.own.len() as u64) as usize;
        let Some(id) = self.own.get(place).copied() else {
            return Ok(());
        };
        let is_written = match self.draws.below(16) {
            0 => end.finish(id).is_ok(),
            1 => {
                give_up(end, id)?;
                false
            }
            _ => write_text(end, record, id),
        };
        if !is_written && end.write(id, b"").is_err() && end.streams().write_limit() > 0 {
            give_up(end, id)?;
            self.own.retain(|held| *held != id);
        }
        Ok(())
    }

    // Takes the oldest datagram, and sends one now and then.
    fn take_datagram(&mut self, end: &mut Session) {
        if let Some(bytes) = end.recv_datagram() {
            let wrong = wrong_in(bytes.as_slice(), 0);
            self.wrong_bytes = self.wrong_bytes.saturating_add(wrong);
            self.expect(bytes.len() <= DATAGRAM as usize);
            end.give_back(bytes);
        }
        if self.draws.once_in(16) {
            let _ = end.send_datagram(b"some bytes of a datagram", true);
        }
    }

    // Sends what there is.
    fn send(
        &mut self,
        alloc: Global,
        end: &mut Session,
        record: &mut Record,
    ) -> Result<(), OutOfMemory> {
        let mut payload = Buffer::new(alloc);
        let emitted = end.emit_buffer(&mut payload, 1200, FRAMES, self.draws.once_in(2))?;
        if let Some(emitted) = emitted {
            self.tokens.push(emitted.token)?;
            record.count_over(end.streams());
            self.note_payload(alloc, record, payload.bytes.as_slice())?;
        }
        Ok(())
    }

    // Notes the limits that a payload advertises.
    fn note_payload(
        &mut self,
        alloc: Global,
        record: &mut Record,
        payload: &[u8],
    ) -> Result<(), OutOfMemory> {
        let frames = match decode(alloc, payload) {
            Ok(frames) => frames,
            Err(DecodeError::OutOfMemory) => return Err(OutOfMemory),
            Err(DecodeError::Malformed) => {
                self.expect(false);
                return Ok(());
            }
        };
        for frame in &frames {
            let is_enforced = record.note_sent(frame)?;
            self.expect(is_enforced);
        }
        Ok(())
    }

    // Some payloads are lost, and the others are acknowledged.
    fn report(&mut self, end: &mut Session) -> Result<(), OutOfMemory> {
        let count = self.tokens.len() as u64;
        let place = self.draws.below(count) as usize;
        if self.draws.below(UNSETTLED) >= count || place >= self.tokens.len() {
            return Ok(());
        }
        let token = self.tokens.swap_remove(place);
        let answer = if self.draws.once_in(4) {
            end.lost(token)
        } else {
            end.acked(token)
        };
        let is_settled = end.unsettled_payloads() == self.tokens.len();
        self.expect(is_settled);
        match answer {
            Ok(()) => Ok(()),
            Err(SettleError::OutOfMemory) => Err(OutOfMemory),
            Err(SettleError::UnknownToken) => {
                self.expect(false);
                Ok(())
            }
        }
    }
}

// Writes a text on a stream. Whether some of it was written.
fn write_text(end: &mut Session, record: &mut Record, id: StreamId) -> bool {
    match end.write(id, b"some of thirty bytes of a text") {
        Ok(count) => {
            record.note_write(count);
            true
        }
        Err(_) => false,
    }
}

// The stream that the peer wants no more of, if an event tells of one.
fn stopped_in(event: StreamEvent) -> Option<StreamId> {
    match event {
        StreamEvent::Stopped { id, .. } => Some(id),
        _ => None,
    }
}

// Gives up what the peer wants no more of.
fn poll(end: &mut Session) -> Result<(), OutOfMemory> {
    for _ in 0..u32::MAX {
        let Some(event) = end.poll() else {
            return Ok(());
        };
        if let Some(id) = stopped_in(event) {
            give_up(end, id)?;
        }
    }
    Ok(())
}

// Gives up what is to be sent on a stream, if there is something.
fn give_up(end: &mut Session, id: StreamId) -> Result<(), OutOfMemory> {
    match end.reset(id, code()) {
        Ok(()) => Ok(()),
        Err(error) => memory_of(error),
    }
}
