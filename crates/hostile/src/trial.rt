//! Payload after payload is handed in, and what comes of each frame is held against the record.

use crate::application::Application;
use crate::arrival::Arrival;
use crate::payload::{Drawn, draw};
use crate::peer::{Draws, Peer};
use crate::queries::{Replies, ask};
use crate::record::{DATAGRAM, PEER_LIMIT, Record, STREAM_WINDOW, STREAMS, Verdict, WINDOW};
use crate::tally::{Tally, more};
use quic_datagrams::DatagramLimits;
use quic_session::Session;
use quic_session::buffer::Buffer;
use quic_session::params::ParamsError;
use quic_session::receiving::{PayloadError, Received};
use quic_session::session::Config;
use quic_streams::PeerLimits;
use quic_values::{OutOfMemory, Side, StreamId, VarInt};
use quic_wire::TransportError;
use std::alloc::Global;

// After so many payloads the application has its turn.
const TURN: u64 = 2;

// The place of no frame.
const DONE: usize = usize::MAX;

// A session under test, with all that is around it.
#[derive(Drop)]
struct Trial {
    alloc: Global,
    end: Session,
    record: Record,
    peer: Peer,
    application: Application,
    draws: Draws,
    // Streams of which too many segments are buffered.
    crowded: Vec<StreamId>,
    tally: Tally,
}

fn new_end(alloc: Global) -> Result<Session, OutOfMemory> {
    let streams = VarInt::from(STREAMS);
    let window = usize::from(DATAGRAM).saturating_add(32);
    let config = Config {
        side: Side::Server,
        max_remote_uni: streams,
        max_remote_bi: streams,
        send_window: u64::from(WINDOW),
        receive_window: VarInt::from(WINDOW),
        stream_window: VarInt::from(STREAM_WINDOW),
        datagrams: DatagramLimits {
            receive: Some(window),
            send: window,
            max: Some(window),
        },
    };
    let mut end = Session::new(alloc, &config)?;
    set_params(&mut end)?;
    Ok(end)
}

// Gives a session the limits of the peer. If it rejects them, the record has others.
fn set_params(end: &mut Session) -> Result<(), OutOfMemory> {
    let (streams, limit) = (VarInt::from(STREAMS), VarInt::from(PEER_LIMIT));
    let answer = end.set_params(&PeerLimits {
        initial_max_data: limit,
        initial_max_streams_bidi: streams,
        initial_max_streams_uni: streams,
        initial_max_stream_data_uni: limit,
        initial_max_stream_data_bidi_local: limit,
        initial_max_stream_data_bidi_remote: limit,
    });
    match answer {
        Err(ParamsError::OutOfMemory) => Err(OutOfMemory),
        Ok(()) | Err(ParamsError::Transport(_)) => Ok(()),
    }
}

fn is_of_code(verdict: Verdict, code: u64) -> bool {
    verdict == Verdict::Refused(code)
}

impl Trial {
    // Hands a payload in from one of its frames on.
    fn receive(&mut self, payload: &Drawn, first: usize) -> Result<Received, OutOfMemory> {
        if self.draws.once_in(2) {
            return Ok(self.end.receive(payload.bytes.as_slice(), first));
        }
        let mut buffer = Buffer::new(self.alloc);
        buffer.bytes.reserve_exact(payload.bytes.len())?;
        buffer.bytes.extend_from_slice(payload.bytes.as_slice())?;
        let len = buffer.bytes.len();
        Ok(self.end.receive_buffer(&mut buffer, len, first))
    }

    fn ask(&self, payload: &Drawn, place: usize) -> Replies {
        match payload.frames.get(place) {
            Some(frame) => ask(&self.end, &frame.arrival),
            None => ask(&self.end, &Arrival::DataBlocked(0)),
        }
    }

    // The frames of a payload from one to another were accepted.
    fn note_accepted(&mut self, payload: &Drawn, first: usize, next: usize) {
        for place in first..next {
            let is_wanted = match payload.frames.get(place) {
                Some(frame) => frame.verdict == Verdict::Taken,
                None => false,
            };
            self.tally.expect(is_wanted);
            self.tally.count(Verdict::Taken);
        }
    }

    // There were too many segments of a stream with a frame, which is buffered.
    fn note_crowded(&mut self, payload: &Drawn, place: usize) -> Result<(), OutOfMemory> {
        let code = TransportError::INTERNAL_ERROR;
        self.tally.count(Verdict::Refused(code));
        let Some(frame) = payload.frames.get(place) else {
            self.tally.expect(false);
            return Ok(());
        };
        self.tally
            .expect(frame.is_crowded && frame.verdict == Verdict::Taken);
        if let Some(id) = frame.arrival.named() {
            self.crowded.push(id)?;
        }
        Ok(())
    }

    // A frame was refused.
    fn note_refused(&mut self, payload: &Drawn, place: usize, code: u64, before: Replies) {
        self.tally.count(Verdict::Refused(code));
        if self.ask(payload, place) != before {
            more(&mut self.tally.changed);
        }
    }

    fn is_refused_with(&self, payload: &Drawn, place: usize, code: u64) -> bool {
        match payload.frames.get(place) {
            Some(frame) => is_of_code(frame.verdict, code),
            None => false,
        }
    }

    // A frame was refused with the code of an error, in a call that began with another. Returns with which the next call
    // begins: with the same again, if others were accepted before it in this call, so that it is known what it alone changes.
    fn next_call(
        &mut self,
        payload: &Drawn,
        first: usize,
        place: usize,
        code: u64,
        before: Replies,
    ) -> Result<usize, OutOfMemory> {
        if code == TransportError::INTERNAL_ERROR {
            self.note_crowded(payload, place)?;
            return Ok(place.saturating_add(1));
        }
        let is_wanted = self.is_refused_with(payload, place, code);
        self.tally.expect(is_wanted);
        if place > first {
            return Ok(place);
        }
        self.note_refused(payload, place, code, before);
        Ok(place.saturating_add(1))
    }

    // A payload was malformed: none of its frames is accepted.
    fn note_malformed(&mut self, payload: &Drawn, next: usize, before: Replies) {
        self.tally.expect(payload.is_malformed && next == 0);
        if self.ask(payload, 0) != before {
            more(&mut self.tally.changed);
        }
        for _ in 0..payload.frames.len() {
            let code = TransportError::FRAME_ENCODING_ERROR;
            self.tally.count(Verdict::Refused(code));
        }
    }

    // Hands in a payload from one of its frames on. Returns with which the next call begins, `DONE` if there is none.
    fn call(&mut self, payload: &Drawn, first: usize) -> Result<usize, OutOfMemory> {
        let before = self.ask(payload, first);
        let received = self.receive(payload, first)?;
        let next = received.next;
        self.note_accepted(payload, first, next);
        match received.answer {
            Ok(()) => {
                self.tally.expect(next == payload.frames.len());
                Ok(DONE)
            }
            Err(PayloadError::OutOfMemory) => Err(OutOfMemory),
            Err(PayloadError::Malformed) => {
                self.note_malformed(payload, next, before);
                Ok(DONE)
            }
            Err(PayloadError::Transport(error)) => {
                self.next_call(payload, first, next, error.code, before)
            }
        }
    }

    // Hands in the frames of a payload one after another, also those behind one that is refused, each at most twice.
    fn hand_in(&mut self, payload: &Drawn) -> Result<(), OutOfMemory> {
        let mut first = 0usize;
        let calls = payload.frames.len().saturating_mul(2);
        for _ in 0..calls.saturating_add(1) {
            first = self.call(payload, first)?;
            if first == DONE {
                break;
            }
        }
        self.tally.expect(first == DONE);
        self.stop_crowded()
    }

    // Streams with too many segments are stopped, so that these go.
    fn stop_crowded(&mut self) -> Result<(), OutOfMemory> {
        for _ in 0..self.crowded.len() {
            if let Some(id) = self.crowded.pop() {
                self.application.stop(&mut self.end, &mut self.record, id)?;
            }
        }
        Ok(())
    }

    // Whether credit, bytes and streams are those of the record.
    fn compare(&mut self) {
        self.record.count_over(self.end.streams());
        if !self.record.is_in_step(self.end.streams()) {
            more(&mut self.tally.out_of_step);
        }
    }

    fn step(&mut self, most: u64) -> Result<(), OutOfMemory> {
        let payload = draw(
            self.alloc,
            &mut self.peer,
            &mut self.record,
            self.end.streams(),
            most,
        )?;
        self.hand_in(&payload)?;
        self.compare();
        Ok(())
    }

    fn turn(&mut self) -> Result<(), OutOfMemory> {
        self.application
            .turn(self.alloc, &mut self.end, &mut self.record)?;
        self.compare();
        Ok(())
    }
}

/// Hands in so many frames of a peer that a seed leads, and reports what came of them.
pub fn hold(alloc: Global, seed: u64, frames: u64) -> Result<Tally, OutOfMemory> {
    let mut trial = Trial {
        alloc,
        end: new_end(alloc)?,
        record: Record::new(alloc),
        peer: Peer::new(seed),
        application: Application::new(alloc, seed.wrapping_add(1)),
        draws: Draws(seed.wrapping_add(2)),
        crowded: Vec::new(alloc),
        tally: Tally::new(),
    };
    for number in 0..frames {
        let left = frames.saturating_sub(trial.tally.frames);
        if left == 0 {
            break;
        }
        trial.step(left)?;
        if number % TURN == 0 {
            trial.turn()?;
        }
    }
    let mut tally = trial.tally;
    tally.out_of_step = tally
        .out_of_step
        .saturating_add(trial.application.out_of_step);
    tally.wrong_bytes = trial.application.wrong_bytes;
    Ok(tally)
}
