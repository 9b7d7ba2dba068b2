//! A client writes on a stream, a server reads it, and a network loses and reorders their payloads.

use anyhow::{Context, Result};
use quic_datagrams::DatagramLimits;
use quic_receiving::ReadableError;
use quic_sending::WriteError;
use quic_session::Session;
use quic_session::application::ReadInto;
use quic_session::buffer::Buffer;
use quic_session::emitting::Parts;
use quic_session::processing::Halt;
use quic_session::receiving::PayloadError;
use quic_session::session::Config;
use quic_session::settling::SettleError;
use quic_streams::PeerLimits;
use quic_streams::progress::LastAnswer;
use quic_values::{Dir, OutOfMemory, Side, StreamId, VarInt};
use rand_core::{Rng, SeedableRng};
use rand_xoshiro::Xoshiro256PlusPlus;
use std::alloc::Global;
use std::io::Write;
use stream_chart::{Plan, Row, Samples};

// How many steps a payload is under way.
const DELAY: u64 = 10;

// A run ends after so many steps in which nothing was delivered or acknowledged.
const PATIENCE: u64 = 1000;

// The longest header of a STREAM frame. A frame is put into a payload only if more bytes are left.
const GREATEST_HEAD: u64 = 25;

// The frames that a payload may carry.
const FRAMES: Parts = Parts {
    control: true,
    datagrams: false,
    streams: true,
};

// A payload that is received or declared lost at a step, its token, and how many bytes of data it carries.
#[derive(Drop)]
struct Flight {
    sender: Side,
    token: u64,
    payload: Buffer,
    carried: u64,
    step: u64,
    is_lost: bool,
}

// A stream, the network, and what was counted. `right` counts bytes that were delivered as they were written.
#[derive(Drop)]
struct Simulation {
    plan: Plan,
    alloc: Global,
    id: StreamId,
    // `id`, once the server accepted it.
    accepted: Option<StreamId>,
    draws: Xoshiro256PlusPlus,
    flights: Vec<Flight>,
    samples: Samples,
    row: Row,
    right: u64,
    is_read: bool,
}

// The byte of the stream at an offset.
fn byte_at(offset: u64) -> u8 {
    offset.wrapping_mul(0x9e37_79b9_7f4a_7c15).to_be_bytes()[0]
}

// Calls of a session. A function without a contract hides their promises, which no proof here needs. A payload that is
// emitted has a token.
fn emit(end: &mut Session, payload: &mut Buffer, size: u64) -> Result<Option<u64>, OutOfMemory> {
    let emitted = end.emit_buffer(payload, size as usize, FRAMES, true)?;
    Ok(emitted.map(|emitted| emitted.token))
}

fn receive(end: &mut Session, payload: &mut Buffer) -> Result<Halt, PayloadError> {
    let len = payload.bytes.len();
    end.process_buffer(payload, len, 0).answer
}

fn settle(end: &mut Session, token: u64, is_lost: bool) -> Result<(), SettleError> {
    if is_lost {
        end.lost(token)
    } else {
        end.acked(token)
    }
}

fn tells_none(end: &mut Session) -> bool {
    end.poll().is_none()
}

fn accept(end: &mut Session) -> Option<StreamId> {
    end.accept(Dir::Uni)
}

fn write(end: &mut Session, id: StreamId, bytes: &[u8]) -> Result<usize, WriteError> {
    end.write(id, bytes)
}

fn read(end: &mut Session, id: StreamId) -> Result<ReadInto, ReadableError> {
    end.read_lent(id, 32)
}

impl Simulation {
    // Payloads of a sender whose step has come are received and acknowledged, or declared lost.
    fn deliver(&mut self, sender: Side, from: &mut Session, to: &mut Session) -> Result<()> {
        for _ in 0..u64::MAX {
            let now = self.row.step;
            let is_due = |flight: &Flight| flight.sender == sender && flight.step <= now;
            let Some(place) = self.flights.iter().position(is_due) else {
                break;
            };
            let mut flight = self.flights.swap_remove(place);
            if !flight.is_lost {
                receive(to, &mut flight.payload)?;
                self.row.acknowledged = self.row.acknowledged.saturating_add(flight.carried);
            }
            settle(from, flight.token, flight.is_lost)?;
        }
        Ok(())
    }

    // How many bytes of data a payload carries, which is counted.
    fn count(&mut self, from: &Session, token: u64) -> u64 {
        let mut carried = 0u64;
        if let Some(sent) = from.payload(token) {
            for meta in sent.streams.as_slice() {
                let length = meta.offsets.end.saturating_sub(meta.offsets.start);
                carried = carried.saturating_add(length);
                self.row.sent = self.row.sent.max(meta.offsets.end);
            }
        }
        self.row.carried = self.row.carried.saturating_add(carried);
        carried
    }

    // Sends a payload, if something is due, and drops the events of the sender.
    fn send(&mut self, sender: Side, from: &mut Session) -> Result<()> {
        let mut payload = Buffer::new(self.alloc);
        let emitted = emit(from, &mut payload, self.plan.payload)?;
        let is_lost = self.draws.next_u64().checked_rem(self.plan.loss) == Some(0);
        let is_late = self.draws.next_u64().checked_rem(self.plan.reorder) == Some(0);
        let late = self.draws.next_u64() % if is_late { 2 * DELAY } else { 1 };
        let wait = if is_lost { 3 * DELAY } else { DELAY + late };
        if let Some(token) = emitted {
            let flight = Flight {
                sender,
                token,
                payload,
                carried: self.count(from, token),
                step: self.row.step.saturating_add(wait),
                is_lost,
            };
            self.flights.push(flight)?;
        }
        (0..u64::MAX).any(|_| tells_none(from));
        Ok(())
    }

    // The client writes as much as flow control allows, and finishes the stream behind the last byte.
    fn write(&mut self, client: &mut Session) -> Result<()> {
        let room = client.streams().write_limit().min(65_536);
        let next = self.row.written.saturating_add(room).min(self.plan.bytes);
        let bytes: Vec<u8> = (self.row.written..next).map(byte_at).collect(self.alloc)?;
        match write(client, self.id, bytes.as_slice()) {
            Ok(count) => self.row.written = self.row.written.saturating_add(count as u64),
            Err(WriteError::Blocked) | Err(WriteError::ClosedStream) => return Ok(()),
            Err(error) => return Err(error.into()),
        }
        if self.row.written == self.plan.bytes {
            client.finish(self.id)?;
        }
        Ok(())
    }

    // The server reads, and the bytes are compared with those written. Returns whether the stream ended.
    fn read(&mut self, server: &mut Session) -> Result<bool> {
        if self.accepted.is_none() {
            self.accepted = accept(server);
        }
        let Some(id) = self.accepted else {
            return Ok(false);
        };
        let read = read(server, id)?;
        let mut offset = read.offset;
        for chunk in server.lent_bytes() {
            for byte in chunk.memory.iter().skip(chunk.start) {
                let is_right = offset == self.row.given && *byte == byte_at(offset);
                self.right = self.right.saturating_add(u64::from(is_right));
                self.row.given = self.row.given.saturating_add(1);
                offset = offset.saturating_add(1);
            }
        }
        Ok(read.last == LastAnswer::Ended)
    }

    // One step of both endpoints.
    fn step(&mut self, client: &mut Session, server: &mut Session) -> Result<()> {
        self.deliver(Side::Client, client, server)?;
        self.deliver(Side::Server, server, client)?;
        self.is_read = self.is_read || self.read(server)?;
        self.write(client)?;
        self.send(Side::Server, server)?;
        self.send(Side::Client, client)?;
        self.row.credit = server.streams().local_max_data();
        Ok(())
    }

    // Runs until all data is read and acknowledged, nothing is under way, or too many steps in a row gained nothing.
    fn go(&mut self, rt: &impl Eprint, client: &mut Session, server: &mut Session) -> Result<()> {
        let (bytes, tenth) = (self.plan.bytes, self.plan.bytes / 10 + 1);
        let mut waited = 0u64;
        for step in 0..u64::MAX {
            let before = self.row;
            self.row.step = step;
            self.step(client, server)?;
            if self.row.given / tenth > before.given / tenth {
                eprintln!(rt; "given {} of {bytes} bytes by step {step}", self.row.given)?;
            }
            let is_gain = self.row.given > before.given
                || self.row.acknowledged > before.acknowledged;
            waited = if is_gain { 0 } else { waited.saturating_add(1) };
            let is_idle = self.flights.is_empty() && !is_gain;
            let is_done = self.is_read && self.row.acknowledged == bytes;
            if is_idle || is_done || waited == PATIENCE {
                break;
            }
            self.samples.offer(self.row)?;
        }
        Ok(self.samples.end(self.row)?)
    }

    // Why no more was delivered.
    fn reason(&self) -> &'static str {
        let plan = &self.plan;
        if plan.payload <= GREATEST_HEAD {
            "and no more: a payload has no room for data"
        } else if plan.receive_window == 0 || plan.stream_window == 0 || plan.send_window == 0 {
            "and no more: a window is 0"
        } else if plan.loss == 1 {
            "and no more: every payload is lost"
        } else if self.flights.is_empty() {
            "and no more: nothing is on its way"
        } else {
            "and no more: 1000 steps gained nothing"
        }
    }

    // Writes the samples and how the run ended. Returns the status.
    fn tell<W: Write>(&self, output: &mut W) -> Result<u8> {
        let is_whole = self.is_read && self.row.given == self.plan.bytes;
        let (status, words) = match (self.right == self.row.given, is_whole) {
            (true, true) => (0, "as written"),
            (false, _) => (3, "not as written"),
            (true, false) => (4, self.reason()),
        };
        self.samples.write(&self.plan, words, output)?;
        Ok(status)
    }
}

// A client with a stream, and a server. The client received the limits of the server in its transport parameters.
fn connect(alloc: Global, plan: &Plan) -> Result<(Session, StreamId, Session)> {
    let one = VarInt::from(1u32);
    let window = VarInt::from_u64(plan.receive_window).context("receive-window")?;
    let each = VarInt::from_u64(plan.stream_window).context("stream-window")?;
    let config = Config {
        side: Side::Server,
        max_remote_uni: one,
        max_remote_bi: one,
        send_window: plan.send_window,
        receive_window: window,
        stream_window: each,
        datagrams: DatagramLimits {
            receive: None,
            send: 0,
            max: None,
        },
    };
    let server = Session::new(alloc, &config)?;
    let side = Side::Client;
    let mut client = Session::new(alloc, &Config { side, ..config })?;
    client.set_params(&PeerLimits {
        initial_max_data: window,
        initial_max_streams_bidi: one,
        initial_max_streams_uni: one,
        initial_max_stream_data_uni: each,
        initial_max_stream_data_bidi_local: each,
        initial_max_stream_data_bidi_remote: each,
    })?;
    let id = client.open(Dir::Uni)?.context("no stream is allowed")?;
    Ok((client, id, server))
}

/// Runs the plan, reports progress on standard error, and returns the status.
pub fn run<W: Write>(rt: &impl Eprint, alloc: Global, plan: Plan, output: &mut W) -> Result<u8> {
    let (mut client, id, mut server) = connect(alloc, &plan)?;
    let mut simulation = Simulation {
        plan,
        alloc,
        id,
        accepted: None,
        draws: Xoshiro256PlusPlus::seed_from_u64(plan.seed),
        flights: Vec::new(alloc),
        samples: Samples::new(alloc),
        row: Row::default(),
        right: 0,
        is_read: false,
    };
    simulation.go(rt, &mut client, &mut server)?;
    simulation.tell(output)
}
