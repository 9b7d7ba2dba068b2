//! The messages of a client, end A of a pair, to its server, end B.

use crate::framing::{append_message, take_message};
use anyhow::{Context, Result};
use quic_pair::{Config, End, Pair, PairError, Reply, Step};
use quic_values::{Bytes, Dir, StreamId, VarInt};
use quic_wire::{Frame, StreamEvent, decode};
use std::alloc::Global;
use std::collections::{BTreeSet, VecDeque};
use std::io::Write;

// One step, of which the program looks at the reply alone.
fn step(pair: &mut Pair, step: Step) -> Result<Reply, PairError> {
    pair.step(step)
}

// A stream: what the client has still to write, what the server has of a message, and the numbers of those to come.
#[derive(Drop)]
struct Lane {
    id: StreamId,
    waiting: Bytes,
    partial: Bytes,
    numbers: VecDeque<usize>,
}

/// Both ends, and the network between them. Payloads have the numbers from 0 on, over both ends.
#[derive(Drop)]
pub struct Queue {
    /// Which payloads are lost.
    pub losses: BTreeSet<u64>,
    pair: Pair,
    lanes: Vec<Lane>,
    // Which messages came whole, how many payloads were sent, and what is to be told of them to their writers.
    whole: BTreeSet<usize>,
    sent: u64,
    reports: Vec<Step>,
    alloc: Global,
}

impl Queue {
    /// Both ends permit 16 streams, with 64 bytes unread on each and 512 in all (RFC 9000 section 4).
    pub fn new(alloc: Global) -> Result<Self> {
        let config = Config {
            max_remote_uni: VarInt::from(16u32),
            max_remote_bi: VarInt::from(16u32),
            send_window: 512,
            receive_window: VarInt::from(512u32),
            stream_receive_window: VarInt::from(64u32),
        };
        Ok(Queue {
            losses: BTreeSet::new(alloc),
            pair: Pair::new(alloc, config, config)?,
            lanes: Vec::new(alloc),
            whole: BTreeSet::new(alloc),
            sent: 0,
            reports: Vec::new(alloc),
            alloc,
        })
    }

    /// Opens a stream of this priority (RFC 9000 section 2.3). `false`: no more are permitted.
    pub fn open(&mut self, priority: i32) -> Result<bool> {
        let (who, dir) = (End::A, Dir::Uni);
        let Reply::Id(id) = step(&mut self.pair, Step::Open { who, dir })? else {
            return Ok(false);
        };
        step(&mut self.pair, Step::SetPriority { who, id, priority })?;
        self.lanes.push(Lane {
            id,
            waiting: Bytes::new(self.alloc),
            partial: Bytes::new(self.alloc),
            numbers: VecDeque::new(self.alloc),
        })?;
        Ok(true)
    }

    /// Writes a message on a stream. `false`: there is no such stream.
    pub fn push(&mut self, stream: usize, number: usize, text: &str) -> Result<bool> {
        let Some(lane) = self.lanes.get_mut(stream) else {
            return Ok(false);
        };
        append_message(text.as_bytes(), &mut lane.waiting)?;
        lane.numbers.push_back(number)?;
        self.write(stream)?;
        Ok(true)
    }

    /// Lets both ends act and send in turn, and then tells them what became of their payloads, until there are none.
    pub fn run<W: Write>(&mut self, output: &mut W) -> Result<()> {
        for _ in 0..u64::MAX {
            for who in [End::A, End::B] {
                self.act(who, output)?;
                self.send(who, output)?;
            }
            if self.reports.is_empty() {
                break;
            }
            for report in self.reports.drain(..) {
                step(&mut self.pair, report)?;
            }
        }
        Ok(writeln!(output, "whole messages: {}", self.whole.len())?)
    }

    // An end accepts and reads each stream that was opened, and does what each event asks for.
    fn act<W: Write>(&mut self, who: End, output: &mut W) -> Result<()> {
        for _ in 0..u64::MAX {
            let reply = match step(&mut self.pair, Step::Accept { who, dir: Dir::Uni })? {
                Reply::Nothing => step(&mut self.pair, Step::Poll { who })?,
                reply => reply,
            };
            match reply {
                Reply::Id(id) => self.read(id, output)?,
                Reply::Event(event) => self.hear(event, output)?,
                _ => break,
            }
        }
        Ok(())
    }

    fn hear<W: Write>(&mut self, event: StreamEvent, output: &mut W) -> Result<()> {
        match event {
            StreamEvent::Readable { id } => self.read(id, output),
            StreamEvent::Writable { id } => self.write(id.index() as usize),
            _ => Ok(()),
        }
    }

    // Writes until the stream is blocked, and then an event tells when there is room.
    fn write(&mut self, stream: usize) -> Result<()> {
        let lane = self.lanes.get_mut(stream).context("no such stream")?;
        let (who, id) = (End::A, lane.id);
        for _ in 0..u64::MAX {
            if lane.waiting.is_empty() {
                break;
            }
            let bytes = lane.waiting.try_clone()?;
            match step(&mut self.pair, Step::Write { who, id, bytes })? {
                Reply::Wrote(count) => lane.waiting.advance(count.min(lane.waiting.len())),
                _ => break,
            }
        }
        Ok(())
    }

    // Reads what came on a stream, and takes the messages that are whole. One was overtaken by those of higher numbers
    // that were whole before.
    fn read<W: Write>(&mut self, id: StreamId, output: &mut W) -> Result<()> {
        let stream = id.index() as usize;
        let lane = self.lanes.get_mut(stream).context("no such stream")?;
        let read = Step::Read {
            who: End::B,
            id,
            ordered: true,
            max: usize::MAX,
            times: u16::MAX,
        };
        if let Reply::Read { chunks, .. } = step(&mut self.pair, read)? {
            for chunk in &chunks {
                lane.partial.extend_from_slice(chunk.bytes.as_slice())?;
            }
        }
        for _ in 0..u64::MAX {
            let Some(bytes) = take_message(&mut lane.partial)? else {
                break;
            };
            let number = lane.numbers.pop_front().context("no such message")?;
            let text = str::from_utf8(bytes.as_slice())?;
            writeln!(output, "message {number} of stream {stream}: {text}")?;
            for later in self.whole.range(number..) {
                writeln!(output, "message {number} was overtaken by {later}")?;
            }
            self.whole.insert(number)?;
        }
        Ok(())
    }

    // An end sends until it has nothing more to send.
    fn send<W: Write>(&mut self, who: End, output: &mut W) -> Result<()> {
        for sent in self.sent..u64::MAX {
            let emit = Step::Emit {
                who,
                max_size: 60,
                fair: true,
            };
            let Reply::Payload { number, bytes } = step(&mut self.pair, emit)? else {
                break;
            };
            if bytes.is_empty() {
                break;
            }
            write!(output, "{who:?} sends {sent}:")?;
            self.carry(number, bytes.as_slice(), output)?;
            self.sent = sent + 1;
        }
        Ok(())
    }

    // A payload arrives or is lost, and its writer is to be told so.
    fn carry<W: Write>(&mut self, payload: usize, bytes: &[u8], output: &mut W) -> Result<()> {
        let lost = self.losses.contains(&self.sent);
        for (frame, spelled) in decode(self.alloc, bytes)?.iter().enumerate() {
            if let Frame::Stream(carried) = spelled {
                let (len, stream) = (carried.bytes.len(), carried.id.index());
                write!(output, " {len} bytes of stream {stream},")?;
            }
            if !lost {
                step(&mut self.pair, Step::Deliver { payload, frame })?;
            }
        }
        self.reports.push(match lost {
            true => Step::Lose { payload },
            false => Step::Ack { payload },
        })?;
        Ok(writeln!(output, " {}", if lost { "lost" } else { "arrives" })?)
    }
}
