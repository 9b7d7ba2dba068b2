//! Two ends, of which the client sends and the server reads.

use crate::content::Seen;
use crate::end::{End, Payload};
use crate::refused::Refused;
use quic_streams::SentPayload;
use quic_values::{Dir, Side, StreamId};
use quic_wire::StreamEvent;
use std::alloc::Global;
use std::collections::VecDeque;

// The most payloads of the client in a turn.
const BURST: usize = 32;

// Where payloads are lost, the last of so many is.
const LOSS_PERIOD: u64 = 20;

/// Whether the network loses payloads of the client.
#[derive(Clone, Copy, Debug, PartialEq, Eq)]
pub(crate) enum Network {
    Lossless,
    /// One in twenty is lost.
    Lossy,
}

/// What was counted, to be compared.
#[derive(Clone, Copy, Default)]
struct Tally {
    // The payloads of the client, and of the server, each as one run of bytes.
    to_server: Seen,
    to_client: Seen,
    // What the server read.
    read: Seen,
    // How many payloads the client wrote.
    payloads: u64,
    // How many events both ends told.
    events: u64,
    // How many streams were acknowledged whole, and how many were read to their end.
    finished: u64,
    ended: u64,
}

// A payload of the client, of which is still to be reported what became of it.
#[derive(Drop)]
struct InFlight {
    sent: SentPayload,
    lost: bool,
}

/// A client and a server.
#[derive(Drop)]
pub(crate) struct Link {
    pub client: End,
    server: End,
    network: Network,
    // How many bytes each stream has at most, where there are several.
    stream_len: u64,
    flight: VecDeque<InFlight>,
    // The streams on which the server has something to read, in the order in which it was told.
    readable: Vec<StreamId>,
    tally: Tally,
}

// A client and a server that permit so many streams at a time.
fn new_ends(alloc: Global, streams: u32) -> Result<(End, End), Refused> {
    let client = End::new(alloc, Side::Client, streams)?;
    match End::new(alloc, Side::Server, streams) {
        Ok(server) => Ok((client, server)),
        Err(error) => Err(error),
    }
}

impl Link {
    /// Two ends that permit so many streams at a time, of so many bytes each at most.
    pub(crate) fn new(
        alloc: Global,
        streams: u32,
        stream_len: u64,
        network: Network,
    ) -> Result<Self, Refused> {
        let flight = VecDeque::with_capacity(alloc, BURST)?;
        let (client, server) = new_ends(alloc, streams)?;
        Ok(Link {
            client,
            server,
            network,
            stream_len,
            flight,
            readable: Vec::new(alloc),
            tally: Tally::default(),
        })
    }

    /// Whether a stream was acknowledged whole, and one was read to its end.
    pub(crate) fn is_done(&self) -> bool {
        self.tally.finished > 0 && self.tally.ended > 0
    }

    /// Payloads go from the client to the server, which reads and answers. Then it is reported what became of them.
    /// Answers whether there were any.
    pub(crate) fn turn(&mut self) -> Result<bool, Refused> {
        self.send_burst()?;
        let any = !self.flight.is_empty();
        self.poll_server()?;
        self.read_all()?;
        self.answer()?;
        self.report()?;
        self.poll_client();
        Ok(any)
    }

    fn send_burst(&mut self) -> Result<(), Refused> {
        for _ in 0..BURST {
            if !self.send_one()? {
                break;
            }
        }
        Ok(())
    }

    // The client writes a payload, which comes or is lost. Answers whether there was one.
    #[inline(always)]
    fn send_one(&mut self) -> Result<bool, Refused> {
        let payload = self.client.emit()?;
        if payload.bytes.is_empty() {
            return Ok(false);
        }
        self.carry(payload)?;
        Ok(true)
    }

    // A payload of the client comes or is lost.
    #[inline(always)]
    fn carry(&mut self, payload: Payload) -> Result<(), Refused> {
        let Payload { bytes, sent } = payload;
        let lost = self.is_next_lost();
        self.tally.to_server.see_next(&bytes);
        self.tally.payloads = self.tally.payloads.wrapping_add(1);
        self.flight.push_back(InFlight { sent, lost })?;
        if lost {
            return Ok(());
        }
        self.server.deliver(bytes)
    }

    // Whether the next payload of the client is lost.
    fn is_next_lost(&self) -> bool {
        self.network == Network::Lossy && self.tally.payloads % LOSS_PERIOD == LOSS_PERIOD - 1
    }

    fn poll_server(&mut self) -> Result<(), Refused> {
        'events: for _ in 0..u64::MAX {
            let Some(event) = self.server.poll() else {
                break 'events;
            };
            self.tally.events = self.tally.events.wrapping_add(1);
            self.note(event)?;
        }
        Ok(())
    }

    // Notes the streams of an event of the server's that may have something to read.
    #[inline(always)]
    fn note(&mut self, event: StreamEvent) -> Result<(), Refused> {
        match event {
            StreamEvent::Opened { dir } => self.accept_all(dir),
            StreamEvent::Readable { id } => {
                self.readable.push(id)?;
                Ok(())
            }
            _ => Ok(()),
        }
    }

    #[inline(always)]
    fn accept_all(&mut self, dir: Dir) -> Result<(), Refused> {
        'streams: for _ in 0..u64::MAX {
            let Some(id) = self.server.accept(dir) else {
                break 'streams;
            };
            self.readable.push(id)?;
        }
        Ok(())
    }

    fn read_all(&mut self) -> Result<(), Refused> {
        for id in &self.readable {
            let first = id.index().wrapping_mul(self.stream_len);
            if let Some(read) = self.server.read(*id, first, self.tally.read)? {
                self.tally.read = read.seen;
                self.tally.ended = self.tally.ended.wrapping_add(u64::from(read.ended));
            }
        }
        self.readable.clear();
        Ok(())
    }

    // The server writes to the client, and each payload is acknowledged at once.
    fn answer(&mut self) -> Result<(), Refused> {
        'payloads: for _ in 0..u64::MAX {
            if !self.answer_once()? {
                break 'payloads;
            }
        }
        Ok(())
    }

    // Answers whether there was a payload.
    #[inline(always)]
    fn answer_once(&mut self) -> Result<bool, Refused> {
        let payload = self.server.emit()?;
        if payload.bytes.is_empty() {
            return Ok(false);
        }
        self.take_answer(payload)?;
        Ok(true)
    }

    // A payload of the server comes, and is acknowledged.
    #[inline(always)]
    fn take_answer(&mut self, payload: Payload) -> Result<(), Refused> {
        let Payload { bytes, sent } = payload;
        self.tally.to_client.see_next(&bytes);
        self.client.deliver(bytes)?;
        self.server.acknowledge(sent)
    }

    fn report(&mut self) -> Result<(), Refused> {
        for _ in 0..self.flight.len() {
            let Some(payload) = self.flight.pop_front() else {
                break;
            };
            self.settle(payload)?;
        }
        Ok(())
    }

    // Reports what became of a payload of the client.
    #[inline(always)]
    fn settle(&mut self, payload: InFlight) -> Result<(), Refused> {
        if payload.lost {
            self.client.lose(payload.sent)
        } else {
            self.client.acknowledge(payload.sent)
        }
    }

    fn poll_client(&mut self) {
        'events: for _ in 0..u64::MAX {
            let Some(event) = self.client.poll() else {
                break 'events;
            };
            self.tally.events = self.tally.events.wrapping_add(1);
            if matches!(event, StreamEvent::Finished { .. }) {
                self.tally.finished = self.tally.finished.wrapping_add(1);
            }
        }
    }

    /// The check number, where so many streams were acknowledged and read, with so many bytes in all.
    pub(crate) fn check(&self, streams: u64, bytes: u64) -> Result<u64, Refused> {
        let tally = &self.tally;
        if tally.finished != streams || tally.ended != streams || tally.read.bytes != bytes {
            return Err(Refused);
        }
        Ok(
            [
                tally.to_server.sum,
                tally.to_server.bytes,
                tally.to_client.sum,
                tally.to_client.bytes,
                tally.read.sum,
                tally.payloads,
                tally.events,
            ]
            .iter()
            .fold(0u64, |sum, part| sum.wrapping_add(*part)),
        )
    }
}
