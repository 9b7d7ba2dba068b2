//! What a peer that keeps no rule sends next.

use crate::arrival::{Arrival, GREATEST, Part, var_int};
use crate::flow::{Flow, Phase};
use crate::record::Record;
use quic_values::{Dir, OutOfMemory, StreamId};

/// Numbers that a seed gives, one after another.
#[derive(Clone, Copy, Debug)]
pub struct Draws(pub u64);

impl Draws {
    fn next(&mut self) -> u64 {
        self.0 = self
            .0
            .wrapping_mul(6_364_136_223_846_793_005)
            .wrapping_add(1_442_695_040_888_963_407);
        (self.0 ^ (self.0 >> 29)) >> 20
    }

    /// One below a number, 0 if there is none.
    pub fn below(&mut self, bound: u64) -> u64 {
        let drawn = self.next();
        if bound == 0 { 0 } else { drawn % bound }
    }

    /// Once in so many times.
    pub fn once_in(&mut self, times: u64) -> bool {
        self.below(times) == 0
    }

    // The same of 16 bits.
    fn short_below(&mut self, bound: u64) -> u16 {
        u16::try_from(self.below(bound)).unwrap_or(u16::MAX)
    }

    fn dir(&mut self) -> Dir {
        if self.once_in(2) { Dir::Bi } else { Dir::Uni }
    }
}

// For so many frames the peer sends mostly on one stream, which it fills with gaps.
const SPELL: u64 = 8192;

fn dir_bit(dir: Dir) -> u64 {
    match dir {
        Dir::Bi => 0,
        Dir::Uni => 2,
    }
}

// The stream of an index that the client opens.
fn of_client(dir: Dir, index: u64) -> StreamId {
    StreamId::from(var_int(index.saturating_mul(4).saturating_add(dir_bit(dir))))
}

// The same of the server.
fn of_server(dir: Dir, index: u64) -> StreamId {
    StreamId::from(var_int(index.saturating_mul(4).saturating_add(dir_bit(dir) | 1)))
}

/// A client that keeps no rule.
#[derive(Clone, Copy, Debug)]
pub struct Peer {
    draws: Draws,
    victim: StreamId,
    sent: u64,
}

impl Peer {
    pub fn new(seed: u64) -> Self {
        Peer {
            draws: Draws(seed),
            victim: of_client(Dir::Uni, 0),
            sent: 0,
        }
    }

    // Mostly a stream that may be open, at times any.
    fn stream(&mut self, record: &Record) -> StreamId {
        let dir = self.draws.dir();
        let top = record.limit(dir);
        match self.draws.below(16) {
            0 => {
                let next = record.own(dir).saturating_add(3);
                of_server(dir, next.saturating_sub(self.draws.below(12)))
            }
            1 => of_client(dir, top.saturating_add(self.draws.below(3))),
            2 => of_client(dir, self.draws.below(top)),
            3 => StreamId::from(var_int(GREATEST.saturating_sub(self.draws.below(8)))),
            _ => {
                let back = self.draws.below(18).saturating_add(1);
                of_client(dir, top.saturating_sub(back))
            }
        }
    }

    fn offset(&mut self, flow: Flow) -> u64 {
        let offset = match self.draws.below(12) {
            0 | 1 | 2 => flow.high,
            3 | 4 => flow.high.saturating_add(self.draws.below(4)),
            5 | 6 | 7 => self.draws.below(flow.high.saturating_add(1)),
            8 => flow.read,
            9 => flow.limit.saturating_sub(self.draws.below(70)),
            10 => 0,
            _ => GREATEST.saturating_sub(self.draws.below(70)),
        };
        offset.min(GREATEST)
    }

    fn count(&mut self) -> u16 {
        match self.draws.below(32) {
            0 => 0,
            1 => self.draws.short_below(1200),
            2..=9 => 1,
            _ => self.draws.short_below(64),
        }
    }

    fn data(&mut self, id: StreamId, flow: Flow) -> Arrival {
        Arrival::Data(Part {
            id,
            offset: self.offset(flow),
            count: self.count(),
            fin: self.draws.once_in(24),
        })
    }

    // One byte, and a gap before it.
    fn gap(&mut self, flow: Flow) -> Arrival {
        Arrival::Data(Part {
            id: flow.id,
            offset: flow.high.saturating_add(1),
            count: 1,
            fin: false,
        })
    }

    fn reset(&mut self, id: StreamId, flow: Flow) -> Arrival {
        let size = match self.draws.below(8) {
            0 => flow.high.saturating_sub(1),
            1 => flow.limit.saturating_add(1),
            2 => flow.limit,
            3 => GREATEST,
            4 => flow.size.unwrap_or(0),
            5 => flow.high.saturating_add(self.draws.below(40)),
            _ => flow.high,
        };
        Arrival::Reset { id, size }
    }

    fn limit(&mut self) -> u64 {
        match self.draws.below(4) {
            0 => GREATEST,
            1 => self.draws.below(1 << 40),
            _ => self.draws.below(1 << 14),
        }
    }

    fn stream_count(&mut self) -> u64 {
        match self.draws.below(4) {
            0 => 1 << 60,
            1 => (1u64 << 60).saturating_add(self.draws.below(4)),
            2 => GREATEST.saturating_sub(self.draws.below(4)),
            _ => self.draws.below(40),
        }
    }

    fn datagram(&mut self) -> Arrival {
        let count = match self.draws.below(4) {
            0 => self.draws.short_below(200).saturating_add(900),
            1 => self.draws.short_below(4),
            _ => self.draws.short_below(400),
        };
        Arrival::Datagram(count)
    }

    // The stream that is filled with gaps for a while, or until it is closed.
    fn victim(&mut self, record: &Record) -> Option<Flow> {
        let is_over = self.sent % SPELL == 0;
        self.sent = self.sent.wrapping_add(1);
        match record.flow(self.victim) {
            Some(flow) if flow.phase == Phase::Open && !is_over => Some(flow),
            _ => {
                let top = record.limit(Dir::Uni);
                let back = self.draws.below(8).saturating_add(1);
                self.victim = of_client(Dir::Uni, top.saturating_sub(back));
                None
            }
        }
    }

    /// How many frames the next payload has, at most as many as are wanted.
    pub fn frame_count(&mut self, most: u64) -> u64 {
        let count = match self.draws.below(8) {
            0 => self.draws.below(24),
            1 | 2 | 3 => 0,
            _ => self.draws.below(4),
        };
        count.saturating_add(1).min(most)
    }

    /// Whether data at the end of a payload have their length.
    pub fn with_length(&mut self) -> bool {
        self.draws.once_in(2)
    }

    /// Whether the next payload is malformed.
    pub fn is_malformed(&mut self) -> bool {
        self.draws.once_in(64)
    }

    /// Makes a payload malformed: its last byte goes, or a frame of an unknown type stands behind the others.
    pub fn spoil(&mut self, payload: &mut Vec<u8>) -> Result<(), OutOfMemory> {
        if self.draws.once_in(2) {
            let _ = payload.pop();
        } else {
            let place = u8::try_from(self.draws.below(15)).unwrap_or(0);
            payload.push(place.saturating_add(0x21))?;
        }
        Ok(())
    }

    /// The frame that comes next.
    pub fn next(&mut self, record: &Record) -> Arrival {
        let victim = self.victim(record);
        let id = self.stream(record);
        if let Some(flow) = victim
            && (id == flow.id || self.draws.once_in(2))
        {
            return self.gap(flow);
        }
        let flow = record.flow(id).unwrap_or(Flow::untouched(id, 0));
        match self.draws.below(44) {
            0..=23 => self.data(id, flow),
            24..=26 => self.reset(id, flow),
            27..=29 => Arrival::StopSending(id),
            30..=32 => Arrival::StreamDataBlocked {
                id,
                limit: self.limit(),
            },
            33..=35 => Arrival::MaxStreamData {
                id,
                limit: self.limit(),
            },
            36..=38 => Arrival::MaxStreams {
                dir: self.draws.dir(),
                count: self.stream_count(),
            },
            39..=40 => Arrival::MaxData(self.limit()),
            41..=42 => self.datagram(),
            _ => Arrival::DataBlocked(self.limit()),
        }
    }
}
