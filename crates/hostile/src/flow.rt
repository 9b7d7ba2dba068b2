//! What is known of single streams, and counts by direction.

use quic_values::{Dir, Side, StreamId};

/// Where a receive side is.
#[derive(Clone, Copy, Debug, PartialEq, Eq)]
pub enum Phase {
    Open,
    Stopped,
    Reset,
}

/// What is known of a stream on which something was received, and whose receive side is not freed.
#[derive(Clone, Copy, Debug)]
pub struct Flow {
    pub id: StreamId,
    pub phase: Phase,
    /// The highest offset that was received, and how many bytes were read.
    pub high: u64,
    pub read: u64,
    pub size: Option<u64>,
    /// The last limit that was advertised.
    pub limit: u64,
    /// How many frames were buffered.
    pub kept: u64,
}

impl Flow {
    /// A stream on which nothing was received, with a limit.
    pub fn untouched(id: StreamId, limit: u64) -> Self {
        Flow {
            id,
            phase: Phase::Open,
            high: 0,
            read: 0,
            size: None,
            limit,
            kept: 0,
        }
    }
}

/// A number for each direction.
#[derive(Clone, Copy, Debug)]
pub struct Counts {
    bi: u64,
    uni: u64,
}

impl Counts {
    /// The same number for both.
    pub fn new(count: u64) -> Self {
        Counts {
            bi: count,
            uni: count,
        }
    }

    pub fn of(self, dir: Dir) -> u64 {
        match dir {
            Dir::Bi => self.bi,
            Dir::Uni => self.uni,
        }
    }

    /// Raises the number of a direction to another, if that is greater.
    pub fn raise(&mut self, dir: Dir, count: u64) {
        match dir {
            Dir::Bi => self.bi = self.bi.max(count),
            Dir::Uni => self.uni = self.uni.max(count),
        }
    }

    /// Counts one more of a direction.
    pub fn add_one(&mut self, dir: Dir) {
        self.raise(dir, self.of(dir).saturating_add(1));
    }
}

/// Whether the endpoint that is tested, a server, opens a stream.
pub fn is_own(id: StreamId) -> bool {
    match id.initiator() {
        Side::Server => true,
        Side::Client => false,
    }
}
