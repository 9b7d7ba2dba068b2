ghost use Rattle.std.specs.Prelude.{◌≡◌, ◌<◌, ◌^◌};

use crate::var_int::VarInt;
use std::fmt;
use std::marker::Model;
use std::ops::Not;

/// The greatest number of streams of one direction (RFC 9000 section 4.6).
pub const MAX_STREAM_COUNT: u64 = 1 << 60;

/// One of the two ends of a connection.
#[derive(Clone, Copy, Debug, PartialEq, Eq, PartialOrd, Ord, Hash)]
pub enum Side {
    Client,
    Server,
}

impl Side {
    ghost use Rattle.quic_values.specs.Ids.{is_client_side};

    pub fn is_client(self) -> bool
        ensures { result ≡ is_client_side self }
    {
        matches!(self, Side::Client)
    }
}

/// Whether a stream carries data both ways.
#[derive(Clone, Copy, Debug, PartialEq, Eq, PartialOrd, Ord, Hash)]
pub enum Dir {
    /// Data flow both ways.
    Bi,
    /// Data flow from the initiator alone.
    Uni,
}

/// The number of a stream, below 2^62 (RFC 9000 section 2.1).
#[derive(Clone, Copy, Debug, PartialEq, Eq, PartialOrd, Ord, Hash)]
pub struct StreamId(u64);

impl Model for StreamId {
    ghost use Rattle.std.specs.Prelude.{ℕ, ◌<◌, ◌^◌};

    ghost Value = { ℕ };

    ghost view = { λ id. id.0 };

    ghost invariant = { λ id. id.0 < 2 ^ 62 };

    ghost inverse = { λ n. record { 0 = n } };
}

impl Not for Side {
    ghost use Rattle.std.specs.Prelude.{◌≡◌};
    ghost use Rattle.quic_values.specs.Ids.{other_side};

    ghost not_gives = { λ side other. other ≡ other_side side };

    type Output = Side;

    fn not(self) -> Side {
        match self {
            Side::Client => Side::Server,
            Side::Server => Side::Client,
        }
    }
}

impl StreamId {
    ghost use Rattle.quic_values.specs.Ids.{stream_id, initiator_of, dir_of, index_of};

    /// The id of the stream that is the `index`th, from 0 on, of its initiator and direction.
    #[inline]
    pub fn new(initiator: Side, dir: Dir, index: u64) -> StreamId
        requires { index < 2 ^ 60 }
        ensures number { result ≡ stream_id initiator dir index }
        ensures initiator { initiator_of result ≡ initiator }
        ensures dir { dir_of result ≡ dir }
        ensures index { index_of result ≡ index }
    {
        StreamId(4 * index + 2 * dir as u64 + initiator as u64)
    }

    /// Which end opened the stream, or is to open it.
    #[inline]
    pub fn initiator(self) -> Side
        ensures { result ≡ initiator_of self }
    {
        if self.0 % 2 == 0 {
            Side::Client
        } else {
            Side::Server
        }
    }

    #[inline]
    pub fn dir(self) -> Dir
        ensures { result ≡ dir_of self }
    {
        if self.0 / 2 % 2 == 0 {
            Dir::Bi
        } else {
            Dir::Uni
        }
    }

    /// How many streams of its initiator and direction come before it.
    #[inline]
    pub fn index(self) -> u64
        ensures index { result ≡ index_of self }
        ensures small { result < 2 ^ 60 }
    {
        self.0 / 4
    }
}

impl From<VarInt> for StreamId {
    ghost use Rattle.std.specs.Prelude.{◌≡◌};

    ghost from_gives = { λ number id. id ≡ number };

    #[inline]
    fn from(number: VarInt) -> StreamId {
        StreamId(number.into_inner())
    }
}

impl From<StreamId> for VarInt {
    ghost use Rattle.std.specs.Prelude.{◌≡◌};

    ghost from_gives = { λ id number. number ≡ id };

    #[inline]
    fn from(id: StreamId) -> VarInt {
        VarInt::new(id.0)
    }
}

impl fmt::Display for Side {
    ghost use Rattle.std.specs.Prelude.{Some};
    ghost use Rattle.std.specs.Fmt.{padded};
    ghost use Rattle.quic_values.specs.Ids.{side_text};

    ghost output = { λ side. Some (side_text side) };

    ghost styled_output = { λ side spec. Some (padded spec (side_text side)) };

    fn fmt<W: fmt::Write>(&self, f: &mut fmt::Formatter<W>) -> fmt::Result {
        f.pad(match self {
            Side::Client => "client",
            Side::Server => "server",
        })
    }
}

impl fmt::Display for Dir {
    ghost use Rattle.std.specs.Prelude.{Some};
    ghost use Rattle.std.specs.Fmt.{padded};
    ghost use Rattle.quic_values.specs.Ids.{dir_text};

    ghost output = { λ dir. Some (dir_text dir) };

    ghost styled_output = { λ dir spec. Some (padded spec (dir_text dir)) };

    fn fmt<W: fmt::Write>(&self, f: &mut fmt::Formatter<W>) -> fmt::Result {
        f.pad(match self {
            Dir::Bi => "bidirectional",
            Dir::Uni => "unidirectional",
        })
    }
}

impl fmt::Display for StreamId {
    ghost use Rattle.std.specs.Prelude.{Some};
    ghost use Rattle.quic_values.specs.Ids.{id_text};

    ghost output = { λ id. Some (id_text id) };

    fn fmt<W: fmt::Write>(&self, f: &mut fmt::Formatter<W>) -> fmt::Result {
        let initiator = self.initiator();
        let dir = self.dir();
        let index = self.index();
        write!(f, "{initiator} {dir} stream {index}")
    }
}
