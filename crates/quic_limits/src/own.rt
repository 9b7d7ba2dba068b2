//! The streams of one direction that an end may open itself (RFC 9000 section 4.6).

ghost use Rattle.std.specs.Prelude.{◌≡◌, ◌<◌, ◌≤◌, ◌^◌, IfSome, min, nat_le, nat_lt};
ghost use Rattle.quic_limits.specs.Own.{Own, IsOwn, no_own, next_own, with_next_own, with_count};

use quic_values::MAX_STREAM_COUNT;
use std::marker::Model;

/// How many streams of one direction an end may open, and how many it opened. The count that it may open begins at 0
/// and never falls.
#[derive(Drop)]
pub struct OwnStreams {
    opened: u64,
    limit: u64,
}

impl Model for OwnStreams {
    ghost use Rattle.quic_limits.specs.Own.{Own, IsOwn};

    ghost Value = { Own };

    ghost view = { λ o. record { opened = o.opened; limit = o.limit } };

    ghost invariant = { λ o. IsOwn (record { opened = o.opened; limit = o.limit }) };
}

impl OwnStreams {
    /// None was opened, and none may be until the peer gives a count.
    pub fn new() -> Self
        ensures { result ≡ no_own }
    {
        OwnStreams {
            opened: 0,
            limit: 0,
        }
    }

    /// How many were opened, which is the index of the next.
    #[inline]
    pub fn opened(&self) -> u64
        ensures count { result ≡ self.now.opened }
        ensures within { result ≤ self.now.limit }
        ensures small { result ≤ 2 ^ 60 }
    {
        self.opened
    }

    /// How many may be opened in all.
    #[inline]
    pub fn limit(&self) -> u64
        ensures count { result ≡ self.now.limit }
        ensures small { result ≤ 2 ^ 60 }
    {
        self.limit
    }

    /// Opens the next one, and answers its index. None is opened where as many were as may be.
    pub fn open(&mut self) -> Option<u64>
        ensures own { self.new ≡ with_next_own self.old }
        ensures index { result ≡ next_own self.old }
        ensures small { IfSome result (λ index. index < 2 ^ 60) }
    {
        if self.opened >= self.limit {
            return None;
        }
        let index = self.opened;
        self.opened += 1;
        Some(index)
    }

    /// The peer gave a count (RFC 9000 section 19.11). Answers whether it is above the one that was held, which it then
    /// replaces. One above 2^60 is taken for 2^60, since there are no more streams.
    pub fn raise(&mut self, count: u64) -> bool
        ensures own { self.new ≡ with_count self.old count }
        ensures rose { result ≡ nat_lt self.old.limit (min count (2 ^ 60)) }
        ensures never_falls { self.old.limit ≤ self.new.limit }
    {
        let count = count.min(MAX_STREAM_COUNT);
        let rose = self.limit < count;
        self.limit = self.limit.max(count);
        rose
    }

    /// Whether the one with an index was not opened.
    #[inline]
    pub fn is_unopened(&self, index: u64) -> bool
        ensures { result ≡ nat_le self.now.opened index }
    {
        index >= self.opened
    }

    /// An early start was rejected: none was opened, and no count is held.
    pub fn reset(&mut self)
        ensures { self.new ≡ no_own }
    {
        *self = OwnStreams::new();
    }
}
