//! The credit of a connection for the data that it sends (RFC 9000 section 4.1), and how much of it may be retained.

ghost use Rattle.std.specs.Prelude.{◌≡◌, ◌<◌, ◌≤◌, ◌^◌, ◌⊎◌, ◌↔◌, min, nat_lt};
ghost use Rattle.quic_limits.specs.SendingCredit.{SendingCredit, no_credit, limit_left, window_left, writable, with_written, saturated, with_released, with_limit, with_window, is_blocked_reported, is_blocked_due, with_blocked};

use quic_values::VarInt;
use std::marker::Model;

/// How many bytes may be sent on all streams together, and how many were.
///
/// A byte that was written is retained until it is acknowledged or given up. The limit begins at 0 and never falls.
#[derive(Drop)]
pub struct SendCredit {
    max_data: u64,
    data_sent: u64,
    buffered_data: u64,
    send_window: u64,
    blocked_at: Option<u64>,
}

impl Model for SendCredit {
    ghost use Rattle.std.specs.Prelude.{◌<◌, ◌^◌};
    ghost use Rattle.quic_limits.specs.SendingCredit.{SendingCredit};

    ghost Value = { SendingCredit };

    ghost view = { λ c. record {
      max_data = c.max_data;
      data_sent = c.data_sent;
      buffered_data = c.buffered_data;
      send_window = c.send_window;
      blocked_at = c.blocked_at;
    } };

    ghost invariant = { λ c. c.max_data < 2 ^ 62 };
}

impl SendCredit {
    /// Nothing may be sent until the peer gives a limit. At most `send_window` bytes are to be retained.
    pub fn new(send_window: u64) -> Self
        ensures { result ≡ no_credit send_window }
    {
        SendCredit {
            max_data: 0,
            data_sent: 0,
            buffered_data: 0,
            send_window,
            blocked_at: None,
        }
    }

    /// How many bytes may be sent in all.
    #[inline]
    pub fn max_data(&self) -> u64
        ensures limit { result ≡ self.now.max_data }
        ensures small { result < 2 ^ 62 }
    {
        self.max_data
    }

    /// How many bytes were written in all.
    #[inline]
    pub fn data_sent(&self) -> u64
        ensures { result ≡ self.now.data_sent }
    {
        self.data_sent
    }

    /// How many written bytes are retained.
    #[inline]
    pub fn buffered_data(&self) -> u64
        ensures { result ≡ self.now.buffered_data }
    {
        self.buffered_data
    }

    /// How many bytes may be retained.
    #[inline]
    pub fn send_window(&self) -> u64
        ensures { result ≡ self.now.send_window }
    {
        self.send_window
    }

    /// How many bytes may be written now: the lesser of what the limit and what the window leave.
    #[inline]
    pub fn write_limit(&self) -> u64
        ensures least { result ≡ writable self.now }
        ensures none { (result ≡ 0) ↔ ((self.now.max_data ≤ self.now.data_sent) ⊎ (self.now.send_window ≤ self.now.buffered_data)) }
    {
        let limit_left = self.max_data.saturating_sub(self.data_sent);
        let window_left = self.send_window.saturating_sub(self.buffered_data);
        limit_left.min(window_left)
    }

    /// The peer gave a limit (RFC 9000 section 19.9). Answers whether it is above the one that was held, which it then
    /// replaces.
    pub fn raise(&mut self, limit: VarInt) -> bool
        ensures credit { self.new ≡ with_limit self.old limit }
        ensures rose { result ≡ nat_lt self.old.max_data limit }
        ensures never_falls { self.old.max_data ≤ self.new.max_data }
    {
        let limit = limit.into_inner();
        let rose = self.max_data < limit;
        self.max_data = self.max_data.max(limit);
        rose
    }

    /// So many bytes were written, and are retained. The sums stop at the greatest number of 64 bits, which no write of
    /// at most [`SendCredit::write_limit`] bytes reaches.
    pub fn sent(&mut self, count: u64)
        ensures credit { self.new ≡ saturated (with_written self.old count) }
        ensures exact { count ≤ writable self.old → self.new ≡ with_written self.old count }
        ensures within { count ≤ writable self.old → self.old.data_sent ≤ self.old.max_data → self.new.data_sent ≤ self.new.max_data }
        ensures retained { count ≤ writable self.old → self.old.buffered_data ≤ self.old.send_window → self.new.buffered_data ≤ self.new.send_window }
    {
        self.data_sent = self.data_sent.saturating_add(count);
        self.buffered_data = self.buffered_data.saturating_add(count);
    }

    /// So many bytes are retained no more.
    pub fn release(&mut self, count: u64)
        ensures { self.new ≡ with_released self.old count }
    {
        self.buffered_data = self.buffered_data.saturating_sub(count);
    }

    /// Sets how many bytes may be retained. Where more are, nothing is written until enough were released.
    pub fn set_send_window(&mut self, send_window: u64)
        ensures { self.new ≡ with_window self.old send_window }
    {
        self.send_window = send_window;
    }

    /// Answers whether DATA_BLOCKED is to be queued (RFC 9000 section 19.12): where the limit is reached, and it was not
    /// queued for this limit, as it then is.
    pub fn note_blocked(&mut self) -> bool
        ensures credit { self.new ≡ with_blocked self.old }
        ensures due { result ≡ is_blocked_due self.old }
    {
        let due = self.data_sent == self.max_data && !self.is_blocked();
        if due {
            self.blocked_at = Some(self.max_data);
        }
        due
    }

    /// Whether DATA_BLOCKED was queued for the limit that is held.
    #[inline]
    pub fn is_blocked(&self) -> bool
        ensures { result ≡ is_blocked_reported self.now }
    {
        match self.blocked_at {
            Some(limit) => limit == self.max_data,
            None => false,
        }
    }

    /// An early start was rejected: nothing was sent, no limit is held, and only the window stays.
    pub fn reset(&mut self)
        ensures { self.new ≡ no_credit self.old.send_window }
    {
        *self = SendCredit::new(self.send_window);
    }
}
