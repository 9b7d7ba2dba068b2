//! The credit of a connection for the data that it receives (RFC 9000 sections 4.1 and 4.2).

ghost use Rattle.std.specs.Prelude.{◌≡◌, ◌+◌, ◌<◌, ◌^◌, nat_lt};
ghost use Rattle.quic_limits.specs.Credit.{Credit, new_credit, credited, is_max_data_due, counted, max_data_of, announced, resized};

use quic_values::VarInt;
use std::marker::Model;

/// How many bytes the peer may send on all streams together, and how many it sent.
///
/// The limit begins at the receive window, grows by the bytes that were consumed, and never falls.
#[derive(Drop)]
pub struct ReceiveCredit {
    receive_window: u64,
    local_max_data: u64,
    sent_max_data: u64,
    data_recvd: u64,
    shrink_debt: u64,
}

impl Model for ReceiveCredit {
    ghost use Rattle.std.specs.Prelude.{◌<◌, ◌^◌};
    ghost use Rattle.quic_limits.specs.Credit.{Credit};

    ghost Value = { Credit };

    ghost view = { λ c. record {
      receive_window = c.receive_window;
      local_max_data = c.local_max_data;
      sent_max_data = c.sent_max_data;
      data_recvd = c.data_recvd;
      shrink_debt = c.shrink_debt;
    } };

    ghost invariant = { λ c. (c.receive_window < 2 ^ 62) × (c.sent_max_data < 2 ^ 62) };
}

impl ReceiveCredit {
    /// Credit for one window.
    pub fn new(receive_window: VarInt) -> Self
        ensures { result ≡ new_credit receive_window }
    {
        let receive_window = receive_window.into_inner();
        ReceiveCredit {
            receive_window,
            local_max_data: receive_window,
            sent_max_data: receive_window,
            data_recvd: 0,
            shrink_debt: 0,
        }
    }

    /// How many bytes the peer may send in all.
    #[inline]
    pub fn local_max_data(&self) -> u64
        ensures { result ≡ self.now.local_max_data }
    {
        self.local_max_data
    }

    /// The sum of the highest offsets received.
    #[inline]
    pub fn data_recvd(&self) -> u64
        ensures { result ≡ self.now.data_recvd }
    {
        self.data_recvd
    }

    /// Counts bytes that lie above what was received before.
    #[inline]
    pub fn count(&mut self, new_bytes: u64)
        requires { self.old.data_recvd + new_bytes < 2 ^ 64 }
        ensures { self.new ≡ counted self.old new_bytes }
    {
        self.data_recvd += new_bytes;
    }

    /// Gives credit for bytes that were consumed. Answers whether MAX_DATA is to be sent.
    pub fn add(&mut self, consumed: u64) -> bool
        ensures credit { self.new ≡ credited self.old consumed }
        ensures due { result ≡ is_max_data_due self.new }
    {
        let gain = consumed.saturating_sub(self.shrink_debt);
        self.local_max_data = self.local_max_data.saturating_add(gain);
        self.shrink_debt = self.shrink_debt.saturating_sub(consumed);
        self.is_max_data_due()
    }

    // Whether the limit can be announced, and has grown enough to be.
    fn is_max_data_due(&self) -> bool
        ensures { result ≡ is_max_data_due self.now }
    {
        self.local_max_data <= VarInt::MAX.into_inner()
            && self.local_max_data >= self.sent_max_data + self.receive_window / 8
    }

    /// The limit that a MAX_DATA frame announces: at most 2^62 - 1 (RFC 9000 section 19.9).
    pub fn max_data(&self) -> VarInt
        ensures { result ≡ max_data_of self.now }
    {
        VarInt::from_u64(self.local_max_data).unwrap_or(VarInt::MAX)
    }

    /// The limit of [`ReceiveCredit::max_data`] was announced.
    pub fn announce(&mut self)
        ensures { self.new ≡ announced self.old }
    {
        let max_data = self.max_data().into_inner();
        self.sent_max_data = self.sent_max_data.max(max_data);
    }

    /// Sets the receive window. A larger one raises the limit by the gain, and the answer is true. A smaller one
    /// leaves it, and bytes that are consumed give no credit until the loss is made up.
    pub fn set_receive_window(&mut self, receive_window: VarInt) -> bool
        ensures credit { self.new ≡ resized self.old receive_window }
        ensures raised { result ≡ nat_lt self.old.receive_window receive_window }
    {
        let window = receive_window.into_inner();
        let raised = self.receive_window < window;
        if raised {
            let gain = window - self.receive_window;
            self.local_max_data = self.local_max_data.saturating_add(gain);
        } else {
            let loss = self.receive_window - window;
            self.shrink_debt = self.shrink_debt.saturating_add(loss);
        }
        self.receive_window = window;
        raised
    }
}
