//! Datagrams of a session (RFC 9221).

ghost use Rattle.std.specs.Prelude.{◌≡◌, ◌==◌, ◌-◌, not, OnOk, IfErr, None, length, option_map};
ghost use Rattle.quic_datagrams.specs.Sending.{send_refusal};
ghost use Rattle.quic_datagrams.specs.Queue.{with_newest, total_cost};
ghost use Rattle.quic_session.specs.Sessions.{end_of, datagrams_view, beside_of, with_datagrams, oldest_received, without_oldest, with_max, next_told, with_told};
ghost use Rattle.quic_session.specs.Datagrams.{IsRefusedAs, after_error};

use crate::session::Session;
use quic_datagrams::{Datagrams, SendDatagramError};
use quic_values::Bytes;
use thiserror::Error;

// How many bytes a datagram counts in the send buffer beside its length.
const OVERHEAD: usize = 32;

/// Why a datagram was not queued.
#[derive(Clone, Copy, Debug, Error, PartialEq, Eq)]
pub enum DatagramError {
    /// The peer takes none.
    #[error("datagrams not supported by peer")]
    UnsupportedByPeer,
    #[doc = "They are off here."]
    #[error("datagram support disabled")]
    Disabled,
    /// It is too long.
    #[error("datagram too large")]
    TooLarge,
    /// Others wait, and leave no room.
    #[error("datagram send blocked")]
    Blocked,
    /// There was no memory.
    #[error("out of memory")]
    OutOfMemory,
}

/// What is to be told of datagrams.
#[derive(Clone, Copy, Debug, PartialEq, Eq)]
pub enum DatagramEvent {
    /// One can be read.
    Received,
    /// One can be queued again.
    Unblocked,
}

impl Session {
    /// Queues a datagram.
    pub fn send_datagram(&mut self, content: &[u8], drop_oldest: bool) -> Result<(), DatagramError>
        ensures permitted { OnOk result (send_refusal self.old.limits self.old.datagrams.outgoing content.now drop_oldest ≡ None) }
        ensures queued { OnOk result (self.new.datagrams ≡ record self.old.datagrams { outgoing = with_newest self.old.limits.send self.old.datagrams.outgoing (record { bytes = content.now }) }) }
        ensures refusal { IfErr result (λ e. IsRefusedAs (datagrams_view self.old) content.now drop_oldest e) }
        ensures err { IfErr result (λ e. self.new.datagrams ≡ after_error self.old.datagrams e) }
        ensures others { beside_of self.new ≡ with_datagrams (beside_of self.old) (record (datagrams_view self.old) { state = self.new.datagrams }) }
        ensures end { end_of self.new ≡ end_of self.old }
        ensures users { self.new.users ≡ self.old.users }
    {
        let Ok(bytes) = Bytes::copy_from_slice(self.alloc, content) else {
            return Err(DatagramError::OutOfMemory);
        };
        match Datagrams::new(&mut self.datagrams, self.limits).send(bytes, drop_oldest) {
            Ok(()) => Ok(()),
            Err(SendDatagramError::UnsupportedByPeer) => Err(DatagramError::UnsupportedByPeer),
            Err(SendDatagramError::Disabled) => Err(DatagramError::Disabled),
            Err(SendDatagramError::TooLarge) => Err(DatagramError::TooLarge),
            Err(SendDatagramError::Blocked(_)) => Err(DatagramError::Blocked),
            Err(SendDatagramError::OutOfMemory(_)) => Err(DatagramError::OutOfMemory),
        }
    }

    /// Whether datagrams wait to be sent.
    pub fn has_datagrams(&self) -> bool
        ensures { result ≡ not (length self.now.datagrams.outgoing == 0) }
    {
        !self.datagrams.outgoing.is_empty()
    }

    /// How many bytes the oldest received datagram has, if one waits.
    pub fn datagram_length(&self) -> Option<usize>
        ensures { result ≡ option_map length (oldest_received self.now.datagrams.incoming) }
    {
        self.datagrams.incoming.oldest_length()
    }

    /// Takes the oldest received datagram out, if one waits.
    pub fn recv_datagram(&mut self) -> Option<Bytes>
        ensures oldest { result ≡ oldest_received self.old.datagrams.incoming }
        ensures datagrams { beside_of self.new ≡ with_datagrams (beside_of self.old) (without_oldest (datagrams_view self.old)) }
        ensures end { end_of self.new ≡ end_of self.old }
        ensures users { self.new.users ≡ self.old.users }
    {
        self.datagrams.recv()
    }

    /// Takes the bytes of a datagram that is no longer needed, so that their memory is used again.
    pub fn give_back(&mut self, datagram: Bytes)
        ensures same { self.new ≡ self.old }
    {
        let (piece, _) = datagram.into_parts();
        self.pieces.put(piece);
    }

    /// The greatest length of a datagram, or `None` where the peer takes none.
    pub fn max_datagram(&self) -> Option<usize>
        ensures { result ≡ self.now.limits.max }
    {
        self.limits.max
    }

    /// The greatest length that can be queued now without a drop, if it is above 0.
    pub fn datagram_send_space(&self) -> usize
        ensures space { result ≡ self.now.limits.send - total_cost self.now.datagrams.outgoing - 32 }
    {
        let used = self.datagrams.outgoing.memory_used();
        self.limits
            .send
            .saturating_sub(used)
            .saturating_sub(OVERHEAD)
    }

    /// Sets the greatest length that the path and the peer take, and drops what waits and is longer.
    pub fn set_max_datagram(&mut self, max: Option<usize>)
        ensures datagrams { beside_of self.new ≡ with_datagrams (beside_of self.old) (with_max (datagrams_view self.old) max) }
        ensures end { end_of self.new ≡ end_of self.old }
        ensures users { self.new.users ≡ self.old.users }
    {
        self.limits.max = max;
        let unblocked = Datagrams::new(&mut self.datagrams, self.limits).drop_oversized();
        if unblocked {
            self.told_room = false;
        }
    }

    /// What is to be told of datagrams next, if there is something.
    pub fn poll_datagrams(&mut self) -> Option<DatagramEvent>
        ensures event { result ≡ next_told (datagrams_view self.old) }
        ensures told { beside_of self.new ≡ with_datagrams (beside_of self.old) (with_told (datagrams_view self.old)) }
        ensures end { end_of self.new ≡ end_of self.old }
        ensures users { self.new.users ≡ self.old.users }
    {
        if !self.told_received {
            self.told_received = true;
            return Some(DatagramEvent::Received);
        }
        if !self.told_room {
            self.told_room = true;
            return Some(DatagramEvent::Unblocked);
        }
        None
    }
}
