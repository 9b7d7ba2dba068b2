//! The streams of a connection: all that a connection layer needs of them.
//!
//! `streams` has the state and its handles, `recv` the receive half of a stream and the errors of reads, `send` those of
//! writes, `retransmits` the control frames that are to be sent, `datagrams` the datagrams, `stats` the counters, and `wire` the
//! frames, ids and numbers.
#![tactic(auto)]

mod acknowledging;
pub mod batches;
mod control;
mod early;
pub mod half_reads;
pub mod halves;
mod payload;
pub mod pending;
mod permits;
mod questions;
pub mod reading;
mod receiving;
pub mod recv_stream;
pub mod send_stream;
mod sending;
mod settling;
mod spare;
pub mod state;
pub mod streams;
mod transmitting;
pub mod visiting;
mod writing;

pub use pending::PendingFrames;
pub use quic_history::progress;
pub use quic_outgoing::PeerLimits;
pub use quic_pieces::{assembler, datagrams, send, send_buffer, source, stats};
pub use quic_receiving as recv;
pub use quic_retransmits as retransmits;
pub use quic_retransmits::{IssuedCid, Retransmits, StreamIds, ThinRetransmits};
pub use quic_wire as wire;
pub use quic_writing::StreamMetaVec;
pub use settling::SentPayload;
