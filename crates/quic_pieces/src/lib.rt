//! The pieces that a table of streams stands on, under one name: reassembly, the send buffer, the sending half of a
//! stream, the sources of bytes, the queues of datagrams and the counters of frames.
#![tactic(auto)]

pub use quic_datagrams::{datagrams, stats};
pub use quic_ordered as assembler;
pub use quic_sending::{send, send_buffer, source};

#[cfg(test)]
mod tests;
