//! Datagrams that wait to be sent or read (RFC 9221), and counters of frames.
#![tactic(auto)]

pub mod datagrams;
pub mod stats;

pub use datagrams::{DatagramBuffer, DatagramLimits, DatagramState, Datagrams, SendDatagramError};
pub use stats::FrameStats;
