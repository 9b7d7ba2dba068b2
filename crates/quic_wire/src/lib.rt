//! The frames of QUIC that carry streams, as values and as bytes, and the errors and events about them.
#![tactic(auto)]

mod error;
mod event;
pub mod frame;
mod laws;
pub mod memory;
mod reading;
mod writing;

pub use error::{ReceiveError, TransportError};
pub use event::StreamEvent;
pub use frame::{DecodeError, Frame};
pub use laws::{all_spelled_so, frames_join, number_sizes, same_frames, spelled_so};
pub use memory::PieceMemory;
pub use quic_ranges::{RangeSet, same_set};
pub use quic_values::{Bytes, Dir, MAX_STREAM_COUNT, Oom, OutOfMemory, Side, StreamId, VarInt};
pub use reading::{decode, decode_owned, decode_owned_into, decode_owned_reusing};
