//! The receive half of one stream (RFC 9000 section 3.2): what came, what is permitted, and how it ends.
#![tactic(auto)]

mod errors;
mod half;
mod state;
mod transmit;

pub use errors::{ReadError, ReadableError};
pub use half::Recv;
pub use quic_assembler::{Chunk, EnsureError, IllegalOrderedRead};
pub use quic_sending::{ClosedStream, HandleError};
pub use state::RecvState;
pub use transmit::ShouldTransmit;
