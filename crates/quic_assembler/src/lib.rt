//! What a reassembler of a stream does (RFC 9000, section 2.2), and one that keeps its pieces in a heap.
#![tactic(auto)]

mod assembly;
mod chunk;
mod errors;
mod piece;
mod pieces;
mod reassemble;
mod steps;
mod unreceived;

pub use assembly::HeapAssembler;
pub use chunk::Chunk;
pub use errors::{EnsureError, IllegalOrderedRead, InsertError};
pub use reassemble::Reassemble;
pub use steps::{Op, ReplayError, replay};
