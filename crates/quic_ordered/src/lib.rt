//! Holds the pieces of one stream, none of which overlaps another, in the order of their offsets (RFC 9000, section 2.2).
#![tactic(auto)]

mod assembly;
mod compaction;
mod gaps;
mod map;
mod piece;
mod pieces;
mod placing;
mod row;
mod slots;
mod store;
mod unreceived;

pub use assembly::Assembler;
pub use pieces::OrderedPieces;
pub use quic_assembler::{
    Chunk, EnsureError, HeapAssembler, IllegalOrderedRead, InsertError, Op, Reassemble,
    ReplayError, replay,
};
