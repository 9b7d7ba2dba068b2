//! The values below all frames: numbers, stream ids, bytes with a start, and chunks.
#![tactic(auto)]

mod bytes;
mod chunk_list;
mod ids;
mod memory;
mod var_int;

pub use bytes::Bytes;
pub use chunk_list::ChunkList;
pub use ids::{Dir, MAX_STREAM_COUNT, Side, StreamId};
pub use memory::{Oom, OutOfMemory};
pub use var_int::VarInt;
