//! The frames that are written of a connection's streams (RFC 9000 section 19).
#![tactic(auto)]

mod stream_frames;

pub use stream_frames::{StreamMetaVec, write_stream_frames};
