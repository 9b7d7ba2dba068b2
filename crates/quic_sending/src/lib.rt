//! Sending on one stream: written bytes until they are acknowledged.
#![tactic(auto)]

mod errors;
mod lowest_apart;
mod outcomes;
mod piece_queue;
mod recent_set;
mod runs;
pub mod send;
pub mod send_buffer;
pub mod source;

pub use errors::HandleError;
pub use send::{ClosedStream, FinishError, Send, SendState, WriteError, Written};
pub use send_buffer::SendBuffer;
pub use source::{ByteSlice, BytesArray, BytesSource};
