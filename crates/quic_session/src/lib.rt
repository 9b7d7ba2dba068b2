//! One end of a connection for a host that is not written in Rattle: its streams, its datagrams, and the payloads that
//! it sent and has not heard of.
#![tactic(auto)]

pub mod application;
pub mod buffer;
pub mod chunks;
pub mod closing;
pub mod counts;
pub mod datagrams;
pub mod emitting;
pub mod lending;
pub mod lent_bytes;
mod memory;
pub mod params;
pub mod processing;
pub mod questions;
pub mod receiving;
pub mod rooms;
mod runs;
pub mod session;
pub mod settling;
mod tracked;
pub mod unsettled;
pub mod users;

pub use session::Session;
