//! One end of a connection, with what stands beside the state of its streams.
#![tactic(auto)]

mod application;
mod early;
pub mod endpoint;
mod frames;
pub mod payload;
mod reports;

pub use endpoint::Endpoint;
pub use payload::Payload;
