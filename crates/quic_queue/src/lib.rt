//! The streams that have something to send, by priority.
#![tactic(auto)]

pub mod queue;

pub use queue::{Entry, Next, SendQueue};
