//! What calls do to the streams of one end of a connection, as values, and what their history says of it.
#![tactic(auto)]

pub mod control;
pub mod progress;
