//! What is to be sent, again or for the first time, beside the data of streams.
#![tactic(auto)]

pub mod id_table;
mod queueing;
pub mod retransmits;
mod settling;
pub mod stream_ids;

pub use id_table::IdTable;
pub use retransmits::{IssuedCid, Retransmits, ThinRetransmits};
pub use stream_ids::StreamIds;
