//! What each end of a connection may send: how many bytes, and on how many streams.
#![tactic(auto)]

pub mod credit;
pub mod own;
pub mod remote;
pub mod send_credit;

pub use credit::ReceiveCredit;
pub use own::OwnStreams;
pub use remote::RemoteStreams;
pub use send_credit::SendCredit;
