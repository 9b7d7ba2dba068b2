//! The sending side of a connection's streams (RFC 9000 sections 2 to 4).
#![tactic(auto)]

mod acknowledging;
mod closing;
mod early;
mod entries;
mod limits;
mod outgoing;
mod params;
mod peer;
mod permits;
mod polling;
mod rooms;
mod spare;
mod transmitting;
mod waiting;
mod writing;

pub use entries::FirstLimits;
pub use limits::PeerLimits;
pub use outgoing::OutgoingStreams;
pub use transmitting::WrittenFrame;
pub use writing::Wrote;
