//! Two ends of QUIC's stream layer, and a network that loses, repeats and reorders between them.
#![tactic(auto)]

mod calls;
mod emitting;
mod ends;
pub mod pair;
mod settle;
mod whole;

pub use pair::Pair;
pub use quic_session::receiving::{PayloadError, Received};
pub use quic_steps::{Config, End, Last, PairError, PayloadPart, Reply, Step};
pub use quic_streams::PeerLimits;
pub use settle::StepTaken;
