//! What may be done with two ends and the network between them, and what each step is answered.
#![tactic(auto)]

mod steps;
#[cfg(test)]
mod tests;

pub use steps::{Config, End, Last, PairError, PayloadPart, Reply, Step};
