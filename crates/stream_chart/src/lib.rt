//! What a simulation of a stream reads and prints: the plan of a run, and a few samples of what is counted step by step,
//! as a table or as a picture.
#![tactic(auto)]

mod plan;
mod report;
mod samples;

pub use plan::Plan;
pub use samples::{Row, Samples};
