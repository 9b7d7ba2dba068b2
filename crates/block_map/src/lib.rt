//! A sorted map from numbers to numbers, in blocks of neighbours.
#![tactic(auto)]

mod block;
mod edits;
mod map;
mod rows;
mod search;

pub use map::{BlockMap, Place};
