//! A set of numbers below 2^64, such as offsets that came or were acknowledged, kept as ranges that do not touch.
#![tactic(auto)]

mod range_set;

pub use range_set::{RangeSet, same_set};
