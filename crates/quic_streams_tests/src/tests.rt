//! Readers, visitors, sets of pending frames, reports of single ranges, and values that the library for C does not hand on.

mod entries;
mod frames;
mod pending;
mod reading;
mod receiving;
mod sending;
mod steps;
mod subject;
mod visiting;

use frames::Answer;
use std::fmt::Debug;
use std::process::Abort;

const TAKEN: Answer = Answer::Taken(false);

// Both are the same, or the test fails and shows them.
fn same<T: PartialEq + Debug + Drop>(rt: &impl Abort, found: T, wanted: T) {
    assert_eq!(rt; found, wanted);
}

// The same of a case or of a step, whose number in its table is shown too.
fn same_at<T: PartialEq + Debug + Drop>(rt: &impl Abort, at: usize, found: T, wanted: T) {
    assert_eq!(rt; found, wanted, "at {at}");
}

fn is_true(rt: &impl Abort, holds: bool) {
    assert!(rt; holds);
}
