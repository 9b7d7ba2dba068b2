// Very many pieces, and pieces that keep much memory alive.
use super::{Fail, InsertError, LONG, Step, run, run_heap};

const FRAME: &str = "0123456789abcdef0123456789abcdef";

const NO_LOSS: [Step; 1] = [Step::Fill(0, 32, 4096, FRAME, 32, Ok(()))];

const WITH_GAPS: [Step; 2] = [
    Step::Fill(1, 4, 8192, "gap", 3, Err(InsertError::TooManyChunks)),
    Step::Is(2049, 0),
];

#[test]
fn takes_long_streams(rt: HostRuntime) -> Result<(), Fail> {
    run(&rt, rt.alloc(), &[&NO_LOSS, &WITH_GAPS])
}

const GAPS: [Step; 6] = [
    Step::Fill(1, 4, 2048, "gap", 3, Ok(())),
    Step::Is(2048, 0),
    Step::Insert(8193, "gap", 3, Err(InsertError::TooManyChunks)),
    Step::Is(2049, 0),
    Step::Insert(0, "", 0, Err(InsertError::TooManyChunks)),
    Step::Is(2049, 0),
];

// What is read goes on where too many pieces are held.
const SCATTERED: [Step; 6] = [
    Step::Fill(1, 4, 2048, "gap", 3, Ok(())),
    Step::Insert(8193, "gap", 3, Err(InsertError::TooManyChunks)),
    Step::Is(2049, 0),
    Step::Insert(0, "x", 1, Err(InsertError::TooManyChunks)),
    Step::Next(0, "xgap"),
    Step::NoNext,
];

// 128 bytes and then one, 1015 times, all touching; then single bytes with gaps.
const NOT_JOINED: [Step; 6] = [
    Step::Fill(1, 129, 1015, LONG, 128, Ok(())),
    Step::Fill(129, 129, 1015, "x", 1, Ok(())),
    Step::Fill(130_940, 2, 18, "x", 1, Ok(())),
    Step::Is(2048, 0),
    Step::Insert(130_976, "x", 1, Err(InsertError::TooManyChunks)),
    Step::Is(2049, 0),
];

// The same with the pieces that touch in their order.
const NOT_JOINED_IN_ORDER: [Step; 5] = [
    Step::Pairs(1015),
    Step::Fill(130_940, 2, 18, "x", 1, Ok(())),
    Step::Is(2048, 0),
    Step::Insert(130_976, "x", 1, Err(InsertError::TooManyChunks)),
    Step::Is(2049, 0),
];

#[test]
fn refuses_too_many_pieces(rt: HostRuntime) -> Result<(), Fail> {
    run(&rt, rt.alloc(), &[&GAPS, &SCATTERED])?;
    run_heap(&rt, rt.alloc(), &[&NOT_JOINED, &NOT_JOINED_IN_ORDER])
}

// Repeats are held until they are compacted, with each 1025th.
const REPEATS: [Step; 5] = [
    Step::Fill(1, 4, 1024, "abc", 3, Ok(())),
    Step::Fill(1, 0, 1024, "abc", 3, Ok(())),
    Step::Is(2048, 0),
    Step::Put(1, "abc"),
    Step::Is(1024, 0),
];

const MANY_REPEATS: [Step; 3] = [
    Step::Fill(1, 4, 1024, "abc", 3, Ok(())),
    Step::Fill(1, 0, 3072, "abc", 3, Ok(())),
    Step::Is(2046, 0),
];

#[test]
fn repeats_are_taken_and_bounded(rt: HostRuntime) -> Result<(), Fail> {
    run_heap(&rt, rt.alloc(), &[&REPEATS, &MANY_REPEATS])
}

// From piece to piece one offset down.
const DOWN: u64 = u64::MAX;

// Pieces of which the last byte came before, each one lower than the one before it.
const OVERLAPS: [Step; 3] = [
    Step::Unordered,
    Step::Put(1_000_000, "ab"),
    Step::Fill(999_999, DOWN, 4096, "ab", 2, Ok(())),
];

#[test]
fn overlaps_are_taken_and_bounded(rt: HostRuntime) -> Result<(), Fail> {
    run(&rt, rt.alloc(), &[&OVERLAPS])
}

const MEMORY: [Step; 4] = [
    Step::Fill(0, 1, 32, "x", 1000, Ok(())),
    Step::Is(32, 0),
    Step::Insert(32, "x", 1000, Ok(())),
    Step::Is(1, 0),
];

const LEAST_SIZE: [Step; 5] = [
    Step::Fill(0, 128, 1024, LONG, 128, Ok(())),
    Step::Put(131_072, "x"),
    Step::Is(1025, 0),
    Step::Compact,
    Step::Is(1, 0),
];

const WASTE: [Step; 8] = [
    Step::Insert(0, "abc", 4, Ok(())),
    Step::Insert(3, "def", 4, Ok(())),
    Step::Insert(9, "jkl", 4, Ok(())),
    Step::Insert(12, "mno", 4, Ok(())),
    Step::Compact,
    Step::Unordered,
    Step::Any(0, "abcdef"),
    Step::Any(9, "jklmno"),
];

#[test]
fn compacts_what_keeps_too_much_memory(rt: HostRuntime) -> Result<(), Fail> {
    run(&rt, rt.alloc(), &[&MEMORY, &LEAST_SIZE, &WASTE])
}
