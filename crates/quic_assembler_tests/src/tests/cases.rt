use super::{Fail, Step, run, run_heap};

const IN_ORDER: [Step; 11] = [
    Step::NoNext,
    Step::Put(0, "123"),
    Step::Part(1, 0, "1"),
    Step::Part(3, 1, "23"),
    Step::Put(3, "456"),
    Step::Next(3, "456"),
    Step::Put(6, "789"),
    Step::Put(9, "10"),
    Step::Next(6, "789"),
    Step::Next(9, "10"),
    Step::Is(0, 11),
];

const AGAIN: [Step; 5] = [
    Step::Put(0, "1234"),
    Step::Next(0, "1234"),
    Step::Put(0, "1234"),
    Step::NoNext,
    Step::Is(0, 4),
];

const BELOW: [Step; 7] = [
    Step::Put(0, "abc"),
    Step::Is(1, 0),
    Step::Next(0, "abc"),
    Step::Put(0, "ab"),
    Step::Is(0, 3),
    Step::Put(2, "cd"),
    Step::Next(3, "d"),
];

#[test]
fn assembles_in_order(rt: HostRuntime) -> Result<(), Fail> {
    run(&rt, rt.alloc(), &[&IN_ORDER, &AGAIN, &BELOW])
}

const REPEAT: [Step; 4] = [
    Step::Put(0, "123"),
    Step::Put(0, "123"),
    Step::Next(0, "123"),
    Step::NoNext,
];

const WITHIN: [Step; 4] = [
    Step::Put(0, "12345"),
    Step::Put(1, "234"),
    Step::Next(0, "12345"),
    Step::NoNext,
];

const AROUND: [Step; 4] = [
    Step::Put(1, "234"),
    Step::Put(0, "12345"),
    Step::Next(0, "12345"),
    Step::NoNext,
];

const MANY: [Step; 6] = [
    Step::Put(0, "1"),
    Step::Put(2, "3"),
    Step::Put(4, "5"),
    Step::Put(0, "123456"),
    Step::Next(0, "123456"),
    Step::NoNext,
];

// Of two alike the first is given.
const ALIKE: [Step; 5] = [
    Step::Put(0, "abc"),
    Step::Put(0, "xyz"),
    Step::Put(0, "uvw"),
    Step::Next(0, "abc"),
    Step::NoNext,
];

#[test]
fn assembles_what_overlaps(rt: HostRuntime) -> Result<(), Fail> {
    run(&rt, rt.alloc(), &[&REPEAT, &WITHIN, &AROUND, &MANY, &ALIKE])
}

const REPEAT_COMPACT: [Step; 5] = [
    Step::Put(0, "123"),
    Step::Put(0, "123"),
    Step::Compact,
    Step::Next(0, "123"),
    Step::NoNext,
];

const WITHIN_COMPACT: [Step; 5] = [
    Step::Put(0, "12345"),
    Step::Put(1, "234"),
    Step::Compact,
    Step::Next(0, "12345"),
    Step::NoNext,
];

const AROUND_COMPACT: [Step; 5] = [
    Step::Put(1, "234"),
    Step::Put(0, "12345"),
    Step::Compact,
    Step::Next(0, "12345"),
    Step::NoNext,
];

const MANY_COMPACT: [Step; 8] = [
    Step::Put(0, "1"),
    Step::Put(2, "3"),
    Step::Put(4, "5"),
    Step::Put(0, "123456"),
    Step::Compact,
    Step::Is(1, 0),
    Step::Next(0, "123456"),
    Step::NoNext,
];

const JOINED: [Step; 5] = [
    Step::Insert(0, "123", 4, Ok(())),
    Step::Insert(1, "234", 4, Ok(())),
    Step::Compact,
    Step::Next(0, "1234"),
    Step::NoNext,
];

#[test]
fn compacts_what_overlaps(rt: HostRuntime) -> Result<(), Fail> {
    run(
        &rt,
        rt.alloc(),
        &[
            &REPEAT_COMPACT,
            &WITHIN_COMPACT,
            &AROUND_COMPACT,
            &MANY_COMPACT,
            &JOINED,
        ],
    )
}

const NO_BEGINNING: [Step; 4] = [
    Step::Put(3, "def"),
    Step::Compact,
    Step::Unordered,
    Step::Any(3, "def"),
];

const AFTER_COMPACTION: [Step; 13] = [
    Step::Insert(3, "def", 4, Ok(())),
    Step::Insert(0, "abc", 4, Ok(())),
    Step::Insert(7, "hij", 4, Ok(())),
    Step::Insert(11, "lmn", 4, Ok(())),
    Step::Compact,
    Step::Next(0, "abcdef"),
    Step::Put(5, "fghijklmn"),
    Step::Next(6, "ghijklmn"),
    Step::Put(13, "nopq"),
    Step::Next(14, "opq"),
    Step::Put(15, "pqrs"),
    Step::Next(17, "rs"),
    Step::NoNext,
];

#[test]
fn reads_on_after_compaction(rt: HostRuntime) -> Result<(), Fail> {
    run(&rt, rt.alloc(), &[&NO_BEGINNING, &AFTER_COMPACTION])
}

const AS_IT_COMES: [Step; 7] = [
    Step::Unordered,
    Step::Put(0, "abc"),
    Step::Any(0, "abc"),
    Step::NoAny,
    Step::Put(3, "def"),
    Step::Any(3, "def"),
    Step::NoAny,
];

const NO_REPEAT: [Step; 10] = [
    Step::Unordered,
    Step::Put(0, "abcdefghi"),
    Step::Any(0, "abcdefghi"),
    Step::Put(8, "ijkl"),
    Step::Any(9, "jkl"),
    Step::NoAny,
    Step::Put(12, "mno"),
    Step::Any(12, "mno"),
    Step::Put(2, "cde"),
    Step::NoAny,
];

const ONCE: [Step; 5] = [
    Step::Put(0, "abc"),
    Step::Put(0, "abc"),
    Step::Unordered,
    Step::Any(0, "abc"),
    Step::NoAny,
];

#[test]
fn gives_unordered_as_it_comes(rt: HostRuntime) -> Result<(), Fail> {
    run(&rt, rt.alloc(), &[&AS_IT_COMES, &NO_REPEAT, &ONCE])
}

const NEW_ALONE: [Step; 19] = [
    Step::Unordered,
    Step::Put(3, "def"),
    Step::Any(3, "def"),
    Step::NoAny,
    Step::Put(0, "a"),
    Step::Put(0, "abcdefghi"),
    Step::Put(0, "abcd"),
    Step::Any(0, "a"),
    Step::Any(1, "bc"),
    Step::Any(6, "ghi"),
    Step::NoAny,
    Step::Put(8, "ijkl"),
    Step::Any(9, "jkl"),
    Step::NoAny,
    Step::Put(12, "mno"),
    Step::Any(12, "mno"),
    Step::NoAny,
    Step::Put(2, "cde"),
    Step::NoAny,
];

const READ_WITH_THE_MODE: [Step; 7] = [
    Step::Put(0, "abcdef"),
    Step::Part(2, 0, "ab"),
    Step::Unordered,
    Step::Put(0, "abcdef"),
    Step::Any(2, "cdef"),
    Step::NoAny,
    Step::OrderedAgain,
];

// Where pieces may overlap, each is read for itself.
const OVERLAP: [Step; 5] = [
    Step::Put(0, "123"),
    Step::Put(1, "234"),
    Step::Next(0, "123"),
    Step::Next(3, "4"),
    Step::NoNext,
];

const OVERLAP_UNORDERED: [Step; 6] = [
    Step::Put(0, "123"),
    Step::Put(1, "234"),
    Step::Next(0, "123"),
    Step::Unordered,
    Step::Any(3, "4"),
    Step::NoAny,
];

const IN_ITS_ORDER: [Step; 16] = [
    Step::Put(3, "def"),
    Step::NoNext,
    Step::Put(0, "a"),
    Step::Insert(1, "bcdefghi", 9, Ok(())),
    Step::Put(0, "abcd"),
    Step::Next(0, "abcd"),
    Step::Next(4, "efghi"),
    Step::NoNext,
    Step::Put(8, "ijkl"),
    Step::Next(9, "jkl"),
    Step::NoNext,
    Step::Put(12, "mno"),
    Step::Next(12, "mno"),
    Step::NoNext,
    Step::Put(2, "cde"),
    Step::NoNext,
];

#[test]
fn gives_each_byte_once(rt: HostRuntime) -> Result<(), Fail> {
    run(&rt, rt.alloc(), &[&NEW_ALONE, &READ_WITH_THE_MODE])?;
    run_heap(
        &rt,
        rt.alloc(),
        &[&OVERLAP, &OVERLAP_UNORDERED, &IN_ITS_ORDER],
    )
}

const NO_LENGTH: [Step; 3] = [
    Step::Put(0, "123"),
    Step::Part(0, 0, ""),
    Step::Next(0, "123"),
];

const EMPTY_PIECE: [Step; 3] = [Step::Insert(7, "", 0, Ok(())), Step::Is(0, 0), Step::NoNext];

#[test]
fn nothing_is_taken_where_nothing_is_asked(rt: HostRuntime) -> Result<(), Fail> {
    run(&rt, rt.alloc(), &[&NO_LENGTH, &EMPTY_PIECE])
}
