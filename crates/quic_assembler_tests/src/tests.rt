ghost use Rattle.std.specs.Prelude.{◌≡◌, IfOk};

use quic_ordered::{Assembler, Chunk, EnsureError, HeapAssembler, InsertError};
use quic_values::{Bytes, OutOfMemory};
use std::alloc::Global;
use std::fmt::Debug;
use std::process::Abort;
use std::test::Fail;

mod body;
mod cases;
mod floods;
mod orders;
mod replays;
mod sizes;

use body::Body;

// Both are the same, or the test fails and shows them.
fn same<T: PartialEq + Debug + Drop>(rt: &impl Abort, found: T, wanted: T) {
    assert_eq!(rt; found, wanted);
}

// The same of a case, which is shown too.
fn same_for<C: Debug, T: PartialEq + Debug + Drop>(rt: &impl Abort, case: &C, found: T, wanted: T) {
    assert_eq!(rt; found, wanted, "{case:?}");
}

fn is_true(rt: &impl Abort, holds: bool) {
    assert!(rt; holds);
}

// A call on an assembler, and what it has to come to.
#[derive(Clone, Copy)]
enum Step {
    // A text at an offset, which keeps just its bytes alive.
    Put(u64, &'static str),
    // A text at an offset, which keeps so much memory alive, and the answer.
    Insert(u64, &'static str, usize, Result<(), InsertError>),
    // The same at so many places, each so far behind the one before, up to the first refusal.
    Fill(u64, u64, u64, &'static str, usize, Result<(), InsertError>),
    // 128 bytes and then one, so many times from offset 1 on, all touching.
    Pairs(u64),
    // An ordered read of at most so many bytes: the offset and the text.
    Part(usize, u64, &'static str),
    // An ordered read, and one that gives nothing.
    Next(u64, &'static str),
    NoNext,
    // An unordered read, and one that gives nothing.
    Any(u64, &'static str),
    NoAny,
    // Unordered mode, and ordered mode again, which is refused.
    Unordered,
    OrderedAgain,
    Compact,
    // How many pieces are held, and how many bytes were read.
    Is(usize, u64),
}

fn piece(alloc: Global, bytes: &[u8]) -> Result<Bytes, OutOfMemory>
    ensures { IfOk result (λ piece. piece ≡ bytes.now) }
{
    Bytes::copy_from_slice(alloc, bytes)
}

fn insert<B: Body + Drop>(
    rt: &impl Abort,
    a: &mut B,
    alloc: Global,
    offset: u64,
    bytes: &[u8],
    allocation_size: usize,
) -> Result<Result<(), InsertError>, OutOfMemory> {
    assert!(rt; offset < 1 << 61 && bytes.len() < 1 << 61 && bytes.len() <= allocation_size);
    let piece = piece(alloc, bytes)?;
    Ok(a.take_piece(offset, piece, allocation_size))
}

fn fill<B: Body + Drop>(
    rt: &impl Abort,
    a: &mut B,
    alloc: Global,
    places: (u64, u64, u64),
    text: &str,
    allocation_size: usize,
) -> Result<Result<(), InsertError>, OutOfMemory> {
    let (start, gap, count) = places;
    for i in 0..count {
        let offset = start.wrapping_add(gap.wrapping_mul(i));
        let answer = insert(rt, a, alloc, offset, text.as_bytes(), allocation_size)?;
        if answer.is_err() {
            return Ok(answer);
        }
    }
    Ok(Ok(()))
}

// A piece that keeps just its bytes alive, and is taken.
fn put<B: Body + Drop>(
    rt: &impl Abort,
    a: &mut B,
    alloc: Global,
    offset: u64,
    text: &str,
) -> Result<(), OutOfMemory> {
    let answer = insert(rt, a, alloc, offset, text.as_bytes(), text.len())?;
    same_for(rt, &offset, answer, Ok(()));
    Ok(())
}

// 128 bytes.
const LONG: &str =
    "0123456789abcdef0123456789abcdef0123456789abcdef0123456789abcdef0123456789abcdef0123456789abcdef0123456789abcdef0123456789abcdef";

fn put_pairs<B: Body + Drop>(
    rt: &impl Abort,
    a: &mut B,
    alloc: Global,
    count: u64,
) -> Result<(), OutOfMemory> {
    for turn in 0..count {
        let start = turn.wrapping_mul(129).wrapping_add(1);
        put(rt, a, alloc, start, LONG)?;
        put(rt, a, alloc, start.wrapping_add(128), "x")?;
    }
    Ok(())
}

fn expect_chunk(
    rt: &impl Abort,
    given: Option<Chunk>,
    offset: u64,
    text: &str,
) -> Result<(), Fail> {
    let chunk = given.ok_or("nothing was given")?;
    same(rt, chunk.offset, offset);
    same(rt, chunk.bytes.as_slice(), text.as_bytes());
    Ok(())
}

fn take<B: Body + Drop>(rt: &impl Abort, a: &mut B, alloc: Global, step: Step) -> Result<(), Fail> {
    match step {
        Step::Put(offset, text) => put(rt, a, alloc, offset, text)?,
        Step::Insert(offset, text, allocation_size, wanted) => {
            let answer = insert(rt, a, alloc, offset, text.as_bytes(), allocation_size)?;
            same_for(rt, &offset, answer, wanted);
        }
        Step::Fill(start, gap, count, text, allocation_size, wanted) => {
            let answer = fill(rt, a, alloc, (start, gap, count), text, allocation_size)?;
            same_for(rt, &start, answer, wanted);
        }
        Step::Pairs(count) => put_pairs(rt, a, alloc, count)?,
        Step::Compact => a.compact()?,
        Step::Unordered => a.ask_for(false)?,
        _ => ask(rt, a, step)?,
    }
    Ok(())
}

fn ask<B: Body + Drop>(rt: &impl Abort, a: &mut B, step: Step) -> Result<(), Fail> {
    match step {
        Step::Part(most, offset, text) => expect_chunk(rt, a.next(most, true)?, offset, text)?,
        Step::Next(offset, text) => expect_chunk(rt, a.next(usize::MAX, true)?, offset, text)?,
        Step::NoNext => is_true(rt, a.next(usize::MAX, true)?.is_none()),
        Step::Any(offset, text) => expect_chunk(rt, a.next(usize::MAX, false)?, offset, text)?,
        Step::NoAny => is_true(rt, a.next(usize::MAX, false)?.is_none()),
        Step::OrderedAgain => {
            same(rt, a.ask_for(true), Err(EnsureError::IllegalOrderedRead));
        }
        Step::Is(pieces, read) => same(rt, (a.held(), a.bytes_given()), (pieces, read)),
        _ => {}
    }
    Ok(())
}

// Takes steps on a body that holds nothing.
fn run_on<B: Body + Drop>(rt: &impl Abort, alloc: Global, steps: &[Step]) -> Result<(), Fail> {
    let mut a = B::made(alloc);
    for step in steps {
        take(rt, &mut a, alloc, *step)?;
    }
    Ok(())
}

// Takes lists of steps whose answers are those of both bodies.
fn run(rt: &impl Abort, alloc: Global, lists: &[&[Step]]) -> Result<(), Fail> {
    for steps in lists {
        run_on::<HeapAssembler>(rt, alloc, *steps)?;
        run_on::<Assembler>(rt, alloc, *steps)?;
    }
    Ok(())
}

// Takes lists of steps whose answers are those of the heap, where pieces may overlap.
fn run_heap(rt: &impl Abort, alloc: Global, lists: &[&[Step]]) -> Result<(), Fail> {
    for steps in lists {
        run_on::<HeapAssembler>(rt, alloc, *steps)?;
    }
    Ok(())
}
