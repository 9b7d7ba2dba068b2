ghost use Rattle.std.specs.Prelude.{◌≡◌, ◌+◌, ◌≤◌, ◌<◌, ◌^◌, length, Ok, IfOk, true, false};
ghost use Rattle.stream_cases.specs.Arguments.{CanRun};

use crate::content::{Content, PIECE, Seen};
use crate::refused::{REFUSED, Refused};
use quic_ordered::{Assembler, InsertError};
use quic_values::OutOfMemory;
use std::alloc::Global;

// The pieces of a window: of 1200 bytes each, a little less than 2^20 bytes.
const WINDOW_PIECES: u32 = 873;

const WINDOW: usize = 873 * 1200;

// How long the pieces of windows are, and how many bytes a read asks for.
#[derive(Clone, Copy)]
struct Windows {
    piece: usize,
    read: usize,
}

/// Pieces come in order, and each is read at once.
pub fn case_a(alloc: Global, size: usize, src: &[u8], _perm: &[u32]) -> u64
    ensures refused { ¬ CanRun size (length src.now) → result ≡ REFUSED }
    ensures nothing { CanRun size (length src.now) → size ≡ 0 → result ≡ 0 }
{
    match Content::for_size(size, src) {
        Some(content) => in_order(alloc, size, content).unwrap_or(REFUSED),
        None => REFUSED,
    }
}

/// Windows of 873 pieces come in the order of `perm`. Each is then read.
pub fn case_b(alloc: Global, size: usize, src: &[u8], perm: &[u32]) -> u64
    ensures refused { ¬ CanRun size (length src.now) → result ≡ REFUSED }
    ensures nothing { CanRun size (length src.now) → size ≡ 0 → result ≡ 0 }
{
    match Content::for_size(size, src) {
        Some(content) => {
            let windows = Windows {
                piece: PIECE,
                read: usize::MAX,
            };
            in_windows(alloc, size, content, perm, windows).unwrap_or(REFUSED)
        }
        None => REFUSED,
    }
}

/// As case b, with reads of at most 333 bytes.
pub fn case_k(alloc: Global, size: usize, src: &[u8], perm: &[u32]) -> u64
    ensures refused { ¬ CanRun size (length src.now) → result ≡ REFUSED }
    ensures nothing { CanRun size (length src.now) → size ≡ 0 → result ≡ 0 }
{
    match Content::for_size(size, src) {
        Some(content) => {
            let windows = Windows {
                piece: PIECE,
                read: 333,
            };
            in_windows(alloc, size, content, perm, windows).unwrap_or(REFUSED)
        }
        None => REFUSED,
    }
}

/// As case b, with pieces of 100 bytes, each of which keeps 1200 alive.
pub fn case_l(alloc: Global, size: usize, src: &[u8], perm: &[u32]) -> u64
    ensures refused { ¬ CanRun size (length src.now) → result ≡ REFUSED }
    ensures nothing { CanRun size (length src.now) → size ≡ 0 → result ≡ 0 }
{
    match Content::for_size(size, src) {
        Some(content) => {
            let windows = Windows {
                piece: 100,
                read: usize::MAX,
            };
            in_windows(alloc, size, content, perm, windows).unwrap_or(REFUSED)
        }
        None => REFUSED,
    }
}

/// Single bytes come with gaps between them, until one is refused; `size` inserts in all.
pub fn case_c(alloc: Global, size: usize, src: &[u8], _perm: &[u32]) -> u64
    ensures refused { ¬ CanRun size (length src.now) → result ≡ REFUSED }
    ensures nothing { CanRun size (length src.now) → size ≡ 0 → result ≡ 0 }
{
    match Content::for_size(size, src) {
        Some(content) => with_gaps(alloc, size, content, 1).unwrap_or(REFUSED),
        None => REFUSED,
    }
}

/// As case c, but each byte keeps 1200 alive.
pub fn case_c2(alloc: Global, size: usize, src: &[u8], _perm: &[u32]) -> u64
    ensures refused { ¬ CanRun size (length src.now) → result ≡ REFUSED }
    ensures nothing { CanRun size (length src.now) → size ≡ 0 → result ≡ 0 }
{
    match Content::for_size(size, src) {
        Some(content) => with_gaps(alloc, size, content, PIECE).unwrap_or(REFUSED),
        None => REFUSED,
    }
}

/// As case c, but each byte keeps 2 alive.
pub fn case_m(alloc: Global, size: usize, src: &[u8], _perm: &[u32]) -> u64
    ensures refused { ¬ CanRun size (length src.now) → result ≡ REFUSED }
    ensures nothing { CanRun size (length src.now) → size ≡ 0 → result ≡ 0 }
{
    match Content::for_size(size, src) {
        Some(content) => with_gaps(alloc, size, content, 2).unwrap_or(REFUSED),
        None => REFUSED,
    }
}

/// Windows as in case b, in unordered mode: each piece comes twice, and one that overlaps two after every fourth.
/// After every eighth all that is held is read.
pub fn case_d(alloc: Global, size: usize, src: &[u8], perm: &[u32]) -> u64
    ensures refused { ¬ CanRun size (length src.now) → result ≡ REFUSED }
    ensures nothing { CanRun size (length src.now) → size ≡ 0 → result ≡ 0 }
{
    match Content::for_size(size, src) {
        Some(content) => unordered(alloc, size, content, perm).unwrap_or(REFUSED),
        None => REFUSED,
    }
}

fn in_order(alloc: Global, size: usize, content: Content) -> Result<u64, Refused>
    requires { size < 2 ^ 60 }
    ensures { size ≡ 0 → result ≡ Ok 0 }
{
    let mut assembler = Assembler::new(alloc);
    pass_in_order(alloc, &mut assembler, content, size)
}

// The pieces go through an assembler that holds nothing.
fn pass_in_order(
    alloc: Global,
    assembler: &mut Assembler,
    content: Content,
    size: usize,
) -> Result<u64, Refused>
    requires size { size < 2 ^ 60 }
    requires mode { assembler.old.ordered ≡ true }
    ensures { size ≡ 0 → result ≡ Ok 0 }
{
    let mut seen = Seen::default();
    for offset in (0..size).step_by(PIECE) {
        let len = PIECE.min(size - offset);
        insert(alloc, assembler, content, offset as u64, len)?;
        read_all(assembler, true, usize::MAX, &mut seen)?;
    }
    Ok(seen.sum)
}

fn in_windows(
    alloc: Global,
    size: usize,
    content: Content,
    perm: &[u32],
    windows: Windows,
) -> Result<u64, Refused>
    requires size { size < 2 ^ 60 }
    requires some { 0 < windows.piece }
    requires piece { windows.piece ≤ 1200 }
    ensures { size ≡ 0 → result ≡ Ok 0 }
{
    let mut assembler = Assembler::new(alloc);
    pass_windows(alloc, &mut assembler, content, size, perm, windows)
}

// The windows go through an assembler that holds nothing.
fn pass_windows(
    alloc: Global,
    assembler: &mut Assembler,
    content: Content,
    size: usize,
    perm: &[u32],
    windows: Windows,
) -> Result<u64, Refused>
    requires size { size < 2 ^ 60 }
    requires some { 0 < windows.piece }
    requires piece { windows.piece ≤ 1200 }
    requires mode { assembler.old.ordered ≡ true }
    ensures { size ≡ 0 → result ≡ Ok 0 }
{
    let mut seen = Seen::default();
    for base in (0..size).step_by(WINDOW_PIECES as usize * windows.piece) {
        insert_window(alloc, assembler, content, base as u64, perm, windows.piece)?;
        read_all(assembler, true, windows.read, &mut seen)?;
    }
    Ok(seen.sum)
}

// Inserts the pieces of a window, of so many bytes each.
#[inline]
fn insert_window(
    alloc: Global,
    assembler: &mut Assembler,
    content: Content,
    base: u64,
    perm: &[u32],
    piece: usize,
) -> Result<(), Refused>
    requires base { base < 2 ^ 60 }
    requires piece { piece ≤ 1200 }
    ensures { assembler.new.ordered ≡ assembler.old.ordered }
{
    for place in perm {
        if *place < WINDOW_PIECES {
            let offset = base + u64::from(*place) * piece as u64;
            insert(alloc, assembler, content, offset, piece)?;
        }
    }
    Ok(())
}

fn unordered(alloc: Global, size: usize, content: Content, perm: &[u32]) -> Result<u64, Refused>
    requires { size < 2 ^ 60 }
    ensures { size ≡ 0 → result ≡ Ok 0 }
{
    if size == 0 {
        return Ok(0);
    }
    let mut assembler = Assembler::new(alloc);
    pass_unordered(alloc, &mut assembler, content, size, perm)
}

// The windows of case d go through an assembler that holds nothing.
fn pass_unordered(
    alloc: Global,
    assembler: &mut Assembler,
    content: Content,
    size: usize,
    perm: &[u32],
) -> Result<u64, Refused>
    requires { size < 2 ^ 60 }
{
    assembler.ensure_ordering(false)?;
    let mut seen = Seen::default();
    for base in (0..size).step_by(WINDOW) {
        overlap(alloc, assembler, content, base as u64, perm, &mut seen)?;
    }
    read_all(assembler, false, usize::MAX, &mut seen)?;
    Ok(seen.sum.wrapping_add(seen.bytes))
}

// One window of case d.
fn overlap(
    alloc: Global,
    assembler: &mut Assembler,
    content: Content,
    base: u64,
    perm: &[u32],
    seen: &mut Seen,
) -> Result<(), Refused>
    requires base { base < 2 ^ 60 }
    requires mode { assembler.old.ordered ≡ false }
    ensures { assembler.new.ordered ≡ false }
{
    let mut before = base;
    let mut step = 0u32;
    for place in perm {
        if *place >= WINDOW_PIECES {
            continue;
        }
        let offset = base + u64::from(*place) * PIECE as u64;
        insert_overlapping(alloc, assembler, content, offset, before, step)?;
        if step % 8 == 7 {
            read_all(assembler, false, usize::MAX, seen)?;
        }
        before = offset;
        step = step.wrapping_add(1);
    }
    Ok(())
}

// Inserts the pieces of a step of a window: one twice, and at every fourth step one that overlaps that of the step before.
#[inline(always)]
fn insert_overlapping(
    alloc: Global,
    assembler: &mut Assembler,
    content: Content,
    offset: u64,
    before: u64,
    step: u32,
) -> Result<(), Refused>
    requires offset { offset < 2 ^ 60 + 1047600 }
    requires before { before < 2 ^ 60 + 1047600 }
    ensures { assembler.new.ordered ≡ assembler.old.ordered }
{
    insert(alloc, assembler, content, offset, PIECE)?;
    insert(alloc, assembler, content, offset, PIECE)?;
    if step % 4 == 3 {
        insert(alloc, assembler, content, before + PIECE as u64 / 2, PIECE)?;
    }
    Ok(())
}

// Inserts a piece of content at its offset. It keeps 1200 bytes alive.
#[inline(always)]
fn insert(
    alloc: Global,
    assembler: &mut Assembler,
    content: Content,
    offset: u64,
    len: usize,
) -> Result<(), Refused>
    requires offset { offset < 2 ^ 61 }
    requires len { len ≤ 1200 }
    ensures { assembler.new.ordered ≡ assembler.old.ordered }
{
    let piece = content.piece(alloc, offset, len)?;
    assembler.insert(offset, piece, PIECE)?;
    Ok(())
}

// Reads at most so many bytes at a time until nothing is given.
#[inline]
fn read_all(
    assembler: &mut Assembler,
    ordered: bool,
    most: usize,
    seen: &mut Seen,
) -> Result<(), OutOfMemory>
    requires { ordered ≡ assembler.old.ordered }
    ensures { assembler.new.ordered ≡ assembler.old.ordered }
{
    'reads: for _ in 0..u64::MAX {
        if !read_next(assembler, ordered, most, seen)? {
            break 'reads;
        }
    }
    Ok(())
}

// Reads at most so many bytes. Answers whether any were given.
#[inline(always)]
fn read_next(
    assembler: &mut Assembler,
    ordered: bool,
    most: usize,
    seen: &mut Seen,
) -> Result<bool, OutOfMemory>
    requires { ordered ≡ assembler.old.ordered }
    ensures { assembler.new.ordered ≡ assembler.old.ordered }
{
    let Some(chunk) = assembler.read(most, ordered)? else {
        return Ok(false);
    };
    seen.see(chunk.offset, chunk.bytes.as_slice());
    Ok(true)
}

// A run of inserts.
#[derive(Clone, Copy)]
struct Inserts {
    count: usize,
    // Whether the last one was refused.
    is_refused: bool,
}

fn with_gaps(
    alloc: Global,
    size: usize,
    content: Content,
    allocation_size: usize,
) -> Result<u64, Refused>
    requires size { size < 2 ^ 60 }
    requires allocated { 1 ≤ allocation_size }
    ensures { size ≡ 0 → result ≡ Ok 0 }
{
    let mut sum = 0u64;
    let mut left = size;
    while left > 0 {
        let inserts = insert_until_refused(alloc, left, content, allocation_size)?;
        if inserts.is_refused {
            sum = sum.wrapping_add(1 << 32);
        }
        sum = sum.wrapping_add(2 * inserts.count as u64 + 1);
        left -= inserts.count;
    }
    Ok(sum)
}

// Inserts single bytes into a new assembler until one is refused. Nothing can then be read.
fn insert_until_refused(
    alloc: Global,
    most: usize,
    content: Content,
    allocation_size: usize,
) -> Result<Inserts, Refused>
    requires some { 0 < most }
    requires size { most < 2 ^ 60 }
    requires allocated { 1 ≤ allocation_size }
    ensures { IfOk result (λ inserts. (0 < inserts.count) × (inserts.count ≤ most)) }
{
    let mut assembler = Assembler::new(alloc);
    insert_with_gaps(alloc, &mut assembler, most, content, allocation_size)
}

// The same with an assembler that holds nothing.
fn insert_with_gaps(
    alloc: Global,
    assembler: &mut Assembler,
    most: usize,
    content: Content,
    allocation_size: usize,
) -> Result<Inserts, Refused>
    requires some { 0 < most }
    requires size { most < 2 ^ 60 }
    requires allocated { 1 ≤ allocation_size }
    requires mode { assembler.old.ordered ≡ true }
    ensures { IfOk result (λ inserts. (0 < inserts.count) × (inserts.count ≤ most)) }
{
    let inserts = insert_bytes(alloc, assembler, most, content, allocation_size)?;
    if gives_some(assembler)? {
        return Err(Refused);
    }
    Ok(inserts)
}

// Inserts single bytes at 1, 3, 5 and so on, until one is refused.
#[inline]
fn insert_bytes(
    alloc: Global,
    assembler: &mut Assembler,
    most: usize,
    content: Content,
    allocation_size: usize,
) -> Result<Inserts, Refused>
    requires some { 0 < most }
    requires size { most < 2 ^ 60 }
    requires allocated { 1 ≤ allocation_size }
    ensures count { IfOk result (λ inserts. (0 < inserts.count) × (inserts.count ≤ most)) }
    ensures mode { assembler.new.ordered ≡ assembler.old.ordered }
{
    for index in 0..most {
        let offset = 2 * index as u64 + 1;
        if insert_byte(alloc, assembler, content, offset, allocation_size)? {
            return Ok(Inserts {
                count: index + 1,
                is_refused: true,
            });
        }
    }
    Ok(Inserts {
        count: most,
        is_refused: false,
    })
}

// Inserts a byte of content at its offset. Answers whether there were too many.
#[inline(always)]
fn insert_byte(
    alloc: Global,
    assembler: &mut Assembler,
    content: Content,
    offset: u64,
    allocation_size: usize,
) -> Result<bool, Refused>
    requires offset { offset < 2 ^ 61 }
    requires allocated { 1 ≤ allocation_size }
    ensures { assembler.new.ordered ≡ assembler.old.ordered }
{
    let byte = content.piece(alloc, offset, 1)?;
    answers_too_many(assembler.insert(offset, byte, allocation_size))
}

// Whether an ordered read gives something.
#[inline(always)]
fn gives_some(assembler: &mut Assembler) -> Result<bool, OutOfMemory>
    requires { true ≡ assembler.old.ordered }
{
    Ok(assembler.read(usize::MAX, true)?.is_some())
}

#[inline]
fn answers_too_many(answer: Result<(), InsertError>) -> Result<bool, Refused> {
    match answer {
        Ok(()) => Ok(false),
        Err(InsertError::TooManyChunks) => Ok(true),
        Err(InsertError::CompactionMemory | InsertError::OutOfMemory) => Err(Refused),
    }
}
