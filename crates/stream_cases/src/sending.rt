ghost use Rattle.std.specs.Prelude.{◌≡◌, ◌+◌, ◌≤◌, ◌<◌, ◌^◌, length, Ok};
ghost use Rattle.stream_cases.specs.Arguments.{CanRun};

use crate::content::{Content, PIECE, SEGMENT, Seen};
use crate::refused::{REFUSED, Refused};
use quic_sending::SendBuffer;
use quic_values::OutOfMemory;
use std::alloc::Global;
use std::ops::Range;

// The bytes of a round.
const ROUND: usize = 1 << 20;

/// Rounds of 2^20 bytes are written, sent in frames, and acknowledged in order.
pub fn case_e(alloc: Global, size: usize, src: &[u8], _perm: &[u32]) -> u64
    ensures refused { ¬ CanRun size (length src.now) → result ≡ REFUSED }
    ensures nothing { CanRun size (length src.now) → size ≡ 0 → result ≡ 0 }
{
    match Content::for_size(size, src) {
        Some(content) => send_rounds(alloc, size, content, ROUND).unwrap_or(REFUSED),
        None => REFUSED,
    }
}

/// As case e, but all is written before the first frame is sent.
pub fn case_e2(alloc: Global, size: usize, src: &[u8], _perm: &[u32]) -> u64
    ensures refused { ¬ CanRun size (length src.now) → result ≡ REFUSED }
    ensures nothing { CanRun size (length src.now) → size ≡ 0 → result ≡ 0 }
{
    match Content::for_size(size, src) {
        Some(content) => send_rounds(alloc, size, content, size.max(1)).unwrap_or(REFUSED),
        None => REFUSED,
    }
}

/// Rounds as in case e, but every tenth frame is lost, and the others are acknowledged in the order of `perm`. What was
/// lost is sent again in the same way, until nothing is.
pub fn case_f(alloc: Global, size: usize, src: &[u8], perm: &[u32]) -> u64
    ensures refused { ¬ CanRun size (length src.now) → result ≡ REFUSED }
    ensures nothing { CanRun size (length src.now) → size ≡ 0 → result ≡ 0 }
{
    match Content::for_size(size, src) {
        Some(content) => send_with_losses(alloc, size, content, perm).unwrap_or(REFUSED),
        None => REFUSED,
    }
}

/// All is written and sent. Then every other frame is lost, from the first on, and every frame is acknowledged, the last
/// one first.
pub fn case_j(alloc: Global, size: usize, src: &[u8], _perm: &[u32]) -> u64
    ensures refused { ¬ CanRun size (length src.now) → result ≡ REFUSED }
    ensures nothing { CanRun size (length src.now) → size ≡ 0 → result ≡ 0 }
{
    match Content::for_size(size, src) {
        Some(_) if size == 0 => 0,
        Some(content) => acknowledge_late(alloc, size as u64, content).unwrap_or(REFUSED),
        None => REFUSED,
    }
}

// What was sent since the last acknowledgements.
#[derive(Drop)]
struct Frames {
    // Their ranges, in order.
    ranges: Vec<Range<u64>>,
    // The bytes of the last one.
    bytes: Vec<u8>,
}

impl Frames {
    fn new(alloc: Global) -> Self {
        Frames {
            ranges: Vec::new(alloc),
            bytes: Vec::new(alloc),
        }
    }
}

// A round is written, sent and acknowledged after the other.
fn send_rounds(alloc: Global, size: usize, content: Content, round: usize) -> Result<u64, Refused>
    requires size { size < 2 ^ 60 }
    requires round { 0 < round }
    ensures { size ≡ 0 → result ≡ Ok 0 }
{
    let mut buffer = SendBuffer::new(alloc);
    let mut frames = Frames::new(alloc);
    send_each(alloc, &mut buffer, &mut frames, content, size, round)
}

// The rounds of a buffer to which nothing was written.
fn send_each(
    alloc: Global,
    buffer: &mut SendBuffer,
    frames: &mut Frames,
    content: Content,
    size: usize,
    round: usize,
) -> Result<u64, Refused>
    requires size { size < 2 ^ 60 }
    requires round { 0 < round }
    ensures { size ≡ 0 → result ≡ Ok 0 }
{
    let mut sum = 0u64;
    for start in (0..size).step_by(round) {
        let end = size.min(start.saturating_add(round)) as u64;
        sum = sum.wrapping_add(send_round(alloc, buffer, frames, content, end)?);
    }
    Ok(sum)
}

// The round that ends at an offset.
fn send_round(
    alloc: Global,
    buffer: &mut SendBuffer,
    frames: &mut Frames,
    content: Content,
    end: u64,
) -> Result<u64, Refused>
    requires { end < 2 ^ 61 }
{
    fill(alloc, buffer, content, end)?;
    let sum = drain(buffer, frames)?;
    acknowledge_all(buffer, &frames.ranges)?;
    Ok(sum)
}

fn send_with_losses(
    alloc: Global,
    size: usize,
    content: Content,
    perm: &[u32],
) -> Result<u64, Refused>
    requires { size < 2 ^ 60 }
    ensures { size ≡ 0 → result ≡ Ok 0 }
{
    let mut buffer = SendBuffer::new(alloc);
    let mut frames = Frames::new(alloc);
    send_each_with_losses(alloc, &mut buffer, &mut frames, content, size, perm)
}

// The rounds of a buffer to which nothing was written.
fn send_each_with_losses(
    alloc: Global,
    buffer: &mut SendBuffer,
    frames: &mut Frames,
    content: Content,
    size: usize,
    perm: &[u32],
) -> Result<u64, Refused>
    requires { size < 2 ^ 60 }
    ensures { size ≡ 0 → result ≡ Ok 0 }
{
    let mut sum = 0u64;
    for start in (0..size).step_by(ROUND) {
        let end = size.min(start.saturating_add(ROUND)) as u64;
        fill(alloc, buffer, content, end)?;
        sum = sum.wrapping_add(send_until_acknowledged(buffer, frames, perm)?);
    }
    Ok(sum)
}

// Every other frame is lost, and then all are acknowledged, from the last to the first.
fn acknowledge_late(alloc: Global, size: u64, content: Content) -> Result<u64, Refused>
    requires { size < 2 ^ 60 }
{
    let mut buffer = SendBuffer::new(alloc);
    let mut frames = Frames::new(alloc);
    send_and_settle_late(alloc, &mut buffer, &mut frames, content, size)
}

// The same of a buffer to which nothing was written.
fn send_and_settle_late(
    alloc: Global,
    buffer: &mut SendBuffer,
    frames: &mut Frames,
    content: Content,
    size: u64,
) -> Result<u64, Refused>
    requires { size < 2 ^ 60 }
{
    fill(alloc, buffer, content, size)?;
    let sum = drain(buffer, frames)?;
    lose_every_other(buffer, &frames.ranges)?;
    acknowledge_backwards(buffer, &frames.ranges)?;
    Ok(sum.wrapping_add(buffer.buffered()))
}

// Sends what is to be sent, and again what is lost of it. Answers what was seen, and how much is retained at the end.
fn send_until_acknowledged(
    buffer: &mut SendBuffer,
    frames: &mut Frames,
    perm: &[u32],
) -> Result<u64, Refused> {
    let mut sum = 0u64;
    for _ in 0..u64::MAX {
        if !buffer.has_unsent_data() {
            break;
        }
        sum = sum.wrapping_add(drain(buffer, frames)?);
        settle(buffer, &frames.ranges, perm)?;
    }
    Ok(sum.wrapping_add(buffer.buffered()))
}

// Writes content up to an offset, in pieces of 65,536 bytes.
fn fill(
    alloc: Global,
    buffer: &mut SendBuffer,
    content: Content,
    end: u64,
) -> Result<(), OutOfMemory>
    requires { end < 2 ^ 61 }
{
    while buffer.offset() < end {
        let offset = buffer.offset();
        let len = (SEGMENT as u64).min(end - offset) as usize;
        buffer.write(content.piece(alloc, offset, len)?)?;
    }
    Ok(())
}

// Sends frames until nothing is left to send. Answers what was seen of them, with their bytes and the number of those
// that have a length.
fn drain(buffer: &mut SendBuffer, frames: &mut Frames) -> Result<u64, OutOfMemory> {
    frames.ranges.clear();
    let mut seen = Seen::default();
    let mut lengths = 0u64;
    for _ in 0..u64::MAX {
        if !buffer.has_unsent_data() {
            break;
        }
        let has_length = send_frame(buffer, frames, &mut seen)?;
        lengths = lengths.wrapping_add(u64::from(has_length));
    }
    Ok(seen.sum.wrapping_add(seen.bytes).wrapping_add(lengths))
}

// Sends a frame. Answers whether it has a length.
#[inline(always)]
fn send_frame(
    buffer: &mut SendBuffer,
    frames: &mut Frames,
    seen: &mut Seen,
) -> Result<bool, OutOfMemory> {
    let (range, has_length) = buffer.poll_transmit(PIECE);
    frames.bytes.clear();
    buffer.append_range(range.start..range.end, &mut frames.bytes)?;
    seen.see(range.start, &frames.bytes);
    frames.ranges.push(range)?;
    Ok(has_length)
}

// Every tenth range is lost. The others are acknowledged before that, in the order of `perm`.
fn settle(buffer: &mut SendBuffer, ranges: &[Range<u64>], perm: &[u32]) -> Result<(), Refused> {
    for place in perm {
        let place = *place as usize;
        if let Some(range) = ranges.get(place)
            && place % 10 != 9
        {
            acknowledge(buffer, range)?;
        }
    }
    for range in ranges.iter().skip(9).step_by(10) {
        lose(buffer, range)?;
    }
    Ok(())
}

#[inline]
fn acknowledge_all(buffer: &mut SendBuffer, ranges: &[Range<u64>]) -> Result<(), Refused> {
    for range in ranges {
        acknowledge(buffer, range)?;
    }
    Ok(())
}

// The last range first.
#[inline]
fn acknowledge_backwards(buffer: &mut SendBuffer, ranges: &[Range<u64>]) -> Result<(), Refused> {
    for range in ranges.iter().rev() {
        acknowledge(buffer, range)?;
    }
    Ok(())
}

// From the first range on.
#[inline]
fn lose_every_other(buffer: &mut SendBuffer, ranges: &[Range<u64>]) -> Result<(), Refused> {
    for range in ranges.iter().step_by(2) {
        lose(buffer, range)?;
    }
    Ok(())
}

#[inline]
fn acknowledge(buffer: &mut SendBuffer, range: &Range<u64>) -> Result<(), Refused> {
    if range.end > buffer.unsent() {
        return Err(Refused);
    }
    buffer.ack(range.start..range.end)?;
    Ok(())
}

#[inline]
fn lose(buffer: &mut SendBuffer, range: &Range<u64>) -> Result<(), Refused> {
    if range.end > buffer.unsent() {
        return Err(Refused);
    }
    buffer.retransmit(range.start..range.end)?;
    Ok(())
}
