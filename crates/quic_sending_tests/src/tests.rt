//! Steps on a send buffer, and what each has to answer.
use quic_sending::SendBuffer;
use quic_values::{Bytes, OutOfMemory};
use std::alloc::Global;
use std::fmt::Debug;
use std::ops::Range;
use std::process::Abort;

mod buffer;
mod half;
mod order;
mod sizes;
mod sources;

// Both are the same, or the test fails and shows them.
fn same<T: PartialEq + Debug + Drop>(rt: &impl Abort, found: T, wanted: T) {
    assert_eq!(rt; found, wanted);
}

// The same of a case, which is shown too.
fn same_for<C: Debug, T: PartialEq + Debug + Drop>(rt: &impl Abort, case: &C, found: T, wanted: T) {
    assert_eq!(rt; found, wanted, "{case:?}");
}

// A call on a send buffer, and what it has to answer.
#[derive(Clone, Copy, Debug)]
enum Step {
    Write(&'static [u8]),
    // The room in the frame, the range, and whether the frame has a length.
    Poll(usize, u64, u64, bool),
    Ack(u64, u64),
    Lose(u64, u64),
    // Room for so many pieces.
    Reserve(usize),
    Get(u64, u64, &'static [u8]),
    // The frame writer's copy of a range, behind a text.
    Copied(u64, u64, &'static [u8]),
    // The bytes behind the acknowledged prefix.
    Unacked(&'static [u8]),
    Buffered(u64),
    NoneAcked(bool),
    FullyAcked(bool),
    // Whether something is to be sent.
    Due(bool),
}

// The calls, with nothing of what they promise: a test looks at what they answer and leave.
fn empty(alloc: Global) -> SendBuffer {
    SendBuffer::new(alloc)
}

fn write_piece(rt: &impl Abort, buffer: &mut SendBuffer, piece: Bytes) -> Result<(), OutOfMemory> {
    assert!(rt; piece.len() < 1 << 40 && buffer.offset() < 1 << 40);
    buffer.write(piece)
}

fn poll(rt: &impl Abort, buffer: &mut SendBuffer, max_len: usize) -> (Range<u64>, bool) {
    assert!(rt; max_len >= 16);
    buffer.poll_transmit(max_len)
}

fn next(rt: &impl Abort, buffer: &SendBuffer, max_len: usize) -> (Range<u64>, bool) {
    assert!(rt; max_len >= 16);
    buffer.next_transmit(max_len)
}

fn ack(rt: &impl Abort, buffer: &mut SendBuffer, range: Range<u64>) -> Result<(), OutOfMemory> {
    assert!(rt; range.end <= buffer.unsent());
    buffer.ack(range)
}

fn lose(rt: &impl Abort, buffer: &mut SendBuffer, range: Range<u64>) -> Result<(), OutOfMemory> {
    assert!(rt; range.end <= buffer.unsent());
    buffer.retransmit(range)
}

fn reserve(buffer: &mut SendBuffer, pieces: usize) -> Result<(), OutOfMemory> {
    buffer.reserve(pieces)
}

fn get(buffer: &SendBuffer, range: Range<u64>) -> &[u8] {
    buffer.get(range)
}

fn append(
    rt: &impl Abort,
    buffer: &SendBuffer,
    range: Range<u64>,
    text: &mut Vec<u8>,
) -> Result<(), OutOfMemory> {
    assert!(rt; buffer.acked_prefix() <= range.start && range.start <= range.end);
    assert!(rt; range.end <= buffer.offset());
    buffer.append_range(range, text)
}

fn buffered(buffer: &SendBuffer) -> u64 {
    buffer.buffered()
}

fn none_acked(buffer: &SendBuffer) -> bool {
    buffer.none_acked()
}

fn is_fully_acked(buffer: &SendBuffer) -> bool {
    buffer.is_fully_acked()
}

fn has_unsent_data(buffer: &SendBuffer) -> bool {
    buffer.has_unsent_data()
}

// A copy of these bytes.
fn piece(alloc: Global, bytes: &[u8]) -> Result<Bytes, OutOfMemory> {
    Bytes::copy_from_slice(alloc, bytes)
}

fn write(
    rt: &impl Abort,
    alloc: Global,
    buffer: &mut SendBuffer,
    bytes: &[u8],
) -> Result<(), OutOfMemory> {
    write_piece(rt, buffer, piece(alloc, bytes)?)
}

// A range, behind a text.
fn copied(
    rt: &impl Abort,
    alloc: Global,
    buffer: &SendBuffer,
    range: Range<u64>,
) -> Result<Vec<u8>, OutOfMemory> {
    let mut text = b"> ".to_vec(alloc)?;
    append(rt, buffer, range, &mut text)?;
    Ok(text)
}

fn unacked(alloc: Global, buffer: &SendBuffer) -> Result<Vec<u8>, OutOfMemory> {
    let end = buffer.offset();
    let mut all = Vec::new(alloc);
    let mut covered = 0;
    for at in 0..end {
        let part = get(buffer, at..end);
        if at >= covered && !part.is_empty() {
            all.extend_from_slice(part)?;
            covered = at.saturating_add(part.len() as u64);
        }
    }
    Ok(all)
}

// Takes a step that changes nothing and needs no memory.
fn ask(rt: &impl Abort, buffer: &SendBuffer, step: Step) {
    match step {
        Step::Get(start, end, bytes) => same(rt, get(buffer, start..end), bytes),
        Step::Buffered(count) => same(rt, buffered(buffer), count),
        Step::NoneAcked(none) => same(rt, none_acked(buffer), none),
        Step::FullyAcked(all) => same(rt, is_fully_acked(buffer), all),
        Step::Due(some) => same(rt, has_unsent_data(buffer), some),
        _ => {}
    }
}

// Takes a step.
fn take(
    rt: &impl Abort,
    alloc: Global,
    buffer: &mut SendBuffer,
    step: Step,
) -> Result<(), OutOfMemory> {
    match step {
        Step::Write(bytes) => write(rt, alloc, buffer, bytes),
        Step::Poll(max_len, start, end, length) => {
            same(rt, poll(rt, buffer, max_len), (start..end, length));
            Ok(())
        }
        Step::Ack(start, end) => ack(rt, buffer, start..end),
        Step::Lose(start, end) => lose(rt, buffer, start..end),
        Step::Reserve(pieces) => reserve(buffer, pieces),
        Step::Copied(start, end, text) => {
            same(rt, copied(rt, alloc, buffer, start..end)?.as_slice(), text);
            Ok(())
        }
        Step::Unacked(bytes) => {
            same(rt, unacked(alloc, buffer)?.as_slice(), bytes);
            Ok(())
        }
        other => {
            ask(rt, buffer, other);
            Ok(())
        }
    }
}

// What a caller sees of a buffer, but for its bytes.
#[derive(Clone, Copy, Debug, PartialEq, Eq)]
struct Seen {
    offset: u64,
    unsent: u64,
    prefix: u64,
    buffered: u64,
    // The start and the end of the range to be sent next, and whether its frame has a length.
    next: (u64, u64, bool),
}

fn see(rt: &impl Abort, buffer: &SendBuffer) -> Seen {
    let (range, has_length) = next(rt, buffer, 58);
    Seen {
        offset: buffer.offset(),
        unsent: buffer.unsent(),
        prefix: buffer.acked_prefix(),
        buffered: buffered(buffer),
        next: (range.start, range.end, has_length),
    }
}

// A step that finds no memory changes nothing. It is taken again, and it and those behind it have to answer as if
// nothing had happened.
fn take_again(
    rt: &impl Abort,
    alloc: Global,
    buffer: &mut SendBuffer,
    step: Step,
) -> Result<(), OutOfMemory> {
    let before = see(rt, buffer);
    match take(rt, alloc, buffer, step) {
        Ok(()) => Ok(()),
        Err(_) => {
            same_for(rt, &step, see(rt, buffer), before);
            take(rt, alloc, buffer, step)
        }
    }
}

// Takes steps of which none may find too little memory.
fn take_all(
    rt: &impl Abort,
    alloc: Global,
    buffer: &mut SendBuffer,
    steps: &[Step],
) -> Result<(), OutOfMemory> {
    for step in steps {
        take(rt, alloc, buffer, *step)?;
    }
    Ok(())
}

fn take_all_again(
    rt: &impl Abort,
    alloc: Global,
    buffer: &mut SendBuffer,
    steps: &[Step],
) -> Result<(), OutOfMemory> {
    for step in steps {
        take_again(rt, alloc, buffer, *step)?;
    }
    Ok(())
}

// Takes steps on a buffer to which nothing was written.
fn run(rt: &impl Abort, alloc: Global, steps: &[Step]) -> Result<(), OutOfMemory> {
    let mut buffer = empty(alloc);
    take_all_again(rt, alloc, &mut buffer, steps)
}

// Chunks of these texts.
fn chunks_of(alloc: Global, texts: &[&[u8]]) -> Result<Vec<Bytes>, OutOfMemory> {
    let mut chunks = Vec::new(alloc);
    for text in texts {
        chunks.push(piece(alloc, text)?)?;
    }
    Ok(chunks)
}

fn are_left(rt: &impl Abort, chunks: &[Bytes], texts: &[&[u8]]) {
    for (chunk, text) in chunks.iter().zip(texts) {
        same(rt, chunk.as_slice(), *text);
    }
}
