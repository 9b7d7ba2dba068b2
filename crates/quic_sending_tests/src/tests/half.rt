// Writes of chunks on a send half, and the texts of its errors.
use super::{are_left, buffered, chunks_of, get, same};
use quic_sending::source::{BytesArray, BytesSource};
use quic_sending::{ClosedStream, FinishError, Send, WriteError, Written};
use quic_values::{Bytes, OutOfMemory, VarInt};
use std::alloc::Global;
use std::fmt::Display;
use std::ops::Range;
use std::process::Abort;
use std::test::Fail;

// The calls, with nothing of what they promise: a test looks at what they answer and leave.
fn limited(alloc: Global, limit: VarInt) -> Send {
    Send::new(alloc, limit)
}

fn offset(send: &Send) -> u64 {
    send.offset()
}

fn write<S: BytesSource>(
    send: &mut Send,
    source: &mut S,
    limit: u64,
) -> Result<Written, WriteError> {
    send.write(source, limit)
}

fn half(alloc: Global, limit: u32) -> Send {
    limited(alloc, VarInt::from(limit))
}

fn written(bytes: usize, chunks: usize) -> Written {
    Written { bytes, chunks }
}

fn is_refused(rt: &impl Abort, outcome: Result<Written, WriteError>, wanted: WriteError) {
    same(rt, outcome, Err(wanted));
}

// What is kept from an offset on, up to an end or to that of its piece.
fn keeps(rt: &impl Abort, send: &Send, range: Range<u64>, wanted: &[u8]) {
    same(rt, get(&send.pending, range), wanted);
}

// So many bytes were written, and all are kept.
fn has_just(rt: &impl Abort, send: &Send, count: u64) {
    same(rt, (offset(send), buffered(&send.pending)), (count, count));
}

// A write that finds no memory leaves the source and the half as they were: the next one takes all.
fn write_again<S: BytesSource>(
    rt: &impl Abort,
    send: &mut Send,
    source: &mut S,
    limit: u64,
) -> Result<Written, WriteError> {
    let before = offset(send);
    let outcome = write(send, source, limit);
    if outcome != Err(WriteError::OutOfMemory) {
        return outcome;
    }
    has_just(rt, send, before);
    write(send, source, limit)
}

fn write_chunks(
    rt: &impl Abort,
    alloc: Global,
    send: &mut Send,
    chunks: &mut [Bytes],
    limit: u64,
) -> Result<Written, WriteError> {
    let mut part = Bytes::new(alloc);
    write_again(
        rt,
        send,
        &mut BytesArray::from_chunks(alloc, chunks, &mut part),
        limit,
    )
}

// What a write of these chunks takes: the second one, and of the third one a byte or all. The next write is blocked.
fn takes_on(
    rt: &impl Abort,
    alloc: Global,
    send: &mut Send,
    chunks: &mut [Bytes],
    wanted: Written,
) -> Result<(), WriteError> {
    same(rt, write_chunks(rt, alloc, send, chunks, 1000)?, wanted);
    has_just(rt, send, wanted.bytes as u64);
    keeps(rt, send, 0..10, b"Hello ");
    keeps(rt, send, 6..7, b"W");
    let outcome = write_chunks(rt, alloc, send, chunks, 1000);
    is_refused(rt, outcome, WriteError::Blocked);
    Ok(())
}

// The same on a half with a stream limit.
fn takes(
    rt: &impl Abort,
    alloc: Global,
    limit: u32,
    chunks: &mut [Bytes],
    wanted: Written,
) -> Result<(), WriteError> {
    let mut send = half(alloc, limit);
    takes_on(rt, alloc, &mut send, chunks, wanted)
}

// The same of chunks of these texts, and what is left of them.
fn shows_write(
    rt: &impl Abort,
    alloc: Global,
    limit: u32,
    texts: &[&[u8]],
    written: Written,
    left: &[&[u8]],
) -> Result<(), WriteError> {
    let mut chunks = chunks_of(alloc, texts)?;
    takes(rt, alloc, limit, chunks.as_mut_slice(), written)?;
    are_left(rt, &chunks, left);
    Ok(())
}

#[test]
fn write_takes_what_the_limit_leaves(rt: HostRuntime) -> Result<(), Fail> {
    shows_write(
        &rt,
        rt.alloc(),
        7,
        &[b"", b"Hello ", b"Wo"],
        written(7, 2),
        &[b"", b"", b"o"],
    )?;
    shows_write(
        &rt,
        rt.alloc(),
        8,
        &[b"", b"Hello ", b"Wo", b"", b"r"],
        written(8, 4),
        &[b"", b"", b"", b"", b"r"],
    )?;
    Ok(())
}

#[test]
fn refused_memory_changes_no_source(rt: HostRuntime) -> Result<(), Fail> {
    let Ok(mut chunks) = chunks_of(rt.alloc(), &[b"", b"Hello ", b"Wo"]) else {
        return Ok(());
    };
    takes(&rt, rt.alloc(), 7, chunks.as_mut_slice(), written(7, 2))?;
    are_left(&rt, &chunks, &[b"", b"", b"o"]);
    Ok(())
}

fn shows(
    rt: &impl Abort,
    alloc: Global,
    error: &impl Display,
    text: &str,
) -> Result<(), OutOfMemory> {
    same(rt, error.to_string(alloc)?.as_str(), text);
    Ok(())
}

#[test]
fn error_texts(rt: HostRuntime) -> Result<(), Fail> {
    let code = VarInt::from(9);
    for (error, text) in &[
        (WriteError::Blocked, "unable to accept further writes"),
        (WriteError::Stopped(code), "stopped by peer: code 9"),
        (WriteError::ClosedStream, "closed stream"),
        (WriteError::OutOfMemory, "out of memory"),
    ] {
        shows(&rt, rt.alloc(), error, text)?;
    }
    for (error, text) in &[
        (FinishError::Stopped(code), "stopped by peer: code 9"),
        (FinishError::ClosedStream, "closed stream"),
        (FinishError::OutOfMemory, "out of memory"),
    ] {
        shows(&rt, rt.alloc(), error, text)?;
    }
    shows(&rt, rt.alloc(), &ClosedStream, "closed stream")?;
    Ok(())
}
