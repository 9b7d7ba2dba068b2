// Lists of steps that are drawn, on both bodies.
ghost use Rattle.std.specs.Prelude.{◌<◌};

use super::{Assembler, Chunk, HeapAssembler, same, same_for};
use quic_ordered::{Op, ReplayError, replay};
use quic_values::Bytes;
use std::alloc::Global;
use std::process::Abort;
use std::test::Fail;

// A number that looks random, from the one before.
fn next(seed: u64) -> u64 {
    let mixed = seed
        .wrapping_mul(6_364_136_223_846_793_005)
        .wrapping_add(1_442_695_040_888_963_407);
    mixed ^ (mixed >> 29)
}

// The byte of the stream at an offset.
fn byte_at(offset: u64) -> u8 {
    (offset.wrapping_mul(31).wrapping_add(offset >> 7) % 251) as u8
}

fn bytes_at(alloc: Global, offset: u64, count: u64) -> Result<Bytes, Fail> {
    let mut bytes = Vec::new(alloc);
    for index in 0..count {
        bytes.push(byte_at(offset.wrapping_add(index)))?;
    }
    Ok(Bytes::from(bytes))
}

// Pieces of 1 to 40 bytes below `span`, with reads between them, and at the end what was not sent yet and reads.
fn steps(alloc: Global, seed: u64, count: u64, span: u64) -> Result<Vec<Op>, Fail>
    requires { 0 < span }
{
    let mut ops = Vec::new(alloc);
    let mut number = seed;
    for _ in 0..count {
        number = next(number);
        if number % 5 == 0 {
            ops.push(Op::Read {
                max_length: ((number >> 8) % 70) as usize,
            })?;
        } else {
            let offset = (number >> 16) % span;
            let length = (number >> 40) % 40 + 1;
            ops.push(Op::Insert {
                offset,
                bytes: bytes_at(alloc, offset, length)?,
                allocation_size: length as usize + ((number >> 48) % 3 * 700) as usize,
            })?;
        }
    }
    ops.push(Op::Insert {
        offset: 0,
        bytes: bytes_at(alloc, 0, span)?,
        allocation_size: span as usize,
    })?;
    for _ in 0..count {
        ops.push(Op::Read { max_length: 10_000 })?;
    }
    Ok(ops)
}

// What a body that holds nothing comes to with these calls: the outcome, what was given, and how many bytes were read.
type Replayed = (Result<(), ReplayError>, Vec<Chunk>, u64);

// The calls, with nothing of what they promise: a test looks at what they answer and leave.
fn replay_ordered(alloc: Global, ops: &[Op]) -> Replayed {
    let mut body = Assembler::new(alloc);
    let mut chunks = Vec::new(alloc);
    let outcome = replay(&mut body, ops, &mut chunks);
    (outcome, chunks, body.bytes_read())
}

fn replay_heap(alloc: Global, ops: &[Op]) -> Replayed {
    let mut body = HeapAssembler::new(alloc);
    let mut chunks = Vec::new(alloc);
    let outcome = replay(&mut body, ops, &mut chunks);
    (outcome, chunks, body.bytes_read())
}

// These are the bytes of the stream from an offset on. Answers where they end.
fn follow(rt: &impl Abort, bytes: &[u8], offset: u64) -> u64 {
    let mut at = offset;
    for byte in bytes {
        same(rt, *byte, byte_at(at));
        at = at.wrapping_add(1);
    }
    at
}

// The stream was given, at least so many bytes of it. Answers how many.
fn gave(rt: &impl Abort, replayed: Replayed, least: u64) -> u64 {
    let (outcome, chunks, read) = replayed;
    same(rt, outcome, Ok(()));
    let mut end = 0;
    for chunk in &chunks {
        end = follow(rt, chunk.bytes.as_slice(), end);
    }
    assert!(rt; least <= end);
    same(rt, read, end);
    end
}

#[test]
fn both_bodies_give_the_same_bytes(rt: HostRuntime) -> Result<(), Fail> {
    let alloc = rt.alloc();
    for seed in 0..2000u64 {
        let size = seed % 60;
        let span = 200 + 40 * size;
        let ops = steps(alloc, seed, 40 + 5 * size, span)?;
        let count = gave(&rt, replay_ordered(alloc, &ops), span);
        same_for(&rt, &seed, gave(&rt, replay_heap(alloc, &ops), span), count);
    }
    Ok(())
}
