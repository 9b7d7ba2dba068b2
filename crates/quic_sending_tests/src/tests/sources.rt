use super::{are_left, chunks_of, same, same_for};
use quic_sending::source::{ByteSlice, BytesArray, BytesSource};
use quic_values::{Bytes, OutOfMemory};
use std::alloc::Global;
use std::process::Abort;
use std::test::Fail;

const FULL: &[u8] = b"Hello World 123456789 ABCDEFGHJIJKLMNOPQRSTUVWXYZ";

// What was taken out of a source: the bytes, how many pieces they were, and how many lists ended.
#[derive(Drop)]
struct Taken {
    bytes: Vec<u8>,
    pieces: usize,
    ended: usize,
}

fn take_out<S: BytesSource>(
    alloc: Global,
    source: &mut S,
    limit: usize,
) -> Result<Taken, OutOfMemory> {
    let bound = source.prepare(limit)?;
    let mut bytes = Vec::new(alloc);
    let (mut pieces, mut ended, mut left) = (0usize, 0usize, limit);
    for _ in 0..bound.saturating_add(1) {
        let (piece, lists) = source.pop_chunk(left);
        ended = ended.saturating_add(lists);
        if piece.is_empty() {
            break;
        }
        left -= piece.len();
        pieces = pieces.saturating_add(1);
        bytes.extend_from_slice(piece.as_slice())?;
    }
    Ok(Taken {
        bytes,
        pieces,
        ended,
    })
}

fn take_chunks(alloc: Global, chunks: &mut [Bytes], limit: usize) -> Result<Taken, OutOfMemory> {
    let mut part = Bytes::new(alloc);
    take_out(
        alloc,
        &mut BytesArray::from_chunks(alloc, chunks, &mut part),
        limit,
    )
}

// The chunks, what is taken of them at a limit, and what is left.
fn shows_rest(
    rt: &impl Abort,
    alloc: Global,
    texts: &[&[u8]],
    limit: usize,
    ended: usize,
    rest: &[&[u8]],
) -> Result<(), OutOfMemory> {
    let mut all = chunks_of(alloc, texts)?;
    let taken = take_chunks(alloc, all.as_mut_slice(), limit)?;
    same(rt, taken.bytes.len(), limit);
    same(rt, taken.ended, ended);
    are_left(rt, &all, rest);
    Ok(())
}

#[test]
fn bytes_array(rt: HostRuntime) -> Result<(), Fail> {
    let texts: [&[u8]; 11] = [
        b"",
        b"Hello ",
        b"Wo",
        b"",
        b"r",
        b"ld",
        b"",
        b" 12345678",
        b"9 ABCDE",
        b"F",
        b"GHJIJKLMNOPQRSTUVWXYZ",
    ];
    for limit in 0..FULL.len() + 1 {
        let mut all = chunks_of(rt.alloc(), &texts)?;
        let taken = take_chunks(rt.alloc(), all.as_mut_slice(), limit)?;
        same(&rt, Some(taken.bytes.as_slice()), FULL.get(..limit));
        if limit == FULL.len() {
            same(&rt, (taken.pieces, taken.ended), (8, 11));
        } else if limit > FULL.len() - 21 {
            same_for(&rt, &limit, (taken.pieces, taken.ended), (8, 10));
        }
    }
    Ok(())
}

fn take_slice(alloc: Global, limit: usize) -> Result<Taken, OutOfMemory> {
    take_out(alloc, &mut ByteSlice::from_slice(alloc, FULL), limit)
}

#[test]
fn byte_slice(rt: HostRuntime) -> Result<(), Fail> {
    for limit in 0..FULL.len() + 1 {
        let taken = take_slice(rt.alloc(), limit)?;
        same(&rt, Some(taken.bytes.as_slice()), FULL.get(..limit));
        same(&rt, taken.pieces, usize::from(limit != 0));
        same(&rt, taken.ended, usize::from(limit == FULL.len()));
    }
    Ok(())
}

// A chunk that is cut keeps its rest, and empty chunks are skipped and counted, at the limit too.
#[test]
fn cut_chunk_keeps_its_rest(rt: HostRuntime) -> Result<(), Fail> {
    shows_rest(
        &rt,
        rt.alloc(),
        &[b"", b"Hello ", b"Wo"],
        7,
        2,
        &[b"", b"", b"o"],
    )?;
    shows_rest(
        &rt,
        rt.alloc(),
        &[b"", b"Hello ", b"Wo", b"", b"r"],
        8,
        4,
        &[b"", b"", b"", b"", b"r"],
    )?;
    Ok(())
}
