// Orders in which a long joined piece meets others again and again.
use super::sizes::draw;
use super::{Assembler, Body, Fail, insert, same, same_for};
use std::alloc::Global;
use std::process::Abort;

const SIZE: usize = 64;

const COUNT: usize = 4300;

// Reads all that is there in one go, and compares it.
fn gives_all(rt: &impl Abort, alloc: Global, a: &mut Assembler, bytes: &[u8]) -> Result<(), Fail> {
    let mut given = Vec::new(alloc);
    for _ in 0..COUNT {
        if let Some(chunk) = a.next(usize::MAX, true)? {
            given.extend_from_slice(chunk.bytes.as_slice())?;
        }
    }
    same(rt, given.as_slice(), bytes);
    Ok(())
}

// The last piece comes first. With the 2049th more than 2048 are held, and all of them touch; so with the 4097th.
fn takes_reversed(rt: &impl Abort, alloc: Global) -> Result<(), Fail> {
    let mut a = Assembler::made(alloc);
    let bytes = draw(alloc, 20_261_201, SIZE * COUNT)?;
    let mut taken = 0usize;
    for (at, piece) in bytes.chunks(SIZE).enumerate().rev() {
        let offset = (at as u64).wrapping_mul(SIZE as u64);
        same_for(
            rt,
            &at,
            insert(rt, &mut a, alloc, offset, piece, SIZE)?,
            Ok(()),
        );
        taken = taken.wrapping_add(1);
        let held = if taken <= 2048 {
            taken
        } else {
            taken.wrapping_sub(2049) % 2048 + 1
        };
        same_for(rt, &taken, a.held(), held);
    }
    gives_all(rt, alloc, &mut a, bytes.as_slice())
}

#[test]
fn takes_many_pieces_in_reverse_order(rt: HostRuntime) -> Result<(), Fail> {
    takes_reversed(&rt, rt.alloc())
}

// Pieces of which the last thirty were joined, and then the others in front of them. If memory is refused, all stay.
fn keeps_all(rt: &impl Abort, alloc: Global) -> Result<(), Fail> {
    let mut a = Assembler::made(alloc);
    let bytes = draw(alloc, 20_261_202, SIZE * 40)?;
    for (at, piece) in bytes.chunks(SIZE).enumerate().rev() {
        let offset = (at as u64).wrapping_mul(SIZE as u64);
        same_for(
            rt,
            &at,
            insert(rt, &mut a, alloc, offset, piece, SIZE)?,
            Ok(()),
        );
        if at == 10 || at == 0 {
            let joined = a.compact();
            if joined.is_ok() {
                same_for(rt, &at, a.held(), 1);
            }
        }
    }
    gives_all(rt, alloc, &mut a, bytes.as_slice())
}

#[test]
fn keeps_all_where_joining_is_refused(rt: HostRuntime) -> Result<(), Fail> {
    keeps_all(&rt, rt.alloc())
}
