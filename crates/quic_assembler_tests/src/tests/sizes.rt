// With ample memory no size is refused.
use super::{Body, Fail, HeapAssembler, insert, same, same_for};
use std::alloc::{AllocError, Global};
use std::process::Abort;

fn next_seed(seed: u32) -> u32 {
    seed.wrapping_mul(1_664_525).wrapping_add(1_013_904_223)
}

pub(super) fn draw(alloc: Global, seed: u32, count: usize) -> Result<Vec<u8>, AllocError> {
    let mut bytes = Vec::new(alloc);
    let mut seed = seed;
    for _ in 0..count {
        seed = next_seed(seed);
        bytes.push((seed >> 24) as u8)?;
    }
    Ok(bytes)
}

// Inserts so many bytes behind what was read, and reads them in two parts.
fn pass<B: Body + Drop>(
    rt: &impl Abort,
    a: &mut B,
    alloc: Global,
    size: usize,
    seed: u32,
) -> Result<(), Fail> {
    assert!(rt; size < 1 << 20);
    let bytes = draw(alloc, seed, size)?;
    let start = a.bytes_given();
    same_for(
        rt,
        &size,
        insert(rt, a, alloc, start, bytes.as_slice(), size)?,
        Ok(()),
    );
    let mut given = Vec::new(alloc);
    for most in [seed as usize % (size + 1), usize::MAX] {
        if let Some(chunk) = a.next(most, true)? {
            given.extend_from_slice(chunk.bytes.as_slice())?;
        }
    }
    same_for(rt, &size, given.as_slice(), bytes.as_slice());
    Ok(())
}

fn pass_every_size<B: Body + Drop>(rt: &impl Abort, alloc: Global) -> Result<(), Fail> {
    let mut a = B::made(alloc);
    let mut seed = 20_260_722;
    for power in 0..17u32 {
        let size = 1usize << power;
        for size in [size - 1, size, size + 1] {
            seed = next_seed(seed);
            pass(rt, &mut a, alloc, size, seed)?;
        }
    }
    Ok(())
}

#[test]
fn takes_and_gives_every_size(rt: HostRuntime) -> Result<(), Fail> {
    pass_every_size::<HeapAssembler>(&rt, rt.alloc())
}

// The last byte comes first.
fn pass_backwards<B: Body + Drop>(rt: &impl Abort, alloc: Global) -> Result<(), Fail> {
    let mut a = B::made(alloc);
    let bytes = draw(alloc, 20_260_722, 65_537)?;
    for (at, byte) in bytes.iter().enumerate().rev() {
        same_for(
            rt,
            &at,
            insert(rt, &mut a, alloc, at as u64, &[*byte], 1)?,
            Ok(()),
        );
    }
    let mut given = Vec::new(alloc);
    for _ in 0..3000 {
        if let Some(chunk) = a.next(usize::MAX, true)? {
            given.extend_from_slice(chunk.bytes.as_slice())?;
        }
    }
    same(rt, given.as_slice(), bytes.as_slice());
    Ok(())
}

#[test]
fn takes_any_number_of_pieces(rt: HostRuntime) -> Result<(), Fail> {
    pass_backwards::<HeapAssembler>(&rt, rt.alloc())
}
