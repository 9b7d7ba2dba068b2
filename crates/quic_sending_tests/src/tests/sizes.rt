// With ample memory no size is refused.
use super::{Step, ack, empty, lose, next, poll, same, take, take_all, write};
use quic_sending::SendBuffer;
use quic_values::OutOfMemory;
use std::alloc::Global;
use std::process::Abort;
use std::test::Fail;

// Where the mixed order of the pieces begins and how it goes on.
const SEED: u64 = 0x9e37_79b9_7f4a_7c15;

// The first size that is no longer looked at: above 2^16.
const SIZES: u64 = (1 << 16) + 2;

// Room for so many pieces, and for one more.
fn reserve_both(
    rt: &impl Abort,
    alloc: Global,
    buffer: &mut SendBuffer,
    pieces: usize,
) -> Result<(), OutOfMemory> {
    take(rt, alloc, buffer, Step::Reserve(pieces))?;
    take(rt, alloc, buffer, Step::Reserve(pieces.saturating_add(1)))
}

const ALL_PIECES: [Step; 2] = [Step::Buffered(SIZES - 1), Step::Get(SIZES - 2, SIZES, b"a")];

// Writes a piece after another, and asks for room on both sides of each power of two.
fn write_pieces(
    rt: &impl Abort,
    alloc: Global,
    buffer: &mut SendBuffer,
) -> Result<(), OutOfMemory> {
    for pieces in 1..SIZES {
        take(rt, alloc, buffer, Step::Write(b"a"))?;
        if pieces.is_power_of_two() {
            reserve_both(rt, alloc, buffer, pieces as usize)?;
        }
    }
    take_all(rt, alloc, buffer, &ALL_PIECES)
}

// With memory enough no write is refused, nor the room that is asked for.
#[test]
fn ample_memory_suffices_for_many_pieces(rt: HostRuntime) -> Result<(), Fail> {
    let mut buffer = empty(rt.alloc());
    write_pieces(&rt, rt.alloc(), &mut buffer)?;
    Ok(())
}

// Of two bytes the second is acknowledged and the first lost.
fn exchange(rt: &impl Abort, buffer: &mut SendBuffer, start: u64) -> Result<(), OutOfMemory> {
    let end = start.wrapping_add(2);
    ack(rt, buffer, start.wrapping_add(1)..end)?;
    lose(rt, buffer, start..end)
}

// So it is with each two bytes, in a mixed order, so that the sets pass through every size.
fn exchange_all(rt: &impl Abort, buffer: &mut SendBuffer) -> Result<(), OutOfMemory> {
    let mask = SIZES.next_power_of_two().wrapping_sub(1);
    let mut place = SEED & mask;
    for _ in 0..mask + 1 {
        if place < SIZES {
            exchange(rt, buffer, place.wrapping_mul(2))?;
        }
        place = place.wrapping_add(SEED) & mask;
    }
    Ok(())
}

const BYTES: &[u8] = &[0; 2 * SIZES as usize];

const ALL_ACKED: [Step; 3] = [
    Step::Ack(0, 2 * SIZES),
    Step::FullyAcked(true),
    Step::Buffered(0),
];

// Of all bytes, which are sent, each second one is acknowledged and each other one lost, and then all are acknowledged.
fn exchange_ranges(
    rt: &impl Abort,
    alloc: Global,
    buffer: &mut SendBuffer,
) -> Result<(), OutOfMemory> {
    write(rt, alloc, buffer, BYTES)?;
    same(rt, poll(rt, buffer, 1 << 20), (0..2 * SIZES, true));
    exchange_all(rt, buffer)?;
    same(rt, next(rt, buffer, 1 << 20), (0..1, true));
    take_all(rt, alloc, buffer, &ALL_ACKED)
}

// With memory enough no acknowledgement and no loss is refused.
#[test]
fn ample_memory_suffices_for_many_ranges(rt: HostRuntime) -> Result<(), Fail> {
    let mut buffer = empty(rt.alloc());
    exchange_ranges(&rt, rt.alloc(), &mut buffer)?;
    Ok(())
}
