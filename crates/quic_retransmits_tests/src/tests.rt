//! Sets of what is to be sent, by what no frame of a stream shows: CRYPTO, connection ids, tokens, copies.

use quic_retransmits::{IssuedCid, Retransmits, StreamIds, ThinRetransmits};
use quic_wire::frame::Crypto;
use quic_wire::{Bytes, OutOfMemory, ReceiveError, StreamId, TransportError, VarInt};
use std::alloc::Global;
use std::fmt::Debug;
use std::net::{IpAddr, Ipv4Addr, SocketAddr};
use std::process::Abort;
use std::test::Fail;

// Both are the same in a case, or the test fails and shows them.
fn same_for<C: Debug, T: PartialEq + Debug + Drop>(rt: &impl Abort, case: &C, found: T, wanted: T) {
    assert_eq!(rt; found, wanted, "{case:?}");
}

fn id(number: u32) -> StreamId {
    StreamId::from(VarInt::from(number))
}

fn address(number: u32) -> SocketAddr {
    SocketAddr::new(IpAddr::V4(Ipv4Addr::from(number)), 443)
}

fn crypto(alloc: Global, number: u32) -> Crypto {
    Crypto {
        offset: u64::from(number),
        bytes: Bytes::new(alloc),
    }
}

fn cid(alloc: Global, number: u32) -> IssuedCid {
    IssuedCid {
        sequence: u64::from(number),
        id: Bytes::new(alloc),
        reset_token: [7; 16],
    }
}

// The calls, with nothing of what they promise: a test looks at what they answer and leave.
fn try_merge(set: &mut Retransmits, other: Retransmits) -> Result<(), Retransmits> {
    set.merge(other)
}

fn try_merge_thin(set: &mut Retransmits, other: ThinRetransmits) -> Result<(), ThinRetransmits> {
    set.merge_thin(other)
}

fn copied(set: &Retransmits) -> Result<Retransmits, OutOfMemory> {
    set.clone()
}

fn copied_thin(thin: &ThinRetransmits) -> Result<ThinRetransmits, OutOfMemory> {
    thin.clone()
}

fn add_reset(set: &mut Retransmits, id: StreamId) -> Result<(), OutOfMemory> {
    set.reserve_reset()?;
    set.queue_reset(id, VarInt::from(8));
    Ok(())
}

fn add_stop(set: &mut Retransmits, id: StreamId) -> Result<(), OutOfMemory> {
    set.reserve_stop()?;
    set.queue_stop(id, VarInt::from(9), true);
    Ok(())
}

fn add_window(set: &mut Retransmits, id: StreamId) -> Result<(), OutOfMemory> {
    set.reserve_window(id)?;
    set.queue_window(id, true);
    Ok(())
}

fn add_stream_blocked(set: &mut Retransmits, id: StreamId) -> Result<(), OutOfMemory> {
    set.reserve_stream_blocked(id)?;
    set.queue_stream_blocked(id, true);
    Ok(())
}

fn add_id(ids: &mut StreamIds, id: StreamId) -> Result<bool, OutOfMemory> {
    ids.insert(id)
}

fn retire(set: &mut Retransmits, from: u64, to: u64) -> Result<(), ReceiveError> {
    set.retire_cids(from..to)
}

// Queues a frame of each kind that belongs to a stream.
fn queue(set: &mut Retransmits, id: StreamId) -> Result<(), OutOfMemory> {
    add_reset(set, id)?;
    add_stop(set, id)?;
    add_window(set, id)?;
    add_stream_blocked(set, id)
}

// Puts something for a number in each list that no frame of a stream is in.
fn put_others(set: &mut Retransmits, alloc: Global, number: u32) -> Result<(), OutOfMemory> {
    set.crypto.push_back(crypto(alloc, number))?;
    set.new_cids.push(cid(alloc, number))?;
    set.retire_cids.push(u64::from(number))?;
    set.new_tokens.push(address(number))?;
    Ok(())
}

// So many numbers from a first one on.
#[derive(Clone, Copy, Debug)]
struct Numbers {
    first: u32,
    count: u32,
}

// A set with something for each number in each list and in each set.
fn filled(alloc: Global, numbers: Numbers) -> Result<Retransmits, OutOfMemory> {
    let mut set = Retransmits::new(alloc);
    for number in numbers.first..numbers.first.saturating_add(numbers.count) {
        queue(&mut set, id(number))?;
        put_others(&mut set, alloc, number)?;
    }
    Ok(set)
}

fn filled_thin(alloc: Global, numbers: Numbers) -> Result<ThinRetransmits, OutOfMemory> {
    let mut thin = ThinRetransmits::new(alloc);
    *thin.get_or_create()? = filled(alloc, numbers)?;
    Ok(thin)
}

// How two sets become one.
#[derive(Clone, Copy, Debug)]
enum Way {
    Merged,
    MergedThin,
    MergedCopies,
    Collected,
}

fn merged(mut left: Retransmits, right: Retransmits) -> Result<Retransmits, OutOfMemory> {
    match try_merge(&mut left, right) {
        Ok(()) => Ok(left),
        Err(_) => Err(OutOfMemory),
    }
}

fn merged_thin(mut left: Retransmits, right: ThinRetransmits) -> Result<Retransmits, OutOfMemory> {
    match try_merge_thin(&mut left, right) {
        Ok(()) => Ok(left),
        Err(_) => Err(OutOfMemory),
    }
}

fn collected(alloc: Global, left: Numbers, right: Numbers) -> Result<Retransmits, OutOfMemory> {
    let list = vec![in alloc; filled(alloc, left)?, filled(alloc, right)?]?;
    Retransmits::collect(alloc, list)
}

// The copy of a set into which that of another was merged.
fn merged_copies(alloc: Global, left: Numbers, right: Numbers) -> Result<Retransmits, OutOfMemory> {
    let right = copied_thin(&filled_thin(alloc, right)?)?;
    copied(&merged_thin(filled(alloc, left)?, right)?)
}

fn joined(
    alloc: Global,
    way: Way,
    left: Numbers,
    right: Numbers,
) -> Result<Retransmits, OutOfMemory> {
    match way {
        Way::Merged => merged(filled(alloc, left)?, filled(alloc, right)?),
        Way::MergedThin => merged_thin(filled(alloc, left)?, filled_thin(alloc, right)?),
        Way::MergedCopies => merged_copies(alloc, left, right),
        Way::Collected => collected(alloc, left, right),
    }
}

fn shows_crypto(rt: &impl Abort, way: Way, set: &Retransmits, numbers: &[u64]) {
    same_for(rt, &way, set.crypto.len(), numbers.len());
    for (frame, number) in set.crypto.iter().zip(numbers) {
        same_for(rt, &way, frame.offset, *number);
    }
}

#[test]
fn crypto_of_the_right_side_goes_in_front(rt: HostRuntime) -> Result<(), Fail> {
    let left = Numbers { first: 1, count: 1 };
    let right = Numbers { first: 2, count: 2 };
    for way in [Way::Merged, Way::MergedThin, Way::Collected] {
        let set = joined(rt.alloc(), way, left, right)?;
        shows_crypto(&rt, way, &set, &[2, 3, 1]);
    }
    Ok(())
}

// Numbers that are retired, and the code of the refusal, if they are refused.
const RETIRED: [(u64, u64, Option<u64>); 4] = [
    (0, u64::MAX, Some(TransportError::CONNECTION_ID_LIMIT_ERROR)),
    (0, 50, None),
    (50, 51, Some(TransportError::CONNECTION_ID_LIMIT_ERROR)),
    (7, 7, None),
];

fn code_of(refused: Result<(), ReceiveError>) -> Option<u64> {
    match refused {
        Err(ReceiveError::Transport(error)) => Some(error.code),
        _ => None,
    }
}

#[test]
fn fifty_ids_wait_at_most(rt: HostRuntime) -> Result<(), Fail> {
    let mut set = Retransmits::new(rt.alloc());
    for (from, to, refused) in RETIRED {
        let code = code_of(retire(&mut set, from, to));
        same_for(&rt, &(from, to), code, refused);
    }
    same_for(&rt, &RETIRED, set.retire_cids.len(), 50);
    for (waiting, number) in set.retire_cids.iter().zip(0..50u64) {
        same_for(&rt, &number, *waiting, number);
    }
    Ok(())
}

// What is looked at of a set that came out of two: how many tokens and windows there are, the last token, and the first
// offset of CRYPTO.
fn shown(set: &Retransmits) -> (usize, usize, Option<SocketAddr>, Option<u64>) {
    (
        set.new_tokens.len(),
        set.max_stream_data.len(),
        set.new_tokens.last().copied(),
        set.crypto.front().map(|frame| frame.offset),
    )
}

// Two sets become one, and all of both is there: behind it stands the second, but its CRYPTO in front.
fn become_one(
    rt: &impl Abort,
    alloc: Global,
    way: Way,
    left: Numbers,
    right: Numbers,
) -> Result<(), OutOfMemory> {
    let front = if right.count > 0 { right } else { left };
    let end = right.first.saturating_add(right.count);
    let count = left.count.saturating_add(right.count) as usize;
    let wanted = (
        count,
        count,
        Some(address(end.saturating_sub(1))),
        Some(u64::from(front.first)),
    );
    let set = joined(alloc, way, left, right)?;
    same_for(rt, &(way, count), shown(&set), wanted);
    Ok(())
}

// A set of three and one of so many are merged both ways, once as copies.
fn pass(rt: &impl Abort, alloc: Global, count: u32) -> Result<(), OutOfMemory> {
    let three = Numbers { first: 0, count: 3 };
    let many = Numbers { first: 3, count };
    become_one(rt, alloc, Way::Merged, three, many)?;
    become_one(rt, alloc, Way::MergedCopies, many, three)
}

// With ample memory no number of things is refused.
#[test]
fn any_number_is_merged_and_copied(rt: HostRuntime) -> Result<(), Fail> {
    for power in 0..17u32 {
        let count = 1u32 << power;
        for count in [count - 1, count, count + 1] {
            pass(&rt, rt.alloc(), count)?;
        }
    }
    Ok(())
}

fn is_new_once(rt: &impl Abort, ids: &mut StreamIds, number: u32) -> Result<(), OutOfMemory> {
    for is_new in [true, false] {
        same_for(rt, &number, add_id(ids, id(number))?, is_new);
    }
    Ok(())
}

// An id is new the first time that it is put in.
#[test]
fn an_id_is_new_once(rt: HostRuntime) -> Result<(), Fail> {
    let mut ids = StreamIds::new(rt.alloc());
    for number in 0..1025u32 {
        is_new_once(&rt, &mut ids, number)?;
    }
    same_for(&rt, &"all", ids.len(), 1025);
    Ok(())
}
