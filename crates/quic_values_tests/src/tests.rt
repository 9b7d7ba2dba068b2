use quic_values::{Bytes, ChunkList, Dir, MAX_STREAM_COUNT, OutOfMemory, Side, StreamId, VarInt};
use std::alloc::Global;
use std::fmt::Debug;
use std::process::Abort;
use std::test::Fail;

// Both are the same, or the test fails and shows them.
fn same<T: PartialEq + Debug + Drop>(rt: &impl Abort, found: T, wanted: T) {
    assert_eq!(rt; found, wanted);
}

fn is_true(rt: &impl Abort, holds: bool) {
    assert!(rt; holds);
}

#[test]
fn ids_have_their_bits(rt: HostRuntime) -> Result<(), Fail> {
    let samples = [
        (
            Side::Client,
            Dir::Bi,
            0,
            0u64,
            "client bidirectional stream 0",
        ),
        (Side::Server, Dir::Bi, 0, 1, "server bidirectional stream 0"),
        (
            Side::Client,
            Dir::Uni,
            0,
            2,
            "client unidirectional stream 0",
        ),
        (
            Side::Server,
            Dir::Uni,
            3,
            15,
            "server unidirectional stream 3",
        ),
        (
            Side::Server,
            Dir::Uni,
            MAX_STREAM_COUNT - 1,
            (1 << 62) - 1,
            "server unidirectional stream 1152921504606846975",
        ),
    ];
    for (side, dir, index, number, text) in samples {
        let id = StreamId::new(side, dir, index);
        same(&rt, VarInt::from(id).into_inner(), number);
        same(
            &rt,
            (id.initiator(), id.dir(), id.index()),
            (side, dir, index),
        );
        same(&rt, StreamId::from(VarInt::from(id)), id);
        let printed = format!(in rt.alloc(); "{id}")?;
        same(&rt, printed.as_str(), text);
    }
    same(&rt, !Side::Client, Side::Server);
    is_true(&rt, Side::Client.is_client() && !Side::Server.is_client());
    Ok(())
}

#[test]
fn numbers_are_printed_as_digits(rt: HostRuntime) -> Result<(), Fail> {
    let samples = [
        (63, 1, "63"),
        (64, 2, "64"),
        (16_383, 2, "16383"),
        (16_384, 4, "16384"),
        (1_073_741_824, 8, "1073741824"),
    ];
    for (number, size, text) in samples {
        let number = VarInt::from_u64(number).ok_or("a number below 2^62")?;
        same(&rt, number.size(), size);
        let printed = format!(in rt.alloc(); "{number}")?;
        same(&rt, printed.as_str(), text);
    }
    same(&rt, VarInt::from_u64(1 << 62), None);
    same(&rt, VarInt::MAX.into_inner(), 4_611_686_018_427_387_903);
    let printed = format!(in rt.alloc(); "{}", OutOfMemory)?;
    same(&rt, printed.as_str(), "out of memory");
    Ok(())
}

// So many bytes that a seed gives.
fn seeded(alloc: Global, len: usize) -> Result<Vec<u8>, OutOfMemory> {
    let mut bytes = Vec::new(alloc);
    let mut state = 0x9e37_79b9_7f4a_7c15u64;
    for _ in 0..len {
        state = state
            .wrapping_mul(0x5851_f42d_4c95_7f2d)
            .wrapping_add(0x1405_7b7e_f767_814f);
        bytes.push(state.to_be_bytes()[0])?;
    }
    Ok(bytes)
}

// Two copies of a slice behind each other, and the first of them taken out.
fn doubled(alloc: Global, content: &[u8]) -> Result<(Bytes, Bytes), OutOfMemory> {
    let mut bytes = Bytes::copy_from_slice(alloc, content)?.try_clone()?;
    bytes.extend_from_slice(content)?;
    let len = content.len().min(bytes.len());
    let front = bytes.split_to(len)?;
    Ok((front, bytes))
}

#[test]
fn no_number_of_bytes_is_refused(rt: HostRuntime) -> Result<(), Fail> {
    for power in 0..17u32 {
        let middle = 1usize << power;
        for len in [middle.saturating_sub(1), middle, middle.saturating_add(1)] {
            let content = seeded(rt.alloc(), len)?;
            let (front, back) = doubled(rt.alloc(), &content)?;
            assert!(rt; front.as_slice() == content.as_slice(), "{len} bytes");
            assert!(rt;
                back.into_vec().as_slice() == content.as_slice(),
                "{len} bytes"
            );
        }
    }
    Ok(())
}

fn chunks_of(alloc: Global, chunks: &[&[u8]]) -> Result<ChunkList, OutOfMemory> {
    let mut list = ChunkList::with_capacity(alloc, chunks.len(), 0)?;
    for chunk in chunks {
        list.push(chunk)?;
    }
    Ok(list)
}

#[test]
fn lists_of_the_same_bytes_differ_where_they_are_parted(rt: HostRuntime) -> Result<(), Fail> {
    let list = chunks_of(rt.alloc(), &[b"ab", b"c"])?;
    is_true(&rt, list == chunks_of(rt.alloc(), &[b"ab", b"c"])?);
    is_true(&rt, list != chunks_of(rt.alloc(), &[b"a", b"bc"])?);
    is_true(&rt, list != chunks_of(rt.alloc(), &[b"ab", b"c", b""])?);
    is_true(
        &rt,
        !list.is_empty() && ChunkList::new(rt.alloc()).is_empty(),
    );
    same(
        &rt,
        format!(in rt.alloc(); "{list:?}")?.as_str(),
        "[[97, 98], [99]]",
    );
    Ok(())
}

// A list of so many chunks, of no, one and two bytes in turn, and one of so many bytes, and the bytes of all of them.
fn in_turn(alloc: Global, count: usize) -> Result<(ChunkList, Vec<u8>), OutOfMemory> {
    let mut list = ChunkList::new(alloc);
    let mut content = Vec::new(alloc);
    for number in 0..count {
        let chunk = seeded(alloc, number % 3)?;
        list.push(&chunk)?;
        content.extend_from_slice(&chunk)?;
    }
    let long = seeded(alloc, count)?;
    list.push(&long)?;
    content.extend_from_slice(&long)?;
    Ok((list, content))
}

#[test]
fn no_number_of_chunks_is_refused(rt: HostRuntime) -> Result<(), Fail> {
    for power in 0..17u32 {
        let middle = 1usize << power;
        for count in [middle.saturating_sub(1), middle, middle.saturating_add(1)] {
            let (list, content) = in_turn(rt.alloc(), count)?;
            let mut joined = Vec::new(rt.alloc());
            for index in 0..list.len() {
                match list.get(index) {
                    Some(chunk) => joined.extend_from_slice(chunk)?,
                    None => panic!(rt; "no chunk {index} of {count}"),
                }
            }
            is_true(&rt, list.len().checked_sub(1) == Some(count));
            assert!(rt; joined.as_slice() == content.as_slice(), "{count} chunks");
        }
    }
    Ok(())
}
