//! The names that a caller writes.
use crate::assembler::{Assembler, Chunk, HeapAssembler, Reassemble};
use crate::datagrams::DatagramState;
use crate::send::Send;
use crate::send_buffer::SendBuffer;
use crate::source::ByteSlice;
use crate::stats::FrameStats;
use quic_values::{Bytes, OutOfMemory, VarInt};
use std::alloc::Global;
use std::test::Fail;

// What the first frame of a buffer carries.
fn sent(alloc: Global) -> Result<Vec<u8>, OutOfMemory> {
    let mut sending = SendBuffer::new(alloc);
    sending.write(Bytes::copy_from_slice(alloc, b"first path")?)?;
    let (range, _) = sending.next_transmit(100);
    let mut frame = Vec::new(alloc);
    sending.append_range(range.start..range.end, &mut frame)?;
    Ok(frame)
}

#[test]
fn what_was_written_is_sent(rt: HostRuntime) -> Result<(), Fail> {
    assert!(&rt; sent(rt.alloc())?.as_slice() == b"first path".as_slice());
    Ok(())
}

fn given_by(body: &mut Assembler, bytes: Bytes) -> Result<Option<Chunk>, Fail> {
    if bytes.len() <= 100 && body.bytes_read() == 0 {
        body.insert(0, bytes, 100)?;
    }
    body.ensure_ordering(true)?;
    Ok(body.read(100, true)?)
}

fn pieces_of<R: Reassemble + Drop>(body: &R) -> usize {
    body.pieces()
}

#[test]
fn what_came_is_given(rt: HostRuntime) -> Result<(), Fail> {
    let alloc = rt.alloc();
    let mut body = Assembler::new(alloc);
    let chunk = given_by(&mut body, Bytes::copy_from_slice(alloc, b"first path")?)?;
    assert!(&rt; chunk.is_some_and(|chunk| chunk.bytes.as_slice() == b"first path".as_slice()));
    assert!(&rt; pieces_of(&body) == 0);
    assert!(&rt; pieces_of(&HeapAssembler::new(alloc)) == 0);
    Ok(())
}

// How many bytes of a text a half takes, and what it counts as written.
fn taken(alloc: Global, text: &[u8]) -> Result<(usize, u64), Fail> {
    let mut half = Send::new(alloc, VarInt::from(4));
    let mut source = ByteSlice::from_slice(alloc, text);
    let written = half.write(&mut source, 100)?;
    Ok((written.bytes, half.offset()))
}

#[test]
fn a_half_takes_what_its_limit_leaves(rt: HostRuntime) -> Result<(), Fail> {
    assert!(&rt; taken(rt.alloc(), b"first path")? == (4, 4));
    Ok(())
}

fn has_written(alloc: Global) -> Result<bool, OutOfMemory> {
    DatagramState::new(alloc).write(&mut Vec::new(alloc), 100)
}

#[test]
fn no_datagram_waits(rt: HostRuntime) -> Result<(), Fail> {
    assert!(&rt; !has_written(rt.alloc())?);
    assert!(&rt; FrameStats::new().stream == 0);
    Ok(())
}
