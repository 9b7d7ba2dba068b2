use quic_wire::frame::{Crypto, Datagram, ResetStream, StopSending, Stream, StreamMeta};
use quic_wire::{
    Bytes, DecodeError, Dir, Frame, OutOfMemory, PieceMemory, ReceiveError, Side, StreamId,
    TransportError, VarInt, decode, decode_owned, decode_owned_into, decode_owned_reusing,
};
use std::alloc::Global;
use std::fmt::Debug;
use std::process::Abort;
use std::test::Fail;

// Both are the same, or the test fails and shows them.
fn same<T: PartialEq + Debug + Drop>(rt: &impl Abort, found: T, wanted: T) {
    assert_eq!(rt; found, wanted);
}

fn is_true(rt: &impl Abort, holds: bool) {
    assert!(rt; holds);
}

fn id(index: u64) -> StreamId {
    StreamId::new(Side::Client, Dir::Bi, index % 1024)
}

// A number below 64 in the length that is given by the two highest bits of its first byte.
fn put(buf: &mut Vec<u8>, length_bits: u8, number: u8) -> Result<(), OutOfMemory> {
    match length_bits % 4 {
        0 => buf.push(number)?,
        1 => buf.extend_from_slice(&[0x40, number])?,
        2 => buf.extend_from_slice(&[0x80, 0, 0, number])?,
        _ => buf.extend_from_slice(&[0xc0, 0, 0, 0, 0, 0, 0, number])?,
    }
    Ok(())
}

fn put_frame(
    buf: &mut Vec<u8>,
    length_bits: u8,
    kind: u8,
    numbers: &[u8],
    content: &[u8],
) -> Result<(), OutOfMemory> {
    buf.push(kind)?;
    for number in numbers {
        put(buf, length_bits, *number)?;
    }
    buf.extend_from_slice(content)?;
    Ok(())
}

fn data(alloc: Global, offset: u64, content: &[u8]) -> Result<Stream, OutOfMemory> {
    Ok(Stream {
        id: id(2),
        offset,
        fin: true,
        bytes: Bytes::copy_from_slice(alloc, content)?,
    })
}

fn stream(alloc: Global, offset: u64, fin: bool, content: &[u8]) -> Result<Frame, OutOfMemory> {
    let data = data(alloc, offset, content)?;
    Ok(Frame::Stream(Stream { fin, ..data }))
}

fn datagram(alloc: Global, content: &[u8]) -> Result<Frame, OutOfMemory> {
    Ok(Frame::Datagram(Datagram {
        bytes: Bytes::copy_from_slice(alloc, content)?,
    }))
}

// The calls, with nothing of what they promise: a test looks at what they answer.
fn decoded(alloc: Global, payload: &[u8]) -> Result<Vec<Frame>, DecodeError> {
    decode(alloc, payload)
}

fn decoded_whole(alloc: Global, payload: Vec<u8>) -> Result<Vec<Frame>, DecodeError> {
    decode_owned(alloc, payload)
}

fn decoded_into(
    alloc: Global,
    payload: Vec<u8>,
    list: Vec<Frame>,
) -> Result<Vec<Frame>, DecodeError> {
    decode_owned_into(alloc, payload, list)
}

fn decoded_reusing(
    memory: &mut PieceMemory,
    payload: Vec<u8>,
    list: Vec<Frame>,
) -> Result<Vec<Frame>, DecodeError> {
    decode_owned_reusing(memory, payload, list)
}

fn written_data(
    rt: &impl Abort,
    alloc: Global,
    data: &Stream,
    with_length: bool,
) -> Result<Vec<u8>, OutOfMemory> {
    assert!(rt; data.offset < 1 << 62 && data.bytes.len() < 1 << 62);
    let mut buf = Vec::new(alloc);
    data.encode(with_length, &mut buf)?;
    Ok(buf)
}

fn written_datagram(
    rt: &impl Abort,
    alloc: Global,
    content: &[u8],
    with_length: bool,
) -> Result<Vec<u8>, OutOfMemory> {
    let datagram = Datagram {
        bytes: Bytes::copy_from_slice(alloc, content)?,
    };
    assert!(rt; datagram.bytes.len() < 1 << 62);
    let mut buf = Vec::new(alloc);
    datagram.encode(with_length, &mut buf)?;
    same(rt, datagram.size(with_length), buf.len());
    Ok(buf)
}

// Each kind of frame with its numbers, and what is behind them.
const KINDS: [(u8, &[u8], &[u8]); 13] = [
    (0x04, &[8, 7, 9], b""),
    (0x05, &[8, 7], b""),
    (0x0a, &[8, 2], b"hi"),
    (0x0b, &[8, 1], b"!"),
    (0x0e, &[8, 5, 0], b""),
    (0x0f, &[8, 0, 1], b"?"),
    (0x10, &[33], b""),
    (0x11, &[8, 34], b""),
    (0x12, &[35], b""),
    (0x13, &[36], b""),
    (0x14, &[37], b""),
    (0x15, &[8, 38], b""),
    (0x31, &[3], b"abc"),
];

// The frame that each of these is, by its type.
fn frame_of(alloc: Global, kind: u8) -> Result<Frame, OutOfMemory> {
    let (id, error_code) = (id(2), VarInt::from(7));
    Ok(match kind {
        0x04 => Frame::ResetStream(ResetStream {
            id,
            error_code,
            final_offset: VarInt::from(9),
        }),
        0x05 => Frame::StopSending(StopSending { id, error_code }),
        0x0a => stream(alloc, 0, false, b"hi")?,
        0x0b => stream(alloc, 0, true, b"!")?,
        0x0e => stream(alloc, 5, false, b"")?,
        0x0f => stream(alloc, 0, true, b"?")?,
        0x10 => Frame::MaxData(VarInt::from(33)),
        0x11 => Frame::MaxStreamData { id, offset: 34 },
        0x12 => Frame::MaxStreams {
            dir: Dir::Bi,
            count: 35,
        },
        0x13 => Frame::MaxStreams {
            dir: Dir::Uni,
            count: 36,
        },
        0x14 => Frame::DataBlocked { offset: 37 },
        0x15 => Frame::StreamDataBlocked { id, offset: 38 },
        _ => datagram(alloc, b"abc")?,
    })
}

// Every kind of frame with all its fields in one length, behind each other.
fn put_kinds(buf: &mut Vec<u8>, length_bits: u8) -> Result<(), OutOfMemory> {
    for (kind, numbers, content) in KINDS {
        put_frame(buf, length_bits, kind, numbers, content)?;
    }
    Ok(())
}

fn push_kinds(alloc: Global, frames: &mut Vec<Frame>) -> Result<(), OutOfMemory> {
    for (kind, _, _) in KINDS {
        frames.push(frame_of(alloc, kind)?)?;
    }
    Ok(())
}

// Whether a number that is spelled so is read, and is spelled so where that is the shortest.
fn is_number(
    rt: &impl Abort,
    alloc: Global,
    bytes: &[u8],
    number: u64,
    shortest: bool,
) -> Result<(), Fail> {
    let mut payload = Vec::from_slice(alloc, &[0x10])?;
    payload.extend_from_slice(bytes)?;
    let limit = VarInt::from_u64(number).ok_or("a number below 2^62")?;
    let frames = decoded(alloc, &payload)?;
    same(rt, frames.as_slice(), [Frame::MaxData(limit)].as_slice());
    if shortest {
        let mut written = Vec::new(alloc);
        limit.encode(&mut written)?;
        same(rt, written.as_slice(), bytes);
        same(rt, limit.size(), bytes.len());
    }
    Ok(())
}

// The samples of RFC 9000, A.1.
const NUMBERS: [(&[u8], u64, bool); 5] = [
    (
        &[0xc2, 0x19, 0x7c, 0x5e, 0xff, 0x14, 0xe8, 0x8c],
        151_288_809_941_952_652,
        true,
    ),
    (&[0x9d, 0x7f, 0x3e, 0x7d], 494_878_333, true),
    (&[0x7b, 0xbd], 15_293, true),
    (&[0x25], 37, true),
    (&[0x40, 0x25], 37, false),
];

#[test]
fn numbers_are_read_and_written_as_the_rfc_shows(rt: HostRuntime) -> Result<(), Fail> {
    for (bytes, number, shortest) in NUMBERS {
        is_number(&rt, rt.alloc(), bytes, number, shortest)?;
    }
    Ok(())
}

#[test]
fn every_kind_is_read_in_every_length_of_field(rt: HostRuntime) -> Result<(), Fail> {
    let mut payload = Vec::new(rt.alloc());
    let mut expected = Vec::new(rt.alloc());
    for length_bits in 0..4 {
        put_kinds(&mut payload, length_bits)?;
        push_kinds(rt.alloc(), &mut expected)?;
    }
    let frames = decoded(rt.alloc(), &payload)?;
    same(&rt, frames.as_slice(), expected.as_slice());
    Ok(())
}

// Data of a stream that go to the end of their payload, with the offset and whether they are the last.
const ENDINGS: [(u8, &[u8], u64, bool); 4] = [
    (0x08, &[8], 0, false),
    (0x09, &[8], 0, true),
    (0x0c, &[8, 4], 4, false),
    (0x0d, &[8, 0], 0, true),
];

#[test]
fn a_frame_without_a_length_goes_to_the_end(rt: HostRuntime) -> Result<(), Fail> {
    let alloc = rt.alloc();
    for length_bits in 0..4 {
        for (kind, numbers, offset, fin) in ENDINGS {
            let mut payload = Vec::from_slice(alloc, &[0x10, 33])?;
            put_frame(&mut payload, length_bits, kind, numbers, b"to the end")?;
            let data = stream(alloc, offset, fin, b"to the end")?;
            let wanted = [frame_of(alloc, 0x10)?, data];
            same(&rt, decoded(alloc, &payload)?.as_slice(), wanted.as_slice());
        }
    }
    let wanted = [datagram(alloc, b"to the end")?];
    let frames = decoded(alloc, b"\x30to the end")?;
    same(&rt, frames.as_slice(), wanted.as_slice());
    Ok(())
}

#[test]
fn the_list_of_the_last_payload_is_used_again(rt: HostRuntime) -> Result<(), Fail> {
    let alloc = rt.alloc();
    let mut list = Vec::with_capacity(alloc, 20)?;
    for length_bits in 0..4 {
        let mut payload = Vec::new(alloc);
        put_kinds(&mut payload, length_bits)?;
        list = decoded_into(alloc, payload, list)?;
        same(&rt, (list.len(), list.capacity()), (13, 20));
    }
    Ok(())
}

#[test]
fn errors_print_their_texts(rt: HostRuntime) -> Result<(), Fail> {
    let errors = [
        (
            ReceiveError::Transport(TransportError::flow_control_error("too much")),
            "transport error 3: too much",
        ),
        (ReceiveError::OutOfMemory, "out of memory"),
        (ReceiveError::CompactionMemory, "out of memory"),
    ];
    for (error, text) in errors {
        let printed = format!(in rt.alloc(); "{error}")?;
        same(&rt, printed.as_str(), text);
    }
    for (error, text) in [
        (DecodeError::Malformed, "malformed frame"),
        (DecodeError::OutOfMemory, "out of memory"),
    ] {
        let printed = format!(in rt.alloc(); "{error}")?;
        same(&rt, printed.as_str(), text);
    }
    Ok(())
}

#[test]
fn errors_have_their_codes(rt: HostRuntime) -> Result<(), Fail> {
    let codes = [
        (TransportError::internal_error("a"), 1),
        (TransportError::flow_control_error("b"), 3),
        (TransportError::stream_limit_error("c"), 4),
        (TransportError::stream_state_error("d"), 5),
        (TransportError::final_size_error("e"), 6),
        (TransportError::frame_encoding_error("f"), 7),
        (TransportError::connection_id_limit_error("g"), 9),
        (TransportError::protocol_violation("h"), 10),
        (TransportError::new(77, "i"), 77),
    ];
    for (error, code) in codes {
        same(&rt, error.code, code);
    }
    Ok(())
}

#[test]
fn a_copy_is_the_same(rt: HostRuntime) -> Result<(), Fail> {
    let crypto = Crypto {
        offset: 5,
        bytes: Bytes::copy_from_slice(rt.alloc(), b"hello")?,
    };
    same(&rt, crypto.try_clone()?, crypto);
    let meta = StreamMeta {
        id: id(2),
        offsets: 4..6,
        fin: false,
    };
    same(&rt, &meta.clone()?, &meta);
    Ok(())
}

// Each call that writes data writes them, with a length and without.
#[test]
fn data_are_written(rt: HostRuntime) -> Result<(), Fail> {
    let alloc = rt.alloc();
    let hi = data(alloc, 5, b"hi")?;
    let written = written_data(&rt, alloc, &hi, true)?;
    same(&rt, written.as_slice(), b"\x0f\x08\x05\x02hi".as_slice());
    let written = written_data(&rt, alloc, &hi, false)?;
    same(&rt, written.as_slice(), b"\x0d\x08\x05hi".as_slice());
    let written = written_datagram(&rt, alloc, b"abc", true)?;
    same(&rt, written.as_slice(), b"\x31\x03abc".as_slice());
    let written = written_datagram(&rt, alloc, b"abc", false)?;
    same(&rt, written.as_slice(), b"\x30abc".as_slice());
    Ok(())
}

#[test]
fn heads_and_other_frames_are_written(rt: HostRuntime) -> Result<(), Fail> {
    let meta = StreamMeta {
        id: id(2),
        offsets: 4..6,
        fin: false,
    };
    let mut buf = Vec::new(rt.alloc());
    meta.encode(true, &mut buf)?;
    same(&rt, buf.as_slice(), [0x0e, 8, 4, 2].as_slice());
    let mut buf = Vec::new(rt.alloc());
    let frame = Frame::MaxStreams {
        dir: Dir::Uni,
        count: 1 << 40,
    };
    frame.encode(&mut buf)?;
    let wanted = [0x13, 0xc0, 0, 1, 0, 0, 0, 0, 0];
    same(&rt, buf.as_slice(), wanted.as_slice());
    Ok(())
}

// So many bytes that a seed gives.
fn seeded(alloc: Global, len: usize) -> Result<Vec<u8>, OutOfMemory> {
    let mut bytes = Vec::new(alloc);
    let mut state = 0x9e37_79b9_7f4a_7c15u64;
    for _ in 0..len {
        state = state
            .wrapping_mul(0x5851_f42d_4c95_7f2d)
            .wrapping_add(0x1405_7b7e_f767_814f);
        bytes.push((state >> 56) as u8)?;
    }
    Ok(bytes)
}

// A STREAM frame with FIN, an offset and a length in eight bytes.
fn spelled(alloc: Global, content: &[u8]) -> Result<Vec<u8>, OutOfMemory> {
    let length = 0xc000_0000_0000_0000u64.wrapping_add(content.len() as u64);
    let mut payload = Vec::from_slice(alloc, &[0x0f, 8, 5])?;
    payload.extend_from_slice(&length.to_be_bytes())?;
    payload.extend_from_slice(content)?;
    Ok(payload)
}

fn limits(alloc: Global, count: usize) -> Result<Vec<u8>, OutOfMemory> {
    let mut payload = Vec::new(alloc);
    for _ in 0..count {
        payload.extend_from_slice(&[0x10, 33])?;
    }
    Ok(payload)
}

// How much memory the data of a payload keep that is a single frame and has so much room, and how many bytes lie before
// them in it.
fn kept(alloc: Global, room: usize) -> Result<(usize, usize), Fail> {
    let mut payload = Vec::with_capacity(alloc, room)?;
    put_frame(
        &mut payload,
        0,
        0x0d,
        &[8, 5],
        b"some of the data of a stream",
    )?;
    let mut frames = decoded_whole(alloc, payload)?;
    match frames.pop() {
        Some(Frame::Stream(frame)) => {
            let (memory, before) = frame.bytes.into_parts();
            Ok((memory.capacity(), before))
        }
        _ => Ok((0, 0)),
    }
}

#[test]
fn only_a_payload_with_little_room_is_kept(rt: HostRuntime) -> Result<(), Fail> {
    same(&rt, kept(rt.alloc(), 31)?, (31, 3));
    same(&rt, kept(rt.alloc(), 65_536)?, (28, 0));
    Ok(())
}

// How much room the memory has in which the data of a frame stand, with so many frames behind it, where there was a piece with
// so much room. The payload's own memory is a piece then.
fn reused(
    rt: &impl Abort,
    alloc: Global,
    size: usize,
    behind: usize,
    room: usize,
) -> Result<usize, Fail> {
    let mut memory = PieceMemory::new(alloc, 2);
    memory.put(Vec::with_capacity(alloc, room)?);
    let content = seeded(alloc, size)?;
    let mut payload = written_data(rt, alloc, &data(alloc, 5, &content)?, true)?;
    payload.append(&mut limits(alloc, behind)?)?;
    payload.reserve_exact(2048usize.saturating_sub(payload.len()))?;
    let mut frames = decoded_reusing(&mut memory, payload, Vec::new(alloc))?;
    same(rt, memory.spare().capacity(), 2048);
    same(rt, frames.len(), behind.saturating_add(1));
    frames.truncate(1);
    match frames.pop() {
        Some(Frame::Stream(frame)) => {
            same(rt, frame.bytes.as_slice(), content.as_slice());
            Ok(frame.bytes.into_parts().0.capacity())
        }
        _ => Ok(0),
    }
}

#[test]
fn data_are_put_into_memory_that_is_fit(rt: HostRuntime) -> Result<(), Fail> {
    for (size, behind, room, wanted) in [
        // At most an eighth is free.
        (100, 1, 114, 114),
        (100, 1, 115, 112),
        (100, 1, 99, 112),
        (511, 1, 511, 511),
        (512, 1, 585, 585),
        (512, 1, 586, 512),
        (1000, 1, 1100, 1100),
        // The payload has 105 bytes and two for each frame behind.
        (100, 4, 115, 112),
        (100, 5, 115, 115),
        (1, 55, 117, 1),
        (1, 56, 117, 117),
        // There is room for less than 64 bytes, or for none.
        (63, 1, 63, 63),
        (63, 1, 64, 64),
        (50, 1, 56, 50),
    ] {
        same(&rt, reused(&rt, rt.alloc(), size, behind, room)?, wanted);
    }
    Ok(())
}

// Data of so many bytes are read, lent and given away, and written.
fn pass(rt: &impl Abort, alloc: Global, size: usize) -> Result<(), Fail> {
    let content = seeded(alloc, size)?;
    let data = data(alloc, 5, &content)?;
    let written = written_data(rt, alloc, &data, false)?;
    assert!(rt;
        written.starts_with(&[0x0d, 8, 5]) && written.ends_with(&content),
        "{size} bytes"
    );
    same(rt, written.len(), size.saturating_add(3));
    let wanted = [Frame::Stream(data)];
    let frames = decoded(alloc, &spelled(alloc, &content)?)?;
    assert!(rt; frames.as_slice() == wanted.as_slice(), "{size} bytes");
    let given = decoded_whole(alloc, spelled(alloc, &content)?)?;
    assert!(rt; given.as_slice() == wanted.as_slice(), "{size} bytes");
    Ok(())
}

#[test]
fn no_size_up_to_65537_is_refused(rt: HostRuntime) -> Result<(), Fail> {
    for power in 0..17u32 {
        let middle = 1usize << power;
        for size in [middle.saturating_sub(1), middle, middle.saturating_add(1)] {
            pass(&rt, rt.alloc(), size)?;
            let many = decoded(rt.alloc(), &limits(rt.alloc(), size)?)?;
            same(&rt, many.len(), size);
        }
    }
    Ok(())
}
