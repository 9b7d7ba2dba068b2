//! Frames as they are drawn: all but their bytes.

use quic_values::{Dir, OutOfMemory, StreamId, VarInt};
use quic_wire::Frame;
use quic_wire::frame::{ResetStream, StopSending, StreamMeta};

/// A frame of the peer, without the bytes that it carries.
#[derive(Clone, Copy, Debug)]
pub enum Arrival {
    Data(Part),
    Reset { id: StreamId, size: u64 },
    StopSending(StreamId),
    MaxData(u64),
    MaxStreamData { id: StreamId, limit: u64 },
    MaxStreams { dir: Dir, count: u64 },
    DataBlocked(u64),
    StreamDataBlocked { id: StreamId, limit: u64 },
    // How many bytes it has.
    Datagram(u16),
}

/// So many bytes of a stream, from an offset on.
#[derive(Clone, Copy, Debug)]
pub struct Part {
    pub id: StreamId,
    pub offset: u64,
    pub count: u16,
    pub fin: bool,
}

impl Part {
    /// The offset behind the last byte.
    pub fn end(&self) -> u64 {
        self.offset.saturating_add(u64::from(self.count))
    }
}

/// The greatest number that a frame can carry (RFC 9000 section 16).
pub const GREATEST: u64 = (1 << 62) - 1;

/// A number as a variable-length integer, the greatest one if it is too great.
pub fn var_int(number: u64) -> VarInt {
    VarInt::from_u64(number).unwrap_or(VarInt::MAX)
}

/// The byte of each stream at an offset.
pub fn byte_at(offset: u64) -> u8 {
    (offset % 251) as u8
}

// Appends the bytes of a stream from an offset on.
fn put_bytes(offset: u64, count: u16, payload: &mut Vec<u8>) -> Result<(), OutOfMemory> {
    for place in 0..u64::from(count) {
        payload.push(byte_at(offset.wrapping_add(place)))?;
    }
    Ok(())
}

// Appends a STREAM frame, with the length of its data or without.
fn put_data(part: &Part, with_length: bool, payload: &mut Vec<u8>) -> Result<(), OutOfMemory> {
    let start = var_int(part.offset).into_inner();
    let meta = StreamMeta {
        id: part.id,
        offsets: start..start + u64::from(part.count),
        fin: part.fin,
    };
    meta.encode(with_length, payload)?;
    put_bytes(start, part.count, payload)
}

// Appends a DATAGRAM frame (RFC 9221 section 4).
fn put_datagram(count: u16, with_length: bool, payload: &mut Vec<u8>) -> Result<(), OutOfMemory> {
    if with_length {
        payload.push(0x31)?;
        VarInt::from(u32::from(count)).encode(payload)?;
    } else {
        payload.push(0x30)?;
    }
    put_bytes(0, count, payload)
}

impl Arrival {
    /// The stream that the frame names, if it names one.
    pub fn named(&self) -> Option<StreamId> {
        match self {
            Arrival::Data(part) => Some(part.id),
            Arrival::Reset { id, .. } => Some(*id),
            Arrival::StopSending(id) => Some(*id),
            Arrival::MaxStreamData { id, .. } => Some(*id),
            Arrival::StreamDataBlocked { id, .. } => Some(*id),
            _ => None,
        }
    }

    /// Appends the frame with its bytes. Those at the end of a payload may stand there without their length.
    pub fn encode(&self, with_length: bool, payload: &mut Vec<u8>) -> Result<(), OutOfMemory> {
        let error_code = VarInt::from(7u32);
        match self {
            Arrival::Data(part) => put_data(part, with_length, payload),
            Arrival::Datagram(count) => put_datagram(*count, with_length, payload),
            Arrival::Reset { id, size } => {
                let final_offset = var_int(*size);
                let frame = ResetStream {
                    id: *id,
                    error_code,
                    final_offset,
                };
                frame.encode(payload)
            }
            Arrival::StopSending(id) => {
                let id = *id;
                StopSending { id, error_code }.encode(payload)
            }
            _ => self.encode_limit(payload),
        }
    }

    // Appends a frame that carries a limit.
    fn encode_limit(&self, payload: &mut Vec<u8>) -> Result<(), OutOfMemory> {
        match self {
            Arrival::MaxData(limit) => Frame::MaxData(var_int(*limit)).encode(payload),
            Arrival::MaxStreamData { id, limit } => {
                let (id, offset) = (*id, var_int(*limit).into_inner());
                Frame::MaxStreamData { id, offset }.encode(payload)
            }
            Arrival::MaxStreams { dir, count } => {
                let (dir, count) = (*dir, var_int(*count).into_inner());
                Frame::MaxStreams { dir, count }.encode(payload)
            }
            Arrival::DataBlocked(limit) => {
                let offset = var_int(*limit).into_inner();
                Frame::DataBlocked { offset }.encode(payload)
            }
            Arrival::StreamDataBlocked { id, limit } => {
                let (id, offset) = (*id, var_int(*limit).into_inner());
                Frame::StreamDataBlocked { id, offset }.encode(payload)
            }
            _ => Ok(()),
        }
    }
}
