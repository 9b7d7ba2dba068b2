//! What is pending, an entry at a time.
use super::frames::id;
use super::subject::nothing_pending;
use quic_streams::{IssuedCid, Retransmits, ThinRetransmits};
use quic_values::{Bytes, OutOfMemory, VarInt};
use quic_wire::frame::{Crypto, StopSending};
use std::alloc::Global;
use std::net::{IpAddr, Ipv4Addr, SocketAddr};

/// One entry of what is pending.
#[derive(Clone, Copy)]
pub enum Entry {
    MaxData,
    DataBlocked,
    /// MAX_STREAMS for bidirectional streams, and for unidirectional ones.
    MaxStreams(bool, bool),
    /// RESET_STREAM for a stream.
    Reset(u32),
    /// STOP_SENDING for a stream.
    Stop(u32),
    /// MAX_STREAM_DATA for a stream.
    Window(u32),
    /// STREAM_DATA_BLOCKED for a stream.
    StreamBlocked(u32),
    Crypto,
    NewId,
    RetiredId,
    AckFrequency,
    HandshakeDone,
    NewToken,
}

// The code of each reset and stop.
fn code() -> VarInt {
    VarInt::from(9u32)
}

fn put_reset(pending: &mut Retransmits, stream: u32) -> Result<(), OutOfMemory> {
    pending.reset_stream.push((id(stream), code()))?;
    Ok(())
}

fn put_stop(pending: &mut Retransmits, stream: u32) -> Result<(), OutOfMemory> {
    let stop = StopSending {
        id: id(stream),
        error_code: code(),
    };
    pending.stop_sending.push(stop)?;
    Ok(())
}

fn put_window(pending: &mut Retransmits, stream: u32) -> Result<(), OutOfMemory> {
    let id = id(stream);
    pending.reserve_window(id)?;
    pending.queue_window(id, true);
    Ok(())
}

fn put_stream_blocked(pending: &mut Retransmits, stream: u32) -> Result<(), OutOfMemory> {
    let id = id(stream);
    pending.reserve_stream_blocked(id)?;
    pending.queue_stream_blocked(id, true);
    Ok(())
}

fn put_crypto(alloc: Global, pending: &mut Retransmits) -> Result<(), OutOfMemory> {
    let crypto = Crypto {
        offset: 0,
        bytes: Bytes::new(alloc),
    };
    pending.crypto.push_back(crypto)?;
    Ok(())
}

fn put_new_id(alloc: Global, pending: &mut Retransmits) -> Result<(), OutOfMemory> {
    let issued = IssuedCid {
        sequence: 0,
        id: Bytes::new(alloc),
        reset_token: [0; 16],
    };
    pending.new_cids.push(issued)?;
    Ok(())
}

fn put_retired_id(pending: &mut Retransmits) -> Result<(), OutOfMemory> {
    pending.retire_cids.push(0)?;
    Ok(())
}

fn put_new_token(pending: &mut Retransmits) -> Result<(), OutOfMemory> {
    let address = SocketAddr::new(IpAddr::V4(Ipv4Addr::from(0x7f00_0001)), 443);
    pending.new_tokens.push(address)?;
    Ok(())
}

// Sets the flag of an entry that is one.
fn set(pending: &mut Retransmits, entry: Entry) {
    match entry {
        Entry::MaxData => pending.max_data = true,
        Entry::DataBlocked => pending.data_blocked = true,
        Entry::MaxStreams(bidirectional, unidirectional) => {
            pending.max_stream_id = [bidirectional, unidirectional];
        }
        Entry::AckFrequency => pending.ack_frequency = true,
        Entry::HandshakeDone => pending.handshake_done = true,
        _ => {}
    }
}

/// Adds an entry.
pub fn put(alloc: Global, pending: &mut Retransmits, entry: Entry) -> Result<(), OutOfMemory> {
    match entry {
        Entry::Reset(stream) => put_reset(pending, stream),
        Entry::Stop(stream) => put_stop(pending, stream),
        Entry::Window(stream) => put_window(pending, stream),
        Entry::StreamBlocked(stream) => put_stream_blocked(pending, stream),
        Entry::Crypto => put_crypto(alloc, pending),
        Entry::NewId => put_new_id(alloc, pending),
        Entry::RetiredId => put_retired_id(pending),
        Entry::NewToken => put_new_token(pending),
        flag => {
            set(pending, flag);
            Ok(())
        }
    }
}

/// A set with these entries and no others.
pub fn pending_of(alloc: Global, entries: &[Entry]) -> Result<Retransmits, OutOfMemory> {
    let mut pending = nothing_pending(alloc);
    for entry in entries {
        put(alloc, &mut pending, *entry)?;
    }
    Ok(pending)
}

/// Makes the set of what was noted, empty.
pub fn create(noted: &mut ThinRetransmits) -> Result<(), OutOfMemory> {
    let _ = noted.get_or_create()?;
    Ok(())
}

/// Adds an entry to what was noted.
pub fn note(alloc: Global, noted: &mut ThinRetransmits, entry: Entry) -> Result<(), OutOfMemory> {
    put(alloc, noted.get_or_create()?, entry)
}
