//! Reads of several chunks in one call.

ghost use Rattle.std.specs.Prelude.{◌≡◌, ◌≤◌, ◌+◌, ◌++◌, length, take, drop, IfOk, OnErr};
ghost use Rattle.quic_history.specs.Reading.{bytes_in};
ghost use Rattle.quic_session.specs.Users.{users_view};
ghost use Rattle.quic_session.specs.Closing.{touched_by_read};
ghost use Rattle.quic_session.specs.Sessions.{beside_of};
ghost use Rattle.quic_session.specs.Reading.{chunk_bytes, offset_of_first, chunks_for, ReadsManyInto};

use crate::application::ReadInto;
use crate::closing::touch_by_read;
use crate::memory;
use crate::session::Session;
use quic_assembler::Chunk;
use quic_receiving::ReadableError;
use quic_values::StreamId;
use std::mem;

impl Session {
    /// Reads the next bytes of a stream in order, of several chunks as they came, and puts them into `out`. One call may
    /// give bytes and tell that they are the last, or that no more are at hand.
    pub fn read_many(&mut self, id: StreamId, out: &mut [u8]) -> Result<ReadInto, ReadableError>
        ensures reads { ReadsManyInto self.old id out.old result self.new out.new }
        ensures beside { beside_of self.new ≡ beside_of self.old }
        ensures users { IfOk result (λ r. users_view self.new.users ≡ touched_by_read id r.last (users_view self.old.users)) }
        ensures kept { OnErr result (users_view self.new.users ≡ users_view self.old.users) }
    {
        if !self.was_given(id) {
            return Err(ReadableError::ClosedStream);
        }
        let list = mem::replace(&mut self.chunks, Vec::new(self.alloc));
        let times = chunks_for(out.len());
        let share = out.len() / times as usize;
        let some = self.endpoint.read_reusing(id, true, share, times, list)?;
        touch_by_read(&mut self.users, id, some.last);
        let count = put_chunks(&some.chunks, out);
        let offset = offset_of_first(&some.chunks);
        let last = some.last;
        let mut list = some.chunks;
        memory::put_chunks(&mut self.pieces, &mut list);
        self.chunks = list;
        Ok(ReadInto {
            count,
            offset,
            last,
        })
    }
}

// How many chunks are asked for at most, for a buffer of so many bytes.
fn chunks_for(size: usize) -> u16
    ensures { result ≡ chunks_for size }
{
    (size / 2048).min(64).max(1) as u16
}

// Puts chunks into a buffer, one behind another. Says how many bytes they have.
fn put_chunks(chunks: &[Chunk], out: &mut [u8]) -> usize
    requires { bytes_in chunks.now ≤ length out.old }
    ensures count { result ≡ bytes_in chunks.now }
    ensures copied { out.new ≡ chunk_bytes chunks.now ++ drop result out.old }
{
    let mut count: usize = 0;
    for chunk in chunks {
        put_at(out, count, chunk.bytes.as_slice());
        count += chunk.bytes.len();
    }
    count
}

// Writes bytes over those from an index on.
fn put_at(out: &mut [u8], at: usize, bytes: &[u8])
    requires { at + length bytes.now ≤ length out.old }
    ensures { out.new ≡ take at out.old ++ (bytes.now ++ drop (at + length bytes.now) out.old) }
{
    out[at..at + bytes.len()].copy_from_slice(bytes);
}

// Where the first of some chunks stands in the stream.
pub(crate) fn offset_of_first(chunks: &[Chunk]) -> u64
    ensures { result ≡ offset_of_first chunks.now }
{
    match chunks.first() {
        Some(chunk) => chunk.offset,
        None => 0,
    }
}
