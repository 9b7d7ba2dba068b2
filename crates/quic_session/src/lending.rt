//! Reads whose bytes are lent: they stay in the memory in which they came.

ghost use Rattle.std.specs.Prelude.{◌≡◌, ◌≤◌, ◌+◌, [], length, map, vec_len, vec_capacity, IfOk, OnErr};
ghost use Rattle.quic_session.specs.Users.{users_view};
ghost use Rattle.quic_session.specs.Closing.{touched_by_read};
ghost use Rattle.quic_session.specs.Sessions.{end_of, beside_of};
ghost use Rattle.quic_session.specs.Lending.{lent_bytes, lends_for, ReadsLent};

use crate::application::ReadInto;
use crate::chunks::offset_of_first;
use crate::closing::touch_by_read;
use crate::lent_bytes::LentBytes;
use crate::memory::put_lent;
use crate::session::Session;
use quic_assembler::Chunk;
use quic_receiving::ReadableError;
use quic_values::StreamId;
use std::mem;

impl LentBytes {
    /// How many bytes these are.
    pub fn len(&self) -> usize
        ensures { result ≡ length (lent_bytes self.now) }
    {
        self.memory.len() - self.start
    }
}

impl Session {
    /// Reads the next bytes of a stream in order, of at most `most` chunks as they came, and of at most 64. They are lent:
    /// they stay in their memory, at [`Session::lent_bytes`], until the next call. The answer counts the chunks. One call
    /// may give bytes and tell that they are the last, or that no more are at hand.
    pub fn read_lent(&mut self, id: StreamId, most: usize) -> Result<ReadInto, ReadableError>
        ensures reads { ReadsLent self.old id most result self.new }
        ensures beside { beside_of self.new ≡ beside_of self.old }
        ensures users { IfOk result (λ r. users_view self.new.users ≡ touched_by_read id r.last (users_view self.old.users)) }
        ensures kept { OnErr result (users_view self.new.users ≡ users_view self.old.users) }
    {
        if !self.was_given(id) {
            return Err(ReadableError::ClosedStream);
        }
        self.take_back();
        let times = lends_for(most);
        if self.lent.reserve(times as usize).is_err() {
            return Err(ReadableError::OutOfMemory);
        }
        let list = mem::replace(&mut self.chunks, Vec::new(self.alloc));
        let some = self
            .endpoint
            .read_reusing(id, true, usize::MAX, times, list)?;
        touch_by_read(&mut self.users, id, some.last);
        let offset = offset_of_first(&some.chunks);
        let last = some.last;
        self.chunks = lend_all(some.chunks, &mut self.lent);
        Ok(ReadInto {
            count: self.lent.len(),
            offset,
            last,
        })
    }

    /// What the last read lent.
    pub fn lent_bytes(&self) -> &[LentBytes]
        ensures { result.now ≡ self.now.lent.items }
    {
        self.lent.as_slice()
    }

    // The memory of what was lent is used again, and nothing is lent any more.
    fn take_back(&mut self)
        ensures none { self.new.lent.items ≡ [] }
        ensures end { end_of self.new ≡ end_of self.old }
        ensures beside { beside_of self.new ≡ beside_of self.old }
        ensures users { self.new.users ≡ self.old.users }
    {
        put_lent(&mut self.pieces, &mut self.lent);
    }
}

// How many chunks are asked for at most, where so many may be lent.
fn lends_for(most: usize) -> u16
    ensures { result ≡ lends_for most }
{
    most.min(64) as u16
}

// Chunks are put into a list of what is lent, which has room for them. Gives the memory of their own list.
fn lend_all(chunks: Vec<Chunk>, lent: &mut Vec<LentBytes>) -> Vec<Chunk>
    requires none { lent.old.items ≡ [] }
    requires room { vec_len lent.old + vec_len chunks ≤ vec_capacity lent.old }
    ensures { map lent_bytes lent.new.items ≡ map (λ c. c.bytes) chunks.items }
{
    let mut list = chunks;
    for chunk in list.drain(..) {
        let (memory, start) = chunk.bytes.into_parts();
        lent.push_reserved(LentBytes { memory, start });
    }
    list
}
