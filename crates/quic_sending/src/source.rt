ghost use Rattle.std.specs.Prelude.{◌≡◌, ◌+◌, ◌-◌, ◌≤◌, ◌<◌, ◌^◌, ℕ, List, [], ◌∷◌, length, take, drop, replicate, IfOk, OnOk, OnErr, vec_len};
ghost use Rattle.quic_sending.specs.Source.{AreFrontOf, popped, after_pop, cut_piece, drop_empty, slice_lists};

use quic_values::{Bytes, OutOfMemory};
use std::alloc::Global;
use std::mem;

/// Bytes that are about to be written, taken out one piece after the other. Memory is asked for by
/// `prepare`, so that no piece is taken out where it is refused.
pub trait BytesSource {
    // The lists of bytes that are left.
    ghost lists: { Self → List (List ℕ) };

    // How many bytes can be taken out without memory.
    ghost ready: { Self → ℕ };

    // The name of the borrow that the lists lie behind, and how many there were at first.
    ghost borrow: { Self → ℕ };

    ghost list_count: { Self → ℕ };

    /// Makes room to take out the first `limit` bytes. Answers a bound on their pieces. Nothing is
    /// taken out. Where memory is refused, what was prepared before is prepared as before.
    fn prepare(&mut self, limit: usize) -> Result<usize, OutOfMemory>
        ensures same { lists self.new ≡ lists self.old }
        ensures borrow { borrow self.new ≡ borrow self.old }
        ensures list_count { list_count self.new ≡ list_count self.old }
        ensures few { length (lists self.old) < 2 ^ 64 }
        ensures count { IfOk result (λ k. (pieces : List (List ℕ)) →
            AreFrontOf limit (lists self.old) pieces → length pieces ≤ k) }
        ensures ready { OnOk result (ready self.new ≡ limit) }
        ensures err { OnErr result (ready self.new ≡ ready self.old) };

    /// Takes out the first piece, of at most `limit` bytes: what is left of the number that was
    /// prepared. It is empty only where that is 0 or nothing is left. Answers with it how many
    /// lists have come to their end.
    fn pop_chunk(&mut self, limit: usize) -> (Bytes, usize)
        requires { limit ≡ ready self.old }
        ensures piece { result.0 ≡ popped limit (lists self.old) }
        ensures left { lists self.new ≡ after_pop limit (lists self.old) }
        ensures borrow { borrow self.new ≡ borrow self.old }
        ensures list_count { list_count self.new ≡ list_count self.old }
        ensures count { result.1 + length (lists self.new) ≡ length (lists self.old) }
        ensures ready { ready self.new + length (popped limit (lists self.old)) ≡ limit };
}

/// A slice, of which `prepare` copies as much as is to be taken out.
#[derive(Drop)]
pub struct ByteSlice<'a> {
    bytes: &'a [u8],
    copied: Bytes,
    ready: usize,
    alloc: Global,
    ghost is_copied: { copied ≡ take ready bytes.now },
}

impl<'a> ByteSlice<'a> {
    /// All bytes of a slice. Takes no memory.
    #[inline]
    pub fn from_slice(alloc: Global, bytes: &'a [u8]) -> Self
        ensures { ⟦<ByteSlice<'a> as BytesSource>⟧.lists result ≡ slice_lists bytes.now }
    {
        ByteSlice {
            bytes,
            copied: Bytes::new(alloc),
            ready: 0,
            alloc,
        }
    }
}

impl BytesSource for ByteSlice<'_> {
    ghost lists = { λ s. slice_lists s.bytes.now };

    ghost ready = { λ s. s.ready };

    // Nothing is changed behind a shared borrow.
    ghost borrow = { λ _. 0 };

    ghost list_count = { λ _. 0 };

    #[inline]
    fn prepare(&mut self, limit: usize) -> Result<usize, OutOfMemory> {
        let len = limit.min(self.bytes.len());
        let copied = Bytes::copy_from_slice(self.alloc, &self.bytes[..len])?;
        self.copied = copied;
        self.ready = limit;
        Ok(1)
    }

    #[inline]
    fn pop_chunk(&mut self, limit: usize) -> (Bytes, usize) {
        let copied = mem::replace(&mut self.copied, Bytes::new(self.alloc));
        let len = copied.len();
        let ends = len != 0 && len == self.bytes.len();
        self.bytes = &self.bytes[len..];
        self.ready = limit - len;
        (copied, usize::from(ends))
    }
}

/// Chunks of bytes that are taken whole, without a copy. Of the last one a part may be taken: that
/// is copied by `prepare`, and the chunk keeps its rest. A chunk that was taken is empty from then on.
///
/// The copy lies in a place that the caller lends: so a source owns no memory, and what is left in the
/// chunks is known once it is gone.
#[derive(Drop)]
pub struct BytesArray<'a> {
    chunks: &'a mut [Bytes],
    // How many chunks were taken whole. They are empty now.
    consumed: usize,
    // The piece that will be cut off.
    part: &'a mut Bytes,
    ready: usize,
    alloc: Global,
    ghost in_range: { consumed ≤ length chunks.now },
    ghost taken: { take consumed chunks.now ≡ replicate consumed [] },
    ghost is_part: { part.now ≡ cut_piece ready (drop consumed chunks.now) },
}

impl<'a> BytesArray<'a> {
    /// All bytes of these chunks. What `part` holds is let go. Takes no memory.
    #[inline]
    pub fn from_chunks(alloc: Global, chunks: &'a mut [Bytes], part: &'a mut Bytes) -> Self
        ensures lists { ⟦<BytesArray<'a> as BytesSource>⟧.lists result ≡ chunks.entry.now }
        ensures borrow { ⟦<BytesArray<'a> as BytesSource>⟧.borrow result ≡ chunks.entry.ghost_name }
        ensures list_count { ⟦<BytesArray<'a> as BytesSource>⟧.list_count result ≡ length chunks.entry.now }
    {
        *part = Bytes::new(alloc);
        BytesArray {
            chunks,
            consumed: 0,
            part,
            ready: 0,
            alloc,
        }
    }
}

impl BytesSource for BytesArray<'_> {
    ghost lists = { λ s. drop s.consumed s.chunks.now };

    ghost ready = { λ s. s.ready };

    ghost borrow = { λ s. s.chunks.ghost_name };

    ghost list_count = { λ s. length s.chunks.now };

    fn prepare(&mut self, limit: usize) -> Result<usize, OutOfMemory> {
        let chunks = &mut *self.chunks;
        let (count, part) = prepare_chunks(self.alloc, chunks, self.consumed, limit)?;
        *self.part = part;
        self.ready = limit;
        Ok(count)
    }

    fn pop_chunk(&mut self, limit: usize) -> (Bytes, usize) {
        let chunks = &mut *self.chunks;
        let ended = count_empty(chunks, self.consumed);
        self.consumed += ended;
        if self.consumed == chunks.len() {
            self.ready = limit;
            return (Bytes::new(self.alloc), ended);
        }
        let chunk = &mut chunks[self.consumed];
        if limit < chunk.len() {
            chunk.advance(limit);
            self.ready = 0;
            return (mem::replace(self.part, Bytes::new(self.alloc)), ended);
        }
        let whole = mem::replace(chunk, Bytes::new(self.alloc));
        self.consumed += 1;
        self.ready = limit - whole.len();
        (whole, ended + 1)
    }
}

// How many chunks from `from` on are empty, up to the first that is not.
#[inline]
fn count_empty(chunks: &[Bytes], from: usize) -> usize
    requires { from ≤ length chunks.now }
    ensures within { from + result ≤ length chunks.now }
    ensures left { drop_empty (drop from chunks.now) ≡ drop (from + result) chunks.now }
{
    let mut count = 0;
    while from + count < chunks.len() && chunks[from + count].is_empty() {
        count += 1;
    }
    count
}

// How many pieces the first `limit` bytes from a chunk on have, and a copy of the last one where it
// is a part of its chunk.
fn prepare_chunks(
    alloc: Global,
    chunks: &[Bytes],
    from: usize,
    limit: usize,
) -> Result<(usize, Bytes), OutOfMemory>
    requires { from ≤ length chunks.now }
    ensures count { IfOk result (λ r. (pieces : List (List ℕ)) →
        AreFrontOf limit (drop from chunks.now) pieces → r.0 ≡ length pieces) }
    ensures part { IfOk result (λ r. r.1 ≡ cut_piece limit (drop from chunks.now)) }
{
    let mut count = 0;
    let mut left = limit;
    let mut at = from;
    while at < chunks.len() {
        let chunk = &chunks[at];
        if left < chunk.len() {
            let part = Bytes::copy_from_slice(alloc, &chunk.as_slice()[..left])?;
            return Ok((count + usize::from(left != 0), part));
        }
        count += usize::from(!chunk.is_empty());
        left -= chunk.len();
        at += 1;
    }
    Ok((count, Bytes::new(alloc)))
}
