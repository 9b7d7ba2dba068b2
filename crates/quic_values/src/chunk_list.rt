ghost use Rattle.std.specs.Prelude.{◌≡◌, ◌==◌, ◌≤◌, ◌<◌, ◌+◌, ◌++◌, [], ◌∷◌, length, slice_get, Some, IfOk, IfSome, IfNone, OnErr, OnOk};
ghost use Rattle.std.specs.List.{slice_range};

use crate::memory::OutOfMemory;
use std::alloc::Global;
use std::fmt;
use std::marker::Model;

/// Chunks of bytes, which stand one behind the other: beside its bytes, a chunk takes the four bytes
/// of a number, or eight where the chunks up to its end have 2^32 bytes and more.
#[derive(Drop)]
pub struct ChunkList {
    content: Vec<u8>,
    // Where the chunks end in the content, as long as that is below 2^32.
    low_ends: Vec<u32>,
    // Where the others end.
    high_ends: Vec<u64>,
}

impl Model for ChunkList {
    ghost use Rattle.std.specs.Prelude.{List, ℕ, ◌≡◌, ◌<◌, ◌++◌, ◌^◌, vec_len};
    ghost use Rattle.quic_values.specs.Chunks.{parted_at, ReachesFrom};

    ghost Value = { List (List ℕ) };

    ghost view = { λ c. parted_at 0 c.content.items (c.low_ends.items ++ c.high_ends.items) };

    ghost invariant = { λ c. ReachesFrom 0 (c.low_ends.items ++ c.high_ends.items) (vec_len c.content) × (vec_len c.content < 2 ^ 32 → vec_len c.high_ends ≡ 0) };
}

// Where the chunk of this index ends.
fn end_of(low_ends: &[u32], high_ends: &[u64], index: usize) -> Option<usize>
    ensures found { IfSome result (λ end. slice_get (low_ends.now ++ high_ends.now) index ≡ Some end) }
    ensures none { IfNone result (length low_ends.now + length high_ends.now ≤ index) }
{
    match low_ends.get(index) {
        Some(end) => Some(*end as usize),
        None => {
            let end = high_ends.get(index - low_ends.len())?;
            Some(*end as usize)
        }
    }
}

// Where the chunk of this index begins.
fn start_of(low_ends: &[u32], high_ends: &[u64], index: usize) -> Option<usize>
    ensures found { IfSome result (λ start. slice_get (0 ∷ (low_ends.now ++ high_ends.now)) index ≡ Some start) }
    ensures none { IfNone result (length low_ends.now + length high_ends.now < index) }
{
    match index {
        0 => Some(0),
        _ => end_of(low_ends, high_ends, index - 1),
    }
}

// The bytes between two offsets.
fn part_of(content: &[u8], start: usize, end: usize) -> &[u8]
    requires order { start ≤ end }
    requires within { end ≤ length content.now }
    ensures { result.now ≡ slice_range content.now start end }
{
    &content[start..end]
}

impl ChunkList {
    /// No chunks. Takes no memory.
    pub fn new(alloc: Global) -> Self
        ensures { result ≡ [] }
    {
        ChunkList {
            content: Vec::new(alloc),
            low_ends: Vec::new(alloc),
            high_ends: Vec::new(alloc),
        }
    }

    /// No chunks, and room for so many of so many bytes together.
    pub fn with_capacity(alloc: Global, chunks: usize, bytes: usize) -> Result<Self, OutOfMemory>
        ensures { IfOk result (λ list. list ≡ []) }
    {
        Ok(ChunkList {
            content: Vec::with_capacity(alloc, bytes)?,
            low_ends: Vec::with_capacity(alloc, chunks)?,
            high_ends: Vec::new(alloc),
        })
    }

    /// How many chunks there are.
    pub fn len(&self) -> usize
        ensures { result ≡ length self.now }
    {
        self.low_ends.len() + self.high_ends.len()
    }

    #[inline]
    pub fn is_empty(&self) -> bool
        ensures { result ≡ (length self.now == 0) }
    {
        self.len() == 0
    }

    /// The bytes of the chunk of this index, none where there is no such chunk.
    pub fn get(&self, index: usize) -> Option<&[u8]>
        ensures chunk { IfSome result (λ chunk. slice_get self.now index ≡ Some chunk.now) }
        ensures none { IfNone result (length self.now ≤ index) }
    {
        let Some(end) = end_of(&self.low_ends, &self.high_ends, index) else {
            return None;
        };
        let Some(start) = start_of(&self.low_ends, &self.high_ends, index) else {
            return None;
        };
        Some(part_of(&self.content, start, end))
    }

    /// Puts a copy of a chunk behind the others. If refused, all is as it was.
    pub fn push(&mut self, chunk: &[u8]) -> Result<(), OutOfMemory>
        ensures ok { OnOk result (self.new ≡ self.old ++ chunk.now ∷ []) }
        ensures err { OnErr result (self.new ≡ self.old) }
    {
        let end = self.content.len() as u64 + chunk.len() as u64;
        if end <= u64::from(u32::MAX) {
            self.low_ends.reserve(1)?;
            self.content.extend_from_slice(chunk)?;
            match self.low_ends.push(end as u32) {
                Ok(()) => Ok(()),
                Err(_) => unreachable!(),
            }
        } else {
            self.high_ends.reserve(1)?;
            self.content.extend_from_slice(chunk)?;
            match self.high_ends.push(end) {
                Ok(()) => Ok(()),
                Err(_) => unreachable!(),
            }
        }
    }
}

impl PartialEq for ChunkList {
    ghost use Rattle.std.specs.Prelude.{◌==◌};
    ghost use Rattle.std.specs.Cmp.Lexicographic.{pointwise};
    ghost use Rattle.std.proofs.Common.{rules};
    ghost use Rattle.std.specs.Cmp.Rules.{comparing};

    ghost eq = { λ x y. pointwise (pointwise ◌==◌) x y };

    ghost laws = { Prim.search (comparing, rules) };

    fn eq(&self, other: &Self) -> bool {
        if self.len() != other.len() {
            return false;
        }
        for index in 0..self.len() {
            if self.get(index) != other.get(index) {
                return false;
            }
        }
        true
    }
}

impl Eq for ChunkList {
    ghost use Rattle.std.proofs.Common.{rules};
    ghost use Rattle.std.specs.Cmp.Rules.{comparing};

    ghost laws = { Prim.search (comparing, rules) };
}

impl fmt::Debug for ChunkList {
    fn fmt<W: fmt::Write>(&self, f: &mut fmt::Formatter<W>) -> fmt::Result {
        let mut list = f.debug_list();
        for index in 0..self.len() {
            if let Some(chunk) = self.get(index) {
                list.entry(&chunk);
            }
        }
        list.finish()
    }
}
