ghost use Rattle.std.specs.Prelude.{◌≡◌, ◌==◌, ◌≤◌, ◌++◌, [], length, take, drop, vec_len, IfOk, OnErr, OnOk};

use crate::memory::OutOfMemory;
use std::alloc::Global;
use std::fmt;
use std::marker::Model;

/// Bytes that belong to one owner. The front can be let go in constant time.
#[derive(Drop)]
pub struct Bytes {
    content: Vec<u8>,
    // The bytes below this index were let go.
    start: usize,
}

impl Model for Bytes {
    ghost use Rattle.std.specs.Prelude.{List, ℕ, ◌≤◌, drop, vec_len};

    ghost Value = { List ℕ };

    ghost view = { λ b. drop b.start b.content.items };

    ghost invariant = { λ b. b.start ≤ vec_len b.content };
}

impl Bytes {
    /// No bytes. Takes no memory.
    pub fn new(alloc: Global) -> Self
        ensures { result ≡ [] }
    {
        Bytes {
            content: Vec::new(alloc),
            start: 0,
        }
    }

    /// A copy of a slice.
    pub fn copy_from_slice(alloc: Global, bytes: &[u8]) -> Result<Self, OutOfMemory>
        ensures { IfOk result (λ copy. copy ≡ bytes.now) }
    {
        Ok(Bytes {
            content: Vec::from_slice(alloc, bytes)?,
            start: 0,
        })
    }

    /// A copy of all bytes.
    pub fn try_clone(&self) -> Result<Self, OutOfMemory>
        ensures { IfOk result (λ copy. copy ≡ self.now) }
    {
        let alloc = *self.content.allocator();
        Bytes::copy_from_slice(alloc, self.as_slice())
    }

    /// How many bytes there are.
    #[inline]
    pub fn len(&self) -> usize
        ensures { result ≡ length self.now }
    {
        self.content.len() - self.start
    }

    #[inline]
    pub fn is_empty(&self) -> bool
        ensures { result ≡ (length self.now == 0) }
    {
        self.content.len() == self.start
    }

    #[inline]
    pub fn as_slice(&self) -> &[u8]
        ensures { result.now ≡ self.now }
    {
        &self.content.as_slice()[self.start..]
    }

    /// Lets the first `count` bytes go. None of the others moves.
    #[inline]
    pub fn advance(&mut self, count: usize)
        requires { count ≤ length self.old }
        ensures { self.new ≡ drop count self.old }
    {
        self.start += count;
    }

    /// Takes a copy of the first `count` bytes, which are then let go. If refused, all is as it was.
    pub fn split_to(&mut self, count: usize) -> Result<Bytes, OutOfMemory>
        requires { count ≤ length self.old }
        ensures front { IfOk result (λ front. front ≡ take count self.old) }
        ensures rest { OnOk result (self.new ≡ drop count self.old) }
        ensures err { OnErr result (self.new ≡ self.old) }
    {
        let alloc = *self.content.allocator();
        let front = Bytes::copy_from_slice(alloc, &self.as_slice()[..count])?;
        self.advance(count);
        Ok(front)
    }

    /// Appends a copy of a slice. If refused, all is as it was.
    pub fn extend_from_slice(&mut self, more: &[u8]) -> Result<(), OutOfMemory>
        ensures ok { OnOk result (self.new ≡ self.old ++ more.now) }
        ensures err { OnErr result (self.new ≡ self.old) }
    {
        self.content.extend_from_slice(more)?;
        Ok(())
    }

    /// The vector, and how many bytes at its front were let go. Nothing is moved.
    #[inline(always)]
    pub fn into_parts(self) -> (Vec<u8>, usize)
        ensures rest { drop result.1 result.0.items ≡ self }
        ensures within { result.1 ≤ vec_len result.0 }
    {
        let Bytes { content, start } = self;
        (content, start)
    }

    /// Gives the vector back, without memory. What was let go is moved out of it first.
    #[inline(always)]
    pub fn into_vec(self) -> Vec<u8>
        ensures { result.items ≡ self }
    {
        let (content, start) = self.into_parts();
        if start == 0 {
            return content;
        }
        without_front(content, start)
    }
}

// What is behind so many bytes, moved to the front.
#[inline(never)]
fn without_front(content: Vec<u8>, count: usize) -> Vec<u8>
    requires { count ≤ vec_len content }
    ensures { result.items ≡ drop count content.items }
{
    let mut content = content;
    content.drain(..count);
    content
}

impl From<Vec<u8>> for Bytes {
    ghost from_gives = { λ content bytes. bytes ≡ content.items };

    #[inline]
    fn from(content: Vec<u8>) -> Self {
        Bytes { content, start: 0 }
    }
}

impl PartialEq for Bytes {
    ghost use Rattle.std.specs.Prelude.{◌==◌};
    ghost use Rattle.std.specs.Cmp.Lexicographic.{pointwise};
    ghost use Rattle.std.proofs.Common.{rules};
    ghost use Rattle.std.specs.Cmp.Rules.{comparing};

    ghost eq = { λ x y. pointwise ◌==◌ x y };

    ghost laws = { Prim.search (comparing, rules) };

    fn eq(&self, other: &Self) -> bool {
        self.as_slice() == other.as_slice()
    }
}

impl Eq for Bytes {
    ghost use Rattle.std.proofs.Common.{rules};
    ghost use Rattle.std.specs.Cmp.Rules.{comparing};

    ghost laws = { Prim.search (comparing, rules) };
}

impl fmt::Debug for Bytes {
    fn fmt<W: fmt::Write>(&self, f: &mut fmt::Formatter<W>) -> fmt::Result {
        let bytes = self.as_slice();
        write!(f, "{bytes:?}")
    }
}
