ghost use Rattle.std.specs.Prelude.{◌≡◌, ◌+◌, ◌%◌, ◌≤◌, ◌<◌, ◌^◌, ◌↔◌, length, IsSome, IfOk};
ghost use Rattle.stream_cases.specs.Arguments.{CanRun};

use quic_values::{Bytes, OutOfMemory};
use std::alloc::Global;

/// The bytes of a piece, and the most that a frame may take.
pub(crate) const PIECE: usize = 1200;

/// The most bytes of content that are taken at once.
pub(crate) const SEGMENT: usize = 65536;

// Content repeats after so many bytes.
const PERIOD: usize = 1 << 20;

// From here on a case is refused.
const SIZE_LIMIT: usize = 1 << 60;

// The bytes at the offsets that this divides are looked at.
const STEP: u64 = 256;

/// What a stream carries.
#[derive(Clone, Copy)]
pub(crate) struct Content<'a> {
    bytes: &'a [u8],
    ghost whole: { 1114112 ≤ length bytes.now },
}

impl<'a> Content<'a> {
    /// The content of a case of this size, or `None` where there is too little of it or the size is too great.
    #[inline]
    pub(crate) fn for_size(size: usize, bytes: &'a [u8]) -> Option<Self>
        ensures { IsSome result ↔ CanRun size (length bytes.now) }
    {
        if size >= SIZE_LIMIT || bytes.len() < PERIOD + SEGMENT {
            return None;
        }
        Some(Content { bytes })
    }

    /// The bytes from an offset on.
    #[inline]
    pub(crate) fn at(self, offset: u64, len: usize) -> &'a [u8]
        requires { len ≤ 65536 }
        ensures { length result.now ≡ len }
    {
        let start = offset as usize % PERIOD;
        &self.bytes[start..start + len]
    }

    /// A copy of the bytes from an offset on.
    #[inline]
    pub(crate) fn piece(self, alloc: Global, offset: u64, len: usize) -> Result<Bytes, OutOfMemory>
        requires { len ≤ 65536 }
        ensures { IfOk result (λ piece. length piece ≡ len) }
    {
        Bytes::copy_from_slice(alloc, self.at(offset, len))
    }
}

/// What was seen of a stream.
#[derive(Clone, Copy, Default)]
pub(crate) struct Seen {
    /// The sum, over the bytes seen at offsets that 256 divides, of one more than the byte times one more than the
    /// offset divided by 256. So the order and the cuts do not matter.
    pub sum: u64,
    /// How many bytes were seen.
    pub bytes: u64,
}

impl Seen {
    /// Sees bytes at an offset.
    #[inline]
    pub(crate) fn see(&mut self, offset: u64, bytes: &[u8])
        ensures { self.new.bytes ≡ (self.old.bytes + length bytes.now) % 2 ^ 64 }
    {
        self.bytes = self.bytes.wrapping_add(bytes.len() as u64);
        self.sum = mix(self.sum, offset, bytes);
    }

    /// Sees bytes that follow those that were seen before.
    #[inline]
    pub(crate) fn see_next(&mut self, bytes: &[u8]) {
        let offset = self.bytes;
        self.see(offset, bytes);
    }
}

// A sum, and what bytes at an offset add to it.
#[inline]
fn mix(sum: u64, offset: u64, bytes: &[u8]) -> u64 {
    let skipped = (offset.wrapping_neg() % STEP) as usize;
    let Some(marked) = bytes.get(skipped..) else {
        return sum;
    };
    let mut sum = sum;
    let mut factor = offset.div_ceil(STEP);
    for block in marked.chunks(STEP as usize) {
        factor = factor.wrapping_add(1);
        if let Some(byte) = block.first() {
            sum = sum.wrapping_add((u64::from(*byte) + 1).wrapping_mul(factor));
        }
    }
    sum
}
