// The two bodies, as a test sees them.
ghost use Rattle.std.specs.Prelude.{◌+◌, ◌<◌, ◌≤◌, ◌^◌, length};

use quic_ordered::{Assembler, Chunk, EnsureError, HeapAssembler, InsertError};
use quic_values::{Bytes, OutOfMemory};
use std::alloc::Global;

// The calls, with nothing of what they promise: a test looks at what they answer and leave.
pub(super) trait Body {
    fn made(alloc: Global) -> Self;

    fn take_piece(
        &mut self,
        offset: u64,
        bytes: Bytes,
        allocation_size: usize,
    ) -> Result<(), InsertError>
        requires fits { offset + length bytes < 2 ^ 62 }
        requires allocated { length bytes ≤ allocation_size };

    // Asks for a mode, and reads in it.
    fn next(&mut self, max_length: usize, ordered: bool) -> Result<Option<Chunk>, EnsureError>;

    fn ask_for(&mut self, ordered: bool) -> Result<(), EnsureError>;

    fn compact(&mut self) -> Result<(), OutOfMemory>;

    fn held(&self) -> usize;

    fn bytes_given(&self) -> u64;
}

impl Body for HeapAssembler {
    fn made(alloc: Global) -> Self {
        HeapAssembler::new(alloc)
    }

    fn take_piece(
        &mut self,
        offset: u64,
        bytes: Bytes,
        allocation_size: usize,
    ) -> Result<(), InsertError> {
        self.insert(offset, bytes, allocation_size)
    }

    fn next(&mut self, max_length: usize, ordered: bool) -> Result<Option<Chunk>, EnsureError> {
        self.ensure_ordering(ordered)?;
        Ok(self.read(max_length, ordered)?)
    }

    fn ask_for(&mut self, ordered: bool) -> Result<(), EnsureError> {
        self.ensure_ordering(ordered)
    }

    fn compact(&mut self) -> Result<(), OutOfMemory> {
        self.defragment()
    }

    fn held(&self) -> usize {
        self.pieces()
    }

    fn bytes_given(&self) -> u64 {
        self.bytes_read()
    }
}

impl Body for Assembler {
    fn made(alloc: Global) -> Self {
        Assembler::new(alloc)
    }

    fn take_piece(
        &mut self,
        offset: u64,
        bytes: Bytes,
        allocation_size: usize,
    ) -> Result<(), InsertError> {
        self.insert(offset, bytes, allocation_size)
    }

    fn next(&mut self, max_length: usize, ordered: bool) -> Result<Option<Chunk>, EnsureError> {
        self.ensure_ordering(ordered)?;
        Ok(self.read(max_length, ordered)?)
    }

    fn ask_for(&mut self, ordered: bool) -> Result<(), EnsureError> {
        self.ensure_ordering(ordered)
    }

    fn compact(&mut self) -> Result<(), OutOfMemory> {
        self.defragment()
    }

    fn held(&self) -> usize {
        self.pieces()
    }

    fn bytes_given(&self) -> u64 {
        self.bytes_read()
    }
}
