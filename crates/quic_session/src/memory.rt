//! Memory that is used again.

ghost use Rattle.std.specs.Prelude.{◌≡◌, ◌/◌, []};

use crate::lent_bytes::LentBytes;
use quic_assembler::Chunk;
use quic_values::VarInt;
use quic_wire::{Frame, PieceMemory};
use std::alloc::Global;
use std::marker::Model;

// How many frames a list has room for at most, whose memory is kept.
const MOST_KEPT: usize = 64;

/// The memory of a list of frames, which is used again. Contracts see nothing of it, but that it has little room.
#[derive(Drop)]
pub(crate) struct FrameMemory {
    list: Option<Vec<Frame>>,
}

impl Model for FrameMemory {
    ghost use Rattle.std.specs.Prelude.{◌≤◌, IfSome, vec_capacity};

    ghost Value = { Unit {0} };

    ghost view = { λ m. tt };

    ghost invariant = { λ m. IfSome m.list (λ list. vec_capacity list ≤ 64) };
}

impl FrameMemory {
    ghost use Rattle.std.specs.Prelude.{◌≡◌, ◌≤◌, vec_capacity};

    // None.
    pub(crate) fn new() -> Self
        ensures { result ≡ tt }
    {
        FrameMemory { list: None }
    }

    // Takes the list out, which has room for few frames.
    pub(crate) fn take(&mut self, alloc: Global) -> Vec<Frame>
        ensures few { vec_capacity result ≤ 64 }
        ensures same { self.new ≡ self.old }
    {
        match self.list.take() {
            Some(list) => list,
            None => Vec::new(alloc),
        }
    }

    // Puts a list in, if it has room for few frames. The memory of another goes.
    pub(crate) fn put(&mut self, list: Vec<Frame>)
        ensures same { self.new ≡ self.old }
    {
        if list.capacity() <= MOST_KEPT {
            self.list = Some(list);
        }
    }
}

// How many bytes of the receive window stand for a piece that is kept.
const WINDOW_OF_PIECE: u64 = 2048;

// How many pieces of memory are kept of each kind, where so many bytes may be received and not read.
pub(crate) fn pieces_within(window: VarInt) -> usize
    ensures { result ≡ window / 2048 }
{
    (window.into_inner() / WINDOW_OF_PIECE) as usize
}

// The memory of what was lent is put with what is used again. The list has none of it any more.
pub(crate) fn put_lent(pieces: &mut PieceMemory, lent: &mut Vec<LentBytes>)
    ensures none { lent.new.items ≡ [] }
    ensures same { pieces.new ≡ pieces.old }
{
    while let Some(piece) = lent.pop() {
        let LentBytes { memory, .. } = piece;
        pieces.put(memory);
    }
}

// The same of chunks.
pub(crate) fn put_chunks(pieces: &mut PieceMemory, chunks: &mut Vec<Chunk>)
    ensures same { pieces.new ≡ pieces.old }
{
    for chunk in chunks.drain(..) {
        let (piece, _) = chunk.bytes.into_parts();
        pieces.put(piece);
    }
}
