// Pieces in a row, without what an earlier one has, and small ones joined.
ghost use Rattle.std.specs.Prelude.{◌≡◌, ℕ, ◌+◌, ◌-◌, ◌^◌, ◌<◌, ◌≤◌, ◌⊎◌, true, false, [], ◌∷◌, ◌++◌, length, max, min, reverse, IfOk, OnOk, OnErr, vec_len, IsTrue};
ghost use Rattle.std.specs.List.{Any, All};
ghost use Rattle.std.specs.List.Sorted.{IsPermutation};
ghost use Rattle.quic_assembler.specs.Piece.{PieceView, IsSome, RunHolds, run_end, cut_at, covers, cover_count};
ghost use Rattle.quic_assembler.specs.Compact.{Rises, stays, is_joined, first_offset, seen, parts_where, slots, Adds, AddsSeen, AddsPart, IsTight, with_run};

use super::Pieces;
use crate::piece::Piece;
use quic_values::{Bytes, OutOfMemory};
use std::alloc::Global;
use std::mem;

// Puts a piece behind the others, unless it is empty.
fn push_some(copies: &mut Vec<Piece>, piece: Piece) -> Result<(), OutOfMemory>
    ensures { OnOk result (IsPermutation (with_run piece copies.old.items) copies.new.items) }
{
    if piece.len() > 0 {
        copies.push(piece)?;
    }
    Ok(())
}

// Puts a copy of the bytes of a piece from `start` on behind those that are being joined. Where the two do not touch,
// what was joined goes to the copies, and joining starts anew.
fn join(
    joined: &mut Piece,
    piece: &Piece,
    start: u64,
    alloc: Global,
    copies: &mut Vec<Piece>,
) -> Result<(), OutOfMemory>
    requires from { piece.now.offset ≤ start }
    requires to { start < run_end piece.now }
    requires tight { All IsTight (joined.old ∷ copies.old.items) }
    ensures adds { OnOk result (Adds (cut_at start piece.now) (joined.old ∷ copies.old.items) (joined.new ∷ copies.new.items)) }
    ensures tight { OnOk result (All IsTight (joined.new ∷ copies.new.items)) }
    ensures some { OnOk result (All IsSome copies.old.items → All IsSome copies.new.items) }
    ensures len { OnOk result (slots joined.new copies.new.items ≤ slots joined.old copies.old.items + 1) }
{
    let more = piece.bytes_from(start);
    if joined.end() == start {
        joined.extend(more)?;
        return Ok(());
    }
    let bytes = Bytes::copy_from_slice(alloc, more)?;
    let next = Piece::joined(start, bytes, piece.sequence());
    let done = mem::replace(joined, next);
    push_some(copies, done)?;
    Ok(())
}

// Joins what is seen of a piece that does not stay. Answers where the next may begin.
fn join_next(
    joined: &mut Piece,
    piece: &Piece,
    next: Option<u64>,
    end: u64,
    least: u128,
    alloc: Global,
    copies: &mut Vec<Piece>,
) -> Result<u64, OutOfMemory>
    requires some { 0 < length piece.now.bytes }
    requires tight { All IsTight (joined.old ∷ copies.old.items) }
    ensures end { IfOk result (λ e. e ≡ max end (run_end piece.now)) }
    ensures adds { OnOk result (AddsSeen (is_joined least end piece.now next) end piece.now (joined.old ∷ copies.old.items) (joined.new ∷ copies.new.items)) }
    ensures tight { OnOk result (All IsTight (joined.new ∷ copies.new.items)) }
    ensures some { OnOk result (All IsSome copies.old.items → All IsSome copies.new.items) }
    ensures len { OnOk result (slots joined.new copies.new.items ≤ slots joined.old copies.old.items + length (seen (is_joined least end piece.now next) end piece.now)) }
{
    let stop = piece.end();
    if stop <= end {
        return Ok(end);
    }
    if piece.is_kept(end, next, least) {
        return Ok(stop);
    }
    join(joined, piece, end.max(piece.offset()), alloc, copies)?;
    Ok(stop)
}

// Where the last of some pieces starts.
fn last_offset(pieces: &[Piece]) -> Option<u64>
    ensures { result ≡ first_offset (reverse pieces.now) }
{
    match pieces.last() {
        None => None,
        Some(piece) => Some(piece.offset()),
    }
}

/// Copies of the pieces that do not stay, joined where they touch in a row. The last piece comes first.
pub(super) fn join_small(
    pieces: &[Piece],
    least: u128,
    alloc: Global,
) -> Result<Vec<Piece>, OutOfMemory>
    requires { All IsSome pieces.now }
    ensures adds { IfOk result (λ copies. AddsPart (is_joined least) (reverse pieces.now) [] copies.items) }
    ensures tight { IfOk result (λ copies. All IsTight copies.items) }
    ensures some { IfOk result (λ copies. All IsSome copies.items) }
    ensures len { IfOk result (λ copies. length copies.items ≤ length (parts_where (is_joined least) 0 (reverse pieces.now))) }
{
    let mut copies = Vec::new(alloc);
    let mut joined = Piece::joined(0, Bytes::new(alloc), 0);
    let mut end = 0;
    let mut left = pieces;
    while let Some((piece, others)) = left.split_last() {
        let next = last_offset(others);
        end = join_next(&mut joined, piece, next, end, least, alloc, &mut copies)?;
        left = others;
    }
    push_some(&mut copies, joined)?;
    Ok(copies)
}

// Keeps what is seen of a piece that stays. Answers where the next may begin.
fn keep_next(mut piece: Piece, next: Option<u64>, end: u64, least: u128, out: &mut Pieces) -> u64
    requires some { 0 < length piece.bytes }
    requires room { length out.old.runs + length (seen (stays least end piece next) end piece) ≤ out.old.room }
    requires tight { All IsTight out.old.runs }
    ensures end { result ≡ max end (run_end piece) }
    ensures adds { AddsSeen (stays least end piece next) end piece out.old.runs out.new.runs }
    ensures tight { All IsTight out.new.runs }
    ensures len { length out.new.runs ≡ length out.old.runs + length (seen (stays least end piece next) end piece) }
    ensures room { out.old.room ≤ out.new.room }
{
    let stop = piece.end();
    if stop <= end {
        return end;
    }
    if piece.is_kept(end, next, least) {
        piece.keep_from(end);
        out.put(piece);
    }
    stop
}

/// Puts the pieces that stay into `out`. The last piece comes first.
pub(super) fn keep_large(mut pieces: Vec<Piece>, least: u128, out: &mut Pieces)
    requires some { All IsSome pieces.items }
    requires room { length out.old.runs + length (parts_where (stays least) 0 (reverse pieces.items)) ≤ out.old.room }
    requires tight { All IsTight out.old.runs }
    ensures adds { AddsPart (stays least) (reverse pieces.items) out.old.runs out.new.runs }
    ensures tight { All IsTight out.new.runs }
    ensures len { length out.new.runs ≡ length out.old.runs + length (parts_where (stays least) 0 (reverse pieces.items)) }
    ensures room { out.old.room ≤ out.new.room }
{
    let mut end = 0;
    while let Some(piece) = pieces.pop() {
        let next = last_offset(pieces.as_slice());
        end = keep_next(piece, next, end, least, out);
    }
}
