// Pieces that lie apart from all others are put into a map, all or none.
ghost use Rattle.std.specs.Prelude.{◌≡◌, ℕ, ◌≤◌, List, ◌++◌, Some, None, IfOk, OnOk, OnErr};
ghost use Rattle.std.specs.Map.{values_of};
ghost use Rattle.std.specs.List.{All};
ghost use Rattle.std.specs.BTreeMap.{insert_entry};
ghost use Rattle.std.specs.Ordering.{nat_cmp};
ghost use Rattle.std.specs.List.Sorted.{IsPermutation};
ghost use Rattle.quic_assembler.specs.Piece.{PieceView, IsSome, cover_count};
ghost use Rattle.quic_ordered.specs.Entries.{piece_at, IsPieceMap, IsPlaced};
ghost use Rattle.quic_ordered.specs.Rows.{RiseByKey};

use crate::map::PieceMap;
use crate::piece::Piece;
use quic_values::OutOfMemory;
use std::alloc::Global;

/// Takes out what was put in at some offsets.
pub(crate) fn take_out(pieces: &mut PieceMap, offsets: &[u64])
    requires { RiseByKey pieces.old }
    ensures rises { RiseByKey pieces.new }
    ensures restores { (es : List (ℕ × PieceView)) → RiseByKey es → IsPlaced offsets.now es pieces.old → pieces.new ≡ es }
{
    for offset in offsets {
        pieces.remove(*offset);
    }
}

// Puts a piece in, and its offset behind the others.
fn place(pieces: &mut PieceMap, piece: Piece, offsets: &mut Vec<u64>) -> Result<(), OutOfMemory>
    requires { RiseByKey pieces.old }
    ensures rises { RiseByKey pieces.new }
    ensures placed { (es : List (ℕ × PieceView)) → piece_at es piece.offset ≡ None → IsPlaced offsets.old.items es pieces.old → IsPlaced offsets.new.items es pieces.new }
    ensures here { OnOk result (piece_at pieces.new piece.offset ≡ Some piece) }
    ensures others { OnOk result ((q : ℕ) → (q ≡ piece.offset → ⊥) → piece_at pieces.new q ≡ piece_at pieces.old q) }
    ensures entries { OnOk result (pieces.new ≡ insert_entry nat_cmp pieces.old piece.offset piece) }
{
    let _count = pieces.len();
    offsets.push(piece.offset())?;
    pieces.insert(piece)?;
    Ok(())
}

/// Puts pieces in, none of which overlaps another or one of the map, and gives their offsets.
pub(crate) fn place_all(
    pieces: &mut PieceMap,
    parts: Vec<Piece>,
    alloc: Global,
) -> Result<Vec<u64>, OutOfMemory>
    requires rises { RiseByKey pieces.old }
    requires apart { IsPieceMap pieces.old }
    requires some { All IsSome parts.items }
    requires once { (at : ℕ) → cover_count at (parts.items ++ values_of pieces.old) ≤ 1 }
    ensures rises { RiseByKey pieces.new }
    ensures apart { OnOk result (IsPieceMap pieces.new) }
    ensures all { OnOk result (IsPermutation (parts.items ++ values_of pieces.old) (values_of pieces.new)) }
    ensures placed { IfOk result (λ offsets. IsPlaced offsets.items pieces.old pieces.new) }
    ensures err { OnErr result (pieces.new ≡ pieces.old) }
{
    let mut parts = parts;
    let mut offsets = Vec::new(alloc);
    while let Some(piece) = parts.pop() {
        if let Err(refused) = place(pieces, piece, &mut offsets) {
            take_out(pieces, offsets.as_slice());
            return Err(refused);
        }
    }
    Ok(offsets)
}
