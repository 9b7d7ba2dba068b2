// The pieces of a map are compacted where they lie.
ghost use Rattle.std.specs.Prelude.{◌≡◌, ℕ, ◌⊎◌, ◌^◌, ◌<◌, ◌≤◌, ◌++◌, List, [], length, IfOk, OnOk, OnErr, IfNone, IfSome, Some, None};
ghost use Rattle.std.specs.Map.{values_of};
ghost use Rattle.std.specs.List.{All};
ghost use Rattle.quic_assembler.specs.Piece.{PieceView, run_end};
ghost use Rattle.quic_ordered.specs.Entries.{piece_at, IsPieceMap};
ghost use Rattle.quic_ordered.specs.Rows.{RiseByKey, AreKeyed, LieInOrder, LieWithGaps, IsTidy};
ghost use Rattle.quic_ordered.specs.Sweeping.{IsSwept, IsSweptMap, IsChain, chain_end, chain_bytes, IsRunJoined};

use crate::map::{PieceMap, Run};
use block_map::Place;
use quic_values::OutOfMemory;
use std::alloc::Global;

// Takes out the pieces that touch, one behind another, from an offset on up to another.
fn remove_run(pieces: &mut PieceMap, from: u64, end: u64, hint: Place)
    requires { (rs : List PieceView) × IsChain pieces.old from rs × (end ≡ chain_end from rs) }
    ensures gone { (q : ℕ) → from ≤ q → q < end → piece_at pieces.new q ≡ None }
    ensures others { (q : ℕ) → (q < from) ⊎ (end ≤ q) → piece_at pieces.new q ≡ piece_at pieces.old q }
    ensures rises { RiseByKey pieces.new }
{
    let _count = pieces.len();
    let mut at = from;
    while at < end {
        let Some(piece) = pieces.remove_near(hint, at) else {
            unreachable!();
        };
        at = piece.end();
    }
}

// Joins to the piece that begins at `base` those that touch, one behind another, from its end on up to `stop`, and that
// have the bytes. With none, it is copied where it keeps too much memory alive. If refused, all is as it was.
fn join_run(pieces: &mut PieceMap, run: Run, bytes: &[u8]) -> Result<(), OutOfMemory>
    requires map { IsPieceMap pieces.old }
    requires base { (v : PieceView) × (piece_at pieces.old run.base ≡ Some v) × (run_end v ≡ run.from) }
    requires chain { (rs : List PieceView) × IsChain pieces.old run.from rs × (run.stop ≡ chain_end run.from rs) × (bytes.now ≡ chain_bytes rs) }
    requires bound { run.stop < 2 ^ 62 }
    ensures joined { OnOk result ((rs : List PieceView) × IsChain pieces.old run.from rs × (run.stop ≡ chain_end run.from rs) × IsRunJoined pieces.old run.base run.from rs pieces.new) }
    ensures err { OnErr result (pieces.new ≡ pieces.old) }
    ensures rises { RiseByKey pieces.new }
{
    if run.stop == run.from {
        return pieces.tidy(run.base);
    }
    pieces.append(run.base, run.hint, bytes)?;
    remove_run(pieces, run.from, run.stop, run.hint);
    Ok(())
}

/// Joins all pieces that touch, and copies each other one that keeps more than a fifth more memory alive than it has
/// bytes. If refused, the same bytes are held, in as many pieces or fewer.
pub(crate) fn compact(pieces: &mut PieceMap, alloc: Global) -> Result<(), OutOfMemory>
    requires keyed { AreKeyed pieces.old }
    requires order { LieInOrder 0 (values_of pieces.old) }
    ensures compacted { IsSweptMap pieces.old pieces.new }
    ensures apart { OnOk result (LieWithGaps 0 (values_of pieces.new)) }
    ensures tidy { OnOk result (All IsTidy (values_of pieces.new)) }
    ensures rises { RiseByKey pieces.new }
{
    let _count = pieces.len();
    let mut bytes = Vec::new(alloc);
    let (mut last, mut end) = (None, 0);
    let mut hint = Place { block: 0, index: 0 };
    loop {
        let passed = pieces.pass_over(last, end, hint, &mut bytes)?;
        let Some(run) = passed.next else {
            return pieces.refill();
        };
        join_run(pieces, run, &bytes)?;
        last = Some(run.base);
        end = run.stop;
        hint = run.hint;
    }
}
