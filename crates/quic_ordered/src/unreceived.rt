// What of a piece was not received before.
ghost use Rattle.std.specs.Prelude.{◌≡◌, ◌+◌, ◌<◌, ◌≤◌, [], false, length, IfOk, OnOk, IsTrue};
ghost use Rattle.quic_assembler.specs.Piece.{PieceView, run_end};
ghost use Rattle.quic_assembler.specs.Reassembly.{IsCut, TakesFront, NoneReceived};

use crate::piece::Piece;
use quic_ranges::RangeSet;
use quic_values::OutOfMemory;

// Takes what lies before `start` off the rest, and puts it behind the fronts.
fn split_fresh(rest: &mut Piece, start: u64, fronts: &mut Vec<Piece>) -> Result<(), OutOfMemory>
    requires from { rest.old.offset ≤ start }
    requires to { start ≤ run_end rest.old }
    ensures { OnOk result (TakesFront start rest.old rest.new fronts.old.items fronts.new.items) }
{
    if rest.offset() == start {
        return Ok(());
    }
    let front = rest.split_front(start)?;
    fronts.push(front)?;
    Ok(())
}

// Cuts the next range that was received out of the rest, and puts what lies before it behind the fronts. Answers
// whether there was one.
fn cut_next(
    received: &RangeSet,
    rest: &mut Piece,
    fronts: &mut Vec<Piece>,
) -> Result<bool, OutOfMemory>
    ensures cut { (whole : PieceView) → IsCut received.now whole rest.old fronts.old.items → OnOk result (IsCut received.now whole rest.new fronts.new.items) }
    ensures less { IfOk result (λ found. IsTrue found → length rest.new.bytes < length rest.old.bytes) }
    ensures none { IfOk result (λ found. found ≡ false → NoneReceived received.now rest.new) }
{
    let Some(range) = received.run_from(rest.offset()) else {
        return Ok(false);
    };
    let end = rest.end();
    if range.start >= end {
        return Ok(false);
    }
    split_fresh(rest, range.start, fronts)?;
    rest.cut_below(range.end.min(end));
    Ok(true)
}

/// Cuts all that was received out of the rest, and puts what lies before and between into `fronts`.
pub(crate) fn cut_all(
    received: &RangeSet,
    rest: &mut Piece,
    fronts: &mut Vec<Piece>,
) -> Result<(), OutOfMemory>
    requires { fronts.old.items ≡ [] }
    ensures cut { OnOk result (IsCut received.now rest.old rest.new fronts.new.items) }
    ensures none { OnOk result (NoneReceived received.now rest.new) }
{
    while cut_next(received, rest, fronts)? {}
    Ok(())
}
