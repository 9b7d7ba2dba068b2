// A piece that is taken into a map of pieces.
ghost use Rattle.std.specs.Prelude.{◌≡◌, ℕ, ◌+◌, ◌-◌, ◌^◌, ◌<◌, ◌≤◌, List, ◌⊎◌, [], length, IfOk, OnOk, OnErr, IfSome, IfNone, IsTrue, Some, None, Ok};
ghost use Rattle.quic_assembler.specs.Piece.{PieceView, run_end, RunHolds};
ghost use Rattle.quic_ordered.specs.Entries.{piece_at, NoPieceBegins, IsPieceMap, MapHolds, MapHoldsNone, IsLastPiece, IsFirstPiece, MapTakes, MapStems, MapJoins, HasJoined, MapKeepsApart, SpansAll, IsJoining};
ghost use Rattle.quic_ordered.specs.Rows.{RiseByKey};

use crate::map::PieceMap;
use crate::piece::Piece;
use quic_values::{Bytes, OutOfMemory};
use std::alloc::Global;

// Where the piece begins that a piece from `n` on is joined to: `n` itself, where none reaches beyond it.
fn start_of(pieces: &PieceMap, n: u64) -> u64
    requires { IsPieceMap pieces.now }
    ensures up_to { result ≤ n }
    ensures below { (q : ℕ) (v : PieceView) → piece_at pieces.now q ≡ Some v → q < result → run_end v ≤ result }
    ensures left { (at : ℕ) → result ≤ at → at < n → (byte : ℕ) × MapHolds pieces.now at byte }
    ensures tight { (q : ℕ) (v : PieceView) → piece_at pieces.now q ≡ Some v → result ≤ q → q < n → n < run_end v }
{
    match pieces.last_up_to(n) {
        Some((start, end)) if n < end => start,
        _ => n,
    }
}

// Writes over the base all pieces that begin behind `start` and below the end of the new one, and takes them out.
fn absorb(pieces: &mut PieceMap, new: &Piece, start: u64, end: u64, base: &mut Piece)
    requires joins { (es : List (ℕ × PieceView)) × IsPieceMap es × SpansAll es new.now start end × IsJoining es new.now start end pieces.old base.old }
    requires bound { start < 2 ^ 62 }
    ensures joins { (es : List (ℕ × PieceView)) → IsPieceMap es → SpansAll es new.now start end → IsJoining es new.now start end pieces.old base.old → IsJoining es new.now start end pieces.new base.new }
    ensures none { (q : ℕ) → start < q → q < run_end new.now → piece_at pieces.new q ≡ None }
    ensures memory { base.new.allocation_size ≡ base.old.allocation_size }
    ensures len { length base.new.bytes ≡ length base.old.bytes }
    ensures pieces { length pieces.new ≤ length pieces.old }
{
    while let Some(from) = pieces.first_from(start + 1) {
        if from >= new.end() {
            break;
        }
        let Some(piece) = pieces.remove(from) else {
            unreachable!();
        };
        base.write(&piece);
    }
}

// A piece from `start` up to `end` with the bytes of the new one, and over them those of the piece that begins at
// `start`, if there is one. In the map an empty piece keeps the place.
fn base_of(
    pieces: &mut PieceMap,
    new: &Piece,
    start: u64,
    end: u64,
    alloc: Global,
) -> Result<Piece, OutOfMemory>
    requires apart { IsPieceMap pieces.old }
    requires some { 0 < length new.now.bytes }
    requires spans { SpansAll pieces.old new.now start end }
    requires bound { end < 2 ^ 62 }
    ensures joins { IfOk result (IsJoining pieces.old new.now start end pieces.new) }
    ensures memory { IfOk result (λ base. base.allocation_size ≡ length base.bytes) }
    ensures pieces { length pieces.new ≤ length pieces.old + 1 }
    ensures err { OnErr result (pieces.new ≡ pieces.old) }
{
    let mut base = Piece::blank(start, (end - start) as usize, alloc)?;
    let first = pieces.insert(Piece::new(start, Bytes::new(alloc), 0))?;
    base.write(new);
    if let Some(piece) = first {
        base.write(&piece);
    }
    Ok(base)
}

// Puts a piece back at an offset, at which an empty one kept its place, or takes that out.
fn put_back(pieces: &mut PieceMap, offset: u64, piece: Option<Piece>)
    requires slot { piece_at pieces.old offset ≡ None → ⊥ }
    requires at { IfSome piece (λ p. p.offset ≡ offset) }
    ensures here { piece_at pieces.new offset ≡ piece }
    ensures others { (q : ℕ) → (q ≡ offset → ⊥) → piece_at pieces.new q ≡ piece_at pieces.old q }
    ensures rises { RiseByKey pieces.new }
{
    match piece {
        Some(piece) => {
            pieces.replace(piece);
        }
        None => {
            pieces.remove(offset);
        }
    }
}

// Takes out the piece that begins at an offset, and leaves an empty one there.
fn lift(pieces: &mut PieceMap, offset: u64, alloc: Global) -> Piece
    requires here { (v : PieceView) × (piece_at pieces.old offset ≡ Some v) }
    requires bound { offset < 2 ^ 62 }
    ensures value { piece_at pieces.old offset ≡ Some result }
    ensures slot { (hollow : PieceView) × (piece_at pieces.new offset ≡ Some hollow) }
    ensures others { (q : ℕ) → (q ≡ offset → ⊥) → piece_at pieces.new q ≡ piece_at pieces.old q }
    ensures len { length pieces.new ≡ length pieces.old }
    ensures rises { RiseByKey pieces.new }
{
    pieces.replace(Piece::new(offset, Bytes::new(alloc), 0))
}

// The piece that begins at `start`, grown up to `end`, with the bytes of the new one behind its own. In the map an
// empty piece keeps its place.
fn grow_first(
    pieces: &mut PieceMap,
    new: &Piece,
    start: u64,
    end: u64,
    alloc: Global,
) -> Result<Piece, OutOfMemory>
    requires apart { IsPieceMap pieces.old }
    requires some { 0 < length new.now.bytes }
    requires spans { SpansAll pieces.old new.now start end }
    requires bound { end < 2 ^ 62 }
    requires rises { RiseByKey pieces.old }
    requires first { (v : PieceView) × (piece_at pieces.old start ≡ Some v) × (new.now.offset ≤ run_end v) × (run_end v ≤ run_end new.now) }
    ensures joins { IfOk result (IsJoining pieces.old new.now start end pieces.new) }
    ensures memory { IfOk result (λ base. base.allocation_size ≡ length base.bytes) }
    ensures pieces { length pieces.new ≤ length pieces.old + 1 }
    ensures rises { RiseByKey pieces.new }
    ensures err { OnErr result (pieces.new ≡ pieces.old) }
{
    let mut base = lift(pieces, start, alloc);
    let floor = base.end();
    if let Err(refused) = base.grow_end(end) {
        put_back(pieces, start, Some(base));
        return Err(refused);
    }
    let skipped = (floor - new.offset()) as usize;
    base.write_bytes(floor, &new.as_slice()[skipped..]);
    Ok(base)
}

// The piece that begins at `last` and ends at `end`, grown down to `start`, with the bytes of the new one before its
// own, and over them those of the piece that begins at `start`, if there is one. In the map an empty piece keeps the
// place.
fn grow_last(
    pieces: &mut PieceMap,
    new: &Piece,
    start: u64,
    last: u64,
    end: u64,
    alloc: Global,
) -> Result<Piece, OutOfMemory>
    requires apart { IsPieceMap pieces.old }
    requires some { 0 < length new.now.bytes }
    requires spans { SpansAll pieces.old new.now start end }
    requires bound { end < 2 ^ 62 }
    requires rises { RiseByKey pieces.old }
    requires last { (v : PieceView) × (piece_at pieces.old last ≡ Some v) × (run_end v ≡ end) }
    requires order { (start < last) × (new.now.offset ≤ last) × (last < run_end new.now) }
    ensures joins { IfOk result (IsJoining pieces.old new.now start end pieces.new) }
    ensures memory { IfOk result (λ base. base.allocation_size ≡ length base.bytes) }
    ensures pieces { length pieces.new ≤ length pieces.old + 1 }
    ensures rises { RiseByKey pieces.new }
    ensures err { OnErr result (pieces.new ≡ pieces.old) }
{
    let first = pieces.insert(Piece::new(start, Bytes::new(alloc), 0))?;
    let mut base = lift(pieces, last, alloc);
    if let Err(refused) = base.grow_front(start) {
        put_back(pieces, last, Some(base));
        put_back(pieces, start, first);
        return Err(refused);
    }
    pieces.remove(last);
    let count = (last - new.offset()) as usize;
    base.write_bytes(new.offset(), &new.as_slice()[..count]);
    if let Some(piece) = first {
        base.write(&piece);
    }
    Ok(base)
}

// Where the piece ends that begins at an offset, if there is one.
fn end_at(pieces: &PieceMap, start: u64) -> Option<u64>
    ensures { IfSome result (λ end. (v : PieceView) × (piece_at pieces.now start ≡ Some v) × (end ≡ run_end v)) }
{
    match pieces.last_up_to(start) {
        Some((from, end)) if from == start => Some(end),
        _ => None,
    }
}

// A piece from `start` up to `end` with the bytes of the new one, and those of the pieces that are not in the map any
// more: of the first and the last piece that the new one overlaps the longer one grows, unless it lies within the new
// one.
fn longest_base(
    pieces: &mut PieceMap,
    new: &Piece,
    start: u64,
    end: u64,
    alloc: Global,
) -> Result<Piece, OutOfMemory>
    requires apart { IsPieceMap pieces.old }
    requires some { 0 < length new.now.bytes }
    requires spans { SpansAll pieces.old new.now start end }
    requires bound { end < 2 ^ 62 }
    requires rises { RiseByKey pieces.old }
    ensures joins { IfOk result (IsJoining pieces.old new.now start end pieces.new) }
    ensures memory { IfOk result (λ base. base.allocation_size ≡ length base.bytes) }
    ensures pieces { length pieces.new ≤ length pieces.old + 1 }
    ensures err { OnErr result (pieces.new ≡ pieces.old) }
{
    let Some((last, last_end)) = pieces.last_up_to(end.saturating_sub(1)) else {
        return base_of(pieces, new, start, end, alloc);
    };
    if let Some(first_end) = end_at(pieces, start) {
        let is_longer = last_end.saturating_sub(last) <= first_end.saturating_sub(start);
        if is_longer && new.offset() <= first_end && first_end <= new.end() {
            return grow_first(pieces, new, start, end, alloc);
        }
    }
    if start < last && new.offset() <= last && last < new.end() && last_end == end {
        return grow_last(pieces, new, start, last, end, alloc);
    }
    base_of(pieces, new, start, end, alloc)
}

// Joins with a new piece all those that it overlaps. They begin from `start` on, and end by `end`.
fn join(
    pieces: &mut PieceMap,
    new: &Piece,
    start: u64,
    end: u64,
    alloc: Global,
) -> Result<(), OutOfMemory>
    requires apart { IsPieceMap pieces.old }
    requires some { 0 < length new.now.bytes }
    requires spans { SpansAll pieces.old new.now start end }
    requires bound { end < 2 ^ 62 }
    requires rises { RiseByKey pieces.old }
    ensures rises { RiseByKey pieces.new }
    ensures takes { OnOk result (MapTakes pieces.old new.now pieces.new) }
    ensures stems { OnOk result (MapStems pieces.old new.now pieces.new) }
    ensures joined { OnOk result (HasJoined pieces.old new.now pieces.new) }
    ensures stays { OnOk result (MapKeepsApart pieces.old new.now pieces.new) }
    ensures apart { OnOk result (IsPieceMap pieces.new) }
    ensures pieces { length pieces.new ≤ length pieces.old + 1 }
    ensures err { OnErr result (pieces.new ≡ pieces.old) }
{
    let mut base = longest_base(pieces, new, start, end, alloc)?;
    absorb(pieces, new, start, end, &mut base);
    match pieces.insert(base) {
        Ok(_) => Ok(()),
        Err(_) => unreachable!(),
    }
}

// Takes a piece, where the last one that begins below its end begins from its offset on or ends behind it.
#[inline(never)]
fn hold_near(
    pieces: &mut PieceMap,
    new: Piece,
    last: u64,
    last_end: u64,
    alloc: Global,
) -> Result<(), OutOfMemory>
    requires apart { IsPieceMap pieces.old }
    requires some { 0 < length new.bytes }
    requires rises { RiseByKey pieces.old }
    requires last { IsLastPiece pieces.old last last_end (run_end new - 1) }
    requires near { (new.offset ≤ last) ⊎ (new.offset < last_end) }
    requires bound { last_end < 2 ^ 62 }
    ensures rises { RiseByKey pieces.new }
    ensures takes { OnOk result (MapTakes pieces.old new pieces.new) }
    ensures stems { OnOk result (MapStems pieces.old new pieces.new) }
    ensures joined { OnOk result (MapJoins pieces.old new pieces.new) }
    ensures stays { OnOk result (MapKeepsApart pieces.old new pieces.new) }
    ensures apart { IsPieceMap pieces.new }
    ensures pieces { length pieces.new ≤ length pieces.old + 1 }
    ensures err { OnErr result (pieces.new ≡ pieces.old) }
    ensures within { (q : ℕ) (v : PieceView) → piece_at pieces.old q ≡ Some v → q ≤ new.offset → run_end new ≤ run_end v → (result ≡ Ok tt) × (pieces.new ≡ pieces.old) }
{
    let offset = new.offset();
    let end = new.end();
    if last <= offset && end <= last_end {
        return Ok(());
    }
    let start = start_of(pieces, offset);
    join(pieces, &new, start, end.max(last_end), alloc)
}

/// Takes a piece. Where two bytes meet the held one stays, and a piece that lies within a held one takes no memory. Where it
/// is likely to come behind the piece that begins last, that one is tried first.
#[inline(always)]
pub(crate) fn hold(
    pieces: &mut PieceMap,
    new: Piece,
    is_likely_last: bool,
    alloc: Global,
) -> Result<(), OutOfMemory>
    requires apart { IsPieceMap pieces.old }
    requires some { 0 < length new.bytes }
    requires rises { RiseByKey pieces.old }
    ensures rises { RiseByKey pieces.new }
    ensures takes { OnOk result (MapTakes pieces.old new pieces.new) }
    ensures stems { OnOk result (MapStems pieces.old new pieces.new) }
    ensures joined { OnOk result (MapJoins pieces.old new pieces.new) }
    ensures stays { OnOk result (MapKeepsApart pieces.old new pieces.new) }
    ensures apart { IsPieceMap pieces.new }
    ensures pieces { length pieces.new ≤ length pieces.old + 1 }
    ensures err { OnErr result (pieces.new ≡ pieces.old) }
    ensures within { (q : ℕ) (v : PieceView) → piece_at pieces.old q ≡ Some v → q ≤ new.offset → run_end new ≤ run_end v → (result ≡ Ok tt) × (pieces.new ≡ pieces.old) }
{
    let Some((given, last, last_end)) = pieces.put_free(new, is_likely_last)? else {
        return Ok(());
    };
    hold_near(pieces, given, last, last_end, alloc)
}
