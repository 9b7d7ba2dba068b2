// A list of steps on any reassembler.
ghost use Rattle.std.specs.Prelude.{◌≡◌, ℕ, ◌+◌, ◌^◌, ◌<◌, ◌≤◌, ◌⊎◌, Bool, true, false, OnOk, OnErr, IfOk, IfErr, IfSome, length, take, vec_len, vec_capacity, option_to_list, IsTrue, [], ◌∷◌, ◌++◌};
ghost use Rattle.quic_assembler.specs.Reassembly.{HoldsNothing};
ghost use Rattle.quic_assembler.specs.Steps.{body_of, is_read, TakesOp, RefusesStep, IsReplay};

use crate::chunk::Chunk;
use crate::errors::{EnsureError, InsertError};
use crate::reassemble::Reassemble;
use quic_values::{Bytes, OutOfMemory};
use thiserror::Error;

/// A step of [`replay`].
#[derive(Debug, Drop, PartialEq, Eq)]
pub enum Op {
    /// Inserts a copy of the bytes.
    Insert {
        /// Where the bytes stand in the stream.
        offset: u64,
        /// The bytes.
        bytes: Bytes,
        /// How much memory they keep alive.
        allocation_size: usize,
    },
    /// Reads in the mode that holds.
    Read {
        /// At most so many bytes.
        max_length: usize,
    },
    /// Goes to unordered mode, if that does not hold already.
    Unordered,
}

/// Why [`replay`] stopped.
#[derive(Clone, Copy, Debug, Error, PartialEq, Eq)]
pub enum ReplayError {
    /// More than 1024 pieces are held after compaction. The last piece is kept.
    #[error("too many pieces")]
    TooManyChunks,
    /// There was no memory to compact what is held. The last piece is kept.
    #[error("no memory for compaction")]
    CompactionMemory,
    /// There was no memory. The last step was not taken.
    #[error("out of memory")]
    OutOfMemory,
    /// A piece ends at 2^62 or above, or is longer than its allocation. Its step was not taken.
    #[error("piece out of range")]
    BadPiece,
}

impl From<OutOfMemory> for ReplayError {
    ghost use Rattle.quic_assembler.specs.declared.steps.ReplayError.TheVariants.{OutOfMemory};
    ghost use Rattle.std.specs.Prelude.{◌≡◌};

    ghost from_gives = { λ _ error. error ≡ OutOfMemory };

    fn from(_error: OutOfMemory) -> Self {
        ReplayError::OutOfMemory
    }
}

// Whether a piece may be inserted.
fn is_piece(offset: u64, length: usize, allocation_size: usize) -> bool
    ensures yes { IsTrue result → (offset + length < 2 ^ 62) × (length ≤ allocation_size) }
    ensures no { result ≡ false → (2 ^ 62 ≤ offset + length) ⊎ (allocation_size < length) }
{
    if length > allocation_size {
        return false;
    }
    let limit = 1 << 62;
    offset < limit && (length as u64) < limit - offset
}

// Inserts a copy of the bytes.
fn insert_copy<R: Reassemble>(
    r: &mut R,
    offset: u64,
    bytes: &Bytes,
    allocation_size: usize,
) -> Result<Option<Chunk>, ReplayError>
    ensures ok { IfOk result (λ chunk. TakesOp (body_of R.holds R.is_done R.read_count R.is_ordered R.highest R.piece_count R.inserts R.reads R.orders) (Op.Insert offset bytes.now allocation_size) r.old chunk r.new) }
    ensures err { IfErr result (λ e. RefusesStep (body_of R.holds R.is_done R.read_count R.is_ordered R.highest R.piece_count R.inserts R.reads R.orders) ⊥ (Op.Insert offset bytes.now allocation_size) e r.old r.new) }
{
    if !is_piece(offset, bytes.len(), allocation_size) {
        return Err(ReplayError::BadPiece);
    }
    let copy = bytes.try_clone()?;
    match r.insert(offset, copy, allocation_size) {
        Ok(()) => Ok(None),
        Err(InsertError::TooManyChunks) => Err(ReplayError::TooManyChunks),
        Err(InsertError::CompactionMemory) => Err(ReplayError::CompactionMemory),
        Err(InsertError::OutOfMemory) => Err(ReplayError::OutOfMemory),
    }
}

// Reads in the mode that holds.
fn read_next<R: Reassemble>(
    r: &mut R,
    max_length: usize,
    ordered: bool,
) -> Result<Option<Chunk>, ReplayError>
    requires { ordered ≡ R.is_ordered r.old }
    ensures ok { IfOk result (λ chunk. TakesOp (body_of R.holds R.is_done R.read_count R.is_ordered R.highest R.piece_count R.inserts R.reads R.orders) (Op.Read max_length) r.old chunk r.new) }
    ensures err { IfErr result (λ e. RefusesStep (body_of R.holds R.is_done R.read_count R.is_ordered R.highest R.piece_count R.inserts R.reads R.orders) ⊥ (Op.Read max_length) e r.old r.new) }
{
    match r.read(max_length, ordered)? {
        None => Ok(None),
        Some(chunk) => Ok(Some(chunk)),
    }
}

// Goes to unordered mode.
fn leave_order<R: Reassemble>(r: &mut R) -> Result<Option<Chunk>, ReplayError>
    ensures ok { IfOk result (λ chunk. TakesOp (body_of R.holds R.is_done R.read_count R.is_ordered R.highest R.piece_count R.inserts R.reads R.orders) Op.Unordered r.old chunk r.new) }
    ensures err { IfErr result (λ e. RefusesStep (body_of R.holds R.is_done R.read_count R.is_ordered R.highest R.piece_count R.inserts R.reads R.orders) ⊥ Op.Unordered e r.old r.new) }
{
    match r.ensure_ordering(false) {
        Ok(()) => Ok(None),
        Err(EnsureError::IllegalOrderedRead) => unreachable!(),
        Err(EnsureError::OutOfMemory) => Err(ReplayError::OutOfMemory),
    }
}

// Takes a step, and answers the chunk that it gave. `ordered` is the mode.
fn take_step<R: Reassemble>(
    r: &mut R,
    op: &Op,
    ordered: &mut bool,
) -> Result<Option<Chunk>, ReplayError>
    requires { ordered.old ≡ R.is_ordered r.old }
    ensures ok { IfOk result (λ chunk. TakesOp (body_of R.holds R.is_done R.read_count R.is_ordered R.highest R.piece_count R.inserts R.reads R.orders) op.now r.old chunk r.new) }
    ensures err { IfErr result (λ e. RefusesStep (body_of R.holds R.is_done R.read_count R.is_ordered R.highest R.piece_count R.inserts R.reads R.orders) ⊥ op.now e r.old r.new) }
    ensures mode { OnOk result (ordered.new ≡ R.is_ordered r.new) }
{
    match op {
        Op::Insert {
            offset,
            bytes,
            allocation_size,
        } => insert_copy(r, *offset, bytes, *allocation_size),
        Op::Read { max_length } => read_next(r, *max_length, *ordered),
        Op::Unordered => {
            let none = leave_order(r)?;
            *ordered = false;
            Ok(none)
        }
    }
}

// Makes room for the chunk that a step may give.
fn make_room(op: &Op, out: &mut Vec<Chunk>) -> Result<(), OutOfMemory>
    ensures items { out.new.items ≡ out.old.items }
    ensures room { vec_capacity out.old ≤ vec_capacity out.new }
    ensures ok { OnOk result (is_read op.now ≡ true → vec_len out.new < vec_capacity out.new) }
    ensures full { OnErr result ((is_read op.now ≡ true) × (vec_capacity out.new ≤ length out.new.items)) }
{
    match op {
        Op::Read { .. } => Ok(out.reserve(1)?),
        Op::Insert { .. } | Op::Unordered => Ok(()),
    }
}

// Where there is a chunk, there is room.
fn keep(out: &mut Vec<Chunk>, given: Option<Chunk>)
    requires { IfSome given (λ _. vec_len out.old < vec_capacity out.old) }
    ensures kept { out.new.items ≡ out.old.items ++ option_to_list given }
    ensures room { vec_capacity out.old ≤ vec_capacity out.new }
{
    if let Some(chunk) = given {
        if out.push(chunk).is_err() {
            unreachable!();
        }
    }
}

/// Takes the steps in order, on a reassembler that holds nothing, has read nothing and is in ordered mode. A chunk that
/// a read gives goes behind `out`; a read that gives none adds nothing. It stops at the first refusal: the steps
/// before it stand, in `r` and in `out`. Where `out` has room for a chunk for each read, a read is refused only where
/// its own call is. A piece out of range is always refused as such.
pub fn replay<R: Reassemble>(r: &mut R, ops: &[Op], out: &mut Vec<Chunk>) -> Result<(), ReplayError>
    requires ordered { R.is_ordered r.old ≡ true }
    requires fresh { R.read_count r.old ≡ 0 }
    requires empty { HoldsNothing (R.holds r.old) }
    ensures { IsReplay (body_of R.holds R.is_done R.read_count R.is_ordered R.highest R.piece_count R.inserts R.reads R.orders) ops.now r.old r.new (vec_capacity out.old) out.old.items out.new.items result }
{
    let mut ordered = true;
    for op in ops {
        make_room(op, out)?;
        let chunk = take_step(r, op, &mut ordered)?;
        keep(out, chunk);
    }
    Ok(())
}
