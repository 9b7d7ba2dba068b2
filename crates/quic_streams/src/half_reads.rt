//! Several reads of a half in a row, where it lies.

ghost use Rattle.std.specs.Prelude.{ℕ, [], ◌≡◌, ◌≤◌, Err, Some, IfOk, IfErr, length};
ghost use Rattle.std.specs.Vec.{vec_capacity};
ghost use Rattle.quic_receiving.specs.Half.{Half};
ghost use Rattle.quic_history.specs.Reading.{IsCountOf, bytes_in};
ghost use Rattle.quic_streams.specs.Held.{half_in};
ghost use Rattle.quic_streams.specs.InPlace.{mode_of, AsksHalf};
ghost use Rattle.quic_streams.specs.HalfReads.{GivesOn, LastOn, ReadsSomeOn, is_due_after};

use crate::halves::{ask_on, is_window_due_on, read_on};
use crate::spare::SpareHalves;
use quic_assembler::Chunk;
use quic_history::progress::LastAnswer;
use quic_receiving::{ReadableError, Recv};
use quic_values::VarInt;

/// What several reads of a half gave.
#[derive(Drop)]
pub struct HalfReads {
    pub(crate) chunks: Vec<Chunk>,
    // Why they are no more.
    pub(crate) last: LastAnswer,
    // How many bytes they have.
    pub(crate) read: u64,
    // Whether MAX_STREAM_DATA is worth a frame then.
    pub(crate) window_due: bool,
}

// Asks the half of an entry for a mode, and reads it until nothing more comes or so many chunks were given, for which
// there is room.
#[inline]
pub(crate) fn read_some_on(
    spare: &mut SpareHalves,
    window: VarInt,
    entry: &mut Option<Box<Recv>>,
    ordered: bool,
    max_length: usize,
    times: u16,
    list: Vec<Chunk>,
) -> Result<HalfReads, ReadableError>
    requires empty { list.items ≡ [] }
    requires places { times ≤ vec_capacity list }
    ensures reads { IfOk result (λ r. ReadsSomeOn (half_in window entry.old) max_length times ordered r.chunks.items r.last (half_in window entry.new)) }
    ensures bytes { IfOk result (λ r. r.read ≡ bytes_in r.chunks.items) }
    ensures due { IfOk result (λ r. r.window_due ≡ is_due_after r.last window (Some (half_in window entry.new))) }
    ensures refused { IfErr result (λ error. AsksHalf (half_in window entry.old) ordered (Err error) (half_in window entry.new)) }
{
    ask_on(spare, window, entry, ordered)?;
    let (chunks, last, read) = read_chunks_on(entry, ordered, max_length, times, list);
    let window_due = !last.progress().is_ended() && is_window_due_on(entry, window);
    Ok(HalfReads {
        chunks,
        last,
        read,
        window_due,
    })
}

// Reads the half of an entry. Answers the chunks, why they are no more, and how many bytes they have.
#[inline]
fn read_chunks_on(
    entry: &mut Option<Box<Recv>>,
    ordered: bool,
    max_length: usize,
    times: u16,
    list: Vec<Chunk>,
) -> (Vec<Chunk>, LastAnswer, u64)
    requires mode { mode_of entry.old ≡ ordered }
    requires empty { list.items ≡ [] }
    requires places { times ≤ vec_capacity list }
    ensures reads { (window : ℕ) → (read : Half) × GivesOn (half_in window entry.old) max_length result.0.items read × LastOn read max_length result.1 (half_in window entry.new) }
    ensures count { IsCountOf times result.1 (length result.0.items) }
    ensures bytes { result.2 ≡ bytes_in result.0.items }
{
    let mut chunks = list;
    let mut read: u64 = 0;
    for _index in 0..times {
        match read_on(entry, max_length, ordered) {
            Ok(Some(chunk)) => {
                read += chunk.bytes.len() as u64;
                chunks.push_reserved(chunk);
            }
            Ok(None) => return (chunks, LastAnswer::Ended, read),
            Err(error) => return (chunks, LastAnswer::of_error(error), read),
        }
    }
    (chunks, LastAnswer::More, read)
}
