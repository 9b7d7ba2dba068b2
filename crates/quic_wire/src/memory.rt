//! Memory for the data of frames, which is taken anew or used again.

ghost use Rattle.std.specs.Prelude.{◌≡◌, ◌≤◌, ◌+◌, ◌-◌, ◌&&◌, ◌/◌, true, nat_le, All, IfOk, IfSome, ℕ, vec_len, vec_capacity};

use quic_values::OutOfMemory;
use std::alloc::Global;
use std::marker::Model;

/// Where the memory comes from into which bytes are copied, and where it goes.
pub(crate) trait ByteMemory {
    /// A copy of bytes for which so many count as held.
    fn copy_of(&mut self, bytes: &[u8], counted: usize) -> Result<Vec<u8>, OutOfMemory>
        ensures { IfOk result (λ copy. copy.items ≡ bytes.now) };

    /// Takes memory that is no longer needed, with any bytes.
    fn put(&mut self, piece: Vec<u8>);
}

// Each copy has memory of its own.
impl ByteMemory for Global {
    fn copy_of(&mut self, bytes: &[u8], _: usize) -> Result<Vec<u8>, OutOfMemory> {
        Ok(Vec::from_slice(*self, bytes)?)
    }

    fn put(&mut self, _: Vec<u8>) {}
}

// How many pieces of each kind are kept at most.
const MOST_PIECES: usize = 1024;

// How many bytes a piece has room for that is kept, at least and at most. It is quick to take a smaller one anew.
const LEAST_ROOM: usize = 64;

const MOST_ROOM: usize = 2048;

// From how many bytes on it is a long one.
const LEAST_LONG: usize = 512;

/// The memory of bytes that were read, which is used again for those that come: pieces of 512 to 2,048 bytes, which are as
/// long as a payload, and shorter ones of at least 64 bytes. Of each kind at most so many are kept as it is told, and at most
/// 1,024. Contracts see nothing of it, but that it is bounded.
#[derive(Drop)]
pub struct PieceMemory {
    long: Vec<Vec<u8>>,
    short: Vec<Vec<u8>>,
    // How many pieces of each kind are kept at most.
    most: usize,
}

impl Model for PieceMemory {
    ghost use Rattle.std.specs.Prelude.{All, ◌≤◌, vec_capacity, vec_len};

    ghost Value = { Unit {0} };

    ghost view = { λ m. tt };

    ghost invariant = { λ m. (vec_len m.long ≤ m.most) × (vec_len m.short ≤ m.most) × (m.most ≤ 1024)
        × All (λ piece. vec_capacity piece ≤ 2048) m.long.items × All (λ piece. vec_capacity piece ≤ 511) m.short.items };
}

impl PieceMemory {
    /// None yet, of which so many of each kind are kept.
    pub fn new(alloc: Global, most: usize) -> Self
        ensures { result ≡ tt }
    {
        PieceMemory {
            long: Vec::new(alloc),
            short: Vec::new(alloc),
            most: most.min(MOST_PIECES),
        }
    }

    /// Sets how many of each kind are kept. All pieces go where these are fewer than before.
    pub fn set_most(&mut self, most: usize)
        ensures same { self.new ≡ self.old }
    {
        let most = most.min(MOST_PIECES);
        if most < self.most {
            self.long.clear();
            self.short.clear();
        }
        self.most = most;
    }

    /// A copy of bytes, in memory that was used before, if some is fit for them: they leave at most an eighth of it free, or it
    /// has no more room than counts as held for them.
    #[inline(always)]
    pub fn copy_of(&mut self, bytes: &[u8], counted: usize) -> Result<Vec<u8>, OutOfMemory>
        ensures copy { IfOk result (λ copy. copy.items ≡ bytes.now) }
        ensures same { self.new ≡ self.old }
    {
        let mut piece = match self.take(bytes.len(), counted) {
            Some(piece) => piece,
            None => Vec::with_capacity(*self.long.allocator(), room_for(bytes.len()))?,
        };
        piece.clear();
        piece.extend_from_slice(bytes)?;
        Ok(piece)
    }

    // Takes out a piece that is fit for so many bytes.
    fn take(&mut self, size: usize, counted: usize) -> Option<Vec<u8>>
        ensures same { self.new ≡ self.old }
    {
        if size > MOST_ROOM || counted < LEAST_ROOM {
            None
        } else if size < LEAST_LONG {
            take_fit(&mut self.short, size, counted)
        } else {
            take_fit(&mut self.long, size, counted)
        }
    }

    /// Puts a piece in, if there is room for it and it is one to be kept. Another goes.
    #[inline(always)]
    pub fn put(&mut self, piece: Vec<u8>)
        ensures same { self.new ≡ self.old }
    {
        let room = piece.capacity();
        if !is_kept(room) {
            return;
        }
        if room < LEAST_LONG {
            put_within(&mut self.short, self.most, piece);
        } else {
            put_within(&mut self.long, self.most, piece);
        }
    }

    /// Takes out the long piece that was put in last, with any bytes, or else gives a vector without memory.
    pub fn spare(&mut self) -> Vec<u8>
        ensures few { vec_capacity result ≤ 2048 }
        ensures same { self.new ≡ self.old }
    {
        match self.long.pop() {
            Some(piece) => piece,
            None => Vec::new(*self.long.allocator()),
        }
    }
}

impl ByteMemory for PieceMemory {
    #[inline(always)]
    fn copy_of(&mut self, bytes: &[u8], counted: usize) -> Result<Vec<u8>, OutOfMemory> {
        PieceMemory::copy_of(self, bytes, counted)
    }

    fn put(&mut self, piece: Vec<u8>) {
        PieceMemory::put(self, piece);
    }
}

// Takes out the piece that was put in last, or else the first one, if it is fit for so many bytes. A first one that is not fit
// goes, so that in time the pieces are those that are fit for what comes.
fn take_fit(list: &mut Vec<Vec<u8>>, size: usize, counted: usize) -> Option<Vec<u8>>
    ensures fewer { vec_len list.new ≤ vec_len list.old }
    ensures small { (room : ℕ) → All (λ piece. vec_capacity piece ≤ room) list.old.items → All (λ piece. vec_capacity piece ≤ room) list.new.items }
{
    match list.last() {
        None => return None,
        Some(last) if is_fit_where(last.capacity(), size, counted) => return list.pop(),
        Some(_) => {}
    }
    let first = list.swap_remove(0);
    if is_fit_where(first.capacity(), size, counted) {
        return Some(first);
    }
    None
}

// Puts a piece in, where there are fewer than so many.
fn put_within(list: &mut Vec<Vec<u8>>, most: usize, piece: Vec<u8>)
    ensures few { vec_len list.old ≤ most → vec_len list.new ≤ most }
    ensures small { (room : ℕ) → All (λ piece. vec_capacity piece ≤ room) list.old.items → vec_capacity piece ≤ room → All (λ piece. vec_capacity piece ≤ room) list.new.items }
{
    if list.len() < most {
        let _ = list.push(piece);
    }
}

/// Whether a piece with room for so many bytes is one to be kept.
pub fn is_kept(room: usize) -> bool
    ensures { result ≡ (nat_le 64 room && nat_le room 2048) }
{
    LEAST_ROOM <= room && room <= MOST_ROOM
}

/// How much room memory gets that is taken anew for so many bytes: a little more than for these, if it may be kept, so that it
/// is fit for bytes of almost the same length, too.
pub fn room_for(size: usize) -> usize
    ensures enough { size ≤ result }
    ensures few { result ≤ size + 63 }
{
    if !is_kept(size) {
        size
    } else if size < LEAST_LONG {
        (size + 15) / 16 * 16
    } else {
        (size + 63) / 64 * 64
    }
}

// Whether memory with so much room is fit for so many bytes, for which so many count as held.
fn is_fit_where(room: usize, size: usize, counted: usize) -> bool {
    size <= room && (room <= counted || is_fit(room, size))
}

/// Whether memory with so much room is fit for so many bytes: they have room in it, and leave at most an eighth of it free.
pub fn is_fit(room: usize, size: usize) -> bool
    ensures { result ≡ (nat_le size room && nat_le (room - size) (room / 8)) }
{
    size <= room && room - size <= room / 8
}
