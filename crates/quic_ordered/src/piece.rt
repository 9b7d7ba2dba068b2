// A piece of a stream that is held.
ghost use Rattle.std.specs.Prelude.{◌≡◌, ◌+◌, ◌-◌, ◌*◌, ◌/◌, ◌^◌, ◌<◌, ◌≤◌, ◌++◌, length, take, drop, vec_len, nat_le, false, IfOk, OnOk, OnErr};
ghost use Rattle.quic_assembler.specs.Piece.{PieceView, run_end, advance_by, cut_at, HoldsSame};
ghost use Rattle.quic_ordered.specs.Entries.{piece_of, WritesOver, GrowsTo};
ghost use Rattle.quic_ordered.specs.Rows.{joined_with, tidied};

use quic_values::{Bytes, OutOfMemory};
use std::alloc::Global;
use std::marker::Model;

/// Bytes from an offset on that are held.
#[derive(Drop)]
pub(crate) struct Piece {
    offset: u64,
    content: Vec<u8>,
    // The bytes below this index were let go.
    start: usize,
    allocation_size: usize,
}

impl Model for Piece {
    ghost use Rattle.std.specs.Prelude.{◌+◌, ◌-◌, ◌≤◌, ◌^◌, ◌<◌, drop, vec_len};
    ghost use Rattle.quic_assembler.specs.Piece.{PieceView};
    ghost use Rattle.quic_ordered.specs.Entries.{piece_of};

    ghost Value = { PieceView };

    ghost view = { λ p. piece_of p.offset (drop p.start p.content.items) p.allocation_size };

    ghost invariant = { λ p. (p.start ≤ vec_len p.content) × (p.offset + (vec_len p.content - p.start) < 2 ^ 62) };
}

// Writes bytes over those from an index on.
fn write_at(content: &mut [u8], start: usize, bytes: &[u8])
    requires { start + length bytes.now ≤ length content.old }
    ensures { content.new ≡ take start content.old ++ (bytes.now ++ drop (start + length bytes.now) content.old) }
{
    content[start..start + bytes.len()].copy_from_slice(bytes);
}

// A copy of bytes, behind so many others.
fn copy_behind(room: usize, bytes: &[u8], alloc: Global) -> Result<Vec<u8>, OutOfMemory>
    requires { room + length bytes.now < 2 ^ 64 }
    ensures { IfOk result (λ v. (front : _) × (length front ≡ room) × (v.items ≡ front ++ bytes.now)) }
{
    let mut content = Vec::with_capacity(alloc, room + bytes.len())?;
    content.resize(room, 0)?;
    content.extend_from_slice(bytes)?;
    Ok(content)
}

// Bytes, and others behind them.
fn joined(first: &[u8], second: &[u8], alloc: Global) -> Result<Vec<u8>, OutOfMemory>
    requires { length first.now + length second.now < 2 ^ 64 }
    ensures { IfOk result (λ v. v.items ≡ first.now ++ second.now) }
{
    let mut content = Vec::with_capacity(alloc, first.len() + second.len())?;
    content.extend_from_slice(first)?;
    content.extend_from_slice(second)?;
    Ok(content)
}

impl Piece {
    #[inline]
    pub(crate) fn new(offset: u64, bytes: Bytes, allocation_size: usize) -> Self
        requires { offset + length bytes < 2 ^ 62 }
        ensures { result ≡ piece_of offset bytes allocation_size }
    {
        let (content, start) = bytes.into_parts();
        Piece {
            offset,
            content,
            start,
            allocation_size,
        }
    }

    #[inline]
    pub(crate) fn offset(&self) -> u64
        ensures value { result ≡ self.now.offset }
        ensures bound { run_end self.now < 2 ^ 62 }
    {
        let _start = self.start;
        self.offset
    }

    #[inline]
    pub(crate) fn len(&self) -> usize
        ensures value { result ≡ length self.now.bytes }
        ensures bound { run_end self.now < 2 ^ 62 }
    {
        let _offset = self.offset;
        self.content.len() - self.start
    }

    #[inline]
    pub(crate) fn end(&self) -> u64
        ensures value { result ≡ run_end self.now }
        ensures bound { run_end self.now < 2 ^ 62 }
    {
        self.offset + (self.content.len() - self.start) as u64
    }

    #[inline]
    pub(crate) fn allocation_size(&self) -> usize
        ensures value { result ≡ self.now.allocation_size }
        ensures bound { self.now.allocation_size < 2 ^ 64 }
    {
        self.allocation_size
    }

    #[inline]
    pub(crate) fn as_slice(&self) -> &[u8]
        ensures { result.now ≡ self.now.bytes }
    {
        &self.content.as_slice()[self.start..]
    }

    /// Drops what lies below `floor`.
    #[inline]
    pub(crate) fn cut_below(&mut self, floor: u64)
        requires { floor ≤ run_end self.old }
        ensures { self.new ≡ cut_at floor self.old }
    {
        if self.offset < floor {
            self.start += (floor - self.offset) as usize;
            self.offset = floor;
        }
    }

    /// Takes a copy of the first `count` bytes, which are then let go. If refused, all is as it was.
    #[inline(never)]
    pub(crate) fn split_to(&mut self, count: usize) -> Result<Bytes, OutOfMemory>
        requires { count ≤ length self.old.bytes }
        ensures front { IfOk result (λ front. front ≡ take count self.old.bytes) }
        ensures rest { OnOk result (self.new ≡ advance_by count self.old) }
        ensures err { OnErr result (self.new ≡ self.old) }
    {
        let alloc = *self.content.allocator();
        let front = Bytes::copy_from_slice(alloc, &self.as_slice()[..count])?;
        self.start += count;
        self.offset += count as u64;
        Ok(front)
    }

    /// Takes what lies before `end` off, as a piece of its own. If refused, all is as it was.
    pub(crate) fn split_front(&mut self, end: u64) -> Result<Self, OutOfMemory>
        requires from { self.old.offset ≤ end }
        requires to { end ≤ run_end self.old }
        ensures front { IfOk result (λ front. front ≡ piece_of self.old.offset (take (end - self.old.offset) self.old.bytes) self.old.allocation_size) }
        ensures rest { OnOk result (HoldsSame (cut_at end self.old) self.new) }
        ensures rest_memory { OnOk result (self.new.allocation_size ≡ self.old.allocation_size) }
        ensures err { OnErr result (self.new ≡ self.old) }
    {
        let offset = self.offset;
        let allocation_size = self.allocation_size;
        let bytes = self.split_to((end - offset) as usize)?;
        Ok(Piece::new(offset, bytes, allocation_size))
    }

    /// The bytes, without taking memory.
    #[inline]
    pub(crate) fn into_bytes(self) -> Bytes
        ensures { result ≡ self.bytes }
    {
        let Piece { content, start, .. } = self;
        let mut bytes = Bytes::from(content);
        bytes.advance(start);
        bytes
    }

    /// So many bytes from `start` on, whatever they are, in memory of their own.
    pub(crate) fn blank(start: u64, count: usize, alloc: Global) -> Result<Self, OutOfMemory>
        requires { start + count < 2 ^ 62 }
        ensures offset { IfOk result (λ p. p.offset ≡ start) }
        ensures len { IfOk result (λ p. length p.bytes ≡ count) }
        ensures memory { IfOk result (λ p. p.allocation_size ≡ count) }
    {
        let mut content = Vec::new(alloc);
        content.resize(count, 0)?;
        Ok(Piece {
            offset: start,
            content,
            start: 0,
            allocation_size: count,
        })
    }

    /// Writes the bytes of another over its own.
    pub(crate) fn write(&mut self, other: &Piece)
        requires from { self.old.offset ≤ other.now.offset }
        requires to { run_end other.now ≤ run_end self.old }
        ensures memory { self.new.allocation_size ≡ self.old.allocation_size }
        ensures written { WritesOver other.now self.old self.new }
    {
        let start = self.start + (other.offset() - self.offset) as usize;
        write_at(&mut self.content, start, other.as_slice());
    }

    /// Writes bytes over its own, from an offset on.
    pub(crate) fn write_bytes(&mut self, offset: u64, bytes: &[u8])
        requires from { self.old.offset ≤ offset }
        requires to { offset + length bytes.now ≤ run_end self.old }
        ensures memory { self.new.allocation_size ≡ self.old.allocation_size }
        ensures written { WritesOver (piece_of offset bytes.now 0) self.old self.new }
    {
        let start = self.start + (offset - self.offset) as usize;
        write_at(&mut self.content, start, bytes);
    }

    /// Takes up offsets behind its own up to `end`. Which bytes it has there is left open. If refused, all is as it was.
    /// Its memory grows by a factor, so that so many steps up to a length copy that length a few times at most.
    pub(crate) fn grow_end(&mut self, end: u64) -> Result<(), OutOfMemory>
        requires from { run_end self.old ≤ end }
        requires bound { end < 2 ^ 62 }
        ensures grows { OnOk result (GrowsTo self.old.offset end self.old self.new) }
        ensures memory { OnOk result (self.new.allocation_size ≡ length self.new.bytes) }
        ensures err { OnErr result (self.new ≡ self.old) }
    {
        let count = (end - self.offset) as usize;
        self.content.resize(self.start + count, 0)?;
        self.allocation_size = count;
        Ok(())
    }

    /// Takes up offsets before its own from `offset` on. Which bytes it has there is left open. If refused, all is as it
    /// was. Where it is moved for that, half as much memory is left free before it as it then has bytes.
    pub(crate) fn grow_front(&mut self, offset: u64) -> Result<(), OutOfMemory>
        requires { offset ≤ self.old.offset }
        ensures grows { OnOk result (GrowsTo offset (run_end self.old) self.old self.new) }
        ensures memory { OnOk result (self.new.allocation_size ≡ length self.new.bytes) }
        ensures err { OnErr result (self.new ≡ self.old) }
    {
        let more = (self.offset - offset) as usize;
        let length = self.content.len() - self.start;
        if self.start < more {
            let alloc = *self.content.allocator();
            let room = more + (more + length) / 2;
            self.content = copy_behind(room, &self.content.as_slice()[self.start..], alloc)?;
            self.start = room;
        }
        self.start -= more;
        self.offset = offset;
        self.allocation_size = more + length;
        Ok(())
    }

    /// Appends the bytes of a piece that begins where this one ends. If refused, all is as it was.
    pub(crate) fn append(&mut self, next: &Piece) -> Result<(), OutOfMemory>
        requires { run_end self.old ≡ next.now.offset }
        ensures ok { OnOk result (self.new ≡ joined_with self.old next.now) }
        ensures err { OnErr result (self.new ≡ self.old) }
    {
        let _end = next.end();
        self.content.extend_from_slice(next.as_slice())?;
        self.allocation_size = self.content.len() - self.start;
        Ok(())
    }

    /// Puts the bytes of a piece that ends where this one begins before its own, which are as many or more. If refused, all
    /// is as it was. Where it is moved for that, up to half as much memory as it has bytes is left free before it.
    pub(crate) fn prepend(&mut self, before: &Piece) -> Result<(), OutOfMemory>
        requires touch { run_end before.now ≡ self.old.offset }
        requires short { length before.now.bytes ≤ length self.old.bytes }
        ensures ok { OnOk result (self.new ≡ joined_with before.now self.old) }
        ensures err { OnErr result (self.new ≡ self.old) }
    {
        let bytes = &before.content.as_slice()[before.start..];
        let more = bytes.len();
        let length = self.content.len() - self.start;
        if self.start < more {
            let own = &self.content.as_slice()[self.start..];
            let room = more + (length - more) / 2;
            // The free memory is filled with some bytes, whatever they are.
            self.content = joined(&own[..room], own, *self.content.allocator())?;
            self.start = room;
        }
        self.start -= more;
        write_at(&mut self.content, self.start, bytes);
        self.offset = before.offset;
        self.allocation_size = more + length;
        Ok(())
    }

    /// Appends bytes. If refused, all is as it was. Where it keeps much more memory alive than its bytes take, it moves.
    pub(crate) fn append_bytes(&mut self, bytes: &[u8]) -> Result<(), OutOfMemory>
        requires { run_end self.old + length bytes.now < 2 ^ 62 }
        ensures ok { OnOk result (self.new ≡ joined_with self.old (piece_of 0 bytes.now 0)) }
        ensures err { OnErr result (self.new ≡ self.old) }
    {
        if self.is_little() {
            self.content.extend_from_slice(bytes)?;
        } else {
            self.content = joined(self.as_slice(), bytes, *self.content.allocator())?;
            self.start = 0;
        }
        self.allocation_size = self.content.len() - self.start;
        Ok(())
    }

    /// Whether the bytes keep at most a fifth more memory alive than they take.
    #[inline]
    pub(crate) fn is_little(&self) -> bool
        ensures { result ≡ nat_le self.now.allocation_size (length self.now.bytes * 6 / 5) }
    {
        let length = self.content.len() - self.start;
        self.allocation_size <= length || self.allocation_size as u128 <= length as u128 * 6 / 5
    }

    /// Where the bytes keep much more memory alive than they take, they are copied, unless their memory has no more room
    /// than for them. If refused, all is as it was.
    #[inline]
    pub(crate) fn tidy(&mut self) -> Result<(), OutOfMemory>
        ensures ok { OnOk result (self.new ≡ tidied self.old) }
        ensures err { OnErr result (self.new ≡ self.old) }
    {
        if self.is_little() {
            return Ok(());
        }
        let length = self.content.len() - self.start;
        if self.content.capacity() > length {
            let alloc = *self.content.allocator();
            self.content = Vec::from_slice(alloc, &self.content.as_slice()[self.start..])?;
            self.start = 0;
        }
        self.allocation_size = length;
        Ok(())
    }
}
