ghost use Rattle.std.specs.Prelude.{◌≡◌, ◌≤◌, ◌<◌, ◌^◌, length, Ok};
ghost use Rattle.stream_cases.specs.Arguments.{CanRun};

use crate::content::{Content, SEGMENT};
use crate::link::{Link, Network};
use crate::refused::{REFUSED, Refused};
use quic_values::StreamId;
use std::alloc::Global;

// The bytes of each stream of case h, and of each of the parts in which it is written.
const STREAM: u64 = 1024;

const PART: usize = 256;

const PARTS: u64 = 4;

// The most streams at a time in case h.
const STREAMS: u32 = 1000;

/// Two ends and one stream, of `size` bytes.
pub fn case_g(alloc: Global, size: usize, src: &[u8], _perm: &[u32]) -> u64
    ensures { ¬ CanRun size (length src.now) → result ≡ REFUSED }
{
    match Content::for_size(size, src) {
        Some(content) => {
            one_stream(alloc, size as u64, content, Network::Lossless).unwrap_or(REFUSED)
        }
        None => REFUSED,
    }
}

/// Two ends and streams of 1024 bytes, up to 1000 at a time, that are written in four parts each, in turn.
pub fn case_h(alloc: Global, size: usize, src: &[u8], _perm: &[u32]) -> u64
    ensures refused { ¬ CanRun size (length src.now) → result ≡ REFUSED }
    ensures nothing { CanRun size (length src.now) → size ≡ 0 → result ≡ 0 }
{
    match Content::for_size(size, src) {
        Some(_) if size == 0 => 0,
        Some(content) => many_streams(alloc, size as u64, content).unwrap_or(REFUSED),
        None => REFUSED,
    }
}

/// As case g, but every twentieth payload of the client is lost.
pub fn case_i(alloc: Global, size: usize, src: &[u8], _perm: &[u32]) -> u64
    ensures { ¬ CanRun size (length src.now) → result ≡ REFUSED }
{
    match Content::for_size(size, src) {
        Some(content) => one_stream(alloc, size as u64, content, Network::Lossy).unwrap_or(REFUSED),
        None => REFUSED,
    }
}

fn one_stream(
    alloc: Global,
    size: u64,
    content: Content,
    network: Network,
) -> Result<u64, Refused> {
    let mut link = Link::new(alloc, 1, 0, network)?;
    send_stream(&mut link, content, size)
}

// Sends a stream of so many bytes over a link that carried nothing.
fn send_stream(link: &mut Link, content: Content, size: u64) -> Result<u64, Refused> {
    let Some(id) = link.client.open()? else {
        return Err(Refused);
    };
    let mut written = 0u64;
    let mut is_finished = false;
    'turns: for _ in 0..u64::MAX {
        if link.is_done() {
            break 'turns;
        }
        written = fill(link, id, content, written, size)?;
        if written == size && !is_finished {
            link.client.finish(id)?;
            is_finished = true;
        }
        if !link.turn()? {
            return Err(Refused);
        }
    }
    link.check(1, size)
}

// Writes content from an offset on until the stream is blocked or has `size` bytes. Answers how many it has.
fn fill(
    link: &mut Link,
    id: StreamId,
    content: Content,
    written: u64,
    size: u64,
) -> Result<u64, Refused> {
    let mut written = written;
    'writes: for _ in 0..u64::MAX {
        if written >= size {
            break 'writes;
        }
        let len = (SEGMENT as u64).min(size - written) as usize;
        let taken = link.client.write(id, content.at(written, len))?;
        if taken == 0 {
            break 'writes;
        }
        written = written.saturating_add(taken as u64);
    }
    Ok(written)
}

fn many_streams(alloc: Global, size: u64, content: Content) -> Result<u64, Refused> {
    let mut ids = Vec::with_capacity(alloc, STREAMS as usize)?;
    let mut link = Link::new(alloc, STREAMS, STREAM, Network::Lossless)?;
    send_streams(&mut link, &mut ids, content, size.div_ceil(STREAM))
}

// Sends so many streams over a link that carried nothing.
fn send_streams(
    link: &mut Link,
    ids: &mut Vec<StreamId>,
    content: Content,
    total: u64,
) -> Result<u64, Refused> {
    let mut opened = 0u64;
    'rounds: for _ in 0..u64::MAX {
        if opened >= total {
            break 'rounds;
        }
        open_some(link, ids, total - opened)?;
        opened = opened.saturating_add(ids.len() as u64);
        write_parts(link, ids, content)?;
    }
    link.check(total, total.wrapping_mul(STREAM))
}

// Writes each part of some streams, and sends it.
#[inline]
fn write_parts(link: &mut Link, ids: &[StreamId], content: Content) -> Result<(), Refused> {
    for part in 0..PARTS {
        write_part(link, ids, content, part)?;
        turn_until_idle(link)?;
    }
    Ok(())
}

// Opens streams, 1000 and `most` at most, in place of those that were opened before.
fn open_some(link: &mut Link, ids: &mut Vec<StreamId>, most: u64) -> Result<(), Refused> {
    ids.clear();
    for _ in 0..most.min(u64::from(STREAMS)) {
        let Some(id) = link.client.open()? else {
            break;
        };
        ids.push(id)?;
    }
    if ids.is_empty() {
        return Err(Refused);
    }
    Ok(())
}

// Writes a part of each stream. The last ends it.
fn write_part(
    link: &mut Link,
    ids: &[StreamId],
    content: Content,
    part: u64,
) -> Result<(), Refused> {
    let start = part.wrapping_mul(PART as u64);
    for id in ids {
        let offset = id.index().wrapping_mul(STREAM).wrapping_add(start);
        if link.client.write(*id, content.at(offset, PART))? != PART {
            return Err(Refused);
        }
        if part == PARTS - 1 {
            link.client.finish(*id)?;
        }
    }
    Ok(())
}

fn turn_until_idle(link: &mut Link) -> Result<(), Refused> {
    'turns: for _ in 0..u64::MAX {
        if !link.turn()? {
            break 'turns;
        }
    }
    Ok(())
}
