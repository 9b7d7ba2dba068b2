ghost use Rattle.std.specs.Prelude.{◌≡◌, ◌≤◌, ◌<◌, ◌^◌, length, Ok};
ghost use Rattle.stream_cases.specs.Arguments.{CanRun};

use crate::content::{Content, PIECE, Seen};
use crate::refused::{REFUSED, Refused};
use std::alloc::Global;

/// Pieces of 1200 bytes are made, looked at and let go: the yardstick.
pub fn case_z(alloc: Global, size: usize, src: &[u8], _perm: &[u32]) -> u64
    ensures refused { ¬ CanRun size (length src.now) → result ≡ REFUSED }
    ensures nothing { CanRun size (length src.now) → size ≡ 0 → result ≡ 0 }
{
    match Content::for_size(size, src) {
        Some(content) => copy_pieces(alloc, size, content).unwrap_or(REFUSED),
        None => REFUSED,
    }
}

fn copy_pieces(alloc: Global, size: usize, content: Content) -> Result<u64, Refused>
    ensures { size ≡ 0 → result ≡ Ok 0 }
{
    let mut seen = Seen::default();
    for offset in (0..size).step_by(PIECE) {
        let piece = content.piece(alloc, offset as u64, PIECE.min(size - offset))?;
        seen.see(offset as u64, piece.as_slice());
    }
    Ok(seen.sum)
}
