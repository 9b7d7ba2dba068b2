//! Bytes that were read and are lent.

ghost use Rattle.std.specs.Prelude.{◌≤◌, vec_len};

/// The bytes of one chunk: those of `memory` from `start` on.
#[derive(Drop)]
pub struct LentBytes {
    pub memory: Vec<u8>,
    pub start: usize,
    ghost within: { start ≤ vec_len memory },
}
