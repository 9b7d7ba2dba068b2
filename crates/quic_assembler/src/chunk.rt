use quic_values::Bytes;

/// Bytes that a read gave, and the offset in the stream at which they stand.
#[derive(Debug, Drop, PartialEq, Eq)]
pub struct Chunk {
    /// The offset of the first byte.
    pub offset: u64,
    /// The bytes from there on.
    pub bytes: Bytes,
}
