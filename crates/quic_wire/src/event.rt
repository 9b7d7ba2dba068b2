use quic_values::{Dir, StreamId, VarInt};

/// What happened to the streams, for the application.
#[derive(Clone, Copy, Debug, PartialEq, Eq)]
pub enum StreamEvent {
    /// The peer opened streams of a direction, which may have data to read.
    Opened { dir: Dir },
    /// A stream may have data to read, or an error to report.
    Readable { id: StreamId },
    /// A stream that could take no more data may take some now.
    Writable { id: StreamId },
    /// All data of a finished stream were acknowledged.
    Finished { id: StreamId },
    /// The peer asked to send no more on a stream.
    Stopped { id: StreamId, error_code: VarInt },
    /// More streams of a direction may be opened.
    Available { dir: Dir },
}
