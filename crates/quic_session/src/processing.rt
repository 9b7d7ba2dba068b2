//! Payloads that have other frames between those of the library.

ghost use Rattle.std.specs.Prelude.{◌≡◌, ◌≤◌, Ok, length, take};
ghost use Rattle.quic_session.specs.Receiving.{ReceivesOnly};
ghost use Rattle.quic_session.specs.Processing.{Processes, ProcessesHeld};

use crate::buffer::Buffer;
use crate::receiving::PayloadError;
use crate::runs::{Front, front_of, is_one_run, offset_of};
use crate::session::Session;

/// Why a payload was processed no further.
#[derive(Clone, Copy, Debug, PartialEq, Eq)]
pub enum Halt {
    /// All of it was processed.
    End,
    /// The next frame is one that the host processes: ACK, CRYPTO, NEW_TOKEN, NEW_CONNECTION_ID, RETIRE_CONNECTION_ID,
    /// PATH_CHALLENGE, PATH_RESPONSE, CONNECTION_CLOSE, HANDSHAKE_DONE, or one of an extension.
    OtherFrame,
}

/// How far a payload was processed.
#[derive(Clone, Copy, Debug, PartialEq, Eq)]
pub struct Progress {
    /// The offset of the first byte that was not processed.
    pub next: usize,
    /// Why no more was.
    pub answer: Result<Halt, PayloadError>,
}

impl Session {
    /// Processes a payload (RFC 9000 section 12.4) from the offset `first` on, up to a frame that the host processes itself. The
    /// frames of the library are accepted one after another, until one is rejected; PADDING, PING and STREAMS_BLOCKED
    /// (sections 19.1, 19.2, 19.14) are skipped. Where memory ran out, the call can be made again from the offset that
    /// was returned. A run of frames that is malformed changes nothing.
    pub fn process(&mut self, payload: &[u8], first: usize) -> Progress
        requires { first ≤ length payload.now }
        ensures processes { Processes self.old payload.now first result self.new }
        ensures others { ReceivesOnly self.old self.new }
    {
        let mut next = first;
        loop {
            let length = match front_of(&payload[next..]) {
                Front::End => {
                    return Progress {
                        next,
                        answer: Ok(Halt::End),
                    };
                }
                Front::Other => {
                    return Progress {
                        next,
                        answer: Ok(Halt::OtherFrame),
                    };
                }
                Front::Malformed => {
                    return Progress {
                        next,
                        answer: Err(PayloadError::Malformed),
                    };
                }
                Front::Skipped(length) => length,
                Front::Run(length) => {
                    let received = self.receive(&payload[next..next + length], 0);
                    if let Err(error) = received.answer {
                        let accepted = offset_of(&payload[next..], received.next);
                        return Progress {
                            next: next + accepted,
                            answer: Err(error),
                        };
                    }
                    length
                }
            };
            next += length;
        }
    }

    /// Processes the first `len` bytes of a buffer, as [`Session::process`]. Where they are frames of the library alone, and
    /// leave at most an eighth of its memory free, the session keeps this memory and copies none of it, and the buffer has
    /// other memory then, with any bytes. Else the buffer stays as it is.
    pub fn process_buffer(&mut self, buffer: &mut Buffer, len: usize, first: usize) -> Progress
        requires len { len ≤ length buffer.old.bytes.items }
        requires first { first ≤ len }
        ensures processes { ProcessesHeld self.old (take len buffer.old.bytes.items) first result self.new }
        ensures others { ReceivesOnly self.old self.new }
        ensures kept { result.answer ≡ Ok Halt.OtherFrame → buffer.new ≡ buffer.old }
    {
        if first != 0 || !is_one_run(&buffer.bytes[..len]) {
            return self.process(&buffer.bytes[..len], first);
        }
        match self.receive_buffer(buffer, len, 0).answer {
            Ok(()) => Progress {
                next: len,
                answer: Ok(Halt::End),
            },
            Err(error) => Progress {
                next: 0,
                answer: Err(error),
            },
        }
    }
}
