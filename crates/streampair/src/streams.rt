ghost use Rattle.std.specs.Prelude.{◌≡◌, ◌≤◌, [], ⊤, IfOk, OnOk, OnErr, length, take};
ghost use Rattle.std.specs.Io.BufRead.{strip_last};
ghost use Rattle.std.specs.Io.Buffered.{reader_remaining};
ghost use Rattle.std.specs.Io.KnownBytes.{Appends};
ghost use Rattle.streampair.specs.Streams.{AppendsPart};

use crate::environment::{Environment, StreamFailed};
use quic_outgoing::PeerLimits;
use quic_pair::Pair;
use quic_steps::Config;
use quic_wire::OutOfMemory;
use std::alloc::Global;
use std::io::{BufRead, BufReader, ErrorKind, Read, Write};

// A reader, a writer and the allocator.
#[derive(Drop)]
pub(crate) struct Streams<R, W> {
    pub(crate) alloc: Global,
    pub(crate) input: BufReader<R>,
    pub(crate) output: W,
}

impl<R: Read, W: Write> Environment for Streams<R, W> {
    ghost unread = { λ it. reader_remaining R.remaining it.input };

    ghost written = { λ it. W.contents it.output };
    // A session is proved for any meaning of these four: streams carry no fact of their own.
    ghost is_flushed = { λ _. ⊤ };

    ghost has_failed = { λ _. ⊤ };

    ghost has_no_pair = { λ _. ⊤ };

    ghost has_no_memory = { λ _. ⊤ };

    fn alloc(&self) -> Global {
        self.alloc
    }

    fn read_line(&mut self, line: &mut Vec<u8>) -> Result<bool, StreamFailed> {
        line.clear();
        let Ok(count) = self.input.read_until(b'\n', line) else {
            return Err(StreamFailed);
        };
        drop_line_feed(line);
        Ok(count != 0)
    }

    fn write(&mut self, text: &[u8]) -> Result<(), StreamFailed> {
        write_whole(&mut self.output, text)
    }

    fn flush(&mut self) -> Result<(), StreamFailed> {
        self.output.flush().or(Err(StreamFailed))
    }

    fn note_out_of_memory(&mut self, _error: OutOfMemory) {}

    fn make_pair(
        &self,
        a: Config,
        b: Config,
        remembered: Option<PeerLimits>,
    ) -> Result<Pair, OutOfMemory> {
        match remembered {
            Some(limits) => Pair::new_early(self.alloc, a, b, limits),
            None => Pair::new(self.alloc, a, b),
        }
    }
}

// Drops the line feed at the end of a line, which the last line may lack.
fn drop_line_feed(line: &mut Vec<u8>)
    ensures { line.new.items ≡ strip_last 10 line.old.items }
{
    if line.last() == Some(&b'\n') {
        line.pop();
    }
}

// Writes a beginning of the text, and returns its length, which is 0 only if the write was interrupted.
fn write_some<W: Write>(output: &mut W, text: &[u8]) -> Result<usize, StreamFailed>
    ensures bound { IfOk result (λ count. count ≤ length text.now) }
    ensures ok { IfOk result (λ count. Appends (W.contents output.old) (W.contents output.new) (take count text.now)) }
    ensures none { OnErr result (Appends (W.contents output.old) (W.contents output.new) []) }
{
    match output.write(text) {
        Ok(0) => Err(StreamFailed),
        Ok(count) => Ok(count),
        Err(error) if error.kind() == ErrorKind::Interrupted => Ok(0),
        Err(_) => Err(StreamFailed),
    }
}

// Writes until all is written. The loop has a bound for the proof.
fn write_whole<W: Write>(output: &mut W, text: &[u8]) -> Result<(), StreamFailed>
    ensures whole { OnOk result (Appends (W.contents output.old) (W.contents output.new) text.now) }
    ensures part { OnErr result (AppendsPart (W.contents output.old) (W.contents output.new) text.now) }
{
    let mut rest = text;
    for _ in 0..u64::MAX {
        if rest.is_empty() {
            return Ok(());
        }
        let count = write_some(output, rest)?;
        rest = &rest[count..];
    }
    Err(StreamFailed)
}
