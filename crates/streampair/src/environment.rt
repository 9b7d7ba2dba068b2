ghost use Rattle.std.specs.Prelude.{◌≡◌, ℕ, List, [], Option, true, false, IfOk, IfErr, OnOk, OnErr, IfSome};
ghost use Rattle.std.specs.Io.KnownBytes.{Appends, IsAtEnd, Keeps};
ghost use Rattle.quic_exchange.specs.From.{PairFrom};
ghost use Rattle.quic_lines.specs.Grammar.{IsEarlyInRange};
ghost use Rattle.quic_pair.specs.Shown.{pair_view};
ghost use Rattle.streampair.specs.Streams.{AppendsPart, TakesFirstLine};

use quic_outgoing::PeerLimits;
use quic_pair::Pair;
use quic_steps::Config;
use quic_wire::OutOfMemory;
use std::alloc::Global;

/// A read, a write or a flush failed.
#[derive(Clone, Copy, Debug)]
pub struct StreamFailed;

/// What a session runs on: its input, its output, and memory. A session sees these failures only by calls that fail.
pub trait Environment {
    // The input that is left, and all output, where they are known.
    ghost unread: { Self → Option (List ℕ) };

    ghost written: { Self → Option (List ℕ) };
    // All output was flushed.
    ghost is_flushed: { Self → Type 0 };
    // A read, a write or a flush failed.
    ghost has_failed: { Self → Type 0 };
    // Memory for a pair was refused.
    ghost has_no_pair: { Self → Type 0 };
    // Memory for a line or for its reply was refused.
    ghost has_no_memory: { Self → Type 0 };

    /// The allocator of lines and steps.
    fn alloc(&self) -> Global;

    /// Reads the next line, without its line feed. Returns whether there is one.
    fn read_line(&mut self, line: &mut Vec<u8>) -> Result<bool, StreamFailed>
        ensures line { IfOk result (λ found. found ≡ true → TakesFirstLine (unread self.old) line.new.items (unread self.new)) }
        ensures end { IfOk result (λ found. found ≡ false → IsAtEnd (unread self.old)) }
        ensures written { written self.new ≡ written self.old }
        ensures failed { OnErr result (has_failed self.new) };

    /// Writes the whole text. If that fails, a beginning of it may have been written.
    fn write(&mut self, text: &[u8]) -> Result<(), StreamFailed>
        ensures unread { unread self.new ≡ unread self.old }
        ensures whole { OnOk result (Appends (written self.old) (written self.new) text.now) }
        ensures part { OnErr result (AppendsPart (written self.old) (written self.new) text.now) }
        ensures failed { OnErr result (has_failed self.new) }
        ensures still_failed { has_failed self.old → has_failed self.new }
        ensures still_no_pair { has_no_pair self.old → has_no_pair self.new }
        ensures still_no_memory { has_no_memory self.old → has_no_memory self.new };

    fn flush(&mut self) -> Result<(), StreamFailed>
        ensures written { Keeps (written self.old) (written self.new) }
        ensures flushed { OnOk result (is_flushed self.new) }
        ensures failed { OnErr result (has_failed self.new) }
        ensures still_failed { has_failed self.old → has_failed self.new }
        ensures still_no_pair { has_no_pair self.old → has_no_pair self.new }
        ensures still_no_memory { has_no_memory self.old → has_no_memory self.new };

    /// Is called with the error of a call that had no memory for a line or for its reply.
    fn note_out_of_memory(&mut self, error: OutOfMemory)
        ensures written { written self.new ≡ written self.old }
        ensures no_memory { has_no_memory self.new }
        ensures still_failed { has_failed self.old → has_failed self.new }
        ensures still_no_pair { has_no_pair self.old → has_no_pair self.new };

    /// Makes a pair, whose client remembers limits of the server if they are given.
    fn make_pair(
        &self,
        a: Config,
        b: Config,
        remembered: Option<PeerLimits>,
    ) -> Result<Pair, OutOfMemory>
        requires range { IfSome remembered IsEarlyInRange }
        ensures pair { IfOk result (λ pair. PairFrom (record { a = a; b = b; early = remembered }) [] (pair_view pair)) }
        ensures none { OnErr result (has_no_pair self.now) };
}
