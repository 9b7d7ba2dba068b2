//! Reading by a visitor, which is handed the reader while a stream is open for reads.

ghost use Rattle.std.specs.Prelude.{List, ◌∷◌, ◌≡◌, Err, IfOk, IfErr, OnErr};
ghost use Rattle.quic_history.specs.History.{Event, Began, From};
ghost use Rattle.quic_history.specs.Reading.{Begins};
ghost use Rattle.quic_history.specs.World.{Made};
ghost use Rattle.quic_retransmits.specs.Pending.{pending_view};
ghost use Rattle.quic_streams.specs.Shown.{streams_view};
ghost use Rattle.quic_streams.specs.Visits.{NextCall, Visits, ReadsWith};

use crate::reading::Chunks;
use crate::recv_stream::RecvStream;
use quic_history::progress::Progress;
use quic_receiving::{ReadableError, ShouldTransmit};

/// What is done with a reader while a stream is open for reads: any calls of [`Chunks::next`].
pub trait ReadVisitor {
    ghost use Rattle.std.specs.Prelude.{List};
    ghost use Rattle.quic_streams.specs.Visits.{NextCall};

    // What it makes of the calls and their answers, of which the last one comes first.
    ghost does: { Self → List NextCall → Self → Type 0 };

    /// Reads what it wants. The reader is ended by its caller.
    fn visit(&mut self, reader: &mut Chunks<'_>)
        requires begun { reader.old.progress ≡ Progress.Readable }
        requires none { reader.old.read ≡ 0 }
        ensures same_streams { reader.new.streams.ghost_name ≡ reader.old.streams.ghost_name }
        ensures same_pending { reader.new.pending.ghost_name ≡ reader.old.pending.ghost_name }
        ensures pending { reader.new.pending.now ≡ reader.old.pending.now }
        ensures id { reader.new.id ≡ reader.old.id }
        ensures ordered { reader.new.ordered ≡ reader.old.ordered }
        ensures visits { Visits (streams_view reader.old.streams.now) reader.old.id reader.old.ordered (streams_view reader.new.streams.now) reader.new.progress reader.new.read (λ calls. does self.old calls self.new) };
}

impl RecvStream<'_> {
    /// Opens the stream for reads, in order or as bytes come, hands the reader to a visitor, and ends it, which gives the
    /// peer credit for what was read (RFC 9000 section 4.2). Answers whether a frame was queued that tells the peer what it
    /// may send.
    ///
    /// This is [`RecvStream::read`], then the visitor's calls of [`Chunks::next`], of any lengths, and then
    /// [`Chunks::finalize`]. A refusal changes nothing but the memory that is set aside, and the visitor is not called.
    pub fn read_with<V: ReadVisitor>(
        &mut self,
        ordered: bool,
        visitor: &mut V,
    ) -> Result<ShouldTransmit, ReadableError>
        ensures same_state { self.new.state.ghost_name ≡ self.old.state.ghost_name }
        ensures same_pending { self.new.pending.ghost_name ≡ self.old.pending.ghost_name }
        ensures id { self.new.id ≡ self.old.id }
        ensures reads { IfOk result (λ transmit. ReadsWith (streams_view self.old.state.now) self.old.id ordered (pending_view self.old.pending.now) (λ calls. V.does visitor.old calls visitor.new) transmit.0 (streams_view self.new.state.now) (pending_view self.new.pending.now)) }
        ensures refused { IfErr result (λ error. Begins (streams_view self.old.state.now) self.old.id ordered (Err error) (streams_view self.new.state.now)) }
        ensures refused_pending { OnErr result (pending_view self.new.pending.now ≡ pending_view self.old.pending.now) }
        ensures refused_visitor { OnErr result (visitor.new ≡ visitor.old) }
        ensures from_refused { IfErr result (λ error. (m : Made) (h : List Event) → From m h (streams_view self.old.state.now)
            → From m (Began self.old.id ordered (Err error) ∷ h) (streams_view self.new.state.now)) }
    {
        self.state.begin(self.pending, self.id, ordered)?;
        let mut reader = Chunks::new(self.state, self.pending, self.id, ordered);
        visitor.visit(&mut reader);
        Ok(reader.finalize())
    }
}
