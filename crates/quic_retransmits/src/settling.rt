//! What leaves what is pending when it is written, and what is noted of it.

ghost use Rattle.std.specs.Prelude.{◌≡◌, ◌∷◌, ◌++◌, ◌<◌, [], ℕ, List, drop, true, false, OnOk, OnErr};
ghost use Rattle.quic_retransmits.specs.Pending.{Pending, pending_view, thin_view};
ghost use Rattle.std.specs.Option.{option_map};
ghost use Rattle.quic_retransmits.specs.Settling.{noted, noted_in, without_id, IsLastIn, IsSomeIn, entry_count, max_streams_in, without_max_streams};

use crate::retransmits::{Retransmits, ThinRetransmits};
use quic_values::{Dir, OutOfMemory, StreamId, VarInt};
use quic_wire::Frame;
use quic_wire::frame::StopSending;

impl Retransmits {
    // Notes a frame that is sent. A refusal changes nothing.
    #[inline]
    pub(crate) fn note(&mut self, frame: &Frame) -> Result<(), OutOfMemory>
        ensures ok { OnOk result (pending_view self.new ≡ noted (pending_view self.old) frame.now) }
        ensures err { OnErr result (pending_view self.new ≡ pending_view self.old) }
    {
        match frame {
            Frame::ResetStream(frame) => {
                self.reset_stream.push((frame.id, frame.error_code))?;
            }
            Frame::StopSending(frame) => self.stop_sending.push(*frame)?,
            Frame::MaxData(_) => self.max_data = true,
            Frame::MaxStreamData { id, .. } => {
                self.reserve_window(*id)?;
                self.queue_window(*id, true);
            }
            Frame::MaxStreams { dir: Dir::Bi, .. } => self.max_stream_id[0] = true,
            Frame::MaxStreams { dir: Dir::Uni, .. } => self.max_stream_id[1] = true,
            Frame::DataBlocked { .. } => self.data_blocked = true,
            Frame::StreamDataBlocked { id, .. } => {
                self.reserve_stream_blocked(*id)?;
                self.queue_stream_blocked(*id, true);
            }
            _ => {}
        }
        Ok(())
    }

    /// The RESET_STREAM that is written next, the last one that was queued: the stream, and why it is given up.
    #[inline]
    pub fn next_reset(&self) -> Option<(StreamId, VarInt)>
        ensures { IsLastIn (pending_view self.now).reset_stream result }
    {
        match self.reset_stream.last() {
            Some(last) => Some(*last),
            None => None,
        }
    }

    /// That RESET_STREAM leaves what is pending. Nothing changes where there is none.
    #[inline]
    pub fn settle_reset(&mut self)
        ensures settled { (id code : ℕ) (front : List (ℕ × ℕ)) → (pending_view self.old).reset_stream ≡ front ++ (id, code) ∷ [] → pending_view self.new ≡ record (pending_view self.old) { reset_stream = front } }
        ensures fewer { (id code : ℕ) (front : List (ℕ × ℕ)) → (pending_view self.old).reset_stream ≡ front ++ (id, code) ∷ [] → entry_count self.new < entry_count self.old }
        ensures empty { (pending_view self.old).reset_stream ≡ [] → pending_view self.new ≡ pending_view self.old }
    {
        let _ = self.reset_stream.pop();
    }

    // The first resets leave, so many, or all where there are fewer.
    fn drop_resets(&mut self, count: usize)
        ensures { pending_view self.new ≡ record (pending_view self.old) { reset_stream = drop count (pending_view self.old).reset_stream } }
    {
        let count = count.min(self.reset_stream.len());
        self.reset_stream.drain(..count);
    }

    /// The STOP_SENDING that is written next, the last one that was queued.
    #[inline]
    pub fn next_stop(&self) -> Option<StopSending>
        ensures { IsLastIn (pending_view self.now).stop_sending result }
    {
        self.stop_sending.last().copied()
    }

    /// That STOP_SENDING leaves what is pending. Nothing changes where there is none.
    #[inline]
    pub fn settle_stop(&mut self)
        ensures settled { (frame : StopSending) (front : List StopSending) → (pending_view self.old).stop_sending ≡ front ++ frame ∷ [] → pending_view self.new ≡ record (pending_view self.old) { stop_sending = front } }
        ensures fewer { (frame : StopSending) (front : List StopSending) → (pending_view self.old).stop_sending ≡ front ++ frame ∷ [] → entry_count self.new < entry_count self.old }
        ensures empty { (pending_view self.old).stop_sending ≡ [] → pending_view self.new ≡ pending_view self.old }
    {
        let _ = self.stop_sending.pop();
    }

    /// A stream for which MAX_STREAM_DATA is pending.
    #[inline]
    pub fn next_window(&self) -> Option<StreamId>
        ensures { IsSomeIn (pending_view self.now).max_stream_data result }
    {
        self.max_stream_data.some()
    }

    /// The MAX_STREAM_DATA of a stream leaves what is pending.
    #[inline]
    pub fn settle_window(&mut self, id: StreamId)
        ensures settled { pending_view self.new ≡ record (pending_view self.old) { max_stream_data = without_id (pending_view self.old).max_stream_data id } }
        ensures fewer { (pending_view self.old).max_stream_data id ≡ true → entry_count self.new < entry_count self.old }
    {
        self.max_stream_data.remove(id);
    }

    /// A stream for which STREAM_DATA_BLOCKED is pending.
    #[inline]
    pub fn next_stream_blocked(&self) -> Option<StreamId>
        ensures { IsSomeIn (pending_view self.now).stream_data_blocked result }
    {
        self.stream_data_blocked.some()
    }

    /// The STREAM_DATA_BLOCKED of a stream leaves what is pending.
    #[inline]
    pub fn settle_stream_blocked(&mut self, id: StreamId)
        ensures settled { pending_view self.new ≡ record (pending_view self.old) { stream_data_blocked = without_id (pending_view self.old).stream_data_blocked id } }
        ensures fewer { (pending_view self.old).stream_data_blocked id ≡ true → entry_count self.new < entry_count self.old }
    {
        self.stream_data_blocked.remove(id);
    }

    /// MAX_DATA leaves what is pending.
    #[inline]
    pub fn settle_max_data(&mut self)
        ensures settled { pending_view self.new ≡ record (pending_view self.old) { max_data = false } }
        ensures fewer { (pending_view self.old).max_data ≡ true → entry_count self.new < entry_count self.old }
    {
        self.max_data = false;
    }

    /// DATA_BLOCKED leaves what is pending.
    #[inline]
    pub fn settle_data_blocked(&mut self)
        ensures settled { pending_view self.new ≡ record (pending_view self.old) { data_blocked = false } }
        ensures fewer { (pending_view self.old).data_blocked ≡ true → entry_count self.new < entry_count self.old }
    {
        self.data_blocked = false;
    }

    /// Whether MAX_STREAMS of a direction is pending.
    #[inline]
    pub fn has_max_streams(&self, dir: Dir) -> bool
        ensures { result ≡ max_streams_in (pending_view self.now) dir }
    {
        match dir {
            Dir::Bi => self.max_stream_id[0],
            Dir::Uni => self.max_stream_id[1],
        }
    }

    /// MAX_STREAMS of a direction leaves what is pending.
    #[inline]
    pub fn settle_max_streams(&mut self, dir: Dir)
        ensures settled { pending_view self.new ≡ without_max_streams (pending_view self.old) dir }
        ensures fewer { max_streams_in (pending_view self.old) dir ≡ true → entry_count self.new < entry_count self.old }
    {
        match dir {
            Dir::Bi => self.max_stream_id[0] = false,
            Dir::Uni => self.max_stream_id[1] = false,
        }
    }
}

impl ThinRetransmits {
    /// Notes a frame that is sent, so that it can be sent again where it is lost (RFC 9000 section 13.3). Takes memory
    /// where nothing was noted before, and for a further stream. A refusal changes nothing.
    #[inline]
    pub fn note(&mut self, frame: &Frame) -> Result<(), OutOfMemory>
        ensures ok { OnOk result (noted_in self.new ≡ noted (noted_in self.old) frame.now) }
        ensures err { OnErr result (thin_view self.new ≡ thin_view self.old) }
    {
        if let Some(retransmits) = &mut self.retransmits {
            return retransmits.note(frame);
        }
        let mut first = Box::new(self.alloc, Retransmits::new(self.alloc))?;
        first.note(frame)?;
        self.retransmits = Some(first);
        Ok(())
    }

    /// The first `count` of the RESET_STREAM frames that were noted are not sent again: they were acknowledged (RFC 9000
    /// section 13.3). All of them where there are fewer. Takes no memory.
    pub fn drop_resets(&mut self, count: usize)
        ensures { thin_view self.new ≡ option_map (λ (p : Pending). record p { reset_stream = drop count p.reset_stream }) (thin_view self.old) }
    {
        if let Some(retransmits) = &mut self.retransmits {
            retransmits.drop_resets(count);
        }
    }
}
