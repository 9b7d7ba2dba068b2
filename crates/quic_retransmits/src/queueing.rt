//! What reads, stops, writes and resets queue to be sent.

ghost use Rattle.std.specs.Prelude.{◌≡◌, ◌≤◌, ◌||◌, ℕ, true, OnOk, IsOk};
ghost use Rattle.quic_retransmits.specs.Pending.{pending_view};
ghost use Rattle.quic_retransmits.specs.Queueing.{with_id, with_stop_sending, with_reset_stream};
ghost use Rattle.quic_retransmits.specs.Queueing.{window_rooms, stop_rooms, blocked_rooms, reset_rooms};

use crate::retransmits::Retransmits;
use quic_values::{OutOfMemory, StreamId, VarInt};
use quic_wire::frame::StopSending;

impl Retransmits {
    /// Makes room to queue MAX_STREAM_DATA for one more stream.
    pub fn reserve_window(&mut self, id: StreamId) -> Result<(), OutOfMemory>
        ensures same { pending_view self.new ≡ pending_view self.old }
        ensures ok { OnOk result (1 ≤ window_rooms self.new id) }
        ensures roomy { 1 ≤ window_rooms self.old id → IsOk result }
    {
        self.max_stream_data.reserve_for(id)
    }

    /// Queues MAX_STREAM_DATA for a stream where that is due, in room that was made.
    pub fn queue_window(&mut self, id: StreamId, due: bool)
        requires { due ≡ true → 1 ≤ window_rooms self.old id }
        ensures queued { pending_view self.new ≡ record (pending_view self.old) { max_stream_data = with_id (pending_view self.old).max_stream_data id due } }
        ensures room { 1 ≤ window_rooms self.old id → 1 ≤ window_rooms self.new id }
    {
        if due {
            self.max_stream_data.insert_reserved(id);
        }
    }

    /// Queues MAX_DATA where that is due.
    pub fn queue_max_data(&mut self, due: bool)
        ensures queued { pending_view self.new ≡ record (pending_view self.old) { max_data = (pending_view self.old).max_data || due } }
        ensures room { (id : ℕ) → window_rooms self.new id ≡ window_rooms self.old id }
    {
        self.max_data |= due;
    }

    /// Makes room to queue one more STOP_SENDING.
    pub fn reserve_stop(&mut self) -> Result<(), OutOfMemory>
        ensures same { pending_view self.new ≡ pending_view self.old }
        ensures ok { OnOk result (1 ≤ stop_rooms self.new) }
        ensures roomy { 1 ≤ stop_rooms self.old → IsOk result }
    {
        self.stop_sending.reserve(1)?;
        Ok(())
    }

    /// Queues STOP_SENDING where that is of use, in room that was made.
    pub fn queue_stop(&mut self, id: StreamId, error_code: VarInt, due: bool)
        requires { 1 ≤ stop_rooms self.old }
        ensures { pending_view self.new ≡ record (pending_view self.old) { stop_sending = with_stop_sending (pending_view self.old).stop_sending id error_code due } }
    {
        if due {
            self.stop_sending
                .push_reserved(StopSending { id, error_code });
        }
    }

    /// Queues DATA_BLOCKED where that is due.
    pub fn queue_data_blocked(&mut self, due: bool)
        ensures { pending_view self.new ≡ record (pending_view self.old) { data_blocked = (pending_view self.old).data_blocked || due } }
    {
        self.data_blocked |= due;
    }

    /// Makes room to queue STREAM_DATA_BLOCKED for one more stream.
    pub fn reserve_stream_blocked(&mut self, id: StreamId) -> Result<(), OutOfMemory>
        ensures same { pending_view self.new ≡ pending_view self.old }
        ensures ok { OnOk result (1 ≤ blocked_rooms self.new id) }
        ensures roomy { 1 ≤ blocked_rooms self.old id → IsOk result }
    {
        self.stream_data_blocked.reserve_for(id)
    }

    /// Queues STREAM_DATA_BLOCKED for a stream where that is due, in room that was made.
    pub fn queue_stream_blocked(&mut self, id: StreamId, due: bool)
        requires { due ≡ true → 1 ≤ blocked_rooms self.old id }
        ensures { pending_view self.new ≡ record (pending_view self.old) { stream_data_blocked = with_id (pending_view self.old).stream_data_blocked id due } }
    {
        if due {
            self.stream_data_blocked.insert_reserved(id);
        }
    }

    /// Makes room to queue one more RESET_STREAM.
    pub fn reserve_reset(&mut self) -> Result<(), OutOfMemory>
        ensures same { pending_view self.new ≡ pending_view self.old }
        ensures ok { OnOk result (1 ≤ reset_rooms self.new) }
        ensures roomy { 1 ≤ reset_rooms self.old → IsOk result }
    {
        self.reset_stream.reserve(1)?;
        Ok(())
    }

    /// Queues RESET_STREAM, in room that was made.
    pub fn queue_reset(&mut self, id: StreamId, error_code: VarInt)
        requires { 1 ≤ reset_rooms self.old }
        ensures { pending_view self.new ≡ record (pending_view self.old) { reset_stream = with_reset_stream (pending_view self.old).reset_stream id error_code } }
    {
        self.reset_stream.push_reserved((id, error_code));
    }
}
