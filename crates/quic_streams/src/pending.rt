//! Whether anything that is pending could be sent.

ghost use Rattle.std.specs.Prelude.{◌≡◌, ◌==◌, ℕ, Bool, unwrap_or};
ghost use Rattle.std.specs.HashSet.{contains};
ghost use Rattle.quic_queue.specs.SendOrder.{Tells};
ghost use Rattle.quic_retransmits.specs.Pending.{Pending, pending_view, thin_view, nothing};
ghost use Rattle.quic_retransmits.specs.Ids.{is_in_ids, is_in_table};
ghost use Rattle.quic_streams.specs.Shown.{streams_view};
ghost use Rattle.quic_streams.specs.Waiting.{TellsAny, TellsEmpty, has_lasting, window_counts, limit_counts};

use crate::state::StreamsState;
use quic_retransmits::{IdTable, Retransmits, StreamIds, ThinRetransmits};
use quic_values::StreamId;
use std::collections::HashSet;

/// What is to be sent beside the data of streams, asked whether any of it could be.
pub trait PendingFrames {
    // What is pending.
    ghost pending: { Self → Pending };

    /// Whether nothing of it could be sent (RFC 9000 section 13.3). DATA_BLOCKED and STREAM_DATA_BLOCKED count only
    /// while the limit is held for which they were queued, and MAX_STREAM_DATA only where more data may come on its
    /// stream and are wanted.
    fn is_empty(&self, streams: &StreamsState) -> bool
        ensures { TellsEmpty (streams_view streams.now) (pending self.now) result };
}

impl PendingFrames for Retransmits {
    ghost pending = { λ r. pending_view r };

    fn is_empty(&self, streams: &StreamsState) -> bool {
        streams.has_nothing_of(self)
    }
}

impl PendingFrames for ThinRetransmits {
    ghost pending = { λ t. unwrap_or (thin_view t) nothing };

    fn is_empty(&self, streams: &StreamsState) -> bool {
        match self.get() {
            Some(pending) => streams.has_nothing_of(pending),
            None => true,
        }
    }
}

// Whether any id of a set passes a test.
fn any_id<F: Fn(StreamId) -> bool>(ids: &StreamIds, test: &F) -> bool
    requires { F.IsAlwaysCallable test.now }
    ensures { (p : ℕ → Bool) → Tells (F.post test.now) p → TellsAny (is_in_ids ids.now) p result }
{
    if let Some(first) = ids.first
        && test(first)
    {
        return true;
    }
    any_elsewhere(&ids.others, test)
}

fn any_elsewhere<F: Fn(StreamId) -> bool>(ids: &IdTable, test: &F) -> bool
    requires { F.IsAlwaysCallable test.now }
    ensures { (p : ℕ → Bool) → Tells (F.post test.now) p → TellsAny (is_in_table ids.now) p result }
{
    match ids.table() {
        Some(table) => any_other(table, test),
        None => false,
    }
}

fn any_other<F: Fn(StreamId) -> bool>(ids: &HashSet<StreamId>, test: &F) -> bool
    requires { F.IsAlwaysCallable test.now }
    ensures { (p : ℕ → Bool) → Tells (F.post test.now) p → TellsAny (contains ◌==◌ ids.now) p result }
{
    for id in ids.iter() {
        if test(*id) {
            return true;
        }
    }
    false
}

#[tactic(auto, unfolding(crate::specs::Shown::streams_view))]
impl StreamsState {
    // Whether nothing that is pending could be sent.
    fn has_nothing_of(&self, pending: &Retransmits) -> bool
        ensures { TellsEmpty (streams_view self.now) (pending_view pending.now) result }
    {
        if self.has_lasting(pending) || self.has_window(&pending.max_stream_data) {
            return false;
        }
        !self.has_limit(&pending.stream_data_blocked)
    }

    // Whether MAX_STREAM_DATA is of use on any of some streams.
    fn has_window(&self, ids: &StreamIds) -> bool
        ensures { TellsAny (is_in_ids ids.now) (window_counts (streams_view self.now)) result }
    {
        any_id(ids, &|id| self.can_send_flow_control(id))
    }

    // Whether STREAM_DATA_BLOCKED is of use on any of some streams.
    fn has_limit(&self, ids: &StreamIds) -> bool
        ensures { TellsAny (is_in_ids ids.now) (limit_counts (streams_view self.now)) result }
    {
        any_id(ids, &|id| self.stream_data_blocked_limit(id).is_some())
    }

    // Whether something is pending that is of no stream's window.
    fn has_lasting(&self, pending: &Retransmits) -> bool
        ensures { result ≡ has_lasting (streams_view self.now) (pending_view pending.now) }
    {
        pending.max_data
            || pending.data_blocked && self.can_send_data_blocked()
            || pending.max_stream_id[0]
            || pending.max_stream_id[1]
            || !pending.reset_stream.is_empty()
            || !pending.stop_sending.is_empty()
            || !pending.crypto.is_empty()
            || !pending.new_cids.is_empty()
            || !pending.retire_cids.is_empty()
            || pending.ack_frequency
            || pending.handshake_done
            || !pending.new_tokens.is_empty()
    }
}
