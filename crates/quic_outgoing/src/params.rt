//! The peer's transport parameters, which raise the limits of open streams too.

ghost use Rattle.std.specs.Prelude.{ℕ, [], ◌≡◌, ◌+◌, ◌<◌, ◌≤◌, ◌++◌, ◌==◌, All, IfOk, OnOk, OnErr, IsOk, true, is_some, length, vec_len};
ghost use Rattle.std.specs.Vec.{vec_capacity};
ghost use Rattle.quic_limits.specs.SendingCredit.{writable, with_limit};
ghost use Rattle.quic_outgoing.specs.Seen.{senders, is_made};
ghost use Rattle.quic_outgoing.specs.Outgoing.{own_of, with_params, first_ids, first_of};
ghost use Rattle.quic_outgoing.specs.Params.{woken_among, own_woken, as_waiting, with_waiting, newly_writable, after_params};
ghost use Rattle.quic_outgoing.specs.History.{GaveParams, Continues};
ghost use Rattle.quic_outgoing.specs.Shown.{outgoing_view};

use crate::limits::PeerLimits;
use crate::outgoing::OutgoingStreams;
use quic_values::{Dir, OutOfMemory, StreamId, VarInt};

#[tactic(auto, unfolding(crate::specs::Shown::outgoing_view), using(crate::proofs::Histories::continues))]
impl OutgoingStreams {
    /// The peer gave its transport parameters (RFC 9000 section 7.4). Each limit counts that is above the one that was
    /// held: of both counts of streams, of the data of the connection, and of each stream, whether it is open, permitted
    /// or comes later. A stream of this end that was written up to its limit may be written on again by this, as by
    /// [`OutgoingStreams::raise_stream`]: where the connection leaves no room, it waits for it, and else it is one of those
    /// that [`OutgoingStreams::newly_writable`] answers. If refused, all is as it was. It is not refused where this end
    /// opened no stream.
    pub fn set_params(&mut self, params: &PeerLimits) -> Result<(), OutOfMemory>
        ensures params { OnOk result (outgoing_view self.new ≡ after_params (outgoing_view self.old) params.now) }
        ensures err { OnErr result (outgoing_view self.new ≡ outgoing_view self.old) }
        ensures free { (outgoing_view self.old).own_bi.opened ≡ 0 → (outgoing_view self.old).own_uni.opened ≡ 0 → IsOk result }
        ensures from { Continues (outgoing_view self.old) (GaveParams params.now result) (outgoing_view self.new) }
    {
        if self.is_stuck_by(params.initial_max_data) {
            self.make_wait(params)?;
        }
        self.take_limits(params);
        Ok(())
    }

    /// The streams of this end of which the application is to be told that it may write there again, once the peer gave
    /// these limits: bidirectional ones first, and in the order in which they were opened. Takes no memory where this end
    /// opened no stream.
    pub fn newly_writable(&self, params: &PeerLimits) -> Result<Vec<StreamId>, OutOfMemory>
        ensures ids { IfOk result (λ ids. ids.items ≡ newly_writable (outgoing_view self.now) params.now) }
        ensures free { (outgoing_view self.now).own_bi.opened ≡ 0 → (outgoing_view self.now).own_uni.opened ≡ 0 → IsOk result }
    {
        if self.is_stuck_by(params.initial_max_data) {
            return Ok(Vec::new(self.halves.alloc));
        }
        self.own_woken(params)
    }

    // Whether nothing may be written on any stream once the peer gave a limit of the connection.
    fn is_stuck_by(&self, max_data: VarInt) -> bool
        ensures { result ≡ (writable (with_limit (outgoing_view self.now).budget max_data) == 0) }
    {
        let limit = self.budget.max_data().max(max_data.into_inner());
        limit <= self.budget.data_sent() || self.budget.send_window() <= self.budget.buffered_data()
    }

    // The streams of this end that were written up to their limits, and are given greater ones.
    fn own_woken(&self, params: &PeerLimits) -> Result<Vec<StreamId>, OutOfMemory>
        ensures ids { IfOk result (λ ids. ids.items ≡ own_woken (outgoing_view self.now) params.now) }
        ensures free { (outgoing_view self.now).own_bi.opened ≡ 0 → (outgoing_view self.now).own_uni.opened ≡ 0 → IsOk result }
    {
        let mut woken = Vec::new(self.halves.alloc);
        self.add_woken(Dir::Bi, params, &mut woken)?;
        self.add_woken(Dir::Uni, params, &mut woken)?;
        Ok(woken)
    }

    // Those of a direction, behind others.
    fn add_woken(
        &self,
        dir: Dir,
        params: &PeerLimits,
        woken: &mut Vec<StreamId>,
    ) -> Result<(), OutOfMemory>
        ensures ids { OnOk result (woken.new.items ≡ woken.old.items ++ woken_among (outgoing_view self.now) (first_of params.now) (first_ids (outgoing_view self.now).side dir (own_of (outgoing_view self.now) dir).opened)) }
        ensures free { (own_of (outgoing_view self.now) dir).opened ≡ 0 → IsOk result }
    {
        let side = self.halves.side();
        for index in 0..self.opened(dir) {
            let id = StreamId::new(side, dir, index);
            if self.halves.is_woken(id, params) {
                woken.push(id)?;
            }
        }
        Ok(())
    }

    // The streams of this end wait that were written up to their limits, and are given greater ones.
    fn make_wait(&mut self, params: &PeerLimits) -> Result<(), OutOfMemory>
        ensures waits { OnOk result (outgoing_view self.new ≡ with_waiting (outgoing_view self.old) (own_woken (outgoing_view self.old) params.now)) }
        ensures err { OnErr result (outgoing_view self.new ≡ outgoing_view self.old) }
        ensures free { (outgoing_view self.old).own_bi.opened ≡ 0 → (outgoing_view self.old).own_uni.opened ≡ 0 → IsOk result }
    {
        let woken = self.own_woken(params)?;
        self.halves.make_all(woken.as_slice())?;
        self.blocked.reserve(woken.len())?;
        self.mark_all(woken.as_slice());
        Ok(())
    }

    // Streams wait, one after another. Their halves were made, and there is room on the list of those that wait.
    fn mark_all(&mut self, ids: &[StreamId])
        requires made { All (λ q. is_made self.old.halves q ≡ true) ids.now }
        requires room { vec_len self.old.blocked + length ids.now ≤ vec_capacity self.old.blocked }
        ensures { outgoing_view self.new ≡ with_waiting (outgoing_view self.old) ids.now }
    {
        for index in 0..ids.len() {
            self.mark(ids[index]);
        }
    }

    // A stream waits.
    fn mark(&mut self, id: StreamId)
        requires made { is_made self.old.halves id ≡ true }
        requires room { vec_len self.old.blocked < vec_capacity self.old.blocked }
        ensures waits { outgoing_view self.new ≡ as_waiting (outgoing_view self.old) id ((outgoing_view self.old).halves id) }
        ensures kept { (q : ℕ) → is_made self.old.halves q ≡ true → is_made self.new.halves q ≡ true }
        ensures len { vec_len self.new.blocked ≤ vec_len self.old.blocked + 1 }
        ensures capacity { vec_capacity self.new.blocked ≡ vec_capacity self.old.blocked }
    {
        if self.halves.mark(id) {
            self.blocked.push_reserved(id);
        }
    }

    // Each limit counts that is above the one that was held. However many streams are held, this takes the same time.
    fn take_limits(&mut self, params: &PeerLimits)
        ensures { outgoing_view self.new ≡ with_params (outgoing_view self.old) params.now }
    {
        let _ = self
            .own_bi
            .raise(params.initial_max_streams_bidi.into_inner());
        let _ = self
            .own_uni
            .raise(params.initial_max_streams_uni.into_inner());
        let _ = self.budget.raise(params.initial_max_data);
        self.halves.raise_first(params.first_limits());
    }
}
