//! How much the peer may send and open.

ghost use Rattle.std.specs.Prelude.{ℕ, List, ◌∷◌, ◌≡◌, ◌+◌, ◌<◌, ◌≤◌, ◌^◌, OnOk, IsOk, nat_lt};
ghost use Rattle.quic_limits.specs.Remote.{open_now, with_concurrent, lacking};
ghost use Rattle.quic_streams.specs.Held.{room};
ghost use Rattle.quic_streams.specs.Shown.{streams_view};
ghost use Rattle.quic_history.specs.World.{Made, remote_of, with_receive_window};
ghost use Rattle.quic_history.specs.Permitting.{SetsConcurrent, is_flow_controlled};
ghost use Rattle.quic_history.specs.History.{Event, Resized, SetConcurrent, From};

use crate::state::StreamsState;
use quic_values::{Dir, OutOfMemory, StreamId, VarInt};

#[tactic(auto, unfolding(crate::specs::Shown::streams_view))]
impl StreamsState {
    /// Sets how many bytes of all streams may be received and not consumed (RFC 9000 section 4.1). A larger window
    /// raises the limit of the connection by the gain, and the answer is true: MAX_DATA is to be sent. A smaller one
    /// leaves the limit, and bytes that are consumed give no credit until the loss is made up.
    pub fn set_receive_window(&mut self, receive_window: VarInt) -> bool
        ensures window { streams_view self.new ≡ with_receive_window (streams_view self.old) receive_window }
        ensures rises { result ≡ nat_lt (streams_view self.old).credit.receive_window receive_window }
        ensures from { (m : Made) (h : List Event) → From m h (streams_view self.old) → From m (Resized receive_window result ∷ h) (streams_view self.new) }
    {
        self.credit.set_receive_window(receive_window)
    }

    /// Sets how many streams of a direction the peer is to be able to use at a time (RFC 9000 section 4.6). Where it may
    /// use fewer, more are permitted at once; a lower count takes nothing back. [`StreamsState::queue_max_stream_id`]
    /// then queues what tells the peer. A refusal changes nothing; where no more are permitted there is none.
    pub fn set_max_concurrent(&mut self, dir: Dir, count: VarInt) -> Result<(), OutOfMemory>
        ensures sets { SetsConcurrent (streams_view self.old) dir count result (streams_view self.new) }
        ensures unneeded { lacking (remote_of (streams_view self.old) dir) count ≡ 0 → IsOk result }
        ensures from { (m : Made) (h : List Event) → From m h (streams_view self.old) → From m (SetConcurrent dir count result ∷ h) (streams_view self.new) }
    {
        self.set_concurrent(dir, count)
    }

    // The same, by direction.
    fn set_concurrent(&mut self, dir: Dir, count: VarInt) -> Result<(), OutOfMemory>
        ensures sets { SetsConcurrent (streams_view self.old) dir count result (streams_view self.new) }
        ensures unneeded { lacking (remote_of (streams_view self.old) dir) count ≡ 0 → IsOk result }
    {
        match dir {
            Dir::Bi => self.set_concurrent_bi(count),
            Dir::Uni => self.set_concurrent_uni(count),
        }
    }

    fn set_concurrent_bi(&mut self, count: VarInt) -> Result<(), OutOfMemory>
        ensures sets { SetsConcurrent (streams_view self.old) Dir.Bi count result (streams_view self.new) }
        ensures unneeded { lacking (remote_of (streams_view self.old) Dir.Bi) count ≡ 0 → IsOk result }
    {
        let (first, more) = (self.bi.max_remote(), self.bi.lacking(count));
        if more > 0 {
            self.receive.reserve(more as usize)?;
            self.outgoing.reserve(more as usize)?;
        }
        self.receive
            .permit_more(!self.outgoing.side(), Dir::Bi, first, more);
        self.outgoing.permit_more(first, more);
        self.bi.set_max_concurrent(count);
        self.adjusted = true;
        Ok(())
    }

    fn set_concurrent_uni(&mut self, count: VarInt) -> Result<(), OutOfMemory>
        ensures sets { SetsConcurrent (streams_view self.old) Dir.Uni count result (streams_view self.new) }
        ensures unneeded { lacking (remote_of (streams_view self.old) Dir.Uni) count ≡ 0 → IsOk result }
    {
        let (first, more) = (self.uni.max_remote(), self.uni.lacking(count));
        if more > 0 {
            self.receive.reserve(more as usize)?;
        }
        self.receive
            .permit_more(!self.outgoing.side(), Dir::Uni, first, more);
        self.uni.set_max_concurrent(count);
        self.adjusted = true;
        Ok(())
    }

    /// How many streams of a direction the peer may use now: those that were permitted and are not wholly freed.
    pub fn max_concurrent(&self, dir: Dir) -> u64
        ensures { result ≡ (remote_of (streams_view self.now) dir).allocated }
    {
        match dir {
            Dir::Bi => self.bi.allocated(),
            Dir::Uni => self.uni.allocated(),
        }
    }

    /// How many bytes the peer may send in all, on all streams: the limit that is enforced (RFC 9000 section 4.1).
    pub fn local_max_data(&self) -> u64
        ensures { result ≡ (streams_view self.now).credit.local_max_data }
    {
        self.credit.local_max_data()
    }

    /// How many bytes the peer sent: the sum of the highest offsets of all streams (RFC 9000 section 4.1).
    pub fn data_recvd(&self) -> u64
        ensures { result ≡ (streams_view self.now).credit.data_recvd }
    {
        self.credit.data_recvd()
    }

    /// How many streams of a direction the peer may open in all: the limit that is enforced (RFC 9000 section 4.6).
    pub fn max_remote(&self, dir: Dir) -> u64
        ensures count { result ≡ (remote_of (streams_view self.now) dir).max_remote }
        ensures small { result ≤ 2 ^ 60 }
    {
        match dir {
            Dir::Bi => self.bi.max_remote(),
            Dir::Uni => self.uni.max_remote(),
        }
    }

    /// The lowest index of a direction that the peer did not open: how many streams it opened in all (RFC 9000 section
    /// 2.1).
    pub fn next_remote(&self, dir: Dir) -> u64
        ensures { result ≡ (remote_of (streams_view self.now) dir).next_remote }
    {
        match dir {
            Dir::Bi => self.bi.next_remote(),
            Dir::Uni => self.uni.next_remote(),
        }
    }

    // How many streams of a direction the peer has open.
    pub(crate) fn remote_open(&self, dir: Dir) -> u64
        ensures { result ≡ open_now (remote_of (streams_view self.now) dir) }
    {
        match dir {
            Dir::Bi => self.bi.open_now(),
            Dir::Uni => self.uni.open_now(),
        }
    }

    /// Whether MAX_STREAM_DATA would be of use to the peer on a stream: its receive half is held and not stopped, and the
    /// final size is not known (RFC 9000 section 4.1).
    pub fn can_send_flow_control(&self, id: StreamId) -> bool
        ensures { result ≡ is_flow_controlled ((streams_view self.now).receive id) }
    {
        self.receive.is_flow_controlled(id)
    }
}
