//! The streams that a host was given, its words for them, and those streams that may have ended.

ghost use Rattle.std.specs.Prelude.{ℕ, List, ◌≡◌, ◌≤◌, ◌<◌, ◌+◌, ◌∷◌, length, [], false, true, is_some, IfSome, IfNone, OnOk, OnErr, Some, None};
ghost use Rattle.std.specs.VecDeque.{deque_capacity};
ghost use Rattle.quic_session.specs.Marks.{mark_count};

use block_map::BlockMap;
use quic_values::{OutOfMemory, StreamId, VarInt};
use std::alloc::Global;
use std::collections::VecDeque;

// Whether a stream stands among those that may have ended.
const UNTOUCHED: u64 = 0;

const TOUCHED: u64 = 1;

/// The streams that a host was given and whose end was not reported to it, with its words.
#[derive(Drop)]
pub(crate) struct Tracked {
    // Each stream, with whether it stands in `touched`.
    streams: BlockMap,
    // The words that were set.
    words: BlockMap,
    // The streams that may have ended, the oldest first.
    touched: VecDeque<StreamId>,
    // Whether there is room for one more stream.
    ready: bool,
    ghost marked: { length touched.items ≤ mark_count streams.items },
    ghost places: { length streams.items ≤ deque_capacity touched },
    ghost prepared: { ready ≡ true → (streams.room ≡ true) × (length streams.items < deque_capacity touched) },
}

// The key of a stream.
fn key_of(id: StreamId) -> u64
    ensures { result ≡ id }
{
    VarInt::from(id).into_inner()
}

impl Tracked {
    ghost use Rattle.quic_session.specs.Users.{tracked_view, at, is_known, with_known, with_word, with_touched, without_first_touched, last_word, without_stream, no_users};

    /// No stream. Takes no memory.
    pub(crate) fn new(alloc: Global) -> Self
        ensures { tracked_view result ≡ record no_users { tracks = true } }
    {
        Tracked {
            streams: BlockMap::new(alloc),
            words: BlockMap::new(alloc),
            touched: VecDeque::new(alloc),
            ready: false,
        }
    }

    /// Makes room for one more stream, and for the note that it may have ended.
    pub(crate) fn reserve(&mut self) -> Result<(), OutOfMemory>
        ensures ok { OnOk result (tracked_view self.new ≡ record (tracked_view self.old) { ready = true }) }
        ensures err { OnErr result (tracked_view self.new ≡ tracked_view self.old) }
    {
        if self.ready {
            return Ok(());
        }
        let missing = self.streams.len() - self.touched.len() + 1;
        self.touched.reserve(missing)?;
        self.streams.reserve()?;
        self.ready = true;
        Ok(())
    }

    /// Adds a stream, if there is room for it that was made.
    pub(crate) fn add(&mut self, id: StreamId)
        ensures { tracked_view self.new ≡ with_known id (tracked_view self.old) }
    {
        let key = key_of(id);
        if self.ready && self.streams.get(key).is_none() {
            self.ready = false;
            let _ = self.streams.insert(key, UNTOUCHED);
        }
    }

    /// Whether there is such a stream.
    pub(crate) fn has(&self, id: StreamId) -> bool
        ensures { result ≡ is_some (at (tracked_view self.now).streams id) }
    {
        self.streams.get(key_of(id)).is_some()
    }

    /// The word of a stream, if one was set.
    pub(crate) fn word(&self, id: StreamId) -> Option<u64>
        ensures { result ≡ at (tracked_view self.now).words id }
    {
        self.words.get(key_of(id))
    }

    /// Sets the word of a stream.
    pub(crate) fn set_word(&mut self, id: StreamId, word: u64) -> Result<(), OutOfMemory>
        ensures ok { OnOk result (tracked_view self.new ≡ with_word id word (tracked_view self.old)) }
        ensures err { OnErr result (tracked_view self.new ≡ tracked_view self.old) }
    {
        self.words.reserve()?;
        let _ = self.words.insert(key_of(id), word);
        Ok(())
    }

    /// Notes that a stream may have ended. Needs no memory.
    pub(crate) fn touch(&mut self, id: StreamId)
        ensures { tracked_view self.new ≡ with_touched id (tracked_view self.old) }
    {
        let Some(place) = self.streams.place_of(key_of(id)) else {
            return;
        };
        if self.streams.entry(place).1 == UNTOUCHED {
            self.streams.set_value(place, TOUCHED);
            self.touched.push_back_reserved(id);
        }
    }

    /// Takes out the stream that was noted first of those that may have ended.
    pub(crate) fn next_touched(&mut self) -> Option<StreamId>
        ensures some { IfSome result (λ id. (ids : List ℕ) × ((tracked_view self.old).touched ≡ id ∷ ids) × (tracked_view self.new ≡ without_first_touched id ids (tracked_view self.old))) }
        ensures none { IfNone result (((tracked_view self.old).touched ≡ []) × (tracked_view self.new ≡ tracked_view self.old)) }
    {
        let id = self.touched.pop_front()?;
        if let Some(place) = self.streams.place_of(key_of(id)) {
            self.streams.set_value(place, UNTOUCHED);
        }
        Some(id)
    }

    /// Forgets a stream that is not noted, and gives its word, 0 if none was set.
    pub(crate) fn remove(&mut self, id: StreamId) -> Option<u64>
        ensures word { result ≡ last_word id (tracked_view self.old) }
        ensures rest { tracked_view self.new ≡ without_stream id (tracked_view self.old) }
        ensures gone { IfSome result (λ word. is_known (tracked_view self.new) id ≡ false) }
    {
        let key = key_of(id);
        let _count = self.streams.len();
        let Some(UNTOUCHED) = self.streams.get(key) else {
            return None;
        };
        self.ready = false;
        let _ = self.streams.remove(key);
        Some(self.words.remove(key).unwrap_or(0))
    }

    /// Forgets all.
    pub(crate) fn clear(&mut self, alloc: Global)
        ensures { tracked_view self.new ≡ record no_users { tracks = true } }
    {
        *self = Tracked::new(alloc);
    }
}
