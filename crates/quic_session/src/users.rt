//! What a session keeps of the streams that its host was given, if the host asked for it.

ghost use Rattle.std.specs.Prelude.{ℕ, List, ◌≡◌, ◌∷◌, [], true, false, is_some, IfSome, IfNone, OnOk, OnErr};

use crate::tracked::Tracked;
use quic_values::{OutOfMemory, StreamId};
use std::alloc::Global;

/// The streams of a host, if it asked for its word of each and for an event when one is over.
#[derive(Drop)]
pub struct Users {
    tracked: Option<Box<Tracked>>,
}

impl Users {
    ghost use Rattle.quic_session.specs.Users.{users_view, at, is_known, with_known, with_word, with_touched, with_room, without_first_touched, last_word, without_stream, without_streams, no_users};

    /// Nothing is kept. Takes no memory.
    pub(crate) fn new() -> Self
        ensures { users_view result ≡ no_users }
    {
        Users { tracked: None }
    }

    /// From now on the streams that the host is given are kept.
    pub(crate) fn track(&mut self, alloc: Global) -> Result<(), OutOfMemory>
        ensures ok { OnOk result (users_view self.new ≡ record (users_view self.old) { tracks = true }) }
        ensures err { OnErr result (users_view self.new ≡ users_view self.old) }
    {
        if self.tracked.is_none() {
            self.tracked = Some(Box::new(alloc, Tracked::new(alloc))?);
        }
        Ok(())
    }

    /// Makes room for one more stream, and for the note that it may have ended.
    pub(crate) fn reserve(&mut self) -> Result<(), OutOfMemory>
        ensures ok { OnOk result (users_view self.new ≡ with_room (users_view self.old)) }
        ensures err { OnErr result (users_view self.new ≡ users_view self.old) }
    {
        match &mut self.tracked {
            Some(tracked) => tracked.reserve(),
            None => Ok(()),
        }
    }

    /// Adds a stream, if there is room for it that was made.
    pub(crate) fn add(&mut self, id: StreamId)
        ensures { users_view self.new ≡ with_known id (users_view self.old) }
    {
        if let Some(tracked) = &mut self.tracked {
            tracked.add(id);
        }
    }

    /// Whether there is such a stream.
    pub(crate) fn has(&self, id: StreamId) -> bool
        ensures { result ≡ is_some (at (users_view self.now).streams id) }
    {
        match &self.tracked {
            Some(tracked) => tracked.has(id),
            None => false,
        }
    }

    /// The word of a stream, if one was set.
    pub(crate) fn word(&self, id: StreamId) -> Option<u64>
        ensures { result ≡ at (users_view self.now).words id }
    {
        match &self.tracked {
            Some(tracked) => tracked.word(id),
            None => None,
        }
    }

    /// Sets the word of a stream that is there.
    pub(crate) fn set_word(&mut self, id: StreamId, word: u64) -> Result<(), OutOfMemory>
        ensures ok { OnOk result (is_known (users_view self.old) id ≡ true → users_view self.new ≡ with_word id word (users_view self.old)) }
        ensures err { OnErr result (users_view self.new ≡ users_view self.old) }
    {
        match &mut self.tracked {
            Some(tracked) => tracked.set_word(id, word),
            None => Ok(()),
        }
    }

    /// Notes that a stream may have ended. Needs no memory.
    #[inline]
    pub(crate) fn touch(&mut self, id: StreamId)
        ensures { users_view self.new ≡ with_touched id (users_view self.old) }
    {
        if let Some(tracked) = &mut self.tracked {
            tracked.touch(id);
        }
    }

    /// Takes out the stream that was noted first of those that may have ended.
    pub(crate) fn next_touched(&mut self) -> Option<StreamId>
        ensures some { IfSome result (λ id. (ids : List ℕ) × ((users_view self.old).touched ≡ id ∷ ids) × (users_view self.new ≡ without_first_touched id ids (users_view self.old))) }
        ensures none { IfNone result (((users_view self.old).touched ≡ []) × (users_view self.new ≡ users_view self.old)) }
    {
        match &mut self.tracked {
            Some(tracked) => tracked.next_touched(),
            None => None,
        }
    }

    /// Forgets a stream that is not noted, and returns its word, 0 if none was set.
    pub(crate) fn remove(&mut self, id: StreamId) -> Option<u64>
        ensures word { result ≡ last_word id (users_view self.old) }
        ensures rest { users_view self.new ≡ without_stream id (users_view self.old) }
        ensures gone { IfSome result (λ word. is_known (users_view self.new) id ≡ false) }
    {
        match &mut self.tracked {
            Some(tracked) => tracked.remove(id),
            None => None,
        }
    }

    /// Forgets all streams.
    pub(crate) fn clear(&mut self, alloc: Global)
        ensures { users_view self.new ≡ without_streams (users_view self.old) }
    {
        if let Some(tracked) = &mut self.tracked {
            tracked.clear(alloc);
        }
    }
}
