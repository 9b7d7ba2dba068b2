//! Sets of stream ids, of which one has a place of its own.

ghost use Rattle.std.specs.Prelude.{◌≡◌, ◌+◌, ◌<◌, ◌≤◌, ◌==◌, ◌||◌, not, true, false, OnOk, OnErr, IfOk, IsOk, IsTrue, ◌↔◌};
ghost use Rattle.std.specs.HashSet.{contains, hash_set_len};
ghost use Rattle.quic_retransmits.specs.Ids.{has_own_place, own_entries, is_in_ids, id_count, id_entries, id_rooms, id_places};
ghost use Rattle.quic_retransmits.specs.Queueing.{with_id};
ghost use Rattle.quic_retransmits.specs.Settling.{without_id, IsSomeIn};

use crate::id_table::IdTable;
use quic_values::{OutOfMemory, StreamId};
use std::alloc::Global;
use std::collections::HashSet;

/// A set of stream ids. The first id that is put into it takes no memory.
#[derive(Drop)]
pub struct StreamIds {
    /// One of them, if it stands here.
    pub first: Option<StreamId>,
    /// Those that stand elsewhere. The id in `first` may stand here too: it is one id.
    pub others: IdTable,
}

impl StreamIds {
    /// No ids. Takes no memory.
    #[inline]
    pub fn new(alloc: Global) -> Self
        ensures { is_in_ids result ≡ (λ id. false) }
    {
        StreamIds {
            first: None,
            others: IdTable::new(alloc),
        }
    }

    /// Whether an id is in the set.
    #[inline]
    pub fn contains(&self, id: StreamId) -> bool
        ensures { result ≡ is_in_ids self.now id }
    {
        self.stands_first(id) || self.others.contains(id)
    }

    /// How many ids there are.
    pub fn len(&self) -> usize
        ensures { result ≡ id_count self.now }
    {
        match self.first {
            Some(first) => {
                if self.others.contains(first) {
                    self.others.len()
                } else {
                    self.others.len() + 1
                }
            }
            None => self.others.len(),
        }
    }

    /// Whether there is no id.
    pub fn is_empty(&self) -> bool
        ensures { IsTrue result ↔ (id_count self.now ≡ 0) }
    {
        self.len() == 0
    }

    // Whether an id stands in `first`.
    #[inline]
    fn stands_first(&self, id: StreamId) -> bool
        ensures { result ≡ has_own_place self.now.first id }
    {
        match self.first {
            Some(first) => id == first,
            None => false,
        }
    }

    // How many places the ids take.
    pub(crate) fn entries(&self) -> usize
        ensures { result ≡ id_entries self.now }
    {
        match self.first {
            Some(_) => self.others.len() + 1,
            None => self.others.len(),
        }
    }

    // Makes room for so many more.
    pub(crate) fn reserve(&mut self, additional: usize) -> Result<(), OutOfMemory>
        ensures same { is_in_ids self.new ≡ is_in_ids self.old }
        ensures ok { OnOk result (additional ≤ id_rooms self.new) }
    {
        let elsewhere = match self.first {
            Some(_) => additional,
            None => additional.saturating_sub(1),
        };
        if elsewhere > 0 {
            self.others.reserve(elsewhere)?;
        }
        Ok(())
    }

    // Makes room for an id.
    #[inline]
    pub(crate) fn reserve_for(&mut self, id: StreamId) -> Result<(), OutOfMemory>
        ensures same { is_in_ids self.new ≡ is_in_ids self.old }
        ensures ok { OnOk result (1 ≤ id_places self.new id) }
        ensures roomy { 1 ≤ id_places self.old id → IsOk result }
    {
        if self.first.is_some() && !self.contains(id) {
            self.others.reserve(1)?;
        }
        Ok(())
    }

    // Puts an id in, in room that was made.
    #[inline]
    pub(crate) fn insert_reserved(&mut self, id: StreamId)
        requires { 1 ≤ id_places self.old id }
        ensures set { is_in_ids self.new ≡ with_id (is_in_ids self.old) id true }
        ensures room { id_rooms self.old ≤ id_rooms self.new + 1 }
    {
        if self.first.is_none() {
            self.first = Some(id);
        } else if !self.stands_first(id) {
            self.others.insert_reserved(id);
        }
    }

    /// Puts an id in, and says whether it is new. It is refused only where no place is left for it, and then nothing
    /// changes.
    pub fn insert(&mut self, id: StreamId) -> Result<bool, OutOfMemory>
        ensures ok { OnOk result (is_in_ids self.new ≡ with_id (is_in_ids self.old) id true) }
        ensures added { IfOk result (λ added. added ≡ not (is_in_ids self.old id)) }
        ensures roomy { 1 ≤ id_places self.old id → IsOk result }
        ensures err { OnErr result (is_in_ids self.new ≡ is_in_ids self.old) }
    {
        let added = !self.contains(id);
        self.reserve_for(id)?;
        self.insert_reserved(id);
        Ok(added)
    }

    // Takes an id out, wherever it stands.
    #[inline]
    pub(crate) fn remove(&mut self, id: StreamId)
        ensures set { is_in_ids self.new ≡ without_id (is_in_ids self.old) id }
        ensures fewer { is_in_ids self.old id ≡ true → id_entries self.new < id_entries self.old }
    {
        self.clear_first(id);
        self.others.remove(id);
    }

    // Takes an id out of `first`, if it stands there.
    #[inline]
    fn clear_first(&mut self, id: StreamId)
        ensures first { has_own_place self.new.first ≡ without_id (has_own_place self.old.first) id }
        ensures others { self.new.others ≡ self.old.others }
        ensures no_more { own_entries self.new.first ≤ own_entries self.old.first }
        ensures fewer { has_own_place self.old.first id ≡ true → own_entries self.new.first < own_entries self.old.first }
    {
        if self.stands_first(id) {
            self.first = None;
        }
    }

    // Some id of the set.
    #[inline]
    pub(crate) fn some(&self) -> Option<StreamId>
        ensures { IsSomeIn (is_in_ids self.now) result }
    {
        match self.first {
            Some(first) => Some(first),
            None => self.others.some(),
        }
    }

    // Adds the ids of another set, in room that was made.
    pub(crate) fn add_all(&mut self, more: &StreamIds)
        requires { id_entries more.now ≤ id_rooms self.old }
        ensures { is_in_ids self.new ≡ (λ id. is_in_ids self.old id || is_in_ids more.now id) }
    {
        self.add_first(more.first);
        if let Some(table) = more.others.table() {
            self.add_others(table);
        }
    }

    fn add_first(&mut self, first: Option<StreamId>)
        requires { own_entries first ≤ id_rooms self.old }
        ensures set { is_in_ids self.new ≡ (λ id. is_in_ids self.old id || has_own_place first id) }
        ensures room { id_rooms self.old ≤ id_rooms self.new + own_entries first }
    {
        if let Some(first) = first {
            self.insert_reserved(first);
        }
    }

    fn add_others(&mut self, more: &HashSet<StreamId>)
        requires { hash_set_len more.now ≤ id_rooms self.old }
        ensures { is_in_ids self.new ≡ (λ id. is_in_ids self.old id || contains ◌==◌ more.now id) }
    {
        for id in more.iter() {
            self.insert_reserved(*id);
        }
    }

    // The same ids.
    pub(crate) fn copy(&self, alloc: Global) -> Result<StreamIds, OutOfMemory>
        ensures { IfOk result (λ copy. is_in_ids copy ≡ is_in_ids self.now) }
    {
        let mut copy = StreamIds::new(alloc);
        copy.reserve(self.entries())?;
        copy.add_all(self);
        Ok(copy)
    }
}
