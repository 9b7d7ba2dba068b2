//! Stream ids in a table of their own.

ghost use Rattle.std.specs.Prelude.{◌≡◌, ◌+◌, ◌<◌, ◌≤◌, ◌^◌, ◌==◌, ℕ, true, false, if◌then◌else◌, OnOk, IsOk, IfSome, IfNone, IsTrue, ◌↔◌};
ghost use Rattle.std.specs.HashSet.{contains, hash_set_len};
ghost use Rattle.quic_retransmits.specs.Ids.{is_in_table, table_count, table_room};
ghost use Rattle.quic_retransmits.specs.Settling.{IsSomeIn};

use quic_values::{OutOfMemory, StreamId};
use std::alloc::Global;
use std::collections::HashSet;

/// Stream ids in a table, which is made when room is first wanted in it.
#[derive(Drop)]
pub struct IdTable {
    table: Option<Box<HashSet<StreamId>>>,
    alloc: Global,
}

impl IdTable {
    /// No ids. Takes no memory.
    #[inline]
    pub(crate) fn new(alloc: Global) -> Self
        ensures none { (id : ℕ) → is_in_table result id ≡ false }
        ensures count { table_count result ≡ 0 }
    {
        IdTable { table: None, alloc }
    }

    /// Whether an id is there.
    #[inline]
    pub fn contains(&self, id: StreamId) -> bool
        ensures { result ≡ is_in_table self.now id }
    {
        match &self.table {
            Some(table) => table.contains(&id),
            None => false,
        }
    }

    /// How many ids there are.
    #[inline]
    pub fn len(&self) -> usize
        ensures len { result ≡ table_count self.now }
        ensures small { result < 2 ^ 63 }
    {
        match &self.table {
            Some(table) => table.len(),
            None => 0,
        }
    }

    /// The table, if it was made.
    #[inline]
    pub fn table(&self) -> Option<&HashSet<StreamId>>
        ensures same { IfSome result (λ t. contains ◌==◌ t.now ≡ is_in_table self.now) }
        ensures count { IfSome result (λ t. hash_set_len t.now ≡ table_count self.now) }
        ensures none { IfNone result ((id : ℕ) → is_in_table self.now id ≡ false) }
    {
        match &self.table {
            Some(table) => Some(table),
            None => None,
        }
    }

    /// Whether there is no id.
    pub fn is_empty(&self) -> bool
        ensures { IsTrue result ↔ (table_count self.now ≡ 0) }
    {
        self.len() == 0
    }

    /// Makes room for so many more.
    pub(crate) fn reserve(&mut self, additional: usize) -> Result<(), OutOfMemory>
        ensures same { (id : ℕ) → is_in_table self.new id ≡ is_in_table self.old id }
        ensures ok { OnOk result (additional ≤ table_room self.new) }
        ensures roomy { 1 ≤ additional → additional ≤ table_room self.old → IsOk result }
    {
        match &mut self.table {
            Some(table) => table.reserve(additional)?,
            None => {
                let mut table = Box::new(self.alloc, HashSet::new(self.alloc))?;
                table.reserve(additional)?;
                self.table = Some(table);
            }
        }
        Ok(())
    }

    /// Puts an id in, in room that was made.
    pub(crate) fn insert_reserved(&mut self, id: StreamId)
        requires { 1 ≤ (if is_in_table self.old id then 1 else table_room self.old) }
        ensures set { (q : ℕ) → is_in_table self.new q ≡ (if id == q then true else is_in_table self.old q) }
        ensures room { table_room self.old ≤ table_room self.new + 1 }
    {
        if let Some(table) = &mut self.table {
            let _ = table.insert(id);
        }
    }

    /// Takes an id out, if it is there.
    #[inline]
    pub(crate) fn remove(&mut self, id: StreamId)
        ensures set { (q : ℕ) → is_in_table self.new q ≡ (if id == q then false else is_in_table self.old q) }
        ensures count { table_count self.new + (if is_in_table self.old id then 1 else 0) ≡ table_count self.old }
    {
        if let Some(table) = &mut self.table
            && !table.is_empty()
        {
            let _ = table.remove(&id);
        }
    }

    /// Some id of the table.
    #[inline]
    pub(crate) fn some(&self) -> Option<StreamId>
        ensures { IsSomeIn (is_in_table self.now) result }
    {
        match &self.table {
            Some(table) => table.iter().next().copied(),
            None => None,
        }
    }
}
