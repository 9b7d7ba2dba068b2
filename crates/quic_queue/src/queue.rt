//! The send queue: the streams that have something to send, the highest priority first.

ghost use Rattle.std.specs.Prelude.{◌≡◌, ◌≢◌, ◌==◌, int_lt, Some, None, Bool, true, false, not, is_some, IsOk, IfOk, OnOk, OnErr, IfSome, IsSomeAnd, length, slice_get, drop, ℕ, ℤ};
ghost use Rattle.std.specs.List.{list_any};
ghost use Rattle.quic_queue.specs.SendOrder.{empty_queue, put, with_entry, line, first, without_next, with_turn_ended, IsReserved, HasTurnPlace, NoneIsHigher, Tells, ids_of};
ghost use Rattle.quic_queue.specs.Levels.{FirstIsEmpty, HasRoom, HasRoomAt, IsAbove, IsFilled, IsFirstPriority, KeepsOtherLevels, KeepsRoomAtOthers, entries_of, waiting_of};

use quic_values::{OutOfMemory, StreamId};
use std::alloc::Global;
use std::cmp::Reverse;
use std::collections::{BTreeMap, VecDeque};
use std::marker::Model;
use std::mem;

/// A stream in the queue.
#[derive(Clone, Copy, Debug, PartialEq, Eq)]
pub struct Entry {
    /// The priority of the stream when it was put.
    pub priority: i32,
    pub id: StreamId,
}

/// What becomes of the first stream at the end of its turn.
#[derive(Clone, Copy, Debug, PartialEq, Eq)]
pub enum Next {
    /// It has nothing more to send.
    LetGo,
    /// It is put anew, at this priority.
    PutAnew(i32),
    /// It comes before all others.
    KeepBack,
}

type Levels = BTreeMap<Reverse<i32>, VecDeque<StreamId>>;

// The ids of a priority that stands apart from the others: mostly a queue has one.
#[derive(Drop)]
struct TopLevel {
    priority: i32,
    ids: VecDeque<StreamId>,
}

/// The streams that have something to send. Those of a higher priority come first, and those of equal priority as they
/// were put. A stream may stand in it more than once.
#[derive(Drop)]
pub struct SendQueue {
    alloc: Global,
    // The highest priority. It may have no ids, and keeps its memory then.
    top: TopLevel,
    // The ids of each lower priority, the highest first. Only the reserved one may have none.
    lower: Levels,
    // Comes before all others.
    kept: Option<Entry>,
    // The priority for which there is room.
    reserved: Option<i32>,
}

impl Model for SendQueue {
    ghost use Rattle.quic_queue.specs.SendOrder.{SendOrder};

    ghost Value = { SendOrder };

    ghost use Rattle.quic_queue.specs.Levels.{waiting_of, AreLevels};

    ghost view = { λ a. record { waiting = waiting_of a.top a.lower; kept = a.kept; reserved = a.reserved } };

    ghost invariant = { λ a. AreLevels a.top a.lower a.reserved };
}

// The first id of the highest priority that has one. Mostly it is of the top level.
#[inline]
fn first_entry(top: &TopLevel, lower: &Levels) -> Option<Entry>
    requires { IsAbove top.now.priority lower.now }
    ensures first { result ≡ slice_get (waiting_of top.now lower.now) 0 }
    ensures highest { IfSome result (λ e. NoneIsHigher e.priority (waiting_of top.now lower.now)) }
{
    match top.ids.front() {
        Some(id) => Some(Entry {
            priority: top.priority,
            id: *id,
        }),
        None => first_below(lower),
    }
}

// The first id of the highest priority that has one, below the top level. Mostly the first level has one.
fn first_below(levels: &Levels) -> Option<Entry>
    ensures first { result ≡ slice_get (entries_of levels.now.entries) 0 }
    ensures highest { IfSome result (λ e. NoneIsHigher e.priority (entries_of levels.now.entries)) }
{
    let (priority, ids) = levels.first_key_value()?;
    match ids.front() {
        Some(id) => Some(Entry {
            priority: priority.0,
            id: *id,
        }),
        None => first_behind(levels),
    }
}

// The first id of the highest priority that has one, where the first level has none.
fn first_behind(levels: &Levels) -> Option<Entry>
    requires { FirstIsEmpty levels.now.entries }
    ensures first { result ≡ slice_get (entries_of levels.now.entries) 0 }
    ensures highest { IfSome result (λ e. NoneIsHigher e.priority (entries_of levels.now.entries)) }
{
    if levels.len() == 1 {
        return None;
    }
    first_of_all(levels)
}

// The first id of the highest priority that has one, where the first level may have none.
#[inline(never)]
fn first_of_all(levels: &Levels) -> Option<Entry>
    ensures first { result ≡ slice_get (entries_of levels.now.entries) 0 }
    ensures highest { IfSome result (λ e. NoneIsHigher e.priority (entries_of levels.now.entries)) }
{
    for (priority, ids) in levels {
        if let Some(id) = ids.front() {
            return Some(Entry {
                priority: priority.0,
                id: *id,
            });
        }
    }
    None
}

// The same ids.
fn copy_of_ids(ids: &VecDeque<StreamId>) -> Result<VecDeque<StreamId>, OutOfMemory>
    ensures { IfOk result (λ copy. copy.items ≡ ids.now.items) }
{
    Ok(ids.clone()?)
}

// The same ids of each priority.
fn copy_of(levels: &Levels) -> Result<Levels, OutOfMemory>
    ensures shown { IfOk result (λ copy. entries_of copy.entries ≡ entries_of levels.now.entries) }
    ensures filled { IfOk result (λ copy. (priority : ℤ) → IsFilled levels.now priority → IsFilled copy priority) }
    ensures above { IfOk result (λ copy. (q : ℤ) → IsAbove q levels.now → IsAbove q copy) }
{
    Ok(levels.clone()?)
}

// Makes room for one id more at a priority.
#[inline]
fn make_room(
    top: &mut TopLevel,
    lower: &mut Levels,
    alloc: Global,
    priority: i32,
) -> Result<(), OutOfMemory>
    requires { IsAbove top.old.priority lower.old }
    ensures shown { waiting_of top.new lower.new ≡ waiting_of top.old lower.old }
    ensures above { IsAbove top.new.priority lower.new }
    ensures ok { OnOk result (HasRoomAt top.new lower.new priority) }
    ensures err { OnErr result (KeepsRoomAtOthers top.old lower.old priority top.new lower.new × (IsFilled lower.old priority → IsFilled lower.new priority)) }
    ensures filled { (other : ℤ) → other ≢ priority → IsFilled lower.old other → IsFilled lower.new other }
    ensures unneeded { HasRoomAt top.old lower.old priority → IsOk result }
{
    if priority != top.priority {
        return make_other_room(top, lower, alloc, priority);
    }
    top.ids.reserve(1)?;
    Ok(())
}

// Makes room for one id more at a priority that is not the top one. Where the top level has no ids, and no other is above
// the priority, it is the top one then.
#[inline(never)]
fn make_other_room(
    top: &mut TopLevel,
    lower: &mut Levels,
    alloc: Global,
    priority: i32,
) -> Result<(), OutOfMemory>
    requires above { IsAbove top.old.priority lower.old }
    requires apart { priority ≢ top.old.priority }
    ensures shown { waiting_of top.new lower.new ≡ waiting_of top.old lower.old }
    ensures above { IsAbove top.new.priority lower.new }
    ensures ok { OnOk result (HasRoomAt top.new lower.new priority) }
    ensures err { OnErr result (KeepsRoomAtOthers top.old lower.old priority top.new lower.new × (IsFilled lower.old priority → IsFilled lower.new priority)) }
    ensures filled { (other : ℤ) → other ≢ priority → IsFilled lower.old other → IsFilled lower.new other }
    ensures unneeded { HasRoomAt top.old lower.old priority → IsOk result }
{
    if priority > top.priority {
        return rise_to(top, lower, alloc, priority);
    }
    if top.ids.is_empty() && lower.is_empty() {
        top.ids.reserve(1)?;
        top.priority = priority;
        return Ok(());
    }
    make_room_at(lower, alloc, priority)
}

// Makes a higher priority the top one, with room for one id more.
fn rise_to(
    top: &mut TopLevel,
    lower: &mut Levels,
    alloc: Global,
    priority: i32,
) -> Result<(), OutOfMemory>
    requires above { IsAbove top.old.priority lower.old }
    requires higher { int_lt top.old.priority priority ≡ true }
    ensures shown { waiting_of top.new lower.new ≡ waiting_of top.old lower.old }
    ensures above { IsAbove top.new.priority lower.new }
    ensures ok { OnOk result (HasRoomAt top.new lower.new priority) }
    ensures err { OnErr result (((other : ℤ) → HasRoomAt top.old lower.old other → HasRoomAt top.new lower.new other) × ((other : ℤ) → IsFilled lower.old other → IsFilled lower.new other)) }
    ensures filled { (other : ℤ) → other ≢ priority → IsFilled lower.old other → IsFilled lower.new other }
{
    if top.ids.is_empty() {
        top.ids.reserve(1)?;
        top.priority = priority;
        return Ok(());
    }
    let ids = VecDeque::with_capacity(alloc, 1)?;
    let former = mem::replace(&mut top.ids, ids);
    if let Err(refused) = lower.insert(Reverse(top.priority), former) {
        let (_, former) = refused.value;
        top.ids = former;
        return Err(OutOfMemory);
    }
    top.priority = priority;
    Ok(())
}

// Makes room for one id more at a priority below the top one.
#[inline]
fn make_room_at(levels: &mut Levels, alloc: Global, priority: i32) -> Result<(), OutOfMemory>
    ensures shown { entries_of levels.new.entries ≡ entries_of levels.old.entries }
    ensures others { KeepsOtherLevels levels.old priority levels.new }
    ensures ok { OnOk result (HasRoom levels.new priority) }
    ensures err { OnErr result (IsFilled levels.old priority → IsFilled levels.new priority) }
    ensures unneeded { HasRoom levels.old priority → IsOk result }
{
    match levels.get_mut(&Reverse(priority)) {
        Some(ids) => ids.reserve(1)?,
        None => {
            let ids = VecDeque::with_capacity(alloc, 1)?;
            levels.insert(Reverse(priority), ids)?;
        }
    }
    Ok(())
}

// Drops a priority that has no ids.
fn drop_if_empty(levels: &mut Levels, priority: i32)
    ensures shown { entries_of levels.new.entries ≡ entries_of levels.old.entries }
    ensures others { KeepsOtherLevels levels.old priority levels.new }
    ensures above { (q : ℤ) → IsAbove q levels.old → IsAbove q levels.new }
    ensures filled { IsFilled levels.new priority }
{
    let Some(ids) = levels.get(&Reverse(priority)) else {
        return;
    };
    if ids.is_empty() {
        levels.remove(&Reverse(priority));
    }
}

// Puts an id behind the others of a priority.
#[inline]
fn push_at(levels: &mut Levels, priority: i32, id: StreamId)
    requires { HasRoom levels.old priority }
    ensures shown { entries_of levels.new.entries ≡ put (entries_of levels.old.entries) (record { priority = priority; id = id }) }
    ensures others { KeepsOtherLevels levels.old priority levels.new }
    ensures above { (q : ℤ) → IsAbove q levels.old → IsAbove q levels.new }
    ensures filled { IsFilled levels.new priority }
{
    match levels.get_mut(&Reverse(priority)) {
        Some(ids) => ids.push_back_reserved(id),
        None => unreachable!(),
    }
}

// Takes the first id of the highest priority out.
#[inline]
fn pop_at(levels: &mut Levels, priority: i32)
    requires { IsFirstPriority levels.old.entries priority }
    ensures shown { entries_of levels.new.entries ≡ drop 1 (entries_of levels.old.entries) }
    ensures others { KeepsOtherLevels levels.old priority levels.new }
    ensures above { (q : ℤ) → IsAbove q levels.old → IsAbove q levels.new }
    ensures room { HasRoom levels.new priority }
{
    match levels.get_mut(&Reverse(priority)) {
        Some(ids) => {
            ids.pop_front();
        }
        None => unreachable!(),
    }
}

// Puts the first id of the highest priority behind the others of that priority.
#[inline]
fn turn_at(levels: &mut Levels, priority: i32, id: StreamId)
    requires { slice_get (entries_of levels.old.entries) 0 ≡ Some (record { priority = priority; id = id }) }
    ensures shown { entries_of levels.new.entries ≡ put (drop 1 (entries_of levels.old.entries)) (record { priority = priority; id = id }) }
    ensures others { KeepsOtherLevels levels.old priority levels.new }
    ensures above { (q : ℤ) → IsAbove q levels.old → IsAbove q levels.new }
    ensures filled { IsFilled levels.new priority }
{
    match levels.get_mut(&Reverse(priority)) {
        Some(ids) => {
            ids.pop_front();
            ids.push_back_reserved(id);
        }
        None => unreachable!(),
    }
}

// Whether any of some ids passes a test.
fn any_in<F: Fn(StreamId) -> bool>(ids: &VecDeque<StreamId>, test: &F) -> bool
    requires { F.IsAlwaysCallable test.now }
    ensures { (p : ℕ → Bool) → Tells (F.post test.now) p → result ≡ list_any p ids.now.items }
{
    for id in ids {
        if test(*id) {
            return true;
        }
    }
    false
}

// Whether any id of the top level or below it passes a test.
fn any_waiting<F: Fn(StreamId) -> bool>(top: &TopLevel, lower: &Levels, test: &F) -> bool
    requires { F.IsAlwaysCallable test.now }
    ensures { (p : ℕ → Bool) → Tells (F.post test.now) p → result ≡ list_any p (ids_of (waiting_of top.now lower.now)) }
{
    if any_in(&top.ids, test) {
        return true;
    }
    any_at(lower, test)
}

// Whether any id of any priority below the top level passes a test.
fn any_at<F: Fn(StreamId) -> bool>(levels: &Levels, test: &F) -> bool
    requires { F.IsAlwaysCallable test.now }
    ensures { (p : ℕ → Bool) → Tells (F.post test.now) p → result ≡ list_any p (ids_of (entries_of levels.now.entries)) }
{
    for (_, ids) in levels {
        if any_in(ids, test) {
            return true;
        }
    }
    false
}

impl SendQueue {
    /// An empty queue. Takes no memory.
    pub fn new(alloc: Global) -> Self
        ensures { result ≡ empty_queue }
    {
        SendQueue {
            alloc,
            top: TopLevel {
                priority: 0,
                ids: VecDeque::new(alloc),
            },
            lower: BTreeMap::new(alloc),
            kept: None,
            reserved: None,
        }
    }

    /// The same streams in the same order, with room for none.
    pub fn copy(&self) -> Result<SendQueue, OutOfMemory>
        ensures { IfOk result (λ copy. copy ≡ record self.now { reserved = None }) }
    {
        let ids = copy_of_ids(&self.top.ids)?;
        let mut lower = copy_of(&self.lower)?;
        if let Some(priority) = self.reserved {
            drop_if_empty(&mut lower, priority);
        }
        Ok(SendQueue {
            alloc: self.alloc,
            top: TopLevel {
                priority: self.top.priority,
                ids,
            },
            lower,
            kept: self.kept,
            reserved: None,
        })
    }

    /// Makes room for one stream of a priority, in place of the room that was there. Nothing changes if memory runs
    /// out, and none is taken where there is room for this priority.
    #[inline]
    pub fn reserve(&mut self, priority: i32) -> Result<(), OutOfMemory>
        ensures ok { OnOk result (self.new ≡ record self.old { reserved = Some priority }) }
        ensures err { OnErr result (self.new ≡ self.old) }
        ensures unneeded { self.old.reserved ≡ Some priority → IsOk result }
    {
        make_room(&mut self.top, &mut self.lower, self.alloc, priority)?;
        if let Some(former) = self.reserved.replace(priority) {
            if former != priority {
                drop_if_empty(&mut self.lower, former);
            }
        }
        Ok(())
    }

    /// Lets the room go that was made and not used.
    #[inline]
    pub fn release(&mut self)
        ensures { self.new ≡ record self.old { reserved = None } }
    {
        if let Some(former) = self.reserved.take() {
            drop_if_empty(&mut self.lower, former);
        }
    }

    /// Puts a stream behind those of its priority, for which there is room.
    #[inline]
    pub fn put(&mut self, id: StreamId, priority: i32)
        requires { self.old.reserved ≡ Some priority }
        ensures { self.new ≡ with_entry self.old (record { priority = priority; id = id }) }
    {
        self.reserved = None;
        if priority == self.top.priority {
            self.top.ids.push_back_reserved(id);
            return;
        }
        push_at(&mut self.lower, priority, id);
    }

    /// The next stream: the one that was kept back, or else the first of the highest priority.
    #[inline]
    pub fn first(&self) -> Option<Entry>
        ensures first { result ≡ first self.now }
        ensures highest { self.now.kept ≡ None → IfSome result (λ e. NoneIsHigher e.priority self.now.waiting) }
    {
        match self.kept {
            Some(entry) => Some(entry),
            None => first_entry(&self.top, &self.lower),
        }
    }

    /// Whether no stream is kept back.
    #[inline]
    pub fn keeps_none(&self) -> bool
        ensures { result ≡ not (is_some self.now.kept) }
    {
        self.kept.is_none()
    }

    /// Takes the next stream out. Room that was made stays.
    #[inline]
    pub fn take_first(&mut self) -> Option<Entry>
        ensures entry { result ≡ first self.old }
        ensures rest { self.new ≡ without_next self.old }
    {
        if let Some(entry) = self.kept.take() {
            return Some(entry);
        }
        let entry = first_entry(&self.top, &self.lower)?;
        self.take_at(entry.priority);
        Some(entry)
    }

    // Takes the first stream out, whose priority is given, where none is kept back. Room that was made stays, and so does
    // the memory of the top level.
    #[inline]
    fn take_at(&mut self, priority: i32)
        requires none_kept { self.old.kept ≡ None }
        requires is_first { IsSomeAnd (slice_get self.old.waiting 0) (λ e. e.priority ≡ priority) }
        ensures { self.new ≡ without_next self.old }
    {
        if self.top.ids.pop_front().is_some() {
            return;
        }
        pop_at(&mut self.lower, priority);
        if self.reserved != Some(priority) {
            drop_if_empty(&mut self.lower, priority);
        }
    }

    // Takes the first stream out, whose priority is given, where none is kept back. Room that was made is let go.
    #[inline]
    fn let_go_at(&mut self, priority: i32)
        requires none_kept { self.old.kept ≡ None }
        requires is_first { IsSomeAnd (slice_get self.old.waiting 0) (λ e. e.priority ≡ priority) }
        ensures { self.new ≡ record (without_next self.old) { reserved = None } }
    {
        self.take_at(priority);
        self.release();
    }

    /// The stream comes before all others, where none is kept back. Takes no memory.
    #[inline]
    pub fn keep_back(&mut self, entry: Entry)
        requires { self.old.kept ≡ None }
        ensures { self.new ≡ record self.old { kept = Some entry } }
    {
        self.kept = Some(entry);
    }

    /// Ends the turn of the next stream. Takes no memory: room to put it anew is made before its frame is begun, but where
    /// none is kept back and the stream keeps its priority, its own place serves. Room that was made and not used is let
    /// go.
    #[inline]
    pub fn end_turn(&mut self, entry: Entry, next: Next)
        requires is_first { first self.old ≡ Some entry }
        requires room { HasTurnPlace self.old entry next }
        ensures { self.new ≡ with_turn_ended (without_next self.old) entry next }
    {
        if self.kept.take().is_some() {
            self.settle(entry, next);
            return;
        }
        match next {
            Next::PutAnew(priority) if priority == entry.priority => self.turn(entry),
            Next::PutAnew(priority) => {
                self.take_at(entry.priority);
                self.put(entry.id, priority);
            }
            Next::LetGo => self.let_go_at(entry.priority),
            Next::KeepBack => {
                self.let_go_at(entry.priority);
                self.keep_back(entry);
            }
        }
    }

    // Puts the first stream behind the others of its priority, where none is kept back. Room that was made is let go.
    #[inline]
    fn turn(&mut self, entry: Entry)
        requires none_kept { self.old.kept ≡ None }
        requires is_first { first self.old ≡ Some entry }
        ensures { self.new ≡ with_entry (without_next self.old) entry }
    {
        self.release();
        if self.top.ids.pop_front().is_none() {
            turn_at(&mut self.lower, entry.priority, entry.id);
            return;
        }
        self.top.ids.push_back_reserved(entry.id);
    }

    // What becomes of a stream that was taken out.
    #[inline]
    fn settle(&mut self, entry: Entry, next: Next)
        requires none_kept { self.old.kept ≡ None }
        requires room { IsReserved self.old next }
        ensures { self.new ≡ with_turn_ended self.old entry next }
    {
        match next {
            Next::LetGo => self.release(),
            Next::PutAnew(priority) => self.put(entry.id, priority),
            Next::KeepBack => {
                self.release();
                self.keep_back(entry);
            }
        }
    }

    /// Lets all streams go, and the room that was made.
    pub fn clear(&mut self)
        ensures { self.new ≡ empty_queue }
    {
        self.top.ids.clear();
        self.lower.clear();
        self.kept = None;
        self.reserved = None;
    }

    /// Whether no stream is in the queue.
    #[inline]
    pub fn is_empty(&self) -> bool
        ensures { result ≡ (length (line self.now) == 0) }
    {
        self.first().is_none()
    }

    /// Whether the id of any stream passes a test, which is asked until one does.
    pub fn any<F: Fn(StreamId) -> bool>(&self, test: F) -> bool
        requires { F.IsAlwaysCallable test }
        ensures { (p : ℕ → Bool) → Tells (F.post test) p → result ≡ list_any p (ids_of (line self.now)) }
    {
        if let Some(entry) = self.kept {
            if test(entry.id) {
                return true;
            }
        }
        any_waiting(&self.top, &self.lower, &test)
    }
}
