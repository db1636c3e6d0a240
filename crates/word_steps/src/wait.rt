//! What the lock of a wait queue guards on the shared table.
ghost use Rattle.std.specs.Prelude.{◌≡◌, ◌==◌};
ghost use Rattle.std.specs.VecDeque.{deque_capacity};
ghost use Rattle.std.specs.List.{list_any, filter};
ghost use Rattle.word_steps.specs.Entries.{is_of_other};
ghost use Rattle.core_gives.specs.Waits.{has_task};

use core_data::WaitEntry;
use handoff_data::{NoMemory, TaskNo};
use std::alloc::Global;
use std::collections::VecDeque;
use std::marker::Model;

/// The entries of a wait queue, the head first, after Linux's `struct wait_queue_head` (`include/linux/wait.h`).
/// Contracts see that list.
///
/// Room for 200 entries, one for each task of the largest shape, is reserved from the start, so that putting one in
/// takes no memory. It is in a box, so that a lock which is taken, or given, moves no more than an address.
#[derive(Drop)]
pub struct WaitQueue {
    entries: Box<VecDeque<WaitEntry>>,
}

impl Model for WaitQueue {
    ghost use Rattle.std.specs.Prelude.{◌≤◌, List};
    ghost use Rattle.std.specs.VecDeque.{deque_capacity};
    ghost use Rattle.core_data.specs.declared.values.WaitEntry.{WaitEntry};

    ghost Value = { List WaitEntry };

    ghost view = { λ w. w.entries.value.items };

    ghost invariant = { λ w. 200 ≤ deque_capacity w.entries.value };
}

// Whether some entry is of the task, as std tells it.
fn any_of(entries: &VecDeque<WaitEntry>, t: TaskNo) -> bool
    ensures { result ≡ list_any (λ (x : WaitEntry). x.t == t) entries.now.items }
{
    entries.iter().any(|x| x.t == t)
}

// Whether some entry is of the task.
fn is_among(entries: &VecDeque<WaitEntry>, t: TaskNo) -> bool
    ensures { result ≡ has_task entries.now.items t }
{
    any_of(entries, t)
}

// Takes each entry of the task out.
fn drop_entries(entries: &mut VecDeque<WaitEntry>, t: TaskNo)
    ensures rest { entries.new.items ≡ filter (is_of_other t) entries.old.items }
    ensures room { deque_capacity entries.new ≡ deque_capacity entries.old }
{
    entries.retain(|x| x.t != t);
}

impl WaitQueue {
    ghost use Rattle.std.specs.Prelude.{◌≡◌, ◌<◌, ◌++◌, ◌∷◌, [], length, slice_get, IfOk, MatchOption};
    ghost use Rattle.std.specs.List.{filter};
    ghost use Rattle.core_gives.specs.Waits.{has_task};
    ghost use Rattle.word_steps.specs.Entries.{is_of_other};

    /// The room that each wait queue reserves.
    const ROOM: usize = 200;

    /// An empty wait queue. Answers `NoMemory` where memory runs out.
    pub fn new(alloc: Global) -> Result<WaitQueue, NoMemory>
        ensures { IfOk result (λ w. w ≡ []) }
    {
        let entries = VecDeque::with_capacity(alloc, WaitQueue::ROOM)?;
        let entries = Box::new(alloc, entries)?;
        Ok(WaitQueue { entries })
    }

    /// Puts an entry at the head, as Linux's `__add_wait_queue` (`include/linux/wait.h`).
    pub fn push_front(&mut self, entry: WaitEntry)
        requires room { length self.old < 200 }
        ensures { self.new ≡ entry ∷ self.old }
    {
        self.entries.push_front_reserved(entry);
    }

    /// Puts an entry at the tail, as Linux's `__add_wait_queue_entry_tail` (`include/linux/wait.h`).
    pub fn push_back(&mut self, entry: WaitEntry)
        requires room { length self.old < 200 }
        ensures { self.new ≡ self.old ++ entry ∷ [] }
    {
        self.entries.push_back_reserved(entry);
    }

    /// Takes the entry at the head out, if there is one.
    pub fn pop_front(&mut self) -> Option<WaitEntry>
        ensures { MatchOption result ((self.old ≡ []) × (self.new ≡ [])) (λ x. self.old ≡ x ∷ self.new) }
    {
        self.entries.pop_front()
    }

    /// Takes each entry of a task out.
    pub fn remove(&mut self, t: TaskNo)
        ensures { self.new ≡ filter (is_of_other t) self.old }
    {
        drop_entries(&mut self.entries, t);
    }

    /// Whether a task has an entry there.
    pub fn has_task(&self, t: TaskNo) -> bool
        ensures { result ≡ has_task self.now t }
    {
        is_among(&self.entries, t)
    }

    /// The number of entries.
    pub fn len(&self) -> usize
        ensures { result ≡ length self.now }
    {
        self.entries.len()
    }

    /// The entry at a place, counted from 0 at the head.
    pub fn get(&self, index: usize) -> Option<WaitEntry>
        ensures { result ≡ slice_get self.now index }
    {
        self.entries.get(index).copied()
    }
}
