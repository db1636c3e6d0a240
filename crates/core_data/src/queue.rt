ghost use Rattle.std.specs.Prelude.{◌≡◌, ◌≤◌, ◌↔◌, IsTrue, IfOk, length};
ghost use Rattle.std.specs.VecDeque.{deque_capacity};
ghost use Rattle.std.specs.List.{filter};
ghost use Rattle.core_data.specs.Queue.{times_in, is_other, IsOnce};

use handoff_data::{NoMemory, TaskNo};
use std::alloc::{AllocError, Global};
use std::collections::VecDeque;
use std::marker::Model;

/// What a run queue's lock guards: the waiting tasks, first in, first out and none of them twice, the task
/// that runs, and the last one that was switched out. Contracts see a `Queue`.
///
/// Room for 200 waiting tasks, the most that a shape has, is reserved from the start, so `push` takes no memory.
#[derive(Drop)]
pub struct QueueVal {
    waiting: VecDeque<TaskNo>,
    pub cur: Option<TaskNo>,
    pub left: Option<TaskNo>,
}

impl Model for QueueVal {
    ghost use Rattle.std.specs.Prelude.{◌≤◌, length};
    ghost use Rattle.std.specs.VecDeque.{deque_capacity};
    ghost use Rattle.core_data.specs.Queue.{Queue, IsOnce};

    ghost Value = { Queue };

    ghost view = { λ q. record { waiting = q.waiting.items; cur = q.cur; left = q.left } };

    ghost invariant = { λ q. (200 ≤ deque_capacity q.waiting) × IsOnce q.waiting.items
        × (length q.waiting.items ≤ 200) };
}

/// How many tasks wait.
fn count_of(waiting: &VecDeque<TaskNo>) -> u32
    requires { length waiting.now.items ≤ 200 }
    ensures count { result ≡ length waiting.now.items }
    ensures few { result ≤ 200 }
{
    waiting.len() as u32
}

/// Whether a list that has no task twice has this one.
fn is_among(waiting: &VecDeque<TaskNo>, t: TaskNo) -> bool
    requires { IsOnce waiting.now.items }
    ensures { IsTrue result ↔ (times_in waiting.now.items t ≡ 1) }
{
    waiting.contains(&t)
}

/// The same tasks again, with the room that a queue reserves.
fn copy_waiting(waiting: &VecDeque<TaskNo>) -> Result<VecDeque<TaskNo>, AllocError>
    ensures tasks { IfOk result (λ q. q.items ≡ waiting.now.items) }
    ensures room { IfOk result (λ q. 200 ≤ deque_capacity q) }
{
    let mut copy = VecDeque::with_capacity(*waiting.allocator(), 200)?;
    for i in 0..waiting.len() {
        let t = *waiting.get(i).unwrap();
        copy.push_back(t)?;
    }
    Ok(copy)
}

/// Drops a task of a list that has none twice; whether it was there.
fn drop_task(waiting: &mut VecDeque<TaskNo>, t: TaskNo) -> bool
    requires { IsOnce waiting.old.items }
    ensures found { IsTrue result ↔ (times_in waiting.old.items t ≡ 1) }
    ensures rest { waiting.new.items ≡ filter (is_other t) waiting.old.items }
    ensures room { deque_capacity waiting.new ≡ deque_capacity waiting.old }
{
    let found = waiting.contains(&t);
    waiting.retain(|x| *x != t);
    found
}

impl QueueVal {
    ghost use Rattle.std.specs.Prelude.{◌≡◌, ◌<◌, ◌≤◌, ◌+◌, ◌^◌, ◌++◌, ◌∷◌, [], ◌↔◌, Some, None, length, drop};
    ghost use Rattle.std.specs.Prelude.{slice_get, IsTrue, IfOk, IsNone, MatchOption};
    ghost use Rattle.std.specs.List.{filter};
    ghost use Rattle.core_data.specs.Queue.{times_in, is_other, IsOnce, runnable_count};

    /// The room that each queue reserves for waiting tasks.
    const ROOM: usize = 200;

    /// An empty queue. Answers `NoMemory` where memory runs out.
    pub fn new(alloc: Global) -> Result<QueueVal, NoMemory>
        ensures { IfOk result (λ q. q ≡ record { waiting = []; cur = None; left = None }) }
    {
        let waiting = VecDeque::with_capacity(alloc, QueueVal::ROOM)?;
        Ok(QueueVal {
            waiting,
            cur: None,
            left: None,
        })
    }

    /// Puts a task at the back. It isn't waiting there yet.
    pub fn push(&mut self, t: TaskNo)
        requires absent { times_in self.old.waiting t ≡ 0 }
        requires room { length self.old.waiting < 200 }
        ensures { self.new ≡ record self.old { waiting = self.old.waiting ++ t ∷ [] } }
    {
        self.waiting.push_back_reserved(t);
    }

    /// Takes the task at the front out, if there is one.
    pub fn pop(&mut self) -> Option<TaskNo>
        ensures { MatchOption result ((self.old.waiting ≡ []) × (self.new ≡ self.old))
            (λ t. (self.old.waiting ≡ t ∷ self.new.waiting)
            × (self.new ≡ record self.old { waiting = self.new.waiting })) }
    {
        self.waiting.pop_front()
    }

    /// Takes a task out of those that wait, wherever it stands; whether it was there.
    pub fn remove(&mut self, t: TaskNo) -> bool
        ensures found { IsTrue result ↔ (times_in self.old.waiting t ≡ 1) }
        ensures rest { self.new ≡ record self.old { waiting = filter (is_other t) self.old.waiting } }
    {
        drop_task(&mut self.waiting, t)
    }

    /// The same queue again.
    pub fn copy(&self) -> Result<QueueVal, AllocError>
        ensures { IfOk result (λ q. q ≡ self.now) }
    {
        let waiting = copy_waiting(&self.waiting)?;
        Ok(QueueVal {
            waiting,
            cur: self.cur,
            left: self.left,
        })
    }

    /// The task at a place of those that wait, counted from 0 at the front.
    pub fn get(&self, index: usize) -> Option<TaskNo>
        ensures { result ≡ slice_get self.now.waiting index }
    {
        self.waiting.get(index).copied()
    }

    /// Whether a task waits there.
    pub fn contains(&self, t: TaskNo) -> bool
        ensures found { IsTrue result ↔ (times_in self.now.waiting t ≡ 1) }
        ensures once { IsOnce self.now.waiting }
    {
        is_among(&self.waiting, t)
    }

    /// The number of runnable tasks: those that wait, and the one that runs.
    pub fn len(&self) -> u32
        ensures { result ≡ runnable_count self.now }
    {
        let runs = if self.cur.is_some() { 1 } else { 0 };
        count_of(&self.waiting) + runs
    }
}
