//! Queues put and given after what a seat has done with them since it took their lock.
ghost use Rattle.std.specs.Prelude.{◌≡◌, ◌++◌, ◌∷◌, [], ◌<◌, ◌≤◌, true, false, Some, None, ◌+◌, MatchOption, ◌==◌};
ghost use Rattle.std.specs.Prelude.{IfSome, IsSome, unwrap_or};
ghost use Rattle.std.specs.List.{filter};
ghost use Rattle.core_data.specs.Queue.{is_other};
ghost use Rattle.core_gives.specs.Waits.{has_task};
ghost use Rattle.handoff_data.specs.declared.entry.Entry.TheVariants as entry;
ghost use Rattle.task_words.specs.Gives.{HasRoomFor, IsAsTaken, IsPut, IsWoken, IsPicked, IsPickedCur, IsPutBack};
ghost use Rattle.task_words.specs.Gives.{IsAsleep, IsMovedOff, IsMoved, IsEntered, entered, IsJustTaken, IsQueuedUnder};
ghost use Rattle.task_words.specs.Needs.{need_step};
ghost use Rattle.task_words.specs.Views.{IsOf, IsSame, IsSameSeat, logged};
ghost use Rattle.word_rule.specs.May.{IsPutHere};
ghost use Rattle.word_rule.specs.Told.{TakenWait};
ghost use Rattle.word_rule.specs.Standing.{may_run};
ghost use Rattle.word_steps.specs.Folds.{current_task, level_known, queue_held, task_held, task_to_clear, wait_held};
ghost use Rattle.word_steps.specs.Records.{Gave, MadeRunnable, SetBusy};
ghost use Rattle.word_steps.specs.declared.val.Val.TheVariants as val;

use crate::guards::{QueueGuard, TaskGuard, WaitGuard};
use crate::pass::Pass;
use crate::runs::set_busy;
use crate::states::make_runnable;
use crate::wk::Wk;
use core_data::WaitEntry;
use handoff_data::TaskNo;
use std::sync::Wait;
use word_table::Kept;

// A shape has at most 200 tasks.
fn few_tasks<B: Kept>(wk: &Wk<B>)
    ensures { wk.now.shape.tasks ≤ 200 }
{
    // What `Wk` keeps of its shape is known once it is read.
    let _words = &wk.words;
}

impl<B: Kept> QueueGuard<B> {
    /// Puts a task at the back that the seat has just queued here.
    pub fn push(&mut self, wk: &Wk<B>, pass: &Pass, t: TaskNo)
        requires of { IsOf wk.now pass.now }
        requires table { self.old.of ≡ wk.now.name }
        requires task { t < wk.now.shape.tasks }
        requires room { HasRoomFor pass.now.shape pass.now.seat pass.now.trace self.old.cpu t self.old.val }
        ensures table { self.new.of ≡ self.old.of }
        ensures processor { self.new.cpu ≡ self.old.cpu }
        ensures value { self.new.val ≡ record self.old.val { waiting = self.old.val.waiting ++ t ∷ [] } }
    {
        few_tasks(wk);
        self.val_mut(wk).push(t);
    }

    /// Takes the first task that waits out of the seat's own queue, just taken: it may be picked.
    pub fn pop(&mut self, wk: &Wk<B>, pass: &Pass) -> Option<TaskNo>
        requires of { IsOf wk.now pass.now }
        requires table { self.old.of ≡ wk.now.name }
        requires taken { IsJustTaken pass.now.shape pass.now.seat pass.now.trace self.old.cpu self.old.val }
        ensures table { self.new.of ≡ self.old.of }
        ensures processor { self.new.cpu ≡ self.old.cpu }
        ensures value { MatchOption result ((self.old.val.waiting ≡ []) × (self.new.val ≡ self.old.val))
            (λ t. (self.old.val.waiting ≡ t ∷ self.new.val.waiting)
            × (self.new.val ≡ record self.old.val { waiting = self.new.val.waiting })) }
        ensures task { IfSome result (λ t. t < wk.now.shape.tasks) }
        ensures ready { IfSome result (λ t. may_run pass.now.seat pass.now.trace self.old.cpu t ≡ true) }
    {
        self.val_mut(wk).pop()
    }

    /// Takes a task out of those that wait, wherever it stands, which the seat has just taken off the queue to move it.
    pub fn remove(&mut self, wk: &Wk<B>, pass: &Pass, t: TaskNo)
        requires of { IsOf wk.now pass.now }
        requires table { self.old.of ≡ wk.now.name }
        requires moved { IsMovedOff pass.now.shape pass.now.seat pass.now.trace self.old.cpu t self.old.val }
        ensures table { self.new.of ≡ self.old.of }
        ensures processor { self.new.cpu ≡ self.old.cpu }
        ensures value { self.new.val ≡ record self.old.val { waiting = filter (is_other t) self.old.val.waiting } }
    {
        self.val_mut(wk).remove(t);
    }

    /// Makes a task the next of the seat's own queue that stands there and may run, and sets its busy word: it is the
    /// seat's current task. It answers the number of changes before.
    pub fn pick<R: Wait>(&mut self, rt: &R, wk: &Wk<B>, pass: &mut Pass, t: TaskNo) -> u64
        requires of { IsOf wk.now pass.old }
        requires table { self.old.of ≡ wk.now.name }
        requires task { t < wk.now.shape.tasks }
        requires own { self.old.cpu ≡ pass.old.seat }
        requires held { IsSome (queue_held pass.old.trace pass.old.seat) }
        requires ready { may_run pass.old.seat pass.old.trace pass.old.seat t ≡ true }
        requires idle { current_task pass.old.seat pass.old.trace ≡ None }
        requires clear { task_to_clear pass.old.seat pass.old.trace ≡ None }
        requires spare { need_step ≤ pass.old.turn.spare }
        ensures table { self.new.of ≡ self.old.of }
        ensures processor { self.new.cpu ≡ self.old.cpu }
        ensures value { self.new.val ≡ record self.old.val { cur = Some t } }
        ensures same { IsSameSeat pass.old pass.new }
        ensures trace { pass.new.trace ≡ SetBusy t pass.old.seat result ∷ pass.old.trace }
        ensures turn { pass.new.turn ≡ logged (entry.Pick t (result + 1) pass.old.seat) pass.old.turn }
        ensures spare { pass.old.turn.spare ≤ pass.new.turn.spare + 1 }
    {
        self.val_mut(wk).set_cur(Some(t));
        set_busy(rt, wk, pass, self, t)
    }

    /// Makes the task that stands as the next of the seat's own queue, just taken, the seat's current task, and sets
    /// its busy word: one that was put there without being picked. It answers the number of changes before.
    pub fn pick_cur<R: Wait>(&self, rt: &R, wk: &Wk<B>, pass: &mut Pass, t: TaskNo) -> u64
        requires of { IsOf wk.now pass.old }
        requires table { self.now.of ≡ wk.now.name }
        requires task { t < wk.now.shape.tasks }
        requires own { self.now.cpu ≡ pass.old.seat }
        requires taken { IsAsTaken pass.old.shape pass.old.seat pass.old.trace pass.old.seat self.now.val }
        requires next { self.now.val.cur ≡ Some t }
        requires idle { current_task pass.old.seat pass.old.trace ≡ None }
        requires clear { task_to_clear pass.old.seat pass.old.trace ≡ None }
        requires spare { need_step ≤ pass.old.turn.spare }
        ensures same { IsSameSeat pass.old pass.new }
        ensures trace { pass.new.trace ≡ SetBusy t pass.old.seat result ∷ pass.old.trace }
        ensures turn { pass.new.turn ≡ logged (entry.Pick t (result + 1) pass.old.seat) pass.old.turn }
        ensures spare { pass.old.turn.spare ≤ pass.new.turn.spare + 1 }
    {
        let queue = self;
        set_busy(rt, wk, pass, queue, t)
    }

    /// Stores TASK_RUNNING as the state of a task that the seat has just queued here.
    pub fn make_runnable(&self, wk: &Wk<B>, pass: &mut Pass, t: TaskNo)
        requires of { IsOf wk.now pass.old }
        requires task { t < wk.now.shape.tasks }
        requires here { IsPutHere pass.old.seat pass.old.trace self.now.cpu t }
        ensures same { IsSame pass.old pass.new }
        ensures trace { pass.new.trace ≡ MadeRunnable t ∷ pass.old.trace }
    {
        make_runnable(wk, pass, t);
    }

    /// Gives the lock with the queue as it was taken.
    pub fn give_as_taken(self, wk: &Wk<B>, pass: &mut Pass)
        requires of { IsOf wk.now pass.old }
        requires table { self.of ≡ wk.now.name }
        requires processor { self.cpu < wk.now.shape.cpus }
        requires may { IsAsTaken pass.old.shape pass.old.seat pass.old.trace self.cpu self.val }
        ensures same { IsSame pass.old pass.new }
        ensures trace { pass.new.trace ≡ Gave self.cpu
            (val.Queue (unwrap_or (queue_held pass.old.trace self.cpu) self.val)) (val.Queue self.val)
            ∷ pass.old.trace }
    {
        self.give(wk, pass);
    }

    /// Gives the lock after a task was queued as new, or in a move, and put at the back. Its state is as it was.
    pub fn give_put(self, wk: &Wk<B>, pass: &mut Pass)
        requires of { IsOf wk.now pass.old }
        requires table { self.of ≡ wk.now.name }
        requires processor { self.cpu < wk.now.shape.cpus }
        requires may { IsPut pass.old.shape pass.old.seat pass.old.trace self.cpu self.val }
        ensures same { IsSame pass.old pass.new }
        ensures trace { pass.new.trace ≡ Gave self.cpu
            (val.Queue (unwrap_or (queue_held pass.old.trace self.cpu) self.val)) (val.Queue self.val)
            ∷ pass.old.trace }
    {
        self.give(wk, pass);
    }

    /// Gives the lock after a task was queued, put at the back and then stored as running.
    pub fn give_woken(self, wk: &Wk<B>, pass: &mut Pass)
        requires of { IsOf wk.now pass.old }
        requires table { self.of ≡ wk.now.name }
        requires processor { self.cpu < wk.now.shape.cpus }
        requires may { IsWoken pass.old.shape pass.old.seat pass.old.trace self.cpu self.val }
        ensures same { IsSame pass.old pass.new }
        ensures trace { pass.new.trace ≡ Gave self.cpu
            (val.Queue (unwrap_or (queue_held pass.old.trace self.cpu) self.val)) (val.Queue self.val)
            ∷ pass.old.trace }
    {
        self.give(wk, pass);
    }

    /// Gives the lock after a task was taken off the queue to be moved, and out of those that wait.
    pub fn give_moved(self, wk: &Wk<B>, pass: &mut Pass)
        requires of { IsOf wk.now pass.old }
        requires table { self.of ≡ wk.now.name }
        requires processor { self.cpu < wk.now.shape.cpus }
        requires may { IsMoved pass.old.shape pass.old.seat pass.old.trace self.cpu self.val }
        ensures same { IsSame pass.old pass.new }
        ensures trace { pass.new.trace ≡ Gave self.cpu
            (val.Queue (unwrap_or (queue_held pass.old.trace self.cpu) self.val)) (val.Queue self.val)
            ∷ pass.old.trace }
    {
        self.give(wk, pass);
    }

    /// Gives the lock of the seat's own queue, as it was taken, after its next task was picked.
    pub fn give_as_picked(self, wk: &Wk<B>, pass: &mut Pass)
        requires of { IsOf wk.now pass.old }
        requires table { self.of ≡ wk.now.name }
        requires processor { self.cpu < wk.now.shape.cpus }
        requires own { self.cpu ≡ pass.old.seat }
        requires may { IsPickedCur pass.old.shape pass.old.seat pass.old.trace self.val }
        ensures same { IsSame pass.old pass.new }
        ensures trace { pass.new.trace ≡ Gave self.cpu
            (val.Queue (unwrap_or (queue_held pass.old.trace self.cpu) self.val)) (val.Queue self.val)
            ∷ pass.old.trace }
    {
        self.give(wk, pass);
    }

    /// Gives the lock of the seat's own queue after the first task that waited was picked.
    pub fn give_picked(self, wk: &Wk<B>, pass: &mut Pass)
        requires of { IsOf wk.now pass.old }
        requires table { self.of ≡ wk.now.name }
        requires processor { self.cpu < wk.now.shape.cpus }
        requires own { self.cpu ≡ pass.old.seat }
        requires may { IsPicked pass.old.shape pass.old.seat pass.old.trace self.val }
        ensures same { IsSame pass.old pass.new }
        ensures trace { pass.new.trace ≡ Gave self.cpu
            (val.Queue (unwrap_or (queue_held pass.old.trace self.cpu) self.val)) (val.Queue self.val)
            ∷ pass.old.trace }
    {
        self.give(wk, pass);
    }

    /// Gives the lock of the seat's own queue after its current task was put back at the end, whose state was read as
    /// TASK_RUNNING or TASK_NEW. Its migrate-disable level was read as 0 since it was picked: from here on a seat that
    /// has its lock may place it elsewhere.
    pub fn give_put_back(self, wk: &Wk<B>, pass: &mut Pass)
        requires of { IsOf wk.now pass.old }
        requires table { self.of ≡ wk.now.name }
        requires processor { self.cpu < wk.now.shape.cpus }
        requires own { self.cpu ≡ pass.old.seat }
        requires may { IsPutBack pass.old.shape pass.old.seat pass.old.trace self.val }
        requires level { level_known pass.old.seat pass.old.trace ≡ Some 0 }
        ensures same { IsSame pass.old pass.new }
        ensures trace { pass.new.trace ≡ Gave self.cpu
            (val.Queue (unwrap_or (queue_held pass.old.trace self.cpu) self.val)) (val.Queue self.val)
            ∷ pass.old.trace }
    {
        self.give(wk, pass);
    }

    /// Gives the lock of the seat's own queue after its current task has left the queue to sleep or to die. Its
    /// migrate-disable level was read as 0 since it was picked: its waker may place it elsewhere.
    pub fn give_asleep(self, wk: &Wk<B>, pass: &mut Pass)
        requires of { IsOf wk.now pass.old }
        requires table { self.of ≡ wk.now.name }
        requires processor { self.cpu < wk.now.shape.cpus }
        requires own { self.cpu ≡ pass.old.seat }
        requires may { IsAsleep pass.old.shape pass.old.seat pass.old.trace self.val }
        requires level { level_known pass.old.seat pass.old.trace ≡ Some 0 }
        ensures same { IsSame pass.old pass.new }
        ensures trace { pass.new.trace ≡ Gave self.cpu
            (val.Queue (unwrap_or (queue_held pass.old.trace self.cpu) self.val)) (val.Queue self.val)
            ∷ pass.old.trace }
    {
        self.give(wk, pass);
    }
}

impl<B: Kept> TaskGuard<B> {
    /// Gives the lock of a task that was queued under it.
    pub fn give_queued(self, wk: &Wk<B>, pass: &mut Pass)
        requires of { IsOf wk.now pass.old }
        requires table { self.of ≡ wk.now.name }
        requires task { self.task < wk.now.shape.tasks }
        requires may { IsQueuedUnder pass.old.shape pass.old.trace self.task self.val }
        ensures same { IsSame pass.old pass.new }
        ensures trace { pass.new.trace ≡ Gave self.task
            (val.Task (unwrap_or (task_held pass.old.trace self.task) self.val)) (val.Task self.val) ∷ pass.old.trace }
    {
        self.give(wk, pass);
    }
}

impl<B: Kept> WaitGuard<B> {
    /// Puts an entry of a task in that has none there: an exclusive one at the tail, another at the head, as Linux's
    /// `prepare_to_wait_exclusive` and `prepare_to_wait` (`kernel/sched/wait.c`).
    #[tactic(auto, unfolding(crate::specs::Gives::entered))]
    pub fn enter(&mut self, wk: &Wk<B>, pass: &Pass, t: TaskNo, exclusive: bool)
        requires of { IsOf wk.now pass.now }
        requires table { self.old.of ≡ wk.now.name }
        requires task { t < wk.now.shape.tasks }
        requires taken { TakenWait pass.now.shape self.old.val }
        requires absent { has_task self.old.val t ≡ false }
        ensures table { self.new.of ≡ self.old.of }
        ensures condition { self.new.cond ≡ self.old.cond }
        ensures value { self.new.val ≡ entered (record { t = t; exclusive = exclusive }) self.old.val }
    {
        few_tasks(wk);
        let entry = WaitEntry { t, exclusive };
        if exclusive {
            self.val_mut(wk).push_back(entry);
        } else {
            self.val_mut(wk).push_front(entry);
        }
    }

    /// Gives the lock after the seat's current task has put its entry in and stored its state.
    pub fn give_entered(self, wk: &Wk<B>, pass: &mut Pass)
        requires of { IsOf wk.now pass.old }
        requires table { self.of ≡ wk.now.name }
        requires condition { self.cond < wk.now.shape.conds }
        requires may { IsEntered pass.old.shape pass.old.seat pass.old.trace self.cond self.val }
        ensures same { IsSame pass.old pass.new }
        ensures trace { pass.new.trace ≡ Gave self.cond
            (val.Wait (unwrap_or (wait_held pass.old.trace self.cond) self.val)) (val.Wait self.val) ∷ pass.old.trace }
    {
        self.give(wk, pass);
    }
}
