//! Locks, taken and given.
//!
//! Lock order. A seat takes a lock only while each lock that it has stands above it here:
//!
//! | Rank | Lock | Taken by | Several at once |
//! |---|---|---|---|
//! | 1 | of a condition's wait queue | `lock_wait` | never |
//! | 2 | of a task | `lock_task` | the lower number first |
//! | 3 | of a processor's queue | `lock_queue` | never |
//! | 4 | of a processor's works | `lock_works` | never |
//!
//! The callers keep it, and no contract asks for it: deadlock isn't excluded by proof (crossed locks).
ghost use Rattle.std.specs.Prelude.{◌≡◌, ◌<◌, ◌∷◌, None, unwrap_or};
ghost use Rattle.task_words.specs.Views.{IsOf, IsSame};
ghost use Rattle.word_rule.specs.May.{MayGiveTaskVal, MayGiveQueueVal, MayGiveWorksVal, MayGiveWaitVal};
ghost use Rattle.word_rule.specs.Told.{TakenTask, TakenQueue, TakenWait};
ghost use Rattle.word_steps.specs.Folds.{task_held, queue_held, works_held, wait_held};
ghost use Rattle.word_steps.specs.Records.{Took, Gave};
ghost use Rattle.word_steps.specs.declared.val.Val.TheVariants as val;

use crate::guards::{QueueGuard, TaskGuard, WaitGuard, WorksGuard};
use crate::pass::Pass;
use crate::wk::Wk;
use handoff_data::{CondNo, CpuNo, TaskNo};
use std::sync::Wait;
use word_table::{Kept, QueueLock, TaskLock, WaitLock, WorksLock, give, take};

/// Takes the lock of a task, as Linux's `raw_spin_lock(&p->pi_lock)` (`kernel/sched/core.c`), and waits until it is
/// free.
pub fn lock_task<B: Kept, R: Wait>(rt: &R, wk: &Wk<B>, pass: &mut Pass, t: TaskNo) -> TaskGuard<B>
    requires of { IsOf wk.now pass.old }
    requires task { t < wk.now.shape.tasks }
    requires free { task_held pass.old.trace t ≡ None }
    ensures table { result.of ≡ wk.now.name }
    ensures task { result.task ≡ t }
    ensures same { IsSame pass.old pass.new }
    ensures trace { pass.new.trace ≡ Took t (val.Task result.val) ∷ pass.old.trace }
    ensures taken { TakenTask pass.old.shape result.val }
{
    let taken = take::<B, TaskLock, R>(rt, &wk.words, &mut pass.token, t);
    TaskGuard { taken, task: t }
}

/// Takes the lock of a processor's queue, as Linux's `raw_spin_rq_lock` (`kernel/sched/sched.h`), and waits until it is
/// free.
pub fn lock_queue<B: Kept, R: Wait>(rt: &R, wk: &Wk<B>, pass: &mut Pass, c: CpuNo) -> QueueGuard<B>
    requires of { IsOf wk.now pass.old }
    requires processor { c < wk.now.shape.cpus }
    requires free { queue_held pass.old.trace c ≡ None }
    ensures table { result.of ≡ wk.now.name }
    ensures processor { result.cpu ≡ c }
    ensures same { IsSame pass.old pass.new }
    ensures trace { pass.new.trace ≡ Took c (val.Queue result.val) ∷ pass.old.trace }
    ensures taken { TakenQueue pass.old.shape pass.old.seat pass.old.trace c result.val }
{
    let taken = take::<B, QueueLock, R>(rt, &wk.words, &mut pass.token, c);
    QueueGuard { taken, cpu: c }
}

/// Takes the lock of a processor's works, as Linux's `raw_spin_lock(&stopper->lock)` (`kernel/stop_machine.c`), and
/// waits until it is free.
pub fn lock_works<B: Kept, R: Wait>(rt: &R, wk: &Wk<B>, pass: &mut Pass, c: CpuNo) -> WorksGuard<B>
    requires of { IsOf wk.now pass.old }
    requires processor { c < wk.now.shape.cpus }
    requires free { works_held pass.old.trace c ≡ None }
    ensures table { result.of ≡ wk.now.name }
    ensures processor { result.cpu ≡ c }
    ensures same { IsSame pass.old pass.new }
    ensures trace { pass.new.trace ≡ Took c (val.Works result.val) ∷ pass.old.trace }
{
    let taken = take::<B, WorksLock, R>(rt, &wk.words, &mut pass.token, c);
    WorksGuard { taken, cpu: c }
}

/// Takes the lock of a condition's wait queue, as Linux's `spin_lock(&wq_head->lock)` (`kernel/sched/wait.c`), and
/// waits until it is free.
pub fn lock_wait<B: Kept, R: Wait>(rt: &R, wk: &Wk<B>, pass: &mut Pass, k: CondNo) -> WaitGuard<B>
    requires of { IsOf wk.now pass.old }
    requires condition { k < wk.now.shape.conds }
    requires free { wait_held pass.old.trace k ≡ None }
    ensures table { result.of ≡ wk.now.name }
    ensures condition { result.cond ≡ k }
    ensures same { IsSame pass.old pass.new }
    ensures trace { pass.new.trace ≡ Took k (val.Wait result.val) ∷ pass.old.trace }
    ensures taken { TakenWait pass.old.shape result.val }
{
    let taken = take::<B, WaitLock, R>(rt, &wk.words, &mut pass.token, k);
    WaitGuard { taken, cond: k }
}

impl<B: Kept> TaskGuard<B> {
    /// Gives the lock, with the value as it now is.
    pub fn give(self, wk: &Wk<B>, pass: &mut Pass)
        requires of { IsOf wk.now pass.old }
        requires table { self.of ≡ wk.now.name }
        requires task { self.task < wk.now.shape.tasks }
        requires may { MayGiveTaskVal pass.old.seat pass.old.trace wk.now.shape self.task self.val }
        ensures same { IsSame pass.old pass.new }
        ensures trace { pass.new.trace ≡ Gave self.task
            (val.Task (unwrap_or (task_held pass.old.trace self.task) self.val)) (val.Task self.val) ∷ pass.old.trace }
    {
        let TaskGuard { taken, task } = self;
        // T is settled by now, and never off every queue at TASK_WAKING: who takes the lock next can wake it (two
        // wakers).
        give::<B, TaskLock>(&wk.words, &mut pass.token, task, taken);
    }
}

impl<B: Kept> QueueGuard<B> {
    /// Gives the lock, with the value as it now is. Where the queue is the seat's own and has no `cur`, the seat has no
    /// current task from then on.
    pub fn give(mut self, wk: &Wk<B>, pass: &mut Pass)
        requires of { IsOf wk.now pass.old }
        requires table { self.of ≡ wk.now.name }
        requires processor { self.cpu < wk.now.shape.cpus }
        requires may { MayGiveQueueVal pass.old.seat pass.old.trace wk.now.shape self.cpu self.val }
        ensures same { IsSame pass.old pass.new }
        ensures trace { pass.new.trace ≡ Gave self.cpu
            (val.Queue (unwrap_or (queue_held pass.old.trace self.cpu) self.val)) (val.Queue self.val)
            ∷ pass.old.trace }
    {
        let gives_up = pass.token.seat() == self.cpu && self.val_mut(wk).get().cur.is_none();
        let QueueGuard { taken, cpu } = self;
        give::<B, QueueLock>(&wk.words, &mut pass.token, cpu, taken);
        if gives_up {
            pass.current = None;
        }
    }
}

impl<B: Kept> WorksGuard<B> {
    /// Gives the lock, with the works as they were taken.
    pub fn give(self, wk: &Wk<B>, pass: &mut Pass)
        requires of { IsOf wk.now pass.old }
        requires table { self.of ≡ wk.now.name }
        requires processor { self.cpu < wk.now.shape.cpus }
        requires may { MayGiveWorksVal pass.old.seat pass.old.trace self.cpu self.val }
        ensures same { IsSame pass.old pass.new }
        ensures trace { pass.new.trace ≡ Gave self.cpu
            (val.Works (unwrap_or (works_held pass.old.trace self.cpu) self.val)) (val.Works self.val)
            ∷ pass.old.trace }
    {
        let WorksGuard { taken, cpu } = self;
        give::<B, WorksLock>(&wk.words, &mut pass.token, cpu, taken);
    }
}

impl<B: Kept> WaitGuard<B> {
    /// Gives the lock, with the entries as they now are.
    pub fn give(self, wk: &Wk<B>, pass: &mut Pass)
        requires of { IsOf wk.now pass.old }
        requires table { self.of ≡ wk.now.name }
        requires condition { self.cond < wk.now.shape.conds }
        requires may { MayGiveWaitVal pass.old.seat pass.old.trace wk.now.shape self.cond self.val }
        ensures same { IsSame pass.old pass.new }
        ensures trace { pass.new.trace ≡ Gave self.cond
            (val.Wait (unwrap_or (wait_held pass.old.trace self.cond) self.val)) (val.Wait self.val) ∷ pass.old.trace }
    {
        let WaitGuard { taken, cond } = self;
        give::<B, WaitLock>(&wk.words, &mut pass.token, cond, taken);
    }
}
