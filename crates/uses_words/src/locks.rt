//! Two locks at once, and the lock of works.
ghost use Rattle.std.specs.Prelude.{◌≡◌, ◌≢◌, ◌<◌, None};
ghost use Rattle.task_words.specs.Folds.{task_held, works_held};
ghost use Rattle.task_words.specs.Locks.{IsKept};
ghost use Rattle.task_words.specs.Seats.{IsBetween};
ghost use Rattle.task_words.specs.Views.{IsOf, IsSame};

use handoff_data::{CpuNo, TaskNo};
use std::sync::Wait;
use task_words::{Kept, Pass, TaskGuard, Wk, lock_task, lock_works};

// The hint on where a task was woken last.
fn hint_of<B: Kept>(wk: &Wk<B>, task: &mut TaskGuard<B>) -> CpuNo
    requires table { task.old.of ≡ wk.now.name }
    ensures table { task.new.of ≡ task.old.of }
    ensures task { task.new.task ≡ task.old.task }
    ensures kept { IsKept task.old.val task.new.val }
    ensures hint { result ≡ task.old.val.wake_cpu }
    ensures same { task.new.val.wake_cpu ≡ task.old.val.wake_cpu }
    ensures dest { task.new.val.dest ≡ task.old.val.dest }
{
    task.val_mut(wk).get().wake_cpu
}

// Changes that hint.
fn set_hint<B: Kept>(wk: &Wk<B>, task: &mut TaskGuard<B>, hint: CpuNo)
    requires table { task.old.of ≡ wk.now.name }
    ensures table { task.new.of ≡ task.old.of }
    ensures task { task.new.task ≡ task.old.task }
    ensures kept { IsKept task.old.val task.new.val }
    ensures hint { task.new.val.wake_cpu ≡ hint }
    ensures dest { task.new.val.dest ≡ task.old.val.dest }
{
    task.set_wake_cpu(wk, hint);
}

/// Copies the hint on where a task was woken last from one task to another, under both locks, and gives the lock first
/// that it took first.
pub fn copy_wake_cpu<B: Kept, R: Wait>(
    rt: &R,
    wk: &Wk<B>,
    pass: &mut Pass,
    from: TaskNo,
    to: TaskNo,
)
    requires of { IsOf wk.now pass.old }
    requires tasks { (from < wk.now.shape.tasks) × (to < wk.now.shape.tasks) }
    requires apart { from ≢ to }
    requires free { (task_held pass.old.trace from ≡ None) × (task_held pass.old.trace to ≡ None) }
    ensures same { IsSame pass.old pass.new }
    ensures free { (task_held pass.new.trace from ≡ None) × (task_held pass.new.trace to ≡ None) }
    ensures between { IsBetween pass.old → IsBetween pass.new }
{
    // The lower number first, as every caller that takes two tasks' locks: else one copy each way at once would wait
    // for each other for good.
    if from < to {
        let mut source = lock_task(rt, wk, pass, from);
        let mut target = lock_task(rt, wk, pass, to);
        copy_hint(wk, &mut source, &mut target);
        source.give(wk, pass);
        target.give(wk, pass);
    } else {
        let mut target = lock_task(rt, wk, pass, to);
        let mut source = lock_task(rt, wk, pass, from);
        copy_hint(wk, &mut source, &mut target);
        target.give(wk, pass);
        source.give(wk, pass);
    }
}

// Copies the hint of one task to another, both of whose locks are held.
fn copy_hint<B: Kept>(wk: &Wk<B>, source: &mut TaskGuard<B>, target: &mut TaskGuard<B>)
    requires tables { (source.old.of ≡ wk.now.name) × (target.old.of ≡ wk.now.name) }
    ensures tables { (source.new.of ≡ source.old.of) × (target.new.of ≡ target.old.of) }
    ensures tasks { (source.new.task ≡ source.old.task) × (target.new.task ≡ target.old.task) }
    ensures kept { IsKept source.old.val source.new.val × IsKept target.old.val target.new.val }
    ensures dests { (source.new.val.dest ≡ source.old.val.dest) × (target.new.val.dest ≡ target.old.val.dest) }
    ensures hint { target.new.val.wake_cpu ≡ source.old.val.wake_cpu }
    ensures same { source.new.val.wake_cpu ≡ source.old.val.wake_cpu }
{
    let hint = hint_of(wk, source);
    set_hint(wk, target, hint);
}

/// Swaps the hints on where two tasks were woken last, under both locks, and gives the lock last that it took first.
pub fn swap_wake_cpus<B: Kept, R: Wait>(
    rt: &R,
    wk: &Wk<B>,
    pass: &mut Pass,
    one: TaskNo,
    other: TaskNo,
)
    requires of { IsOf wk.now pass.old }
    requires tasks { (one < wk.now.shape.tasks) × (other < wk.now.shape.tasks) }
    requires apart { one ≢ other }
    requires free { (task_held pass.old.trace one ≡ None) × (task_held pass.old.trace other ≡ None) }
    ensures same { IsSame pass.old pass.new }
    ensures free { (task_held pass.new.trace one ≡ None) × (task_held pass.new.trace other ≡ None) }
    ensures between { IsBetween pass.old → IsBetween pass.new }
{
    if one < other {
        swap_upwards(rt, wk, pass, one, other);
    } else {
        swap_upwards(rt, wk, pass, other, one);
    }
}

// .. of which `one` has the lower number, so that its lock is taken first.
fn swap_upwards<B: Kept, R: Wait>(rt: &R, wk: &Wk<B>, pass: &mut Pass, one: TaskNo, other: TaskNo)
    requires of { IsOf wk.now pass.old }
    requires tasks { (one < other) × (other < wk.now.shape.tasks) }
    requires free { (task_held pass.old.trace one ≡ None) × (task_held pass.old.trace other ≡ None) }
    ensures same { IsSame pass.old pass.new }
    ensures free { (task_held pass.new.trace one ≡ None) × (task_held pass.new.trace other ≡ None) }
    ensures between { IsBetween pass.old → IsBetween pass.new }
{
    let mut first = lock_task(rt, wk, pass, one);
    let mut second = lock_task(rt, wk, pass, other);
    let first_hint = hint_of(wk, &mut first);
    let second_hint = hint_of(wk, &mut second);
    set_hint(wk, &mut first, second_hint);
    set_hint(wk, &mut second, first_hint);
    second.give(wk, pass);
    first.give(wk, pass);
}

/// How many stop works a processor has, read under their lock.
pub fn count_works<B: Kept, R: Wait>(rt: &R, wk: &Wk<B>, pass: &mut Pass, c: CpuNo) -> usize
    requires of { IsOf wk.now pass.old }
    requires processor { c < wk.now.shape.cpus }
    requires free { works_held pass.old.trace c ≡ None }
    ensures same { IsSame pass.old pass.new }
    ensures free { works_held pass.new.trace c ≡ None }
    ensures between { IsBetween pass.old → IsBetween pass.new }
{
    let mut works = lock_works(rt, wk, pass, c);
    let count = works.val_mut(wk).len();
    works.give(wk, pass);
    count
}
