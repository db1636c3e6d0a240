//! Stores to words of a new task, by a seat that has its lock.
ghost use Rattle.std.specs.Prelude.{◌≡◌, ◌<◌, None, IfSome};
ghost use Rattle.bench_steps.specs.Placing.{IsPlacing};
ghost use Rattle.task_words.specs.Folds.{current_task};
ghost use Rattle.task_words.specs.Seats.{IsBetween};
ghost use Rattle.task_words.specs.Told.{TakenTask};
ghost use Rattle.task_words.specs.Views.{IsOf, IsSame, IsOneSeat};

use core_data::Rq;
use handoff_data::CpuNo;
use std::sync::Wait;
use task_words::{
    Pass, TaskGuard, Wk, load_cpu, load_rq, lock_queue, lock_task, make_runnable, queue_task,
    store_cpu,
};

/// A store to a word of a new task, on its processor.
pub trait Placing {
    fn once(wk: &Wk<()>, pass: &mut Pass, task: &TaskGuard<()>, c: CpuNo)
        requires of { IsOf wk.now pass.old }
        requires table { task.now.of ≡ wk.now.name }
        requires task { task.now.task < wk.now.shape.tasks }
        requires processor { c < wk.now.shape.cpus }
        requires placing { IsPlacing task.now.task c task.now.val pass.old.trace }
        ensures same { IsSame pass.old pass.new }
        ensures placing { IsPlacing task.now.task c task.now.val pass.new.trace }
        ensures current { current_task pass.new.seat pass.new.trace ≡ current_task pass.old.seat pass.old.trace };
}

/// Its processor stored.
pub struct SetCpu;

impl Placing for SetCpu {
    fn once(wk: &Wk<()>, pass: &mut Pass, task: &TaskGuard<()>, c: CpuNo) {
        store_cpu(wk, pass, task, c);
    }
}

/// TASK_RUNNING stored as its state.
pub struct Run;

impl Placing for Run {
    fn once(wk: &Wk<()>, pass: &mut Pass, task: &TaskGuard<()>, _c: CpuNo) {
        make_runnable(wk, pass, task.task());
    }
}

/// Makes a store to the words of the first task so many times, under its lock, and then queues it; whether it was new.
pub fn place_often<P: Placing, R: Wait>(rt: &R, wk: &Wk<()>, pass: &mut Pass, count: u32) -> bool
    requires of { IsOf wk.now pass.old }
    requires task { 0 < wk.now.shape.tasks }
    requires between { IsBetween pass.old }
    ensures same { IsOneSeat pass.old pass.new }
{
    let Some((task, c)) = begin_placing(rt, wk, pass, 0) else {
        return false;
    };
    repeat_placing::<P>(wk, pass, &task, c, count);
    end_placing(rt, wk, pass, task, c);
    true
}

fn repeat_placing<P: Placing>(
    wk: &Wk<()>,
    pass: &mut Pass,
    task: &TaskGuard<()>,
    c: CpuNo,
    count: u32,
)
    requires of { IsOf wk.now pass.old }
    requires table { task.now.of ≡ wk.now.name }
    requires task { task.now.task < wk.now.shape.tasks }
    requires processor { c < wk.now.shape.cpus }
    requires placing { IsPlacing task.now.task c task.now.val pass.old.trace }
    ensures same { IsSame pass.old pass.new }
    ensures placing { IsPlacing task.now.task c task.now.val pass.new.trace }
    ensures current { current_task pass.new.seat pass.new.trace ≡ current_task pass.old.seat pass.old.trace }
{
    for _ in 0..count {
        P::once(wk, pass, task, c);
    }
}

// Takes the lock of a new task, and reads its processor; none where the task isn't new.
fn begin_placing<R: Wait>(
    rt: &R,
    wk: &Wk<()>,
    pass: &mut Pass,
    t: u32,
) -> Option<(TaskGuard<()>, CpuNo)>
    requires of { IsOf wk.now pass.old }
    requires task { t < wk.now.shape.tasks }
    requires between { IsBetween pass.old }
    ensures same { IsSame pass.old pass.new }
    ensures table { IfSome result (λ r. r.0.of ≡ wk.now.name) }
    ensures task { IfSome result (λ r. r.0.task ≡ t) }
    ensures processor { IfSome result (λ r. r.1 < wk.now.shape.cpus) }
    ensures placing { IfSome result (λ r. IsPlacing t r.1 r.0.val pass.new.trace) }
    ensures fits { IfSome result (λ r. TakenTask wk.now.shape r.0.val) }
    ensures current { current_task pass.new.seat pass.new.trace ≡ None }
{
    let task = lock_task(rt, wk, pass, t);
    let seen = load_rq(wk, pass, t);
    if seen.m != 0 {
        task.give(wk, pass);
        return None;
    }
    let c = load_cpu(wk, pass, t);
    Some((task, c))
}

// Queues the task, and gives its lock.
fn end_placing<R: Wait>(rt: &R, wk: &Wk<()>, pass: &mut Pass, task: TaskGuard<()>, c: CpuNo)
    requires of { IsOf wk.now pass.old }
    requires table { task.of ≡ wk.now.name }
    requires task { task.task < wk.now.shape.tasks }
    requires processor { c < wk.now.shape.cpus }
    requires placing { IsPlacing task.task c task.val pass.old.trace }
    requires fits { TakenTask wk.now.shape task.val }
    requires idle { current_task pass.old.seat pass.old.trace ≡ None }
    ensures same { IsOneSeat pass.old pass.new }
{
    pass.clear_turn();
    let t = task.task();
    let mut queue = lock_queue(rt, wk, pass, c);
    queue_task(rt, wk, pass, &queue, t, Rq { on: 0, m: 0 });
    queue.push(wk, pass, t);
    queue.give_put(wk, pass);
    task.give_queued(wk, pass);
}
