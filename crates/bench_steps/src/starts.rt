//! Steps that a task allows once, made with many tasks.
ghost use Rattle.std.specs.Prelude.{◌≡◌, ◌<◌, true};
ghost use Rattle.task_words.specs.Seats.{IsBetween};
ghost use Rattle.task_words.specs.Views.{IsOf, IsOneSeat};

use handoff_data::TaskNo;
use std::sync::Wait;
use task_words::{Pass, Wk};
use uses_words::{pick, put_back, start};

/// How many tasks the table has.
pub const TASKS: u32 = 200;

/// What is done with each task, none of which was started before; whether it was.
pub trait Start {
    fn once<R: Wait>(rt: &R, wk: &Wk<()>, pass: &mut Pass, t: TaskNo) -> bool
        requires of { IsOf wk.now pass.old }
        requires task { t < wk.now.shape.tasks }
        requires processor { pass.old.seat < wk.now.shape.cpus }
        requires between { IsBetween pass.old }
        ensures same { IsOneSeat pass.old pass.new }
        ensures between { result ≡ true → IsBetween pass.new };
}

/// Does it with each task; whether it could.
pub fn start_all<S: Start, R: Wait>(rt: &R, wk: &Wk<()>, pass: &mut Pass) -> bool
    requires of { IsOf wk.now pass.old }
    requires tasks { wk.now.shape.tasks ≡ 200 }
    requires processor { pass.old.seat < wk.now.shape.cpus }
    requires between { IsBetween pass.old }
    ensures same { IsOneSeat pass.old pass.new }
    ensures between { result ≡ true → IsBetween pass.new }
{
    for t in 0..TASKS {
        if !S::once(rt, wk, pass, t) {
            return false;
        }
    }
    true
}

// Starts a task on the processor 0; whether it was new.
fn start_one<R: Wait>(rt: &R, wk: &Wk<()>, pass: &mut Pass, t: TaskNo) -> bool
    requires of { IsOf wk.now pass.old }
    requires task { t < wk.now.shape.tasks }
    requires processor { pass.old.seat < wk.now.shape.cpus }
    requires between { IsBetween pass.old }
    ensures same { IsOneSeat pass.old pass.new }
    ensures between { IsBetween pass.new }
{
    pass.clear_turn();
    match start(rt, wk, pass, t, 0) {
        run_queue::Start::Started { .. } => true,
        run_queue::Start::NotNew { .. } => false,
    }
}

/// It is started.
pub struct Started;

impl Start for Started {
    fn once<R: Wait>(rt: &R, wk: &Wk<()>, pass: &mut Pass, t: TaskNo) -> bool {
        start_one(rt, wk, pass, t)
    }
}

/// It is started; the first task that waits is picked, and put back.
pub struct Round;

impl Start for Round {
    fn once<R: Wait>(rt: &R, wk: &Wk<()>, pass: &mut Pass, t: TaskNo) -> bool {
        if !start_one(rt, wk, pass, t) {
            return false;
        }
        pass.clear_turn();
        let Some(first) = pick(rt, wk, pass) else {
            return false;
        };
        pass.clear_turn();
        put_back(rt, wk, pass, first)
    }
}
