//! Walks along wait queues, each of whose entries is of a task that sleeps.
ghost use Rattle.std.specs.Prelude.{◌≡◌, ◌<◌, true};
ghost use Rattle.bench_wake.specs.Ready.{IsReady, IsRoom};
ghost use Rattle.task_words.specs.Seats.{IsBetween, IsRunning};
ghost use Rattle.task_words.specs.Views.{IsOf, IsSame, IsOneSeat};

use crate::calls::walk_one;
use crate::rounds::{CONDS, Round};
use handoff_data::{CondNo, State, TaskNo};
use std::sync::Wait;
use task_words::{Pass, Wk, load_cond};
use uses_words::{pick, switch_out};
use wait_queue::prepare;

/// No task sleeps at any condition.
pub struct Empty;

impl Round for Empty {
    fn sleep<R: Wait>(rt: &R, wk: &Wk<()>, pass: &mut Pass) -> bool {
        fill_all(rt, wk, pass, 0)
    }

    fn wake<R: Wait>(rt: &R, wk: &Wk<()>, pass: &mut Pass) -> bool {
        walk_all(rt, wk, pass, 0)
    }
}

/// One task sleeps at each condition.
pub struct Single;

impl Round for Single {
    fn sleep<R: Wait>(rt: &R, wk: &Wk<()>, pass: &mut Pass) -> bool {
        fill_all(rt, wk, pass, 1)
    }

    fn wake<R: Wait>(rt: &R, wk: &Wk<()>, pass: &mut Pass) -> bool {
        walk_all(rt, wk, pass, 1)
    }
}

/// Ten tasks sleep at each condition.
pub struct Ten;

impl Round for Ten {
    fn sleep<R: Wait>(rt: &R, wk: &Wk<()>, pass: &mut Pass) -> bool {
        fill_all(rt, wk, pass, 10)
    }

    fn wake<R: Wait>(rt: &R, wk: &Wk<()>, pass: &mut Pass) -> bool {
        walk_all(rt, wk, pass, 10)
    }
}

// Whether so many tasks were put to sleep at each condition.
fn fill_all<R: Wait>(rt: &R, wk: &Wk<()>, pass: &mut Pass, entries: u32) -> bool
    requires room { IsRoom wk.now.shape }
    requires ready { IsReady wk.now pass.old }
    ensures ready { result ≡ true → IsReady wk.now pass.new }
{
    for k in 0..CONDS {
        if !fill_one(rt, wk, pass, k, entries) {
            return false;
        }
    }
    true
}

fn fill_one<R: Wait>(rt: &R, wk: &Wk<()>, pass: &mut Pass, k: CondNo, entries: u32) -> bool
    requires condition { k < wk.now.shape.conds }
    requires ready { IsReady wk.now pass.old }
    ensures ready { result ≡ true → IsReady wk.now pass.new }
{
    for _ in 0..entries {
        if !sleep_at(rt, wk, pass, k) {
            return false;
        }
    }
    true
}

fn sleep_at<R: Wait>(rt: &R, wk: &Wk<()>, pass: &mut Pass, k: CondNo) -> bool
    requires condition { k < wk.now.shape.conds }
    requires ready { IsReady wk.now pass.old }
    ensures ready { result ≡ true → IsReady wk.now pass.new }
{
    pass.clear_turn();
    let Some(t) = pick(rt, wk, pass) else {
        return false;
    };
    enter(rt, wk, pass, t, k);
    if load_cond(wk, pass, k) != 0 || pass.spare() < 12 {
        return false;
    }
    switch_out(rt, wk, pass, t)
}

// Puts an entry of the current task into the wait queue, and stores that it sleeps.
fn enter<R: Wait>(rt: &R, wk: &Wk<()>, pass: &mut Pass, t: TaskNo, k: CondNo)
    requires of { IsOf wk.now pass.old }
    requires condition { k < wk.now.shape.conds }
    requires running { IsRunning t pass.old }
    ensures same { IsSame pass.old pass.new }
    ensures running { IsRunning t pass.new }
{
    prepare(rt, wk, pass, k, false, State::TASK_INTERRUPTIBLE);
}

// Whether a walk at each condition woke so many tasks.
fn walk_all<R: Wait>(rt: &R, wk: &Wk<()>, pass: &mut Pass, entries: u32) -> bool
    requires room { IsRoom wk.now.shape }
    requires ready { IsReady wk.now pass.old }
    ensures ready { IsReady wk.now pass.new }
{
    for k in 0..CONDS {
        if walk_one(rt, wk, pass, k) != entries {
            return false;
        }
    }
    true
}
