//! Wake-ups of tasks that are off every queue.
ghost use Rattle.std.specs.Prelude.{◌≡◌, ◌<◌, true};
ghost use Rattle.bench_wake.specs.Ready.{IsReady, IsRoom};
ghost use Rattle.task_words.specs.Seats.{IsBetween};
ghost use Rattle.task_words.specs.Views.{IsOf, IsOneSeat};

use crate::calls::wake_one;
use crate::rounds::{Round, TASKS};
use handoff_data::State;
use std::sync::Wait;
use task_words::{Pass, Wk, set_state};
use ttwu_core::{How, Wake};
use uses_words::{pick, switch_out};

/// All tasks sleep, and are woken one after another.
pub struct Queued;

impl Round for Queued {
    fn sleep<R: Wait>(rt: &R, wk: &Wk<()>, pass: &mut Pass) -> bool {
        sleep_all(rt, wk, pass)
    }

    fn wake<R: Wait>(rt: &R, wk: &Wk<()>, pass: &mut Pass) -> bool {
        wake_all(rt, wk, pass)
    }
}

// Whether all tasks were picked and put to sleep.
fn sleep_all<R: Wait>(rt: &R, wk: &Wk<()>, pass: &mut Pass) -> bool
    requires ready { IsReady wk.now pass.old }
    ensures ready { result ≡ true → IsReady wk.now pass.new }
{
    for _ in 0..TASKS {
        if !sleep_one(rt, wk, pass) {
            return false;
        }
    }
    true
}

fn sleep_one<R: Wait>(rt: &R, wk: &Wk<()>, pass: &mut Pass) -> bool
    requires ready { IsReady wk.now pass.old }
    ensures ready { result ≡ true → IsReady wk.now pass.new }
{
    pass.clear_turn();
    let Some(t) = pick(rt, wk, pass) else {
        return false;
    };
    set_state(wk, pass, State::TASK_INTERRUPTIBLE);
    if pass.spare() < 12 {
        return false;
    }
    switch_out(rt, wk, pass, t)
}

// Whether all tasks were off every queue, and are queued now.
fn wake_all<R: Wait>(rt: &R, wk: &Wk<()>, pass: &mut Pass) -> bool
    requires room { IsRoom wk.now.shape }
    requires ready { IsReady wk.now pass.old }
    ensures ready { IsReady wk.now pass.new }
{
    for t in 0..TASKS {
        match wake_one(rt, wk, pass, t) {
            Wake::Woke {
                how: How::Queued(_),
            } => {}
            _ => return false,
        }
    }
    true
}
