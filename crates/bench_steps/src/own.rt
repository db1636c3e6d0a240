//! Steps of a seat that runs a task.
ghost use Rattle.std.specs.Prelude.{◌≡◌, ◌<◌, true};
ghost use Rattle.bench_steps.specs.Small.{IsSmall};
ghost use Rattle.task_words.specs.Seats.{IsBetween, IsRunning};
ghost use Rattle.task_words.specs.Views.{IsOf, IsSame, IsOneSeat};

use handoff_data::State;
use run_queue::Start;
use std::sync::Wait;
use task_words::{Pass, Wk, match_state, set_running, set_state};
use uses_words::{pick, put_back, run, start};

/// A step, or some, of a seat that runs the first task; whether it still does.
pub trait OwnStep {
    fn once<R: Wait>(rt: &R, wk: &Wk<()>, pass: &mut Pass) -> bool
        requires of { IsOf wk.now pass.old }
        requires small { IsSmall wk.now.shape }
        requires processor { pass.old.seat < wk.now.shape.cpus }
        requires running { IsRunning 0 pass.old }
        ensures same { IsOneSeat pass.old pass.new }
        ensures running { result ≡ true → IsRunning 0 pass.new };
}

/// Makes a step so many times; whether the seat still runs the task.
pub fn repeat_own<S: OwnStep, R: Wait>(rt: &R, wk: &Wk<()>, pass: &mut Pass, count: u32) -> bool
    requires of { IsOf wk.now pass.old }
    requires small { IsSmall wk.now.shape }
    requires processor { pass.old.seat < wk.now.shape.cpus }
    requires running { IsRunning 0 pass.old }
    ensures same { IsOneSeat pass.old pass.new }
    ensures running { result ≡ true → IsRunning 0 pass.new }
{
    for _ in 0..count {
        if !S::once(rt, wk, pass) {
            return false;
        }
    }
    true
}

/// Starts the first task and picks it, and stores TASK_INTERRUPTIBLE as its state if it `dozes`; whether the seat now
/// runs it.
pub fn begin_own<R: Wait>(rt: &R, wk: &Wk<()>, pass: &mut Pass, dozes: bool) -> bool
    requires of { IsOf wk.now pass.old }
    requires small { IsSmall wk.now.shape }
    requires processor { pass.old.seat < wk.now.shape.cpus }
    requires between { IsBetween pass.old }
    ensures same { IsOneSeat pass.old pass.new }
    ensures running { result ≡ true → IsRunning 0 pass.new }
{
    pass.clear_turn();
    let Start::Started { .. } = start(rt, wk, pass, 0, 0) else {
        return false;
    };
    pass.clear_turn();
    match pick(rt, wk, pass) {
        Some(0) if dozes => {
            set_state(wk, pass, State::TASK_INTERRUPTIBLE);
            true
        }
        Some(0) => true,
        _ => false,
    }
}

/// TASK_INTERRUPTIBLE stored as the task's own state.
pub struct SetState;

impl OwnStep for SetState {
    fn once<R: Wait>(_rt: &R, wk: &Wk<()>, pass: &mut Pass) -> bool {
        set_state(wk, pass, State::TASK_INTERRUPTIBLE);
        true
    }
}

/// TASK_RUNNING stored as the task's own state.
pub struct SetRunning;

impl OwnStep for SetRunning {
    fn once<R: Wait>(_rt: &R, wk: &Wk<()>, pass: &mut Pass) -> bool {
        set_running(wk, pass);
        true
    }
}

/// The task's state held against a mask. The journal notes one that doesn't match.
pub struct Match;

impl OwnStep for Match {
    fn once<R: Wait>(_rt: &R, wk: &Wk<()>, pass: &mut Pass) -> bool {
        pass.clear_turn();
        match_state(wk, pass, 0, State::TASK_NORMAL);
        true
    }
}

/// The task's body taken out and put home.
pub struct Body;

impl OwnStep for Body {
    fn once<R: Wait>(_rt: &R, wk: &Wk<()>, pass: &mut Pass) -> bool {
        run(wk, pass, 0);
        true
    }
}

/// The task put back at the end of its queue, and picked again.
pub struct Turn;

impl OwnStep for Turn {
    fn once<R: Wait>(rt: &R, wk: &Wk<()>, pass: &mut Pass) -> bool {
        pass.clear_turn();
        if !put_back(rt, wk, pass, 0) {
            return false;
        }
        pass.clear_turn();
        match pick(rt, wk, pass) {
            Some(0) => true,
            _ => false,
        }
    }
}
