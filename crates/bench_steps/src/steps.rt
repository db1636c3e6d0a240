//! Each kind of step that a seat can repeat which holds nothing.
ghost use Rattle.bench_steps.specs.Small.{IsSmall};
ghost use Rattle.task_words.specs.Seats.{HoldsNothing};
ghost use Rattle.task_words.specs.Views.{IsOf, IsSame, IsOneSeat};

use crate::step::Step;
use std::sync::Wait;
use task_words::{
    Pass, Wk, bump_cond, load_busy, load_cond, load_count, load_cpu, load_rq, load_state,
    lock_queue, lock_task, lock_wait, lock_works,
};

pub struct State;

impl Step for State {
    fn once<R: Wait>(_rt: &R, wk: &Wk<()>, pass: &mut Pass) {
        load_state(wk, pass, 0);
    }
}

pub struct Rq;

impl Step for Rq {
    fn once<R: Wait>(_rt: &R, wk: &Wk<()>, pass: &mut Pass) {
        load_rq(wk, pass, 0);
    }
}

pub struct Busy;

impl Step for Busy {
    fn once<R: Wait>(_rt: &R, wk: &Wk<()>, pass: &mut Pass) {
        load_busy(wk, pass, 0);
    }
}

pub struct Cpu;

impl Step for Cpu {
    fn once<R: Wait>(_rt: &R, wk: &Wk<()>, pass: &mut Pass) {
        load_cpu(wk, pass, 0);
    }
}

pub struct Level;

impl Step for Level {
    fn once<R: Wait>(_rt: &R, wk: &Wk<()>, pass: &mut Pass) {
        load_count(wk, pass, 0);
    }
}

pub struct Cond;

impl Step for Cond {
    fn once<R: Wait>(_rt: &R, wk: &Wk<()>, pass: &mut Pass) {
        load_cond(wk, pass, 0);
    }
}

pub struct Bump;

impl Step for Bump {
    fn once<R: Wait>(_rt: &R, wk: &Wk<()>, pass: &mut Pass) {
        bump_cond(wk, pass, 0);
    }
}

pub struct Task;

impl Step for Task {
    fn once<R: Wait>(rt: &R, wk: &Wk<()>, pass: &mut Pass) {
        let task = lock_task(rt, wk, pass, 0);
        task.give(wk, pass);
    }
}

pub struct Queue;

impl Step for Queue {
    fn once<R: Wait>(rt: &R, wk: &Wk<()>, pass: &mut Pass) {
        let queue = lock_queue(rt, wk, pass, 0);
        queue.give_as_taken(wk, pass);
    }
}

pub struct Works;

impl Step for Works {
    fn once<R: Wait>(rt: &R, wk: &Wk<()>, pass: &mut Pass) {
        let works = lock_works(rt, wk, pass, 0);
        works.give(wk, pass);
    }
}

pub struct WaitQueue;

impl Step for WaitQueue {
    fn once<R: Wait>(rt: &R, wk: &Wk<()>, pass: &mut Pass) {
        let wait = lock_wait(rt, wk, pass, 0);
        wait.give(wk, pass);
    }
}
