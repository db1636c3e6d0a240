//! The body of the current task, in the table.
ghost use Rattle.std.specs.Prelude.{◌≡◌, ◌<◌, true, Some, None, IfOk, IfSome};
ghost use Rattle.pipe_bodies.specs.declared.verdict.Then.TheVariants.{Exit};
ghost use Rattle.pipe_bodies.specs.Turns.{Turns};
ghost use Rattle.run_cells.specs.NetMaps.{AreWithin};
ghost use Rattle.run_turns.specs.Conds.{wait_cond, wait_value, cond_kept};
ghost use Rattle.run_turns.specs.Standing.{IsAtRest};
ghost use Rattle.run_turns.specs.Turns.{LookedIn, LeavesKept, HasLeftCond, HadTurn};
ghost use Rattle.task_words.specs.Views.{IsOf, IsSame};
ghost use Rattle.word_steps.specs.Folds.{current_task, ended_known};

use crate::loads::Waits;
use handoff_data::{CondNo, NoMemory, TaskNo};
use pipe_bodies::{Then, Verdict, Work};
use run_cells::Cell;
use std::sync::Wait;
use task_words::{Kept, Pass, Wk, body_home, body_out};
use wait_queue::finish;

// Takes the condition out of a cell.
fn take_cond<W: Work>(cell: &mut Cell<W>) -> Option<CondNo>
    ensures cond { result ≡ cond_kept cell.old.on }
    ensures none { cell.new.on ≡ None }
    ensures lasting { cell.new.body.lasting ≡ cell.old.body.lasting }
    ensures ended { cell.new.body.seen.ended ≡ cell.old.body.seen.ended }
{
    match cell.on.take() {
        Some((k, _)) => Some(k),
        None => None,
    }
}

// The condition that the cell of the current task keeps, if it keeps one; it keeps none from then on.
fn cond_of<W: Work>(wk: &Wk<Cell<W>>, pass: &mut Pass, t: TaskNo) -> Option<CondNo>
    requires of { IsOf wk.now pass.old }
    requires rest { IsAtRest pass.old }
    requires current { current_task pass.old.seat pass.old.trace ≡ Some t }
    ensures same { IsSame pass.old pass.new }
    ensures rest { IsAtRest pass.new }
    ensures current { current_task pass.new.seat pass.new.trace ≡ Some t }
    ensures did { LookedIn t pass.old pass.new }
{
    let mut out = body_out(wk, pass);
    let kept = take_cond(out.body_mut());
    body_home(wk, pass, out);
    kept
}

// Leaves a condition at which the current task waited, if there is one and it is the table's.
#[tactic(auto, using(crate::proofs::RestLaws::rest_settled))]
fn leave_kept<B: Kept, R: Wait>(
    rt: &R,
    wk: &Wk<B>,
    pass: &mut Pass,
    t: TaskNo,
    kept: Option<CondNo>,
)
    requires of { IsOf wk.now pass.old }
    requires rest { IsAtRest pass.old }
    requires current { current_task pass.old.seat pass.old.trace ≡ Some t }
    ensures same { IsSame pass.old pass.new }
    ensures rest { IsAtRest pass.new }
    ensures current { current_task pass.new.seat pass.new.trace ≡ Some t }
    ensures did { LeavesKept wk.now.shape.conds kept pass.old pass.new }
{
    let Some(k) = kept else {
        return;
    };
    if k >= wk.shape().conds {
        return;
    }
    finish(rt, wk, pass, k);
}

/// Leaves the condition at which the current task waited, as Linux's `finish_wait` (`kernel/sched/wait.c`): its entry
/// is taken out of the wait queue, and it is TASK_RUNNING. A cell that keeps no condition of the table leaves none.
#[tactic(auto, using(crate::proofs::TurnLaws::left_kept))]
pub fn leave_cond<W: Work, R: Wait>(rt: &R, wk: &Wk<Cell<W>>, pass: &mut Pass, t: TaskNo)
    requires of { IsOf wk.now pass.old }
    requires rest { IsAtRest pass.old }
    requires current { current_task pass.old.seat pass.old.trace ≡ Some t }
    ensures same { IsSame pass.old pass.new }
    ensures rest { IsAtRest pass.new }
    ensures current { current_task pass.new.seat pass.new.trace ≡ Some t }
    ensures did { HasLeftCond t pass.old pass.new }
{
    let kept = cond_of(wk, pass, t);
    leave_kept(rt, wk, pass, t, kept);
}

/// What a turn of a body gave, and whether the body has ended.
#[derive(Drop)]
pub struct BodyTurn {
    pub verdict: Result<Verdict, NoMemory>,
    pub ended: bool,
}

// The condition at which a task is to wait by its body's verdict, with its value before the turn.
fn waits_at(waits: Waits, then: Then) -> Option<(CondNo, u64)>
    requires number { waits.t < 200 }
    requires inputs { AreWithin 200 waits.inputs }
    ensures cond { cond_kept result ≡ wait_cond waits.inputs waits.t then }
    ensures value { IfSome result (λ r. r.1 ≡ wait_value waits.values then) }
{
    match waits.cond(then) {
        Some(k) => Some((k, waits.value(then))),
        None => None,
    }
}

// One turn of the body of a cell, which keeps where its task is to wait.
fn turn_cell<W: Work>(cell: &mut Cell<W>, waits: Waits) -> BodyTurn
    requires number { waits.t < 200 }
    requires inputs { AreWithin 200 waits.inputs }
    ensures turned { IfOk result.verdict (λ v. Turns cell.old.body.seen cell.new.body.seen v) }
    ensures cond { IfOk result.verdict (λ v. cond_kept cell.new.on ≡ wait_cond waits.inputs waits.t v.then) }
    ensures value { IfOk result.verdict (λ v. IfSome cell.new.on (λ r. r.1 ≡ wait_value waits.values v.then)) }
    ensures lasting { cell.new.body.lasting ≡ cell.old.body.lasting }
    ensures stays { cell.old.body.seen.ended ≡ true → cell.new.body.seen.ended ≡ true }
    ensures ended { cell.new.body.seen.ended ≡ result.ended }
    ensures exit { IfOk result.verdict (λ v. v.then ≡ Exit → result.ended ≡ true) }
{
    let verdict = cell.body.turn();
    let ended = cell.body.has_ended();
    if let Ok(v) = verdict {
        cell.on = waits_at(waits, v.then);
    }
    BodyTurn { verdict, ended }
}

/// One turn of the body of the current task. The cell keeps the condition at which the task is to wait, with the value
/// loaded before, where the body's verdict is that it waits.
pub fn run_body<W: Work>(wk: &Wk<Cell<W>>, pass: &mut Pass, t: TaskNo, waits: Waits) -> BodyTurn
    requires of { IsOf wk.now pass.old }
    requires number { waits.t < 200 }
    requires inputs { AreWithin 200 waits.inputs }
    requires rest { IsAtRest pass.old }
    requires current { current_task pass.old.seat pass.old.trace ≡ Some t }
    ensures same { IsSame pass.old pass.new }
    ensures rest { IsAtRest pass.new }
    ensures current { current_task pass.new.seat pass.new.trace ≡ Some t }
    ensures known { ended_known pass.new.trace t ≡ Some result.ended }
    ensures exit { IfOk result.verdict (λ v. v.then ≡ Exit → result.ended ≡ true) }
    ensures did { HadTurn t pass.old pass.new }
{
    let mut out = body_out(wk, pass);
    let turned = turn_cell(out.body_mut(), waits);
    body_home(wk, pass, out);
    turned
}
