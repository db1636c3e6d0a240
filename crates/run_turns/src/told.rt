//! Calls of the scheduler, each with the telling of its entries: the gate hears of them before the next one is made,
//! and the turn has all its room again.
ghost use Rattle.std.specs.Prelude.{◌≡◌, ◌<◌, ℕ, Some, None, true, false, IsSome, IfOk, OnOk, is_some};
ghost use Rattle.core_kinds.specs.Steps.{dead};
ghost use Rattle.run_cells.specs.Telling.{list_of, GoesOn};
ghost use Rattle.run_turns.specs.Deaths.{HasDied};
ghost use Rattle.run_turns.specs.Standing.{IsAtRest};
ghost use Rattle.run_turns.specs.Turns.{WasStarted, WasSwitched, WasRaised, WasSentToSleep, IsMarked, Dies};
ghost use Rattle.sched_switch.specs.Currents.{current_after, IsTaskOf};
ghost use Rattle.task_words.specs.Views.{IsOf, IsSame, IsOneSeat};
ghost use Rattle.word_rule.specs.Own.{last_own};
ghost use Rattle.word_steps.specs.Folds.{current_task, ended_known};

use handoff_data::{CondNo, CpuNo, NoMemory, State, TaskNo};
use run_cells::{Gate, tell};
use run_queue::start;
use sched_switch::{Next, Switch, schedule, sleep_on};
use std::sync::Wait;
use task_words::{Kept, Pass, Wk, lock_task, set_state};
use wait_queue::bump_and_wake;

/// Starts a new task on a processor, and tells it. NoMemory where the gate refuses.
#[tactic(auto, using(run_cells::proofs::TellingLaws::goes_then, crate::proofs::RestLaws::rest_told, crate::proofs::RestLaws::steady_rests, crate::proofs::RestLaws::paid_rests))]
pub fn start_told<B: Kept, G: Gate, R: Wait>(
    rt: &R,
    wk: &Wk<B>,
    pass: &mut Pass,
    gate: &mut Option<G>,
    t: TaskNo,
    c: CpuNo,
) -> Result<(), NoMemory>
    requires of { IsOf wk.now pass.old }
    requires task { t < wk.now.shape.tasks }
    requires processor { c < wk.now.shape.cpus }
    requires rest { IsAtRest pass.old }
    ensures same { IsOneSeat pass.old pass.new }
    ensures rest { OnOk result (IsAtRest pass.new) }
    ensures did { OnOk result (WasStarted t c pass.old pass.new) }
    ensures goes { GoesOn (list_of G.told gate.old) (list_of G.told gate.new) pass.old pass.new }
    ensures there { is_some gate.new ≡ is_some gate.old }
{
    start(rt, wk, pass, t, c);
    tell(pass, gate)
}

/// A switch, told. NoMemory where the gate refuses.
#[tactic(auto, using(run_cells::proofs::TellingLaws::goes_then, crate::proofs::RestLaws::rest_told, crate::proofs::TurnLaws::died_told))]
pub fn switch_told<B: Kept, G: Gate, R: Wait>(
    rt: &R,
    wk: &Wk<B>,
    pass: &mut Pass,
    gate: &mut Option<G>,
    next: Next,
) -> Result<Switch, NoMemory>
    requires of { IsOf wk.now pass.old }
    requires processor { pass.old.seat < wk.now.shape.cpus }
    requires rest { IsAtRest pass.old }
    ensures same { IsOneSeat pass.old pass.new }
    ensures rest { OnOk result (IsAtRest pass.new) }
    ensures current { IfOk result (λ r. current_task pass.new.seat pass.new.trace ≡ current_after r) }
    ensures task { IfOk result (λ r. IsTaskOf wk.now.shape.tasks r) }
    ensures did { IfOk result (λ r. WasSwitched next r pass.old pass.new) }
    ensures dies { (t : ℕ) → current_task pass.old.seat pass.old.trace ≡ Some t → last_own pass.old.trace t ≡ Some dead
        → OnOk result (HasDied pass.new.told t) }
    ensures goes { GoesOn (list_of G.told gate.old) (list_of G.told gate.new) pass.old pass.new }
    ensures there { is_some gate.new ≡ is_some gate.old }
{
    let answer = schedule(rt, wk, pass, next);
    tell(pass, gate)?;
    Ok(answer)
}

/// A sleep of the current task at a condition, told. NoMemory where the gate refuses.
#[tactic(auto, using(run_cells::proofs::TellingLaws::goes_then, crate::proofs::RestLaws::rest_told))]
pub fn sleep_told<B: Kept, G: Gate, R: Wait>(
    rt: &R,
    wk: &Wk<B>,
    pass: &mut Pass,
    gate: &mut Option<G>,
    k: CondNo,
    v: u64,
) -> Result<(), NoMemory>
    requires of { IsOf wk.now pass.old }
    requires processor { pass.old.seat < wk.now.shape.cpus }
    requires condition { k < wk.now.shape.conds }
    requires rest { IsAtRest pass.old }
    requires current { IsSome (current_task pass.old.seat pass.old.trace) }
    ensures same { IsOneSeat pass.old pass.new }
    ensures rest { OnOk result (IsAtRest pass.new) }
    ensures did { OnOk result (WasSentToSleep k v pass.old pass.new) }
    ensures goes { GoesOn (list_of G.told gate.old) (list_of G.told gate.new) pass.old pass.new }
    ensures there { is_some gate.new ≡ is_some gate.old }
{
    sleep_on(rt, wk, pass, k, v);
    tell(pass, gate)
}

/// A condition is raised, its sleepers woken, and all told. NoMemory where the gate refuses.
#[tactic(auto, using(run_cells::proofs::TellingLaws::goes_then, crate::proofs::RestLaws::rest_told, crate::proofs::RestLaws::steady_settled, crate::proofs::RestLaws::current_settled))]
pub fn raise_told<B: Kept, G: Gate, R: Wait>(
    rt: &R,
    wk: &Wk<B>,
    pass: &mut Pass,
    gate: &mut Option<G>,
    k: CondNo,
) -> Result<(), NoMemory>
    requires of { IsOf wk.now pass.old }
    requires condition { k < wk.now.shape.conds }
    requires rest { IsAtRest pass.old }
    ensures same { IsOneSeat pass.old pass.new }
    ensures rest { OnOk result (IsAtRest pass.new) }
    ensures current { current_task pass.new.seat pass.new.trace ≡ current_task pass.old.seat pass.old.trace }
    ensures ended { ended_known pass.new.trace ≡ ended_known pass.old.trace }
    ensures did { OnOk result (WasRaised wk.now.shape k pass.old pass.new) }
    ensures goes { GoesOn (list_of G.told gate.old) (list_of G.told gate.new) pass.old pass.new }
    ensures there { is_some gate.new ≡ is_some gate.old }
{
    bump_and_wake(rt, wk, pass, k);
    tell(pass, gate)
}

// The state of the current task, whose body has ended, becomes TASK_DEAD.
fn mark_dead<B: Kept, R: Wait>(rt: &R, wk: &Wk<B>, pass: &mut Pass, t: TaskNo)
    requires of { IsOf wk.now pass.old }
    requires task { t < wk.now.shape.tasks }
    requires rest { IsAtRest pass.old }
    requires current { current_task pass.old.seat pass.old.trace ≡ Some t }
    requires ended { ended_known pass.old.trace t ≡ Some true }
    ensures same { IsSame pass.old pass.new }
    ensures rest { IsAtRest pass.new }
    ensures marks { IsMarked t pass.old pass.new }
{
    // The store stands under the task's lock: a waker that has matched the task under it has queued it and stored
    // TASK_RUNNING before it gives the lock, so that none overwrites the death.
    let task = lock_task(rt, wk, pass, t);
    set_state(wk, pass, State::TASK_DEAD);
    task.give(wk, pass);
}

/// The current task, whose body has ended, dies, and that is told. NoMemory where the gate refuses.
#[tactic(auto, using(run_cells::proofs::TellingLaws::goes_then, run_cells::proofs::TellingLaws::goes_call))]
pub fn die_told<B: Kept, G: Gate, R: Wait>(
    rt: &R,
    wk: &Wk<B>,
    pass: &mut Pass,
    gate: &mut Option<G>,
    t: TaskNo,
) -> Result<(), NoMemory>
    requires of { IsOf wk.now pass.old }
    requires processor { pass.old.seat < wk.now.shape.cpus }
    requires task { t < wk.now.shape.tasks }
    requires rest { IsAtRest pass.old }
    requires current { current_task pass.old.seat pass.old.trace ≡ Some t }
    requires ended { ended_known pass.old.trace t ≡ Some true }
    ensures same { IsOneSeat pass.old pass.new }
    ensures rest { OnOk result (IsAtRest pass.new) }
    ensures did { OnOk result (Dies t pass.old pass.new) }
    ensures goes { GoesOn (list_of G.told gate.old) (list_of G.told gate.new) pass.old pass.new }
    ensures there { is_some gate.new ≡ is_some gate.old }
{
    mark_dead(rt, wk, pass, t);
    switch_told(rt, wk, pass, gate, Next::Nobody)?;
    Ok(())
}
