//! One turn of a processor.
ghost use Rattle.std.specs.Prelude.{◌≡◌, ◌<◌, ◌≤◌, ◌*◌, Some, true, IfSome, IfOk, OnOk, is_some};
ghost use Rattle.pipe_bodies.specs.declared.verdict.Then.TheVariants.{Exit};
ghost use Rattle.run_cells.specs.NetMaps.{AreWithin, IsNetMap};
ghost use Rattle.run_cells.specs.Telling.{list_of, GoesOn};
ghost use Rattle.run_turns.specs.Deaths.{HasDied, DiedBy};
ghost use Rattle.run_turns.specs.Standing.{IsAtRest};
ghost use Rattle.run_turns.specs.Turns.{WereRaised, Sleeps, GoesAs, GoesOnAfter, HasRun, DidTurn};
ghost use Rattle.task_words.specs.Views.{IsOf, IsOneSeat};
ghost use Rattle.word_steps.specs.Folds.{current_task, ended_known};

use crate::bodies::{leave_cond, run_body};
use crate::loads::{Waits, load_values, read_cond, wrote_cond};
use crate::told::{die_told, raise_told, sleep_told, switch_told};
use handoff_data::{CondNo, NoMemory, TaskNo};
use pipe_bodies::{Then, Verdict, Work};
use run_cells::{Cell, Gate, Inputs, NetMap};
use sched_switch::{Next, Switch};
use std::sync::Wait;
use task_words::{Kept, Pass, Wk};

/// What a turn was.
#[derive(Clone, Copy, Debug, PartialEq, Eq)]
pub enum Turned {
    /// Nothing was in the queue.
    Idle,
    /// The body of this task had a turn.
    Ran { t: TaskNo, verdict: Verdict },
}

// Raises a condition, if there is one, wakes those who wait for it, and tells what came of it.
fn raise_some<B: Kept, G: Gate, R: Wait>(
    rt: &R,
    wk: &Wk<B>,
    pass: &mut Pass,
    gate: &mut Option<G>,
    k: Option<CondNo>,
) -> Result<(), NoMemory>
    requires of { IsOf wk.now pass.old }
    requires condition { IfSome k (λ n. n < wk.now.shape.conds) }
    requires rest { IsAtRest pass.old }
    ensures same { IsOneSeat pass.old pass.new }
    ensures rest { OnOk result (IsAtRest pass.new) }
    ensures current { current_task pass.new.seat pass.new.trace ≡ current_task pass.old.seat pass.old.trace }
    ensures ended { ended_known pass.new.trace ≡ ended_known pass.old.trace }
    ensures did { OnOk result (WereRaised wk.now.shape k pass.old pass.new) }
    ensures goes { GoesOn (list_of G.told gate.old) (list_of G.told gate.new) pass.old pass.new }
    ensures there { is_some gate.new ≡ is_some gate.old }
{
    match k {
        Some(k) => raise_told(rt, wk, pass, gate, k),
        None => Ok(()),
    }
}

// Puts the current task to sleep at a condition, if there is one, unless it has another value than this.
fn sleep_some<B: Kept, G: Gate, R: Wait>(
    rt: &R,
    wk: &Wk<B>,
    pass: &mut Pass,
    gate: &mut Option<G>,
    k: Option<CondNo>,
    v: u64,
) -> Result<(), NoMemory>
    requires of { IsOf wk.now pass.old }
    requires processor { pass.old.seat < wk.now.shape.cpus }
    requires condition { IfSome k (λ n. n < wk.now.shape.conds) }
    requires rest { IsAtRest pass.old }
    requires current { IsSome (current_task pass.old.seat pass.old.trace) }
    ensures same { IsOneSeat pass.old pass.new }
    ensures rest { OnOk result (IsAtRest pass.new) }
    ensures did { OnOk result (Sleeps k v pass.old pass.new) }
    ensures goes { GoesOn (list_of G.told gate.old) (list_of G.told gate.new) pass.old pass.new }
    ensures there { is_some gate.new ≡ is_some gate.old }
{
    match k {
        Some(k) => sleep_told(rt, wk, pass, gate, k, v),
        None => Ok(()),
    }
}

ghost use Rattle.std.specs.Prelude.{IsSome};

// How the current task goes on by its body's verdict.
#[tactic(auto, using(crate::proofs::TurnLaws::goes_as))]
fn go_on<B: Kept, G: Gate, R: Wait>(
    rt: &R,
    wk: &Wk<B>,
    pass: &mut Pass,
    gate: &mut Option<G>,
    waits: Waits,
    then: Then,
) -> Result<(), NoMemory>
    requires of { IsOf wk.now pass.old }
    requires processor { pass.old.seat < wk.now.shape.cpus }
    requires task { waits.t < wk.now.shape.tasks }
    requires inputs { AreWithin wk.now.shape.tasks waits.inputs }
    requires conds { wk.now.shape.conds ≡ 2 * wk.now.shape.tasks }
    requires few { wk.now.shape.tasks ≤ 200 }
    requires rest { IsAtRest pass.old }
    requires current { current_task pass.old.seat pass.old.trace ≡ Some waits.t }
    requires ended { then ≡ Exit → ended_known pass.old.trace waits.t ≡ Some true }
    ensures same { IsOneSeat pass.old pass.new }
    ensures rest { OnOk result (IsAtRest pass.new) }
    ensures did { OnOk result (GoesAs waits.inputs waits.values waits.t then pass.old pass.new) }
    ensures goes { GoesOn (list_of G.told gate.old) (list_of G.told gate.new) pass.old pass.new }
    ensures there { is_some gate.new ≡ is_some gate.old }
{
    match then {
        Then::Exit => die_told(rt, wk, pass, gate, waits.t),
        _ => sleep_some(rt, wk, pass, gate, waits.cond(then), waits.value(then)),
    }
}

// What is done once the body of the current task has had its turn.
fn after_body<B: Kept, G: Gate, R: Wait>(
    rt: &R,
    wk: &Wk<B>,
    pass: &mut Pass,
    gate: &mut Option<G>,
    waits: Waits,
    verdict: Verdict,
) -> Result<(), NoMemory>
    requires of { IsOf wk.now pass.old }
    requires processor { pass.old.seat < wk.now.shape.cpus }
    requires task { waits.t < wk.now.shape.tasks }
    requires inputs { AreWithin wk.now.shape.tasks waits.inputs }
    requires conds { wk.now.shape.conds ≡ 2 * wk.now.shape.tasks }
    requires few { wk.now.shape.tasks ≤ 200 }
    requires rest { IsAtRest pass.old }
    requires current { current_task pass.old.seat pass.old.trace ≡ Some waits.t }
    requires ended { verdict.then ≡ Exit → ended_known pass.old.trace waits.t ≡ Some true }
    ensures same { IsOneSeat pass.old pass.new }
    ensures rest { OnOk result (IsAtRest pass.new) }
    ensures did { OnOk result (GoesOnAfter wk.now.shape waits.inputs waits.values waits.t verdict pass.old pass.new) }
    ensures goes { GoesOn (list_of G.told gate.old) (list_of G.told gate.new) pass.old pass.new }
    ensures there { is_some gate.new ≡ is_some gate.old }
{
    // The bumps come after the body's turn: a reader that loads the new count finds the item in the ring. They come
    // before the sleep, so that a writer which sleeps itself owes nobody a wake.
    raise_some(rt, wk, pass, gate, read_cond(waits.inputs, verdict.read))?;
    raise_some(rt, wk, pass, gate, wrote_cond(waits.t, verdict.wrote))?;
    go_on(rt, wk, pass, gate, waits, verdict.then)
}

// The body of the current task has a turn, with all that comes of it.
fn run_task<W: Work, G: Gate, R: Wait>(
    rt: &R,
    wk: &Wk<Cell<W>>,
    pass: &mut Pass,
    gate: &mut Option<G>,
    t: TaskNo,
    inputs: Inputs,
) -> Result<Verdict, NoMemory>
    requires of { IsOf wk.now pass.old }
    requires processor { pass.old.seat < wk.now.shape.cpus }
    requires task { t < wk.now.shape.tasks }
    requires inputs { AreWithin wk.now.shape.tasks inputs }
    requires conds { wk.now.shape.conds ≡ 2 * wk.now.shape.tasks }
    requires few { wk.now.shape.tasks ≤ 200 }
    requires rest { IsAtRest pass.old }
    requires current { current_task pass.old.seat pass.old.trace ≡ Some t }
    ensures same { IsOneSeat pass.old pass.new }
    ensures rest { OnOk result (IsAtRest pass.new) }
    ensures did { IfOk result (λ v. HasRun wk.now.shape inputs t v pass.old pass.new) }
    ensures goes { GoesOn (list_of G.told gate.old) (list_of G.told gate.new) pass.old pass.new }
    ensures there { is_some gate.new ≡ is_some gate.old }
{
    leave_cond(rt, wk, pass, t);
    // The values are loaded before the body looks at its rings: an item that comes after the body's look raises the
    // count above the value loaded, so that the sleep finds it changed. Loaded after the turn, that wake would be
    // lost.
    let values = load_values(wk, pass, t, inputs);
    let waits = Waits { t, inputs, values };
    let turned = run_body(wk, pass, t, waits);
    let verdict = turned.verdict?;
    after_body(rt, wk, pass, gate, waits, verdict)?;
    Ok(verdict)
}

/// One turn of a processor, whose pass drives it: its next task is picked; the condition at which that waited is left;
/// its conditions are loaded; its body has a turn; the condition of what the body took, and of what it put out, is
/// raised, and those who wait there are woken; and the task sleeps with the value loaded, or dies, as the body's
/// verdict says. After each call that makes entries they are told to the gate, and the turn is empty. `Idle` comes
/// exactly where nothing was in the queue.
///
/// NoMemory comes where the gate or the body refuses. What was done then stands, and the entries that the gate hasn't
/// taken stay in the turn.
pub fn cpu_turn<W: Work, G: Gate, R: Wait>(
    rt: &R,
    wk: &Wk<Cell<W>>,
    pass: &mut Pass,
    net: &NetMap,
    gate: &mut Option<G>,
) -> Result<Turned, NoMemory>
    requires of { IsOf wk.now pass.old }
    requires processor { pass.old.seat < wk.now.shape.cpus }
    requires rest { IsAtRest pass.old }
    requires net { IsNetMap net.now wk.now.shape }
    ensures same { IsOneSeat pass.old pass.new }
    ensures rest { OnOk result (IsAtRest pass.new) }
    ensures did { IfOk result (λ r. DidTurn wk.now.shape net.now r pass.old pass.new) }
    ensures died { IfOk result (λ r. DiedBy r pass.new.told) }
    ensures goes { GoesOn (list_of G.told gate.old) (list_of G.told gate.new) pass.old pass.new }
    ensures there { is_some gate.new ≡ is_some gate.old }
{
    // A hint to the prover: the shape is one that a machine may have, so each task's conditions are the table's.
    let _shape = wk.shape();
    match switch_told(rt, wk, pass, gate, Next::Task)? {
        Switch::Running(t) => {
            let inputs = net.get(t);
            let verdict = run_task(rt, wk, pass, gate, t, inputs)?;
            Ok(Turned::Ran { t, verdict })
        }
        Switch::Idle => Ok(Turned::Idle),
        Switch::Nobody => unreachable!(),
    }
}
