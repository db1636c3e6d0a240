//! Events and runs of events.

ghost use Rattle.std.specs.Prelude.{◌≡◌, ◌↔◌, ◌≤◌, ℕ, Some, IsTrue, OnOk, IfOk, MatchOption, take, length, slice_get};
ghost use Rattle.core_data.specs.Columns.{Columns, columns};
ghost use Rattle.core_invariant.specs.Invariant.{Holds};
ghost use Rattle.core_law.specs.Runs.{Ran, EachMoves};
ghost use Rattle.core_law.specs.Steps.{May, after, Step};
ghost use Rattle.core_law.specs.declared.event.Event.{Event};

use core_data::Core;
use core_law::{Event, StepKind};
use handoff_data::NoMemory;
use step_data::{copy_core, copy_wait, copy_works};
use step_gives::{give_queue, give_wait, may_give_queue, may_give_wait, may_give_works};
use step_kinds::{
    body_home, body_out, bump, claim, clear_busy, dequeue_task, give_task, give_works, load_busy,
    load_cond, load_count, load_cpu, load_rq, load_state, make_runnable, may_body_home,
    may_body_out, may_bump, may_claim, may_clear_busy, may_dequeue, may_give_task, may_load,
    may_load_state, may_make_runnable, may_move, may_queue, may_set_busy, may_set_state,
    may_store_cpu, may_take_queue, may_take_task, may_take_wait, may_take_works, move_task,
    queue_task, set_busy, set_state, store_cpu, take_queue, take_task, take_wait, take_works,
};

/// Whether an event is possible.
fn may_happen(core: &Core, event: &Event) -> bool
    ensures { IsTrue result ↔ May (columns core.now) event.now.seat event.now.step }
{
    let s = event.seat;
    match &event.step {
        StepKind::TakeTask { t } => may_take_task(core, s, *t),
        StepKind::GiveTask {
            t,
            val,
            stood,
            done,
        } => may_give_task(core, s, *t, *val, *stood, *done),
        StepKind::TakeQueue { c } => may_take_queue(core, s, *c),
        StepKind::GiveQueue { c, val } => may_give_queue(core, s, *c, val),
        StepKind::TakeWait { k } => may_take_wait(core, s, *k),
        StepKind::GiveWait { k, val } => may_give_wait(core, s, *k, val),
        StepKind::TakeWorks { c } => may_take_works(core, s, *c),
        StepKind::GiveWorks { c, val } => may_give_works(core, s, *c, val),
        StepKind::BodyOut { t } => may_body_out(core, s, *t),
        StepKind::BodyHome { t, ended } => may_body_home(core, s, *t, *ended),
        StepKind::QueueTask { c, t } => may_queue(core, s, *c, *t),
        StepKind::DequeueTask { c, t } => may_dequeue(core, s, *c, *t),
        StepKind::MoveTask { c, t, val } => may_move(core, s, *c, *t, val),
        StepKind::SetBusy { c, t, val } => may_set_busy(core, s, *c, *t, val),
        StepKind::ClearBusy { t } => may_clear_busy(core, s, *t),
        StepKind::SetState { t, state } => may_set_state(core, s, *t, *state),
        StepKind::ClaimTask { t } => may_claim(core, s, *t),
        StepKind::MakeRunnable { t } => may_make_runnable(core, s, *t),
        StepKind::LoadState { t, mask } => may_load_state(core, s, *t, *mask),
        StepKind::LoadRq { t } => may_load(core, s, *t),
        StepKind::LoadBusy { t } => may_load(core, s, *t),
        StepKind::LoadCpu { t } => may_load(core, s, *t),
        StepKind::LoadCount { t } => may_load(core, s, *t),
        StepKind::StoreCpu { t, c } => may_store_cpu(core, s, *t, *c),
        StepKind::Bump { k } => may_bump(core, s, *k),
        StepKind::LoadCond { k } => may_bump(core, s, *k),
    }
}

/// Makes a possible event happen.
fn happen(core: &mut Core, event: &Event) -> Result<(), NoMemory>
    requires { May (columns core.old) event.now.seat event.now.step }
    ensures { OnOk result (columns core.new ≡ after (columns core.old) event.now.seat event.now.step) }
{
    let s = event.seat;
    match &event.step {
        StepKind::TakeTask { t } => take_task(core, s, *t),
        StepKind::GiveTask {
            t,
            val,
            stood: _,
            done: _,
        } => {
            give_task(core, s, *t, *val);
            Ok(())
        }
        StepKind::TakeQueue { c } => take_queue(core, s, *c),
        StepKind::GiveQueue { c, val } => {
            let val = val.copy()?;
            give_queue(core, s, *c, val);
            Ok(())
        }
        StepKind::TakeWait { k } => take_wait(core, s, *k),
        StepKind::GiveWait { k, val } => {
            let val = copy_wait(val)?;
            give_wait(core, s, *k, val)
        }
        StepKind::TakeWorks { c } => take_works(core, s, *c),
        StepKind::GiveWorks { c, val } => {
            let val = copy_works(val)?;
            give_works(core, s, *c, val);
            Ok(())
        }
        StepKind::BodyOut { t } => {
            body_out(core, s, *t);
            Ok(())
        }
        StepKind::BodyHome { t, ended } => {
            body_home(core, s, *t, *ended);
            Ok(())
        }
        StepKind::QueueTask { c, t } => queue_task(core, s, *c, *t),
        StepKind::DequeueTask { c, t } => dequeue_task(core, s, *c, *t),
        StepKind::MoveTask { c, t, val } => move_task(core, s, *c, *t, val),
        StepKind::SetBusy { c, t, val: _ } => set_busy(core, s, *c, *t),
        StepKind::ClearBusy { t } => clear_busy(core, s, *t),
        StepKind::SetState { t, state } => set_state(core, s, *t, *state),
        StepKind::ClaimTask { t } => claim(core, s, *t),
        StepKind::MakeRunnable { t } => make_runnable(core, s, *t),
        StepKind::LoadState { t, mask } => load_state(core, s, *t, *mask),
        StepKind::LoadRq { t } => load_rq(core, s, *t),
        StepKind::LoadBusy { t } => load_busy(core, s, *t),
        StepKind::LoadCpu { t } => load_cpu(core, s, *t),
        StepKind::LoadCount { t } => {
            load_count(core, s, *t);
            Ok(())
        }
        StepKind::StoreCpu { t, c } => store_cpu(core, s, *t, *c),
        StepKind::Bump { k } => bump(core, s, *k),
        StepKind::LoadCond { k } => load_cond(core, s, *k),
    }
}

/// The core after an event, or none where the event isn't possible in this core. Answers `NoMemory` where memory runs
/// out.
pub fn step_core(core: &Core, event: &Event) -> Result<Option<Core>, NoMemory>
    ensures { IfOk result (λ o. MatchOption o (May (columns core.now) event.now.seat event.now.step → ⊥)
        (λ next. Step (columns core.now) event.now (columns next))) }
{
    if !may_happen(core, event) {
        return Ok(None);
    }
    let mut next = copy_core(core)?;
    happen(&mut next, event)?;
    Ok(Some(next))
}

/// What a run of events came to: the core after those that were taken, and how many these are.
#[derive(Drop)]
pub struct CoreRun {
    pub core: Core,
    pub taken: usize,
}

/// Takes events up to the first impossible one. The invariant, where it holds of the core, holds after each event
/// taken. Answers `NoMemory` where memory runs out.
pub fn law_run(mut core: Core, events: &[Event]) -> Result<CoreRun, NoMemory>
    ensures ran { IfOk result (λ run. Ran (columns core) (take run.taken events.now) (columns run.core)) }
    ensures within { IfOk result (λ run. run.taken ≤ length events.now) }
    ensures stops { IfOk result (λ run. (e : Event) → slice_get events.now run.taken ≡ Some e
        → May (columns run.core) e.seat e.step → ⊥) }
    ensures kept { IfOk result (λ run. Holds (columns core) → Holds (columns run.core)) }
    ensures kept_after_each { IfOk result (λ run. Holds (columns core) → (n : ℕ) → n ≤ run.taken → (mid : Columns)
        × Ran (columns core) (take n events.now) mid × Holds mid) }
    ensures moves { IfOk result (λ run. Holds (columns core) → EachMoves (columns core) (take run.taken events.now)) }
{
    let mut taken = 0;
    for event in events {
        if !may_happen(&core, event) {
            return Ok(CoreRun { core, taken });
        }
        happen(&mut core, event)?;
        taken += 1;
    }
    Ok(CoreRun { core, taken })
}
