//! Loads.
ghost use Rattle.std.specs.Prelude.{◌≡◌, ◌≢◌, ◌<◌, ◌∷◌, true, None, Some, IsSome};
ghost use Rattle.task_words.specs.Views.{IsOf, IsSame};
ghost use Rattle.core_kinds.specs.Steps.{dead};
ghost use Rattle.handoff_data.specs.declared.state.State.{State};
ghost use Rattle.word_rule.specs.Own.{IsOfCurrent, IsStill, last_own};
ghost use Rattle.word_steps.specs.Folds.{task_held, has_matched, current_task, stays_queued, level_known};
ghost use Rattle.word_steps.specs.Records.{LoadedState, LoadedRq, LoadedBusy, LoadedCpu, LoadedCount};

use crate::pass::Pass;
use crate::wk::Wk;
use core_data::Rq;
use handoff_data::{CpuNo, State, TaskNo};
use word_kinds::{LoadBusy, LoadCount, LoadCpu, LoadRq, LoadState};
use word_table::{Kept, load};

/// What a busy word says.
#[derive(Clone, Copy, Debug, PartialEq, Eq)]
pub struct BusyWord {
    /// Whether the task is busy.
    pub on: bool,
    /// How often the word was changed.
    pub n: u64,
}

/// The state of a task, as Linux's `READ_ONCE(p->__state)` (`include/linux/sched.h`). The seat's own current task,
/// while it is queued, runs, is new, or has stored a sleep state or TASK_DEAD; where the seat has stored a state since
/// it picked it, it has that one, or was woken since, but for a TASK_DEAD, which stays.
pub fn load_state<B: Kept>(wk: &Wk<B>, pass: &mut Pass, t: TaskNo) -> State
    requires of { IsOf wk.now pass.old }
    requires task { t < wk.now.shape.tasks }
    ensures same { IsSame pass.old pass.new }
    ensures trace { pass.new.trace ≡ LoadedState t None result ∷ pass.old.trace }
    ensures own { current_task pass.old.seat pass.old.trace ≡ Some t → stays_queued pass.old.trace ≡ true
        → IsOfCurrent result }
    ensures still { (stored : State) → current_task pass.old.seat pass.old.trace ≡ Some t
        → stays_queued pass.old.trace ≡ true → last_own pass.old.trace t ≡ Some stored → IsStill stored result }
    ensures died { current_task pass.old.seat pass.old.trace ≡ Some t → stays_queued pass.old.trace ≡ true
        → last_own pass.old.trace t ≡ Some dead → result ≡ dead }
{
    State(load::<B, LoadState>(&wk.words, &mut pass.token, t) as u16)
}

/// The queue word of a task: whether it is queued, and how often that was changed. A task whose state matched since the
/// seat took its lock was queued before, so its number isn't 0.
pub fn load_rq<B: Kept>(wk: &Wk<B>, pass: &mut Pass, t: TaskNo) -> Rq
    requires of { IsOf wk.now pass.old }
    requires task { t < wk.now.shape.tasks }
    ensures same { IsSame pass.old pass.new }
    ensures trace { pass.new.trace ≡ LoadedRq t result.on result.m ∷ pass.old.trace }
    ensures changed { IsSome (task_held pass.old.trace t) → has_matched pass.old.trace t ≡ true → result.m ≢ 0 }
{
    let word = load::<B, LoadRq>(&wk.words, &mut pass.token, t);
    Rq {
        on: (word % 4) as u8,
        m: word / 4,
    }
}

/// The busy word of a task, as Linux's `p->on_cpu` (`include/linux/sched.h`).
pub fn load_busy<B: Kept>(wk: &Wk<B>, pass: &mut Pass, t: TaskNo) -> BusyWord
    requires of { IsOf wk.now pass.old }
    requires task { t < wk.now.shape.tasks }
    ensures same { IsSame pass.old pass.new }
    ensures trace { pass.new.trace ≡ LoadedBusy t result.on result.n ∷ pass.old.trace }
{
    let word = load::<B, LoadBusy>(&wk.words, &mut pass.token, t);
    BusyWord {
        on: word % 2 == 1,
        n: word / 2,
    }
}

/// The processor of a task, as Linux's `task_cpu` (`include/linux/sched.h`).
pub fn load_cpu<B: Kept>(wk: &Wk<B>, pass: &mut Pass, t: TaskNo) -> CpuNo
    requires of { IsOf wk.now pass.old }
    requires task { t < wk.now.shape.tasks }
    ensures same { IsSame pass.old pass.new }
    ensures trace { pass.new.trace ≡ LoadedCpu t result ∷ pass.old.trace }
    ensures processor { result < wk.now.shape.cpus }
{
    load::<B, LoadCpu>(&wk.words, &mut pass.token, t) as CpuNo
}

/// The migrate-disable level of a task, as Linux's `p->migration_disabled` (`include/linux/sched.h`). No step stores
/// one, so it is 0. Of its own current task the seat knows it until it picks another.
pub fn load_count<B: Kept>(wk: &Wk<B>, pass: &mut Pass, t: TaskNo) -> u32
    requires of { IsOf wk.now pass.old }
    requires task { t < wk.now.shape.tasks }
    ensures same { IsSame pass.old pass.new }
    ensures trace { pass.new.trace ≡ LoadedCount t result ∷ pass.old.trace }
    ensures known { current_task pass.old.seat pass.old.trace ≡ Some t
        → level_known pass.new.seat pass.new.trace ≡ Some result }
    ensures zero { result ≡ 0 }
{
    load::<B, LoadCount>(&wk.words, &mut pass.token, t) as u32
}
