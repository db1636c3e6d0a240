//! Stores of a task's state and of its processor, and loads of its state against a mask.
ghost use Rattle.std.specs.Prelude.{◌≡◌, ℕ, ◌<◌, ◌≤◌, ◌+◌, ◌^◌, ◌∷◌, Some, unwrap_or};
ghost use Rattle.core_kinds.specs.Steps.{running, waking};
ghost use Rattle.handoff_data.specs.declared.entry.Entry.TheVariants as entry;
ghost use Rattle.task_words.specs.Needs.{need_step};
ghost use Rattle.task_words.specs.Views.{IsOf, IsSame, IsSameSeat, logged};
ghost use Rattle.task_words.specs.States.{IsOwnStore, IsWakeMask, tested};
ghost use Rattle.word_rule.specs.May.{MayClaimWord, MayMakeRunnableWord, MayCpuWord, number_of};
ghost use Rattle.word_steps.specs.Folds.{current_task};
ghost use Rattle.word_table.specs.Views.{IsOf as IsTokenOf, IsSame as IsSameToken};
ghost use Rattle.word_steps.specs.Records.{StateSet, Claimed, MadeRunnable, StoredCpu, LoadedState};

use crate::guards::TaskGuard;
use crate::pass::Pass;
use crate::wk::Wk;
use handoff_data::{CpuNo, Entry, State, TaskNo, matches};
use word_kinds::{
    ClaimTask, Interruptible, InterruptibleKill, Killable, MakeRunnable, MatchState, NoBits,
    Normal, NormalKill, SetState, Uninterruptible, WakeKill,
};
use word_table::{Kept, Token, load, store};

/// Stores the state of the seat's own current task, as Linux's `set_current_state` (`include/linux/sched.h`). TASK_DEAD
/// needs the task's lock.
pub fn set_state<B: Kept>(wk: &Wk<B>, pass: &mut Pass, state: State)
    requires of { IsOf wk.now pass.old }
    requires may { IsOwnStore pass.old.seat pass.old.trace state }
    ensures same { IsSame pass.old pass.new }
    ensures trace { pass.new.trace ≡ StateSet (unwrap_or (current_task pass.old.seat pass.old.trace) 0) state
        ∷ pass.old.trace }
{
    let Some(t) = pass.current else {
        unreachable!()
    };
    // A sleep state needs no lock, since its seat reads it again under its queue's lock before T leaves. TASK_DEAD
    // needs T's own: no waker is then between its match and its store (death under a wake).
    store::<B, SetState>(&wk.words, &mut pass.token, t, state.0 as u64);
}

/// Stores TASK_RUNNING as the state of the seat's own current task, as Linux's `__set_current_state(TASK_RUNNING)`
/// (`include/linux/sched.h`).
pub fn set_running<B: Kept>(wk: &Wk<B>, pass: &mut Pass)
    requires of { IsOf wk.now pass.old }
    requires may { IsOwnStore pass.old.seat pass.old.trace running }
    ensures same { IsSame pass.old pass.new }
    ensures trace { pass.new.trace ≡ StateSet (unwrap_or (current_task pass.old.seat pass.old.trace) 0) running
        ∷ pass.old.trace }
{
    set_state(wk, pass, State::TASK_RUNNING);
}

/// Stores TASK_WAKING as the state of a task that the seat has found off its queue, under the task's lock; `m` is the
/// number of its changes, as the seat last read it.
pub fn claim_task<B: Kept>(wk: &Wk<B>, pass: &mut Pass, t: TaskNo, m: u64)
    requires of { IsOf wk.now pass.old }
    requires task { t < wk.now.shape.tasks }
    requires may { (x : ℕ) → MayClaimWord pass.old.seat pass.old.trace t x waking.0 }
    requires number { number_of pass.old.trace t ≡ m }
    requires spare { need_step ≤ pass.old.turn.spare }
    ensures same { IsSameSeat pass.old pass.new }
    ensures trace { pass.new.trace ≡ Claimed t m ∷ pass.old.trace }
    ensures turn { pass.new.turn ≡ logged (entry.Wake t m) pass.old.turn }
    ensures spare { pass.old.turn.spare ≤ pass.new.turn.spare + 1 }
{
    // From here T is this seat's: no mask matches TASK_WAKING, and nobody queues T meanwhile (two wakers).
    store::<B, ClaimTask>(&wk.words, &mut pass.token, t, State::TASK_WAKING.0 as u64);
    pass.turn.log(Entry::Wake { t, m });
}

/// Stores TASK_RUNNING as the state of a task that the seat starts, wakes on its queue, or has just put there.
pub fn make_runnable<B: Kept>(wk: &Wk<B>, pass: &mut Pass, t: TaskNo)
    requires of { IsOf wk.now pass.old }
    requires task { t < wk.now.shape.tasks }
    requires may { (x : ℕ) → MayMakeRunnableWord pass.old.seat pass.old.trace t x 0 }
    ensures same { IsSame pass.old pass.new }
    ensures trace { pass.new.trace ≡ MadeRunnable t ∷ pass.old.trace }
{
    // Under the lock of T's queue, or of a new T: the seat of T's processor is not between reading a sleep state and
    // taking T off by it (a bare TASK_RUNNING).
    store::<B, MakeRunnable>(&wk.words, &mut pass.token, t, State::TASK_RUNNING.0 as u64);
}

/// Stores the processor of a task that is on no queue, under its lock, as Linux's `set_task_cpu`
/// (`kernel/sched/core.c`).
pub fn store_cpu<B: Kept>(wk: &Wk<B>, pass: &mut Pass, task: &TaskGuard<B>, c: CpuNo)
    requires of { IsOf wk.now pass.old }
    requires table { task.now.of ≡ wk.now.name }
    requires task { task.now.task < wk.now.shape.tasks }
    requires may { (x : ℕ) → MayCpuWord pass.old.seat pass.old.trace wk.now.shape task.now.task x c }
    ensures same { IsSame pass.old pass.new }
    ensures trace { pass.new.trace ≡ StoredCpu task.now.task c ∷ pass.old.trace }
{
    // T is off every queue and its last processor has switched away from it (moved under the switch).
    store::<B, word_kinds::StoreCpu>(&wk.words, &mut pass.token, task.task, c as u64);
}

// The word of a state, read to be held against a mask, which is a type there.
fn match_word<B: Kept>(wk: &Wk<B>, token: &mut Token, t: TaskNo, mask: State) -> u64
    requires of { IsTokenOf wk.now token.old }
    requires task { t < wk.now.shape.tasks }
    requires mask { IsWakeMask mask }
    ensures same { IsSameToken token.old token.new }
    ensures trace { token.new.trace ≡ LoadedState t (Some mask) (record { 0 = result }) ∷ token.old.trace }
    ensures narrow { result < 2 ^ 16 }
{
    let words = &wk.words;
    match mask.0 {
        0 => load::<B, MatchState<NoBits>>(words, token, t),
        1 => load::<B, MatchState<Interruptible>>(words, token, t),
        2 => load::<B, MatchState<Uninterruptible>>(words, token, t),
        3 => load::<B, MatchState<Normal>>(words, token, t),
        0x100 => load::<B, MatchState<WakeKill>>(words, token, t),
        0x101 => load::<B, MatchState<InterruptibleKill>>(words, token, t),
        0x102 => load::<B, MatchState<Killable>>(words, token, t),
        _ => load::<B, MatchState<NormalKill>>(words, token, t),
    }
}

/// The state of a task, held against the mask of a wake-up. A state that doesn't match is noted in the journal.
pub fn match_state<B: Kept>(wk: &Wk<B>, pass: &mut Pass, t: TaskNo, mask: State) -> State
    requires of { IsOf wk.now pass.old }
    requires task { t < wk.now.shape.tasks }
    requires mask { IsWakeMask mask }
    requires spare { need_step ≤ pass.old.turn.spare }
    ensures same { IsSameSeat pass.old pass.new }
    ensures trace { pass.new.trace ≡ LoadedState t (Some mask) result ∷ pass.old.trace }
    ensures turn { pass.new.turn ≡ tested t mask result pass.old.turn }
    ensures spare { pass.old.turn.spare ≤ pass.new.turn.spare + 1 }
{
    let state = State(match_word(wk, &mut pass.token, t, mask) as u16);
    if !matches(state, mask) {
        pass.turn.log(Entry::Refused { t, state });
    }
    state
}
