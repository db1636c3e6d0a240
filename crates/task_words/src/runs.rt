//! Queue words and busy words, each with its next number. Calls that would pass the last number wait for good.
ghost use Rattle.std.specs.Prelude.{true, false, ◌≡◌, ℕ, ◌+◌, ◌/◌, ◌%◌, ◌^◌, ◌<◌, ◌≤◌, ◌∷◌, Some};
ghost use Rattle.core_kinds.specs.Running.{queue_entry, dequeue_entry, is_dead};
ghost use Rattle.handoff_data.specs.declared.entry.Entry.TheVariants as entry;
ghost use Rattle.task_words.specs.Needs.{need_step};
ghost use Rattle.task_words.specs.Queues.{MayQueueHere, MayMoveHere};
ghost use Rattle.task_words.specs.Views.{IsOf, IsSameSeat, logged};
ghost use Rattle.word_rule.specs.May.{cpu_read_of, number_of, on_of, queued_next, MayQueueWord, MayDequeueWord};
ghost use Rattle.word_rule.specs.May.{MaySetBusyWord, MayClearBusyWord, next_rq, next_busy};
ghost use Rattle.word_steps.specs.Folds.{seen_state, level_known, number_read};
ghost use Rattle.word_table.specs.Views.{IsOf as IsTokenOf, IsSame as IsSameToken};
ghost use Rattle.word_steps.specs.Records.{Queued, Dequeued, Moved, SetBusy, ClearedBusy};

use crate::guards::QueueGuard;
use crate::pass::Pass;
use crate::waits::rest_on_rq;
use crate::wk::Wk;
use core_data::Rq;
use crossbeam_utils::Backoff;
use handoff_data::{CpuNo, Entry, TaskNo};
use std::sync::Wait;
use word_kinds::{DequeueTask, MoveTask, QueueTask};
use word_table::{Kept, Kind, Token, exchange, fetch_add, peek, rest, store};

// A queue word and a busy word are changed while their number is below it.
const END: u64 = 1 << 60;

// One try to change the queue word of t to `on`, from the word found; whether it succeeded.
fn rq_once<B: Kept, K: Kind>(wk: &Wk<B>, token: &mut Token, t: TaskNo, on: u64, found: u64) -> bool
    requires of { IsTokenOf wk.now token.old }
    requires row { t < K.bound wk.now.shape }
    requires on { on < 4 }
    requires may { (x : ℕ) → x / 4 < 2 ^ 60 → K.may wk.now.shape token.old.seat token.old.trace t x (next_rq x on) }
    ensures same { IsSameToken token.old token.new }
    ensures hit { result ≡ true → token.new.trace ≡ K.note token.old.seat token.old.trace t (next_rq found on) found
        ∷ token.old.trace }
    ensures room { result ≡ true → found / 4 < 2 ^ 60 }
    ensures miss { result ≡ false → token.new.trace ≡ token.old.trace }
{
    if found / 4 >= END {
        return false;
    }
    let new = 4 * (found / 4 + 1) + on;
    exchange::<B, K>(&wk.words, token, t, found, new) == found
}

// Tries until it succeeds. It answers the word that it found.
#[cold]
fn rq_again<B: Kept, K: Kind, R: Wait>(
    rt: &R,
    wk: &Wk<B>,
    token: &mut Token,
    t: TaskNo,
    on: u64,
) -> u64
    requires of { IsTokenOf wk.now token.old }
    requires row { t < K.bound wk.now.shape }
    requires on { on < 4 }
    requires may { (x : ℕ) → x / 4 < 2 ^ 60 → K.may wk.now.shape token.old.seat token.old.trace t x (next_rq x on) }
    ensures same { IsSameToken token.old token.new }
    ensures trace { token.new.trace ≡ K.note token.old.seat token.old.trace t (next_rq result on) result
        ∷ token.old.trace }
    ensures room { result / 4 < 2 ^ 60 }
{
    let backoff = Backoff::new();
    for _ in rt.forever() {
        let found = peek(&wk.words, t, K::column());
        if rq_once::<B, K>(wk, token, t, on, found) {
            return found;
        }
        rest(rt, &wk.words, &backoff, t, K::column(), found);
    }
    unreachable!()
}

// One more change of the queue word of t, to `on`. It answers the word that it found.
fn change_rq<B: Kept, K: Kind, R: Wait>(
    rt: &R,
    wk: &Wk<B>,
    token: &mut Token,
    t: TaskNo,
    on: u64,
) -> u64
    requires of { IsTokenOf wk.now token.old }
    requires row { t < K.bound wk.now.shape }
    requires on { on < 4 }
    requires may { (x : ℕ) → x / 4 < 2 ^ 60 → K.may wk.now.shape token.old.seat token.old.trace t x (next_rq x on) }
    ensures same { IsSameToken token.old token.new }
    ensures trace { token.new.trace ≡ K.note token.old.seat token.old.trace t (next_rq result on) result
        ∷ token.old.trace }
    ensures room { result / 4 < 2 ^ 60 }
{
    let found = peek(&wk.words, t, K::column());
    if rq_once::<B, K>(wk, token, t, on, found) {
        return found;
    }
    rq_again::<B, K, R>(rt, wk, token, t, on)
}

// One more change of the queue word of t, to queued. The rule has it that the word is what the seat has read or stored
// (no other seat changes it meanwhile), so it is one store; only past the last number it waits, for good.
fn queue_read<B: Kept, R: Wait>(rt: &R, wk: &Wk<B>, token: &mut Token, t: TaskNo, seen: Rq)
    requires of { IsTokenOf wk.now token.old }
    requires row { t < wk.now.shape.tasks }
    requires seen { number_of token.old.trace t ≡ seen.m }
    requires on { on_of token.old.trace t ≡ seen.on }
    requires may { (x : ℕ) → seen.m < 2 ^ 60 → MayQueueWord token.old.seat token.old.trace t x (queued_next seen.m) }
    ensures same { IsSameToken token.old token.new }
    ensures trace { token.new.trace ≡ Queued t (cpu_read_of token.old.trace t) seen.on seen.m ∷ token.old.trace }
    ensures room { seen.m < 2 ^ 60 }
{
    if seen.m >= END {
        let backoff = Backoff::new();
        for _ in rt.forever() {
            rest_on_rq(rt, wk, &backoff, t, seen);
        }
        unreachable!()
    }
    store::<B, QueueTask>(&wk.words, token, t, 4 * (seen.m + 1) + 1);
}

// What the journal gets of a task that is queued.
fn queue_entry(t: TaskNo, c: CpuNo, seen: Rq) -> Entry
    requires room { seen.m < 2 ^ 60 }
    ensures { result ≡ queue_entry seen.m seen.on t c }
{
    let m = seen.m + 1;
    if seen.m == 0 {
        Entry::New { t, m, c }
    } else if seen.on == 2 {
        Entry::In { t, m, c }
    } else {
        Entry::Enq {
            t,
            m,
            c,
            by_list: false,
        }
    }
}

/// Queues a task, as Linux's `activate_task` (`kernel/sched/core.c`) stores TASK_ON_RQ_QUEUED: a new one, one that the
/// seat wakes, or one that it moves. The caller has the locks of the task and of the queue, whose processor is the
/// task's; `seen` is the queue word as it has read or stored it under the task's lock. No other seat changes the word
/// meanwhile, so the call waits only where its number has come to 2^60.
pub fn queue_task<B: Kept, R: Wait>(
    rt: &R,
    wk: &Wk<B>,
    pass: &mut Pass,
    queue: &QueueGuard<B>,
    t: TaskNo,
    seen: Rq,
)
    requires of { IsOf wk.now pass.old }
    requires task { t < wk.now.shape.tasks }
    requires table { queue.now.of ≡ wk.now.name }
    requires may { MayQueueHere pass.old.trace queue.now.cpu t }
    requires seen { number_read pass.old.trace t ≡ Some seen.m }
    requires on { seen.on ≡ on_of pass.old.trace t }
    requires spare { need_step ≤ pass.old.turn.spare }
    ensures same { IsSameSeat pass.old pass.new }
    ensures trace { pass.new.trace ≡ Queued t queue.now.cpu seen.on seen.m ∷ pass.old.trace }
    ensures turn { pass.new.turn ≡ logged (queue_entry seen.m seen.on t queue.now.cpu) pass.old.turn }
    ensures room { seen.m < 2 ^ 60 }
    ensures spare { pass.old.turn.spare ≤ pass.new.turn.spare + 1 }
{
    queue_read(rt, wk, &mut pass.token, t, seen);
    pass.turn.log(queue_entry(t, queue.cpu, seen));
}

/// Takes the seat's current task off its queue, as Linux's `deactivate_task` (`kernel/sched/core.c`): it sleeps, or,
/// where `dies`, it is dead, by the state that the seat read under its queue's lock. A task dies only at
/// migrate-disable level 0, as the seat read it since the pick. It answers the number of changes before.
pub fn dequeue_task<B: Kept, R: Wait>(
    rt: &R,
    wk: &Wk<B>,
    pass: &mut Pass,
    t: TaskNo,
    dies: bool,
) -> u64
    requires of { IsOf wk.now pass.old }
    requires task { t < wk.now.shape.tasks }
    requires may { (x : ℕ) → x / 4 < 2 ^ 60 → MayDequeueWord pass.old.seat pass.old.trace t x (next_rq x 0) }
    requires dies { is_dead (seen_state pass.old.seat pass.old.trace) ≡ dies }
    requires level { dies ≡ true → level_known pass.old.seat pass.old.trace ≡ Some 0 }
    requires spare { need_step ≤ pass.old.turn.spare }
    ensures same { IsSameSeat pass.old pass.new }
    ensures trace { pass.new.trace ≡ Dequeued t pass.old.seat result ∷ pass.old.trace }
    ensures turn { pass.new.turn
        ≡ logged (dequeue_entry (seen_state pass.old.seat pass.old.trace) result t pass.old.seat) pass.old.turn }
    ensures room { result < 2 ^ 60 }
    ensures spare { pass.old.turn.spare ≤ pass.new.turn.spare + 1 }
{
    // The sleep state that allows it was read under this hold of the queue's lock: another may have made T runnable
    // since an earlier look (a state that was never read, a wake between test and sleep).
    let m = change_rq::<B, DequeueTask, R>(rt, wk, &mut pass.token, t, 0) / 4;
    let c = pass.token.seat();
    pass.turn.log(if dies {
        Entry::Die { t, m: m + 1, c }
    } else {
        Entry::Sleep { t, m: m + 1, c }
    });
    m
}

/// Takes a waiting task out of a queue, to be moved, as Linux's `deactivate_task` (`kernel/sched/core.c`) with
/// TASK_ON_RQ_MIGRATING. It answers the number of changes before.
pub fn move_task<B: Kept, R: Wait>(
    rt: &R,
    wk: &Wk<B>,
    pass: &mut Pass,
    queue: &QueueGuard<B>,
    t: TaskNo,
) -> u64
    requires of { IsOf wk.now pass.old }
    requires task { t < wk.now.shape.tasks }
    requires table { queue.now.of ≡ wk.now.name }
    requires may { MayMoveHere pass.old.seat pass.old.trace queue.now.cpu t }
    requires spare { need_step ≤ pass.old.turn.spare }
    ensures same { IsSameSeat pass.old pass.new }
    ensures trace { pass.new.trace ≡ Moved t queue.now.cpu result ∷ pass.old.trace }
    ensures turn { pass.new.turn ≡ logged (entry.Out t (result + 1) queue.now.cpu) pass.old.turn }
    ensures spare { pass.old.turn.spare ≤ pass.new.turn.spare + 1 }
    ensures room { result < 2 ^ 60 }
{
    // T isn't busy, as read under the queue's lock (moved under the switch), and this seat keeps T's lock until T is
    // queued again: no waker reads 2, which names no queue (lost on the way).
    let m = change_rq::<B, MoveTask, R>(rt, wk, &mut pass.token, t, 2) / 4;
    pass.turn.log(Entry::Out {
        t,
        m: m + 1,
        c: queue.cpu,
    });
    m
}

/// Sets the busy word of the task that is next in the seat's own queue, which then is the seat's current task, as
/// Linux's `prepare_task` (`kernel/sched/core.c`) stores `on_cpu`. It answers the number of changes before.
pub fn set_busy<B: Kept, R: Wait>(
    rt: &R,
    wk: &Wk<B>,
    pass: &mut Pass,
    queue: &QueueGuard<B>,
    t: TaskNo,
) -> u64
    requires of { IsOf wk.now pass.old }
    requires task { t < wk.now.shape.tasks }
    requires table { queue.now.of ≡ wk.now.name }
    requires own { queue.now.cpu ≡ pass.old.seat }
    requires next { queue.now.val.cur ≡ Some t }
    requires may { (x : ℕ) → x / 2 < 2 ^ 60 → MaySetBusyWord pass.old.seat pass.old.trace t x (next_busy x) }
    requires spare { need_step ≤ pass.old.turn.spare }
    ensures same { IsSameSeat pass.old pass.new }
    ensures trace { pass.new.trace ≡ SetBusy t pass.old.seat result ∷ pass.old.trace }
    ensures turn { pass.new.turn ≡ logged (entry.Pick t (result + 1) pass.old.seat) pass.old.turn }
    ensures spare { pass.old.turn.spare ≤ pass.new.turn.spare + 1 }
{
    // Under its queue's lock T goes from waiting to busy in one: whoever takes that lock sees one or the other
    // (picked without the lock).
    let n = change_busy(rt, wk, &mut pass.token, t);
    pass.current = Some(t);
    let c = pass.token.seat();
    pass.turn.log(Entry::Pick { t, n: n + 1, c });
    n
}

// One try to set the busy word of t, from the word found; whether it succeeded.
fn busy_once<B: Kept>(wk: &Wk<B>, token: &mut Token, t: TaskNo, found: u64) -> bool
    requires of { IsTokenOf wk.now token.old }
    requires row { t < wk.now.shape.tasks }
    requires may { (x : ℕ) → x / 2 < 2 ^ 60 → MaySetBusyWord token.old.seat token.old.trace t x (next_busy x) }
    ensures same { IsSameToken token.old token.new }
    ensures hit { result ≡ true → token.new.trace ≡ SetBusy t token.old.seat (found / 2) ∷ token.old.trace }
    ensures room { result ≡ true → found / 2 < 2 ^ 60 }
    ensures miss { result ≡ false → token.new.trace ≡ token.old.trace }
{
    let n = found / 2;
    if n >= END {
        return false;
    }
    exchange::<B, word_kinds::SetBusy>(&wk.words, token, t, found, 2 * (n + 1) + 1) == found
}

// Tries until it succeeds. It answers the number before.
#[cold]
fn busy_again<B: Kept, R: Wait>(rt: &R, wk: &Wk<B>, token: &mut Token, t: TaskNo) -> u64
    requires of { IsTokenOf wk.now token.old }
    requires row { t < wk.now.shape.tasks }
    requires may { (x : ℕ) → x / 2 < 2 ^ 60 → MaySetBusyWord token.old.seat token.old.trace t x (next_busy x) }
    ensures same { IsSameToken token.old token.new }
    ensures trace { token.new.trace ≡ SetBusy t token.old.seat result ∷ token.old.trace }
    ensures room { result < 2 ^ 60 }
{
    let backoff = Backoff::new();
    let column = word_kinds::SetBusy::column();
    for _ in rt.forever() {
        let found = peek(&wk.words, t, column);
        if busy_once(wk, token, t, found) {
            return found / 2;
        }
        rest(rt, &wk.words, &backoff, t, column, found);
    }
    unreachable!()
}

// One more change of the busy word of t, which is set. It answers the number before.
fn change_busy<B: Kept, R: Wait>(rt: &R, wk: &Wk<B>, token: &mut Token, t: TaskNo) -> u64
    requires of { IsTokenOf wk.now token.old }
    requires row { t < wk.now.shape.tasks }
    requires may { (x : ℕ) → x / 2 < 2 ^ 60 → MaySetBusyWord token.old.seat token.old.trace t x (next_busy x) }
    ensures same { IsSameToken token.old token.new }
    ensures trace { token.new.trace ≡ SetBusy t token.old.seat result ∷ token.old.trace }
    ensures room { result < 2 ^ 60 }
{
    let found = peek(&wk.words, t, word_kinds::SetBusy::column());
    if busy_once(wk, token, t, found) {
        return found / 2;
    }
    busy_again(rt, wk, token, t)
}

/// Clears the busy word of the task that the seat has switched out, as Linux's `finish_task` (`kernel/sched/core.c`).
/// It answers the number of changes before.
pub fn clear_busy<B: Kept>(wk: &Wk<B>, pass: &mut Pass, t: TaskNo) -> u64
    requires of { IsOf wk.now pass.old }
    requires task { t < wk.now.shape.tasks }
    requires may { (x : ℕ) → MayClearBusyWord pass.old.seat pass.old.trace t x ((x + 1) % 2 ^ 64) }
    requires spare { need_step ≤ pass.old.turn.spare }
    ensures same { IsSameSeat pass.old pass.new }
    ensures trace { pass.new.trace ≡ ClearedBusy t result ∷ pass.old.trace }
    ensures turn { pass.new.turn ≡ logged (entry.Finish t (result + 1) pass.old.seat) pass.old.turn }
    ensures spare { pass.old.turn.spare ≤ pass.new.turn.spare + 1 }
{
    // The last word of T that this seat touches: a waker waits for it, and then may queue T anywhere
    // (forgotten busy word, queued while busy).
    let n = fetch_add::<B, word_kinds::ClearBusy>(&wk.words, &mut pass.token, t) / 2;
    let c = pass.token.seat();
    pass.turn.log(Entry::Finish { t, n: n + 1, c });
    n
}
