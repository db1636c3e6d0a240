//! Waits for what another seat stores.
ghost use Rattle.std.specs.Prelude.{◌≡◌, ◌<◌, true};
ghost use Rattle.task_words.specs.Views.{IsOf, IsSame};
ghost use Rattle.task_words.specs.Waited.{IsLoaded};
ghost use Rattle.word_steps.specs.Folds.{saw_clear};

use crate::loads::{BusyWord, load_busy};
use crate::pass::Pass;
use crate::wk::Wk;
use core_data::Rq;
use crossbeam_utils::Backoff;
use handoff_data::TaskNo;
use std::sync::Wait;
use word_kinds::{LoadBusy, LoadRq};
use word_table::{Kept, Kind, rest};

/// Lets some time pass between two reads of the busy word of a task by a seat that waits for it to change: `seen` is
/// what the seat has read. It pauses, then yields its processor, then sleeps for up to some 50 microseconds while the
/// word stays as it was read.
pub fn rest_on_busy<B: Kept, R: Wait>(
    rt: &R,
    wk: &Wk<B>,
    backoff: &Backoff,
    t: TaskNo,
    seen: BusyWord,
)
    requires task { t < wk.now.shape.tasks }
{
    let low = 2 * (seen.n % (1 << 31)) + seen.on as u64;
    rest(rt, &wk.words, backoff, t, LoadBusy::column(), low);
}

/// Lets some time pass between two reads of the queue word of a task, as `rest_on_busy`.
pub fn rest_on_rq<B: Kept, R: Wait>(rt: &R, wk: &Wk<B>, backoff: &Backoff, t: TaskNo, seen: Rq)
    requires task { t < wk.now.shape.tasks }
{
    let low = 4 * (seen.m % (1 << 30)) + seen.on as u64;
    rest(rt, &wk.words, backoff, t, LoadRq::column(), low);
}

/// Waits until the busy word of a task is clear, as Linux's `smp_cond_load_acquire(&p->on_cpu, !VAL)`
/// (`kernel/sched/core.c`).
pub fn wait_clear<B: Kept, R: Wait>(rt: &R, wk: &Wk<B>, pass: &mut Pass, t: TaskNo)
    requires of { IsOf wk.now pass.old }
    requires task { t < wk.now.shape.tasks }
    ensures same { IsSame pass.old pass.new }
    ensures loaded { IsLoaded pass.old.seat pass.old.trace pass.new.trace }
    ensures clear { saw_clear pass.new.trace t ≡ true }
{
    let backoff = Backoff::new();
    for _ in rt.forever() {
        let seen = load_busy(wk, pass, t);
        if !seen.on {
            return;
        }
        rest_on_busy(rt, wk, &backoff, t, seen);
    }
    unreachable!()
}
