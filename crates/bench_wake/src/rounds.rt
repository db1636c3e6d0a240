//! Rounds, in each of which tasks are put to sleep and then woken.
ghost use Rattle.std.specs.Prelude.{◌≡◌, ◌<◌, true, IfSome};
ghost use Rattle.bench_wake.specs.Ready.{IsReady, IsRoom};
ghost use Rattle.task_words.specs.Seats.{IsBetween};
ghost use Rattle.task_words.specs.Views.{IsOf, IsOneSeat};

use crate::calls::start_one;
use crate::table::lone_table;
use crate::took::{Took, time_clock};
use std::rt::Runtime;
use std::sync::Wait;
use std::time::Instant;
use task_words::{Pass, Wk};
use uses_words::plain::{Plain, each, time_plain};

/// How many tasks the table has. Their words and slots stay in the first cache, and a round with all is long beside a
/// look at the clock.
pub const TASKS: u32 = 60;

/// How many conditions it has: ten tasks can sleep at each.
pub const CONDS: u32 = 6;

/// What is done in a round, by a seat that runs no task; whether it could be.
pub trait Round {
    /// Tasks are put to sleep.
    fn sleep<R: Wait>(rt: &R, wk: &Wk<()>, pass: &mut Pass) -> bool
        requires room { IsRoom wk.now.shape }
        requires ready { IsReady wk.now pass.old }
        ensures ready { result ≡ true → IsReady wk.now pass.new };

    /// They are woken, which alone is measured.
    fn wake<R: Wait>(rt: &R, wk: &Wk<()>, pass: &mut Pass) -> bool
        requires room { IsRoom wk.now.shape }
        requires ready { IsReady wk.now pass.old }
        ensures ready { result ≡ true → IsReady wk.now pass.new };
}

/// Rounds with at least `count` of what is measured, of which a round has so many `times`. The time of the looks at the
/// clock is taken off.
pub fn rounds<S: Round, P: Plain, R: Runtime + AllocGlobal + Wait>(
    rt: &R,
    count: u32,
    times: u32,
) -> Option<Took>
    requires times { 0 < times }
{
    let (wk, mut pass) = lone_table(rt.alloc(), TASKS, CONDS)?;
    if !start_all(rt, &wk, &mut pass) {
        return None;
    }
    let rounds = (count / times).saturating_add(1);
    let clock = time_clock(rt)?;
    let took = repeat::<S, R>(rt, &wk, &mut pass, rounds)? - clock * f64::from(rounds);
    let plain = time_plain::<P, R>(rt, count)?;
    Some(Took {
        wake: took / (f64::from(rounds) * f64::from(times)),
        plain,
    })
}

// Whether all were new.
fn start_all<R: Wait>(rt: &R, wk: &Wk<()>, pass: &mut Pass) -> bool
    requires room { IsRoom wk.now.shape }
    requires ready { IsReady wk.now pass.old }
    ensures ready { IsReady wk.now pass.new }
{
    for t in 0..TASKS {
        if !start_one(rt, wk, pass, t, 0) {
            return false;
        }
    }
    true
}

// Nanoseconds of what is measured in so many rounds; none where a task was found another way than it should be.
fn repeat<S: Round, R: Runtime + Wait>(
    rt: &R,
    wk: &Wk<()>,
    pass: &mut Pass,
    rounds: u32,
) -> Option<f64>
    requires room { IsRoom wk.now.shape }
    requires ready { IsReady wk.now pass.old }
{
    let mut all = 0.0;
    for _ in 0..rounds {
        match time_round::<S, R>(rt, wk, pass) {
            Some(took) => all += took,
            None => return None,
        }
    }
    Some(all)
}

fn time_round<S: Round, R: Runtime + Wait>(rt: &R, wk: &Wk<()>, pass: &mut Pass) -> Option<f64>
    requires room { IsRoom wk.now.shape }
    requires ready { IsReady wk.now pass.old }
    ensures ready { IfSome result (λ took. IsReady wk.now pass.new) }
{
    if !S::sleep(rt, wk, pass) {
        return None;
    }
    let begun = Instant::now(rt).ok()?;
    let done = S::wake(rt, wk, pass);
    let took = each(begun.elapsed(rt).ok()?, 1);
    if done { Some(took) } else { None }
}
