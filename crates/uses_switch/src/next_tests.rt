//! A task that stands as the next of its queue, without being current, is picked before those that wait.
ghost use Rattle.std.specs.Prelude.{◌≡◌, ◌<◌};
ghost use Rattle.task_words.specs.Views.{IsOf, IsOneSeat, IsSame};
ghost use Rattle.uses_switch.specs.Seated.{IsIdle};

use crate::seats::one_seat;
use handoff_data::{Entry, TaskNo};
use run_queue::start;
use sched_switch::{Next, Switch, schedule};
use std::process::Abort;
use std::sync::Wait;
use std::test::Fail;
use task_words::{Kept, Pass, Turn, Wk, lock_queue};

// Makes the first task that waits in the seat's own queue the next one there, and doesn't pick it; whether one waited,
// and none was next.
fn leave_next<B: Kept, R: Wait>(rt: &R, wk: &Wk<B>, pass: &mut Pass) -> bool
    requires of { IsOf wk.now pass.old }
    requires processor { pass.old.seat < wk.now.shape.cpus }
    requires idle { IsIdle pass.old }
    ensures same { IsSame pass.old pass.new }
    ensures idle { IsIdle pass.new }
{
    let c = pass.seat();
    let mut queue = lock_queue(rt, wk, pass, c);
    if queue.val_mut(wk).get().cur.is_some() {
        queue.give_as_taken(wk, pass);
        return false;
    }
    let Some(t) = queue.pop(wk, pass) else {
        queue.give_as_taken(wk, pass);
        return false;
    };
    queue.val_mut(wk).set_cur(Some(t));
    queue.give(wk, pass);
    true
}

// Starts a task on the seat's own processor.
fn start_here<B: Kept, R: Wait>(rt: &R, wk: &Wk<B>, pass: &mut Pass, t: TaskNo)
    requires of { IsOf wk.now pass.old }
    requires processor { pass.old.seat < wk.now.shape.cpus }
    requires task { t < wk.now.shape.tasks }
    requires idle { IsIdle pass.old }
    ensures same { IsOneSeat pass.old pass.new }
    ensures idle { IsIdle pass.new }
{
    pass.clear_turn();
    let c = pass.seat();
    start(rt, wk, pass, t, c);
}

// Whether the turn has this entry and no more.
fn has_one(turn: &Turn, entry: Entry) -> bool {
    turn.get(0) == Some(entry) && turn.get(1).is_none()
}

// The next is picked where nobody waits, and where another task waits.
fn picks_next<B: Kept, R: Wait + Abort>(rt: &R, wk: &Wk<B>, pass: &mut Pass)
    requires of { IsOf wk.now pass.old }
    requires processor { pass.old.seat < wk.now.shape.cpus }
    requires tasks { wk.now.shape.tasks ≡ 2 }
    requires idle { IsIdle pass.old }
{
    start_here(rt, wk, pass, 0);
    assert!(rt; leave_next(rt, wk, pass));
    pass.clear_turn();
    assert_eq!(rt; schedule(rt, wk, pass, Next::Task), Switch::Running(0));
    assert!(rt; has_one(pass.turn(), Entry::Pick { t: 0, n: 1, c: 0 }));
    assert_eq!(rt; schedule(rt, wk, pass, Next::Nobody), Switch::Nobody);
    // Now 0 is next, and 1 waits.
    start_here(rt, wk, pass, 1);
    assert!(rt; leave_next(rt, wk, pass));
    pass.clear_turn();
    assert_eq!(rt; schedule(rt, wk, pass, Next::Task), Switch::Running(0));
    assert!(rt; has_one(pass.turn(), Entry::Pick { t: 0, n: 3, c: 0 }));
    // It goes behind 1, which is picked then.
    pass.clear_turn();
    assert_eq!(rt; schedule(rt, wk, pass, Next::Task), Switch::Running(1));
    assert_eq!(rt;
        pass.turn().get(0),
        Some(Entry::Finish { t: 0, n: 4, c: 0 })
    );
    assert_eq!(rt; pass.turn().get(1), Some(Entry::Pick { t: 1, n: 1, c: 0 }));
    assert!(rt; pass.turn().get(2).is_none());
}

#[test]
fn a_task_that_stands_as_the_next_is_picked_first(rt: HostRuntime) -> Result<(), Fail> {
    let (wk, mut pass) = one_seat(rt.alloc(), 2)?;
    picks_next(&rt, &wk, &mut pass);
    Ok(())
}
