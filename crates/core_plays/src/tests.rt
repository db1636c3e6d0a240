//! Lists of events that are possible from the opening core, and events that are impossible where they stand.

mod looks;
mod parts;
mod passes;
mod play;
mod reads;
mod sleeps;
mod stops;
mod words;

use handoff_core::{Event, StepKind, start_core, step_core};
use handoff_data::{Shape, State};
use play::{plays, wrong_line};
use std::test::Fail;

// The smallest machine: seat 0, and task 0 at its opening.
#[test]
fn the_smallest_core_starts(rt: HostRuntime) -> Result<(), Fail> {
    let shape = Shape {
        cpus: 1,
        caches: 1,
        tasks: 1,
        conds: 0,
        agents: 0,
    };
    let core = start_core(rt.alloc(), &shape)?;
    assert_eq!(rt;
        (core.tasks.len(), core.seats.len(), core.conds.len()),
        (1, 1, 0)
    );
    assert_eq!(rt; core.tasks[0].state, State::TASK_NEW);
    let event = Event {
        seat: 0,
        step: StepKind::TakeTask { t: 0 },
    };
    let next = step_core(&core, &event)?.ok_or("possible")?;
    assert_eq!(rt; next.tasks.len(), 1);
    assert_eq!(rt; next.tasks[0].lock, Some(0));
    assert!(rt; step_core(&next, &event)?.is_none());
    Ok(())
}

// A list with a word that means nothing isn't played.
#[test]
fn a_misspelt_word_is_refused(rt: HostRuntime) -> Result<(), Fail> {
    let misspelt = [
        "0 take_tusk 0",
        "0 take_task zero",
        "0 take_task 0 0",
        "x take_task 0",
        "strat_0",
        "nut 0 take_task 2",
        "not 0 take_tusk 2",
        "0 take_queue 0 ; not 0 give_queue 0 cur - left - wating 0",
        "0 take_queue 0 ; not 0 give_queue 0 cur - left x waiting",
        "0 take_wait 0 ; not 0 give_wait 0 plane 0",
        "0 take_works 0 ; not 0 give_works 0 nothin",
        "0 take_task 0 ; not 0 give_task 0 stod",
        "not 0 set_state 0 TASK_WALKING",
        "not 0 body_home 0 end",
        "journal 0 now 0 1 0",
        "journl 0",
        "owe 0 0",
    ];
    for text in misspelt {
        assert!(rt; wrong_line(rt.alloc(), text)?.is_some(), "{text}");
    }
    // what is said of a core has to be so
    for text in [
        "journal 0 new 0 1 0",
        "owes 0 0",
        "cond 0 1",
        "not 0 take_task 0",
    ] {
        assert!(rt; wrong_line(rt.alloc(), text)?.is_some(), "{text}");
    }
    Ok(())
}

#[test]
fn a_task_sleeps_is_woken_and_ends(rt: HostRuntime) -> Result<(), Fail> {
    plays(
        &rt,
        "
        start_0 ; pick_0 ; prepare_0 ; leave_0 ; clear_0 ; claim_0 ; enqueue_0 ; pick_0_again ; finish_0 ;
        end_0 ; leave_0 ; clear_0 ;
        journal 0 new 0 1 0 , pick 0 1 0 , sleep 0 2 0 , finish 0 2 0 ,
                  pick 0 3 0 , die 0 4 0 , finish 0 4 0 ;
        journal 1 wake 0 2 , enq 0 3 0 ;
        ",
    )?;
    Ok(())
}

#[test]
fn a_task_is_switched_out_and_another_time_moved(rt: HostRuntime) -> Result<(), Fail> {
    plays(
        &rt,
        "
        start_0 ; pick_0 ;
        0 body_out 0 ; 0 body_home 0 goes_on ;
        yield_0 ; clear_0 ; pick_0_again ;
        journal 0 new 0 1 0 , pick 0 1 0 , finish 0 2 0 , pick 0 3 0 ;

        opening ;
        start_0 ; move_0 ;
        journal 0 new 0 1 0 ;
        journal 2 out 0 2 0 , in 0 3 1 ;
        ",
    )?;
    Ok(())
}

// The waker may claim a sleeper whose busy word isn't clear yet; it waits for that before it queues the task.
#[test]
fn a_waker_waits_until_the_task_is_off_its_processor(rt: HostRuntime) -> Result<(), Fail> {
    plays(
        &rt,
        "
        start_0 ; pick_0 ; prepare_0 ; leave_0 ; claim_0 ;
        1 load_busy 0 ;
        clear_0 ; enqueue_0 ;
        journal 1 wake 0 2 , enq 0 3 0 ;
        ",
    )?;
    Ok(())
}

#[test]
fn a_wake_of_a_task_that_runs_is_refused(rt: HostRuntime) -> Result<(), Fail> {
    plays(
        &rt,
        "
        start_0 ; pick_0 ;
        1 take_task 0 ; 1 load_state 0 TASK_NORMAL ; 1 give_task 0 ;
        journal 1 refused 0 TASK_RUNNING ;
        ",
    )?;
    Ok(())
}

// The waker has loaded `on_rq` as queued and waits for the queue's lock. The sleeper tests its condition, stores
// TASK_RUNNING, and later TASK_INTERRUPTIBLE for another wait. The waker, with the lock, finds the task queued and
// stores TASK_RUNNING. There is no Enq, and the sleeper tests again.
#[test]
fn a_wake_finds_its_task_queued_and_for_another_wait(rt: HostRuntime) -> Result<(), Fail> {
    plays(
        &rt,
        "
        start_0 ; pick_0 ; prepare_0 ;
        1 take_task 0 ; 1 load_state 0 TASK_NORMAL ; 1 load_rq 0 ;
        0 load_cond 0 ; 0 set_state 0 TASK_RUNNING ; 0 take_wait 0 ; 0 give_wait 0 nobody ;
        0 take_wait 1 ; 0 set_state 0 TASK_INTERRUPTIBLE ; 0 give_wait 1 plain 0 ;
        1 take_queue 0 ; 1 make_runnable 0 ; 1 give_queue 0 cur 0 left - waiting ; 1 give_task 0 ;
        0 load_cond 1 ; 0 take_queue 0 ; 0 load_state 0 - ; 0 give_queue 0 cur 0 left - waiting ;
        0 take_wait 1 ; 0 set_state 0 TASK_INTERRUPTIBLE ; 0 give_wait 1 plain 0 ; 0 load_cond 1 ;
        journal 0 new 0 1 0 , pick 0 1 0 ;
        journal 1 ;
        ",
    )?;
    Ok(())
}

#[test]
fn a_walk_wakes_the_sleeper(rt: HostRuntime) -> Result<(), Fail> {
    plays(
        &rt,
        "
        start_0 ; pick_0 ; prepare_0 ; leave_0 ; clear_0 ;
        walk_and_wake_0 ;
        pick_0_again ; 0 load_cond 0 ; finish_0 ;
        cond 0 1 ;
        journal 2 wake 0 2 , enq 0 3 0 ;
        owes_not 2 0 ;
        ",
    )?;
    Ok(())
}

// A seat that raised the condition owes it until it gives the wait queue with each entry passed.
#[test]
fn a_walk_that_skips_an_entry_is_still_owed(rt: HostRuntime) -> Result<(), Fail> {
    plays(
        &rt,
        "
        start_0 ; pick_0 ; prepare_0 ;
        1 bump 0 ; 1 take_wait 0 ; 1 give_wait 0 plain 0 ;
        owes 1 0 ;

        opening ;
        start_0 ; pick_0 ; prepare_0 ;
        1 take_wait 0 ; 1 bump 0 ; 0 set_state 0 TASK_RUNNING ; 1 load_state 0 - ; 1 give_wait 0 plain 0 ;
        owes 1 0 ;

        opening ;
        start_0 ; pick_0 ; prepare_0 ;
        1 bump 0 ; 1 take_wait 0 ; 0 set_state 0 TASK_RUNNING ; 1 load_state 0 - ; 1 give_wait 0 plain 0 ;
        owes_not 1 0 ;
        ",
    )?;
    Ok(())
}

// An exclusive entry, taken out by the waker that passed it; and works, taken and given as they were.
#[test]
fn an_entry_is_taken_out_by_its_waker(rt: HostRuntime) -> Result<(), Fail> {
    plays(
        &rt,
        "
        start_0 ; pick_0 ;
        0 take_wait 0 ; 0 set_state 0 TASK_INTERRUPTIBLE ; 0 give_wait 0 exclusive 0 ; 0 load_cond 0 ;
        leave_0 ; clear_0 ;
        1 bump 0 ; 1 take_wait 0 ;
        claim_0 ; enqueue_0 ;
        1 give_wait 0 nobody ;
        1 take_works 0 ; 1 give_works 0 nothing ;
        journal 1 wake 0 2 , enq 0 3 0 ;
        ",
    )?;
    Ok(())
}
