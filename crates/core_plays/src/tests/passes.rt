//! Lists of wakers: what discharges a walk, and what a seat may rest on no longer.

use super::play::plays;
use std::test::Fail;

// A walk whose wake finds its task queued: by storing TASK_RUNNING the waker passes it.
#[test]
fn a_walk_passes_a_task_that_is_still_queued(rt: HostRuntime) -> Result<(), Fail> {
    plays(
        &rt,
        "
        start_0 ; pick_0 ; prepare_0 ;
        1 bump 0 ; 1 take_wait 0 ; 1 take_task 0 ; 1 load_state 0 TASK_NORMAL ; 1 load_rq 0 ;
        1 take_queue 0 ; 1 make_runnable 0 ; 1 give_queue 0 cur 0 left - waiting ; 1 give_task 0 ;
        1 give_wait 0 plain 0 ; owes_not 1 0 ;
        journal 1 ;

        opening ;
        start_0 ; pick_0 ; prepare_0 ;
        1 bump 0 ; 1 take_wait 0 ; 1 take_task 0 ; 1 load_state 0 TASK_NORMAL ; 1 load_rq 0 ;
        not 1 give_wait 0 nobody -- an entry of a task that sleeps ;
        1 take_queue 0 ; 1 make_runnable 0 ; 1 give_queue 0 cur 0 left - waiting ; 1 give_task 0 ;
        1 give_wait 0 nobody ; owes_not 1 0 ;
        ",
    )?;
    Ok(())
}

// A walker that stores TASK_RUNNING as the state of its own current task passes it; and one that reads TASK_WAKING.
#[test]
fn a_walker_wakes_itself(rt: HostRuntime) -> Result<(), Fail> {
    plays(
        &rt,
        "
        start_0 ; pick_0 ; prepare_0 ;
        0 bump 0 ; 0 take_wait 0 ; 0 set_state 0 TASK_RUNNING ; 0 give_wait 0 plain 0 ; owes_not 0 0 ;

        opening ;
        start_0 ; pick_0 ; prepare_0 ;
        0 bump 0 ; 0 take_wait 0 ; 0 give_wait 0 plain 0 ; owes 0 0 ;
        0 take_wait 0 ; 0 set_state 0 TASK_INTERRUPTIBLE ; 0 give_wait 0 plain 0 ; owes 0 0 ;

        opening ;
        start_0 ; pick_0 ; prepare_0 ; leave_0 ; clear_0 ; claim_0 ;
        2 bump 0 ; 2 take_wait 0 ; 2 load_state 0 TASK_NORMAL ; 2 give_wait 0 plain 0 ; owes_not 2 0 ;
        journal 2 refused 0 TASK_WAKING ;
        ",
    )?;
    Ok(())
}

// A wake rests on a state that was matched under the lock that is held.
#[test]
fn nothing_by_an_earlier_lock(rt: HostRuntime) -> Result<(), Fail> {
    plays(
        &rt,
        "
        start_0 ; pick_0 ; prepare_0 ;
        1 take_task 0 ; 1 load_state 0 TASK_NORMAL ; 1 give_task 0 ;
        1 take_task 0 ; 1 take_queue 0 ; not 1 make_runnable 0 -- matched under an earlier lock ;

        opening ;
        start_0 ; pick_0 ; prepare_0 ; leave_0 ; clear_0 ;
        1 take_task 0 ; 1 load_state 0 TASK_NORMAL ; 1 load_rq 0 ; 1 give_task 0 ;
        1 take_task 0 ; not 1 claim_task 0 -- read under an earlier lock ;

        opening ;
        0 take_task 0 ; 0 store_cpu 0 0 ; 0 take_queue 0 ; 0 queue_task 0 0 ; 0 give_queue 0 cur - left - waiting 0 ;
        0 take_queue 0 ; not 0 make_runnable 0 -- queued under an earlier lock of the queue ;

        opening ;
        start_0 ; 2 take_task 0 ; 2 take_queue 0 ; 2 load_busy 0 ; 2 give_queue 0 cur - left - waiting 0 ;
        2 take_queue 0 ;
        not 2 move_task 0 0 cur - left - waiting 0 -- its busy word was read under an earlier lock of the queue ;

        opening ;
        start_0 ; pick_0 ;
        0 take_wait 0 ; 0 set_state 0 TASK_INTERRUPTIBLE ; 0 give_wait 0 nobody ; 0 take_wait 0 ;
        not 0 give_wait 0 plain 0 -- its state was stored under an earlier lock of the wait queue ;
        ",
    )?;
    Ok(())
}

// Nobody else stores over a death.
#[test]
fn a_dead_task_stays_dead(rt: HostRuntime) -> Result<(), Fail> {
    plays(
        &rt,
        "
        start_0 ; pick_0 ; 0 body_out 0 ; 0 body_home 0 ended ;
        1 take_task 0 ; 1 load_state 0 TASK_NORMAL ; 1 load_rq 0 ; 1 give_task 0 ;
        0 take_task 0 ; 0 set_state 0 TASK_DEAD ; 0 give_task 0 ;
        1 take_task 0 ; 1 load_state 0 TASK_NORMAL ; 1 load_rq 0 ; read 1 0 state TASK_DEAD ; 1 take_queue 0 ;
        not 1 make_runnable 0 -- TASK_RUNNING of a task that is dead and queued ;
        not 1 claim_task 0 -- TASK_WAKING of a task that is dead and queued ;
        1 give_queue 0 cur 0 left - waiting ; 1 give_task 0 ;
        leave_0 ; clear_0 ;
        1 take_task 0 ; 1 load_state 0 TASK_NORMAL ; 1 load_rq 0 ;
        not 1 claim_task 0 -- TASK_WAKING of a task that died ;
        journal 1 refused 0 TASK_RUNNING , refused 0 TASK_DEAD , refused 0 TASK_DEAD ;
        ",
    )?;
    Ok(())
}
