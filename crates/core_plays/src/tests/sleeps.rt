//! Lists of sleepers: what they tested, where they sleep, and which masks match them.

use super::play::{plays, wrong_line};
use std::test::Fail;

// A sleeper whose test differs from its condition is owed a wake; so the law on lost wakes speaks of something.
#[test]
fn a_sleeper_is_owed(rt: HostRuntime) -> Result<(), Fail> {
    plays(
        &rt,
        "
        start_0 ; pick_0 ; untested 0 0 0 ; awake 0 0 0 ; prepare_0 ; tested 0 0 0 0 ; asleep 0 0 0 ;
        2 bump 0 ; tested 0 0 0 0 ; cond 0 1 ; owes 2 0 ;
        leave_0 ; clear_0 ; tested 0 0 0 0 ; asleep 0 0 0 ; cond 0 1 ; owes 2 0 ;

        opening ;
        start_0 ; pick_0 ; prepare_0 ; leave_0 ; clear_0 ; 2 bump 0 ; tested 0 0 0 0 ; asleep 0 0 0 ;
        cond 0 1 ; owes 2 0 ;
        ",
    )?;
    Ok(())
}

// A task that never stored a sleep state tests nothing; a new sleep state, and a pick, end its test and its sleep.
#[test]
fn a_test_is_of_this_sleep(rt: HostRuntime) -> Result<(), Fail> {
    plays(
        &rt,
        "
        start_0 ; pick_0 ; 0 load_cond 0 ; untested 0 0 0 ;
        0 take_wait 0 ; 0 give_wait 0 nobody ; awake 0 0 0 ;

        opening ;
        start_0 ; pick_0 ; prepare_0 ; 0 set_state 0 TASK_RUNNING ; tested 0 0 0 0 ; asleep 0 0 0 ;
        0 set_state 0 TASK_INTERRUPTIBLE ; untested 0 0 0 ; awake 0 0 0 ; 0 load_cond 0 ; tested 0 0 0 0 ;

        opening ;
        start_0 ; pick_0 ; prepare_0 ; leave_0 ; clear_0 ; claim_0 ; enqueue_0 ; tested 0 0 0 0 ; asleep 0 0 0 ;
        pick_0_again ; untested 0 0 0 ; awake 0 0 0 ; 0 load_cond 0 ; untested 0 0 0 ;
        ",
    )?;
    Ok(())
}

#[test]
fn a_task_sleeps_uninterruptibly(rt: HostRuntime) -> Result<(), Fail> {
    plays(
        &rt,
        "
        start_0 ; pick_0 ;
        0 take_wait 0 ; 0 set_state 0 TASK_UNINTERRUPTIBLE ; 0 give_wait 0 plain 0 ; 0 load_cond 0 ;
        tested 0 0 0 0 ; asleep 0 0 0 ;
        leave_0 ; clear_0 ; claim_0 ; enqueue_0 ; pick_0_again ; finish_0 ;
        journal 0 new 0 1 0 , pick 0 1 0 , sleep 0 2 0 , finish 0 2 0 , pick 0 3 0 ;
        journal 1 wake 0 2 , enq 0 3 0 ;
        ",
    )?;
    Ok(())
}

// TASK_KILLABLE has the bit of TASK_UNINTERRUPTIBLE, and TASK_WAKEKILL has the bit of no sleep.
#[test]
fn a_mask_matches_by_its_bits(rt: HostRuntime) -> Result<(), Fail> {
    plays(
        &rt,
        "
        start_0 ; pick_0 ;
        0 take_wait 0 ; 0 set_state 0 TASK_UNINTERRUPTIBLE ; 0 give_wait 0 plain 0 ; 0 load_cond 0 ; leave_0 ;
        clear_0 ;
        1 take_task 0 ; 1 load_state 0 TASK_WAKEKILL ; 1 load_rq 0 ;
        not 1 claim_task 0 -- no state that matches TASK_WAKEKILL ;
        1 load_state 0 TASK_INTERRUPTIBLE ; 1 load_rq 0 ;
        not 1 claim_task 0 -- no state that matches TASK_INTERRUPTIBLE ;
        1 load_state 0 TASK_KILLABLE ; 1 load_rq 0 ; 1 claim_task 0 ;
        journal 1 refused 0 TASK_UNINTERRUPTIBLE , refused 0 TASK_UNINTERRUPTIBLE , wake 0 2 ;

        opening ;
        start_0 ; pick_0 ; prepare_0 ; leave_0 ; clear_0 ;
        1 take_task 0 ; 1 load_state 0 TASK_KILLABLE ; 1 load_rq 0 ;
        not 1 claim_task 0 -- no state that matches TASK_KILLABLE ;
        journal 1 refused 0 TASK_INTERRUPTIBLE ;

        opening ;
        1 load_state 0 TASK_NORMAL ; 1 load_state 0 - ;
        journal 1 refused 0 TASK_NEW ;
        ",
    )?;
    Ok(())
}

// The waker has loaded `on_rq` as queued, and the sleeper has gone on to another wait. The sleeper finds itself
// runnable, so it doesn't leave its queue, and tests again.
#[test]
fn a_sleeper_that_was_woken_for_another_wait_tests_again(rt: HostRuntime) -> Result<(), Fail> {
    plays(
        &rt,
        "
        start_0 ; pick_0 ; prepare_0 ;
        1 take_task 0 ; 1 load_state 0 TASK_NORMAL ; 1 load_rq 0 ;
        0 load_cond 0 ; 0 set_state 0 TASK_RUNNING ; 0 take_wait 0 ; 0 give_wait 0 nobody ; awake 0 0 0 ;
        0 take_wait 1 ; 0 set_state 0 TASK_INTERRUPTIBLE ; 0 give_wait 1 plain 0 ; asleep 0 0 1 ;
        1 take_queue 0 ; 1 make_runnable 0 ; 1 give_queue 0 cur 0 left - waiting ; 1 give_task 0 ;
        0 load_cond 1 ; tested 0 0 1 0 ; 0 take_queue 0 ; 0 load_state 0 - ; seen 0 TASK_RUNNING ;
        not 0 dequeue_task 0 0 -- it finds itself runnable ;
        0 give_queue 0 cur 0 left - waiting ;
        0 take_wait 1 ; 0 set_state 0 TASK_INTERRUPTIBLE ; 0 give_wait 1 plain 0 ; untested 0 0 1 ; asleep 0 0 1 ;
        0 load_cond 1 ; tested 0 0 1 0 ;
        journal 1 ;
        ",
    )?;
    Ok(())
}

// What is said of a position has to be so.
#[test]
fn a_wrong_look_is_refused(rt: HostRuntime) -> Result<(), Fail> {
    for text in [
        "tested 0 0 0 0",
        "asleep 0 0 0",
        "start_0 ; pick_0 ; prepare_0 ; untested 0 0 0",
        "start_0 ; pick_0 ; prepare_0 ; tested 0 0 0 1",
        "start_0 ; pick_0 ; prepare_0 ; awake 0 0 0",
        "untested 3 0 0",
        "tested 0 0 0",
        "read 0 0 state TASK_NEW",
        "0 load_state 0 - ; read 0 0 state TASK_RUNNING",
        "0 load_state 0 - ; unread 0 0 state",
        "unread 0 0 stat",
        "seen 0 TASK_RUNNING",
        "rests 0 0 state",
        "rests_not 0 0 stat",
    ] {
        assert!(rt; wrong_line(rt.alloc(), text)?.is_some(), "{text}");
    }
    Ok(())
}
