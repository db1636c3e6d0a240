//! Events that are impossible where they stand, by one condition that fails.

use super::play::plays;
use std::test::Fail;

#[test]
fn nothing_of_another_shape(rt: HostRuntime) -> Result<(), Fail> {
    plays(
        &rt,
        "
        not 3 take_task 0 -- a seat too many takes a task ;
        not 0 take_task 2 -- a task too many ;
        not 3 take_queue 0 -- a seat too many takes a queue ;
        not 0 take_queue 2 -- a queue too many ;
        not 3 take_wait 0 -- a seat too many takes a wait queue ;
        not 0 take_wait 2 -- a wait queue too many ;
        not 3 take_works 0 -- a seat too many takes works ;
        not 0 take_works 2 -- works too many ;
        not 3 load_state 0 - -- a seat too many loads a state ;
        not 0 load_state 2 - -- a state too many ;
        not 3 load_rq 0 -- a seat too many loads a word ;
        not 0 load_rq 2 -- an on_rq too many ;
        not 3 load_busy 0 -- a seat too many loads a busy word ;
        not 0 load_busy 2 -- a busy word too many ;
        not 3 load_cpu 0 -- a seat too many loads a processor word ;
        not 0 load_cpu 2 -- a processor word too many ;
        not 3 load_count 0 -- a seat too many loads a level ;
        not 0 load_count 2 -- a level too many ;
        not 3 bump 0 -- a seat too many bumps ;
        not 0 bump 2 -- a condition too many is bumped ;
        not 3 load_cond 0 -- a seat too many loads a condition ;
        not 0 load_cond 2 -- a condition too many is loaded ;
        not 0 load_state 0 TASK_DEAD -- a mask with the bit of TASK_DEAD ;
        ",
    )?;
    Ok(())
}

#[test]
fn nothing_without_its_lock(rt: HostRuntime) -> Result<(), Fail> {
    plays(
        &rt,
        "
        not 0 give_task 0 -- a task given ;
        not 0 give_queue 0 cur - left - waiting -- a queue given ;
        not 0 give_wait 0 nobody -- a wait queue given ;
        not 0 give_works 0 nothing -- works given ;
        not 0 make_runnable 0 -- TASK_RUNNING of a new task ;
        not 0 store_cpu 0 1 -- the processor of a new task ;
        0 take_task 0 ;
        not 0 queue_task 0 0 -- queued without the lock of the queue ;
        0 take_queue 0 ;
        0 take_wait 0 ;
        0 take_works 0 ;
        not 1 take_task 0 -- a task taken that is held ;
        not 1 take_queue 0 -- a queue taken that is held ;
        not 1 take_wait 0 -- a wait queue taken that is held ;
        not 1 take_works 0 -- works taken that are held ;
        not 1 give_task 0 -- a task given by another seat ;
        not 1 give_queue 0 cur - left - waiting -- a queue given by another seat ;
        not 1 give_wait 0 nobody -- a wait queue given by another seat ;
        not 1 give_works 0 nothing -- works given by another seat ;
        not 0 give_works 0 task 0 seat 0 -- works given that weren't taken so ;

        opening ;
        0 take_queue 0 ;
        not 0 queue_task 0 0 -- queued without the lock of the task ;
        not 0 set_busy 0 0 cur 0 left - waiting -- picked before it was queued ;

        opening ;
        start_0 ;
        not 0 set_busy 0 0 cur 0 left - waiting -- picked without the lock of the queue ;
        ",
    )?;
    Ok(())
}

#[test]
fn a_task_is_given_as_it_was_taken(rt: HostRuntime) -> Result<(), Fail> {
    plays(
        &rt,
        "
        0 take_task 0 ;
        not 0 give_task 0 mask 0 -- another mask ;
        not 0 give_task 0 r 1 -- another number of its mask ;
        not 0 give_task 0 narrowed 0 -- narrowed ;
        not 0 give_task 0 pending 0 -- a pending record ;
        not 0 give_task 0 stop_queued -- a stop work ;
        not 0 give_task 0 wake_cpu 2 -- no processor for wake-ups ;
        not 0 give_task 0 dest 2 -- no processor to go to ;
        not 0 give_task 0 stood -- Stood ;
        not 0 give_task 0 done -- Done ;
        not 0 store_cpu 0 2 -- a processor too many ;
        0 take_queue 1 ;
        not 0 queue_task 1 0 -- queued on another processor than its own ;
        0 make_runnable 0 ;
        not 0 give_task 0 -- never started, and not TASK_NEW ;
        ",
    )?;
    Ok(())
}

#[test]
fn a_queue_says_what_the_words_say(rt: HostRuntime) -> Result<(), Fail> {
    plays(
        &rt,
        "
        0 take_task 0 ; 0 make_runnable 0 ; 0 store_cpu 0 0 ; 0 take_queue 0 ; 0 queue_task 0 0 ;
        not 0 give_queue 0 cur - left - waiting -- a queued task left out ;
        not 0 give_queue 0 cur - left - waiting 0 1 -- a task that isn't queued ;
        not 0 give_queue 0 cur 0 left - waiting 0 -- a task twice ;
        not 0 give_queue 0 cur - left 2 waiting 0 -- a task too many was left ;
        not 0 move_task 0 0 cur - left - waiting 0 -- moved before its busy word was read ;

        opening ;
        start_0 ;
        1 take_queue 0 ;
        not 1 give_queue 0 cur 0 left - waiting -- cur changed by another seat ;
        not 1 give_queue 0 cur - left 0 waiting 0 -- left changed by another seat ;
        not 1 set_busy 0 0 cur 0 left - waiting -- picked by another seat ;

        opening ;
        start_0 ;
        0 take_queue 0 ;
        not 0 set_busy 0 0 cur - left - waiting 0 -- picked and not chosen ;

        opening ;
        start_0 ; move_0 ;
        0 take_queue 0 ;
        not 0 set_busy 0 0 cur 0 left - waiting -- picked from another processor ;

        opening ;
        start_0 ; pick_0 ; prepare_0 ; leave_0 ; clear_0 ; claim_0 ;
        1 load_busy 0 ; 1 load_cpu 0 ; 1 store_cpu 0 0 ; 1 take_queue 0 ; 1 queue_task 0 0 ;
        not 1 give_queue 0 cur - left 0 waiting 0 -- a task that waits with TASK_WAKING ;
        not 1 store_cpu 0 1 -- placed once it is queued ;
        1 load_busy 0 ;
        not 1 move_task 0 0 cur - left - waiting 0 -- moved with TASK_WAKING ;
        ",
    )?;
    Ok(())
}

#[test]
fn no_task_is_picked_that_may_not_run(rt: HostRuntime) -> Result<(), Fail> {
    // at first the seat of the processor wakes the task itself
    plays(
        &rt,
        "
        start_0 ; pick_0 ; prepare_0 ; leave_0 ; clear_0 ;
        0 take_task 0 ; 0 load_state 0 TASK_NORMAL ; 0 load_rq 0 ; 0 claim_task 0 ;
        0 load_busy 0 ; 0 take_queue 0 ; 0 queue_task 0 0 ;
        not 0 set_busy 0 0 cur 0 left 0 waiting -- picked with TASK_WAKING ;
        not 0 give_queue 0 cur 0 left 0 waiting -- next with TASK_WAKING ;

        opening ;
        start_0 ; pick_0 ; prepare_0 ; leave_0 ; clear_0 ;
        0 take_queue 0 ;
        not 0 set_busy 0 0 cur 0 left 0 waiting -- picked asleep ;

        opening ;
        start_0 ; start_1 ; pick_0_of_two ;
        0 take_queue 0 ;
        not 0 set_busy 0 1 cur 1 left - waiting 0 -- picked beside the current task ;
        not 0 give_queue 0 cur 1 left - waiting 0 -- the current task is neither kept nor given up ;
        not 0 give_queue 0 cur - left - waiting 0 1 -- the current task given up and not left ;
        0 give_queue 0 cur - left 0 waiting 0 1 ;
        0 take_queue 0 ;
        not 0 set_busy 0 1 cur 1 left 0 waiting 0 -- picked before the last one is cleared ;
        not 0 give_queue 0 cur - left - waiting 0 1 -- forgets whom it left ;
        not 0 clear_busy 1 -- clears another task ;
        ",
    )?;
    Ok(())
}

#[test]
fn a_body_is_out_with_its_own_seat(rt: HostRuntime) -> Result<(), Fail> {
    plays(
        &rt,
        "
        start_0 ; pick_0 ;
        not 1 body_out 0 -- the body of the task of another seat ;
        not 0 body_home 0 goes_on -- a body home that is home ;
        not 0 clear_busy 0 -- cleared while it runs ;
        0 body_out 0 ;
        not 0 body_out 0 -- a body out twice ;
        not 1 body_home 0 goes_on -- put home by another seat ;
        0 take_queue 0 ;
        not 0 give_queue 0 cur - left 0 waiting 0 -- given up with its body out ;
        0 body_home 0 ended ;
        0 body_out 0 ;
        not 0 body_home 0 goes_on -- a body that has ended goes on ;
        ",
    )?;
    Ok(())
}

#[test]
fn a_task_stores_its_own_state(rt: HostRuntime) -> Result<(), Fail> {
    plays(
        &rt,
        "
        start_0 ; pick_0 ;
        not 1 set_state 0 TASK_INTERRUPTIBLE -- the task of another seat ;
        not 0 set_state 0 TASK_WAKING -- TASK_WAKING ;
        0 take_task 0 ;
        not 0 set_state 0 TASK_DEAD -- dead before its body has ended ;

        opening ;
        start_0 ; pick_0 ;
        0 body_out 0 ; 0 body_home 0 ended ;
        not 0 set_state 0 TASK_DEAD -- dead without its lock ;

        opening ;
        start_0 ; pick_0 ; prepare_0 ;
        0 take_queue 0 ; 0 load_state 0 - ; 0 dequeue_task 0 0 ;
        not 0 set_state 0 TASK_RUNNING -- a state after it left its queue ;
        not 0 dequeue_task 0 0 -- off its queue twice ;
        ",
    )?;
    Ok(())
}

#[test]
fn a_task_leaves_by_a_state_that_was_read(rt: HostRuntime) -> Result<(), Fail> {
    plays(
        &rt,
        "
        start_0 ; pick_0 ; prepare_0 ;
        0 take_queue 0 ;
        not 0 dequeue_task 0 0 -- no state read ;
        0 load_state 0 - ;
        0 set_state 0 TASK_RUNNING ;
        not 0 dequeue_task 0 0 -- a state stored since ;

        opening ;
        start_0 ; pick_0 ;
        0 take_queue 0 ; 0 load_state 0 - ;
        not 0 dequeue_task 0 0 -- TASK_RUNNING read ;

        opening ;
        start_0 ; start_1 ; pick_0_of_two ; prepare_0 ;
        0 take_queue 0 ; 0 load_state 0 - ;
        not 0 dequeue_task 0 1 -- another task by its state ;
        ",
    )?;
    Ok(())
}

#[test]
fn a_waker_claims_what_it_read_as_off(rt: HostRuntime) -> Result<(), Fail> {
    plays(
        &rt,
        "
        start_0 ; pick_0 ; prepare_0 ; leave_0 ;
        1 take_task 0 ; 1 load_state 0 TASK_NORMAL ;
        not 1 claim_task 0 -- on_rq not read ;
        1 load_rq 0 ;
        1 give_task 0 ;
        not 1 claim_task 0 -- the lock was given ;

        opening ;
        start_0 ; pick_0 ; prepare_0 ; leave_0 ;
        1 take_task 0 ; 1 load_state 0 - ; 1 load_rq 0 ;
        not 1 claim_task 0 -- no state that matches a mask ;

        opening ;
        start_0 ; pick_0 ; prepare_0 ;
        1 take_task 0 ; 1 load_state 0 TASK_NORMAL ; 1 load_rq 0 ;
        not 1 claim_task 0 -- read as queued ;

        opening ;
        start_0 ; pick_0 ; prepare_0 ; leave_0 ; claim_0 ;
        not 1 claim_task 0 -- claimed twice ;
        not 1 give_task 0 -- given on its way ;
        not 1 store_cpu 0 1 -- placed before it is clear ;
        1 load_busy 0 ; 1 take_queue 0 ;
        not 1 queue_task 0 0 -- queued while it is busy ;

        opening ;
        start_0 ; pick_0 ; prepare_0 ; leave_0 ; clear_0 ;
        1 take_task 0 ; 1 load_busy 0 ; 1 take_queue 0 ;
        not 1 queue_task 0 0 -- queued without being claimed ;
        not 1 store_cpu 0 1 -- placed without being claimed ;
        ",
    )?;
    Ok(())
}

#[test]
fn a_waker_stores_running_under_both_locks(rt: HostRuntime) -> Result<(), Fail> {
    plays(
        &rt,
        "
        start_0 ; pick_0 ; prepare_0 ;
        1 take_task 0 ; 1 load_state 0 TASK_NORMAL ;
        not 1 make_runnable 0 -- without the lock of the queue ;
        1 give_task 0 ; 1 take_queue 0 ;
        not 1 make_runnable 0 -- without the lock of the task ;

        opening ;
        start_0 ; pick_0 ; prepare_0 ;
        1 take_task 0 ; 1 take_queue 0 ;
        not 1 make_runnable 0 -- without a state that matches ;

        opening ;
        start_0 ; pick_0 ; prepare_0 ;
        0 take_task 0 ; 0 load_state 0 TASK_NORMAL ; 0 take_queue 0 ;
        not 0 make_runnable 0 -- of its own current task ;

        opening ;
        start_0 ; pick_0 ; prepare_0 ; leave_0 ;
        1 take_task 0 ; 1 load_state 0 TASK_NORMAL ; 1 take_queue 0 ;
        not 1 make_runnable 0 -- of a task that left its queue ;
        ",
    )?;
    Ok(())
}

#[test]
fn a_seat_stores_running_of_what_it_queued(rt: HostRuntime) -> Result<(), Fail> {
    plays(
        &rt,
        "
        start_0 ;
        not 0 make_runnable 0 -- once the queue is given ;
        1 take_queue 0 ;
        not 1 make_runnable 0 -- queued by another seat ;

        opening ;
        0 take_task 0 ; 0 make_runnable 0 ; 0 take_queue 0 ; 0 queue_task 0 0 ;
        0 load_busy 0 ; 0 move_task 0 0 cur - left - waiting 0 ;
        not 0 make_runnable 0 -- taken out since ;

        opening ;
        0 take_task 0 ; 0 make_runnable 0 ; 0 take_queue 0 ; 0 queue_task 0 0 ;
        0 set_busy 0 0 cur 0 left - waiting ;
        not 0 make_runnable 0 -- picked since ;
        ",
    )?;
    Ok(())
}

#[test]
fn a_task_is_moved_that_waits(rt: HostRuntime) -> Result<(), Fail> {
    plays(
        &rt,
        "
        start_0 ;
        2 take_task 0 ; 2 load_busy 0 ;
        not 2 move_task 0 0 cur - left - waiting 0 -- without the lock of the queue ;

        opening ;
        start_0 ;
        2 take_task 0 ; 2 take_queue 0 ; 2 load_busy 0 ;
        not 2 move_task 0 0 cur - left - waiting -- isn't among those that wait ;
        2 move_task 0 0 cur - left - waiting 0 ;
        not 2 move_task 0 0 cur - left - waiting 0 -- moved twice ;
        not 2 give_task 0 -- given on its way ;

        opening ;
        start_0 ;
        2 take_queue 0 ; 2 load_busy 0 ;
        not 2 move_task 0 0 cur - left - waiting 0 -- without its lock ;

        opening ;
        start_0 ;
        2 take_task 0 ; 2 take_queue 1 ; 2 load_busy 0 ;
        not 2 move_task 1 0 cur - left - waiting 0 -- from another queue ;

        opening ;
        start_0 ;
        0 take_task 0 ; 0 take_queue 0 ; 0 load_busy 0 ;
        0 set_busy 0 0 cur 0 left - waiting ;
        not 0 move_task 0 0 cur - left - waiting 0 -- its own current task ;
        ",
    )?;
    Ok(())
}

#[test]
fn entries_are_put_in_and_taken_out_by_those_who_may(rt: HostRuntime) -> Result<(), Fail> {
    plays(
        &rt,
        "
        start_0 ; pick_0 ;
        0 take_wait 0 ; 0 set_state 0 TASK_INTERRUPTIBLE ;
        not 0 give_wait 0 plain 0 exclusive 0 -- two entries of a task ;
        not 0 give_wait 0 plain 1 -- an entry of another task ;

        opening ;
        start_0 ; pick_0 ;
        0 set_state 0 TASK_INTERRUPTIBLE ; 0 take_wait 0 ;
        not 0 give_wait 0 plain 0 -- no state stored under this lock ;

        opening ;
        start_0 ; pick_0 ; prepare_0 ;
        1 take_wait 0 ;
        not 1 give_wait 0 nobody -- an entry of a task that wasn't passed ;
        not 1 give_wait 0 exclusive 0 -- another sort of entry ;
        1 load_state 0 - ;
        not 1 give_wait 0 nobody -- an entry of a task that was read asleep ;
        ",
    )?;
    Ok(())
}
