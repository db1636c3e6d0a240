//! Lists of loads: what a seat knows of a task's words, and which of its steps end that.

use super::play::plays;
use std::test::Fail;

// A state, then the queue word, then the busy word; a store of a word of the task, or a new take of its lock, ends
// them.
#[test]
fn a_seat_keeps_what_it_read_until_it_stores(rt: HostRuntime) -> Result<(), Fail> {
    plays(
        &rt,
        "
        start_0 ; pick_0 ; prepare_0 ; leave_0 ;
        1 take_task 0 ; unread 1 0 state ; 1 load_rq 0 ; unread 1 0 rq ; 1 load_busy 0 ; unread 1 0 busy ;
        1 load_state 0 - ; read 1 0 state TASK_INTERRUPTIBLE ; unread 1 0 rq ;
        1 load_rq 0 ; read 1 0 rq 0 2 ; unread 1 0 busy ; 1 load_state 0 TASK_NORMAL ; unread 1 0 rq ; 1 load_rq 0 ;
        clear_0 ; 1 claim_task 0 ; unread 1 0 state ; unread 1 0 rq ; unread 1 0 busy ;
        1 load_state 0 - ; 1 load_rq 0 ; 1 load_busy 0 ; 1 store_cpu 0 1 ; unread 1 0 state ; unread 1 0 rq ;
        unread 1 0 busy ;
        1 load_state 0 - ; 1 take_queue 1 ; 1 queue_task 1 0 ; unread 1 0 state ;
        1 load_state 0 - ; 1 make_runnable 0 ; unread 1 0 state ;

        opening ;
        1 take_task 0 ; 1 load_state 0 - ; 1 load_rq 0 ; 1 load_busy 0 ; read 1 0 rq 0 0 ; 1 give_task 0 ;
        1 take_task 0 ; unread 1 0 state ; unread 1 0 rq ; unread 1 0 busy ;

        opening ;
        start_0 ; pick_0 ; 0 load_state 0 - ; 0 set_state 0 TASK_INTERRUPTIBLE ; unread 0 0 state ;
        0 take_queue 0 ; 0 load_state 0 - ; 0 dequeue_task 0 0 ; unread 0 0 state ;
        ",
    )?;
    Ok(())
}

#[test]
fn a_seat_reads_a_busy_word_as_it_is(rt: HostRuntime) -> Result<(), Fail> {
    plays(
        &rt,
        "
        start_0 ; pick_0 ; prepare_0 ; leave_0 ;
        1 take_task 0 ; 1 load_state 0 - ; 1 load_rq 0 ; 1 load_busy 0 ; read 1 0 busy ;
        clear_0 ; 1 load_busy 0 ; read 1 0 idle ;
        ",
    )?;
    Ok(())
}

#[test]
fn a_seat_knows_the_number_that_it_read_or_stored(rt: HostRuntime) -> Result<(), Fail> {
    plays(
        &rt,
        "
        start_0 ; pick_0 ; prepare_0 ; leave_0 ; clear_0 ; read 0 0 number 2 ;
        1 take_task 0 ; unread 1 0 number ; 1 load_rq 0 ; read 1 0 number 2 ;
        1 load_state 0 TASK_NORMAL ; 1 load_rq 0 ; 1 claim_task 0 ; read 1 0 number 2 ; enqueue_0 ;
        read 1 0 number 3 ;
        1 take_task 0 ; unread 1 0 number ;

        opening ;
        start_0 ; move_0 ; read 2 0 number 3 ;
        ",
    )?;
    Ok(())
}

#[test]
fn a_seat_knows_the_processor_that_it_read_or_stored(rt: HostRuntime) -> Result<(), Fail> {
    plays(
        &rt,
        "
        2 take_task 0 ; unread 2 0 cpu ; 2 load_cpu 0 ; read 2 0 cpu 0 ; 2 store_cpu 0 1 ; read 2 0 cpu 1 ;
        2 load_cpu 0 ; read 2 0 cpu 1 ; 2 make_runnable 0 ; read 2 0 cpu 1 ; 2 store_cpu 0 0 ; read 2 0 cpu 0 ;

        opening ;
        2 take_task 0 ; 2 load_cpu 0 ; 2 give_task 0 ; 2 take_task 0 ; unread 2 0 cpu ; 2 store_cpu 0 1 ;
        read 2 0 cpu 1 ;
        ",
    )?;
    Ok(())
}

// A state other than TASK_WAKING, then the queue word as 0, then the busy word as clear.
#[test]
fn a_seat_notes_that_a_task_rests(rt: HostRuntime) -> Result<(), Fail> {
    plays(
        &rt,
        "
        start_0 ; pick_0 ; prepare_0 ; leave_0 ;
        1 take_task 0 ; 1 load_rq 0 ; rests_not 1 0 rq ; 1 load_state 0 - ; rests 1 0 state ; rests_not 1 0 rq ;
        1 load_rq 0 ; rests 1 0 rq ; 1 load_busy 0 ; rests_not 1 0 busy ; clear_0 ; 1 load_busy 0 ; rests 1 0 busy ;
        1 load_state 0 TASK_NORMAL ; 1 load_rq 0 ; 1 claim_task 0 ; rests_not 1 0 state ; rests_not 1 0 rq ;
        rests_not 1 0 busy ;
        1 load_state 0 - ; rests_not 1 0 state ;

        opening ;
        start_0 ; 1 take_task 0 ; 1 load_state 0 - ; 1 load_rq 0 ; 1 load_busy 0 ;
        rests 1 0 state ; rests_not 1 0 rq ; rests_not 1 0 busy ; 1 give_task 0 ; 1 take_task 0 ;
        rests_not 1 0 state ;
        ",
    )?;
    Ok(())
}

// Under its own queue's lock, and until that is given, a seat keeps the state that it reads of its current task.
#[test]
fn a_seat_sees_its_own_state_under_the_lock_of_its_queue(rt: HostRuntime) -> Result<(), Fail> {
    plays(
        &rt,
        "
        start_0 ; pick_0 ; 0 load_state 0 - ; seen 0 - ; 0 take_queue 0 ; seen 0 - ; 0 load_state 0 - ;
        seen 0 TASK_RUNNING ;
        0 give_queue 0 cur 0 left - waiting ; seen 0 - ; 0 take_queue 0 ; seen 0 - ; 0 load_state 0 - ;
        0 set_state 0 TASK_UNINTERRUPTIBLE ; seen 0 - ; 0 load_state 0 - ; seen 0 TASK_UNINTERRUPTIBLE ;

        opening ;
        start_0 ; 0 take_queue 0 ; 0 load_state 0 - ; seen 0 - ;
        ",
    )?;
    Ok(())
}

// A seat knows the level of its own current task once it has read it, and of no other. What it knew of the task before
// counts no more once it has picked the next.
#[test]
fn a_seat_knows_the_level_of_its_current_task(rt: HostRuntime) -> Result<(), Fail> {
    plays(
        &rt,
        "
        start_0 ; 0 load_count 0 ; level 0 - ; pick_0 ; level 0 - ; 0 load_count 1 ; level 0 - ;
        1 load_count 0 ; level 1 - ; level 0 - ; 0 load_count 0 ; level 0 0 ; 0 load_count 1 ; level 0 0 ;
        prepare_0 ; leave_0 ; clear_0 ; level 0 0 ; claim_0 ; enqueue_0 ; pick_0_again ; level 0 - ;
        0 load_count 0 ; level 0 0 ; yield_0 ; clear_0 ; pick_0_again ; level 0 - ;
        ",
    )?;
    Ok(())
}
