//! Parts of lists, by their names.

/// The steps of a part, if the word names one.
pub fn part(name: &str) -> Option<&'static str> {
    match name {
        "start_0" => Some(START_0),
        "start_1" => Some(START_1),
        "pick_0" => Some(PICK_0),
        "pick_0_of_two" => Some(PICK_0_OF_TWO),
        "prepare_0" => Some(PREPARE_0),
        "leave_0" => Some(LEAVE_0),
        "clear_0" => Some("0 clear_busy 0"),
        "claim_0" => Some(CLAIM_0),
        "enqueue_0" => Some(ENQUEUE_0),
        "pick_0_again" => Some(PICK_0_AGAIN),
        "finish_0" => Some("0 take_wait 0 ; 0 give_wait 0 nobody"),
        "end_0" => Some(END_0),
        "yield_0" => Some("0 take_queue 0 ; 0 give_queue 0 cur - left 0 waiting 0"),
        "move_0" => Some(MOVE_0),
        "walk_and_wake_0" => Some(WALK_AND_WAKE_0),
        _ => None,
    }
}

/// Seat 0 starts task 0 on its own processor.
const START_0: &str = "
    0 take_task 0 ;
    0 make_runnable 0 ;
    0 store_cpu 0 0 ;
    0 take_queue 0 ;
    0 queue_task 0 0 ;
    0 give_queue 0 cur - left - waiting 0 ;
    0 give_task 0";

/// The agent starts task 1 on processor 0, where task 0 waits.
const START_1: &str = "
    2 take_task 1 ;
    2 make_runnable 1 ;
    2 store_cpu 1 0 ;
    2 take_queue 0 ;
    2 queue_task 0 1 ;
    2 give_queue 0 cur - left - waiting 0 1 ;
    2 give_task 1 wake_cpu 1";

/// Seat 0 picks task 0, the only one that waits.
const PICK_0: &str = "
    0 take_queue 0 ;
    0 set_busy 0 0 cur 0 left - waiting ;
    0 give_queue 0 cur 0 left - waiting";

/// Seat 0 picks task 0, while task 1 waits.
const PICK_0_OF_TWO: &str = "
    0 take_queue 0 ;
    0 set_busy 0 0 cur 0 left - waiting 1 ;
    0 give_queue 0 cur 0 left - waiting 1";

/// Task 0 goes to sleep at condition 0: it stores its state under the lock of the wait queue, puts its entry in, and
/// tests the condition.
const PREPARE_0: &str = "
    0 take_wait 0 ;
    0 set_state 0 TASK_INTERRUPTIBLE ;
    0 give_wait 0 plain 0 ;
    0 load_cond 0";

/// Seat 0 takes its current task 0 off its queue by the state that it reads, and gives it up.
const LEAVE_0: &str = "
    0 take_queue 0 ;
    0 load_state 0 - ;
    0 dequeue_task 0 0 ;
    0 give_queue 0 cur - left 0 waiting";

/// Seat 1 claims task 0, which sleeps.
const CLAIM_0: &str = "
    1 take_task 0 ;
    1 load_state 0 TASK_NORMAL ;
    1 load_rq 0 ;
    1 claim_task 0";

/// Seat 1 queues task 0, which it has claimed, on processor 0.
const ENQUEUE_0: &str = "
    1 load_busy 0 ;
    1 load_cpu 0 ;
    1 store_cpu 0 0 ;
    1 take_queue 0 ;
    1 queue_task 0 0 ;
    1 make_runnable 0 ;
    1 give_queue 0 cur - left 0 waiting 0 ;
    1 give_task 0";

/// Seat 0 picks task 0 again.
const PICK_0_AGAIN: &str = "
    0 take_queue 0 ;
    0 set_busy 0 0 cur 0 left 0 waiting ;
    0 give_queue 0 cur 0 left 0 waiting";

/// Task 0 ends: its body says so, and it stores TASK_DEAD under its own lock.
const END_0: &str = "
    0 body_out 0 ;
    0 body_home 0 ended ;
    0 take_task 0 ;
    0 set_state 0 TASK_DEAD ;
    0 give_task 0";

/// The agent moves task 0, which waits on processor 0, to processor 1.
const MOVE_0: &str = "
    2 take_task 0 ;
    2 take_queue 0 ;
    2 load_busy 0 ;
    2 move_task 0 0 cur - left - waiting 0 ;
    2 give_queue 0 cur - left - waiting ;
    2 store_cpu 0 1 ;
    2 take_queue 1 ;
    2 queue_task 1 0 ;
    2 give_queue 1 cur - left - waiting 0 ;
    2 give_task 0 wake_cpu 1";

/// The agent raises condition 0 and walks its wait queue, in which task 0 sleeps, and wakes task 0.
const WALK_AND_WAKE_0: &str = "
    2 bump 0 ;
    2 take_wait 0 ;
    2 take_task 0 ;
    2 load_state 0 TASK_NORMAL ;
    2 load_rq 0 ;
    2 claim_task 0 ;
    2 load_busy 0 ;
    2 load_cpu 0 ;
    2 store_cpu 0 0 ;
    2 take_queue 0 ;
    2 queue_task 0 0 ;
    2 make_runnable 0 ;
    2 give_queue 0 cur - left 0 waiting 0 ;
    2 give_task 0 ;
    2 give_wait 0 plain 0";
