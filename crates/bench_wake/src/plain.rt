//! The plain atomic operations of each kind of wake-up and walk, in their order. A lock taken is one compare-exchange,
//! and a lock given one store.
use handoff_data::State;
use std::sync::atomic::Ordering::SeqCst;
use uses_words::plain::{Plain, PlainWords, give, lock};

/// Of a task that is off every queue: four loads, three compare-exchanges and four stores.
pub struct Queued;

impl Plain for Queued {
    fn once(words: &PlainWords) {
        queue(words);
    }
}

/// Of a task that is still queued: four loads, two compare-exchanges and three stores.
pub struct Runnable;

impl Plain for Runnable {
    fn once(words: &PlainWords) {
        lock(&words.task_lock);
        words.state.load(SeqCst);
        words.rq.load(SeqCst);
        words.cpu.load(SeqCst);
        lock(&words.queue_lock);
        words.rq.load(SeqCst);
        words.state.store(0, SeqCst);
        give(&words.queue_lock);
        give(&words.task_lock);
    }
}

/// Of a task whose state doesn't match: one load, one compare-exchange and one store.
pub struct Refused;

impl Plain for Refused {
    fn once(words: &PlainWords) {
        lock(&words.task_lock);
        words.state.load(SeqCst);
        give(&words.task_lock);
    }
}

/// Of a walk along a wait queue with no entry: a lock taken and given.
pub struct EmptyWalk;

impl Plain for EmptyWalk {
    fn once(words: &PlainWords) {
        walk(words, 0);
    }
}

/// .. with one entry, of a task that is off every queue.
pub struct SingleWalk;

impl Plain for SingleWalk {
    fn once(words: &PlainWords) {
        walk(words, 1);
    }
}

/// .. with ten.
pub struct TenWalk;

impl Plain for TenWalk {
    fn once(words: &PlainWords) {
        walk(words, 10);
    }
}

fn walk(words: &PlainWords, entries: u32) {
    lock(&words.wait_lock);
    for _ in 0..entries {
        queue(words);
    }
    give(&words.wait_lock);
}

fn queue(words: &PlainWords) {
    lock(&words.task_lock);
    words.state.load(SeqCst);
    let seen = words.rq.load(SeqCst);
    words.state.store(State::TASK_WAKING.0 as u64, SeqCst);
    words.busy.load(SeqCst);
    words.cpu.load(SeqCst);
    lock(&words.queue_lock);
    let _ = words
        .rq
        .compare_exchange(seen, seen.wrapping_add(4), SeqCst, SeqCst);
    words.state.store(0, SeqCst);
    give(&words.queue_lock);
    give(&words.task_lock);
}
