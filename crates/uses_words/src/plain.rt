//! Plain atomic operations on words of their own, beside which benches set the steps of a table.
use std::rt::Runtime;
use std::sync::atomic::AtomicU64;
use std::sync::atomic::Ordering::SeqCst;
use std::time::{Duration, Instant};

/// Words like those of one task, of the processor that it is on, and of one condition.
#[derive(Drop)]
pub struct PlainWords {
    pub task_lock: AtomicU64,
    pub body: AtomicU64,
    pub state: AtomicU64,
    pub rq: AtomicU64,
    pub busy: AtomicU64,
    pub cpu: AtomicU64,
    pub level: AtomicU64,
    pub queue_lock: AtomicU64,
    pub wait_lock: AtomicU64,
}

impl PlainWords {
    /// Words that are all 0.
    pub fn new() -> PlainWords {
        PlainWords {
            task_lock: AtomicU64::new(0),
            body: AtomicU64::new(0),
            state: AtomicU64::new(0),
            rq: AtomicU64::new(0),
            busy: AtomicU64::new(0),
            cpu: AtomicU64::new(0),
            level: AtomicU64::new(0),
            queue_lock: AtomicU64::new(0),
            wait_lock: AtomicU64::new(0),
        }
    }
}

/// The operations of one step or call, in their order.
pub trait Plain {
    fn once(words: &PlainWords);
}

/// Makes them so many times. A call that stands alone: else the compiler sees that no other thread has the words, and
/// leaves stores and loads out.
#[inline(never)]
pub fn repeat_plain<P: Plain>(words: &PlainWords, count: u32) {
    for _ in 0..count {
        P::once(words);
    }
}

/// Nanoseconds of one of so many; None where the clock can't be read.
pub fn time_plain<P: Plain, R: Runtime>(rt: &R, count: u32) -> Option<f64> {
    let words = PlainWords::new();
    let begun = Instant::now(rt).ok()?;
    repeat_plain::<P>(&words, count);
    Some(each(begun.elapsed(rt).ok()?, count))
}

/// Nanoseconds of one of so many that took so long together.
pub fn each(took: Duration, count: u32) -> f64 {
    took.as_secs_f64() * 1e9 / f64::from(count)
}

/// Takes a lock that is free: one compare-exchange.
pub fn lock(word: &AtomicU64) {
    let _ = word.compare_exchange(0, 1, SeqCst, SeqCst);
}

/// Gives a lock: one store.
pub fn give(word: &AtomicU64) {
    word.store(0, SeqCst);
}
