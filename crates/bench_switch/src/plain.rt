//! The plain atomic operations of each kind of switch, in their order, on words of their own. A lock taken is one
//! compare-exchange, and a lock given one store.
use std::sync::atomic::AtomicU64;
use std::sync::atomic::Ordering::SeqCst;

/// Words like those of one task, of its processor, and of one condition.
#[derive(Drop)]
pub struct PlainWords {
    state: AtomicU64,
    level: AtomicU64,
    rq: AtomicU64,
    busy: AtomicU64,
    queue_lock: AtomicU64,
    wait_lock: AtomicU64,
    cond: AtomicU64,
}

impl PlainWords {
    pub fn new() -> PlainWords {
        PlainWords {
            state: AtomicU64::new(0),
            level: AtomicU64::new(0),
            rq: AtomicU64::new(0),
            busy: AtomicU64::new(0),
            queue_lock: AtomicU64::new(0),
            wait_lock: AtomicU64::new(0),
            cond: AtomicU64::new(0),
        }
    }
}

/// The operations of one switch.
pub trait Plain {
    fn once(words: &PlainWords);
}

/// Makes them so many times. A call that stands alone: else the compiler sees that no other thread has the words, and
/// leaves stores and loads out.
#[inline(never)]
pub fn repeat_plain<P: Plain>(words: &PlainWords, count: u32) {
    for _ in 0..count {
        P::once(words);
    }
}

/// Of a task that is put back, and of another that is picked.
pub struct Another;

impl Plain for Another {
    fn once(words: &PlainWords) {
        lock(&words.queue_lock);
        words.state.load(SeqCst);
        words.level.load(SeqCst);
        give(&words.queue_lock);
        words.busy.fetch_add(1, SeqCst);
        pick(words);
    }
}

/// Of a task that stays.
pub struct Same;

impl Plain for Same {
    fn once(words: &PlainWords) {
        lock(&words.queue_lock);
        words.state.load(SeqCst);
        words.level.load(SeqCst);
        give(&words.queue_lock);
    }
}

/// Of an empty queue: its lock taken and given.
pub struct Idle;

impl Plain for Idle {
    fn once(words: &PlainWords) {
        lock(&words.queue_lock);
        give(&words.queue_lock);
    }
}

/// Of a task that is picked and sleeps at a condition.
pub struct Sleep;

impl Plain for Sleep {
    fn once(words: &PlainWords) {
        pick(words);
        lock(&words.wait_lock);
        words.state.store(1, SeqCst);
        give(&words.wait_lock);
        words.cond.load(SeqCst);
        lock(&words.queue_lock);
        words.state.load(SeqCst);
        words.level.load(SeqCst);
        raise(&words.rq, 4);
        give(&words.queue_lock);
        words.busy.fetch_add(1, SeqCst);
    }
}

fn pick(words: &PlainWords) {
    lock(&words.queue_lock);
    raise(&words.busy, 1);
    give(&words.queue_lock);
}

// Changes a word that has been read.
fn raise(word: &AtomicU64, by: u64) {
    let seen = word.load(SeqCst);
    let _ = word.compare_exchange(seen, seen.wrapping_add(by), SeqCst, SeqCst);
}

// Takes a lock, that is free.
fn lock(word: &AtomicU64) {
    let _ = word.compare_exchange(0, 1, SeqCst, SeqCst);
}

fn give(word: &AtomicU64) {
    word.store(0, SeqCst);
}
