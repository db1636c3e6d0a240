//! The plain atomic operations that steps stand beside.
use std::sync::atomic::AtomicU64;
use std::sync::atomic::Ordering::SeqCst;
use uses_words::plain::{Plain, PlainWords, give, lock};

pub struct OneLoad;

impl Plain for OneLoad {
    fn once(words: &PlainWords) {
        words.state.load(SeqCst);
    }
}

pub struct OneStore;

impl Plain for OneStore {
    fn once(words: &PlainWords) {
        words.state.store(0, SeqCst);
    }
}

pub struct OneAdd;

impl Plain for OneAdd {
    fn once(words: &PlainWords) {
        words.busy.fetch_add(1, SeqCst);
    }
}

/// A lock taken and given.
pub struct OneLock;

impl Plain for OneLock {
    fn once(words: &PlainWords) {
        lock(&words.task_lock);
        give(&words.task_lock);
    }
}

/// A body taken out and put home.
pub struct OneBody;

impl Plain for OneBody {
    fn once(words: &PlainWords) {
        words.body.load(SeqCst);
        words.body.load(SeqCst);
        words.body.load(SeqCst);
        words.body.load(SeqCst);
    }
}

/// A task put back, and then picked.
pub struct OneTurn;

impl Plain for OneTurn {
    fn once(words: &PlainWords) {
        put_back(words);
        pick(words);
    }
}

/// A new task started.
pub struct OneStart;

impl Plain for OneStart {
    fn once(words: &PlainWords) {
        start(words);
    }
}

/// A new task started; one picked, and put back.
pub struct OneRound;

impl Plain for OneRound {
    fn once(words: &PlainWords) {
        start(words);
        pick(words);
        put_back(words);
    }
}

// The next number of a word.
fn change(word: &AtomicU64) {
    let found = word.load(SeqCst);
    let _ = word.compare_exchange(found, found.wrapping_add(1), SeqCst, SeqCst);
}

fn start(words: &PlainWords) {
    lock(&words.task_lock);
    words.state.load(SeqCst);
    words.cpu.load(SeqCst);
    words.state.store(0, SeqCst);
    lock(&words.queue_lock);
    change(&words.rq);
    give(&words.queue_lock);
    give(&words.task_lock);
}

fn pick(words: &PlainWords) {
    lock(&words.queue_lock);
    change(&words.busy);
    give(&words.queue_lock);
}

fn put_back(words: &PlainWords) {
    lock(&words.queue_lock);
    words.state.load(SeqCst);
    words.level.load(SeqCst);
    give(&words.queue_lock);
    words.busy.fetch_add(1, SeqCst);
}
