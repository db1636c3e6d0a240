//! What the workers of a run share beside the table.
use crossbeam_utils::CachePadded;
use std::sync::Wait;
use std::sync::atomic::{AtomicU64, Ordering};
use std::time::Duration;

// How long a worker without work sleeps between two looks.
const NAP_MICROS: u64 = 50;

// How many naps in a row a worker takes at first where no other is awake.
const PATIENCE: u64 = 8;

// After how many rounds patience is full again, whatever was learnt.
const ROUNDS: u64 = 1024;

/// What the workers of a run share beside the table: when a round is over, and who is awake. No clause rests on it: it
/// only ends rounds. Each word has cache lines of its own, since all workers look at them.
#[derive(Drop)]
pub struct Shared {
    // How many tasks haven't died.
    left: CachePadded<AtomicU64>,
    // 1 once the round is over: a worker has used up its turns, no task is left, or memory is refused.
    over: CachePadded<AtomicU64>,
    // How many workers are in the round and don't nap.
    awake: CachePadded<AtomicU64>,
    // How many naps in a row a worker takes while no other is awake. A wait in vain halves it, one that was worth it
    // makes it full.
    patience: CachePadded<AtomicU64>,
    // How many rounds there were.
    rounds: CachePadded<AtomicU64>,
}

fn word(x: u64) -> CachePadded<AtomicU64> {
    CachePadded::new(AtomicU64::new(x))
}

impl Shared {
    /// For a run of so many tasks, none of which has died.
    pub fn new(tasks: u32) -> Shared {
        Shared {
            left: word(tasks as u64),
            over: word(0),
            awake: word(0),
            patience: word(PATIENCE),
            rounds: word(0),
        }
    }

    /// A round begins: no worker is in it.
    pub fn begin_round(&self) {
        self.over.store(0, Ordering::SeqCst);
        self.awake.store(0, Ordering::SeqCst);
        // Threads that could be made only later are found out.
        if self.rounds.fetch_add(1, Ordering::SeqCst) % ROUNDS == 0 {
            self.fill_patience();
        }
    }

    /// The round is over: each worker leaves it at its next look.
    pub fn end_round(&self) {
        self.over.store(1, Ordering::SeqCst);
        self.over.wake_all();
    }

    /// Whether the round is over.
    pub fn is_over(&self) -> bool {
        self.over.load(Ordering::SeqCst) != 0
    }

    /// Whether each task has died.
    pub fn is_done(&self) -> bool {
        self.left.load(Ordering::SeqCst) == 0
    }

    /// A task has died. With the last one the round is over.
    pub fn count_death(&self) {
        if self.left.fetch_sub(1, Ordering::SeqCst) == 1 {
            self.end_round();
        }
    }

    /// A worker comes into the round, or is awake again.
    pub fn count_awake(&self) {
        self.awake.fetch_add(1, Ordering::SeqCst);
    }

    /// A worker that was awake naps, or leaves the round.
    pub fn count_asleep(&self) {
        self.awake.fetch_sub(1, Ordering::SeqCst);
    }

    /// How many workers are awake.
    pub fn awake(&self) -> u64 {
        self.awake.load(Ordering::SeqCst)
    }

    /// How many naps in a row a worker takes while no other is awake.
    pub fn patience(&self) -> u64 {
        self.patience.load(Ordering::SeqCst)
    }

    /// So many naps were in vain.
    pub fn halve_patience(&self, naps: u64) {
        self.patience.store(naps / 2, Ordering::SeqCst);
    }

    /// A wait was worth it.
    pub fn fill_patience(&self) {
        self.patience.store(PATIENCE, Ordering::SeqCst);
    }

    /// Sleeps for a while, unless the round is over or as soon as it is.
    pub fn nap<R: Wait>(&self, rt: &R) {
        self.over
            .park_timeout(rt, 0, Duration::from_micros(NAP_MICROS));
    }
}
