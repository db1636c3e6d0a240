//! How a worker stands in a round: what is left of its turns, and how it rests while it has no work. No clause speaks
//! of it.
use crate::shared::Shared;
use crossbeam_utils::Backoff;
use std::sync::Wait;

// The most turns of a worker in a round.
const TURNS: u32 = 4096;

/// A worker's stay in a round.
#[derive(Drop)]
pub struct Shift {
    // How many turns it may still take.
    turns: u32,
    // Whether it is counted among those awake.
    is_awake: bool,
    // How many naps in a row it took while no other was awake.
    lonely: u64,
    backoff: Backoff,
}

impl Shift {
    /// A worker comes into the round.
    pub fn begin(shared: &Shared) -> Shift {
        shared.count_awake();
        Shift {
            turns: TURNS,
            is_awake: true,
            lonely: 0,
            backoff: Backoff::new(),
        }
    }

    /// The worker leaves the round. Where memory was refused to it the round is over for all.
    pub fn end(self, shared: &Shared, refused: bool) {
        if self.is_awake {
            shared.count_asleep();
        }
        if refused {
            shared.end_round();
        }
    }

    /// Whether the worker has used up its turns.
    pub fn is_used_up(&self) -> bool {
        self.turns == 0
    }

    /// A task ran. If the worker had napped, that was worth it.
    pub fn count_turn(&mut self, shared: &Shared) {
        self.turns = self.turns.saturating_sub(1);
        if !self.is_awake {
            self.is_awake = true;
            self.lonely = 0;
            shared.count_awake();
            shared.fill_patience();
        }
    }

    /// Whether the worker goes on in this round, after a burst of each of its seats in which a task ran or none did. It
    /// goes on at once where one ran, until its turns are used up, which ends the round for all, or the round is over.
    /// Where none ran it looks again after a rest.
    pub fn goes_on<R: Wait>(&mut self, rt: &R, shared: &Shared, ran: bool) -> bool {
        if !ran {
            return self.looks_again(rt, shared);
        }
        self.backoff.reset();
        if self.is_used_up() {
            shared.end_round();
        }
        !shared.is_over()
    }

    // Whether a worker without work looks again, after a rest. Not where the round is over or no task is left; nor
    // where no other worker has been awake for so many naps that none will hand it a task in this round.
    fn looks_again<R: Wait>(&mut self, rt: &R, shared: &Shared) -> bool {
        if shared.is_over() || shared.is_done() {
            return false;
        }
        if shared.awake() > self.is_awake as u64 {
            self.lonely = 0;
        } else if self.lonely >= shared.patience() {
            shared.halve_patience(self.lonely);
            return false;
        }
        self.rest(rt, shared);
        true
    }

    // It pauses for longer from look to look, then yields its processor, and after eleven looks naps, so that a task
    // that another worker hands it is found soon, and an idle worker burns no processor.
    fn rest<R: Wait>(&mut self, rt: &R, shared: &Shared) {
        if !self.backoff.is_completed() {
            self.backoff.snooze();
            return;
        }
        if self.is_awake {
            self.is_awake = false;
            shared.count_asleep();
        }
        self.lonely = self.lonely.saturating_add(1);
        shared.nap(rt);
    }
}
