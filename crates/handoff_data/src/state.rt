//! A task's state, after Linux 6.6 `include/linux/sched.h`.

ghost use Rattle.std.specs.Prelude.{◌≡◌, ◌↔◌, IsTrue};
ghost use Rattle.handoff_data.specs.State.{Matches};

/// The state bits of a task, as in the word `__state` of Linux's `struct task_struct` (`include/linux/sched.h`).
#[derive(Clone, Copy, Debug, PartialEq, Eq, PartialOrd, Ord, Hash)]
pub struct State(pub u16);

impl State {
    /// Running, or ready to run.
    pub const TASK_RUNNING: State = State(0x0);
    /// Asleep, and woken by a signal.
    pub const TASK_INTERRUPTIBLE: State = State(0x1);
    /// Asleep, and not woken by a signal.
    pub const TASK_UNINTERRUPTIBLE: State = State(0x2);
    /// Ended for good.
    pub const TASK_DEAD: State = State(0x80);
    /// Woken by a kill.
    pub const TASK_WAKEKILL: State = State(0x100);
    /// Claimed by a waker, and not yet queued.
    pub const TASK_WAKING: State = State(0x200);
    /// Not yet started.
    pub const TASK_NEW: State = State(0x800);
    /// The sleeps that a usual wake ends.
    pub const TASK_NORMAL: State = State(0x3);
    /// Asleep, and woken by a kill alone.
    pub const TASK_KILLABLE: State = State(0x102);
}

/// Whether a wake with this mask matches a task in this state: they have a bit in common.
/// After `ttwu_state_match` of Linux 6.6 `kernel/sched/core.c`.
pub fn matches(state: State, mask: State) -> bool
    ensures { IsTrue result ↔ Matches state mask }
{
    state.0 & mask.0 != 0
}
