//! The queue word and the busy word, each with its next number.
use word_table::Kind;

/// `on_rq` to 1: the task is queued.
pub struct QueueTask;

impl Kind for QueueTask {
    ghost use Rattle.std.specs.Prelude.{refl};
    ghost use Rattle.std.proofs.Common.{lit<};
    ghost use Rattle.word_kinds.specs.Rows.{tasks_rows};
    ghost use Rattle.word_rule.proofs.QueueLaws.{queue_law, queue_is_event};
    ghost use Rattle.word_rule.specs.May.{MayQueueWord, cpu_read_of, number_of, on_of};
    ghost use Rattle.word_steps.specs.Records.{Queued};
    ghost use Rattle.word_steps.specs.Words.{RQ};

    ghost col = { RQ };

    ghost bound = { λ shape. shape.tasks };

    ghost note = { λ s trace t y x. Queued t (cpu_read_of trace t) (on_of trace t) (number_of trace t) };

    ghost may = { λ shape s trace t x y. MayQueueWord s trace t x y };

    ghost told = { λ shape s trace t x. Unit {0} };

    ghost low = { lit< tt };

    ghost rows = { tasks_rows };

    ghost quiet = { λ s trace t y x. record { task = refl; queue = refl; works = refl; wait = refl; body = refl } };

    ghost event = { queue_is_event };

    ghost keep = { queue_law };

    fn column() -> usize {
        word_table::RQ
    }
}

/// `on_rq` to 0: the seat's current task sleeps or dies.
pub struct DequeueTask;

impl Kind for DequeueTask {
    ghost use Rattle.std.specs.Prelude.{◌/◌, refl};
    ghost use Rattle.std.proofs.Common.{lit<};
    ghost use Rattle.word_kinds.specs.Rows.{tasks_rows};
    ghost use Rattle.word_rule.proofs.QueueLaws.{dequeue_law, dequeue_is_event};
    ghost use Rattle.word_rule.specs.May.{MayDequeueWord};
    ghost use Rattle.word_steps.specs.Records.{Dequeued};
    ghost use Rattle.word_steps.specs.Words.{RQ};

    ghost col = { RQ };

    ghost bound = { λ shape. shape.tasks };

    ghost note = { λ s trace t y x. Dequeued t s (x / 4) };

    ghost may = { λ shape s trace t x y. MayDequeueWord s trace t x y };

    ghost told = { λ shape s trace t x. Unit {0} };

    ghost low = { lit< tt };

    ghost rows = { tasks_rows };

    ghost quiet = { λ s trace t y x. record { task = refl; queue = refl; works = refl; wait = refl; body = refl } };

    ghost event = { dequeue_is_event };

    ghost keep = { dequeue_law };

    fn column() -> usize {
        word_table::RQ
    }
}

/// `on_rq` to 2: a waiting task is taken out to be moved.
pub struct MoveTask;

impl Kind for MoveTask {
    ghost use Rattle.std.specs.Prelude.{◌/◌, refl};
    ghost use Rattle.std.proofs.Common.{lit<};
    ghost use Rattle.word_kinds.specs.Rows.{tasks_rows};
    ghost use Rattle.word_rule.proofs.QueueLaws.{move_law, move_is_event};
    ghost use Rattle.word_rule.specs.May.{MayMoveWord, cpu_read_of};
    ghost use Rattle.word_steps.specs.Records.{Moved};
    ghost use Rattle.word_steps.specs.Words.{RQ};

    ghost col = { RQ };

    ghost bound = { λ shape. shape.tasks };

    ghost note = { λ s trace t y x. Moved t (cpu_read_of trace t) (x / 4) };

    ghost may = { λ shape s trace t x y. MayMoveWord s trace t x y };

    ghost told = { λ shape s trace t x. Unit {0} };

    ghost low = { lit< tt };

    ghost rows = { tasks_rows };

    ghost quiet = { λ s trace t y x. record { task = refl; queue = refl; works = refl; wait = refl; body = refl } };

    ghost event = { move_is_event };

    ghost keep = { move_law };

    fn column() -> usize {
        word_table::RQ
    }
}

/// The busy word is set: the task runs.
pub struct SetBusy;

impl Kind for SetBusy {
    ghost use Rattle.std.specs.Prelude.{◌/◌, refl};
    ghost use Rattle.std.proofs.Common.{lit<};
    ghost use Rattle.word_kinds.specs.Rows.{tasks_rows};
    ghost use Rattle.word_rule.proofs.StoreLaws.{set_busy_law, set_busy_is_event};
    ghost use Rattle.word_rule.specs.May.{MaySetBusyWord};
    ghost use Rattle.word_steps.specs.Records.{SetBusy};
    ghost use Rattle.word_steps.specs.Words.{BUSY};

    ghost col = { BUSY };

    ghost bound = { λ shape. shape.tasks };

    ghost note = { λ s trace t y x. SetBusy t s (x / 2) };

    ghost may = { λ shape s trace t x y. MaySetBusyWord s trace t x y };

    ghost told = { λ shape s trace t x. Unit {0} };

    ghost low = { lit< tt };

    ghost rows = { tasks_rows };

    ghost quiet = { λ s trace t y x. record { task = refl; queue = refl; works = refl; wait = refl; body = refl } };

    ghost event = { set_busy_is_event };

    ghost keep = { set_busy_law };

    fn column() -> usize {
        word_table::BUSY
    }
}

/// The busy word is cleared: the task has been switched out.
pub struct ClearBusy;

impl Kind for ClearBusy {
    ghost use Rattle.std.specs.Prelude.{◌≡◌, ◌/◌, ◌%◌, ◌<◌, ◌^◌, refl};
    ghost use Rattle.std.proofs.Common.{lit<};
    ghost use Rattle.word_kinds.specs.Rows.{tasks_rows};
    ghost use Rattle.word_rule.proofs.StoreLaws.{clear_busy_law, clear_busy_is_event};
    ghost use Rattle.word_rule.specs.May.{MayClearBusyWord};
    ghost use Rattle.word_steps.specs.Records.{ClearedBusy};
    ghost use Rattle.word_steps.specs.Words.{BUSY};

    ghost col = { BUSY };

    ghost bound = { λ shape. shape.tasks };

    ghost note = { λ s trace t y x. ClearedBusy t (x / 2) };

    ghost may = { λ shape s trace t x y. MayClearBusyWord s trace t x y };

    ghost told = { λ shape s trace t x. (x % 2 ≡ 1) × (x / 2 < 2 ^ 60) };

    ghost low = { lit< tt };

    ghost rows = { tasks_rows };

    ghost quiet = { λ s trace t y x. record { task = refl; queue = refl; works = refl; wait = refl; body = refl } };

    ghost event = { clear_busy_is_event };

    ghost keep = { clear_busy_law };

    fn column() -> usize {
        word_table::BUSY
    }
}
