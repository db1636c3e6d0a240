//! Loads: what is there stays, and the seat has read it.
use word_table::Kind;

/// A load of a task's state, to be held against no mask.
pub struct LoadState;

impl Kind for LoadState {
    ghost use Rattle.std.specs.Prelude.{◌≡◌, None, refl};
    ghost use Rattle.std.proofs.Common.{lit<};
    ghost use Rattle.word_kinds.specs.Rows.{tasks_rows};
    ghost use Rattle.word_rule.proofs.LoadLaws.{load_state_law, load_state_is_event};
    ghost use Rattle.word_rule.specs.Own.{StateTold};
    ghost use Rattle.word_steps.specs.Records.{LoadedState};
    ghost use Rattle.word_steps.specs.Words.{STATE};

    ghost col = { STATE };

    ghost bound = { λ shape. shape.tasks };

    ghost note = { λ s trace t y x. LoadedState t None (record { 0 = x }) };

    ghost may = { λ shape s trace t x y. y ≡ x };

    ghost told = { λ shape s trace t x. StateTold s trace t x };

    ghost low = { lit< tt };

    ghost rows = { tasks_rows };

    ghost quiet = { λ s trace t y x. record { task = refl; queue = refl; works = refl; wait = refl; body = refl } };

    ghost event = { load_state_is_event };

    ghost keep = { load_state_law };

    fn column() -> usize {
        word_table::STATE
    }
}

/// A load of a task's queue word.
pub struct LoadRq;

impl Kind for LoadRq {
    ghost use Rattle.std.specs.Prelude.{◌≡◌, ◌≢◌, ◌/◌, ◌%◌, true, IsSome, refl};
    ghost use Rattle.std.proofs.Common.{lit<};
    ghost use Rattle.word_kinds.specs.Rows.{tasks_rows};
    ghost use Rattle.word_rule.proofs.LoadLaws.{load_rq_law, load_rq_is_event};
    ghost use Rattle.word_steps.specs.Folds.{task_held, has_matched};
    ghost use Rattle.word_steps.specs.Records.{LoadedRq};
    ghost use Rattle.word_steps.specs.Words.{RQ};

    ghost col = { RQ };

    ghost bound = { λ shape. shape.tasks };

    ghost note = { λ s trace t y x. LoadedRq t (x % 4) (x / 4) };

    ghost may = { λ shape s trace t x y. y ≡ x };

    // A task that matched since the seat took its lock was queued before.
    ghost told = { λ shape s trace t x. IsSome (task_held trace t) → has_matched trace t ≡ true → x / 4 ≢ 0 };

    ghost low = { lit< tt };

    ghost rows = { tasks_rows };

    ghost quiet = { λ s trace t y x. record { task = refl; queue = refl; works = refl; wait = refl; body = refl } };

    ghost event = { load_rq_is_event };

    ghost keep = { load_rq_law };

    fn column() -> usize {
        word_table::RQ
    }
}

/// A load of a task's busy word.
pub struct LoadBusy;

impl Kind for LoadBusy {
    ghost use Rattle.std.specs.Prelude.{◌≡◌, ◌/◌, refl};
    ghost use Rattle.std.proofs.Common.{lit<};
    ghost use Rattle.word_kinds.specs.Rows.{tasks_rows};
    ghost use Rattle.word_rule.proofs.LoadLaws.{load_busy_law, load_busy_is_event};
    ghost use Rattle.word_steps.specs.Records.{LoadedBusy};
    ghost use Rattle.word_steps.specs.Words.{BUSY, is_set};

    ghost col = { BUSY };

    ghost bound = { λ shape. shape.tasks };

    ghost note = { λ s trace t y x. LoadedBusy t (is_set x) (x / 2) };

    ghost may = { λ shape s trace t x y. y ≡ x };

    ghost told = { λ shape s trace t x. Unit {0} };

    ghost low = { lit< tt };

    ghost rows = { tasks_rows };

    ghost quiet = { λ s trace t y x. record { task = refl; queue = refl; works = refl; wait = refl; body = refl } };

    ghost event = { load_busy_is_event };

    ghost keep = { load_busy_law };

    fn column() -> usize {
        word_table::BUSY
    }
}

/// A load of a task's processor.
pub struct LoadCpu;

impl Kind for LoadCpu {
    ghost use Rattle.std.specs.Prelude.{◌≡◌, ◌<◌, refl};
    ghost use Rattle.std.proofs.Common.{lit<};
    ghost use Rattle.word_kinds.specs.Rows.{tasks_rows};
    ghost use Rattle.word_rule.proofs.LoadLaws.{load_cpu_law, load_cpu_is_event};
    ghost use Rattle.word_steps.specs.Records.{LoadedCpu};
    ghost use Rattle.word_steps.specs.Words.{CPU};

    ghost col = { CPU };

    ghost bound = { λ shape. shape.tasks };

    ghost note = { λ s trace t y x. LoadedCpu t x };

    ghost may = { λ shape s trace t x y. y ≡ x };

    ghost told = { λ shape s trace t x. x < shape.cpus };

    ghost low = { lit< tt };

    ghost rows = { tasks_rows };

    ghost quiet = { λ s trace t y x. record { task = refl; queue = refl; works = refl; wait = refl; body = refl } };

    ghost event = { load_cpu_is_event };

    ghost keep = { load_cpu_law };

    fn column() -> usize {
        word_table::CPU
    }
}

/// A load of a task's migrate-disable level.
pub struct LoadCount;

impl Kind for LoadCount {
    ghost use Rattle.std.specs.Prelude.{◌≡◌, refl};
    ghost use Rattle.std.proofs.Common.{lit<};
    ghost use Rattle.word_kinds.specs.Rows.{tasks_rows};
    ghost use Rattle.word_rule.proofs.LoadLaws.{load_count_law, load_count_is_event};
    ghost use Rattle.word_steps.specs.Records.{LoadedCount};
    ghost use Rattle.word_steps.specs.Words.{COUNT};

    ghost col = { COUNT };

    ghost bound = { λ shape. shape.tasks };

    ghost note = { λ s trace t y x. LoadedCount t x };

    ghost may = { λ shape s trace t x y. y ≡ x };

    // No step stores a level, so each is 0.
    ghost told = { λ shape s trace t x. x ≡ 0 };

    ghost low = { lit< tt };

    ghost rows = { tasks_rows };

    ghost quiet = { λ s trace t y x. record { task = refl; queue = refl; works = refl; wait = refl; body = refl } };

    ghost event = { load_count_is_event };

    ghost keep = { load_count_law };

    fn column() -> usize {
        word_table::COUNT
    }
}

/// A load of a condition's counter.
pub struct LoadCond;

impl Kind for LoadCond {
    ghost use Rattle.std.specs.Prelude.{◌≡◌, refl};
    ghost use Rattle.std.proofs.Common.{lit<};
    ghost use Rattle.word_kinds.specs.Rows.{conds_rows};
    ghost use Rattle.word_rule.proofs.LoadLaws.{load_cond_law, load_cond_is_event};
    ghost use Rattle.word_steps.specs.Records.{LoadedCond};
    ghost use Rattle.word_steps.specs.Words.{COND};

    ghost col = { COND };

    ghost bound = { λ shape. shape.conds };

    ghost note = { λ s trace k y x. LoadedCond k x };

    ghost may = { λ shape s trace k x y. y ≡ x };

    ghost told = { λ shape s trace k x. Unit {0} };

    ghost low = { lit< tt };

    ghost rows = { conds_rows };

    ghost quiet = { λ s trace k y x. record { task = refl; queue = refl; works = refl; wait = refl; body = refl } };

    ghost event = { load_cond_is_event };

    ghost keep = { load_cond_law };

    fn column() -> usize {
        word_table::COND
    }
}
