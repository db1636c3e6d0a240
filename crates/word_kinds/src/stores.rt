//! Stores and fetches.
use word_table::Kind;

/// The state of the seat's own current task.
pub struct SetState;

impl Kind for SetState {
    ghost use Rattle.std.specs.Prelude.{refl};
    ghost use Rattle.std.proofs.Common.{lit<};
    ghost use Rattle.word_kinds.specs.Rows.{tasks_rows};
    ghost use Rattle.word_rule.proofs.StoreLaws.{set_state_law, set_state_is_event};
    ghost use Rattle.word_rule.specs.May.{MaySetStateWord};
    ghost use Rattle.word_steps.specs.Records.{StateSet};
    ghost use Rattle.word_steps.specs.Words.{STATE};

    ghost col = { STATE };

    ghost bound = { λ shape. shape.tasks };

    ghost note = { λ s trace t y x. StateSet t (record { 0 = y }) };

    ghost may = { λ shape s trace t x y. MaySetStateWord s trace t x y };

    ghost told = { λ shape s trace t x. Unit {0} };

    ghost low = { lit< tt };

    ghost rows = { tasks_rows };

    ghost quiet = { λ s trace t y x. record { task = refl; queue = refl; works = refl; wait = refl; body = refl } };

    ghost event = { set_state_is_event };

    ghost keep = { set_state_law };

    fn column() -> usize {
        word_table::STATE
    }
}

/// TASK_WAKING.
pub struct ClaimTask;

impl Kind for ClaimTask {
    ghost use Rattle.std.specs.Prelude.{refl};
    ghost use Rattle.std.proofs.Common.{lit<};
    ghost use Rattle.word_kinds.specs.Rows.{tasks_rows};
    ghost use Rattle.word_rule.proofs.StoreLaws.{claim_law, claim_is_event};
    ghost use Rattle.word_rule.specs.May.{MayClaimWord, number_of};
    ghost use Rattle.word_steps.specs.Records.{Claimed};
    ghost use Rattle.word_steps.specs.Words.{STATE};

    ghost col = { STATE };

    ghost bound = { λ shape. shape.tasks };

    ghost note = { λ s trace t y x. Claimed t (number_of trace t) };

    ghost may = { λ shape s trace t x y. MayClaimWord s trace t x y };

    ghost told = { λ shape s trace t x. Unit {0} };

    ghost low = { lit< tt };

    ghost rows = { tasks_rows };

    ghost quiet = { λ s trace t y x. record { task = refl; queue = refl; works = refl; wait = refl; body = refl } };

    ghost event = { claim_is_event };

    ghost keep = { claim_law };

    fn column() -> usize {
        word_table::STATE
    }
}

/// TASK_RUNNING, of a task that the seat starts or wakes.
pub struct MakeRunnable;

impl Kind for MakeRunnable {
    ghost use Rattle.std.specs.Prelude.{refl};
    ghost use Rattle.std.proofs.Common.{lit<};
    ghost use Rattle.word_kinds.specs.Rows.{tasks_rows};
    ghost use Rattle.word_rule.proofs.StoreLaws.{make_runnable_law, make_runnable_is_event};
    ghost use Rattle.word_rule.specs.May.{MayMakeRunnableWord};
    ghost use Rattle.word_steps.specs.Records.{MadeRunnable};
    ghost use Rattle.word_steps.specs.Words.{STATE};

    ghost col = { STATE };

    ghost bound = { λ shape. shape.tasks };

    ghost note = { λ s trace t y x. MadeRunnable t };

    ghost may = { λ shape s trace t x y. MayMakeRunnableWord s trace t x y };

    ghost told = { λ shape s trace t x. Unit {0} };

    ghost low = { lit< tt };

    ghost rows = { tasks_rows };

    ghost quiet = { λ s trace t y x. record { task = refl; queue = refl; works = refl; wait = refl; body = refl } };

    ghost event = { make_runnable_is_event };

    ghost keep = { make_runnable_law };

    fn column() -> usize {
        word_table::STATE
    }
}

/// The processor of a task.
pub struct StoreCpu;

impl Kind for StoreCpu {
    ghost use Rattle.std.specs.Prelude.{refl};
    ghost use Rattle.std.proofs.Common.{lit<};
    ghost use Rattle.word_kinds.specs.Rows.{tasks_rows};
    ghost use Rattle.word_rule.proofs.StoreLaws.{store_cpu_law, store_cpu_is_event};
    ghost use Rattle.word_rule.specs.May.{MayCpuWord};
    ghost use Rattle.word_steps.specs.Records.{StoredCpu};
    ghost use Rattle.word_steps.specs.Words.{CPU};

    ghost col = { CPU };

    ghost bound = { λ shape. shape.tasks };

    ghost note = { λ s trace t y x. StoredCpu t y };

    ghost may = { λ shape s trace t x y. MayCpuWord s trace shape t x y };

    ghost told = { λ shape s trace t x. Unit {0} };

    ghost low = { lit< tt };

    ghost rows = { tasks_rows };

    ghost quiet = { λ s trace t y x. record { task = refl; queue = refl; works = refl; wait = refl; body = refl } };

    ghost event = { store_cpu_is_event };

    ghost keep = { store_cpu_law };

    fn column() -> usize {
        word_table::CPU
    }
}

/// A condition's counter is raised by one.
pub struct BumpCond;

impl Kind for BumpCond {
    ghost use Rattle.std.specs.Prelude.{◌≡◌, ◌+◌, ◌%◌, ◌^◌, refl};
    ghost use Rattle.std.proofs.Common.{lit<};
    ghost use Rattle.word_kinds.specs.Rows.{conds_rows};
    ghost use Rattle.word_rule.proofs.StoreLaws.{bump_law, bump_is_event};
    ghost use Rattle.word_steps.specs.Records.{Bumped};
    ghost use Rattle.word_steps.specs.Words.{COND};

    ghost col = { COND };

    ghost bound = { λ shape. shape.conds };

    ghost note = { λ s trace k y x. Bumped k x };

    ghost may = { λ shape s trace k x y. y ≡ (x + 1) % 2 ^ 64 };

    ghost told = { λ shape s trace k x. Unit {0} };

    ghost low = { lit< tt };

    ghost rows = { conds_rows };

    ghost quiet = { λ s trace k y x. record { task = refl; queue = refl; works = refl; wait = refl; body = refl } };

    ghost event = { bump_is_event };

    ghost keep = { bump_law };

    fn column() -> usize {
        word_table::COND
    }
}
