//! Loads of a task's state that are held against a mask. What a step tells can't be given a number, so each mask is a
//! type.
ghost use Rattle.std.specs.Prelude.{ℕ, Some};
ghost use Rattle.core_kinds.specs.Waking.{IsMask};

use std::marker::PhantomData;
use word_table::Kind;

/// A mask of a wake-up: it has bits of TASK_NORMAL and TASK_WAKEKILL alone.
pub trait Mask {
    ghost bits: { ℕ };

    ghost allowed: { IsMask (Some (record { 0 = bits })) };
}

/// A load of a task's state, to be held against the mask.
pub struct MatchState<M> {
    mask: PhantomData<M>,
}

impl<M: Mask> Kind for MatchState<M> {
    ghost use Rattle.std.specs.Prelude.{◌≡◌, Some, refl};
    ghost use Rattle.std.proofs.Common.{lit<};
    ghost use Rattle.word_kinds.specs.Rows.{tasks_rows};
    ghost use Rattle.word_rule.proofs.LoadLaws.{load_masked_law, load_masked_is_event};
    ghost use Rattle.word_rule.specs.Own.{StateTold};
    ghost use Rattle.word_steps.specs.Records.{LoadedState};
    ghost use Rattle.word_steps.specs.Words.{STATE};

    ghost col = { STATE };

    ghost bound = { λ shape. shape.tasks };

    ghost note = { λ s trace t y x. LoadedState t (Some (record { 0 = M.bits })) (record { 0 = x }) };

    ghost may = { λ shape s trace t x y. y ≡ x };

    ghost told = { λ shape s trace t x. StateTold s trace t x };

    ghost low = { lit< tt };

    ghost rows = { tasks_rows };

    ghost quiet = { λ s trace t y x. record { task = refl; queue = refl; works = refl; wait = refl; body = refl } };

    ghost event = { load_masked_is_event (record { 0 = M.bits }) M.allowed };

    ghost keep = { load_masked_law (record { 0 = M.bits }) M.allowed };

    fn column() -> usize {
        word_table::STATE
    }
}

/// No bit at all.
pub struct NoBits;

impl Mask for NoBits {
    ghost use Rattle.std.specs.Prelude.{refl};

    ghost bits = { 0 };

    ghost allowed = { refl };
}

/// TASK_INTERRUPTIBLE.
pub struct Interruptible;

impl Mask for Interruptible {
    ghost use Rattle.std.specs.Prelude.{refl};

    ghost bits = { 1 };

    ghost allowed = { refl };
}

/// TASK_UNINTERRUPTIBLE.
pub struct Uninterruptible;

impl Mask for Uninterruptible {
    ghost use Rattle.std.specs.Prelude.{refl};

    ghost bits = { 2 };

    ghost allowed = { refl };
}

/// TASK_NORMAL.
pub struct Normal;

impl Mask for Normal {
    ghost use Rattle.std.specs.Prelude.{refl};

    ghost bits = { 3 };

    ghost allowed = { refl };
}

/// TASK_WAKEKILL.
pub struct WakeKill;

impl Mask for WakeKill {
    ghost use Rattle.std.specs.Prelude.{refl};

    ghost bits = { 0x100 };

    ghost allowed = { refl };
}

/// TASK_INTERRUPTIBLE and TASK_WAKEKILL.
pub struct InterruptibleKill;

impl Mask for InterruptibleKill {
    ghost use Rattle.std.specs.Prelude.{refl};

    ghost bits = { 0x101 };

    ghost allowed = { refl };
}

/// TASK_KILLABLE: TASK_UNINTERRUPTIBLE and TASK_WAKEKILL.
pub struct Killable;

impl Mask for Killable {
    ghost use Rattle.std.specs.Prelude.{refl};

    ghost bits = { 0x102 };

    ghost allowed = { refl };
}

/// TASK_NORMAL and TASK_WAKEKILL.
pub struct NormalKill;

impl Mask for NormalKill {
    ghost use Rattle.std.specs.Prelude.{refl};

    ghost bits = { 0x103 };

    ghost allowed = { refl };
}
