ghost use Rattle.std.specs.Prelude.{◌≡◌, ℕ, Bool, Option, None, IsTrue, unwrap_or};
ghost use Rattle.handoff_data.specs.declared.mask.CpuMask.{CpuMask};
ghost use Rattle.handoff_data.specs.Mask.{HasCpu};
ghost use Rattle.place_pick.specs.Placement.{IsAllowed, HasAllowed, IsSelected, IsPlaced};

/// A task is put on one processor, with one mask. It keeps its mask where some processor is allowed, and then goes to
/// one of them. In any case it may be put there by the mask that it then has, where each active processor is possible
/// and it is not migration-disabled without a processor. A law: the call does nothing.
pub fn law_placement()
    ensures one_selected { (prev : ℕ) (cpus_ptr : CpuMask) (disabled : Bool) (active online : CpuMask) (c other : ℕ)
        → IsSelected prev cpus_ptr disabled active online c → IsSelected prev cpus_ptr disabled active online other
        → other ≡ c }
    ensures one_place { (prev : ℕ) (cpus_ptr : CpuMask) (disabled : Bool) (active online possible : CpuMask)
        (c other : ℕ) (widened other_widened : Option CpuMask)
        → IsPlaced prev cpus_ptr disabled active online possible c widened
        → IsPlaced prev cpus_ptr disabled active online possible other other_widened
        → (other ≡ c) × (other_widened ≡ widened) }
    ensures kept { (prev : ℕ) (cpus_ptr : CpuMask) (disabled : Bool) (active online possible : CpuMask)
        (c : ℕ) (widened : Option CpuMask) → HasAllowed cpus_ptr disabled active online
        → IsPlaced prev cpus_ptr disabled active online possible c widened
        → (widened ≡ None) × IsAllowed c cpus_ptr disabled active online }
    ensures allowed_after { (prev : ℕ) (cpus_ptr : CpuMask) (disabled : Bool) (active online possible : CpuMask)
        (c : ℕ) (widened : Option CpuMask) → ((k : ℕ) → HasCpu active k → HasCpu possible k)
        → (IsTrue disabled → HasAllowed cpus_ptr disabled active online)
        → IsPlaced prev cpus_ptr disabled active online possible c widened
        → IsAllowed c (unwrap_or widened cpus_ptr) disabled active online }
{}
