//! A set of processors.

ghost use Rattle.std.specs.Prelude.{◌≡◌, ◌<◌, ◌≤◌, ◌⊎◌, ◌↔◌, ℕ, IsTrue, IfSome, IsNone};
ghost use Rattle.handoff_data.specs.Mask.{HasCpu, IsEmpty, has_cpu, mask_with, no_cpus};

use crate::numbers::CpuNo;

/// A set of processors, whose numbers are below 16. It takes no memory. After Linux's `cpumask_t`
/// (`include/linux/cpumask.h`).
#[derive(Clone, Copy, Debug, PartialEq, Eq, PartialOrd, Ord)]
pub struct CpuMask {
    bits: u128,
}

impl CpuMask {
    /// The set of one processor.
    pub fn of(c: CpuNo) -> CpuMask
        requires { c < 16 }
        ensures { (k : ℕ) → HasCpu result k ↔ (k ≡ c) }
    {
        CpuMask { bits: 1 << c }
    }

    /// The set of no processor.
    pub fn none() -> CpuMask
        ensures members { IsEmpty result }
        ensures exact { result ≡ no_cpus }
    {
        CpuMask { bits: 0 }
    }

    /// The set of the processors below `cpus`.
    pub fn all(cpus: u32) -> CpuMask
        requires { cpus ≤ 16 }
        ensures { (k : ℕ) → HasCpu result k ↔ (k < cpus) }
    {
        CpuMask {
            bits: (1 << cpus) - 1,
        }
    }

    /// Whether the processor is in the set.
    pub fn contains(&self, c: CpuNo) -> bool
        ensures member { IsTrue result ↔ HasCpu self.now c }
        ensures value { result ≡ has_cpu self.now c }
    {
        let bits = self.bits;
        c < 128 && (bits >> c) & 1 == 1
    }

    /// A number that is above each processor of the set.
    pub fn limit(&self) -> u32
        ensures { (k : ℕ) → HasCpu self.now k → k < result }
    {
        // A number behind a reference has its range once it is read: no processor is 128 or more.
        let _bits = self.bits;
        128
    }

    /// The lowest processor of the set.
    pub fn lowest(&self) -> Option<CpuNo>
        ensures none { IsNone result ↔ IsEmpty self.now }
        ensures member { IfSome result (HasCpu self.now) }
        ensures lowest { IfSome result (λ c. (k : ℕ) → HasCpu self.now k → c ≤ k) }
    {
        if self.bits == 0 {
            None
        } else {
            Some(self.bits.trailing_zeros())
        }
    }

    /// The processors that are in both sets.
    pub fn and(&self, other: &CpuMask) -> CpuMask
        ensures { (k : ℕ) → HasCpu result k ↔ (HasCpu self.now k × HasCpu other.now k) }
    {
        CpuMask {
            bits: self.bits & other.bits,
        }
    }

    /// The set with this processor added.
    pub fn with(&self, c: CpuNo) -> CpuMask
        requires { c < 16 }
        ensures members { (k : ℕ) → HasCpu result k ↔ (HasCpu self.now k ⊎ (k ≡ c)) }
        ensures exact { result ≡ mask_with self.now c }
    {
        CpuMask {
            bits: self.bits | 1 << c,
        }
    }

    /// Whether no processor is in the set.
    pub fn is_empty(&self) -> bool
        ensures { IsTrue result ↔ IsEmpty self.now }
    {
        self.bits == 0
    }
}
