//! Where a task is put when it is woken: whether a processor is allowed, which one is selected, and the fallback
//! where none is allowed. Pure, and without memory.
//!
//! `placement.rt` has the three calls, `law.rt` the law on their definitions. The calls above cite `IsAllowed` and
//! `IsPlaced` of `specs/Placement`, and no more.
#![tactic(auto)]

mod law;
mod placement;

pub use handoff_data::{CpuMask, CpuNo};
pub use law::law_placement;
pub use placement::{allowed, fallback, select};

#[cfg(test)]
mod tests;
