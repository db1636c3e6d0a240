use handoff_data::{SeatNo, TaskNo};

/// Whether journals are one legal history, or their first fault.
#[derive(Clone, Copy, Debug, PartialEq, Eq)]
pub enum Verdict {
    /// No entry breaks a rule, and each task has ended.
    Legal,
    /// The first bad entry: in the journal of the lowest seat that has one, the lowest index from 0. Of the rules that
    /// it breaks this is the lowest, a number from 1 to 11.
    FirstBad { seat: SeatNo, index: u64, rule: u32 },
    /// No entry breaks a rule, and this is the lowest task that hasn't ended.
    Unended { t: TaskNo },
}
