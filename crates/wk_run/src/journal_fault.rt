use handoff_data::{SeatNo, TaskNo};

/// Why bytes are no legal journals.
#[derive(Clone, Copy, Debug, PartialEq, Eq)]
pub enum JournalFault {
    /// They are no text of journals: the first line, from 1, that may not stand where it does.
    Text { line: u64 },
    /// The first bad entry, by its seat and its index from 0, and the lowest rule that it breaks, from 1 to 11.
    Entry { seat: SeatNo, index: u64, rule: u32 },
    /// No entry is bad, and this is the lowest task that hasn't ended.
    Unended { t: TaskNo },
}
