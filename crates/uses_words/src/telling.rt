//! What a journal is told.

use handoff_data::{Journal, NoMemory};
use task_words::Turn;

/// Adds the entries of a turn, the first 64 of them, to a journal; NoMemory where it can't grow.
pub fn tell(turn: &Turn, journal: &mut Journal) -> Result<(), NoMemory> {
    for i in 0..64 {
        if let Some(entry) = turn.get(i) {
            journal.push(entry)?;
        }
    }
    Ok(())
}
