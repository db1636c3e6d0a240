use crate::held::Held;
use crate::pos::Pos;
use handoff_data::{Journal, TaskNo};

/// One seat: its words, its current task, what it has out, its position and its journal.
#[derive(Drop)]
pub struct SeatCore {
    pub mark: bool,
    pub done: bool,
    pub refs: u32,
    pub current: Option<TaskNo>,
    pub held: Held,
    pub pos: Pos,
    pub journal: Journal,
}
