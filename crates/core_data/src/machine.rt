use crate::seat::SeatCore;
use crate::words::{CondWords, CpuWords, TaskWords};
use handoff_data::Shape;

/// A whole machine between two atomic steps. The seats are those of the processors, then those of the agents.
#[derive(Drop)]
pub struct Core {
    pub shape: Shape,
    pub tasks: Vec<TaskWords>,
    pub cpus: Vec<CpuWords>,
    pub conds: Vec<CondWords>,
    pub seats: Vec<SeatCore>,
}
