// The numbers by which tasks, processors, seats and conditions are named. Each counts from 0.

/// The number of a task, in the order of the script.
pub type TaskNo = u32;

/// The number of a virtual processor.
pub type CpuNo = u32;

/// The number of a seat: the processors' seats come first, in their order, and the agents' follow.
pub type SeatNo = u32;

/// The number of a condition, which is a counter that tasks wait on.
pub type CondNo = u32;
