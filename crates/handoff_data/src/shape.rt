/// The sizes of a machine. Processor `c` is in the cache group `c / caches`.
///
/// A valid shape (`IsShape`) has 1 to 16 processors, groups of 1 to all of them, at most 200 tasks, at most 400
/// conditions and at most 4 agents. Its seats are the processors and then the agents.
#[derive(Clone, Copy, Debug, PartialEq, Eq)]
pub struct Shape {
    /// How many processors there are.
    pub cpus: u32,
    /// How many processors share a cache.
    pub caches: u32,
    /// How many tasks there are.
    pub tasks: u32,
    /// How many conditions there are.
    pub conds: u32,
    /// How many agents there are.
    pub agents: u32,
}
