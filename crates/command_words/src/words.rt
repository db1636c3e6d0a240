// What the words of the command line may say.

/// What words of the command line say: a command and its options.
#[derive(Clone, Copy, Debug, PartialEq, Eq)]
pub enum Words {
    /// `run`: run a script and write its report.
    Run(RunOptions),
    /// `plan`: write the canonical spelling of a script.
    Plan,
    /// `check`: judge journals.
    Check,
}

/// The options of the command `run`.
#[derive(Clone, Copy, Debug, PartialEq, Eq)]
pub struct RunOptions {
    /// How many workers drive the processors and the agents: 1 to 16, and 4 where no option says otherwise.
    pub workers: u32,
    /// Whether the journals of the run follow the report.
    pub trace: bool,
    /// Whether the report has the lines of the tasks alone.
    pub plain: bool,
}
