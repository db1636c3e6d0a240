// What a reading is, in the words of who writes a command.
ghost use Rattle.command_words.specs.Written.{ReadsWhatIsWritten};

/// Words have a reading exactly where they are written as one of the commands, and it is that one: `run` and then the
/// words of options, each at most once, or `plan`, or `check`.
pub fn reads_what_is_written()
    ensures { ReadsWhatIsWritten }
{}
