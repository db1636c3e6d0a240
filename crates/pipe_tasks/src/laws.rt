ghost use Rattle.pipe_tasks.specs.Feeds.{FeedingGivesLines};

/// The law that a plan which is fed item by item, and then the ends, puts out the lines that are stated for the whole
/// lists; and so a source that makes its lines one by one. The contract is the law: there is nothing to run.
pub fn feeding_gives_lines()
    ensures { FeedingGivesLines }
{}
