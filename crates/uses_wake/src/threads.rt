//! Two threads on one table.
ghost use Rattle.std.specs.Prelude.{◌<◌};
ghost use Rattle.task_words.specs.Views.{IsOf, IsSame};

use std::thread::{Threads, join};
use task_words::{Kept, Pass, Wk, load_state};

fn look<B: Kept>(wk: &Wk<B>, mut pass: Pass) -> Pass
    requires of { IsOf wk.now pass }
    requires task { 0 < wk.now.shape.tasks }
    ensures { IsSame pass result }
{
    load_state(wk, &mut pass, 0);
    pass
}

/// Two seats of one table step at once, each in a thread, where bodies may only be sent.
pub fn both<B: Kept, R: Threads>(rt: &R, wk: &Wk<B>, one: Pass, other: Pass) -> (Pass, Pass)
    requires of { IsOf wk.now one × IsOf wk.now other }
    requires task { 0 < wk.now.shape.tasks }
    ensures { IsSame one result.0 × IsSame other result.1 }
{
    join(
        rt,
        || -> Pass
            requires { IsOf wk.now one × (0 < wk.now.shape.tasks) }
            ensures { IsSame one result }
        { look(wk, one) },
        || -> Pass
            requires { IsOf wk.now other × (0 < wk.now.shape.tasks) }
            ensures { IsSame other result }
        { look(wk, other) },
    )
}
