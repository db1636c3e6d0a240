//! A body that ends.
ghost use Rattle.std.specs.Prelude.{◌≡◌, ◌==◌, [], true, Some};
ghost use Rattle.task_words.specs.Views.{IsOf, IsSame};
ghost use Rattle.uses_switch.specs.Seated.{IsRunning};
ghost use Rattle.word_steps.specs.Folds.{ended_known};

use handoff_data::TaskNo;
use task_words::{Kept, Pass, Wk, body_home, body_out};

/// A body with so many turns left to run. It has ended once none is left.
#[derive(Clone, Copy, Debug, PartialEq, Eq)]
pub struct Turns {
    pub left: u32,
}

impl Kept for Turns {
    ghost lasting = { λ _. [] };

    ghost ended = { λ body. body.left == 0 };
}

// One turn less, where one is left; whether none is left then.
fn shorten(body: &mut Turns) -> bool
    ensures ended { result ≡ (body.new.left == 0) }
    ensures stays { (body.old.left == 0) ≡ true → (body.new.left == 0) ≡ true }
{
    if body.left > 0 {
        body.left -= 1;
    }
    body.left == 0
}

/// Runs the current task for one of the turns of its body; whether the body has ended then.
pub fn run_turn(wk: &Wk<Turns>, pass: &mut Pass, t: TaskNo) -> bool
    requires of { IsOf wk.now pass.old }
    requires running { IsRunning t pass.old }
    ensures same { IsSame pass.old pass.new }
    ensures running { IsRunning t pass.new }
    ensures ended { result ≡ true → ended_known pass.new.trace t ≡ Some true }
{
    let mut out = body_out(wk, pass);
    let ended = shorten(out.body_mut());
    body_home(wk, pass, out);
    ended
}
