//! How a shared table ends.
ghost use Rattle.std.specs.Prelude.{◌≡◌, ◌+◌, ◌∷◌, map, length};
ghost use Rattle.std.specs.List.{All};
ghost use Rattle.handoff_data.specs.Legal.{HasNoBad, IsLegal};
ghost use Rattle.task_words.specs.Closing.{token_of, IsDone, journals_in, AllDead, DeadHaveEnded, DeathsAreOfDead};
ghost use Rattle.task_words.specs.Closing.{SleepersSlept, NoneMissed};
ghost use Rattle.task_words.specs.Views.{IsOf};
ghost use Rattle.word_table.specs.End.{HasEachSeat, IsEnd};
ghost use Rattle.word_table.specs.Gathered.{IsGatheredOf};

use crate::pass::Pass;
use crate::wk::Wk;
use word_table::{Closed, Gathered, Kept, Token, Words};

fn into_token(pass: Pass) -> Token
    ensures { result ≡ token_of pass }
{
    let Pass {
        token,
        current: _,
        turn: _,
    } = pass;
    token
}

// The tokens of all passes, in the same order.
fn gather<B: Kept>(words: &Words<B>, passes: Vec<Pass>) -> Gathered<B>
    requires of { All (IsOf words.now) passes.items }
    ensures of { IsGatheredOf words.now result }
    ensures tokens { result.tokens ≡ map token_of passes.items }
{
    let mut passes = passes;
    let mut gathered = words.gather();
    while let Some(pass) = passes.pop() {
        words.take_back(&mut gathered, into_token(pass));
    }
    gathered
}

impl<B: Kept> Wk<B> {
    /// Ends a table, once the passes of all its seats are there, in any order, and each has given all back. It takes no
    /// memory. It gives each task's state and each condition's counter as its last word has them. The journals of all
    /// seats keep the eleven rules, and are one legal history where every task is dead.
    pub fn close(self, passes: Vec<Pass>) -> Closed<B>
        requires of { All (IsOf self) passes.items }
        requires all { HasEachSeat (self.shape.cpus + self.shape.agents) (map (λ p. p.seat) passes.items) }
        requires done { All IsDone passes.items }
        ensures sizes { (length result.bodies.items ≡ self.shape.tasks)
            × (length result.states.items ≡ self.shape.tasks) × (length result.conds.items ≡ self.shape.conds) }
        ensures lasting { map B.lasting result.bodies.items ≡ self.lasting }
        ensures end { IsEnd B.ended self.shape (map token_of passes.items) result.bodies.items result.states.items
            result.conds.items }
        ensures ended { DeadHaveEnded B.ended result.bodies.items result.states.items }
        ensures rules { HasNoBad (journals_in self.shape passes.items) }
        ensures legal { AllDead self.shape result.states.items → IsLegal (journals_in self.shape passes.items) }
        ensures dead { DeathsAreOfDead (journals_in self.shape passes.items) result.states.items }
        ensures slept { SleepersSlept (journals_in self.shape passes.items) result.states.items }
        ensures sleepers { NoneMissed self.shape passes.items result.states.items result.conds.items }
    {
        let Wk { words } = self;
        let gathered = gather(&words, passes);
        words.close(gathered)
    }
}
