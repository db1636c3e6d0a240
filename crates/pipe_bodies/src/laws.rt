ghost use Rattle.std.specs.Prelude.{◌≡◌, List, map};
ghost use Rattle.pipe_bodies.specs.Bodies.{Lasting};
ghost use Rattle.pipe_bodies.specs.Lastings.{lasting_code, lasting_of};

/// The law that what a body keeps for good, its task, its plan at build and its rings, is told by its numbers: equal
/// numbers are those of the same task, plan and rings, of one body and of a list of bodies. The contract is the law:
/// there is nothing to run.
pub fn law_lastings()
    ensures back { (l : Lasting) → lasting_of (lasting_code l) ≡ l }
    ensures one { (a b : Lasting) → lasting_code a ≡ lasting_code b → a ≡ b }
    ensures all { (a b : List Lasting) → map lasting_code a ≡ map lasting_code b → a ≡ b }
{}
