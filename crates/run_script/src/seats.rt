//! Passes and gates become seats, and come back.
ghost use Rattle.std.specs.Prelude.{◌≡◌, ◌≤◌, ◌+◌, ◌++◌, [], All, length, map};
ghost use Rattle.std.specs.Option.{option_to_list};
ghost use Rattle.std.specs.Vec.{vec_capacity};
ghost use Rattle.std.specs.Vec.Iter.{into_iter_items};
ghost use Rattle.run_script.specs.Seated.{pass_of, gates_in, AreSeated, gates_left};
ghost use Rattle.word_steps.specs.Folds.{journal};

use run_rounds::Seat;
use std::alloc::Global;
use std::vec::IntoIter;
use task_words::Pass;

/// Makes a seat of each pass, in their order, with the next gate as long as there is one. It takes no memory.
pub fn sit<G: Drop>(
    alloc: Global,
    passes: Vec<Pass>,
    gates: &mut IntoIter<G>,
    seats: &mut Vec<Seat<G>>,
)
    requires none { seats.old.items ≡ [] }
    requires room { length passes.items ≤ vec_capacity seats.old }
    ensures seats { AreSeated passes.items (into_iter_items gates.old) seats.new.items }
    ensures left { into_iter_items gates.new ≡ gates_left passes.items (into_iter_items gates.old) }
{
    for pass in passes {
        seats.push_reserved(Seat {
            pass,
            gate: gates.next(),
            dead: Vec::new(alloc),
        });
    }
}

// Puts a gate back, if there is one.
fn put_back<G>(gate: Option<G>, gates: &mut Vec<G>)
    requires room { length gates.old.items + length (option_to_list gate) ≤ vec_capacity gates.old }
    ensures gates { gates.new.items ≡ gates.old.items ++ option_to_list gate }
    ensures capacity { vec_capacity gates.new ≡ vec_capacity gates.old }
{
    if let Some(gate) = gate {
        gates.push_reserved(gate);
    }
}

/// Puts each seat's pass and its gate, if it has one, at the end of their lists. It takes no memory.
pub fn leave<G: Drop>(seats: Vec<Seat<G>>, passes: &mut Vec<Pass>, gates: &mut Vec<G>)
    requires no_pass { passes.old.items ≡ [] }
    requires no_gate { gates.old.items ≡ [] }
    requires passes_fit { length seats.items ≤ vec_capacity passes.old }
    requires gates_fit { length (gates_in seats.items) ≤ vec_capacity gates.old }
    ensures passes { passes.new.items ≡ map pass_of seats.items }
    ensures tied { All (λ p. journal p.seat p.trace ≡ p.told ++ p.turn.entries) passes.new.items }
    ensures gates { gates.new.items ≡ gates_in seats.items }
    ensures capacity { vec_capacity gates.new ≡ vec_capacity gates.old }
{
    for seat in seats {
        let Seat {
            pass,
            gate,
            dead: _,
        } = seat;
        // A hint to the prover: what a pass has told, and its turn, are its journal.
        let _turn = pass.turn();
        passes.push_reserved(pass);
        put_back(gate, gates);
    }
}

/// Puts the gates that no seat has at the end of the list. It takes no memory.
pub fn put_rest<G: Drop>(rest: IntoIter<G>, gates: &mut Vec<G>)
    requires room { length gates.old.items + length (into_iter_items rest) ≤ vec_capacity gates.old }
    ensures { gates.new.items ≡ gates.old.items ++ into_iter_items rest }
{
    for gate in rest {
        gates.push_reserved(gate);
    }
}
