//! Lists are put beside gates, and gates come back from there.
ghost use Rattle.std.specs.Prelude.{◌≡◌, ◌≤◌, ◌+◌, ◌++◌, [], All, length, map};
ghost use Rattle.std.specs.Option.{option_to_list};
ghost use Rattle.std.specs.Vec.{vec_capacity};
ghost use Rattle.std.specs.Vec.Iter.{into_iter_items};
ghost use Rattle.run_trace.specs.Keeping.{Follows};
ghost use Rattle.run_trace.specs.Wrapped.{firsts, gates_left, gates_in, entries_of, items_of};

use crate::kept::Kept;
use handoff_data::Entry;
use run_cells::Gate;
use std::alloc::Global;
use std::vec::IntoIter;

/// Puts a list beside the next gate, as long as there is one, for each of so many seats. It takes no memory.
pub fn put_on<G: Gate>(
    alloc: Global,
    count: usize,
    gates: &mut IntoIter<G>,
    kept: &mut Vec<Kept<G>>,
)
    requires none { kept.old.items ≡ [] }
    requires room { count ≤ vec_capacity kept.old }
    ensures kept { kept.new.items ≡ firsts count (into_iter_items gates.old) }
    ensures left { into_iter_items gates.new ≡ gates_left count (into_iter_items gates.old) }
{
    for _ in 0..count {
        kept.push_reserved(Kept::new(alloc, gates.next()));
    }
}

// Puts a gate back, if there is one.
fn put_back<G>(gate: Option<G>, gates: &mut Vec<G>)
    requires room { length gates.old.items + length (option_to_list gate) ≤ vec_capacity gates.old }
    ensures gates { gates.new.items ≡ gates.old.items ++ option_to_list gate }
    ensures capacity { vec_capacity gates.new ≡ vec_capacity gates.old }
{
    if let Some(gate) = gate {
        gates.push_reserved(gate);
    }
}

/// Takes the lists off again: each goes to the end of the lists, and its gate, if it has one, to the end of the gates.
/// It takes no memory.
pub fn take_off<G: Gate>(kept: Vec<Kept<G>>, gates: &mut Vec<G>, lists: &mut Vec<Vec<Entry>>)
    requires no_gate { gates.old.items ≡ [] }
    requires no_list { lists.old.items ≡ [] }
    requires gates_fit { length (gates_in kept.items) ≤ vec_capacity gates.old }
    requires lists_fit { length kept.items ≤ vec_capacity lists.old }
    ensures gates { gates.new.items ≡ gates_in kept.items }
    ensures lists { map items_of lists.new.items ≡ map entries_of kept.items }
    ensures follows { All (Follows G.told) kept.items }
    ensures capacity { vec_capacity gates.new ≡ vec_capacity gates.old }
{
    for one in kept {
        let (gate, entries) = one.take_apart();
        lists.push_reserved(entries);
        put_back(gate, gates);
    }
}

/// Puts the gates that no seat has at the end of the list. It takes no memory.
pub fn put_rest<G: Drop>(rest: IntoIter<G>, gates: &mut Vec<G>)
    requires room { length gates.old.items + length (into_iter_items rest) ≤ vec_capacity gates.old }
    ensures { gates.new.items ≡ gates.old.items ++ into_iter_items rest }
{
    for gate in rest {
        gates.push_reserved(gate);
    }
}
