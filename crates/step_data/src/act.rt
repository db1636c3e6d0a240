//! The latest steps of a seat, and what one of them says of those before it.

ghost use Rattle.std.specs.Prelude.{◌≡◌, OnOk, IsTrue, ◌↔◌, true, false, if◌then◌else◌};
ghost use Rattle.core_data.specs.Acts.{is_act, since, since_from, with_act};

use core_data::Act;
use handoff_data::NoMemory;

/// Whether both are the same step.
fn is_same(a: &Act, b: &Act) -> bool
    ensures { result ≡ is_act a.now b.now }
{
    let same = is_equal(a, b);
    same
}

fn is_equal(a: &Act, b: &Act) -> bool
    ensures { IsTrue result ↔ (a.now ≡ b.now) }
{
    *a == *b
}

/// What is known of `fact` after one step more.
fn known_after(known: bool, fact: &Act, end: &Act, act: &Act) -> bool
    ensures { result ≡ (if is_act fact.now act.now then true else if is_act end.now act.now then false else known) }
{
    if is_same(fact, act) {
        true
    } else if is_same(end, act) {
        false
    } else {
        known
    }
}

/// Whether the step `fact` is there, and `end` isn't there after it.
pub fn is_since(acts: &[Act], fact: Act, end: Act) -> bool
    ensures { result ≡ since fact end acts.now }
{
    let mut known = false;
    for act in acts {
        known = known_after(known, &fact, &end, act);
    }
    known
}

/// Makes a step the latest. Answers `NoMemory` where memory runs out.
pub fn note_act(acts: &mut Vec<Act>, act: Act) -> Result<(), NoMemory>
    ensures { OnOk result (acts.new.items ≡ with_act acts.old.items act) }
{
    acts.retain(|x| !is_same(&act, x));
    acts.push(act)?;
    Ok(())
}
