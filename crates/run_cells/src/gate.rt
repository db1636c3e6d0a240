//! Who is told the entries of a seat.
ghost use Rattle.std.specs.Prelude.{◌≡◌, ◌++◌, List, Option, take, length, OnOk, OnErr, Some, None, is_some};
ghost use Rattle.handoff_data.specs.declared.entry.Entry.{Entry};
ghost use Rattle.run_cells.specs.Telling.{told_after, list_of, GoesOn, cleared};
ghost use Rattle.word_steps.specs.Folds.{journal};

use handoff_data::{Entry, NoMemory};
use std::alloc::Global;
use std::marker::Model;
use task_words::{Pass, Turn};

/// Who is told the entries of a seat, turn after turn.
pub trait Gate: Drop {
    /// The entries told, oldest first, where the gate tells its list.
    ghost told: { Self → Option (List Entry) };

    /// Takes the entries of a turn. A refusal, for want of memory, adds nothing.
    fn tell(&mut self, turn: &Turn) -> Result<(), NoMemory>
        ensures told { OnOk result (told self.new ≡ told_after (told self.old) turn.now.entries) }
        ensures refused { OnErr result (told self.new ≡ told self.old) };
}

/// A gate that keeps the entries it was told, or that keeps none and tells no list.
#[derive(Drop)]
pub struct ListGate {
    entries: Option<Vec<Entry>>,
}

impl Model for ListGate {
    ghost use Rattle.std.specs.Prelude.{List, Option};
    ghost use Rattle.handoff_data.specs.declared.entry.Entry.{Entry};
    ghost use Rattle.run_cells.specs.Telling.{kept_in};

    ghost Value = { Option (List Entry) };

    ghost view = { λ g. kept_in g.entries };
}

impl ListGate {
    ghost use Rattle.std.specs.Prelude.{◌≡◌, [], Some, None, MatchOption};

    /// A gate that keeps its entries, and was told none. It takes no memory.
    pub fn new(alloc: Global) -> ListGate
        ensures { result ≡ Some [] }
    {
        ListGate {
            entries: Some(Vec::new(alloc)),
        }
    }

    /// A gate that keeps no entries, and never refuses.
    pub fn quiet() -> ListGate
        ensures { result ≡ None }
    {
        ListGate { entries: None }
    }

    /// The entries told, oldest first; none where the gate keeps none.
    pub fn entries(&self) -> Option<&[Entry]>
        ensures { MatchOption result (self.now ≡ None) (λ list. self.now ≡ Some list.now) }
    {
        match &self.entries {
            Some(entries) => Some(entries.as_slice()),
            None => None,
        }
    }
}

// Adds the entries of a turn, as far as there is memory: what was there stays in front.
#[tactic(auto, using(crate::proofs::TellingLaws::added_one, crate::proofs::TellingLaws::added_all, crate::proofs::TellingLaws::front_of))]
fn add_each(entries: &mut Vec<Entry>, turn: &Turn) -> Result<(), NoMemory>
    ensures all { OnOk result (entries.new.items ≡ entries.old.items ++ turn.now.entries) }
    ensures front { OnErr result (take (length entries.old.items) entries.new.items ≡ entries.old.items) }
{
    for i in 0..usize::MAX {
        let Some(entry) = turn.get(i) else {
            return Ok(());
        };
        entries.push(entry)?;
    }
    // No turn has so many entries: memory has ended before.
    Err(NoMemory)
}

// Adds all entries of a turn, or none.
fn add_turn(entries: &mut Vec<Entry>, turn: &Turn) -> Result<(), NoMemory>
    ensures all { OnOk result (entries.new.items ≡ entries.old.items ++ turn.now.entries) }
    ensures none { OnErr result (entries.new.items ≡ entries.old.items) }
{
    let len = entries.len();
    if add_each(entries, turn).is_err() {
        entries.truncate(len);
        return Err(NoMemory);
    }
    Ok(())
}

impl Gate for ListGate {
    ghost told = { λ gate. gate };

    fn tell(&mut self, turn: &Turn) -> Result<(), NoMemory> {
        match &mut self.entries {
            Some(entries) => add_turn(entries, turn),
            None => Ok(()),
        }
    }
}

// Tells the gate of a seat the entries of its turn, if there is a gate.
fn tell_gate<G: Gate>(pass: &Pass, gate: &mut Option<G>) -> Result<(), NoMemory>
    ensures told { OnOk result (list_of G.told gate.new ≡ told_after (list_of G.told gate.old) pass.now.turn.entries) }
    ensures refused { OnErr result (list_of G.told gate.new ≡ list_of G.told gate.old) }
    ensures there { is_some gate.new ≡ is_some gate.old }
{
    match gate {
        Some(gate) => gate.tell(pass.turn()),
        None => Ok(()),
    }
}

/// Tells the gate of a seat, if it has one, the entries of its turn, which then is empty: the whole journal is told. A
/// refusal of the gate, for want of memory, changes nothing.
#[tactic(auto, using(crate::proofs::TellingLaws::goes_told, crate::proofs::TellingLaws::goes_refused))]
pub fn tell<G: Gate>(pass: &mut Pass, gate: &mut Option<G>) -> Result<(), NoMemory>
    ensures cleared { OnOk result (pass.new ≡ cleared pass.old) }
    ensures all { OnOk result (pass.new.told ≡ journal pass.new.seat pass.new.trace) }
    ensures refused { OnErr result (pass.new ≡ pass.old) }
    ensures goes { GoesOn (list_of G.told gate.old) (list_of G.told gate.new) pass.old pass.new }
    ensures there { is_some gate.new ≡ is_some gate.old }
{
    tell_gate(pass, gate)?;
    pass.clear_turn();
    Ok(())
}
