//! A gate, and beside it a list of all that it is told.
ghost use Rattle.std.specs.Prelude.{◌≡◌, ◌++◌, OnOk, OnErr, is_some, length, take};
ghost use Rattle.run_cells.specs.Telling.{told_after, list_of};

use handoff_data::{Entry, NoMemory};
use run_cells::Gate;
use std::alloc::Global;
use std::marker::Model;
use task_words::Turn;

/// The gate of a seat, if its caller gave one, and the entries of the seat: what the gate is told, is kept too.
/// Contracts see the gate and the entries. As a gate it tells one list, which is of use to proofs alone: behind what
/// its own gate had told at first stand the entries.
#[derive(Drop)]
pub struct Kept<G: Gate> {
    gate: Option<G>,
    entries: Vec<Entry>,
}

impl<G: Gate> Model for Kept<G> {
    ghost use Rattle.run_trace.specs.Keeping.{Keeping, Follows};

    ghost Value = { Keeping G };

    ghost view = { λ k. record { gate = k.gate; entries = k.entries.items } };

    ghost invariant = { λ k. Follows G.told (record { gate = k.gate; entries = k.entries.items }) };
}

impl<G: Gate> Kept<G> {
    ghost use Rattle.std.specs.Prelude.{◌≡◌};
    ghost use Rattle.run_trace.specs.Keeping.{Follows, fresh};

    /// A gate that may be missing, beside an empty list. It takes no memory.
    #[tactic(auto, using(crate::proofs::Spelling::follows_first))]
    pub fn new(alloc: Global, gate: Option<G>) -> Kept<G>
        ensures { result ≡ fresh gate }
    {
        Kept {
            gate,
            entries: Vec::new(alloc),
        }
    }

    /// The gate, if there is one, and the entries that it was told.
    pub fn take_apart(self) -> (Option<G>, Vec<Entry>)
        ensures gate { result.0 ≡ self.gate }
        ensures entries { result.1.items ≡ self.entries }
        ensures follows { Follows G.told self }
    {
        let Kept { gate, entries } = self;
        (gate, entries)
    }
}

// Adds the entries of a turn, as far as there is memory: what was there stays in front.
#[tactic(auto, using(run_cells::proofs::TellingLaws::added_one, run_cells::proofs::TellingLaws::added_all, run_cells::proofs::TellingLaws::front_of))]
fn add_each(entries: &mut Vec<Entry>, turn: &Turn) -> Result<(), NoMemory>
    ensures all { OnOk result (entries.new.items ≡ entries.old.items ++ turn.now.entries) }
    ensures front { OnErr result (take (length entries.old.items) entries.new.items ≡ entries.old.items) }
{
    for i in 0..usize::MAX {
        let Some(entry) = turn.get(i) else {
            return Ok(());
        };
        entries.push(entry)?;
    }
    // No turn has so many entries: memory has ended before.
    Err(NoMemory)
}

// Tells a gate that may be missing the entries of a turn.
fn tell_gate<G: Gate>(gate: &mut Option<G>, turn: &Turn) -> Result<(), NoMemory>
    ensures told { OnOk result (list_of G.told gate.new ≡ told_after (list_of G.told gate.old) turn.now.entries) }
    ensures refused { OnErr result (list_of G.told gate.new ≡ list_of G.told gate.old) }
    ensures there { is_some gate.new ≡ is_some gate.old }
{
    match gate {
        Some(gate) => gate.tell(turn),
        None => Ok(()),
    }
}

// Keeps the entries of a turn, as far as there is memory, and then tells them.
#[tactic(auto, using(run_cells::proofs::TellingLaws::front_of))]
fn keep_and_tell<G: Gate>(
    gate: &mut Option<G>,
    entries: &mut Vec<Entry>,
    turn: &Turn,
) -> Result<(), NoMemory>
    ensures kept { OnOk result (entries.new.items ≡ entries.old.items ++ turn.now.entries) }
    ensures told { OnOk result (list_of G.told gate.new ≡ told_after (list_of G.told gate.old) turn.now.entries) }
    ensures front { OnErr result (take (length entries.old.items) entries.new.items ≡ entries.old.items) }
    ensures refused { OnErr result (list_of G.told gate.new ≡ list_of G.told gate.old) }
    ensures there { is_some gate.new ≡ is_some gate.old }
{
    add_each(entries, turn)?;
    tell_gate(gate, turn)
}

// Keeps the entries of a turn and tells them, or neither.
fn tell_both<G: Gate>(
    gate: &mut Option<G>,
    entries: &mut Vec<Entry>,
    turn: &Turn,
) -> Result<(), NoMemory>
    ensures kept { OnOk result (entries.new.items ≡ entries.old.items ++ turn.now.entries) }
    ensures told { OnOk result (list_of G.told gate.new ≡ told_after (list_of G.told gate.old) turn.now.entries) }
    ensures none { OnErr result (entries.new.items ≡ entries.old.items) }
    ensures refused { OnErr result (list_of G.told gate.new ≡ list_of G.told gate.old) }
    ensures there { is_some gate.new ≡ is_some gate.old }
{
    let len = entries.len();
    // The list comes first: a gate can't be told that what it was told is to be forgotten.
    if keep_and_tell(gate, entries, turn).is_err() {
        entries.truncate(len);
        return Err(NoMemory);
    }
    Ok(())
}

impl<G: Gate> Gate for Kept<G> {
    ghost use Rattle.run_trace.specs.Keeping.{spelled_told};

    ghost told = { λ k. spelled_told G.told k };

    #[tactic(auto, using(crate::proofs::Spelling::kept_laws))]
    fn tell(&mut self, turn: &Turn) -> Result<(), NoMemory> {
        tell_both(&mut self.gate, &mut self.entries, turn)
    }
}
