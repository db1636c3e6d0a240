ghost use Rattle.std.specs.Prelude.{◌≡◌, ◌⊎◌, IfOk, OnOk, Contains, ◌↔◌};
ghost use Rattle.handoff_data.specs.Mask.{HasCpu};
ghost use Rattle.journal_facts.specs.declared.fact.Fact.{Fact};
ghost use Rattle.journal_facts.specs.Members.{IsMember, IsJournalMember, IsEntryMember, IsMaskMember, member};

use crate::fact::{Fact, Kind};
use crate::facts::Facts;
use handoff_data::{CpuMask, CpuNo, Entry, Journal, NoMemory, TaskNo};
use std::alloc::Global;

/// Adds the processor, if the mask has it.
fn push_cpu(
    members: &mut Vec<Fact>,
    t: TaskNo,
    r: u64,
    mask: CpuMask,
    cpu: CpuNo,
) -> Result<(), NoMemory>
    ensures { OnOk result ((f : Fact) → Contains members.new.items f
        ↔ (Contains members.old.items f ⊎ (HasCpu mask cpu × (f ≡ member t r cpu)))) }
{
    if mask.contains(cpu) {
        members.push(Fact {
            kind: Kind::Member,
            subject: t,
            number: r,
            cpu,
            seat: 0,
            index: 0,
        })?;
    }
    Ok(())
}

/// Adds each processor of the mask.
fn push_mask(members: &mut Vec<Fact>, t: TaskNo, r: u64, mask: CpuMask) -> Result<(), NoMemory>
    ensures { OnOk result ((f : Fact) → Contains members.new.items f
        ↔ (Contains members.old.items f ⊎ IsMaskMember t r mask f)) }
{
    for cpu in 0..mask.limit() {
        push_cpu(members, t, r, mask, cpu)?;
    }
    Ok(())
}

/// Adds each processor of the mask that the entry sets, if it sets one.
fn push_masked(members: &mut Vec<Fact>, entry: Entry) -> Result<(), NoMemory>
    ensures { OnOk result ((f : Fact) → Contains members.new.items f
        ↔ (Contains members.old.items f ⊎ IsEntryMember entry f)) }
{
    if let Entry::Mask { t, r, mask } = entry {
        push_mask(members, t, r, mask)?;
    }
    Ok(())
}

/// Adds each processor of the masks of this journal.
fn push_masks(members: &mut Vec<Fact>, entries: &[Entry]) -> Result<(), NoMemory>
    ensures { OnOk result ((f : Fact) → Contains members.new.items f
        ↔ (Contains members.old.items f ⊎ IsJournalMember entries.now f)) }
{
    for entry in entries {
        push_masked(members, *entry)?;
    }
    Ok(())
}

/// The processors that the masks of all journals have, in order. Answers `NoMemory` where memory runs out.
pub fn members_of(alloc: Global, seats: &[Journal]) -> Result<Facts, NoMemory>
    ensures told { IfOk result (λ facts. (f : Fact) → Contains facts f ↔ IsMember seats.now f) }
{
    let mut members = Vec::new(alloc);
    for journal in seats {
        push_masks(&mut members, journal.as_slice())?;
    }
    Ok(Facts::sorted(members))
}
