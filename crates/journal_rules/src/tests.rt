ghost use Rattle.std.specs.Prelude.{◌≡◌, length, IfOk};
ghost use Rattle.journal_rules.specs.Known.{KnowsFacts};

use super::*;
use handoff_data::{Entry, Journal, Journals, NoMemory};
use journal_facts::{Facts, facts_of};
use std::alloc::Global;
use std::test::Fail;

// One seat's journal, of these entries, on one processor with two tasks.
fn journals_of(alloc: Global, entries: &[Entry]) -> Result<Journals, NoMemory>
    ensures seats { IfOk result (λ j. length j.seats ≡ 1) }
    ensures tasks { IfOk result (λ j. j.tasks ≡ 2) }
{
    let mut journal = Journal::new(alloc);
    for entry in entries {
        journal.push(*entry)?;
    }
    Ok(Journals {
        cpus: 1,
        tasks: 2,
        seats: vec![in alloc; journal]?,
    })
}

// What the entries of the one journal tell.
fn facts_about(alloc: Global, journals: &Journals) -> Result<Facts, NoMemory>
    requires { length journals.now.seats ≡ 1 }
    ensures { IfOk result (λ facts. KnowsFacts journals.now facts) }
{
    let facts = facts_of(alloc, journals.seats.as_slice())?;
    Ok(facts)
}

// The index of the first entry at which the numbers don't rise, of so many entries.
fn first_falling_of(journals: &Journals, facts: &Facts, count: u64) -> Option<u64>
    requires { KnowsFacts journals.now facts.now }
{
    for index in 0..count {
        let entry = entry_at(journals, 0, index)?;
        if !rises_in_journal(journals, facts, 0, index, entry) {
            return Some(index);
        }
    }
    None
}

// The index of the first entry at which the numbers don't rise.
fn first_falling(alloc: Global, entries: &[Entry]) -> Result<Option<u64>, NoMemory> {
    let journals = journals_of(alloc, entries)?;
    let facts = facts_about(alloc, &journals)?;
    Ok(first_falling_of(&journals, &facts, entries.len() as u64))
}

// The index of the first entry that leaves though its task is not running.
fn first_leaving(alloc: Global, entries: &[Entry]) -> Result<Option<u64>, NoMemory> {
    let journals = journals_of(alloc, entries)?;
    let facts = facts_about(alloc, &journals)?;
    for index in 0..entries.len() as u64 {
        let Some(entry) = entry_at(&journals, 0, index) else {
            return Ok(None);
        };
        if !leaves_while_running(&journals, &facts, 0, index, entry) {
            return Ok(Some(index));
        }
    }
    Ok(None)
}

// Whether task 0 has ended.
fn ends(alloc: Global, entries: &[Entry]) -> Result<bool, NoMemory> {
    let journals = journals_of(alloc, entries)?;
    let facts = facts_about(alloc, &journals)?;
    Ok(has_ended(&journals, &facts, 0))
}

#[test]
fn numbers_rise(rt: HostRuntime) -> Result<(), Fail> {
    let alloc = rt.alloc();
    let table: [(&[Entry], Option<u64>); 6] = [
        (
            &[
                Entry::New { t: 0, m: 1, c: 0 },
                Entry::Pick { t: 0, n: 1, c: 0 },
                Entry::Sleep { t: 0, m: 2, c: 0 },
                Entry::Finish { t: 0, n: 2, c: 0 },
            ],
            None,
        ),
        (
            &[
                Entry::New { t: 0, m: 2, c: 0 },
                Entry::New { t: 1, m: 1, c: 0 },
                Entry::Sleep { t: 0, m: 2, c: 0 },
            ],
            Some(2),
        ),
        (
            &[
                Entry::New { t: 0, m: 3, c: 0 },
                Entry::Pick { t: 0, n: 5, c: 0 },
                Entry::Die { t: 0, m: 2, c: 0 },
            ],
            Some(2),
        ),
        (
            &[
                Entry::Pick { t: 0, n: 3, c: 0 },
                Entry::Finish { t: 1, n: 2, c: 0 },
                Entry::Pick { t: 0, n: 2, c: 0 },
            ],
            Some(2),
        ),
        (
            &[
                Entry::Pick { t: 0, n: 4, c: 0 },
                Entry::New { t: 0, m: 1, c: 0 },
            ],
            None,
        ),
        (
            &[
                Entry::New { t: 0, m: 3, c: 0 },
                Entry::Wake { t: 0, m: 2 },
                Entry::Done { t: 0, r: 1 },
            ],
            None,
        ),
    ];
    for (entries, expected) in table {
        let first = first_falling(alloc, entries)?;
        assert_eq!(rt; first, expected, "at {first:?}, not {expected:?}");
    }
    Ok(())
}

#[test]
fn tasks_leave_while_they_run(rt: HostRuntime) -> Result<(), Fail> {
    let alloc = rt.alloc();
    let table: [(&[Entry], Option<u64>); 5] = [
        (
            &[
                Entry::Pick { t: 0, n: 1, c: 0 },
                Entry::Sleep { t: 0, m: 2, c: 0 },
            ],
            None,
        ),
        (&[Entry::Sleep { t: 0, m: 2, c: 0 }], Some(0)),
        (
            &[
                Entry::Pick { t: 0, n: 1, c: 0 },
                Entry::Finish { t: 0, n: 2, c: 0 },
                Entry::Die { t: 0, m: 2, c: 0 },
            ],
            Some(2),
        ),
        (
            &[
                Entry::Pick { t: 1, n: 1, c: 0 },
                Entry::Sleep { t: 0, m: 2, c: 0 },
            ],
            Some(1),
        ),
        (
            &[
                Entry::Pick { t: 0, n: 1, c: 0 },
                Entry::Finish { t: 1, n: 2, c: 0 },
                Entry::Die { t: 0, m: 2, c: 0 },
            ],
            None,
        ),
    ];
    for (entries, expected) in table {
        let first = first_leaving(alloc, entries)?;
        assert_eq!(rt; first, expected, "at {first:?}, not {expected:?}");
    }
    Ok(())
}

#[test]
fn tasks_end_by_their_highest_numbers(rt: HostRuntime) -> Result<(), Fail> {
    let alloc = rt.alloc();
    let table: [(&[Entry], bool); 7] = [
        (
            &[
                Entry::Die { t: 0, m: 2, c: 0 },
                Entry::Finish { t: 0, n: 2, c: 0 },
            ],
            true,
        ),
        (
            &[
                Entry::Finish { t: 0, n: 4, c: 0 },
                Entry::Pick { t: 0, n: 3, c: 0 },
                Entry::Die { t: 0, m: 4, c: 0 },
                Entry::New { t: 0, m: 1, c: 0 },
                Entry::New { t: 1, m: 5, c: 0 },
                Entry::Pick { t: 1, n: 5, c: 0 },
            ],
            true,
        ),
        (
            &[
                Entry::Die { t: 0, m: 2, c: 0 },
                Entry::Sleep { t: 0, m: 3, c: 0 },
                Entry::Finish { t: 0, n: 2, c: 0 },
            ],
            false,
        ),
        (
            &[
                Entry::Die { t: 0, m: 2, c: 0 },
                Entry::Finish { t: 0, n: 2, c: 0 },
                Entry::Pick { t: 0, n: 3, c: 0 },
            ],
            false,
        ),
        (&[Entry::Die { t: 0, m: 2, c: 0 }], false),
        (&[Entry::Finish { t: 0, n: 2, c: 0 }], false),
        (&[], false),
    ];
    for (entries, expected) in table {
        let ended = ends(alloc, entries)?;
        assert_eq!(rt; ended, expected, "of {} entries", entries.len());
    }
    Ok(())
}
