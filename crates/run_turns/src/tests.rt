//! Turns of processors, whose entries and verdicts are written out.
ghost use Rattle.std.specs.Prelude.{◌≡◌, ◌<◌, All, IfOk, IfSome, OnOk};
ghost use Rattle.run_cells.specs.NetMaps.{IsNetMap};
ghost use Rattle.run_turns.specs.Standing.{IsAtRest};
ghost use Rattle.task_words.specs.Views.{IsOf, IsOneSeat};

use super::*;
use handoff_data::{CpuNo, Entry, NoMemory, TaskNo};
use pipe_bodies::{Body, Net, NoWork, Then, Verdict};
use run_cells::{Cell, Gate, ListGate, NetMap, into_cells};
use std::alloc::Global;
use std::sync::Wait;
use std::test::Fail;
use task_script::{law_script, read_script};
use task_words::{Kept, Pass, Turn, Wk};

// The answers of so many turns.
fn turns_of<G: Gate, R: Wait>(
    rt: &R,
    alloc: Global,
    wk: &Wk<Cell<NoWork>>,
    pass: &mut Pass,
    net: &NetMap,
    gate: &mut Option<G>,
    count: usize,
) -> Result<Vec<Turned>, NoMemory>
    requires of { IsOf wk.now pass.old }
    requires processor { pass.old.seat < wk.now.shape.cpus }
    requires rest { IsAtRest pass.old }
    requires net { IsNetMap net.now wk.now.shape }
    ensures same { IsOneSeat pass.old pass.new }
    ensures rest { OnOk result (IsAtRest pass.new) }
{
    let mut turns = Vec::new(alloc);
    for _ in 0..count {
        turns.push(cpu_turn(rt, wk, pass, net, gate)?)?;
    }
    Ok(turns)
}

// Takes the last of the passes of a table.
fn take_last<B: Kept>(wk: &Wk<B>, passes: &mut Vec<Pass>) -> Option<Pass>
    requires of { All (IsOf wk.now) passes.old.items }
    requires rest { All IsAtRest passes.old.items }
    ensures of { IfSome result (λ p. IsOf wk.now p) }
    ensures rest { IfSome result (λ p. IsAtRest p) }
    ensures of_others { All (IsOf wk.now) passes.new.items }
    ensures rest_of_others { All IsAtRest passes.new.items }
{
    passes.pop()
}

// Starts the tasks on the pass's own processor.
fn start_all<B: Kept, G: Gate, R: Wait>(
    rt: &R,
    wk: &Wk<B>,
    pass: &mut Pass,
    gate: &mut Option<G>,
) -> Result<(), NoMemory>
    requires of { IsOf wk.now pass.old }
    requires processor { pass.old.seat < wk.now.shape.cpus }
    requires rest { IsAtRest pass.old }
    ensures same { IsOneSeat pass.old pass.new }
    ensures rest { OnOk result (IsAtRest pass.new) }
{
    let c = pass.seat();
    for t in 0..wk.shape().tasks {
        start_told(rt, wk, pass, gate, t, c)?;
    }
    Ok(())
}

// The table of a script, its passes, and the map of its conditions.
#[tactic(auto, using(crate::proofs::Beginning::firsts_rest))]
fn begin(alloc: Global, text: &str) -> Result<(Wk<Cell<NoWork>>, Vec<Pass>, NetMap), NoMemory>
    ensures of { IfOk result (λ r. All (IsOf r.0) r.1.items) }
    ensures rest { IfOk result (λ r. All IsAtRest r.1.items) }
    ensures net { IfOk result (λ r. IsNetMap r.2 r.0.shape) }
{
    let Ok(script) = read_script(alloc, text.as_bytes(), 0) else {
        return Err(NoMemory);
    };
    law_script();
    let net = NetMap::of(alloc, &script)?;
    let bodies: Vec<Body<NoWork>> = Net::build(alloc, &script, Vec::new(alloc))?;
    let cells = into_cells(alloc, bodies)?;
    if cells.len() != script.shape.tasks as usize {
        return Err(NoMemory);
    }
    let (wk, passes) = Wk::new(alloc, &script.shape, cells)?;
    Ok((wk, passes, net))
}

// .. of a script of one processor, with the pass of that.
fn begin_alone(alloc: Global, text: &str) -> Result<(Wk<Cell<NoWork>>, Pass, NetMap), NoMemory>
    ensures of { IfOk result (λ r. IsOf r.0 r.1) }
    ensures processor { IfOk result (λ r. r.1.seat < r.0.shape.cpus) }
    ensures rest { IfOk result (λ r. IsAtRest r.1) }
    ensures net { IfOk result (λ r. IsNetMap r.2 r.0.shape) }
{
    let (wk, mut passes, net) = begin(alloc, text)?;
    let Some(pass) = take_last(&wk, &mut passes) else {
        return Err(NoMemory);
    };
    if pass.seat() >= wk.shape().cpus {
        return Err(NoMemory);
    }
    Ok((wk, pass, net))
}

// The answers of so many turns of the only processor of a script, with the entries that its gate was told.
fn run_alone<R: Wait>(
    rt: &R,
    alloc: Global,
    text: &str,
    count: usize,
) -> Result<(Vec<Turned>, Option<ListGate>), NoMemory> {
    let (wk, mut pass, net) = begin_alone(alloc, text)?;
    let mut gate = Some(ListGate::new(alloc));
    start_all(rt, &wk, &mut pass, &mut gate)?;
    let turns = turns_of(rt, alloc, &wk, &mut pass, &net, &mut gate, count)?;
    Ok((turns, gate))
}

fn ran(t: TaskNo, read: Option<u32>, wrote: bool, then: Then) -> Turned {
    let verdict = Verdict {
        read,
        wrote,
        pin: false,
        then,
    };
    Turned::Ran { t, verdict }
}

// A body makes an item, or takes an end, and goes on.
fn goes_on(t: TaskNo) -> Turned {
    ran(t, None, false, Then::More)
}

fn takes(t: TaskNo, side: u32) -> Turned {
    ran(t, Some(side), false, Then::More)
}

fn puts_out(t: TaskNo) -> Turned {
    ran(t, None, true, Then::More)
}

fn exits(t: TaskNo) -> Turned {
    ran(t, None, false, Then::Exit)
}

// The entries of processor 0.
fn new(t: TaskNo) -> Entry {
    Entry::New { t, m: 1, c: 0 }
}

fn pick(t: TaskNo, n: u64) -> Entry {
    Entry::Pick { t, n, c: 0 }
}

fn finish(t: TaskNo, n: u64) -> Entry {
    Entry::Finish { t, n, c: 0 }
}

fn sleep(t: TaskNo, m: u64) -> Entry {
    Entry::Sleep { t, m, c: 0 }
}

fn wake(t: TaskNo, m: u64) -> Entry {
    Entry::Wake { t, m }
}

fn enq(t: TaskNo, m: u64, c: CpuNo) -> Entry {
    Entry::Enq {
        t,
        m,
        c,
        by_list: false,
    }
}

fn die(t: TaskNo, m: u64) -> Entry {
    Entry::Die { t, m, c: 0 }
}

// What a gate was told; nothing where it keeps no entries.
fn told_to(gate: &ListGate) -> &[Entry] {
    match gate.entries() {
        Some(entries) => entries,
        None => &[],
    }
}

// .. or where there is no gate.
fn entries_of(gate: &Option<ListGate>) -> &[Entry] {
    match gate {
        Some(gate) => told_to(gate),
        None => &[],
    }
}

// The entries from one place to another; none where there are not so many.
fn between(entries: &[Entry], from: usize, to: usize) -> &[Entry] {
    if from <= to && to <= entries.len() {
        &entries[from..to]
    } else {
        &[]
    }
}

// A task that nobody reads makes its line, keeps it, puts out its end, and dies; then nothing is in the queue. It is
// alone, so it stays from turn to turn without an entry.
#[test]
fn a_task_alone_runs_to_its_end(rt: HostRuntime) -> Result<(), Fail> {
    let (turns, gate) = run_alone(&rt, rt.alloc(), "cpus 1\ntask a count 1\nend\n", 6)?;
    let expected = [
        goes_on(0),
        puts_out(0),
        goes_on(0),
        puts_out(0),
        exits(0),
        Turned::Idle,
    ];
    assert_eq!(rt; turns.as_slice(), expected.as_slice());
    let entries = [new(0), pick(0, 1), die(0, 2), finish(0, 2)];
    assert_eq!(rt; entries_of(&gate), entries.as_slice());
    Ok(())
}

const READER: &str = "cpus 1\nroom 1\ntask a count 2\ntask b upper from a\nend\n";

// Of the first four turns of READER.
fn entries_of_reader() -> [Entry; 12] {
    [
        new(0),
        new(1),
        pick(0, 1),
        finish(0, 2),
        pick(1, 1),
        sleep(1, 2),
        finish(1, 2),
        pick(0, 3),
        wake(1, 2),
        enq(1, 3, 0),
        finish(0, 4),
        pick(1, 3),
    ]
}

// The reader finds nothing and sleeps at condition 0; the writer's first item wakes it, and it stands behind the
// writer, which is put back for it.
#[test]
fn a_reader_sleeps_until_an_item_comes(rt: HostRuntime) -> Result<(), Fail> {
    let (turns, gate) = run_alone(&rt, rt.alloc(), READER, 4)?;
    let expected = [
        goes_on(0),
        ran(1, None, false, Then::WaitIn(0)),
        puts_out(0),
        takes(1, 0),
    ];
    assert_eq!(rt; turns.as_slice(), expected.as_slice());
    assert_eq!(rt; entries_of(&gate), entries_of_reader().as_slice());
    Ok(())
}

// b has a line in its ring of one, which c doesn't take before the end of a. So b sleeps with its own end at condition
// 3, until c takes that line.
fn turns_of_a_full_ring() -> [Turned; 21] {
    [
        goes_on(0),
        goes_on(1),
        ran(2, None, false, Then::WaitIn(0)),
        puts_out(0),
        puts_out(1),
        takes(2, 0),
        goes_on(0),
        goes_on(1),
        puts_out(2),
        puts_out(0),
        ran(1, None, false, Then::WaitOut),
        takes(2, 0),
        exits(0),
        takes(2, 1),
        puts_out(1),
        puts_out(2),
        exits(1),
        takes(2, 1),
        puts_out(2),
        exits(2),
        Turned::Idle,
    ]
}

// Up to the sleep of b.
fn entries_until_it_is_full() -> [Entry; 28] {
    [
        new(0),
        new(1),
        new(2),
        pick(0, 1),
        finish(0, 2),
        pick(1, 1),
        finish(1, 2),
        pick(2, 1),
        sleep(2, 2),
        finish(2, 2),
        pick(0, 3),
        wake(2, 2),
        enq(2, 3, 0),
        finish(0, 4),
        pick(1, 3),
        finish(1, 4),
        pick(2, 3),
        finish(2, 4),
        pick(0, 5),
        finish(0, 6),
        pick(1, 5),
        finish(1, 6),
        pick(2, 5),
        finish(2, 6),
        pick(0, 7),
        finish(0, 8),
        pick(1, 7),
        sleep(1, 2),
    ]
}

fn entries_from_then_on() -> [Entry; 20] {
    [
        finish(1, 8),
        pick(2, 7),
        finish(2, 8),
        pick(0, 9),
        die(0, 2),
        finish(0, 10),
        pick(2, 9),
        wake(1, 2),
        enq(1, 3, 0),
        finish(2, 10),
        pick(1, 9),
        finish(1, 10),
        pick(2, 11),
        finish(2, 12),
        pick(1, 11),
        die(1, 4),
        finish(1, 12),
        pick(2, 13),
        die(2, 4),
        finish(2, 14),
    ]
}

// A body that waits for room sleeps at its own condition, with its value of before the turn, and its reader wakes it.
// Each task of the three has its whole life here.
#[test]
fn a_writer_sleeps_until_its_item_is_taken(rt: HostRuntime) -> Result<(), Fail> {
    let text = "cpus 1\nroom 1\ntask a count 1\ntask b count 1\ntask c cat from a b\nend\n";
    let (turns, gate) = run_alone(&rt, rt.alloc(), text, 21)?;
    assert_eq!(rt; turns.as_slice(), turns_of_a_full_ring().as_slice());
    let told = entries_of(&gate);
    assert_eq!(rt; told.len(), 48);
    assert_eq!(rt; between(told, 0, 28), entries_until_it_is_full().as_slice());
    assert_eq!(rt; between(told, 28, 48), entries_from_then_on().as_slice());
    Ok(())
}

// A gate that keeps its entries, and refuses the call after so many.
#[derive(Drop)]
struct Refusing {
    kept: ListGate,
    left: u64,
}

impl Gate for Refusing {
    ghost told = { λ gate. gate.kept };

    fn tell(&mut self, turn: &Turn) -> Result<(), NoMemory> {
        if self.left == 0 {
            return Err(NoMemory);
        }
        self.left -= 1;
        self.kept.tell(turn)
    }
}

// How many turns a processor makes before its gate refuses, at most so many.
fn turns_before_refusal<G: Gate, R: Wait>(
    rt: &R,
    wk: &Wk<Cell<NoWork>>,
    pass: &mut Pass,
    net: &NetMap,
    gate: &mut Option<G>,
    count: usize,
) -> usize
    requires of { IsOf wk.now pass.old }
    requires processor { pass.old.seat < wk.now.shape.cpus }
    requires rest { IsAtRest pass.old }
    requires net { IsNetMap net.now wk.now.shape }
{
    for n in 0..count {
        if cpu_turn(rt, wk, pass, net, gate).is_err() {
            return n;
        }
    }
    count
}

// .. starts among them, which are no turns.
fn run_until_refusal<G: Gate, R: Wait>(
    rt: &R,
    wk: &Wk<Cell<NoWork>>,
    pass: &mut Pass,
    net: &NetMap,
    gate: &mut Option<G>,
    count: usize,
) -> usize
    requires of { IsOf wk.now pass.old }
    requires processor { pass.old.seat < wk.now.shape.cpus }
    requires rest { IsAtRest pass.old }
    requires net { IsNetMap net.now wk.now.shape }
{
    match start_all(rt, wk, pass, gate) {
        Ok(()) => turns_before_refusal(rt, wk, pass, net, gate, count),
        Err(_) => 0,
    }
}

// What came of four turns of READER, where its gate refused a call.
#[derive(Drop)]
struct Refusal {
    turns: usize,
    told: Vec<Entry>,
    left: Vec<Entry>,
}

fn copied(alloc: Global, entries: &[Entry]) -> Result<Vec<Entry>, NoMemory> {
    let mut copy = Vec::new(alloc);
    for entry in entries {
        copy.push(*entry)?;
    }
    Ok(copy)
}

// The entries that stand in the turn of a pass.
fn in_turn(alloc: Global, pass: &Pass) -> Result<Vec<Entry>, NoMemory> {
    let mut entries = Vec::new(alloc);
    for i in 0..usize::MAX {
        let Some(entry) = pass.turn().get(i) else {
            break;
        };
        entries.push(entry)?;
    }
    Ok(entries)
}

fn told_to_some(alloc: Global, gate: &Option<Refusing>) -> Result<Vec<Entry>, NoMemory> {
    match gate {
        Some(gate) => copied(alloc, told_to(&gate.kept)),
        None => Ok(Vec::new(alloc)),
    }
}

fn run_refused<R: Wait>(rt: &R, alloc: Global, refused: u64) -> Result<Refusal, NoMemory> {
    let (wk, mut pass, net) = begin_alone(alloc, READER)?;
    let mut gate = Some(Refusing {
        kept: ListGate::new(alloc),
        left: refused,
    });
    let turns = run_until_refusal(rt, &wk, &mut pass, &net, &mut gate, 4);
    let told = told_to_some(alloc, &gate)?;
    let left = in_turn(alloc, &pass)?;
    Ok(Refusal { turns, told, left })
}

// The gate is told of two starts, then of a switch in each turn, of a sleep in the second, and of a raise in the third
// and in the fourth. Where it refuses one of these, the turn is refused, the gate has what it was told before, and what
// the call did stands in the turn.
#[test]
fn a_refusal_ends_the_turn_and_keeps_its_entries(rt: HostRuntime) -> Result<(), Fail> {
    let entries = entries_of_reader();
    // Of each of the nine calls: how many turns were made before it, and which entries are its own.
    let calls = [
        (0, 0, 1),
        (0, 1, 2),
        (0, 2, 3),
        (1, 3, 5),
        (1, 5, 7),
        (2, 7, 8),
        (2, 8, 10),
        (3, 10, 12),
        (3, 12, 12),
    ];
    for (i, (turns, from, to)) in calls.iter().enumerate() {
        let refusal = run_refused(&rt, rt.alloc(), i as u64)?;
        assert_eq!(rt; refusal.turns, *turns);
        assert_eq!(rt;
            refusal.told.as_slice(),
            between(entries.as_slice(), 0, *from)
        );
        assert_eq!(rt;
            refusal.left.as_slice(),
            between(entries.as_slice(), *from, *to)
        );
    }
    let whole = run_refused(&rt, rt.alloc(), 9)?;
    assert_eq!(rt; whole.turns, 4);
    assert_eq!(rt; whole.told.as_slice(), entries.as_slice());
    assert!(rt; whole.left.is_empty());
    Ok(())
}

// What the turns of two processors with a task each answered, in their order, and what their gates were told.
#[derive(Drop)]
struct Pair {
    sleeps: Vec<Turned>,
    wakes: Vec<Turned>,
    reads: Vec<Turned>,
    ends: Vec<Turned>,
    first: Option<ListGate>,
    second: Option<ListGate>,
}

// Turns of the second processor, whose task reads what that of the first puts out, and of the first, in turn.
fn turns_of_pair<R: Wait>(
    rt: &R,
    alloc: Global,
    wk: &Wk<Cell<NoWork>>,
    first: &mut Pass,
    second: &mut Pass,
    net: &NetMap,
) -> Result<Pair, NoMemory>
    requires of { IsOf wk.now first.old }
    requires of_second { IsOf wk.now second.old }
    requires processors { wk.now.shape.cpus ≡ 2 }
    requires tasks { wk.now.shape.tasks ≡ 2 }
    requires seat { first.old.seat ≡ 0 }
    requires seat_second { second.old.seat ≡ 1 }
    requires rest { IsAtRest first.old }
    requires rest_second { IsAtRest second.old }
    requires net { IsNetMap net.now wk.now.shape }
{
    let mut gate = Some(ListGate::new(alloc));
    let mut other = Some(ListGate::new(alloc));
    start_told(rt, wk, first, &mut gate, 0, 0)?;
    start_told(rt, wk, second, &mut other, 1, 1)?;
    let sleeps = turns_of(rt, alloc, wk, second, net, &mut other, 2)?;
    let wakes = turns_of(rt, alloc, wk, first, net, &mut gate, 2)?;
    let reads = turns_of(rt, alloc, wk, second, net, &mut other, 1)?;
    let ends = turns_of(rt, alloc, wk, first, net, &mut gate, 3)?;
    Ok(Pair {
        sleeps,
        wakes,
        reads,
        ends,
        first: gate,
        second: other,
    })
}

fn run_pair<R: Wait>(rt: &R, alloc: Global) -> Result<Pair, NoMemory> {
    let text = "cpus 2\nroom 1\ntask a count 1\ntask b upper from a\nend\n";
    let (wk, mut passes, net) = begin(alloc, text)?;
    let Some(mut second) = take_last(&wk, &mut passes) else {
        return Err(NoMemory);
    };
    let Some(mut first) = take_last(&wk, &mut passes) else {
        return Err(NoMemory);
    };
    if wk.shape().cpus != 2 || wk.shape().tasks != 2 || first.seat() != 0 || second.seat() != 1 {
        return Err(NoMemory);
    }
    turns_of_pair(rt, alloc, &wk, &mut first, &mut second, &net)
}

// The reader sleeps on a processor of its own, which is idle then. The writer's item wakes it there from the other
// seat, whose gate is told of the wake.
#[test]
fn a_reader_is_woken_from_another_processor(rt: HostRuntime) -> Result<(), Fail> {
    let Pair {
        sleeps,
        wakes,
        reads,
        ends,
        first,
        second,
    } = run_pair(&rt, rt.alloc())?;
    let slept = [ran(1, None, false, Then::WaitIn(0)), Turned::Idle];
    assert_eq!(rt; sleeps.as_slice(), slept.as_slice());
    assert_eq!(rt; wakes.as_slice(), [goes_on(0), puts_out(0)].as_slice());
    assert_eq!(rt; reads.as_slice(), [takes(1, 0)].as_slice());
    assert_eq!(rt;
        ends.as_slice(),
        [goes_on(0), puts_out(0), exits(0)].as_slice()
    );
    let told = [
        new(0),
        pick(0, 1),
        wake(1, 2),
        enq(1, 3, 1),
        die(0, 2),
        finish(0, 2),
    ];
    assert_eq!(rt; entries_of(&first), told.as_slice());
    let told = [
        Entry::New { t: 1, m: 1, c: 1 },
        Entry::Pick { t: 1, n: 1, c: 1 },
        Entry::Sleep { t: 1, m: 2, c: 1 },
        Entry::Finish { t: 1, n: 2, c: 1 },
        Entry::Pick { t: 1, n: 3, c: 1 },
    ];
    assert_eq!(rt; entries_of(&second), told.as_slice());
    Ok(())
}
