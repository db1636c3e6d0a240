// The command `run`.
ghost use Rattle.std.specs.Prelude.{◌≡◌, ◌≢◌, ◌<◌, ◌≤◌, ◌^◌, ℕ, List, length, map, IfOk, true, false};
ghost use Rattle.task_script.specs.declared.plan.Plan.{Plan};
ghost use Rattle.pipe_tasks.specs.Tasks.{forest_lines, meant_tasks};
ghost use Rattle.task_script.specs.Script.{IsScript};
ghost use Rattle.wk_run.specs.Ends.{Rose};
ghost use Rattle.wk_run.specs.declared.journal_fault.JournalFault.{JournalFault as Fault};
ghost use Rattle.wk_run.specs.Run.{report_of, ReadsFault, TellsOutput, WritesRun, WritesRunPart};

use crate::ends::{Sink, Source};
use crate::report::{push_journals, report_text};
use crate::scripts::script_of;
use crate::status::Status;
use crate::transfer::write_output;
use command_words::RunOptions;
use handoff_data::{Lines, NoMemory};
use pipe_bodies::Work;
use run_cells::Gate;
use run_script::run_script;
use run_trace::run_traced;
use std::alloc::Global;
use std::sync::Wait;
use std::thread::Threads;
use task_script::Script;

// Reads a script, runs it and writes its output. Nothing is written before the whole output is there.
#[tactic(auto, using(crate::proofs::OutputLaws::answer_laws, crate::proofs::OutputLaws::run_laws))]
pub(crate) fn run_cmd<W: Work, S: Source, K: Sink, G: Gate + Send, R: Threads + Wait + Sync>(
    rt: &R,
    alloc: Global,
    options: RunOptions,
    input: &mut S,
    out: &mut K,
    gates: &mut Vec<G>,
    customs: Vec<W>,
) -> Status
    requires workers { (0 < options.workers) × (options.workers ≤ 16) }
    requires customs { length customs.items < 2 ^ 32 }
    ensures read { result ≢ Status.Usage }
    ensures no_journals { (fault : Fault) → result ≢ Status.Illegal fault }
    ensures ok { result ≡ Status.Ok → WritesRun G.told options (map W.meaning customs.items) (S.remaining input.old)
        (S.remaining input.new) (K.taken out.old) (K.taken out.new) gates.old.items gates.new.items }
    ensures bad_script { (line code : ℕ) → result ≡ Status.BadScript line code
        → ReadsFault (length customs.items) (S.remaining input.old) (S.remaining input.new) line code }
    ensures read_fault { result ≡ Status.ReadFault → Rose (S.faults input.old) (S.faults input.new) }
    ensures write_fault { result ≡ Status.WriteFault → Rose (K.faults out.old) (K.faults out.new)
        × WritesRunPart G.told options (map W.meaning customs.items) (S.remaining input.old)
        (S.remaining input.new) (K.taken out.old) (K.taken out.new) gates.old.items gates.new.items }
    ensures untold { result ≢ Status.Ok → result ≢ Status.WriteFault → result ≢ Status.NoMemory
        → gates.new ≡ gates.old }
    ensures gate_count { length gates.new.items ≡ length gates.old.items }
    ensures unwritten { result ≢ Status.Ok → result ≢ Status.WriteFault → out.new ≡ out.old }
    ensures source_quiet { result ≢ Status.ReadFault → S.faults input.new ≡ S.faults input.old }
    ensures sink_quiet { result ≢ Status.WriteFault → K.faults out.new ≡ K.faults out.old }
{
    let count = customs.len() as u32;
    let script = match script_of(alloc, input, count) {
        Ok(script) => script,
        Err(status) => return status,
    };
    let Ok(text) = run_output(rt, alloc, options, &script, gates, customs) else {
        return Status::NoMemory;
    };
    match write_output(out, text.as_slice()) {
        Ok(()) => Status::Ok,
        Err(_) => Status::WriteFault,
    }
}

// Runs a script, and gives its output.
fn run_output<W: Work, G: Gate + Send, R: Threads + Wait + Sync>(
    rt: &R,
    alloc: Global,
    options: RunOptions,
    script: &Script,
    gates: &mut Vec<G>,
    customs: Vec<W>,
) -> Result<Vec<u8>, NoMemory>
    requires script { (bytes : List ℕ) × IsScript (length customs.items) bytes script.now }
    requires workers { (0 < options.workers) × (options.workers ≤ 16) }
    ensures output { IfOk result (λ text.
        TellsOutput G.told options (map W.meaning customs.items) script.now text.items gates.old.items
        gates.new.items) }
    ensures gate_count { length gates.new.items ≡ length gates.old.items }
{
    if options.trace {
        return traced_output(rt, alloc, options, script, gates, customs);
    }
    report_output(rt, alloc, options, script, gates, customs)
}

// The report of a script whose tasks gave these lines.
fn report_of(
    alloc: Global,
    options: RunOptions,
    script: &Script,
    outputs: Vec<Lines>,
) -> Result<Vec<u8>, NoMemory>
    ensures { (works : List Plan) → outputs.items ≡ forest_lines (meant_tasks works script.now.tasks)
        → IfOk result (λ text. text.items ≡ report_of options works script.now) }
{
    report_text(alloc, options.plain, script.tasks.as_slice(), outputs)
}

// Runs a script, and gives its report, where that is the whole output.
#[tactic(auto, using(crate::proofs::OutputLaws::report_alone))]
fn report_output<W: Work, G: Gate + Send, R: Threads + Wait + Sync>(
    rt: &R,
    alloc: Global,
    options: RunOptions,
    script: &Script,
    gates: &mut Vec<G>,
    customs: Vec<W>,
) -> Result<Vec<u8>, NoMemory>
    requires script { (bytes : List ℕ) × IsScript (length customs.items) bytes script.now }
    requires workers { (0 < options.workers) × (options.workers ≤ 16) }
    requires alone { options.trace ≡ false }
    ensures output { IfOk result (λ text.
        TellsOutput G.told options (map W.meaning customs.items) script.now text.items gates.old.items
        gates.new.items) }
    ensures gate_count { length gates.new.items ≡ length gates.old.items }
{
    let outputs = run_script::<W, G, R>(rt, alloc, script, options.workers, gates, customs)?;
    report_of(alloc, options, script, outputs)
}

// Runs a script, and gives its report and the text of its journals.
#[tactic(auto, using(crate::proofs::OutputLaws::report_traced))]
fn traced_output<W: Work, G: Gate + Send, R: Threads + Wait + Sync>(
    rt: &R,
    alloc: Global,
    options: RunOptions,
    script: &Script,
    gates: &mut Vec<G>,
    customs: Vec<W>,
) -> Result<Vec<u8>, NoMemory>
    requires script { (bytes : List ℕ) × IsScript (length customs.items) bytes script.now }
    requires workers { (0 < options.workers) × (options.workers ≤ 16) }
    requires traced { options.trace ≡ true }
    ensures output { IfOk result (λ text.
        TellsOutput G.told options (map W.meaning customs.items) script.now text.items gates.old.items
        gates.new.items) }
    ensures gate_count { length gates.new.items ≡ length gates.old.items }
{
    let (outputs, journals) = run_traced::<W, G, R>(
        rt,
        alloc,
        script,
        options.workers,
        gates,
        customs,
    )?;
    let mut text = report_of(alloc, options, script, outputs)?;
    push_journals(alloc, &mut text, &journals)?;
    Ok(text)
}
