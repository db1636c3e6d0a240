// The top call, which does all that the program does.
ghost use Rattle.std.specs.Prelude.{◌≡◌, ◌≢◌, ◌⊎◌, ◌↔◌, ◌≤◌, ◌<◌, ◌^◌, ℕ, Some, None, List, length, map};
ghost use Rattle.command_words.specs.Words.{reading_of};
ghost use Rattle.command_words.specs.declared.words.RunOptions.{RunOptions};
ghost use Rattle.command_words.specs.declared.words.Words.TheVariants.{Run, Plan, Check};
ghost use Rattle.handoff_data.specs.History.{History};
ghost use Rattle.task_script.specs.Script.{IsScript};
ghost use Rattle.task_script.specs.declared.script.Script.{Script};
ghost use Rattle.wk_run.specs.Check.{IsLegalText, ReadsIllegal, WritesVerdict, WritesVerdictPart};
ghost use Rattle.wk_run.specs.Ends.{Rose};
ghost use Rattle.wk_run.specs.Plan.{WritesPlan, WritesPlanPart};
ghost use Rattle.wk_run.specs.Run.{ReadsFault, WritesRun, WritesRunPart};
ghost use Rattle.wk_run.specs.declared.journal_fault.JournalFault.{JournalFault as Fault};

use crate::check::check_cmd;
use crate::command::run_cmd;
use crate::ends::{Sink, Source};
use crate::plan::plan_cmd;
use crate::status::Status;
use command_words::{Words, read_words, reads_what_is_written};
use handoff_data::NoMemory;
use pipe_bodies::Work;
use run_cells::Gate;
use std::alloc::Global;
use std::sync::Wait;
use std::thread::Threads;

/// Does what the words of the command line ask for: `run` reads a script from `input`, runs it on the scheduler and
/// writes its report to `out`, and behind it the journals of the run where `--trace` asks for them; `plan` reads a
/// script and writes its one spelling; and `check` reads journals and writes how many entries they have, where they are
/// one legal history.
///
/// `customs` are the works that the caller brings: a task `custom I` has the work I, from 0. Its lines are those of the
/// plan that the work means as the call begins. A work that a task has is moved into the task's body, changed through
/// its trait alone and dropped with the body; every other is dropped.
///
/// `words` are the words behind the program's name. A run is driven by as many workers as they say, each in a thread of
/// its own where one can be made. Gate i is told the entries of seat i, oldest first; processors are the first seats.
/// A gate beyond the seats is left alone, and of a seat without a gate nobody is told. Only the run of a script tells
/// anybody anything: after `NoMemory` of `run` the gates may have been told a part of what their seats did.
///
/// Of several answers that would fit, the first of `Usage`, `ReadFault`, `BadScript` or `Illegal`, and `WriteFault` is
/// given, and `NoMemory` in the place of any but `Usage`; it leaves the sink as it was. What the source has left after
/// `NoMemory` or `ReadFault` is not said.
#[tactic(auto, using(crate::proofs::OutputLaws::in_range))]
pub fn wakerun_with<W: Work, S: Source, K: Sink, G: Gate + Send, R: Threads + Wait + Sync>(
    rt: &R,
    alloc: Global,
    words: &[String],
    input: &mut S,
    out: &mut K,
    gates: &mut Vec<G>,
    customs: Vec<W>,
) -> Status
    requires customs { length customs.items < 2 ^ 32 }

    // The words have no reading: nothing was read or written.
    ensures usage { (result ≡ Status.Usage) ↔ (reading_of words.now ≡ None) }
    ensures unread { result ≡ Status.Usage → input.new ≡ input.old }

    // The source was read to its end, the bytes are a script, and the sink took exactly its report as the options want
    // it, and the text of the run's journals where they ask for it. The gates were told the run: each the journal of
    // its seat, and the journals are one legal history of the script's tasks.
    ensures run_ok { (options : RunOptions) → reading_of words.now ≡ Some (Run options) → result ≡ Status.Ok
        → WritesRun G.told options (map W.meaning customs.items) (S.remaining input.old)
        (S.remaining input.new) (K.taken out.old) (K.taken out.new) gates.old.items gates.new.items }

    // .. and the sink took exactly the one spelling of the script; or the bytes are a text of legal journals, and the
    // sink took exactly the line with the number of their entries.
    ensures plan_ok { reading_of words.now ≡ Some Plan → result ≡ Status.Ok
        → WritesPlan (length customs.items) (S.remaining input.old) (S.remaining input.new)
        (K.taken out.old) (K.taken out.new) }
    ensures check_ok { reading_of words.now ≡ Some Check → result ≡ Status.Ok
        → WritesVerdict (S.remaining input.old) (S.remaining input.new) (K.taken out.old) (K.taken out.new) }

    // Nobody is told anything by another command, nor where no script was read.
    ensures untold { ((options : RunOptions) → reading_of words.now ≢ Some (Run options)) → gates.new ≡ gates.old }
    ensures untold_fault { result ≢ Status.Ok → result ≢ Status.WriteFault → result ≢ Status.NoMemory
        → gates.new ≡ gates.old }
    ensures gate_count { length gates.new.items ≡ length gates.old.items }

    // The source was read to its end or to one byte past the limit. The bytes are no script, and this is their first
    // fault; or they are no text of legal journals, and this is why.
    ensures bad_script { (line code : ℕ) → result ≡ Status.BadScript line code
        → (((options : RunOptions) × (reading_of words.now ≡ Some (Run options))) ⊎ (reading_of words.now ≡ Some Plan))
        × ReadsFault (length customs.items) (S.remaining input.old) (S.remaining input.new) line code }
    ensures illegal { (fault : Fault) → result ≡ Status.Illegal fault
        → (reading_of words.now ≡ Some Check)
        × ReadsIllegal (S.remaining input.old) (S.remaining input.new) fault }

    // A fault of an end is the cause of the answer that names it. What was taken is then the front of the output.
    ensures read_fault { result ≡ Status.ReadFault → Rose (S.faults input.old) (S.faults input.new) }
    ensures write_fault { result ≡ Status.WriteFault → Rose (K.faults out.old) (K.faults out.new) }
    ensures run_part { (options : RunOptions) → reading_of words.now ≡ Some (Run options) → result ≡ Status.WriteFault
        → WritesRunPart G.told options (map W.meaning customs.items) (S.remaining input.old)
        (S.remaining input.new) (K.taken out.old) (K.taken out.new) gates.old.items gates.new.items }
    ensures plan_part { reading_of words.now ≡ Some Plan → result ≡ Status.WriteFault
        → WritesPlanPart (length customs.items) (S.remaining input.old) (S.remaining input.new)
        (K.taken out.old) (K.taken out.new) }
    ensures check_part { reading_of words.now ≡ Some Check → result ≡ Status.WriteFault
        → WritesVerdictPart (S.remaining input.old) (S.remaining input.new) (K.taken out.old) (K.taken out.new) }

    // With every other answer the sink is as before, and each count rises only with the answer that names it.
    ensures unwritten { result ≢ Status.Ok → result ≢ Status.WriteFault → out.new ≡ out.old }
    ensures source_quiet { result ≢ Status.ReadFault → S.faults input.new ≡ S.faults input.old }
    ensures sink_quiet { result ≢ Status.WriteFault → K.faults out.new ≡ K.faults out.old }

    // Words that read, bytes that are a script or legal journals, and no rise of a count give the whole output, or want
    // of memory.
    ensures run_complete { (options : RunOptions) → reading_of words.now ≡ Some (Run options)
        → (bytes : List ℕ) → (script : Script)
        → S.remaining input.old ≡ Some bytes → IsScript (length customs.items) bytes script
        → ¬ (Rose (S.faults input.old) (S.faults input.new)) → ¬ (Rose (K.faults out.old) (K.faults out.new))
        → (result ≡ Status.Ok) ⊎ (result ≡ Status.NoMemory) }
    ensures plan_complete { reading_of words.now ≡ Some Plan → (bytes : List ℕ) → (script : Script)
        → S.remaining input.old ≡ Some bytes → IsScript (length customs.items) bytes script
        → ¬ (Rose (S.faults input.old) (S.faults input.new)) → ¬ (Rose (K.faults out.old) (K.faults out.new))
        → (result ≡ Status.Ok) ⊎ (result ≡ Status.NoMemory) }
    ensures check_complete { reading_of words.now ≡ Some Check → (bytes : List ℕ) → (journals : History)
        → S.remaining input.old ≡ Some bytes → IsLegalText bytes journals
        → ¬ (Rose (S.faults input.old) (S.faults input.new)) → ¬ (Rose (K.faults out.old) (K.faults out.new))
        → (result ≡ Status.Ok) ⊎ (result ≡ Status.NoMemory) }
{
    // So the options of a run have 1 to 16 workers.
    reads_what_is_written();
    match read_words(alloc, words) {
        Err(NoMemory) => Status::NoMemory,
        Ok(None) => Status::Usage,
        Ok(Some(Words::Run(options))) => run_cmd(rt, alloc, options, input, out, gates, customs),
        Ok(Some(Words::Plan)) => plan_cmd(alloc, input, out, customs.len() as u32),
        Ok(Some(Words::Check)) => check_cmd(alloc, input, out),
    }
}

/// The call of `wakerun_with` for works in boxes, which may be of many types.
pub fn wakerun<S: Source, K: Sink, G: Gate + Send, R: Threads + Wait + Sync>(
    rt: &R,
    alloc: Global,
    words: &[String],
    input: &mut S,
    out: &mut K,
    gates: &mut Vec<G>,
    customs: Vec<Box<dyn Work + Send + Drop>>,
) -> Status
    requires customs { length customs.items < 2 ^ 32 }

    // The words have no reading: nothing was read or written.
    ensures usage { (result ≡ Status.Usage) ↔ (reading_of words.now ≡ None) }
    ensures unread { result ≡ Status.Usage → input.new ≡ input.old }

    // The source was read to its end, the bytes are a script, and the sink took exactly its report as the options want
    // it, and the text of the run's journals where they ask for it. The gates were told the run: each the journal of
    // its seat, and the journals are one legal history of the script's tasks.
    ensures run_ok { (options : RunOptions) → reading_of words.now ≡ Some (Run options) → result ≡ Status.Ok
        → WritesRun G.told options (map meaning customs.items) (S.remaining input.old)
        (S.remaining input.new) (K.taken out.old) (K.taken out.new) gates.old.items gates.new.items }

    // .. and the sink took exactly the one spelling of the script; or the bytes are a text of legal journals, and the
    // sink took exactly the line with the number of their entries.
    ensures plan_ok { reading_of words.now ≡ Some Plan → result ≡ Status.Ok
        → WritesPlan (length customs.items) (S.remaining input.old) (S.remaining input.new)
        (K.taken out.old) (K.taken out.new) }
    ensures check_ok { reading_of words.now ≡ Some Check → result ≡ Status.Ok
        → WritesVerdict (S.remaining input.old) (S.remaining input.new) (K.taken out.old) (K.taken out.new) }

    // Nobody is told anything by another command, nor where no script was read.
    ensures untold { ((options : RunOptions) → reading_of words.now ≢ Some (Run options)) → gates.new ≡ gates.old }
    ensures untold_fault { result ≢ Status.Ok → result ≢ Status.WriteFault → result ≢ Status.NoMemory
        → gates.new ≡ gates.old }
    ensures gate_count { length gates.new.items ≡ length gates.old.items }

    // The source was read to its end or to one byte past the limit. The bytes are no script, and this is their first
    // fault; or they are no text of legal journals, and this is why.
    ensures bad_script { (line code : ℕ) → result ≡ Status.BadScript line code
        → (((options : RunOptions) × (reading_of words.now ≡ Some (Run options))) ⊎ (reading_of words.now ≡ Some Plan))
        × ReadsFault (length customs.items) (S.remaining input.old) (S.remaining input.new) line code }
    ensures illegal { (fault : Fault) → result ≡ Status.Illegal fault
        → (reading_of words.now ≡ Some Check)
        × ReadsIllegal (S.remaining input.old) (S.remaining input.new) fault }

    // A fault of an end is the cause of the answer that names it. What was taken is then the front of the output.
    ensures read_fault { result ≡ Status.ReadFault → Rose (S.faults input.old) (S.faults input.new) }
    ensures write_fault { result ≡ Status.WriteFault → Rose (K.faults out.old) (K.faults out.new) }
    ensures run_part { (options : RunOptions) → reading_of words.now ≡ Some (Run options) → result ≡ Status.WriteFault
        → WritesRunPart G.told options (map meaning customs.items) (S.remaining input.old)
        (S.remaining input.new) (K.taken out.old) (K.taken out.new) gates.old.items gates.new.items }
    ensures plan_part { reading_of words.now ≡ Some Plan → result ≡ Status.WriteFault
        → WritesPlanPart (length customs.items) (S.remaining input.old) (S.remaining input.new)
        (K.taken out.old) (K.taken out.new) }
    ensures check_part { reading_of words.now ≡ Some Check → result ≡ Status.WriteFault
        → WritesVerdictPart (S.remaining input.old) (S.remaining input.new) (K.taken out.old) (K.taken out.new) }

    // With every other answer the sink is as before, and each count rises only with the answer that names it.
    ensures unwritten { result ≢ Status.Ok → result ≢ Status.WriteFault → out.new ≡ out.old }
    ensures source_quiet { result ≢ Status.ReadFault → S.faults input.new ≡ S.faults input.old }
    ensures sink_quiet { result ≢ Status.WriteFault → K.faults out.new ≡ K.faults out.old }

    // Words that read, bytes that are a script or legal journals, and no rise of a count give the whole output, or want
    // of memory.
    ensures run_complete { (options : RunOptions) → reading_of words.now ≡ Some (Run options)
        → (bytes : List ℕ) → (script : Script)
        → S.remaining input.old ≡ Some bytes → IsScript (length customs.items) bytes script
        → ¬ (Rose (S.faults input.old) (S.faults input.new)) → ¬ (Rose (K.faults out.old) (K.faults out.new))
        → (result ≡ Status.Ok) ⊎ (result ≡ Status.NoMemory) }
    ensures plan_complete { reading_of words.now ≡ Some Plan → (bytes : List ℕ) → (script : Script)
        → S.remaining input.old ≡ Some bytes → IsScript (length customs.items) bytes script
        → ¬ (Rose (S.faults input.old) (S.faults input.new)) → ¬ (Rose (K.faults out.old) (K.faults out.new))
        → (result ≡ Status.Ok) ⊎ (result ≡ Status.NoMemory) }
    ensures check_complete { reading_of words.now ≡ Some Check → (bytes : List ℕ) → (journals : History)
        → S.remaining input.old ≡ Some bytes → IsLegalText bytes journals
        → ¬ (Rose (S.faults input.old) (S.faults input.new)) → ¬ (Rose (K.faults out.old) (K.faults out.new))
        → (result ≡ Status.Ok) ⊎ (result ≡ Status.NoMemory) }
{
    wakerun_with(rt, alloc, words, input, out, gates, customs)
}
