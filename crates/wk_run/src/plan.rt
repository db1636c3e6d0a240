// The command `plan`.
ghost use Rattle.std.specs.Prelude.{◌≡◌, ◌≢◌, ℕ};
ghost use Rattle.wk_run.specs.Ends.{Rose};
ghost use Rattle.wk_run.specs.Plan.{WritesPlan, WritesPlanPart};
ghost use Rattle.wk_run.specs.Run.{ReadsFault};
ghost use Rattle.wk_run.specs.declared.journal_fault.JournalFault.{JournalFault as Fault};

use crate::ends::{Sink, Source};
use crate::scripts::script_of;
use crate::status::Status;
use crate::transfer::write_output;
use script_writer::write_script;
use std::alloc::Global;

// Reads a script, whose caller brings so many works, and writes its one spelling.
#[tactic(auto, using(crate::proofs::OutputLaws::answer_laws, crate::proofs::OutputLaws::plan_laws))]
pub(crate) fn plan_cmd<S: Source, K: Sink>(
    alloc: Global,
    input: &mut S,
    out: &mut K,
    customs: u32,
) -> Status
    ensures read { result ≢ Status.Usage }
    ensures no_journals { (fault : Fault) → result ≢ Status.Illegal fault }
    ensures ok { result ≡ Status.Ok
        → WritesPlan customs (S.remaining input.old) (S.remaining input.new) (K.taken out.old) (K.taken out.new) }
    ensures bad_script { (line code : ℕ) → result ≡ Status.BadScript line code
        → ReadsFault customs (S.remaining input.old) (S.remaining input.new) line code }
    ensures read_fault { result ≡ Status.ReadFault → Rose (S.faults input.old) (S.faults input.new) }
    ensures write_fault { result ≡ Status.WriteFault → Rose (K.faults out.old) (K.faults out.new)
        × WritesPlanPart customs (S.remaining input.old) (S.remaining input.new) (K.taken out.old) (K.taken out.new) }
    ensures unwritten { result ≢ Status.Ok → result ≢ Status.WriteFault → out.new ≡ out.old }
    ensures source_quiet { result ≢ Status.ReadFault → S.faults input.new ≡ S.faults input.old }
    ensures sink_quiet { result ≢ Status.WriteFault → K.faults out.new ≡ K.faults out.old }
{
    let script = match script_of(alloc, input, customs) {
        Ok(script) => script,
        Err(status) => return status,
    };
    let Ok(text) = write_script(alloc, &script) else {
        return Status::NoMemory;
    };
    match write_output(out, text.as_slice()) {
        Ok(()) => Status::Ok,
        Err(_) => Status::WriteFault,
    }
}
