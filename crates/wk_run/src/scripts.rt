// A script is read from a source.
ghost use Rattle.std.specs.Prelude.{◌≡◌, ◌≢◌, ℕ, IfOk, IfErr, OnOk};
ghost use Rattle.wk_run.specs.Ends.{Rose};
ghost use Rattle.wk_run.specs.Run.{ReadsFault, ReadsScript};
ghost use Rattle.wk_run.specs.Status.{TellsNoScript};

use crate::ends::Source;
use crate::status::Status;
use crate::transfer::{ReadError, read_input};
use std::alloc::Global;
use task_script::{SCRIPT_LIMIT, Script, ScriptError, read_script};

// Reads a source to its end, as the bytes of a script whose caller brings so many works; or the answer where there is
// none.
pub(crate) fn script_of<S: Source>(
    alloc: Global,
    input: &mut S,
    customs: u32,
) -> Result<Script, Status>
    ensures script { IfOk result (ReadsScript customs (S.remaining input.old) (S.remaining input.new)) }
    ensures quiet { OnOk result (S.faults input.new ≡ S.faults input.old) }
    ensures answer { IfErr result TellsNoScript }
    ensures bad { IfErr result (λ status. (line code : ℕ) → status ≡ Status.BadScript line code
        → ReadsFault customs (S.remaining input.old) (S.remaining input.new) line code) }
    ensures fault { IfErr result (λ status. status ≡ Status.ReadFault
        → Rose (S.faults input.old) (S.faults input.new)) }
    ensures no_fault { IfErr result (λ status. status ≢ Status.ReadFault → S.faults input.new ≡ S.faults input.old) }
{
    let bytes = match read_input(alloc, input, SCRIPT_LIMIT) {
        Ok(bytes) => bytes,
        Err(ReadError::Fault) => return Err(Status::ReadFault),
        Err(ReadError::NoMemory) => return Err(Status::NoMemory),
    };
    match read_script(alloc, bytes.as_slice(), customs) {
        Ok(script) => Ok(script),
        Err(ScriptError::Bad(fault)) => Err(Status::BadScript {
            line: fault.line,
            code: fault.code,
        }),
        Err(ScriptError::NoMemory) => Err(Status::NoMemory),
    }
}
