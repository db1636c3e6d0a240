// The command `check`.
ghost use Rattle.std.specs.Prelude.{◌≡◌, ◌≢◌, ◌<◌, ◌^◌, ◌⊎◌, ◌↔◌, ℕ, List, Some, Err, IfOk, string_bytes};
ghost use Rattle.handoff_data.specs.History.{History};
ghost use Rattle.journal_text.specs.Text.{entries_in, entry_count};
ghost use Rattle.wk_run.specs.Check.{legal_line, IsFaultOf, IsLegalText, ReadsIllegal, WritesVerdict};
ghost use Rattle.wk_run.specs.Check.{WritesVerdictPart};
ghost use Rattle.wk_run.specs.Ends.{Rose};
ghost use Rattle.wk_run.specs.declared.check.CheckError.TheVariants.{Illegal as illegal, NoMemory as refused};
ghost use Rattle.wk_run.specs.declared.journal_fault.JournalFault.{JournalFault as Fault};

use crate::ends::{Sink, Source};
use crate::journal_fault::JournalFault;
use crate::status::Status;
use crate::transfer::{ReadError, read_input, write_output};
use handoff_data::{Journal, Journals, NoMemory};
use journal_legal::{Verdict, legal};
use journal_text::{JournalError, TEXT_LIMIT, read_journal, texts_are_bounded};
use std::alloc::Global;

// Reads journals, judges them, and writes how many entries they have where they are legal.
pub(crate) fn check_cmd<S: Source, K: Sink>(alloc: Global, input: &mut S, out: &mut K) -> Status
    ensures read { result ≢ Status.Usage }
    ensures no_script { (line code : ℕ) → result ≢ Status.BadScript line code }
    ensures ok { result ≡ Status.Ok
        → WritesVerdict (S.remaining input.old) (S.remaining input.new) (K.taken out.old) (K.taken out.new) }
    ensures illegal { (fault : Fault) → result ≡ Status.Illegal fault
        → ReadsIllegal (S.remaining input.old) (S.remaining input.new) fault }
    ensures no_legal { (fault : Fault) → result ≡ Status.Illegal fault
        → (bytes : List ℕ) (journals : History) → S.remaining input.old ≡ Some bytes → ¬ (IsLegalText bytes journals) }
    ensures read_fault { result ≡ Status.ReadFault → Rose (S.faults input.old) (S.faults input.new) }
    ensures write_fault { result ≡ Status.WriteFault → Rose (K.faults out.old) (K.faults out.new)
        × WritesVerdictPart (S.remaining input.old) (S.remaining input.new) (K.taken out.old) (K.taken out.new) }
    ensures unwritten { result ≢ Status.Ok → result ≢ Status.WriteFault → out.new ≡ out.old }
    ensures source_quiet { result ≢ Status.ReadFault → S.faults input.new ≡ S.faults input.old }
    ensures sink_quiet { result ≢ Status.WriteFault → K.faults out.new ≡ K.faults out.old }
{
    // So bytes that are a text were read to the source's end.
    texts_are_bounded();
    let bytes = match read_input(alloc, input, TEXT_LIMIT) {
        Ok(bytes) => bytes,
        Err(ReadError::Fault) => return Status::ReadFault,
        Err(ReadError::NoMemory) => return Status::NoMemory,
    };
    let line = match verdict_line(alloc, bytes.as_slice()) {
        Ok(line) => line,
        Err(error) => return status_of(error),
    };
    match write_output(out, line.as_bytes()) {
        Ok(()) => Status::Ok,
        Err(_) => Status::WriteFault,
    }
}

// Why there is no line on legal journals.
#[derive(Clone, Copy, Debug, PartialEq, Eq)]
pub(crate) enum CheckError {
    Illegal(JournalFault),
    NoMemory,
}

// The answer where there is no line.
fn status_of(error: CheckError) -> Status
    ensures illegal { (fault : Fault) → result ≡ Status.Illegal fault ↔ error ≡ illegal fault }
    ensures no_memory { result ≡ Status.NoMemory ↔ error ≡ refused }
    ensures no_other { (result ≡ Status.NoMemory) ⊎ ((fault : Fault) × (result ≡ Status.Illegal fault)) }
{
    match error {
        CheckError::Illegal(fault) => Status::Illegal(fault),
        CheckError::NoMemory => Status::NoMemory,
    }
}

impl From<NoMemory> for CheckError {
    ghost use Rattle.std.specs.Prelude.{◌≡◌};
    ghost use Rattle.wk_run.specs.declared.check.CheckError.TheVariants.{NoMemory as refused};

    ghost from_gives = { λ _ e. e ≡ refused };

    fn from(_refused: NoMemory) -> CheckError {
        CheckError::NoMemory
    }
}

// The line on the journals whose text the bytes are.
fn verdict_line(alloc: Global, bytes: &[u8]) -> Result<String, CheckError>
    ensures line { IfOk result (λ line.
        (j : History) × IsLegalText bytes.now j × (string_bytes line ≡ legal_line j)) }
    ensures illegal { (fault : Fault) → result ≡ Err (illegal fault) → IsFaultOf bytes.now fault }
{
    let journals = match read_journal(alloc, bytes) {
        Ok(journals) => journals,
        Err(JournalError::Text { line }) => {
            return Err(CheckError::Illegal(JournalFault::Text { line }));
        }
        Err(JournalError::NoMemory) => return Err(CheckError::NoMemory),
    };
    texts_are_bounded();
    match legal(alloc, &journals)? {
        Verdict::Legal => Ok(count_line(alloc, &journals)?),
        Verdict::FirstBad { seat, index, rule } => {
            Err(CheckError::Illegal(JournalFault::Entry { seat, index, rule }))
        }
        Verdict::Unended { t } => Err(CheckError::Illegal(JournalFault::Unended { t })),
    }
}

// The line on legal journals.
fn count_line(alloc: Global, journals: &Journals) -> Result<String, NoMemory>
    requires { entry_count journals.now < 2 ^ 64 }
    ensures { IfOk result (λ line. string_bytes line ≡ legal_line journals.now) }
{
    let count = count_entries(journals.seats.as_slice());
    Ok(format!(in alloc; "legal {count}\n")?)
}

// How many entries the journals have.
fn count_entries(seats: &[Journal]) -> u64
    requires { entries_in seats.now < 2 ^ 64 }
    ensures { result ≡ entries_in seats.now }
{
    let mut count = 0;
    for journal in seats {
        count += journal.as_slice().len() as u64;
    }
    count
}
