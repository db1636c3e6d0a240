// How a run ended.
ghost use Rattle.std.specs.Prelude.{◌≡◌};

use crate::journal_fault::JournalFault;
use std::fmt;

/// How a run ended.
#[derive(Clone, Copy, Debug, PartialEq, Eq)]
pub enum Status {
    /// The output was written, whole.
    Ok,
    /// The bytes that were read aren't a script: the number of the faulty line, from 1, and the code of its fault.
    BadScript { line: u64, code: u32 },
    /// The words have no reading.
    Usage,
    /// The source failed.
    ReadFault,
    /// The sink failed.
    WriteFault,
    /// Memory was refused.
    NoMemory,
    /// The bytes that were read aren't legal journals.
    Illegal(JournalFault),
}

impl Status {
    ghost use Rattle.wk_run.specs.Status.{code_of};

    /// The exit status of the program: 0 for `Ok`, and else a number from 1 on, in the order of the answers.
    pub fn code(&self) -> u8
        ensures { result ≡ code_of self.now }
    {
        match self {
            Status::Ok => 0,
            Status::BadScript { .. } => 1,
            Status::Usage => 2,
            Status::ReadFault => 3,
            Status::WriteFault => 4,
            Status::NoMemory => 5,
            Status::Illegal(_) => 6,
        }
    }
}

// The line that the program prints to standard error.
impl fmt::Display for Status {
    fn fmt<W: fmt::Write>(&self, f: &mut fmt::Formatter<W>) -> fmt::Result {
        match self {
            Status::Ok => write!(f, "wakerun: ok"),
            Status::BadScript { line, code } => {
                let name = fault_name(*code);
                write!(f, "wakerun: line {line}: {code} {name}")
            }
            Status::Usage => write!(f, "wakerun: usage: run, plan, check or gen N SEED"),
            Status::ReadFault => write!(f, "wakerun: read fault"),
            Status::WriteFault => write!(f, "wakerun: write fault"),
            Status::NoMemory => write!(f, "wakerun: no memory"),
            Status::Illegal(JournalFault::Text { line }) => {
                write!(f, "wakerun: journal line {line}")
            }
            Status::Illegal(JournalFault::Entry { seat, index, rule }) => {
                write!(f, "wakerun: illegal seat {seat} entry {index} rule {rule}")
            }
            Status::Illegal(JournalFault::Unended { t }) => {
                write!(f, "wakerun: task {t} not ended")
            }
        }
    }
}

// The name of a script's fault.
fn fault_name(code: u32) -> &'static str {
    match code {
        1 => "LineTooLong",
        2 => "UnknownWord",
        3 => "BadNumber",
        4 => "BadName",
        5 => "NameTwice",
        6 => "NoSuchTask",
        7 => "AlreadyRead",
        8 => "TooMany",
        9 => "BadMask",
        10 => "BadOrder",
        11 => "NoEnd",
        12 => "AfterEnd",
        13 => "BadCustom",
        14 => "TextWithoutTask",
        15 => "AgentMask",
        _ => "TooLong",
    }
}
