// The program `wakerun`: standard input and output, the words of the command line, and the top call between them.
#![tactic(auto)]

use handoff_data::{Line, NoMemory, is_line};
use std::alloc::{AllocError, Global};
use std::env;
use std::io::ErrorKind;
use std::process::ExitCode;
use std::rt::Env;
use std::sync::Wait;
use std::thread::Threads;
use wk_run::{Closing, ListGate, Sink, Source, Status, StdSink, StdSource, Swap, Work, wakerun};

// How many seats a script can have: 16 processors and 4 agents.
const SEATS: usize = 20;

fn main(rt: HostRuntime) -> ExitCode {
    let status = match words(&rt) {
        Ok(Some(words)) => {
            let mut input = StdSource::new(rt.stdin());
            let mut out = StdSink::new(rt.stdout());
            answer(&rt, words.as_slice(), &mut input, &mut out).unwrap_or(Status::NoMemory)
        }
        Ok(None) => Status::Usage,
        Err(_) => Status::NoMemory,
    };
    if status != Status::Ok {
        // Where standard error takes nothing, the exit status still tells.
        let _ = eprintln!(rt; "{status}");
    }
    ExitCode::from(status.code())
}

// The answer to the words of the command line. The work 0 of a script is `Swap`, and the work 1 is `Closing`.
fn answer<S: Source, K: Sink, R: AllocGlobal + Threads + Wait + Sync>(
    rt: &R,
    words: &[String],
    input: &mut S,
    out: &mut K,
) -> Result<Status, NoMemory> {
    let alloc = rt.alloc();
    let mut gates = gates(alloc, words)?;
    let mut customs: Vec<Box<dyn Work + Send + Drop>> = Vec::with_capacity(alloc, 2)?;
    customs.push(Box::new(alloc, Swap::new(alloc))?)?;
    customs.push(Box::new(alloc, Closing::new(alloc, last_line(alloc)?))?)?;
    Ok(wakerun(rt, alloc, words, input, out, &mut gates, customs))
}

// The line that `Closing` puts out at the end.
fn last_line(alloc: Global) -> Result<Line, NoMemory> {
    let bytes = Vec::from_slice(alloc, b"(end)")?;
    if !is_line(bytes.as_slice()) {
        unreachable!()
    }
    Ok(Line::new(bytes))
}

// A gate for each seat: it keeps its list where a word asks for the journals, and else nothing.
fn gates(alloc: Global, words: &[String]) -> Result<Vec<ListGate>, AllocError> {
    let is_traced = words.iter().any(|word| word.as_str() == "--trace");
    let mut gates = Vec::with_capacity(alloc, SEATS)?;
    for _ in 0..SEATS {
        gates.push(gate(alloc, is_traced))?;
    }
    Ok(gates)
}

fn gate(alloc: Global, is_traced: bool) -> ListGate {
    if is_traced {
        ListGate::new(alloc)
    } else {
        ListGate::quiet()
    }
}

// The words behind the program's name; none where a word isn't UTF-8.
fn words(rt: &(impl Env + AllocGlobal)) -> Result<Option<Vec<String>>, AllocError> {
    let args = match env::args(rt) {
        Ok(args) => args,
        Err(error) if error.kind() == ErrorKind::OutOfMemory => return Err(AllocError),
        Err(_) => return Ok(None),
    };
    let mut words = Vec::new(rt.alloc());
    for word in args.skip(1) {
        words.push(word)?;
    }
    Ok(Some(words))
}
