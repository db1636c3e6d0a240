// Calls of the top call, for the tests.
use super::*;
use handoff_data::NoMemory;
use std::alloc::Global;
use std::sync::Wait;
use std::thread::Threads;

// The room of a sink that takes any output here.
pub(crate) const ROOM: usize = 16_384;

// How many works there are at most here.
const WORKS: usize = 16;

pub(crate) const HELLO: &str =
    "cpus 1\ntask a lines\n| hello\n| world\ntask b upper from a\ntask c number from b\nend\n";

pub(crate) const HELLO_REPORT: &str = "c: 1 HELLO\nc: 2 WORLD\n";

pub(crate) fn words(alloc: Global, texts: &[&str]) -> Result<Vec<String>, NoMemory> {
    let mut words = Vec::new(alloc);
    for text in texts {
        words.push(String::from_str(alloc, text)?)?;
    }
    Ok(words)
}

// Gates that keep what they are told.
pub(crate) fn lists(alloc: Global, count: usize) -> Result<Vec<ListGate>, NoMemory> {
    let mut gates = Vec::new(alloc);
    for _ in 0..count {
        gates.push(ListGate::new(alloc))?;
    }
    Ok(gates)
}

// What these words answer between these ends.
pub(crate) fn call<S: Source, K: Sink, G: Gate + Send, R: AllocGlobal + Threads + Wait + Sync>(
    rt: &R,
    texts: &[&str],
    input: &mut S,
    out: &mut K,
    gates: &mut Vec<G>,
) -> Result<Status, NoMemory> {
    let customs = Vec::new(rt.alloc());
    call_with(rt, texts, input, out, gates, customs)
}

// What these words answer between these ends, with few works.
pub(crate) fn call_with<S: Source, K: Sink, G: Gate + Send, R: AllocGlobal + Threads + Wait + Sync>(
    rt: &R,
    texts: &[&str],
    input: &mut S,
    out: &mut K,
    gates: &mut Vec<G>,
    customs: Vec<Box<dyn Work + Send + Drop>>,
) -> Result<Status, NoMemory> {
    if customs.len() > WORKS {
        return Err(NoMemory);
    }
    let alloc = rt.alloc();
    let words = words(alloc, texts)?;
    let words = words.as_slice();
    Ok(wakerun(rt, alloc, words, input, out, gates, customs))
}

// What these words answer and write between ends in memory, where these calls of the source and of the sink fail.
pub(crate) fn call_on<G: Gate + Send, R: AllocGlobal + Threads + Wait + Sync>(
    rt: &R,
    texts: &[&str],
    input: &[u8],
    fails: (&[u64], &[u64]),
    gates: &mut Vec<G>,
) -> Result<(Status, Vec<u8>), NoMemory> {
    let bytes = Vec::from_slice(rt.alloc(), input)?;
    let mut source = MemSource::new(bytes, Vec::from_slice(rt.alloc(), fails.0)?);
    let mut sink = MemSink::new(rt.alloc(), ROOM, Vec::from_slice(rt.alloc(), fails.1)?)?;
    let status = call(rt, texts, &mut source, &mut sink, gates)?;
    Ok((status, Vec::from_slice(rt.alloc(), sink.as_slice())?))
}

// What a run on so many workers answers and writes.
pub(crate) fn run_on<G: Gate + Send, R: AllocGlobal + Threads + Wait + Sync>(
    rt: &R,
    workers: u32,
    input: &str,
    gates: &mut Vec<G>,
) -> Result<(Status, Vec<u8>), NoMemory> {
    let number = format!(in rt.alloc(); "{workers}")?;
    let texts = ["run", "--workers", number.as_str()];
    call_on(rt, &texts, input.as_bytes(), (&[], &[]), gates)
}
