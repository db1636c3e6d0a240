// A source and a sink in memory, whose calls can be made to fail. A call's number counts from 0.
use crate::ends::{Failed, Sink, Source};
use handoff_data::NoMemory;
use std::alloc::Global;
use std::marker::Model;

// Which calls are to fail, and how many there were.
#[derive(Drop)]
struct Calls {
    fails: Vec<u64>,
    made: u64,
    faults: u64,
}

ghost use Rattle.std.specs.Prelude.{◌≡◌, ◌↔◌, min, Contains, IsErr};
ghost use Rattle.wk_run.specs.Ends.{HasCause, Rose};
ghost use Rattle.wk_run.specs.Memory.{one_more, CountsFault};

// Counts a call, and answers whether it is one that is to succeed.
fn count_call(calls: &mut Calls) -> Result<(), Failed>
    ensures fails { calls.new.fails ≡ calls.old.fails }
    ensures made { calls.new.made ≡ one_more calls.old.made }
    ensures failed { IsErr result ↔ Contains calls.old.fails.items calls.old.made }
    ensures faults { CountsFault calls.old.faults calls.new.faults result }
    ensures cause { HasCause calls.old.faults calls.new.faults result }
{
    let number = calls.made;
    calls.made = number.saturating_add(1);
    if calls.fails.contains(&number) {
        return Err(fault(calls));
    }
    Ok(())
}

// Counts a fault.
fn fault(calls: &mut Calls) -> Failed
    ensures rose { Rose calls.old.faults calls.new.faults }
    ensures faults { calls.new.faults ≡ one_more calls.old.faults }
    ensures others { calls.new ≡ record calls.old { faults = calls.new.faults } }
{
    calls.faults = calls.faults.saturating_add(1);
    Failed
}

/// A source of the bytes of a `Vec`, which tells the bytes that are left. Contracts see it as an `End`.
#[derive(Drop)]
pub struct MemSource {
    bytes: Vec<u8>,
    at: usize,
    calls: Calls,
}

impl Model for MemSource {
    ghost use Rattle.std.specs.Prelude.{◌≤◌, drop, length};
    ghost use Rattle.wk_run.specs.Memory.{End};

    ghost Value = { End };

    ghost view = { λ s. record {
      bytes = drop s.at s.bytes.items;
      fails = s.calls.fails.items;
      calls = s.calls.made;
      faults = s.calls.faults;
    } };

    ghost invariant = { λ s. s.at ≤ length s.bytes.items };
}

impl MemSource {
    ghost use Rattle.std.specs.Prelude.{◌≡◌};

    /// A source of these bytes, whose calls with the numbers `fails` are to fail. No memory is taken.
    pub fn new(bytes: Vec<u8>, fails: Vec<u64>) -> MemSource
        ensures { result ≡ record { bytes = bytes.items; fails = fails.items; calls = 0; faults = 0 } }
    {
        MemSource {
            bytes,
            at: 0,
            calls: Calls {
                fails,
                made: 0,
                faults: 0,
            },
        }
    }
}

impl Source for MemSource {
    ghost use Rattle.std.specs.Prelude.{◌≡◌, ◌+◌, ◌≤◌, ◌↔◌, length, Some, IfOk, IsErr, Contains};
    ghost use Rattle.std.specs.Io.KnownBytes.{ReadConsumes};
    ghost use Rattle.wk_run.specs.Ends.{HasCause};
    ghost use Rattle.wk_run.specs.Memory.{one_more, CountsFault};

    ghost remaining = { λ s. Some s.bytes };

    ghost faults = { λ s. s.faults };

    fn read(&mut self, buf: &mut [u8]) -> Result<usize, Failed>
        ensures bound { IfOk result (λ n. n ≤ length buf.new) }
        ensures bytes { ReadConsumes (Some self.old.bytes) (Some self.new.bytes) result buf.new }
        ensures cause { HasCause self.old.faults self.new.faults result }

        // A call fails exactly where its number is one of those that are to fail, and is then one fault more.
        ensures failed { IsErr result ↔ Contains self.old.fails self.old.calls }
        ensures fails { self.new.fails ≡ self.old.fails }
        ensures calls { self.new.calls ≡ one_more self.old.calls }
        ensures faults { CountsFault self.old.faults self.new.faults result }
    {
        count_call(&mut self.calls)?;
        let (_, rest) = self.bytes.split_at(self.at);
        let n = copy_front(rest, buf);
        self.at += n;
        Ok(n)
    }
}

// Copies as much as fits from the front of `from` to the front of `to`.
fn copy_front(from: &[u8], to: &mut [u8]) -> usize
    ensures count { result ≡ min (length from.now) (length to.new) }
    ensures copied { take result to.new ≡ take result from.now }
{
    let n = from.len().min(to.len());
    to[..n].copy_from_slice(&from[..n]);
    n
}

ghost use Rattle.std.specs.Prelude.{length, take};

/// A sink into memory that it takes when it is made, which tells the bytes that were taken. Contracts see it as a
/// `Store`.
///
/// A write and a flush are a call each. A write for which there is no room is a fault too.
#[derive(Drop)]
pub struct MemSink {
    bytes: Vec<u8>,
    room: usize,
    calls: Calls,
}

impl Model for MemSink {
    ghost use Rattle.std.specs.Prelude.{◌+◌, ◌≤◌, vec_len, vec_capacity};
    ghost use Rattle.wk_run.specs.Memory.{Store};

    ghost Value = { Store };

    ghost view = { λ s. record {
      bytes = s.bytes.items;
      room = s.room;
      fails = s.calls.fails.items;
      calls = s.calls.made;
      faults = s.calls.faults;
    } };

    ghost invariant = { λ s. vec_len s.bytes + s.room ≤ vec_capacity s.bytes };
}

impl MemSink {
    ghost use Rattle.std.specs.Prelude.{◌≡◌, [], IfOk};

    /// A sink that has taken nothing and has room for so many bytes, whose calls with the numbers `fails` are to fail.
    /// It takes memory for the room, and no other.
    pub fn new(alloc: Global, room: usize, fails: Vec<u64>) -> Result<MemSink, NoMemory>
        ensures { IfOk result (λ s. s ≡ record {
          bytes = [];
          room = room;
          fails = fails.items;
          calls = 0;
          faults = 0;
        }) }
    {
        Ok(MemSink {
            bytes: Vec::with_capacity(alloc, room)?,
            room,
            calls: Calls {
                fails,
                made: 0,
                faults: 0,
            },
        })
    }

    /// The bytes that were taken.
    pub fn as_slice(&self) -> &[u8]
        ensures { result.now ≡ self.now.bytes }
    {
        self.bytes.as_slice()
    }
}

impl Sink for MemSink {
    ghost use Rattle.std.specs.Prelude.{◌≡◌, ◌+◌, ◌<◌, ◌≤◌, ◌↔◌, ◌⊎◌, length, Some, IfOk, IsErr, MatchResult, Contains};
    ghost use Rattle.std.specs.Io.KnownBytes.{WriteAppends, Keeps};
    ghost use Rattle.wk_run.specs.Ends.{HasCause};
    ghost use Rattle.wk_run.specs.Memory.{one_more, CountsFault};

    ghost taken = { λ s. Some s.bytes };

    ghost faults = { λ s. s.faults };

    fn write(&mut self, bytes: &[u8]) -> Result<usize, Failed>
        ensures bound { IfOk result (λ n. n ≤ length bytes.now) }
        ensures some { IfOk result (λ n. 0 < length bytes.now → 0 < n) }
        ensures bytes { WriteAppends (Some self.old.bytes) (Some self.new.bytes) result bytes.now }
        ensures cause { HasCause self.old.faults self.new.faults result }

        // A call fails exactly where it is to fail or has no room for all its bytes, and is then one fault more. One
        // that succeeds takes all.
        ensures failed { IsErr result ↔ (Contains self.old.fails self.old.calls ⊎ (self.old.room < length bytes.now)) }
        ensures whole { IfOk result (λ n. n ≡ length bytes.now) }
        ensures room { MatchResult result (λ n. self.new.room + n ≡ self.old.room)
            (λ _. self.new.room ≡ self.old.room) }
        ensures fails { self.new.fails ≡ self.old.fails }
        ensures calls { self.new.calls ≡ one_more self.old.calls }
        ensures faults { CountsFault self.old.faults self.new.faults result }
    {
        count_call(&mut self.calls)?;
        let count = bytes.len();
        if count > self.room {
            return Err(fault(&mut self.calls));
        }
        if self.bytes.extend_from_slice(bytes).is_err() {
            unreachable!()
        }
        self.room -= count;
        Ok(count)
    }

    fn flush(&mut self) -> Result<(), Failed>
        ensures bytes { Keeps (Some self.old.bytes) (Some self.new.bytes) }
        ensures cause { HasCause self.old.faults self.new.faults result }

        // A flush fails exactly where its number is one of those that are to fail, and is then one fault more.
        ensures failed { IsErr result ↔ Contains self.old.fails self.old.calls }
        ensures room { self.new.room ≡ self.old.room }
        ensures fails { self.new.fails ≡ self.old.fails }
        ensures calls { self.new.calls ≡ one_more self.old.calls }
        ensures faults { CountsFault self.old.faults self.new.faults result }
    {
        count_call(&mut self.calls)
    }
}
