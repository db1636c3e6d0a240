// The loops over a source and a sink.
ghost use Rattle.std.specs.Prelude.{◌≡◌, ◌+◌, ◌^◌, ◌<◌, ◌≤◌, ◌++◌, length, take, IfOk, OnOk, OnErr, IfErr};
ghost use Rattle.std.specs.Io.KnownBytes.{Appends, IsAtEnd};
ghost use Rattle.wk_run.specs.Ends.{HasCause};
ghost use Rattle.wk_run.specs.Input.{ReadsInput, TakesSome, WritesPart};
ghost use Rattle.wk_run.specs.ReadError.{ErrorCause};
ghost use Rattle.wk_run.specs.declared.transfer.ReadError.TheVariants.{Fault, NoMemory};

use crate::ends::{Failed, Sink, Source};
use std::alloc::{AllocError, Global};

// How many bytes are asked for at a time.
const PIECE: usize = 65_536;

// Why an input was not read.
#[derive(Clone, Copy, Debug, PartialEq, Eq)]
pub(crate) enum ReadError {
    Fault,
    NoMemory,
}

impl From<Failed> for ReadError {
    ghost from_gives = { λ _ e. e ≡ Fault };

    fn from(_failed: Failed) -> ReadError {
        ReadError::Fault
    }
}

impl From<AllocError> for ReadError {
    ghost from_gives = { λ _ e. e ≡ NoMemory };

    fn from(_refused: AllocError) -> ReadError {
        ReadError::NoMemory
    }
}

// Reads a source to its end, or to one byte past the limit.
//
// Each turn takes a byte at least, meets the end or fails, so there are at most `limit + 2` turns.
pub(crate) fn read_input<S: Source>(
    alloc: Global,
    input: &mut S,
    limit: usize,
) -> Result<Vec<u8>, ReadError>
    requires { limit < 2 ^ 40 }
    ensures read { IfOk result (λ read. ReadsInput limit (S.remaining input.old) (S.remaining input.new) read.items) }
    ensures quiet { OnOk result (S.faults input.new ≡ S.faults input.old) }
    ensures cause { IfErr result (ErrorCause (S.faults input.old) (S.faults input.new)) }
{
    let mut read = Vec::new(alloc);
    let mut piece = vec![in alloc; 0u8; PIECE]?;
    while read.len() <= limit {
        let room = PIECE.min(limit + 1 - read.len());
        let count = read_some(input, &mut piece, room, &mut read)?;
        if count == 0 {
            return Ok(read);
        }
    }
    Ok(read)
}

// Reads at most `room` bytes through a piece, and adds them to those that were read.
fn read_some<S: Source>(
    input: &mut S,
    piece: &mut [u8],
    room: usize,
    read: &mut Vec<u8>,
) -> Result<usize, ReadError>
    requires some { 0 < room }
    requires fits { room ≤ length piece.old }
    ensures bound { IfOk result (λ n. n ≤ room) }
    ensures read { IfOk result (λ n.
        TakesSome (S.remaining input.old) (S.remaining input.new) read.old.items read.new.items n) }
    ensures end { IfOk result (λ n. n ≡ 0 → IsAtEnd (S.remaining input.new)) }
    ensures quiet { OnOk result (S.faults input.new ≡ S.faults input.old) }
    ensures cause { IfErr result (ErrorCause (S.faults input.old) (S.faults input.new)) }
{
    let piece = &mut piece[..room];
    let count = input.read(piece)?;
    read.extend_from_slice(&piece[..count])?;
    Ok(count)
}

// Writes all the bytes, and then flushes. A fault leaves a part from their front written.
pub(crate) fn write_output<K: Sink>(out: &mut K, bytes: &[u8]) -> Result<(), Failed>
    ensures written { OnOk result (Appends (K.taken out.old) (K.taken out.new) bytes.now) }
    ensures part { OnErr result (WritesPart (K.taken out.old) (K.taken out.new) bytes.now) }
    ensures cause { HasCause (K.faults out.old) (K.faults out.new) result }
{
    let mut rest = bytes;
    while !rest.is_empty() {
        let count = out.write(rest)?;
        (_, rest) = rest.split_at(count);
    }
    out.flush()
}
