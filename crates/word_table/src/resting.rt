//! How a seat waits while a word stays as it is.
ghost use Rattle.std.specs.Prelude.{◌<◌};
ghost use Rattle.word_steps.specs.Words.{STRIDE};
ghost use Rattle.word_table.specs.Layout.{rows_of};

use crate::layout::STRIDE;
use crate::words::Words;
use crossbeam_utils::Backoff;
use handoff_data::Kept;
use std::sync::Wait;
use std::time::Duration;

// How long a seat sleeps at most before it tries again.
const NAP_MICROS: u64 = 50;

/// Lets some time pass between two tries of a seat that waits for the word of `n` in the column, which it found as
/// `found`: it pauses for longer from try to try, then yields its processor, and after eleven tries sleeps while the
/// word is as it was found, for no longer than a nap. So who changes the word need not wake anybody.
#[cold]
pub fn rest<B: Kept, R: Wait>(
    rt: &R,
    words: &Words<B>,
    backoff: &Backoff,
    n: u32,
    column: usize,
    found: u64,
)
    requires row { n < rows_of words.now.shape }
    requires column { column < STRIDE }
{
    if !backoff.is_completed() {
        backoff.snooze();
        return;
    }
    let low = (found % (1 << 32)) as u32;
    words.table.shared.park_timeout(
        rt,
        STRIDE * n as usize + column,
        low,
        Duration::from_micros(NAP_MICROS),
    );
}
