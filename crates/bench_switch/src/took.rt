//! Times.
ghost use Rattle.std.specs.Prelude.{◌≡◌};

use crate::plain::{Plain, PlainWords, repeat_plain};
use std::rt::Runtime;
use std::time::{Duration, Instant};

/// Nanoseconds of one switch, and of its plain operations.
#[derive(Clone, Copy, Drop)]
pub struct Took {
    pub own: f64,
    pub plain: f64,
}

/// Nanoseconds of one of so many.
pub fn each(took: Duration, count: u32) -> f64 {
    took.as_secs_f64() * 1e9 / f64::from(count)
}

/// Nanoseconds of the plain operations of one switch.
pub fn time_plain<P: Plain, R: Runtime>(rt: &R, count: u32) -> Option<f64> {
    let words = PlainWords::new();
    let begun = Instant::now(rt).ok()?;
    repeat_plain::<P>(&words, count);
    Some(each(begun.elapsed(rt).ok()?, count))
}

/// Nanoseconds between two looks at the clock, one after the other: the least of a hundred.
pub fn time_clock<R: Runtime>(rt: &R) -> Option<f64> {
    let mut least = time_looks(rt)?;
    for _ in 1..100 {
        let looks = time_looks(rt)?;
        if looks < least {
            least = looks;
        }
    }
    Some(least)
}

fn time_looks<R: Runtime>(rt: &R) -> Option<f64> {
    let begun = Instant::now(rt).ok()?;
    Some(each(begun.elapsed(rt).ok()?, 1))
}
