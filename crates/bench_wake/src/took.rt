//! Times.
ghost use Rattle.std.specs.Prelude.{◌≡◌};

use std::rt::Runtime;
use std::time::Instant;
use uses_words::plain::each;

/// Nanoseconds of one wake-up, and of its plain operations.
#[derive(Clone, Copy, Drop)]
pub struct Took {
    pub wake: f64,
    pub plain: f64,
}

/// Nanoseconds between two looks at the clock, one after the other: the least of a hundred.
pub fn time_clock<R: Runtime>(rt: &R) -> Option<f64> {
    let mut least = time_looks(rt)?;
    for _ in 1..100 {
        let looks = time_looks(rt)?;
        if looks < least {
            least = looks;
        }
    }
    Some(least)
}

fn time_looks<R: Runtime>(rt: &R) -> Option<f64> {
    let begun = Instant::now(rt).ok()?;
    Some(each(begun.elapsed(rt).ok()?, 1))
}
