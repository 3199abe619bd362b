//! The system's clock.

use edge_traits::Clock;
use std::time::{self, Duration};

/// A clock that shows the milliseconds since it was made. Which moments it shows isn't told.
#[derive(Drop)]
pub struct WallClock<'a, R: time::Clock> {
    rt: &'a R,
    start: Duration,
}

impl<'a, R: time::Clock> WallClock<'a, R> {
    /// A clock that begins now. Where the system's can't be read, it begins at that one's own beginning.
    pub fn new(rt: &'a R) -> WallClock<'a, R> {
        WallClock {
            rt,
            start: reading(rt),
        }
    }
}

impl<R: time::Clock> Clock for WallClock<'_, R> {
    ghost use Rattle.std.specs.Prelude.{true};

    ghost shows = { λ _ _. true };

    fn now(&self) -> u64 {
        let passed = reading(self.rt).saturating_sub(self.start);
        u64::try_from(passed.as_millis()).unwrap_or(u64::MAX)
    }
}

/// What the system's clock shows; nothing where it can't be read.
fn reading<R: time::Clock>(rt: &R) -> Duration {
    rt.monotonic().unwrap_or(Duration::ZERO)
}
