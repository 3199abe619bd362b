//! Clocks.

use std::marker::Model;

/// A clock. Its meaning is a test of moments, which each answer passes: the clock `shows` this moment.
pub trait Clock {
    ghost use Rattle.std.specs.Prelude.{ℕ, Bool, IsTrue};

    ghost shows: { Self → ℕ → Bool };

    /// The present moment, in milliseconds.
    fn now(&self) -> u64
        ensures { IsTrue (shows self.now result) };
}

/// A clock that stands still, and shows its one moment.
#[derive(Clone, Copy)]
pub struct StillClock {
    moment: u64,
}

impl Model for StillClock {
    ghost use Rattle.std.specs.Prelude.{ℕ};

    ghost Value = { ℕ };

    ghost view = { λ clock. clock.moment };

    ghost inverse = { λ moment. record { moment = moment } };
}

impl StillClock {
    ghost use Rattle.std.specs.Prelude.{◌≡◌};

    /// A clock that shows this moment alone.
    pub fn new(moment: u64) -> StillClock
        ensures { result ≡ moment }
    {
        StillClock { moment }
    }
}

impl Clock for StillClock {
    ghost use Rattle.std.specs.Prelude.{◌≡◌, ◌==◌, IsTrue};

    ghost shows = { λ clock moment. moment == clock };

    fn now(&self) -> u64
        ensures shown { IsTrue (result == self.now) }
        ensures still { result ≡ self.now }
    {
        self.moment
    }
}
