//! A moment that a server knows.
ghost use Rattle.std.specs.Prelude.{◌≡◌, ◌≤◌, max};
ghost use Rattle.clock_ledger.specs.Charges.{last_moment};

use std::marker::Model;

/// A moment in milliseconds since the server began, at most `LAST_MOMENT`. Contracts see that number.
#[derive(Clone, Copy)]
pub struct Moment {
    millis: u64,
}

impl Model for Moment {
    ghost use Rattle.std.specs.Prelude.{ℕ, ◌≤◌};
    ghost use Rattle.clock_ledger.specs.Charges.{last_moment};

    ghost Value = { ℕ };

    ghost view = { λ moment. moment.millis };

    ghost invariant = { λ moment. moment.millis ≤ last_moment };

    ghost inverse = { λ millis. record { millis = millis } };
}

impl Moment {
    /// The moment so many milliseconds after the server began.
    pub fn new(millis: u64) -> Moment
        requires { millis ≤ last_moment }
        ensures { result ≡ millis }
    {
        Moment { millis }
    }

    /// The later of the two.
    pub fn max(self, other: Moment) -> Moment
        ensures { result ≡ max self other }
    {
        Moment {
            millis: self.millis.max(other.millis),
        }
    }

    /// How many milliseconds that is.
    pub fn millis(self) -> u64
        ensures value { result ≡ self }
        ensures most { result ≤ last_moment }
    {
        self.millis
    }
}
