//! One charge to a clock.
ghost use Rattle.std.specs.Prelude.{◌≡◌, ◌-◌, ◌≤◌};
ghost use Rattle.clock_ledger.specs.Charges.{amount};

use crate::stamps::span;

/// The last moment that a charge may end at, and that an act may have, in milliseconds: 2^48.
pub const LAST_MOMENT: u64 = 1 << 48;

/// Time that a player spent on one half-move, from `begin` to `end`, in milliseconds of the server.
///
/// `begin` is not after `end`. A charge that is made to a ledger ends at `LAST_MOMENT` at the latest, and its stamps
/// are below `STAMP_CYCLE`.
///
/// `client` has the stamps that the player's own machine put on the board's acknowledgement and on the move, where it
/// stamps its lines. With them the player isn't charged for the time that the lines were on their way.
#[derive(Clone, Copy, PartialEq, Eq)]
pub struct Charge {
    pub begin: u64,
    pub end: u64,
    pub client: Option<(u32, u32)>,
}

impl Charge {
    /// What the charge takes off the clock, in milliseconds: the server's time, or the client's where that is less.
    pub fn amount(&self) -> u64
        requires { self.now.begin ≤ self.now.end }
        ensures value { result ≡ amount self.now }
        ensures within { result ≤ self.now.end - self.now.begin }
    {
        let passed = self.end - self.begin;
        match self.client {
            None => passed,
            Some((begin, end)) => passed.min(u64::from(span(begin, end))),
        }
    }
}
