//! What the definitions mean for a player.
ghost use Rattle.std.specs.Prelude.{IsTrue, ◌≡◌, ◌+◌, ◌*◌, pos, ◌+ℤ◌};
ghost use Rattle.clock_ledger.specs.Charges.{amount};
ghost use Rattle.clock_ledger.specs.Clock.{timed, remaining, charged, taken_back};

use crate::charges::Charge;
use crate::ledger::ClockLedger;

/// One charge more moves a timed clock on by the increment and back by the charge's amount, whatever stands in the
/// ledger, and taking it back gives the ledger that was there.
pub fn a_charge_moves_the_clock(clock: &ClockLedger, charge: &Charge)
    requires { IsTrue (timed clock.now) }
    ensures moved { remaining (charged clock.now charge.now) +ℤ pos (amount charge.now)
        ≡ remaining clock.now +ℤ pos (clock.now.increment * 1000) }
    ensures restored { taken_back (charged clock.now charge.now) ≡ clock.now }
{}
