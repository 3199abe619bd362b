//! Clocks kept as ledgers.
//!
//! A clock isn't a number that runs: it is the list of the charges that were made to it. What remains is the start,
//! plus the increment for each charge, less the sum of what the charges amount to. So a takeback gives time back by
//! taking charges out, and a stored game has its clocks with its moves.
//!
//! The contract: a `ClockLedger` is seen as its terms and its list of charges, `charge` and `back` put one behind the
//! list and take it off, and `remaining` is that sum for every list, though only a running sum is kept.
#![tactic(auto)]

mod charges;
mod laws;
mod ledger;
mod moment;
mod stamps;

pub use charges::{Charge, LAST_MOMENT};
pub use laws::a_charge_moves_the_clock;
pub use ledger::{ClockLedger, MAX_CHARGES};
pub use moment::Moment;
pub use stamps::{STAMP_CYCLE, span};
