//! Which offers stay.
ghost use Rattle.std.specs.Prelude.{◌≡◌, ◌==◌, ◌&&◌, not};
ghost use Rattle.offer_book.specs.Offers.{is_other_takeback, is_takeback, opponent_of, same_offer};

use crate::offer::{Offer, StandingOffer};
use collections::Predicate;

/// Every offer but this one.
#[derive(Clone, Copy)]
pub(crate) struct Without(pub(crate) Offer);

impl Predicate<StandingOffer> for Without {
    ghost passes = { λ test row. not (same_offer row.offer test.0) };

    fn passes(&self, row: &StandingOffer) -> bool {
        row.offer != self.0
    }
}

/// What stays beside an offer that is made: every offer but takebacks of another number.
#[derive(Clone, Copy)]
pub(crate) struct Beside(pub(crate) Offer);

impl Predicate<StandingOffer> for Beside {
    ghost passes = { λ test row. not (is_other_takeback test.0 row.offer) };

    fn passes(&self, row: &StandingOffer) -> bool {
        !self.0.is_other_takeback(row.offer)
    }
}

/// What stays after a half-move of this seat: every offer but takebacks and those of its opponent.
#[derive(Clone, Copy)]
pub(crate) struct AfterHalfMove(pub(crate) u8);

impl Predicate<StandingOffer> for AfterHalfMove {
    ghost passes = { λ test row. not (is_takeback row.offer) && not (row.seat == opponent_of test.0) };

    fn passes(&self, row: &StandingOffer) -> bool {
        !row.offer.is_takeback() && row.seat != opponent_of(self.0)
    }
}

/// The seat on the other side of the same board.
fn opponent_of(seat: u8) -> u8
    ensures { result ≡ opponent_of seat }
{
    if seat % 2 == 0 { seat + 1 } else { seat - 1 }
}
