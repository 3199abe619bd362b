//! A list of offers in a field of fixed room.
ghost use Rattle.std.specs.Prelude.{◌≡◌, ◌≤◌, ◌<◌, [], ◌∷◌, ◌++◌, cond, length};
ghost use Rattle.std.specs.List.{filter};
ghost use Rattle.offer_book.specs.Offers.{settled, stands, stands_for_all, with_offer};

use crate::clearing::{Beside, Without};
use crate::offer::{Offer, StandingOffer};
use collections::Predicate;
use std::marker::Model;

/// The most offers that stand at a desk: four seats have one of each of the four kinds.
const MOST: usize = 16;

/// What stands behind the offers in their field.
const NOTHING: StandingOffer = StandingOffer {
    seat: 0,
    offer: Offer::Draw,
};

/// At most 16 offers that stand, which contracts see as the list of them.
#[derive(Drop)]
pub(crate) struct Rows {
    count: usize,
    field: [StandingOffer; 16],
}

impl Model for Rows {
    ghost use Rattle.std.specs.Prelude.{List, ◌≤◌, take};
    ghost use Rattle.offer_book.specs.declared.offer.StandingOffer.{StandingOffer};

    ghost Value = { List StandingOffer };

    ghost view = { λ rows. take rows.count rows.field };

    ghost invariant = { λ rows. rows.count ≤ 16 };
}

impl Rows {
    /// No offers.
    pub(crate) fn none() -> Rows
        ensures { result ≡ [] }
    {
        Rows {
            count: 0,
            field: [NOTHING; 16],
        }
    }

    /// The offers, in order.
    pub(crate) fn as_slice(&self) -> &[StandingOffer]
        ensures rows { result.now ≡ self.now }
        ensures most { length self.now ≤ MOST }
    {
        &self.field[..self.count]
    }

    /// Puts an offer behind the others.
    pub(crate) fn push(&mut self, row: StandingOffer)
        requires { length self.old < MOST }
        ensures { self.new ≡ self.old ++ row ∷ [] }
    {
        self.field[self.count] = row;
        self.count += 1;
    }

    /// Keeps the offers that pass `test`, in their order.
    pub(crate) fn retain<P: Predicate<StandingOffer>>(&mut self, test: &P)
        ensures { self.new ≡ filter (P.passes test.now) self.old }
    {
        let mut kept = Rows::none();
        let rows = self.as_slice();
        for row in rows {
            kept.push_if(test.passes(row), *row);
        }
        *self = kept;
    }

    /// Puts an offer behind the others, where it is to be kept.
    fn push_if(&mut self, keep: bool, row: StandingOffer)
        requires { length self.old < MOST }
        ensures { self.new ≡ self.old ++ cond keep (row ∷ []) [] }
    {
        if keep {
            self.push(row);
        }
    }

    /// The seat makes an offer, which clears takebacks of another number and stands behind the others.
    pub(crate) fn add(&mut self, seat: u8, offer: Offer)
        requires { length (with_offer seat offer self.old) ≤ MOST }
        ensures { self.new ≡ with_offer seat offer self.old }
    {
        self.retain(&Beside(offer));
        self.push(StandingOffer { seat, offer });
    }

    /// Clears the offer where each of the first so many seats has it standing, and says whether that is so.
    pub(crate) fn settle(&mut self, seats: u8, offer: Offer) -> bool
        ensures agreed { result ≡ stands_for_all seats self.old offer }
        ensures after { self.new ≡ settled seats offer self.old }
    {
        let agreed = stands_for_all(self.as_slice(), seats, offer);
        if agreed {
            self.retain(&Without(offer));
        }
        agreed
    }

    /// The same offers once more.
    pub(crate) fn copied(&self) -> Rows
        ensures { result ≡ self.now }
    {
        Rows {
            count: self.count,
            field: self.field,
        }
    }
}

/// Whether the seat has this very offer standing.
pub(crate) fn stands(rows: &[StandingOffer], seat: u8, offer: Offer) -> bool
    ensures { result ≡ stands rows.now seat offer }
{
    rows.iter()
        .any(|row| row.seat == seat && row.offer == offer)
}

/// Whether each of the first so many seats has this very offer standing.
#[tactic(auto, using(crate::proofs::Keeping::one_seat_more))]
fn stands_for_all(rows: &[StandingOffer], seats: u8, offer: Offer) -> bool
    ensures { result ≡ stands_for_all seats rows.now offer }
{
    let mut all = true;
    for seat in 0..seats {
        let has = stands(rows, seat, offer);
        all = all && has;
    }
    all
}
