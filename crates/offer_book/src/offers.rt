//! The offers of a desk.
ghost use Rattle.std.specs.Prelude.{◌≡◌, ◌<◌, ◌⊎◌, false};
ghost use Rattle.fics_words.specs.Effect.{answer_of, state_of};
ghost use Rattle.offer_book.specs.Offers.{accepting, after_half_move, declining, earliest, no_offers, offering, settled, stands, stands_for_all, where_stand, with_offer};

use crate::clearing::{AfterHalfMove, Without};
use crate::offer::Offer;
use crate::rows::{Rows, stands};
use fics_words::Refusal;
use std::marker::Model;

/// The offers that stand at a desk of two or four seats. Contracts see the number of seats and the list of the offers,
/// each with the seat that made it, in the order in which they were made. An offer takes effect when every seat of the
/// desk has it standing, and is cleared then. No call takes memory.
#[derive(Drop)]
pub struct Offers {
    pub(crate) seats: u8,
    rows: Rows,
}

impl Model for Offers {
    ghost use Rattle.offer_book.specs.Offers.{AreOffers, OfferBook};

    ghost Value = { OfferBook };

    ghost view = { λ offers. record { seats = offers.seats; standing = offers.rows } };

    ghost invariant = { λ offers. AreOffers (record { seats = offers.seats; standing = offers.rows }) };
}

impl Offers {
    /// A desk of 2 or 4 seats where nothing is offered.
    pub fn new(seats: u8) -> Offers
        requires { (seats ≡ 2) ⊎ (seats ≡ 4) }
        ensures { result ≡ no_offers seats }
    {
        Offers {
            seats,
            rows: Rows::none(),
        }
    }

    /// The number of seats of the desk, 2 or 4.
    pub fn seats(&self) -> u8
        ensures { result ≡ self.now.seats }
    {
        self.seats
    }

    /// The seat makes an offer, and a takeback clears those of another number. True exactly where now every seat has
    /// the offer standing; then it is cleared. Refuses with `AlreadyOffered` where the seat has this very offer
    /// standing.
    pub fn offer(&mut self, seat: u8, offer: Offer) -> Result<bool, Refusal>
        requires { seat < self.old.seats }
        ensures answer { result ≡ answer_of (offering self.old seat offer) }
        ensures after { self.new ≡ state_of self.old (offering self.old seat offer) }
    {
        if self.stands(seat, offer) {
            return Err(Refusal::AlreadyOffered);
        }
        Ok(self.make(seat, offer))
    }

    /// The seat accepts the earliest offer of another seat that it lacks. True exactly where now every seat has that
    /// offer standing; then it is cleared. Refuses with `NoSuchOffer` where there is no such offer.
    #[tactic(auto, using(crate::proofs::Keeping::earliest_lacking))]
    pub fn accept(&mut self, seat: u8) -> Result<(Offer, bool), Refusal>
        requires { seat < self.old.seats }
        ensures answer { result ≡ answer_of (accepting self.old seat) }
        ensures after { self.new ≡ state_of self.old (accepting self.old seat) }
    {
        let Some(offer) = self.earliest(seat) else {
            return Err(Refusal::NoSuchOffer);
        };
        let agreed = self.make(seat, offer);
        Ok((offer, agreed))
    }

    /// The seat declines the earliest offer of another seat that it lacks, which is cleared for all seats. Refuses with
    /// `NoSuchOffer` where there is no such offer.
    pub fn decline(&mut self, seat: u8) -> Result<Offer, Refusal>
        requires { seat < self.old.seats }
        ensures answer { result ≡ answer_of (declining self.old seat) }
        ensures after { self.new ≡ state_of self.old (declining self.old seat) }
    {
        let Some(offer) = self.earliest(seat) else {
            return Err(Refusal::NoSuchOffer);
        };
        self.rows.retain(&Without(offer));
        Ok(offer)
    }

    /// The seat has made a half-move: the offers of its opponent at that board go, and every takeback of the desk.
    pub fn moved(&mut self, seat: u8)
        requires { seat < self.old.seats }
        ensures { self.new ≡ where_stand (after_half_move seat self.old.standing) self.old }
    {
        self.rows.retain(&AfterHalfMove(seat));
    }

    /// Whether the seat has this very offer standing.
    pub fn stands(&self, seat: u8, offer: Offer) -> bool
        ensures { result ≡ stands self.now.standing seat offer }
    {
        stands(self.rows.as_slice(), seat, offer)
    }

    /// The offer that an `accept` of the seat takes; None exactly where `accept` refuses.
    pub fn earliest(&self, seat: u8) -> Option<Offer>
        ensures { result ≡ earliest self.now.standing seat }
    {
        let rows = self.rows.as_slice();
        let row = rows
            .iter()
            .find(|row| row.seat != seat && !stands(rows, seat, row.offer))?;
        Some(row.offer)
    }

    /// The same offers once more.
    pub fn copied(&self) -> Offers
        ensures { result ≡ self.now }
    {
        Offers {
            seats: self.seats,
            rows: self.rows.copied(),
        }
    }

    /// Makes an offer that the seat doesn't have standing, and says whether it takes effect.
    fn make(&mut self, seat: u8, offer: Offer) -> bool
        requires seated { seat < self.old.seats }
        requires lacking { stands self.old.standing seat offer ≡ false }
        ensures agreed { result ≡ stands_for_all self.old.seats (with_offer seat offer self.old.standing) offer }
        ensures after { self.new ≡ where_stand
            (settled self.old.seats offer (with_offer seat offer self.old.standing)) self.old }
    {
        self.rows.add(seat, offer);
        self.rows.settle(self.seats, offer)
    }
}
