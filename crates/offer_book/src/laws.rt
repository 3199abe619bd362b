//! What the rules of offers mean, as calls that do nothing: each says by its contract what was proved.
ghost use Rattle.offer_book.specs.Laws.{AcceptsTheEarliest, ClearsForTheMove, ClearsOne, OfferStands, TakebacksAgree, TakesEffectWithTheLast};

use crate::offer::Offer;
use crate::offers::Offers;

/// An offer that a seat makes stands for it, and takes effect exactly when the last seat agrees.
#[tactic(auto, using(crate::proofs::Meaning::with_the_last))]
pub fn offers_need_all(offers: &Offers, seat: u8, offer: Offer)
    ensures stands { OfferStands offers.now.standing seat offer }
    ensures last { TakesEffectWithTheLast offers.now seat offer }
{}

/// An offer that is cleared, since it took effect or was declined, stands for no seat; every other stands as before.
pub fn cleared_offers_are_gone(offers: &Offers, offer: Offer)
    ensures { ClearsOne offers.now.standing offer }
{}

/// After a half-move no takeback stands and the opponent has no offer; every other offer stands as before.
#[tactic(auto, using(crate::proofs::Meaning::clears_for_the_move))]
pub fn half_moves_clear(offers: &Offers, seat: u8)
    ensures { ClearsForTheMove offers.now.standing seat }
{}

/// The takebacks that stand at a desk have one number.
pub fn takebacks_agree(offers: &Offers)
    ensures { TakebacksAgree offers.now.standing }
{
    let _ = &offers.seats;
}

/// There is an earliest offer that a seat may accept exactly where `accept` doesn't refuse.
#[tactic(auto, using(crate::proofs::Meaning::accepts_the_earliest))]
pub fn the_earliest_is_accepted(offers: &Offers, seat: u8)
    ensures { AcceptsTheEarliest offers.now seat }
{}
