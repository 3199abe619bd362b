//! The offers that stand at a desk: a draw, an abort, an adjournment, a takeback.
//!
//! The contract: the offers are a list in the order in which they were made, and each call is the stated change of the
//! list; an offer takes effect exactly when the last seat agrees, and is cleared then; no call takes memory.
#![tactic(auto)]

mod clearing;
mod laws;
mod offer;
mod offers;
mod rows;

pub use laws::{
    cleared_offers_are_gone, half_moves_clear, offers_need_all, takebacks_agree,
    the_earliest_is_accepted,
};
pub use offer::{Offer, StandingOffer};
pub use offers::Offers;
