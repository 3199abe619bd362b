//! Offers at a desk of four and at one of two.

use fics_words::Refusal;
use offer_book::{Offer, Offers};
use std::test::Fail;
use test_steps::first_wrong;

/// What a call has to answer: that the offer stands, that it takes effect, that it is declined, or the refusal.
#[derive(Clone, Copy, PartialEq, Eq)]
enum Answer {
    Stands(Offer),
    TakesEffect(Offer),
    Declined(Offer),
    Refused(Refusal),
    NoSeat,
}

/// A call of a seat, and what it has to answer.
#[derive(Clone, Copy)]
enum Step {
    Offer(u8, Offer, Answer),
    Accept(u8, Answer),
    Decline(u8, Answer),
    Moved(u8),
    /// The earliest offer that a seat may accept then.
    Earliest(u8, Option<Offer>),
}

const TWO: &[Step] = &[
    Step::Accept(0, Answer::Refused(Refusal::NoSuchOffer)),
    Step::Offer(0, Offer::Draw, Answer::Stands(Offer::Draw)),
    Step::Offer(0, Offer::Draw, Answer::Refused(Refusal::AlreadyOffered)),
    // nobody accepts the own offer
    Step::Accept(0, Answer::Refused(Refusal::NoSuchOffer)),
    Step::Earliest(1, Some(Offer::Draw)),
    // a half-move clears the opponent's offers, and keeps the own ones
    Step::Moved(0),
    Step::Earliest(1, Some(Offer::Draw)),
    Step::Moved(1),
    Step::Earliest(1, None),
    // offering what the other offers is accepting it
    Step::Offer(0, Offer::Abort, Answer::Stands(Offer::Abort)),
    Step::Offer(1, Offer::Abort, Answer::TakesEffect(Offer::Abort)),
    Step::Earliest(0, None),
    // a takeback of another number clears the one that stood
    Step::Offer(0, Offer::Takeback(2), Answer::Stands(Offer::Takeback(2))),
    Step::Offer(1, Offer::Takeback(3), Answer::Stands(Offer::Takeback(3))),
    Step::Earliest(1, None),
    Step::Earliest(0, Some(Offer::Takeback(3))),
    // and any half-move clears takebacks
    Step::Moved(1),
    Step::Earliest(0, None),
    // the earliest is accepted first, and declined for all
    Step::Offer(0, Offer::Adjourn, Answer::Stands(Offer::Adjourn)),
    Step::Offer(0, Offer::Draw, Answer::Stands(Offer::Draw)),
    Step::Decline(1, Answer::Declined(Offer::Adjourn)),
    Step::Accept(1, Answer::TakesEffect(Offer::Draw)),
    Step::Decline(1, Answer::Refused(Refusal::NoSuchOffer)),
];

const FOUR: &[Step] = &[
    Step::Offer(0, Offer::Draw, Answer::Stands(Offer::Draw)),
    Step::Accept(1, Answer::Stands(Offer::Draw)),
    Step::Accept(1, Answer::Refused(Refusal::NoSuchOffer)),
    Step::Offer(3, Offer::Draw, Answer::Stands(Offer::Draw)),
    Step::Accept(2, Answer::TakesEffect(Offer::Draw)),
    Step::Earliest(2, None),
    // a decline clears the offer of every seat that has it
    Step::Offer(0, Offer::Abort, Answer::Stands(Offer::Abort)),
    Step::Accept(1, Answer::Stands(Offer::Abort)),
    Step::Decline(2, Answer::Declined(Offer::Abort)),
    Step::Earliest(3, None),
    // a half-move on one board leaves the offers of the other
    Step::Offer(2, Offer::Draw, Answer::Stands(Offer::Draw)),
    Step::Moved(1),
    Step::Earliest(0, Some(Offer::Draw)),
    Step::Moved(3),
    Step::Earliest(0, None),
];

fn offered(offers: &mut Offers, seat: u8, offer: Offer) -> Answer {
    if seat >= offers.seats() {
        return Answer::NoSeat;
    }
    match offers.offer(seat, offer) {
        Ok(true) => Answer::TakesEffect(offer),
        Ok(false) => Answer::Stands(offer),
        Err(cause) => Answer::Refused(cause),
    }
}

fn accepted(offers: &mut Offers, seat: u8) -> Answer {
    if seat >= offers.seats() {
        return Answer::NoSeat;
    }
    match offers.accept(seat) {
        Ok((offer, true)) => Answer::TakesEffect(offer),
        Ok((offer, false)) => Answer::Stands(offer),
        Err(cause) => Answer::Refused(cause),
    }
}

fn declined(offers: &mut Offers, seat: u8) -> Answer {
    if seat >= offers.seats() {
        return Answer::NoSeat;
    }
    match offers.decline(seat) {
        Ok(offer) => Answer::Declined(offer),
        Err(cause) => Answer::Refused(cause),
    }
}

fn moves(offers: &mut Offers, seat: u8) -> bool {
    if seat >= offers.seats() {
        return false;
    }
    offers.moved(seat);
    true
}

fn is_as_expected(offers: &mut Offers, step: &Step) -> bool {
    match step {
        Step::Offer(seat, offer, answer) => offered(offers, *seat, *offer) == *answer,
        Step::Accept(seat, answer) => accepted(offers, *seat) == *answer,
        Step::Decline(seat, answer) => declined(offers, *seat) == *answer,
        Step::Moved(seat) => moves(offers, *seat),
        Step::Earliest(seat, offer) => offers.earliest(*seat) == *offer,
    }
}

/// The place of the first step that answers otherwise, if one does.
fn first_failing(offers: &mut Offers, steps: &[Step]) -> Option<usize> {
    first_wrong!(steps, |step| is_as_expected(offers, step))
}

#[test]
fn offers_of_two(rt: HostRuntime) -> Result<(), Fail> {
    let mut offers = Offers::new(2);
    assert_eq!(rt; first_failing(&mut offers, TWO), None);
    Ok(())
}

#[test]
fn offers_of_four(rt: HostRuntime) -> Result<(), Fail> {
    let mut offers = Offers::new(4);
    assert_eq!(rt; first_failing(&mut offers, FOUR), None);
    Ok(())
}
