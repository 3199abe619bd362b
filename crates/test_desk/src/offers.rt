//! Offers at a desk: each refusal in its order, claims of a draw, and what is taken back.
ghost use Rattle.linked_desk.specs.Acts.{FitsDeskAct};

use crate::four::{CAT, DAN};
use crate::table::{
    ANN, BEN, Does, Given, Opening, SERIAL, STRANGER, Step, acted, desk_of, first_failing,
};
use fics_words::{Fail, Refusal};
use linked_desk::{Desk, DeskAct, DeskReply, Offer, Why};
use std::alloc::Global;
use std::process::Abort;
use test_steps::first_wrong;

/// What a session does about offers.
#[derive(Clone, Copy)]
enum Says {
    Make(Offer),
    Accept,
    Decline,
}

/// What comes to a desk, or what it has to show.
enum Stage {
    /// A session says that, and is refused so, or isn't.
    Row(u32, Says, Option<Refusal>),
    /// Ann offers a draw and Ben declines it, so many times.
    Declines(u16),
    /// Ann moves, Ben offers to take that back, and Ann agrees by saying this, so many times.
    Takebacks(u16, Says),
    /// The knights are shuffled so many times.
    Shuffles(u8),
    /// These half-moves are made.
    Moves(&'static [Step]),
    /// The game is over for that reason, or still runs.
    Over(Option<Why>),
    /// Cat hasn't been given so many items.
    Ahead(usize),
}

use Stage::{Ahead, Declines, Moves, Over, Row, Shuffles, Takebacks};

/// What is refused before any half-move, in the order of the causes: a takeback of none and of too many, adjourning
/// without accounts, an offer that stands, and answers to none.
const ROWS: &[Stage] = &[
    Row(
        STRANGER,
        Says::Make(Offer::Takeback(0)),
        Some(Refusal::NotPlaying),
    ),
    Row(STRANGER, Says::Accept, Some(Refusal::NotPlaying)),
    Row(STRANGER, Says::Decline, Some(Refusal::NotPlaying)),
    Row(ANN, Says::Accept, Some(Refusal::NoSuchOffer)),
    Row(ANN, Says::Decline, Some(Refusal::NoSuchOffer)),
    Row(
        ANN,
        Says::Make(Offer::Takeback(0)),
        Some(Refusal::TooFewMoves),
    ),
    Row(
        ANN,
        Says::Make(Offer::Takeback(1)),
        Some(Refusal::TooFewMoves),
    ),
    Row(
        ANN,
        Says::Make(Offer::Adjourn),
        Some(Refusal::NotRegistered),
    ),
    Row(ANN, Says::Make(Offer::Draw), None),
    Row(ANN, Says::Make(Offer::Draw), Some(Refusal::AlreadyOffered)),
    Row(ANN, Says::Accept, Some(Refusal::NoSuchOffer)),
    Row(BEN, Says::Decline, None),
    Row(BEN, Says::Accept, Some(Refusal::NoSuchOffer)),
    Row(ANN, Says::Make(Offer::Abort), None),
    Row(BEN, Says::Accept, None),
    Row(BEN, Says::Make(Offer::Draw), Some(Refusal::GameOver)),
    Row(BEN, Says::Make(Offer::Takeback(9)), Some(Refusal::GameOver)),
    Row(ANN, Says::Accept, Some(Refusal::GameOver)),
    Row(ANN, Says::Decline, Some(Refusal::GameOver)),
    Over(Some(Why::Aborted)),
];

/// At a pair nothing is taken back, and it isn't adjourned without accounts. A draw takes effect when the last of the
/// four has agreed; until then each who offers it is told, and who accepts it isn't.
const ROWS_OF_FOUR: &[Stage] = &[
    Row(
        ANN,
        Says::Make(Offer::Takeback(0)),
        Some(Refusal::NotInVariant),
    ),
    Row(
        DAN,
        Says::Make(Offer::Adjourn),
        Some(Refusal::NotRegistered),
    ),
    Row(ANN, Says::Make(Offer::Draw), None),
    Row(ANN, Says::Make(Offer::Draw), Some(Refusal::AlreadyOffered)),
    Row(BEN, Says::Make(Offer::Draw), None),
    Row(CAT, Says::Accept, None),
    Row(CAT, Says::Accept, Some(Refusal::NoSuchOffer)),
    Row(DAN, Says::Accept, None),
    Row(DAN, Says::Accept, Some(Refusal::GameOver)),
    Over(Some(Why::Agreed)),
    // six items at the start, two offers, and the ends of both boards
    Ahead(10),
];

/// The four half-moves of a shuffle of the knights, after which the position stands as before.
const SHUFFLE: &[Step] = &[
    Step(0, ANN, Does::Move("g1f3"), Given::Done),
    Step(0, BEN, Does::Move("g8f6"), Given::Done),
    Step(0, ANN, Does::Move("f3g1"), Given::Done),
    Step(0, BEN, Does::Move("f6g8"), Given::Done),
];

/// What is taken back again.
const ONE_HALF_MOVE: &[Step] = &[Step(0, ANN, Does::Move("e2e4"), Given::Done)];

/// Three half-moves behind the shuffles, after which the position never stood before.
const STRAY: &[Step] = &[
    Step(0, ANN, Does::Move("b1c3"), Given::Done),
    Step(0, BEN, Does::Move("b8c6"), Given::Done),
    Step(0, ANN, Does::Move("a1b1"), Given::Done),
];

/// And a fourth.
const STRAY_ON: &[Step] = &[Step(0, BEN, Does::Move("a8b8"), Given::Done)];

fn act_of(says: Says) -> DeskAct
    ensures { FitsDeskAct result }
{
    match says {
        Says::Make(offer) => DeskAct::Make { offer },
        Says::Accept => DeskAct::Accept,
        Says::Decline => DeskAct::Decline,
    }
}

/// The refusal of what a session says, if it is refused.
fn refusal(desk: &mut Desk, session: u32, says: Says) -> Option<Refusal> {
    let act = act_of(says);
    cause_of(&acted(desk, session, 0, SERIAL, &act))
}

fn cause_of(answer: &Result<DeskReply, Fail>) -> Option<Refusal> {
    match answer {
        Err(Fail::Refused(cause)) => Some(*cause),
        _ => None,
    }
}

/// Why the game at the desk ended, if it has.
fn why_over(desk: &Desk) -> Option<Why> {
    let ended = desk.ended()?;
    Some(ended.why)
}

/// Whether the shuffle is made so many times.
fn shuffles(desk: &mut Desk, times: u8) -> bool {
    for _time in 0..times {
        if first_failing(desk, SERIAL, SHUFFLE).is_some() {
            return false;
        }
    }
    true
}

/// Whether Ann offers a draw and Ben declines it so many times.
fn declines(desk: &mut Desk, times: u16) -> bool {
    for _time in 0..times {
        if refusal(desk, ANN, DRAW).is_some() || refusal(desk, BEN, Says::Decline).is_some() {
            return false;
        }
    }
    true
}

/// Whether Ann moves and the two agree to take that back so many times, the last one by saying this.
fn takebacks(desk: &mut Desk, times: u16, agrees: Says) -> bool {
    for _time in 0..times {
        if !takes_back(desk, agrees) {
            return false;
        }
    }
    true
}

fn takes_back(desk: &mut Desk, agrees: Says) -> bool {
    if first_failing(desk, SERIAL, ONE_HALF_MOVE).is_some() {
        return false;
    }
    refusal(desk, BEN, TAKEBACK).is_none() && refusal(desk, ANN, agrees).is_none()
}

fn holds(desk: &mut Desk, stage: &Stage) -> bool {
    match stage {
        Row(session, says, cause) => refusal(desk, *session, *says) == *cause,
        Declines(times) => declines(desk, *times),
        Takebacks(times, agrees) => takebacks(desk, *times, *agrees),
        Shuffles(times) => shuffles(desk, *times),
        Moves(steps) => first_failing(desk, SERIAL, steps).is_none(),
        Over(why) => why_over(desk) == *why,
        Ahead(count) => desk.ahead(CAT).len() == *count,
    }
}

/// The place of the first stage that isn't as it has to be, if one isn't.
fn first_wrong_stage(desk: &mut Desk, stages: &[Stage]) -> Option<usize> {
    first_wrong!(stages, |stage| holds(desk, stage))
}

/// The same at a desk with that opening.
fn first_wrong_anew(
    rt: &impl Abort,
    alloc: Global,
    opening: Opening,
    stages: &[Stage],
) -> Option<usize> {
    let mut desk = desk_of(rt, alloc, opening);
    first_wrong_stage(&mut desk, stages)
}

const DRAW: Says = Says::Make(Offer::Draw);

const TAKEBACK: Says = Says::Make(Offer::Takeback(1));

/// A position that stands for the third time, by an offer of a draw: after one shuffle it stands for the second time.
const REPETITION: &[Stage] = &[
    Shuffles(1),
    Row(ANN, DRAW, None),
    Over(None),
    Shuffles(1),
    Row(ANN, DRAW, None),
    Over(Some(Why::Threefold)),
];

/// A hundred quiet half-moves: that is claimed before the repetition.
const HUNDRED: &[Stage] = &[Shuffles(25), Row(BEN, DRAW, None), Over(Some(Why::Fifty))];

/// The position never stood before, neither behind 99 quiet half-moves nor behind 100: Ann's draw is an offer there,
/// and a claim here.
const HUNDREDTH: &[Stage] = &[
    Shuffles(24),
    Moves(STRAY),
    Row(ANN, DRAW, None),
    Over(None),
    Moves(STRAY_ON),
    Row(ANN, DRAW, None),
    Over(Some(Why::Fifty)),
];

/// A seat makes 256 offers and declines, and no more; a claim isn't one of them.
const TOLD_256_TIMES: &[Stage] = &[
    Declines(256),
    Row(ANN, DRAW, Some(Refusal::FeedFull)),
    Row(BEN, Says::Make(Offer::Abort), Some(Refusal::FeedFull)),
    Row(BEN, Says::Decline, Some(Refusal::NoSuchOffer)),
    Shuffles(2),
    Row(ANN, DRAW, None),
    Over(Some(Why::Threefold)),
];

/// An offer that takes effect at once, since the other seat has it standing, is one of the 256 too: Ann makes 255 of
/// them, and one that stands, and no more.
const AGREED_256_TIMES: &[Stage] = &[
    Takebacks(255, TAKEBACK),
    Row(ANN, Says::Make(Offer::Abort), None),
    Row(ANN, DRAW, Some(Refusal::FeedFull)),
    Row(BEN, DRAW, None),
    Row(BEN, TAKEBACK, Some(Refusal::TooFewMoves)),
    Over(None),
];

/// And the 256th that takes effect is the last.
const AGREED_TO_THE_LAST: &[Stage] = &[
    Takebacks(256, TAKEBACK),
    Row(ANN, DRAW, Some(Refusal::FeedFull)),
    Row(BEN, DRAW, Some(Refusal::FeedFull)),
    Over(None),
];

/// An acceptance is none of them.
const ACCEPTED_256_TIMES: &[Stage] = &[
    Takebacks(256, Says::Accept),
    Row(BEN, DRAW, Some(Refusal::FeedFull)),
    Row(ANN, DRAW, None),
    Over(None),
];

/// A name, what stands at the desk, and the stages.
const CASES: &[(&str, Opening, &[Stage])] = &[
    ("refusals_of_offers", Opening::Chess(0, 0), ROWS),
    ("offers_of_four", Opening::Pair, ROWS_OF_FOUR),
    ("a_threefold_repetition", Opening::Chess(0, 0), REPETITION),
    ("fifty_moves", Opening::Chess(0, 0), HUNDRED),
    (
        "the_hundredth_quiet_half_move",
        Opening::Chess(0, 0),
        HUNDREDTH,
    ),
    (
        "a_seat_tells_256_times",
        Opening::Chess(0, 0),
        TOLD_256_TIMES,
    ),
    (
        "offers_that_take_effect_count",
        Opening::Chess(0, 0),
        AGREED_256_TIMES,
    ),
    ("the_last_of_them", Opening::Chess(0, 0), AGREED_TO_THE_LAST),
    (
        "acceptances_do_not_count",
        Opening::Chess(0, 0),
        ACCEPTED_256_TIMES,
    ),
];

/// Looks at each case, whether it goes as it has to.
fn each_case(rt: &impl Abort, alloc: Global) {
    for (name, opening, stages) in CASES {
        assert_eq!(rt;
            first_wrong_anew(rt, alloc, *opening, stages),
            None,
            "{name}"
        );
    }
}

#[test]
fn offers_and_claims(rt: HostRuntime) {
    each_case(&rt, rt.alloc());
}
