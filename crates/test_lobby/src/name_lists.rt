//! The lists of names that members keep, where they are full; and the lists of challenges and of games, beside the copies
//! that are made ahead of them.

use crate::list_steps::{Keeping, first_failing_list_anew};
use crate::steps::{CHESS, DONE, HOUSE, Step};
use crate::talk_steps::Talk;
use lobby_state::WhichList;
use std::test::Fail;

const CENSOR: WhichList = WhichList::Censor;

const NOPLAY: WhichList = WhichList::Noplay;

const NOT_IN: &[Keeping] = &[
    Keeping::Name(1, CENSOR, *b"Zoe", true, 54),
    Keeping::Name(1, NOPLAY, *b"Zoe", false, 54),
    Keeping::Outside(1),
];

const CHALLENGES: &[Keeping] = &[
    Keeping::Other(Talk::Other(Step::Enter(1, *b"Ann", DONE))),
    Keeping::Other(Talk::Other(Step::Enter(2, *b"Ben", DONE))),
    Keeping::Other(Talk::Other(Step::Match(1, *b"Ben", CHESS, DONE))),
    Keeping::Other(Talk::Other(Step::Match(2, *b"Ann", HOUSE, DONE))),
    Keeping::Pending(1, &[b"from Ben 3 0 crazyhouse black", b"to Ben 2 12 chess"]),
];

/// A game is listed from its start until its desk is vacant.
const GAMES: &[Keeping] = &[
    Keeping::Other(Talk::Other(Step::Enter(1, *b"Ann", DONE))),
    Keeping::Other(Talk::Other(Step::Enter(2, *b"Ben", DONE))),
    Keeping::Other(Talk::Other(Step::Match(1, *b"Ben", CHESS, DONE))),
    Keeping::Other(Talk::Other(Step::Start(2, 1, 1, 1))),
    Keeping::Games(1, &[b"1 Ann Ben 2 12 chess"]),
    Keeping::Other(Talk::Other(Step::Clear(1, 1, 1, false))),
    Keeping::Games(1, &[b"1 Ann Ben 2 12 chess"]),
    Keeping::Other(Talk::Other(Step::Clear(2, 1, 1, true))),
    Keeping::Games(1, &[]),
];

const A_LIST_HAS_100_NAMES_AT_MOST: &[Keeping] = &[
    Keeping::Other(Talk::Other(Step::Enter(1, *b"Ann", DONE))),
    Keeping::Numbered(1, CENSOR, 100),
    Keeping::Name(1, CENSOR, *b"Ann", true, 40),
    Keeping::Name(1, CENSOR, *b"aax", true, 51),
    Keeping::Name(1, NOPLAY, *b"Ann", true, DONE),
    Keeping::Name(1, CENSOR, *b"aax", false, DONE),
    Keeping::Name(1, CENSOR, *b"Ann", true, DONE),
];

const A_CENSORED_TELL_TO_A_FULL_MEMBER: &[Keeping] = &[
    Keeping::Other(Talk::Other(Step::Enter(1, *b"Ann", DONE))),
    Keeping::Other(Talk::Other(Step::Enter(2, *b"Ben", DONE))),
    Keeping::Other(Talk::TellTimes(1, *b"Ben", b"hi", 512)),
    Keeping::Other(Talk::Tell(1, *b"Ben", b"hi", 49)),
    Keeping::Other(Talk::Other(Step::Match(1, *b"Ben", CHESS, 49))),
    Keeping::Name(2, CENSOR, *b"Ann", true, DONE),
    Keeping::Other(Talk::Tell(1, *b"Ben", b"hi", 36)),
    Keeping::Other(Talk::Other(Step::Match(1, *b"Ben", CHESS, 36))),
];

/// A name, and the steps of a lobby of its own.
const CASES: &[(&str, &[Keeping])] = &[
    ("names_of_who_is_not_in", NOT_IN),
    ("challenges_as_copied_ahead", CHALLENGES),
    ("games_as_copied_ahead", GAMES),
    ("a_list_has_100_names_at_most", A_LIST_HAS_100_NAMES_AT_MOST),
    (
        "a_censored_tell_to_a_full_member_is_refused_for_the_list",
        A_CENSORED_TELL_TO_A_FULL_MEMBER,
    ),
];

#[test]
fn lists_of_names(rt: HostRuntime) -> Result<(), Fail> {
    for (name, steps) in CASES {
        assert_eq!(rt; first_failing_list_anew(rt.alloc(), steps)?, None, "{name}");
    }
    Ok(())
}
