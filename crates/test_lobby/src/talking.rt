//! What members say to others where no line reaches: of who isn't in, of who is going, and to a full queue.

use crate::steps::{CHESS, DONE, Step};
use crate::talk_steps::{HowMany, Talk, first_failing_talk_anew};
use fics_words::Variable;
use std::test::Fail;

const WHO_IS_NOT_IN_SAYS_NOTHING_STEPS: &[Talk] = &[
    Talk::Other(Step::Enter(1, *b"Ann", DONE)),
    Talk::Tell(9, *b"Ann", b"hi", 54),
    Talk::Tell(9, *b"Zoe", b"hi", 54),
    Talk::Shout(9, b"hello", HowMany::Refused(54)),
    Talk::Set(9, Variable::Shout, false, 54),
    Talk::Channel(9, 4, true, 54),
    Talk::Channel(9, 4, false, 54),
    Talk::TellChannel(9, 4, b"hi", HowMany::Refused(54)),
    Talk::InChannel(9, 4, HowMany::Refused(54), b""),
    Talk::Decline(9, None, 54),
    Talk::Withdraw(9, None, 54),
];

/// Who is going can't be named, and is heard and hears until it is gone.
const WHO_IS_GOING_IS_STILL_HEARD_STEPS: &[Talk] = &[
    Talk::Other(Step::Enter(1, *b"Ann", DONE)),
    Talk::Other(Step::Enter(2, *b"Ben", DONE)),
    Talk::Channel(1, 4, true, DONE),
    Talk::Channel(2, 4, true, DONE),
    Talk::Other(Step::Going(2)),
    Talk::Tell(1, *b"Ben", b"hi", 32),
    Talk::Tell(2, *b"Ann", b"bye", DONE),
    Talk::Shout(1, b"again", HowMany::Exactly(1)),
    Talk::InChannel(1, 4, HowMany::Exactly(2), b"Ann"),
    Talk::Other(Step::Line(1, 0, b"Ben tells you: bye")),
    Talk::Other(Step::Line(2, 0, b"Ann shouts: again")),
];

const A_FULL_QUEUE_IS_PASSED_OVER_STEPS: &[Talk] = &[
    Talk::Other(Step::Enter(1, *b"Ann", DONE)),
    Talk::Other(Step::Enter(2, *b"Ben", DONE)),
    Talk::Other(Step::Enter(3, *b"Cid", DONE)),
    Talk::Other(Step::Match(2, *b"Ann", CHESS, DONE)),
    Talk::TellTimes(1, *b"Ben", b"hi", 511),
    Talk::Shout(1, b"room for one", HowMany::Exactly(2)),
    Talk::Shout(1, b"passed over", HowMany::Exactly(1)),
    Talk::Tell(1, *b"Zoe", b"hi", 32),
    Talk::Tell(1, *b"Ben", b"hi", 49),
    Talk::Decline(1, None, DONE),
    Talk::Other(Step::Ask(1, None, 34)),
    Talk::Other(Step::Line(2, 511, b"Ann shouts: room for one")),
    Talk::Other(Step::Fetch(2, 512)),
    Talk::Shout(1, b"room again", HowMany::Exactly(2)),
];

/// A name, and the steps of a lobby of its own.
const CASES: &[(&str, &[Talk])] = &[
    (
        "who_is_not_in_says_nothing",
        WHO_IS_NOT_IN_SAYS_NOTHING_STEPS,
    ),
    (
        "who_is_going_is_still_heard",
        WHO_IS_GOING_IS_STILL_HEARD_STEPS,
    ),
    (
        "a_full_queue_is_passed_over",
        A_FULL_QUEUE_IS_PASSED_OVER_STEPS,
    ),
];

#[test]
fn members_talk(rt: HostRuntime) -> Result<(), Fail> {
    for (name, steps) in CASES {
        assert_eq!(rt; first_failing_talk_anew(rt.alloc(), steps)?, None, "{name}");
    }
    Ok(())
}
