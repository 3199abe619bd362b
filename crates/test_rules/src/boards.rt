//! Games with clocks on one board, with figures by hand.

use crate::playing::{flag, new_board, play, play_next, remaining, terms};
use chess_model::{Colour, Variant};
use fics_words::Refusal;
use game_board::GameBoard;
use std::alloc::Global;
use std::process::Abort;
use std::test::Fail;
use test_steps::first_wrong;

/// What comes to a board, or what it has to show.
enum Step {
    /// A word of the colour to move at a moment, which is played.
    Plays(u64, &'static str),
    /// Words of the colours in turn at moment 0, each played while White's flag hasn't fallen.
    AllAtOnce(&'static str),
    /// A word of a colour at a moment, which is refused for that cause.
    Refused(Colour, u64, &'static str, Refusal),
    /// The clocks of White and Black, and the time that the last half-move took.
    Shows(i64, i64, u64),
    /// A colour calls the flag at a moment, and is answered so.
    Flag(Colour, u64, Result<Option<Colour>, Refusal>),
    /// So many half-moves stand.
    Stand(usize),
}

use Step::{AllAtOnce, Flag, Plays, Refused, Shows, Stand};

const WHITE: Colour = Colour::White;

const BLACK: Colour = Colour::Black;

const NOT_FALLEN: Result<Option<Colour>, Refusal> = Err(Refusal::NotFallen);

/// Whether the board takes or shows a step as it has to.
fn holds(board: &mut GameBoard, step: &Step) -> bool {
    match step {
        Plays(moment, text) => play_next(board, *moment, text, None) == Ok(()),
        AllAtOnce(words) => are_played_at_once(board, words),
        Refused(colour, moment, text, cause) => {
            play(board, *colour, *moment, text, None) == Err(*cause)
        }
        Shows(white, black, taken) => shows(board, *white, *black, *taken),
        Flag(caller, moment, answer) => flag(board, *caller, *moment) == *answer,
        Stand(many) => board.list().len() == *many,
    }
}

/// Whether each of these words is played at moment 0, and White's flag hasn't fallen before it.
fn are_played_at_once(board: &mut GameBoard, words: &str) -> bool {
    for text in words.split_whitespace() {
        if !is_played_at_once(board, text) {
            return false;
        }
    }
    true
}

fn is_played_at_once(board: &mut GameBoard, text: &str) -> bool {
    flag(board, BLACK, 0) == NOT_FALLEN && play_next(board, 0, text, None) == Ok(())
}

fn shows(board: &GameBoard, white: i64, black: i64, taken: u64) -> bool {
    remaining(board, WHITE) == white
        && remaining(board, BLACK) == black
        && board.last_taken() == taken
}

/// A game of chess with these minutes and this increment.
struct Case {
    name: &'static str,
    minutes: u16,
    increment: u16,
    steps: &'static [Step],
}

/// The place of the first step of a game that isn't as it has to be, if one isn't.
fn first_failing(alloc: Global, case: &Case) -> Result<Option<usize>, Fail> {
    let mut board = new_board(alloc, terms(case.minutes, case.increment, Variant::Chess))?;
    Ok(first_failing_at(&mut board, case.steps))
}

fn first_failing_at(board: &mut GameBoard, steps: &[Step]) -> Option<usize> {
    first_wrong!(steps, |step| holds(board, step))
}

const CASES: &[Case] = &[
    // 120,000 at the start, 4 s of thought and 12 s of increment leave 128,000; the first half-moves cost and earn
    // nothing
    Case {
        name: "thought_and_increment",
        minutes: 2,
        increment: 12,
        steps: &[
            Plays(3_000, "e2e4"),
            Plays(5_000, "e7e5"),
            Shows(120_000, 120_000, 0),
            Plays(9_000, "g1f3"),
            Shows(128_000, 120_000, 4_000),
            Plays(9_500, "b8c6"),
            Shows(128_000, 131_500, 500),
            Stand(4),
        ],
    },
    // 0 minutes with an increment start at 10,000, and a clock may go below 0
    Case {
        name: "a_clock_below_nothing",
        minutes: 0,
        increment: 5,
        steps: &[
            Shows(10_000, 10_000, 0),
            Plays(0, "e2e4"),
            Plays(0, "e7e5"),
            Plays(20_000, "g1f3"),
            Shows(-5_000, 10_000, 20_000),
        ],
    },
    Case {
        name: "no_clocks_without_terms",
        minutes: 0,
        increment: 0,
        steps: &[
            Plays(1_000, "e2e4"),
            Plays(2_000, "e7e5"),
            Plays(9_000, "g1f3"),
            Shows(0, 0, 0),
            Flag(WHITE, 90_000_000, NOT_FALLEN),
        ],
    },
    // a refused word changes nothing: the clock goes on from the half-move before
    Case {
        name: "refusals_charge_nothing",
        minutes: 2,
        increment: 0,
        steps: &[
            Plays(0, "e2e4"),
            Plays(0, "e7e5"),
            Refused(BLACK, 1_000, "b8c6", Refusal::NotYourTurn),
            Refused(WHITE, 2_000, "e4e6", Refusal::CannotReach),
            Refused(WHITE, 3_000, "e3e4", Refusal::NoPiece),
            Shows(120_000, 120_000, 0),
            Plays(10_000, "g1f3"),
            Shows(110_000, 120_000, 10_000),
        ],
    },
    // White has a minute and thinks from moment 0 on; the opponent's flag is asked for, and not the own one
    Case {
        name: "flags_of_one_minute",
        minutes: 1,
        increment: 0,
        steps: &[
            // nothing runs yet
            Flag(BLACK, 600_000, NOT_FALLEN),
            Plays(0, "e2e4"),
            Plays(0, "e7e5"),
            Flag(BLACK, 59_999, NOT_FALLEN),
            Flag(BLACK, 60_000, Ok(Some(BLACK))),
            Flag(WHITE, 60_000, NOT_FALLEN),
            Plays(70_000, "g1f3"),
            Shows(-10_000, 60_000, 70_000),
            Flag(BLACK, 70_000, Ok(Some(BLACK))),
            Flag(WHITE, 129_999, NOT_FALLEN),
            // both have fallen
            Flag(WHITE, 130_000, Ok(None)),
            Flag(BLACK, 130_000, Ok(None)),
        ],
    },
    // a king alone can't win by the flag
    Case {
        name: "a_king_alone_draws",
        minutes: 1,
        increment: 0,
        steps: &[
            AllAtOnce(TAKEN),
            Flag(BLACK, 59_999, NOT_FALLEN),
            Flag(BLACK, 60_000, Ok(None)),
        ],
    },
];

/// A game in which White takes all of Black's men.
const TAKEN: &str =
    "e2e3 a7a6 f1a6 h7h5 d1h5 g8h6 a6b7 g7g6 b7a8 d7d5 h5h6 c8h3 g1h3 f7f6 h6h8 e8d7 a8d5 d8c8 h8f8 c8b7 d5b7 f6f5 f8b8 d7e6 b8c7 f5f4 h3f4 e6f6 c7e7 f6f5 f4g6 f5g4";

/// Looks at each case, whether it goes as it has to.
fn each_case(rt: &impl Abort, alloc: Global) -> Result<(), Fail> {
    for case in CASES {
        assert_eq!(rt; first_failing(alloc, case)?, None, "{}", case.name);
    }
    Ok(())
}

#[test]
fn games_with_clocks(rt: HostRuntime) -> Result<(), Fail> {
    each_case(&rt, rt.alloc())
}
