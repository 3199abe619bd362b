//! Games that are resumed: half-moves that come with the charges of another day, what is played after them, and what is
//! taken back beyond the point of resuming.

use crate::playing::{STRANGE, play_next, remaining, terms};
use crate::puts::put;
use chess_model::{Colour, Move, Square, Variant};
use clock_ledger::{Charge, Moment};
use fics_words::{BoardNumber, Refusal};
use game_board::{GameBoard, Played};
use std::alloc::Global;
use std::test::Fail;
use test_steps::first_wrong;

/// The moment at which the games are resumed.
const RESUMED: u64 = 1_000_000;

/// What comes to a board, or what it has to show.
enum Step {
    /// A half-move between two squares with its charge, the moments and the client's two stamps, or without one.
    Puts(u8, u8, Option<(u64, u64)>, Option<(u32, u32)>),
    /// The colour to move plays a word at that moment.
    Plays(&'static str, u64),
    /// So many half-moves are taken back at that moment.
    Backs(u16, u64),
    Shows(Shown),
}

/// What a board shows: how many half-moves stand, how many were played and how many of those that stand came with their
/// charges, the moment from which its clock runs, and the milliseconds on White's clock and on Black's.
pub struct Shown {
    pub stand: usize,
    pub played: u16,
    pub resumed: u16,
    pub begin: u64,
    pub white: i64,
    pub black: i64,
}

use Step::{Backs, Plays, Puts, Shows};

/// A game of chess with these minutes and this increment.
struct Case {
    name: &'static str,
    minutes: u16,
    increment: u16,
    steps: &'static [Step],
}

const CASES: &[Case] = &[
    Case {
        name: "five minutes and three seconds",
        minutes: 5,
        increment: 3,
        steps: &[
            Puts(12, 28, None, None),
            Puts(52, 36, None, None),
            // 300 seconds and 3 for the half-move, less 8.5
            Puts(6, 21, Some((1_000, 9_500)), None),
            Shows(Shown {
                stand: 3,
                played: 3,
                resumed: 3,
                begin: RESUMED,
                white: 294_500,
                black: 300_000,
            }),
            // the client's span of 2 seconds is less than the 20 that passed
            Puts(57, 42, Some((9_500, 29_500)), Some((100, 2_100))),
            // no time at all, and later than the game is resumed
            Puts(5, 33, Some((7_000_000, 7_000_000)), None),
            // before all others
            Puts(48, 40, Some((7, 10_007)), None),
            // White 300 + 2 x 3 - 8.5, Black 300 + 2 x 3 - 2 - 10
            Shows(Shown {
                stand: 6,
                played: 6,
                resumed: 6,
                begin: RESUMED,
                white: 297_500,
                black: 294_000,
            }),
            // White's next half-move takes 4 seconds since the game was resumed, and Black's takes 6.5
            Plays("b5a4", 1_004_000),
            Plays("g8f6", 1_010_500),
            Shows(Shown {
                stand: 8,
                played: 8,
                resumed: 6,
                begin: 1_010_500,
                white: 296_500,
                black: 290_500,
            }),
            // one of those that were played here
            Backs(1, 1_015_000),
            Shows(Shown {
                stand: 7,
                played: 8,
                resumed: 6,
                begin: 1_015_000,
                white: 296_500,
                black: 294_000,
            }),
            // the other one, and two of those that came with their charges
            Backs(3, 1_020_000),
            Shows(Shown {
                stand: 4,
                played: 8,
                resumed: 4,
                begin: 1_020_000,
                white: 294_500,
                black: 301_000,
            }),
            Plays("f1c4", 1_021_000),
            Shows(Shown {
                stand: 5,
                played: 9,
                resumed: 4,
                begin: 1_021_000,
                white: 296_500,
                black: 301_000,
            }),
            Backs(5, 1_030_000),
            Shows(Shown {
                stand: 0,
                played: 9,
                resumed: 0,
                begin: 1_030_000,
                white: 300_000,
                black: 300_000,
            }),
        ],
    },
    Case {
        name: "without clocks",
        minutes: 0,
        increment: 0,
        steps: &[
            Puts(12, 28, None, None),
            Puts(52, 36, None, None),
            Puts(6, 21, None, None),
            Plays("b8c6", 1_002_000),
            Shows(Shown {
                stand: 4,
                played: 4,
                resumed: 3,
                begin: 1_002_000,
                white: 0,
                black: 0,
            }),
            Backs(2, 1_003_000),
            Shows(Shown {
                stand: 2,
                played: 4,
                resumed: 2,
                begin: 1_003_000,
                white: 0,
                black: 0,
            }),
        ],
    },
];

/// A half-move between two squares with its charge, if there are such squares.
pub fn half_move(
    from: u8,
    to: u8,
    span: Option<(u64, u64)>,
    client: Option<(u32, u32)>,
) -> Option<Played> {
    Some(Played {
        what: Move::Plain {
            from: Square::of(from)?,
            to: Square::of(to)?,
            promo: None,
        },
        charge: charge_of(span, client),
    })
}

/// The charge with these moments and stamps, if there is one.
fn charge_of(span: Option<(u64, u64)>, client: Option<(u32, u32)>) -> Option<Charge> {
    let (begin, end) = span?;
    Some(Charge { begin, end, client })
}

/// Puts a half-move, if it is one, on a board that takes it, and says whether it is one.
fn is_put(board: &mut GameBoard, half: Option<Played>) -> Result<bool, Fail> {
    let Some(half) = half else {
        return Ok(false);
    };
    put(board, &half)?;
    Ok(true)
}

/// Takes so many half-moves back at a moment.
fn take_back(board: &mut GameBoard, many: u16, moment: u64) -> Result<(), Refusal> {
    if board.terms().variant == Variant::Bughouse
        || board.begin().millis() > moment
        || moment > 1 << 40
    {
        return Err(STRANGE);
    }
    board.take_back(many, Moment::new(moment))
}

fn has_counts(board: &GameBoard, shown: &Shown) -> bool {
    board.list().len() == shown.stand
        && board.played() == shown.played
        && board.resumed() == shown.resumed
        && board.begin().millis() == shown.begin
}

fn has_clocks(board: &GameBoard, shown: &Shown) -> bool {
    remaining(board, Colour::White) == shown.white && remaining(board, Colour::Black) == shown.black
}

/// Whether a board shows this.
pub fn shows(board: &GameBoard, shown: &Shown) -> bool {
    has_counts(board, shown) && has_clocks(board, shown)
}

/// Whether the board takes or shows a step as it has to.
fn holds(board: &mut GameBoard, step: &Step) -> Result<bool, Fail> {
    match step {
        Puts(from, to, span, client) => is_put(board, half_move(*from, *to, *span, *client)),
        Plays(word, moment) => Ok(play_next(board, *moment, word, None).is_ok()),
        Backs(many, moment) => Ok(take_back(board, *many, *moment) == Ok(())),
        Shows(shown) => Ok(shows(board, shown)),
    }
}

/// The place of the first step of a game that isn't as it has to be, if one isn't.
fn first_failing(alloc: Global, case: &Case) -> Result<Option<usize>, Fail> {
    let terms = terms(case.minutes, case.increment, Variant::Chess);
    let mut board = GameBoard::start(alloc, BoardNumber::First, terms, Moment::new(RESUMED))?;
    first_failing_at(&mut board, case.steps)
}

fn first_failing_at(board: &mut GameBoard, steps: &[Step]) -> Result<Option<usize>, Fail> {
    Ok(first_wrong!(steps, |step| holds(board, step)?))
}

#[test]
fn steps_of_resumed_games(rt: HostRuntime) -> Result<(), Fail> {
    for case in CASES {
        assert_eq!(rt; first_failing(rt.alloc(), case)?, None, "{}", case.name);
    }
    Ok(())
}
