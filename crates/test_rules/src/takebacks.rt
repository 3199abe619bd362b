//! Half-moves that are taken back.

use crate::playing::{STRANGE, board_after, first_unplayed, new_board, play_on, remaining, terms};
use chess_model::{Colour, Variant};
use clock_ledger::Moment;
use fics_words::Refusal;
use game_board::GameBoard;
use std::alloc::Global;
use std::process::Abort;
use std::test::Fail;
use test_steps::limits::HALF_MOVES;
use test_steps::{assert_rows, first_wrong};

/// A variant, the half-moves that stay, those that are taken back, and how many these are.
const GAMES: &[(Variant, &str, &str, u16)] = &[
    (Variant::Chess, "", "e2e4", 1),
    (Variant::Chess, "e2e4 d7d5", "e4d5 d8d5 b1c3", 3),
    // en passant
    (Variant::Chess, "e2e4 a7a6 e4e5 d7d5", "e5d6", 1),
    (Variant::Chess, "e2e4 a7a6 e4e5 d7d5", "e5d6 c7d6 a2a3", 3),
    // both castlings
    (
        Variant::Chess,
        "d2d4 d7d5 b1c3 g8f6 c1f4 g7g6 d1d2 f8g7",
        "O-O-O O-O e2e3",
        3,
    ),
    // a capture by which a pawn becomes a queen, and that queen is taken
    (
        Variant::Chess,
        "a2a4 b7b5 a4b5 a7a6 b5a6 h7h6 a6a7 h6h5",
        "a7b8q a8b8 a1a7",
        3,
    ),
    // the same where the men go to the hands
    (
        Variant::Crazyhouse,
        "a2a4 b7b5 a4b5 a7a6 b5a6 h7h6 a6a7 h6h5",
        "a7b8q a8b8 P@a7",
        3,
    ),
    (
        Variant::Crazyhouse,
        "e2e4 d7d5 e4d5 b8c6",
        "P@e4 c6d4 b1c3",
        3,
    ),
];

/// Whether two boards show the same position and half-moves.
fn are_alike(one: &GameBoard, two: &GameBoard) -> bool {
    one.face() == two.face() && one.list() == two.list()
}

/// Whether the same men are in hand.
fn have_same_hands(one: &GameBoard, two: &GameBoard) -> bool {
    one.position().hand(Colour::White) == two.position().hand(Colour::White)
        && one.position().hand(Colour::Black) == two.position().hand(Colour::Black)
}

/// Whether their clocks show the same.
fn have_same_clocks(one: &GameBoard, two: &GameBoard) -> bool {
    remaining(one, Colour::White) == remaining(two, Colour::White)
        && remaining(one, Colour::Black) == remaining(two, Colour::Black)
}

/// Takes so many half-moves back a minute after the start.
fn take_back(board: &mut GameBoard, many: u16) -> Result<(), Refusal> {
    if board.terms().variant == Variant::Bughouse || board.begin().millis() > 60_000 {
        return Err(STRANGE);
    }
    board.take_back(many, Moment::new(60_000))
}

/// Whether so many half-moves stand, so many were played, and the clock runs from that moment.
fn stands(board: &GameBoard, many: usize, played: u16, begin: u64) -> bool {
    board.list().len() == many && board.played() == played && board.begin().millis() == begin
}

/// Plays half-moves and takes so many back, and says whether they were.
fn plays_and_takes_back(rt: &impl Abort, board: &mut GameBoard, words: &str, many: u16) -> bool {
    play_on(rt, board, words);
    take_back(board, many) == Ok(())
}

/// Whether a board is what another is, but that its clock runs from a minute after the start.
fn is_same_game(board: &GameBoard, before: &GameBoard) -> bool {
    are_alike(board, before)
        && have_same_hands(board, before)
        && have_same_clocks(board, before)
        && board.begin().millis() == 60_000
}

/// Whether the board `again` is what `before` is once it has taken back what goes.
fn is_restored(
    rt: &impl Abort,
    again: &mut GameBoard,
    before: &GameBoard,
    words: &str,
    many: u16,
) -> bool {
    plays_and_takes_back(rt, again, words, many) && is_same_game(again, before)
}

/// Whether a board that takes back what goes is what it was before it.
fn is_as_it_was(
    rt: &impl Abort,
    alloc: Global,
    game: &(Variant, &str, &str, u16),
) -> Result<bool, Fail> {
    let terms = terms(2, 12, game.0);
    let before = board_after(rt, alloc, terms, game.1)?;
    let mut again = board_after(rt, alloc, terms, game.1)?;
    Ok(is_restored(rt, &mut again, &before, game.2, game.3))
}

#[test]
fn all_is_as_it_was(rt: HostRuntime) -> Result<(), Fail> {
    assert_rows!(rt; GAMES, |game| is_as_it_was(&rt, rt.alloc(), game)?);
    Ok(())
}

/// What comes to a board, or what it has to show.
enum Step {
    /// Words of the colours in turn, each a second after the one before.
    Plays(&'static str),
    /// So many half-moves are taken back.
    Backs(u16),
    /// So many half-moves can't be taken back, since there are too few.
    TooFew(u16),
    /// So many half-moves stand, so many were played, and the clock runs from that moment.
    Stands(usize, u16, u64),
}

use Step::{Backs, Plays, Stands, TooFew};

/// Whether the board takes or shows a step as it has to.
fn holds(board: &mut GameBoard, step: &Step) -> bool {
    match step {
        Plays(words) => first_unplayed(board, words).is_none(),
        Backs(many) => take_back(board, *many) == Ok(()),
        TooFew(many) => take_back(board, *many) == Err(Refusal::TooFewMoves),
        Stands(many, played, begin) => stands(board, *many, *played, *begin),
    }
}

/// A game of chess with these minutes and this increment.
struct Case {
    name: &'static str,
    minutes: u16,
    increment: u16,
    steps: &'static [Step],
}

const CASES: &[Case] = &[
    // what was taken back still counts as played
    Case {
        name: "all_count",
        minutes: 0,
        increment: 0,
        steps: &[
            Plays("e2e4 e7e5 g1f3"),
            Backs(2),
            Stands(1, 3, 60_000),
            Plays("c7c5"),
            Stands(2, 4, 61_000),
        ],
    },
    // five half-moves stand, and other numbers are refused
    Case {
        name: "too_few",
        minutes: 2,
        increment: 12,
        steps: &[
            Plays("e2e4 e7e5 g1f3 b8c6 f1b5"),
            TooFew(0),
            TooFew(6),
            TooFew(7),
            TooFew(HALF_MOVES),
            TooFew(65_535),
            Stands(5, 5, 5_000),
            Backs(5),
            Stands(0, 5, 60_000),
        ],
    },
];

/// The place of the first step of a game that isn't as it has to be, if one isn't.
fn first_failing(alloc: Global, case: &Case) -> Result<Option<usize>, Fail> {
    let mut board = new_board(alloc, terms(case.minutes, case.increment, Variant::Chess))?;
    Ok(first_failing_at(&mut board, case.steps))
}

fn first_failing_at(board: &mut GameBoard, steps: &[Step]) -> Option<usize> {
    first_wrong!(steps, |step| holds(board, step))
}

#[test]
fn steps_of_games(rt: HostRuntime) -> Result<(), Fail> {
    for case in CASES {
        assert_eq!(rt; first_failing(rt.alloc(), case)?, None, "{}", case.name);
    }
    Ok(())
}
