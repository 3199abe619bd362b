//! Games that are looked at again: half-moves that are laid on a board, and the way back to the start.

use crate::playing::{STRANGE, play_next, terms};
use crate::resumed::{Shown, half_move, shows};
use chess_model::{MOST_HALVES, Variant};
use clock_ledger::Moment;
use fics_words::{BoardNumber, Refusal};
use game_board::{GameBoard, Played};
use std::alloc::Global;
use std::test::Fail;
use test_steps::first_wrong;

/// The moment from which the player to move is thinking.
const BEGIN: u64 = 5_000;

/// What comes to a board, or what it has to show.
enum Step {
    /// A half-move between two squares with the two moments of its charge, or without one.
    Lays(u8, u8, Option<(u64, u64)>),
    /// A half-move between two squares that isn't allowed.
    Bars(u8, u8),
    /// The colour to move plays a word at that moment.
    Plays(&'static str, u64),
    Rewinds,
    /// So often back to the start and four half-moves on.
    ToAndFro(u16),
    Shows(Shown),
}

use Step::{Bars, Lays, Plays, Rewinds, Shows, ToAndFro};

/// A game of chess of five minutes and three seconds.
const STEPS: &[Step] = &[
    Lays(12, 28, None),
    Lays(52, 36, None),
    Lays(6, 21, Some((1_000, 9_500))),
    // one that is tried out without a charge
    Lays(57, 42, None),
    Bars(5, 32),
    // White 300 + 3 - 8.5
    Shows(Shown {
        stand: 4,
        played: 4,
        resumed: 4,
        begin: BEGIN,
        white: 294_500,
        black: 300_000,
    }),
    Rewinds,
    Shows(Shown {
        stand: 0,
        played: 0,
        resumed: 0,
        begin: BEGIN,
        white: 300_000,
        black: 300_000,
    }),
    // the first half-move of White's from the start is allowed again, and no second one of the same colour
    Bars(52, 36),
    Lays(11, 27, None),
    Bars(12, 28),
    Shows(Shown {
        stand: 1,
        played: 1,
        resumed: 1,
        begin: BEGIN,
        white: 300_000,
        black: 300_000,
    }),
    // more than 1,200 half-moves in all, of which four stand
    ToAndFro(400),
    Shows(Shown {
        stand: 4,
        played: 4,
        resumed: 4,
        begin: BEGIN,
        white: 300_000,
        black: 300_000,
    }),
    // what is played behind them is charged from the board's moment: White 300 + 3 - 2
    Plays("f1b5", 7_000),
    Shows(Shown {
        stand: 5,
        played: 5,
        resumed: 4,
        begin: 7_000,
        white: 301_000,
        black: 300_000,
    }),
    Rewinds,
    Shows(Shown {
        stand: 0,
        played: 0,
        resumed: 0,
        begin: 7_000,
        white: 300_000,
        black: 300_000,
    }),
];

/// Lays a half-move that is allowed on a board.
fn lay(board: &mut GameBoard, half: &Played) -> Result<(), Refusal> {
    if !board.position().allowed(half.what) || usize::from(board.played()) >= MOST_HALVES {
        return Err(STRANGE);
    }
    if let Some(charge) = &half.charge {
        if charge.begin > charge.end || charge.end > 1 << 40 || charge.client.is_some() {
            return Err(STRANGE);
        }
    }
    let _captured = board.lay(*half);
    Ok(())
}

/// Whether the board allows a half-move between two squares, which is then laid on it.
fn is_laid(board: &mut GameBoard, from: u8, to: u8, span: Option<(u64, u64)>) -> bool {
    match half_move(from, to, span, None) {
        Some(half) => lay(board, &half).is_ok(),
        None => false,
    }
}

/// The squares of e2e4 e7e5 g1f3 b8c6.
const OPENING: &[(u8, u8)] = &[(12, 28), (52, 36), (6, 21), (57, 42)];

/// Whether the board may be brought back to the start and four half-moves on, so often.
fn goes_to_and_fro(board: &mut GameBoard, many: u16) -> bool {
    for _time in 0..many {
        board.rewind();
        for (from, to) in OPENING {
            if !is_laid(board, *from, *to, None) {
                return false;
            }
        }
    }
    true
}

/// Whether the board takes or shows a step as it has to.
fn holds(board: &mut GameBoard, step: &Step) -> bool {
    match step {
        Lays(from, to, span) => is_laid(board, *from, *to, *span),
        Bars(from, to) => !is_laid(board, *from, *to, None),
        Plays(word, moment) => play_next(board, *moment, word, None).is_ok(),
        Rewinds => is_rewound(board),
        ToAndFro(many) => goes_to_and_fro(board, *many),
        Shows(shown) => shows(board, shown),
    }
}

/// Brings the board back to the start.
fn is_rewound(board: &mut GameBoard) -> bool {
    board.rewind();
    true
}

/// The place of the first step that isn't as it has to be, if one isn't.
fn first_failing(alloc: Global) -> Result<Option<usize>, Fail> {
    let terms = terms(5, 3, Variant::Chess);
    let mut board = GameBoard::start(alloc, BoardNumber::First, terms, Moment::new(BEGIN))?;
    Ok(first_failing_at(&mut board))
}

fn first_failing_at(board: &mut GameBoard) -> Option<usize> {
    first_wrong!(STEPS, |step| holds(board, step))
}

#[test]
fn steps_of_a_game_looked_at_again(rt: HostRuntime) -> Result<(), Fail> {
    assert_eq!(rt; first_failing(rt.alloc())?, None);
    Ok(())
}
