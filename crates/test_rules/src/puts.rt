//! Half-moves that are put on a board with the charges that they have.

use crate::playing::{board_after, new_board, remaining, terms};
use chess_model::{Colour, Kind, Man, Move, Square, Terms, Variant};
use clock_ledger::{Charge, STAMP_CYCLE};
use game_board::{GameBoard, Played};
use std::alloc::Global;
use std::process::Abort;
use std::test::Fail;
use test_steps::assert_rows;

/// Puts a half-move on a board that takes it, and says what was captured.
pub fn put(board: &mut GameBoard, half: &Played) -> Result<Option<Man>, Fail> {
    if !board.takes(half) {
        return Err("a half-move that isn't taken".into());
    }
    if let Some(charge) = &half.charge {
        if charge.begin > charge.end || charge.end > 1 << 40 {
            return Err("no charge".into());
        }
        if let Some((seen, made)) = charge.client {
            if seen >= STAMP_CYCLE || made >= STAMP_CYCLE {
                return Err("no stamps".into());
            }
        }
    }
    Ok(board.put(*half)?)
}

const GAMES: &[(u16, Variant, &str)] = &[
    (2, Variant::Chess, "e2e4 d7d5 e4d5 d8d5 b1c3"),
    (0, Variant::Chess, "e2e4 d7d5 e4d5 d8d5 b1c3"),
    (2, Variant::Chess, "e2e4 a7a6 e4e5 d7d5 e5d6 c7d6"),
    (2, Variant::Crazyhouse, "e2e4 d7d5 e4d5 b8c6 P@e4 c6b4"),
    (2, Variant::Bughouse, "e2e4 d7d5 e4d5 d8d5"),
];

/// A list that is put on a new board, half-move by half-move.
fn put_again(alloc: Global, terms: Terms, list: &[Played]) -> Result<GameBoard, Fail> {
    let mut again = new_board(alloc, terms)?;
    for half in list {
        put(&mut again, half)?;
    }
    Ok(again)
}

/// Whether two boards are the same game, the clocks aside.
fn are_alike(one: &GameBoard, two: &GameBoard) -> bool {
    one.face() == two.face() && one.list() == two.list() && one.played() == two.played()
}

fn have_same_clocks(one: &GameBoard, two: &GameBoard) -> bool {
    remaining(one, Colour::White) == remaining(two, Colour::White)
        && remaining(one, Colour::Black) == remaining(two, Colour::Black)
}

/// Whether the list of a game that is put on a new board, begun at 0, makes it the same game.
fn is_put_again(rt: &impl Abort, alloc: Global, game: &(u16, Variant, &str)) -> Result<bool, Fail> {
    let terms = terms(game.0, 0, game.1);
    let board = board_after(rt, alloc, terms, game.2)?;
    let again = put_again(alloc, terms, list_of(&board))?;
    Ok(is_same_game(&board, &again))
}

/// The half-moves that stand.
fn list_of(board: &GameBoard) -> &[Played] {
    board.list()
}

/// Whether the second board is the same game, with its clock at the start.
fn is_same_game(board: &GameBoard, again: &GameBoard) -> bool {
    are_alike(board, again) && have_same_clocks(board, again) && again.begin().millis() == 0
}

#[test]
fn a_list_is_put_again(rt: HostRuntime) -> Result<(), Fail> {
    assert_rows!(rt; GAMES, |game| is_put_again(&rt, rt.alloc(), game)?);
    Ok(())
}

/// A plain move by the numbers of its squares, with a charge of a second or without one.
fn half(from: u8, to: u8, is_charged: bool) -> Option<Played> {
    let charge = Charge {
        begin: 1_000,
        end: 2_000,
        client: None,
    };
    Some(Played {
        what: Move::Plain {
            from: Square::of(from)?,
            to: Square::of(to)?,
            promo: None,
        },
        charge: is_charged.then_some(charge),
    })
}

/// Minutes, the half-moves before, the next one with a charge or without, and whether the board takes it.
const NEXT: &[(u16, &str, (u8, u8, bool), bool)] = &[
    // the first half-move of each colour has no charge
    (2, "", (12, 28, false), true),
    (2, "", (12, 28, true), false),
    (2, "e2e4", (52, 36, false), true),
    (2, "e2e4", (52, 36, true), false),
    // and each later one has, in a timed game alone
    (2, "e2e4 e7e5", (6, 21, true), true),
    (2, "e2e4 e7e5", (6, 21, false), false),
    (0, "e2e4 e7e5", (6, 21, false), true),
    (0, "e2e4 e7e5", (6, 21, true), false),
    // a move that isn't allowed
    (0, "e2e4 e7e5", (6, 22, false), false),
    (0, "e2e4", (6, 21, false), false),
    // after mate there is none, and after stalemate neither
    (0, "f2f3 e7e5 g2g4 d8h4", (4, 13, false), false),
    (0, "f2f3 e7e5 g2g4 d8h4", (12, 20, false), false),
];

/// Whether the board after a row's half-moves takes the row's next one.
fn is_taken(
    rt: &impl Abort,
    alloc: Global,
    row: &(u16, &str, (u8, u8, bool), bool),
) -> Result<bool, Fail> {
    let (from, to, is_charged) = row.2;
    let board = board_after(rt, alloc, terms(row.0, 0, Variant::Chess), row.1)?;
    Ok(takes(&board, half(from, to, is_charged)))
}

/// Whether a board takes a half-move, if it is one.
fn takes(board: &GameBoard, next: Option<Played>) -> bool {
    match next {
        Some(half) => board.takes(&half),
        None => false,
    }
}

#[test]
fn takes_what_follows(rt: HostRuntime) -> Result<(), Fail> {
    assert_rows!(rt; NEXT, |row| is_taken(&rt, rt.alloc(), row)? == row.3);
    Ok(())
}

/// What is captured is told.
#[test]
fn puts_a_capture(rt: HostRuntime) -> Result<(), Fail> {
    assert!(rt; captured(&rt, rt.alloc(), "e2e4 d7d5", 28, 35)? == PAWN);
    Ok(())
}

/// What a move between two squares captures after these half-moves of an untimed game.
fn captured(
    rt: &impl Abort,
    alloc: Global,
    words: &str,
    from: u8,
    to: u8,
) -> Result<Option<Man>, Fail> {
    let mut board = board_after(rt, alloc, terms(0, 0, Variant::Chess), words)?;
    put_uncharged(&mut board, from, to)
}

/// A pawn of Black's.
const PAWN: Option<Man> = Some(Man {
    colour: Colour::Black,
    kind: Kind::Pawn,
    promoted: false,
});

/// Puts a move between two squares without a charge.
fn put_uncharged(board: &mut GameBoard, from: u8, to: u8) -> Result<Option<Man>, Fail> {
    match half(from, to, false) {
        Some(next) => put(board, &next),
        None => Err("squares".into()),
    }
}
