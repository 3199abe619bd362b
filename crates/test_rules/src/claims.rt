//! Claims of a draw: fifty moves, and positions that stand for the third time.

use crate::playing::{board_after, play_on, terms};
use chess_model::{Variant, Why};
use fics_words::Refusal;
use game_board::GameBoard;
use std::alloc::Global;
use std::process::Abort;
use std::test::Fail;
use test_steps::assert_rows;

/// Knights go out and come home.
const KNIGHTS: &str = "g1f3 g8f6 f3g1 f6g8";

/// The same, Black first.
const KNIGHTS_OF_BLACK: &str = "g8f6 g1f3 f6g8 f3g1";

/// Rooks go out and come home, for which the rights at first were others.
const ROOKS: &str = "h1h2 h8h7 h2h1 h7h8";

/// A game's variant and beginning, what is played then so many times, what is played last, and the answer to a claim.
struct Row(
    Variant,
    &'static str,
    &'static str,
    u8,
    &'static str,
    Result<Why, Refusal>,
);

const NOTHING: Result<Why, Refusal> = Err(Refusal::NothingToClaim);

const THIRD: Result<Why, Refusal> = Ok(Why::Threefold);

const FIFTY: Result<Why, Refusal> = Ok(Why::Fifty);

const ROWS: &[Row] = &[
    Row(Variant::Chess, "", KNIGHTS, 0, "", NOTHING),
    Row(Variant::Chess, "", KNIGHTS, 1, "", NOTHING),
    Row(Variant::Chess, "", KNIGHTS, 2, "", THIRD),
    Row(Variant::Chess, "", KNIGHTS, 2, "e2e4", NOTHING),
    Row(Variant::Chess, "", KNIGHTS, 2, "g1f3", THIRD),
    // nobody takes en passant after e4
    Row(Variant::Chess, "e2e4", KNIGHTS_OF_BLACK, 2, "", THIRD),
    // White may take on d6 at first, and not later
    Row(
        Variant::Chess,
        "e2e4 a7a6 e4e5 d7d5",
        KNIGHTS,
        2,
        "",
        NOTHING,
    ),
    Row(Variant::Chess, "e2e4 a7a6 e4e5 d7d5", KNIGHTS, 3, "", THIRD),
    // the pawn on e5 may not take, since its king would be open to the queen on e7
    Row(
        Variant::Chess,
        "e2e4 e7e5 f2f4 e5f4 e4e5 d8e7 a2a3 d7d5",
        KNIGHTS,
        2,
        "",
        THIRD,
    ),
    // the right to castle went with the rooks
    Row(Variant::Chess, "h2h4 h7h5", ROOKS, 2, "", NOTHING),
    Row(Variant::Chess, "h2h4 h7h5", ROOKS, 3, "", THIRD),
    // 99 half-moves, and 100
    Row(Variant::Chess, "", KNIGHTS, 24, "g1f3 g8f6 f3g1", THIRD),
    Row(Variant::Chess, "", KNIGHTS, 25, "", FIFTY),
    // the same in positions that never stood before
    Row(Variant::Chess, "", KNIGHTS, 24, "b1c3 b8c6 a1b1", NOTHING),
    Row(
        Variant::Chess,
        "",
        KNIGHTS,
        24,
        "b1c3 b8c6 a1b1 a8b8",
        FIFTY,
    ),
    Row(Variant::Chess, "e2e4", KNIGHTS_OF_BLACK, 25, "", FIFTY),
    // claims are of chess alone
    Row(Variant::Crazyhouse, "", KNIGHTS, 25, "", NOTHING),
    Row(Variant::Bughouse, "", KNIGHTS, 25, "", NOTHING),
];

/// What a claim is answered after the half-moves of a row.
fn claimed(rt: &impl Abort, alloc: Global, row: &Row) -> Result<Result<Why, Refusal>, Fail> {
    let Row(variant, first, again, times, last, _) = row;
    let mut board = board_after(rt, alloc, terms(0, 0, *variant), first)?;
    for _time in 0..*times {
        play_on(rt, &mut board, again);
    }
    play_on(rt, &mut board, last);
    Ok(answer(&board))
}

/// A claim. It ensures nothing, so that nothing above it is proved over what a claim is answered.
fn answer(board: &GameBoard) -> Result<Why, Refusal> {
    board.claim_draw()
}

#[test]
fn claims(rt: HostRuntime) -> Result<(), Fail> {
    assert_rows!(rt; ROWS, |row| claimed(&rt, rt.alloc(), row)? == row.5);
    Ok(())
}
