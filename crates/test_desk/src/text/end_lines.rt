//! The lines of a game's end.

use crate::text::games::{played, untimed};
use chess_model::{Colour, Variant, Why};
use std::test::Fail;
use style12_writer::{BoardView, Draft, end_line, is_decisive};

const WHITE: Option<Colour> = Some(Colour::White);

const BLACK: Option<Colour> = Some(Colour::Black);

const OWN: &[(Why, Option<Colour>, &str)] = &[
    (
        Why::Mate,
        WHITE,
        "{Game 1 (Alice vs. Bob) Bob checkmated} 1-0",
    ),
    (
        Why::Mate,
        BLACK,
        "{Game 1 (Alice vs. Bob) Alice checkmated} 0-1",
    ),
    (
        Why::Resigned,
        WHITE,
        "{Game 1 (Alice vs. Bob) Bob resigns} 1-0",
    ),
    (
        Why::Resigned,
        BLACK,
        "{Game 1 (Alice vs. Bob) Alice resigns} 0-1",
    ),
    (
        Why::Flag,
        WHITE,
        "{Game 1 (Alice vs. Bob) Bob forfeits on time} 1-0",
    ),
    (
        Why::Flag,
        BLACK,
        "{Game 1 (Alice vs. Bob) Alice forfeits on time} 0-1",
    ),
    (
        Why::Left,
        WHITE,
        "{Game 1 (Alice vs. Bob) Bob forfeits by disconnection} 1-0",
    ),
    (
        Why::Left,
        BLACK,
        "{Game 1 (Alice vs. Bob) Alice forfeits by disconnection} 0-1",
    ),
    (
        Why::Stalemate,
        None,
        "{Game 1 (Alice vs. Bob) drawn by stalemate} 1/2-1/2",
    ),
    (
        Why::FlagDraw,
        None,
        "{Game 1 (Alice vs. Bob) drawn by time} 1/2-1/2",
    ),
    (
        Why::Agreed,
        None,
        "{Game 1 (Alice vs. Bob) drawn by agreement} 1/2-1/2",
    ),
    (
        Why::Fifty,
        None,
        "{Game 1 (Alice vs. Bob) drawn by the 50 move rule} 1/2-1/2",
    ),
    (
        Why::Threefold,
        None,
        "{Game 1 (Alice vs. Bob) drawn by repetition} 1/2-1/2",
    ),
    (Why::Aborted, None, "{Game 1 (Alice vs. Bob) aborted} *"),
    (Why::Adjourned, None, "{Game 1 (Alice vs. Bob) adjourned} *"),
];

const OTHER: &[(Why, Option<Colour>, &str)] = &[
    (
        Why::Mate,
        WHITE,
        "{Game 2 (Cat vs. Dan) partner's game ended} 1-0",
    ),
    (
        Why::Resigned,
        BLACK,
        "{Game 2 (Cat vs. Dan) partner's game ended} 0-1",
    ),
    (
        Why::Left,
        WHITE,
        "{Game 2 (Cat vs. Dan) partner's game ended} 1-0",
    ),
    (
        Why::Flag,
        BLACK,
        "{Game 2 (Cat vs. Dan) partner's game ended} 0-1",
    ),
    (
        Why::Agreed,
        None,
        "{Game 2 (Cat vs. Dan) partner's game ended} 1/2-1/2",
    ),
    (
        Why::Aborted,
        None,
        "{Game 2 (Cat vs. Dan) partner's game ended} *",
    ),
];

/// The line of an end, if a winner is given exactly where somebody won.
fn ended(board: &BoardView, why: Why, winner: Option<Colour>, own: bool) -> Result<Draft, Fail> {
    if winner.is_some() != is_decisive(why) {
        return Err("a winner without a win, or a win without a winner".into());
    }
    Ok(end_line(board, why, winner, own))
}

/// Whether an end is told by that line.
fn is_told(
    board: &BoardView,
    why: Why,
    winner: Option<Colour>,
    own: bool,
    text: &str,
) -> Result<bool, Fail> {
    Ok(ended(board, why, winner, own)?.bytes() == text.as_bytes())
}

#[test]
fn tells_why(rt: HostRuntime) -> Result<(), Fail> {
    let game = played(Variant::Chess, "").ok_or("a game")?;
    let board = untimed(game.face(), "Alice", "Bob").ok_or("names")?;
    for (why, winner, text) in OWN {
        assert!(rt; is_told(&board, *why, *winner, true, text)?, "{text}");
    }
    Ok(())
}

#[test]
fn tells_the_partners(rt: HostRuntime) -> Result<(), Fail> {
    let game = played(Variant::Bughouse, "").ok_or("a game")?;
    let mut board = untimed(game.face(), "Cat", "Dan").ok_or("names")?;
    board.game = 2;
    for (why, winner, text) in OTHER {
        assert!(rt; is_told(&board, *why, *winner, false, text)?, "{text}");
    }
    Ok(())
}

#[test]
fn tells_the_longest(rt: HostRuntime) -> Result<(), Fail> {
    let game = played(Variant::Chess, "").ok_or("a game")?;
    let mut board = untimed(game.face(), "Abcdefghijklmnopq", "Qponmlkjihgfedcba").ok_or("names")?;
    board.game = 65_535;
    let text =
        "{Game 65535 (Abcdefghijklmnopq vs. Qponmlkjihgfedcba) Abcdefghijklmnopq forfeits by disconnection} 0-1";
    assert!(rt; is_told(&board, Why::Left, BLACK, true, text)?);
    Ok(())
}
