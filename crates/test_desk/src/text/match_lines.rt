//! The lines of a game that begins, and of an adjourned one that goes on.

use chess_model::{Terms, Variant};
use fics_words::{Handle, Line};
use memory::NoMemory;
use std::alloc::Global;
use std::test::Fail;
use style12_writer::{continued_line, created_line};
use test_steps::assert_rows;

/// The number of a game, its players, its minutes, increment and variant, and the lines that tell that it begins and
/// that it goes on.
struct Row {
    game: u16,
    white: &'static str,
    black: &'static str,
    terms: Terms,
    begins: &'static str,
    goes_on: &'static str,
}

const ROWS: &[Row] = &[
    Row {
        game: 1,
        white: "Ann",
        black: "Ben",
        terms: Terms {
            minutes: 2,
            increment: 12,
            variant: Variant::Chess,
            colour: None,
        },
        begins: "{Game 1 (Ann vs. Ben) Creating 2 12 chess match.}",
        goes_on: "{Game 1 (Ann vs. Ben) Continuing 2 12 chess match.}",
    },
    Row {
        game: 2,
        white: "Cat",
        black: "Dan",
        terms: Terms {
            minutes: 0,
            increment: 0,
            variant: Variant::Bughouse,
            colour: None,
        },
        begins: "{Game 2 (Cat vs. Dan) Creating 0 0 bughouse match.}",
        goes_on: "{Game 2 (Cat vs. Dan) Continuing 0 0 bughouse match.}",
    },
    Row {
        game: 65_535,
        white: "Abcdefghijklmnopq",
        black: "Qponmlkjihgfedcba",
        terms: Terms {
            minutes: 600,
            increment: 600,
            variant: Variant::Crazyhouse,
            colour: None,
        },
        begins: "{Game 65535 (Abcdefghijklmnopq vs. Qponmlkjihgfedcba) Creating 600 600 crazyhouse match.}",
        goes_on: "{Game 65535 (Abcdefghijklmnopq vs. Qponmlkjihgfedcba) Continuing 600 600 crazyhouse match.}",
    },
];

/// The two lines of a row's game.
fn lines(
    alloc: Global,
    row: &Row,
    white: &Handle,
    black: &Handle,
) -> Result<(Line, Line), NoMemory> {
    let begins = created_line(alloc, row.game, white, black, &row.terms)?;
    let goes_on = continued_line(alloc, row.game, white, black, &row.terms)?;
    Ok((begins, goes_on))
}

/// Whether a row's lines are those that it says.
fn is_told(alloc: Global, row: &Row) -> Result<bool, Fail> {
    let white = Handle::read(row.white.as_bytes()).ok_or("a name")?;
    let black = Handle::read(row.black.as_bytes()).ok_or("a name")?;
    let (begins, goes_on) = lines(alloc, row, &white, &black)?;
    Ok(begins.bytes() == row.begins.as_bytes() && goes_on.bytes() == row.goes_on.as_bytes())
}

#[test]
fn tells_that_a_game_is_on(rt: HostRuntime) -> Result<(), Fail> {
    assert_rows!(rt; ROWS, |row| is_told(rt.alloc(), row)?);
    Ok(())
}
