//! What the bot answers, through `run` over the fakes. The values are worked out by hand: a man counts 1, 3, 3, 5 or 9,
//! a mate 100,000 and a half-move more for each that is left to look at, and of equal moves the first counts, by the
//! square from which it goes, from a1 along the ranks, and then by the square to which it goes.

use crate::running::{Case, Row, expect_tables, outcome};
use std::alloc::Global;
use std::process::Abort;
use std::test::Fail;
use test_steps::assert_rows;

/// How far is looked ahead, the lines that are read, the status and what is written.
struct Answer(&'static str, &'static str, u8, &'static str);

/// Positions, each of them with the best move and the value, or `none` where there is no move to look for.
const ANSWERS: &[Answer] = &[
    Answer("1", "chess\nf3\ne5\ng4\n", 0, "d8h4 100000\n"),
    // one half-move more is left to look at behind the mate
    Answer("2", "chess\nf3\ne5\ng4\n", 0, "d8h4 100001\n"),
    Answer("1", "chess\n", 0, "b1a3 0\n"),
    Answer("2", "chess\n", 0, "b1a3 0\n"),
    Answer("0", "chess\n", 0, "none 0\n"),
    Answer("0", "crazyhouse\n", 0, "none 0\n"),
    Answer("3", "crazyhouse\n", 0, "b1a3 0\n"),
    // a pawn is taken, and in crazyhouse it counts in the hand too
    Answer("1", "chess\ne4\nd5\n", 0, "e4d5 1\n"),
    Answer("1", "crazyhouse\ne4\nd5\n", 0, "e4d5 2\n"),
    Answer("0", "chess\ne4\nd5\nexd5\n", 0, "none -1\n"),
    Answer("0", "crazyhouse\ne4\nd5\nexd5\n", 0, "none -2\n"),
    // the check comes before the exchange of pawns: nothing can be taken behind either
    Answer("2", "chess\ne4\nd5\n", 0, "f1b5 0\n"),
    // array 468 is R B B N N K R Q: the man of least square that can move is the knight on d1
    Answer("1", "fischer 468\n", 0, "d1c3 0\n"),
    // array 518 is the array of chess
    Answer("1", "fischer 518\nf3\ne5\ng4\n", 0, "d8h4 100000\n"),
    // mate and stalemate have no move
    Answer("1", "chess\nf3\ne5\ng4\nQh4\n", 0, "none -100001\n"),
    Answer("0", "chess\nf3\ne5\ng4\nQh4\n", 0, "none -100000\n"),
    Answer(
        "2",
        "chess\ne3\na5\nQh5\nRa6\nQxa5\nh5\nh4\nRah6\nQxc7\nf6\nQxd7\nKf7\nQxb7\nQd3\nQxb8\nQh7\nQxc8\nKg6\nQe6\n",
        0,
        "none 0\n",
    ),
    // a pawn that has taken two takes a knight and becomes a queen: 1 + 1 + 3 + 9 - 1
    Answer(
        "1",
        "chess\nh4\ng5\nhxg5\nh6\ngxh6\na6\nh7\na5\n",
        0,
        "h7g8=q 13\n",
    ),
    // lines that end otherwise, and empty ones
    Answer("1", "\n\nchess\r\n\nf3\n\ne5\r\ng4", 0, "d8h4 100000\n"),
    Answer("1", "", 0, ""),
    Answer("4", "\n\r\n\n", 0, ""),
];

/// The first line outside the grammar, by its number; empty ones count, and nothing else is written.
const BAD_LINES: &[Answer] = &[
    Answer("4", "crazyhouse\n", 7, "bad line 1\n"),
    Answer("4", "\ncrazyhouse\ne4\n", 7, "bad line 2\n"),
    Answer("1", "bughouse\n", 7, "bad line 1\n"),
    Answer("1", "Chess\n", 7, "bad line 1\n"),
    Answer("1", " chess\n", 7, "bad line 1\n"),
    Answer("1", "chess \n", 7, "bad line 1\n"),
    Answer("1", "fischer\n", 7, "bad line 1\n"),
    Answer("1", "fischer 960\n", 7, "bad line 1\n"),
    Answer("1", "fischer 07\n", 7, "bad line 1\n"),
    Answer("1", "e4\n", 7, "bad line 1\n"),
    Answer("1", "chess\nchess\n", 7, "bad line 2\n"),
    // no word, a word that no man can follow, one for two men, and a drop where there are none
    Answer("1", "chess\nhello\n", 7, "bad line 2\n"),
    Answer("1", "\n\nchess\n\ne4\n\nKe3\n", 7, "bad line 7\n"),
    Answer(
        "1",
        "chess\nNf3\ne6\nNc3\ne5\nNd4\nh6\nNb5\n",
        7,
        "bad line 8\n",
    ),
    Answer("1", "chess\nP@e4\n", 7, "bad line 2\n"),
    Answer("1", "chess\ne5", 7, "bad line 2\n"),
    // a line behind the end of the game
    Answer("1", "chess\nf3\ne5\ng4\nQh4\na3\n", 7, "bad line 6\n"),
    Answer(
        "2",
        "chess\ne3\na5\nQh5\nRa6\nQxa5\nh5\nh4\nRah6\nQxc7\nf6\nQxd7\nKf7\nQxb7\nQd3\nQxb8\nQh7\nQxc8\nKg6\nQe6\nKh5",
        7,
        "bad line 21\n",
    ),
    // a bad line is the first one, whatever stands behind it
    Answer("1", "chess\nx\ny\n", 7, "bad line 2\n"),
];

/// However the input is cut, where a read or a write fails, and words that name no bot.
const CUTS_AND_FAULTS: &[Row] = &[
    Row(
        &["bot", "1"],
        b"chess\nf3\ne5\ng4\n",
        1,
        &[],
        &[],
        0,
        &["d8h4 100000\n"],
    ),
    Row(
        &["bot", "1"],
        b"chess\nKe3\ne4",
        1,
        &[],
        &[],
        7,
        &["bad line 2\n"],
    ),
    Row(&["bot", "1"], b"chess\nf3\n", 6, &[1], &[], 2, &[]),
    Row(&["bot", "1"], b"chess\nf3\n", 6, &[2], &[], 2, &[]),
    Row(&["bot", "1"], b"chess\n", 6, &[], &[0], 3, &[]),
    Row(&["bot", "1"], b"checkers\n", 6, &[], &[0], 3, &[]),
    Row(&["bot", "5"], b"chess\n", 6, &[], &[], 1, &[USAGE]),
    Row(&["bot"], b"chess\n", 6, &[], &[], 1, &[USAGE]),
    Row(&["bot", "1", "chess"], b"", 6, &[], &[], 1, &[USAGE]),
];

const USAGE: &str = "usage: ficsd board, replay, demo N, check --store PATH, serve --port P\n";

/// Whether a run ends with that status and writes that text.
fn is_answered(
    alloc: Global,
    depth: &str,
    input: &[u8],
    status: u8,
    text: &str,
) -> Result<bool, Fail> {
    let words = ["bot", depth];
    let case = Case {
        words: &words,
        input,
        cut: 4_096,
        reads: &[],
        writes: &[],
    };
    let (ended, written) = outcome(alloc, &case)?;
    Ok(ended == status && written.as_slice() == text.as_bytes())
}

#[test]
fn positions_are_answered(rt: HostRuntime) -> Result<(), Fail> {
    assert_rows!(rt; ANSWERS, |row| is_answered(rt.alloc(), row.0, row.1.as_bytes(), row.2, row.3)?);
    assert_rows!(rt; BAD_LINES, |row| is_answered(rt.alloc(), row.0, row.1.as_bytes(), row.2, row.3)?);
    Ok(())
}

#[test]
fn ends_of_bots_are_told(rt: HostRuntime) -> Result<(), Fail> {
    expect_tables(&rt, rt.alloc(), &[("cuts and faults", CUTS_AND_FAULTS)])
}

/// 300 times four half-moves of the knights, which bring the array back.
fn long_game(alloc: Global) -> Result<Vec<u8>, Fail> {
    let mut lines = Vec::from_slice(alloc, b"chess\n")?;
    for _ in 0..300 {
        lines.extend_from_slice(b"Nf3\nNf6\nNg1\nNg8\n")?;
    }
    Ok(lines)
}

#[test]
fn a_game_has_at_most_1200_half_moves(rt: HostRuntime) -> Result<(), Fail> {
    let mut lines = long_game(rt.alloc())?;
    assert!(rt; is_answered(rt.alloc(), "1", lines.as_slice(), 0, "b1a3 0\n")?);
    lines.extend_from_slice(b"Nf3\n")?;
    assert!(rt; is_answered(rt.alloc(), "1", lines.as_slice(), 7, "bad line 1202\n")?);
    Ok(())
}
