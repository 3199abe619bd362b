//! `replay` over the fakes: where a script is outside the grammar, and the statuses of a run.

use crate::replays::{RESIGNED, expect_text, replay, script_of, text_within};
use crate::running::{Case, Row, at_least_one, expect_tables};
use std::alloc::Global;
use std::test::Fail;

/// What stands before a bad line: four lines, one of them empty. Then it is White's turn.
const OPENING: &str = "\
seat Ann Ben 2 12 chess
3000 1 > e2e4
  1|{Game 1 (Ann vs. Ben) Creating 2 12 chess match.}
  1|<12> rnbqkbnr pppppppp -------- -------- -------- -------- PPPPPPPP RNBQKBNR W -1 1 1 1 1 0 1 Ann Ben 1 2 12 39 39 120 120 1 none (0:00) none 0
  1|<12> rnbqkbnr pppppppp -------- -------- ----P--- -------- PPPP-PPP RNBQKBNR B 4 1 1 1 1 0 1 Ann Ben -1 2 12 39 39 120 120 1 P/e2-e4 (0:00) e4 0
  1|fics%\x20

5000 2 > e7e5
  2|{Game 1 (Ann vs. Ben) Creating 2 12 chess match.}
  2|<12> rnbqkbnr pppppppp -------- -------- -------- -------- PPPPPPPP RNBQKBNR W -1 1 1 1 1 0 1 Ann Ben -1 2 12 39 39 120 120 1 none (0:00) none 1
  2|<12> rnbqkbnr pppppppp -------- -------- ----P--- -------- PPPP-PPP RNBQKBNR B 4 1 1 1 1 0 1 Ann Ben 1 2 12 39 39 120 120 1 P/e2-e4 (0:00) e4 1
  2|<12> rnbqkbnr pppp-ppp -------- ----p--- ----P--- -------- PPPP-PPP RNBQKBNR W 4 1 1 1 1 0 1 Ann Ben -1 2 12 39 39 120 120 2 P/e7-e5 (0:00) e5 1
  2|fics%\x20\
";

/// Lines that may not come after `OPENING`, each between brackets, so that blanks at the ends show.
const BAD: &str = "\
[seat Ann Ben 2 12 chess]
[seat Cat Dan 5 0 chess]
[ ]
[hello]
[e2e4]
[board]
[# g1f3]
[5000 1  > g1f3]
[5000  1 > g1f3]
[ 5000 1 > g1f3]
[5000 1 >]
[5000 1 >g1f3]
[5000 1 >\tg1f3]
[5000 1 > g1f3\t]
[5000 1 > g1f\u{7f}]
[5000 1 > g1\u{e9}3]
[4999 1 > g1f3]
[4999 2 ?]
[0 1 > g1f3]
[3000 1 ?]
[5000 3 > g1f3]
[5000 3 ?]
[5000 0 > g1f3]
[5000 0 ?]
[5000 12 ?]
[5000 64 ?]
[5000 01 ?]
[05000 1 ?]
[-1 1 ?]
[5000.5 1 ?]
[281474976710657 1 ?]
[18446744073709551616 1 ?]
[18446744073709556616 1 ?]
[5000 1]
[5000]
[5000 1 ? ]
[5000 1 ?g1f3]
[5000 1 ?? ]
[5000 1 +]
[5000 65 +]
[5000 0 +]
[5000 3 -]
[5000 3 ! 7]
[5000 1 !]
[5000 1 ! ]
[5000 1 ! 07]
[5000 1 ! 10000000]
[5000 1 ! 7 8]
[5000 1 *]
[5000 1 * 7]
[5000 1 * g1f3]
[5000 1 * 10000000 g1f3]
[5000 1 *  7 g1f3]
[5000 1 * 7\tg1f3]
[5000 1 < g1f3]
[1 > g1f3]";

/// Lines that may not come first, each between brackets.
const BAD_FIRST: &str = "\
[ ]
[hello]
[3000 1 > e2e4]
[0 1 ?]
[0 1 -]
[0 1 ! 7]
[0 65 +]
[bad line 1]
[seat]
[seat Ann Ben]
[seat Ann Ben 2 12]
[seat Ann Ben chess]
[seat Ann Ben 2 chess]
[seat Ann 2 12 chess]
[seat Ann Ben Cat 2 12 chess]
[seat Ann Ben Cat Dan 2 12 chess]
[seat Ann Ben Cat Dan 2 12 crazyhouse]
[seat Ann Ben Cat 2 12 bughouse]
[seat Ann Ben Cat Ann 2 12 bughouse]
[seat Ann Ben 2 12 bughouse]
[seat Ann Ben 2 12 Chess]
[seat Ann Ben 2 12 chess white]
[seat Ann Ben 2 12 chess ]
[seat Ann Ben 2 12  chess]
[seat Ann  Ben 2 12 chess]
[ seat Ann Ben 2 12 chess]
[Seat Ann Ben 2 12 chess]
[seat Ann Ann 2 12 chess]
[seat Ann aNN 2 12 chess]
[seat An Ben 2 12 chess]
[seat Ann abcdefghijklmnopqr 2 12 chess]
[seat Ann B3n 2 12 chess]
[seat Ann Ben 601 12 chess]
[seat Ann Ben 2 601 chess]
[seat Ann Ben 02 12 chess]
[seat Ann Ben 2 -1 chess]
[seat Ann Ben 2 12 chess\t]
[seat Ann B\u{e9}n 2 12 chess]";

/// What stands between the brackets of a row.
fn inner(row: &str) -> Result<&str, Fail> {
    let text = row
        .strip_prefix('[')
        .and_then(|rest| rest.strip_suffix(']'))
        .ok_or("brackets")?;
    Ok(text)
}

/// What is written for `OPENING` and a bad line behind it.
fn opening_and_bad_line(alloc: Global) -> Result<String, Fail> {
    let opening = script_of(alloc, OPENING)?;
    let before = text_within(alloc, OPENING, opening.len())?;
    Ok(format!(in alloc; "{before}bad line 5\n")?)
}

/// `OPENING`, and this behind it.
fn opening_and(alloc: Global, line: &str, rest: &str) -> Result<String, Fail> {
    let mut script = script_of(alloc, OPENING)?;
    script.push_str(line)?;
    script.push_str(rest)?;
    Ok(script)
}

#[test]
fn stops_at_a_bad_line(rt: HostRuntime) -> Result<(), Fail> {
    let text = opening_and_bad_line(rt.alloc())?;
    for row in BAD.lines() {
        let line = inner(row)?;
        for rest in ["", "\n9000 1 > g1f3\n"] {
            let script = opening_and(rt.alloc(), line, rest)?;
            let case = replay(script.as_bytes());
            expect_text(&rt, rt.alloc(), line, &case, 7, text.as_str())?;
        }
    }
    Ok(())
}

/// This line between what comes before it and a script.
fn first_line(alloc: Global, before: &str, line: &str) -> Result<String, Fail> {
    let mut script = String::from_str(alloc, before)?;
    script.push_str(line)?;
    script.push_str("\nseat Ann Ben 2 12 chess\n3000 1 > e2e4\n")?;
    Ok(script)
}

#[test]
fn stops_at_a_bad_first_line(rt: HostRuntime) -> Result<(), Fail> {
    for row in BAD_FIRST.lines() {
        let line = inner(row)?;
        let script = first_line(rt.alloc(), "", line)?;
        expect_text(
            &rt,
            rt.alloc(),
            line,
            &replay(script.as_bytes()),
            7,
            "bad line 1\n",
        )?;
        let script = first_line(rt.alloc(), "\n\r\n", line)?;
        expect_text(
            &rt,
            rt.alloc(),
            line,
            &replay(script.as_bytes()),
            7,
            "bad line 3\n",
        )?;
    }
    Ok(())
}

/// One session whose link has ended, and one that has quit.
const GONE: &str = "\
0 1 +
  1|Free Internet Chess Server profile
  1|login:\x20
0 2 +
  2|Free Internet Chess Server profile
  2|login:\x20
0 1 -
0 2 > guest
  2|Entered as GuestAAAA.
  2|fics%\x20
0 2 > quit
  2|Goodbye.
";

/// Lines that may not come after `GONE`.
const BEHIND_GONE: &[&str] = &[
    "0 1 ?",
    "0 1 +",
    "0 1 -",
    "0 1 > Ann",
    "0 2 ?",
    "0 2 +",
    "0 2 -",
    "0 2 > guest",
    "0 2 ! 1",
    "0 3 > Ann",
    "seat Ann Ben 2 12 chess",
];

#[test]
fn nothing_comes_from_a_session_that_is_gone(rt: HostRuntime) -> Result<(), Fail> {
    let opening = script_of(rt.alloc(), GONE)?;
    let before = text_within(rt.alloc(), GONE, opening.len())?;
    let text = format!(in rt.alloc(); "{before}bad line 6\n")?;
    for line in BEHIND_GONE {
        let script = format!(in rt.alloc(); "{opening}{line}\n")?;
        expect_text(
            &rt,
            rt.alloc(),
            line,
            &replay(script.as_bytes()),
            7,
            text.as_str(),
        )?;
    }
    Ok(())
}

/// A word of so many letters.
fn long_word(alloc: Global, length: usize) -> Result<String, Fail> {
    let mut word = String::new(alloc);
    word.push_str("5000 1 > ")?;
    for _ in 0..length {
        word.push_str("e")?;
    }
    Ok(word)
}

#[test]
fn long_lines_are_outside_a_script(rt: HostRuntime) -> Result<(), Fail> {
    let text = opening_and_bad_line(rt.alloc())?;
    for length in [1_015, 1_016, 100_000] {
        let line = long_word(rt.alloc(), length)?;
        let script = opening_and(rt.alloc(), line.as_str(), "\n9000 1 > g1f3\n")?;
        let case = replay(script.as_bytes());
        expect_text(&rt, rt.alloc(), "a long line", &case, 7, text.as_str())?;
    }
    Ok(())
}

/// Scripts without events.
const EMPTY: &[&str] = &[
    "",
    "\n",
    "\n\r\n\x00\n",
    "seat Ann Ben 2 12 chess",
    "\n\nseat Ann Ben 0 0 chess\n\n",
];

#[test]
fn writes_nothing_without_events(rt: HostRuntime) -> Result<(), Fail> {
    for script in EMPTY {
        expect_text(&rt, rt.alloc(), script, &replay(script.as_bytes()), 0, "")?;
    }
    Ok(())
}

#[test]
fn drops_carriage_returns_and_zeros(rt: HostRuntime) -> Result<(), Fail> {
    let script =
        b"\r\n\nse\x00at Ann\r Ben 2 12 chess\r\n3000 1 > e2\x00e4\r\n\r\n5000 2 > e7e5\n\r9000 1 > g1f3\n\r9500 2 > resign\r";
    let text = text_within(rt.alloc(), RESIGNED, 1_000)?;
    expect_text(&rt, rt.alloc(), "marks", &replay(script), 0, text.as_str())
}

/// A script that is read in pieces, of which these reads and writes fail.
fn in_pieces<'a>(script: &'a str, bytes: usize, reads: &'a [u64], writes: &'a [u64]) -> Case<'a> {
    let cut = at_least_one(bytes);
    Case {
        words: &["replay"],
        input: script.as_bytes(),
        cut,
        reads,
        writes,
    }
}

#[test]
fn replays_however_the_script_is_cut(rt: HostRuntime) -> Result<(), Fail> {
    let script = script_of(rt.alloc(), RESIGNED)?;
    let text = text_within(rt.alloc(), RESIGNED, script.len())?;
    for cut in [1, 2, 3] {
        let case = in_pieces(script.as_str(), cut, &[], &[]);
        expect_text(&rt, rt.alloc(), "in pieces", &case, 0, text.as_str())?;
    }
    Ok(())
}

/// Before a read that fails, what is due for the whole lines so far was written.
#[test]
fn tells_a_fault_of_reading_a_script(rt: HostRuntime) -> Result<(), Fail> {
    let script = script_of(rt.alloc(), RESIGNED)?;
    for read in 0..13 {
        let reads = [read];
        let case = in_pieces(script.as_str(), 7, &reads, &[]);
        let text = text_within(rt.alloc(), RESIGNED, 7 * read as usize)?;
        expect_text(&rt, rt.alloc(), "a read", &case, 2, text.as_str())?;
    }
    Ok(())
}

/// The seat line has 24 bytes and writes nothing; the four lines after it have 14 bytes or more, and each makes a
/// write.
#[test]
fn tells_a_fault_of_writing_a_transcript(rt: HostRuntime) -> Result<(), Fail> {
    let script = script_of(rt.alloc(), RESIGNED)?;
    for write in 0..4 {
        let writes = [write];
        let case = in_pieces(script.as_str(), 7, &[], &writes);
        let text = text_within(rt.alloc(), RESIGNED, 24 + 14 * write as usize)?;
        expect_text(&rt, rt.alloc(), "a write", &case, 3, text.as_str())?;
    }
    Ok(())
}

const FAULT_AT_A_BAD_LINE: &[Row] = &[Row(&["replay"], b"\nhello\n", 3, &[], &[0], 3, &[])];

const USAGE: &str = "usage: ficsd board, replay, demo N, check --store PATH, serve --port P\n";

const GAME: &[u8] = b"seat Ann Ben 2 12 chess\n3000 1 > e2e4\n";

const CALLS: &[Row] = &[
    Row(&["replay", "replay"], GAME, 1, &[], &[], 1, &[USAGE]),
    Row(&["replay", ""], GAME, 1, &[], &[], 1, &[USAGE]),
    Row(&["board", "replay"], GAME, 1, &[], &[], 1, &[USAGE]),
    Row(&["replay", "board"], GAME, 1, &[], &[], 1, &[USAGE]),
    Row(&["Replay"], GAME, 1, &[], &[], 1, &[USAGE]),
    Row(&["replay "], GAME, 1, &[], &[], 1, &[USAGE]),
    Row(&["--replay"], GAME, 1, &[], &[], 1, &[USAGE]),
];

/// The tables, each with what it shows.
const TABLES: &[(&str, &[Row])] = &[
    ("tells a fault of writing a bad line", FAULT_AT_A_BAD_LINE),
    ("replay takes no words", CALLS),
];

#[test]
fn runs_end_as_the_tables_say(rt: HostRuntime) -> Result<(), Fail> {
    expect_tables(&rt, rt.alloc(), TABLES)
}
