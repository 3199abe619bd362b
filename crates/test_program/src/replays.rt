//! `replay` over the fakes: a game of two players, on which its faults and statuses are tried, and one of the most
//! half-moves. What is written for a script stands set in under each of its lines. Whole evenings stand in
//! `test_evenings`.

use crate::running::{Case, outcome};
use std::alloc::Global;
use std::process::Abort;
use std::test::Fail;

/// Black resigns; before that White's clock has lost four seconds and won twelve.
pub(crate) const RESIGNED: &str = "\
seat Ann Ben 2 12 chess
3000 1 > e2e4
  1|{Game 1 (Ann vs. Ben) Creating 2 12 chess match.}
  1|<12> rnbqkbnr pppppppp -------- -------- -------- -------- PPPPPPPP RNBQKBNR W -1 1 1 1 1 0 1 Ann Ben 1 2 12 39 39 120 120 1 none (0:00) none 0
  1|<12> rnbqkbnr pppppppp -------- -------- ----P--- -------- PPPP-PPP RNBQKBNR B 4 1 1 1 1 0 1 Ann Ben -1 2 12 39 39 120 120 1 P/e2-e4 (0:00) e4 0
  1|fics%\x20
5000 2 > e7e5
  2|{Game 1 (Ann vs. Ben) Creating 2 12 chess match.}
  2|<12> rnbqkbnr pppppppp -------- -------- -------- -------- PPPPPPPP RNBQKBNR W -1 1 1 1 1 0 1 Ann Ben -1 2 12 39 39 120 120 1 none (0:00) none 1
  2|<12> rnbqkbnr pppppppp -------- -------- ----P--- -------- PPPP-PPP RNBQKBNR B 4 1 1 1 1 0 1 Ann Ben 1 2 12 39 39 120 120 1 P/e2-e4 (0:00) e4 1
  2|<12> rnbqkbnr pppp-ppp -------- ----p--- ----P--- -------- PPPP-PPP RNBQKBNR W 4 1 1 1 1 0 1 Ann Ben -1 2 12 39 39 120 120 2 P/e7-e5 (0:00) e5 1
  2|fics%\x20
9000 1 > g1f3
  1|<12> rnbqkbnr pppp-ppp -------- ----p--- ----P--- -------- PPPP-PPP RNBQKBNR W 4 1 1 1 1 0 1 Ann Ben 1 2 12 39 39 120 120 2 P/e7-e5 (0:00) e5 0
  1|<12> rnbqkbnr pppp-ppp -------- ----p--- ----P--- -----N-- PPPP-PPP RNBQKB-R B -1 1 1 1 1 1 1 Ann Ben -1 2 12 39 39 128 120 2 N/g1-f3 (0:04) Nf3 0
  1|fics%\x20
9500 2 > resign
  2|<12> rnbqkbnr pppp-ppp -------- ----p--- ----P--- -----N-- PPPP-PPP RNBQKB-R B -1 1 1 1 1 1 1 Ann Ben 1 2 12 39 39 128 120 2 N/g1-f3 (0:04) Nf3 1
  2|{Game 1 (Ann vs. Ben) Ben resigns} 1-0
  2|fics%\x20\
";

/// The last lines of the game of 1,200 half-moves.
const LAST_OF_1200: &str = "\
2|<12> rnbqkb-r pppppppp -----n-- -------- -------- -------- PPPPPPPP RNBQKBNR B -1 1 1 1 1 1199 1 Ann Ben 1 0 0 39 39 0 0 600 N/f3-g1 (0:00) Ng1 1
2|<12> rnbqkbnr pppppppp -------- -------- -------- -------- PPPPPPPP RNBQKBNR W -1 1 1 1 1 1200 1 Ann Ben -1 0 0 39 39 0 0 601 N/f6-g8 (0:00) Ng8 1
2|fics%\x20
1|refused 12 TooManyMoves
1|<12> rnbqkbnr pppppppp -------- -------- -------- -------- PPPPPPPP RNBQKBNR W -1 1 1 1 1 1200 1 Ann Ben 1 0 0 39 39 0 0 601 N/f6-g8 (0:00) Ng8 0
1|fics%\x20
1|refused 12 TooManyMoves
1|fics%\x20
2|refused 11 NotYourTurn
2|fics%\x20
2|{Game 1 (Ann vs. Ben) Ben resigns} 1-0
2|fics%\x20
";

/// `replay` over a script that is read whole.
pub(crate) fn replay(script: &[u8]) -> Case<'_> {
    Case {
        words: &["replay"],
        input: script,
        cut: 4_096,
        reads: &[],
        writes: &[],
    }
}

/// The script of some rows: those that aren't set in.
pub(crate) fn script_of(alloc: Global, rows: &str) -> Result<String, Fail> {
    let mut script = String::new(alloc);
    for row in rows.lines() {
        if row.strip_prefix("  ").is_none() {
            script.push_str(row)?;
            script.push_str("\n")?;
        }
    }
    Ok(script)
}

/// What is written for those lines of the script that are whole within its first bytes.
pub(crate) fn text_within(alloc: Global, rows: &str, bytes: usize) -> Result<String, Fail> {
    let mut script = String::new(alloc);
    let mut text = String::new(alloc);
    for row in rows.lines() {
        if let Some(written) = row.strip_prefix("  ") {
            if script.len() <= bytes {
                text.push_str(written)?;
                text.push_str("\n")?;
            }
        } else {
            script.push_str(row)?;
            script.push_str("\n")?;
        }
    }
    Ok(text)
}

/// The first line that is written otherwise than in the text, if one is.
fn first_otherwise<'a>(written: &'a str, text: &str) -> Option<&'a str> {
    for (line, expected) in written.lines().zip(text.lines()) {
        if line != expected {
            return Some(line);
        }
    }
    None
}

/// Runs the case, and compares all that is written, line by line, and the status.
pub(crate) fn expect_text(
    rt: &impl Abort,
    alloc: Global,
    name: &str,
    case: &Case<'_>,
    status: u8,
    text: &str,
) -> Result<(), Fail> {
    let (ended, written) = outcome(alloc, case)?;
    let written = str::from_utf8(written.as_slice())?;
    assert_eq!(rt; first_otherwise(written, text), None, "{name}");
    assert!(rt; written == text, "{name}: {written}");
    assert_eq!(rt; ended, status, "{name}");
    Ok(())
}

/// 1,200 half-moves of knights. Then White's words are refused, and Black's come out of turn.
#[test]
fn replays_no_move_after_1200_half_moves(rt: HostRuntime) -> Result<(), Fail> {
    let mut script = String::new(rt.alloc());
    script.push_str("seat Ann Ben 0 0 chess\n")?;
    for _round in 0..300 {
        script.push_str("0 1 > g1f3\n0 2 > g8f6\n0 1 > f3g1\n0 2 > f6g8\n")?;
    }
    script.push_str("0 1 > e2e4\n0 1 > e2e5\n0 2 > e7e5\n0 2 > resign\n")?;
    let (status, written) = outcome(rt.alloc(), &replay(script.as_bytes()))?;
    assert_eq!(rt; status, 0);
    assert!(rt; written.as_slice().ends_with(LAST_OF_1200.as_bytes()));
    Ok(())
}
