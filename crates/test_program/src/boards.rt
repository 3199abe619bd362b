//! `run` over the fakes: the command `board`, and words that name no command.

use crate::running::{Case, Row, at_least_one, board, expect, expect_tables, outcome};
use std::alloc::Global;
use std::test::Fail;
use test_steps::limits::LINE_BYTES;

/// The board line after White's e2 to e4.
const FIRST_MOVE: &str =
    "<12> rnbqkbnr pppppppp -------- -------- ----P--- -------- PPPP-PPP RNBQKBNR B 4 1 1 1 1 0 1 White Black 0 0 0 39 39 0 0 1 P/e2-e4 (0:00) e4 0\n\r";

const FIRST_MOVES: &[Row] = &[
    Row(&["board"], b"e2e4\n", 4_096, &[], &[], 0, &[FIRST_MOVE]),
    Row(&["board"], b"e2-e4\n", 4_096, &[], &[], 0, &[FIRST_MOVE]),
    Row(&["board"], b"e2e4", 4_096, &[], &[], 0, &[FIRST_MOVE]),
    Row(
        &["board"],
        b"\r\n\ne2e4\r\n\n",
        4_096,
        &[],
        &[],
        0,
        &[FIRST_MOVE],
    ),
    Row(
        &["board"],
        b"e\r2\x00e4\n",
        4_096,
        &[],
        &[],
        0,
        &[FIRST_MOVE],
    ),
];

/// How a run of three words ends, and what it writes, where they are read in pieces of so many bytes.
fn in_pieces(alloc: Global, bytes: usize) -> Result<(u8, Vec<u8>), Fail> {
    let cut = at_least_one(bytes);
    let case = Case {
        words: &["board"],
        input: b"e2e5\ne2e4\ne7e5\n",
        cut,
        reads: &[],
        writes: &[],
    };
    outcome(alloc, &case)
}

#[test]
fn answers_however_the_input_is_cut(rt: HostRuntime) -> Result<(), Fail> {
    let (status, whole) = in_pieces(rt.alloc(), 4_096)?;
    assert_eq!(rt; status, 0);
    for cut in [1, 2, 3, 7] {
        let (again, written) = in_pieces(rt.alloc(), cut)?;
        assert!(rt;
            again == 0 && written.as_slice() == whole.as_slice(),
            "{cut}"
        );
    }
    Ok(())
}

const OUT_OF_REACH: &[Row] = &[Row(
    &["board"],
    b"e2e5\ne2e4\n",
    4_096,
    &[],
    &[],
    0,
    &["refused 9 CannotReach\n\r", FIRST_MOVE],
)];

#[test]
fn refuses_to_move_a_pinned_knight(rt: HostRuntime) -> Result<(), Fail> {
    let words = b"e2e4\ne7e5\nb1c3\nf8b4\nd2d3\na7a6\nc3d5\n";
    let (status, written) = outcome(rt.alloc(), &board(words))?;
    assert_eq!(rt; status, 0);
    assert!(rt;
        written
            .as_slice()
            .ends_with(b"\n\rrefused 2 LeavesKing\n\r")
    );
    Ok(())
}

/// White's rook on h1 is taken at home, the other one comes there, and nothing is left between it and the king: the
/// board shows no right of White's to castle, and the word is refused.
const SECOND_ROOK: (&[u8], &[u8]) = (
    b"g4\nb6\na4\nBb7\nRa3\nBxh1\nRg3\nBd5\nNf3\ne6\nRg1\na6\nRh1\ng6\nBh3\nh6\nO-O\n",
    b"<12> rn-qkbnr --pp-p-- pp--p-pp ---b---- P-----P- -----N-B -PPPPP-P -NBQK--R W -1 0 0 1 1 0 1 White Black 0 0 0 34 39 0 0 9 P/h7-h6 (0:00) h6 0\n\rrefused 3 CastleForbidden\n\r",
);

#[test]
fn a_second_rook_at_home_brings_no_right_back(rt: HostRuntime) -> Result<(), Fail> {
    let (words, end) = SECOND_ROOK;
    let (status, written) = outcome(rt.alloc(), &board(words))?;
    assert_eq!(rt; status, 0);
    assert!(rt; written.as_slice().ends_with(end));
    Ok(())
}

const BAD_LINES: &[Row] = &[
    Row(
        &["board"],
        b"e2e4\nhello\ne7e5\n",
        4_096,
        &[],
        &[],
        7,
        &[FIRST_MOVE, "bad line 2\n\r"],
    ),
    Row(
        &["board"],
        b"e2e4\nhello",
        4_096,
        &[],
        &[],
        7,
        &[FIRST_MOVE, "bad line 2\n\r"],
    ),
    Row(
        &["board"],
        b"\n\ne2e4 \n",
        4_096,
        &[],
        &[],
        7,
        &["bad line 3\n\r"],
    ),
    Row(
        &["board"],
        b"e2e9\n",
        4_096,
        &[],
        &[],
        7,
        &["bad line 1\n\r"],
    ),
];

/// Words of all forms: named men, castling, a drop in chess, marks.
const WORDS: &str = "\
e4|<12> rnbqkbnr pppppppp -------- -------- ----P--- -------- PPPP-PPP RNBQKBNR B 4 1 1 1 1 0 1 White Black 0 0 0 39 39 0 0 1 P/e2-e4 (0:00) e4 0
P@e4|refused 4 NoDrops
O-O|refused 3 CastleForbidden
e5|<12> rnbqkbnr pppp-ppp -------- ----p--- ----P--- -------- PPPP-PPP RNBQKBNR W 4 1 1 1 1 0 1 White Black 0 0 0 39 39 0 0 2 P/e7-e5 (0:00) e5 0
Nf3|<12> rnbqkbnr pppp-ppp -------- ----p--- ----P--- -----N-- PPPP-PPP RNBQKB-R B -1 1 1 1 1 1 1 White Black 0 0 0 39 39 0 0 2 N/g1-f3 (0:00) Nf3 0
Nc6+|<12> r-bqkbnr pppp-ppp --n----- ----p--- ----P--- -----N-- PPPP-PPP RNBQKB-R W -1 1 1 1 1 2 1 White Black 0 0 0 39 39 0 0 3 N/b8-c6 (0:00) Nc6 0
Bc4|<12> r-bqkbnr pppp-ppp --n----- ----p--- --B-P--- -----N-- PPPP-PPP RNBQK--R B -1 1 1 1 1 3 1 White Black 0 0 0 39 39 0 0 3 B/f1-c4 (0:00) Bc4 0
d7d6|<12> r-bqkbnr ppp--ppp --np---- ----p--- --B-P--- -----N-- PPPP-PPP RNBQK--R W -1 1 1 1 1 0 1 White Black 0 0 0 39 39 0 0 4 P/d7-d6 (0:00) d6 0
e1g1|<12> r-bqkbnr ppp--ppp --np---- ----p--- --B-P--- -----N-- PPPP-PPP RNBQ-RK- B -1 0 0 1 1 1 1 White Black 0 0 0 39 39 0 0 4 o-o (0:00) O-O 0
Kd8|refused 9 CannotReach
";

#[test]
fn answers_words_of_all_forms(rt: HostRuntime) -> Result<(), Fail> {
    let mut input = String::new(rt.alloc());
    let mut text = String::new(rt.alloc());
    for row in WORDS.lines() {
        let (word, answer) = row.split_once('|').ok_or("a word and its answer")?;
        input.push_str(word)?;
        input.push_str("\n")?;
        text.push_str(answer)?;
        text.push_str("\n\r")?;
    }
    expect(&rt, rt.alloc(), &board(input.as_bytes()), 0, text.as_str())
}

const USAGE: &str = "usage: ficsd board, replay, demo N, check --store PATH, serve --port P\n";

const CALLS: &[Row] = &[
    Row(&[], b"e2e4\n", 1, &[], &[], 1, &[USAGE]),
    Row(&["demo"], b"e2e4\n", 1, &[], &[], 1, &[USAGE]),
    Row(&["Board"], b"e2e4\n", 1, &[], &[], 1, &[USAGE]),
    Row(&["board", "board"], b"e2e4\n", 1, &[], &[], 1, &[USAGE]),
    Row(&["--help"], b"e2e4\n", 1, &[], &[], 1, &[USAGE]),
    Row(
        &["serve", "--port", "5000"],
        b"e2e4\n",
        1,
        &[],
        &[],
        1,
        &[USAGE],
    ),
    Row(
        &["serve", "--port", "5000", "--store", "x"],
        b"e2e4\n",
        1,
        &[],
        &[],
        1,
        &[USAGE],
    ),
    Row(&["demo", "07"], b"e2e4\n", 1, &[], &[], 1, &[USAGE]),
    Row(
        &["check", "--port", "1"],
        b"e2e4\n",
        1,
        &[],
        &[],
        1,
        &[USAGE],
    ),
];

const FAULTS: &[Row] = &[
    Row(&["board"], b"e2e4\n", 5, &[0], &[], 2, &[]),
    Row(&["board"], b"e2e4\ne7e5\n", 7, &[1], &[], 2, &[FIRST_MOVE]),
    Row(&["board"], b"e2e4\ne7e5\n", 5, &[], &[1], 3, &[FIRST_MOVE]),
    Row(&["demo"], b"", 1, &[], &[0], 3, &[]),
];

const NO_INPUT: &[Row] = &[Row(&["board"], b"", 4_096, &[], &[], 0, &[])];

/// The tables, each with what it shows.
const TABLES: &[(&str, &[Row])] = &[
    ("answers the first move", FIRST_MOVES),
    ("writes nothing for no input", NO_INPUT),
    ("refuses a square out of reach", OUT_OF_REACH),
    ("stops at the first bad line", BAD_LINES),
    ("tells how it is called", CALLS),
    ("tells faults of reading and writing", FAULTS),
];

#[test]
fn runs_end_as_the_tables_say(rt: HostRuntime) -> Result<(), Fail> {
    expect_tables(&rt, rt.alloc(), TABLES)
}

/// A first move, and a line of so many bytes before the next one.
fn with_long_line(alloc: Global, length: usize) -> Result<Vec<u8>, Fail> {
    let mut input = Vec::from_slice(alloc, b"e2e4\n")?;
    for _ in 0..length {
        input.push(b'e')?;
    }
    input.extend_from_slice(b"\ne7e5\n")?;
    Ok(input)
}

#[test]
fn long_lines_are_no_words(rt: HostRuntime) -> Result<(), Fail> {
    let text = format!(in rt.alloc(); "{FIRST_MOVE}bad line 2\n\r")?;
    for length in [LINE_BYTES, LINE_BYTES + 1, LINE_BYTES + 2, 100_000] {
        let input = with_long_line(rt.alloc(), length)?;
        expect(&rt, rt.alloc(), &board(input.as_slice()), 7, text.as_str())?;
    }
    Ok(())
}
