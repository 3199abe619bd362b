//! PGN text that `run` tidies over the fakes. The exports are written out by hand from the export form; the lines of
//! the long game were broken by another program at 79 bytes.

use crate::running::{Case, Row, expect, expect_tables};
use std::alloc::Global;
use std::test::Fail;

/// The tags of a game of which the text tells none, and the empty line behind them.
const NO_TAGS: &str = "\
[Event \"?\"]
[Site \"?\"]
[Date \"????.??.??\"]
[Round \"?\"]
[White \"?\"]
[Black \"?\"]
[Result \"*\"]

";

const TWO_KNIGHTS_OUT: &[u8] = b"1.e4 e5 {open} 2. Nf3 $1 (2. f4) Nc6!? *";

/// A game at the opera in Paris, 1858, with what annotators put between the moves.
const OPERA: &[u8] = b"\xEF\xBB\xBF%eval off\r
[Event \"Paris\"]\r
[Site \"Opera \\\"Garnier\\\" \\\\ box\"]\r
[Date \"1858.11.02\"]\r
[Round \"1\"]\r
[White \"Morphy\"]\r
[Black \"Duke Karl and Count Isouard\"]\r
[Black \"Nobody\"]\r
[ECO \"C41\"]\r
[Result \"0-1\"]\r
\r
1.e4 e5 2.Nf3 d6 3.d4 Bg4?! 4.dxe5 Bxf3 ; (\r
5.Qxf3 dxe5 6.Bc4 Nf6? ({two ( comments } Qf6 ; and a )\r
(6...Qd7)) 7.Qb3 $18 Qe7 8.Nc3 c6 9.Bg5 b5?\r
10.Nxb5!! cxb5 11.Bxb5+ Nbd7 12.O-O-O Rd8 13.Rxd7 Rxd7 14.Rd1 Qe6\r
15.Bxd7+ Nxd7 16.Qb8+!! 16...Nxb8 17.Rd8# 1-0\r
";

const OPERA_TIDIED: &str = "\
[Event \"Paris\"]
[Site \"Opera \\\"Garnier\\\" \\\\ box\"]
[Date \"1858.11.02\"]
[Round \"1\"]
[White \"Morphy\"]
[Black \"Duke Karl and Count Isouard\"]
[Result \"1-0\"]

1. e4 e5 2. Nf3 d6 3. d4 Bg4 4. dxe5 Bxf3 5. Qxf3 dxe5 6. Bc4 Nf6 7. Qb3 Qe7 8.
Nc3 c6 9. Bg5 b5 10. Nxb5 cxb5 11. Bxb5+ Nbd7 12. O-O-O Rd8 13. Rxd7 Rxd7 14.
Rd1 Qe6 15. Bxd7+ Nxd7 16. Qb8+ Nxb8 17. Rd8# 1-0

";

/// Whole texts, in one piece and byte by byte.
const WHOLE: &[Row] = &[
    Row(&["tidy"], b"", 4_096, &[], &[], 0, &[]),
    Row(&["tidy"], b" \r\n\x0B;c", 1, &[], &[], 0, &[]),
    Row(
        &["tidy"],
        TWO_KNIGHTS_OUT,
        4_096,
        &[],
        &[],
        0,
        &[NO_TAGS, "1. e4 e5 2. Nf3 Nc6 *\n\n"],
    ),
    Row(
        &["tidy"],
        TWO_KNIGHTS_OUT,
        1,
        &[],
        &[],
        0,
        &[NO_TAGS, "1. e4 e5 2. Nf3 Nc6 *\n\n"],
    ),
    Row(&["tidy"], OPERA, 4_096, &[], &[], 0, &[OPERA_TIDIED]),
    Row(&["tidy"], OPERA, 1, &[], &[], 0, &[OPERA_TIDIED]),
    // games one behind the other, the last without a line feed behind it
    Row(
        &["tidy"],
        b"*\n{\x00}* d4 *",
        3,
        &[],
        &[],
        0,
        &[NO_TAGS, "*\n\n", NO_TAGS, "*\n\n", NO_TAGS, "1. d4 *\n\n"],
    ),
];

/// What leaves the grammar, behind whole games and at once.
const BAD_LINES: &[Row] = &[
    Row(
        &["tidy"],
        b"1. e4 e5 2. Ke3 *",
        4_096,
        &[],
        &[],
        7,
        &["bad line 1\n"],
    ),
    Row(&["tidy"], b"\x00", 4_096, &[], &[], 7, &["bad line 1\n"]),
    Row(
        &["tidy"],
        b"*\n\nd4 *\n\ne4 e4 *\n",
        4,
        &[],
        &[],
        7,
        &[NO_TAGS, "*\n\n", NO_TAGS, "1. d4 *\n\n", "bad line 5\n"],
    ),
    // the end in a game and in a comment, and the mark of UTF-8 without its end
    Row(
        &["tidy"],
        b"*\nd4\n",
        4_096,
        &[],
        &[],
        7,
        &[NO_TAGS, "*\n\n", "bad line 3\n"],
    ),
    Row(
        &["tidy"],
        b"* {\n\n",
        2,
        &[],
        &[],
        7,
        &[NO_TAGS, "*\n\n", "bad line 3\n"],
    ),
    Row(&["tidy"], b"\xEF\xBB", 1, &[], &[], 7, &["bad line 1\n"]),
];

/// Where a read or a write fails, and words that name no command.
const FAULTS: &[Row] = &[
    Row(&["tidy"], b"* \nd4 *", 4, &[1], &[], 2, &[NO_TAGS, "*\n\n"]),
    Row(
        &["tidy"],
        b"* \nd4 * ",
        4,
        &[],
        &[1],
        3,
        &[NO_TAGS, "*\n\n"],
    ),
    Row(
        &["tidy", "x"],
        b"*",
        4_096,
        &[],
        &[],
        1,
        &["usage: ficsd board, replay, demo N, check --store PATH, serve --port P\n"],
    ),
];

#[test]
fn texts_are_tidied(rt: HostRuntime) -> Result<(), Fail> {
    expect_tables(
        &rt,
        rt.alloc(),
        &[
            ("whole texts", WHOLE),
            ("bad lines", BAD_LINES),
            ("faults", FAULTS),
        ],
    )
}

/// `tidy` over an input that is read whole.
fn tidy(input: &[u8]) -> Case<'_> {
    Case {
        words: &["tidy"],
        input,
        cut: 4_096,
        reads: &[],
        writes: &[],
    }
}

/// A game behind a comment and blanks, all on one line of 5,004 bytes.
fn long_line(alloc: Global) -> Result<Vec<u8>, Fail> {
    let mut line = Vec::new(alloc);
    line.extend_from_slice(b"{}")?;
    for _ in 0..5_000 {
        line.push(b' ')?;
    }
    line.extend_from_slice(b"*\n")?;
    Ok(line)
}

#[test]
fn a_line_has_any_length(rt: HostRuntime) -> Result<(), Fail> {
    let line = long_line(rt.alloc())?;
    let mut text = String::from_str(rt.alloc(), NO_TAGS)?;
    text.push_str("*\n\n")?;
    expect(&rt, rt.alloc(), &tidy(line.as_slice()), 0, text.as_str())
}

#[test]
fn an_export_stays(rt: HostRuntime) -> Result<(), Fail> {
    expect(
        &rt,
        rt.alloc(),
        &tidy(OPERA_TIDIED.as_bytes()),
        0,
        OPERA_TIDIED,
    )
}
