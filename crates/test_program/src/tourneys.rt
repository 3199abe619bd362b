//! Round robins that `run` directs over the fakes. Pairs and tables are worked out by hand from the rule of the
//! pairing: in round r those meet whose numbers, in order of joining, have the sum r - 1 modulo the odd number of
//! rounds, and the one who would meet himself meets the last player of an even number, or is free.

use crate::running::{Row, expect, expect_tables, tourney};
use std::alloc::Global;
use std::process::Abort;
use std::test::Fail;

/// Three play: one is free in each round. A line behind `> ` is read, and the others are written for it.
const THREE_PLAYERS: &str = "\
> join Ann
Ok.
> join Ben
Ok.
> join Cat
Ok.
> start
rounds 3
> round 1
Ben - Cat
> round 2
Ann - Ben
> round 3
Cat - Ann
> result Ben Cat 1/2-1/2
Ok.
> table
1 Ben 1 1
2 Cat 1 1
3 Ann 0 0
";

/// What a director may get wrong, before the start and after it.
const REFUSALS: &str = "\
> table
refused 62 TourneyNotStarted
> round 1
refused 62 TourneyNotStarted
> result Ann Ben 1-0
refused 62 TourneyNotStarted
> join Ann
Ok.
> start
refused 61 TooFewPlayers
> join ann
refused 24 HandleTaken
> join Ben
Ok.
> join Cat
Ok.
> start
rounds 3
> start
refused 59 TourneyStarted
> join Dan
refused 59 TourneyStarted
> round 4
refused 63 NoSuchRound
> round 255
refused 63 NoSuchRound
> result Cat Ben 1-0
refused 64 NotPaired
> result Ben Dan 1-0
refused 64 NotPaired
> result BEN cat 1-0
Ok.
> result Ben Cat 0-1
refused 65 AlreadyReported
> table
1 Ben 1 2
2 Ann 0 0
3 Cat 1 0
";

/// The evening of docs/TOURNEYS.md: four players, three rounds, and two slips of the director.
const EVENING: &str = "\
> join Ann
Ok.
> join Ben
Ok.
> join Cat
Ok.
> join Dan
Ok.
> start
rounds 3
> round 1
Ann - Dan
Ben - Cat
> join Eve
refused 59 TourneyStarted
> result Ann Dan 1-0
Ok.
> result Ben Cat 1/2-1/2
Ok.
> round 2
Ann - Ben
Cat - Dan
> result Ben Ann 1-0
refused 64 NotPaired
> result Ann Ben 0-1
Ok.
> result Cat Dan 1-0
Ok.
> table
1 Ben 2 3
2 Cat 2 3
3 Ann 2 2
4 Dan 2 0
> round 3
Cat - Ann
Dan - Ben
> result Cat Ann 1/2-1/2
Ok.
> result Dan Ben 0-1
Ok.
> table
1 Ben 3 5
2 Cat 3 4
3 Ann 3 3
4 Dan 3 0
";

const EVENINGS: &[(&str, &str)] = &[
    ("three players", THREE_PLAYERS),
    ("refusals", REFUSALS),
    ("an evening of four", EVENING),
];

/// The lines that are read, and those that are written.
fn cut_evening(alloc: Global, evening: &str) -> Result<(String, String), Fail> {
    let mut read = String::new(alloc);
    let mut written = String::new(alloc);
    for row in evening.lines() {
        match row.strip_prefix("> ") {
            Some(line) => push_line(&mut read, line)?,
            None => push_line(&mut written, row)?,
        }
    }
    Ok((read, written))
}

fn push_line(text: &mut String, line: &str) -> Result<(), Fail> {
    text.push_str(line)?;
    text.push_str("\n")?;
    Ok(())
}

fn expect_evening(rt: &impl Abort, alloc: Global, name: &str, evening: &str) -> Result<(), Fail> {
    let (read, written) = cut_evening(alloc, evening)?;
    assert!(rt; !written.is_empty(), "{name}");
    expect(rt, alloc, &tourney(read.as_bytes()), 0, written.as_str())
}

#[test]
fn evenings_are_directed(rt: HostRuntime) -> Result<(), Fail> {
    for (name, evening) in EVENINGS {
        expect_evening(&rt, rt.alloc(), name, evening)?;
    }
    Ok(())
}

/// A line outside the grammar ends the run; the lines before it are answered.
const BAD_LINES: &[Row] = &[
    Row(
        &["tourney"],
        b"join Al\n",
        4_096,
        &[],
        &[],
        7,
        &["bad line 1\n"],
    ),
    Row(
        &["tourney"],
        b"join Ann\n\njoin Ann Ben\n",
        4_096,
        &[],
        &[],
        7,
        &["Ok.\n", "bad line 3\n"],
    ),
    Row(
        &["tourney"],
        b"Start\n",
        4_096,
        &[],
        &[],
        7,
        &["bad line 1\n"],
    ),
    Row(
        &["tourney"],
        b"start \n",
        4_096,
        &[],
        &[],
        7,
        &["bad line 1\n"],
    ),
    Row(
        &["tourney"],
        b"round 0\n",
        4_096,
        &[],
        &[],
        7,
        &["bad line 1\n"],
    ),
    Row(
        &["tourney"],
        b"round 01\n",
        4_096,
        &[],
        &[],
        7,
        &["bad line 1\n"],
    ),
    Row(
        &["tourney"],
        b"round 256\n",
        4_096,
        &[],
        &[],
        7,
        &["bad line 1\n"],
    ),
    Row(
        &["tourney"],
        b"result Ann Ben 2-0\n",
        4_096,
        &[],
        &[],
        7,
        &["bad line 1\n"],
    ),
    Row(
        &["tourney"],
        b"result Ann 1-0\n",
        4_096,
        &[],
        &[],
        7,
        &["bad line 1\n"],
    ),
];

/// However the input is cut, and where a read or a write fails.
const CUTS_AND_FAULTS: &[Row] = &[
    Row(&["tourney"], b"", 4_096, &[], &[], 0, &[]),
    Row(
        &["tourney"],
        b"join Ann\r\njoin Ben\nstart",
        1,
        &[],
        &[],
        0,
        &["Ok.\nOk.\nrounds 1\n"],
    ),
    Row(
        &["tourney"],
        b"join Ann\njoin Ben\n",
        9,
        &[1],
        &[],
        2,
        &["Ok.\n"],
    ),
    Row(
        &["tourney"],
        b"join Ann\njoin Ben\n",
        9,
        &[],
        &[1],
        3,
        &["Ok.\n"],
    ),
    Row(
        &["tourney", "4"],
        b"join Ann\n",
        4_096,
        &[],
        &[],
        1,
        &["usage: ficsd board, replay, demo N, check --store PATH, serve --port P\n"],
    ),
];

#[test]
fn ends_are_told(rt: HostRuntime) -> Result<(), Fail> {
    expect_tables(
        &rt,
        rt.alloc(),
        &[
            ("bad lines", BAD_LINES),
            ("cuts and faults", CUTS_AND_FAULTS),
        ],
    )
}
