//! Evenings that `run` makes from a number. The counts themselves are known from nowhere else; what is known of them by
//! hand is asserted: the six lines and their order, that 40 sessions come and nothing is stored, and bounds. Each of
//! the 40 guests makes an entry to come in and one at least to leave, and each of the 4,000 turns one at least, with
//! which the session asks for its news: 4,080 entries. A turn starts one game at most, and makes one half-move at
//! most.

use crate::running::{Case, Row, expect_tables, outcome};
use std::alloc::Global;
use std::process::Abort;
use std::str;
use std::test::Fail;

/// What the lines of a summary begin with.
const WORDS: &[&str] = &[
    "sessions ",
    "entries ",
    "games ",
    "moves ",
    "refused ",
    "stored ",
];

/// The least and the most of each count.
const BOUNDS: &[(u64, u64)] = &[
    (40, 40),
    (4_080, 1_000_000),
    (1, 4_000),
    (1, 4_000),
    (1, 1_000_000),
    (0, 0),
];

/// Words that name no demo, and a write that fails.
const OTHERS: &[Row] = &[
    Row(
        &["demo"],
        b"",
        1,
        &[],
        &[],
        1,
        &["usage: ficsd board, replay, demo N, check --store PATH, serve --port P\n"],
    ),
    Row(
        &["demo", "1000000"],
        b"",
        1,
        &[],
        &[],
        1,
        &["usage: ficsd board, replay, demo N, check --store PATH, serve --port P\n"],
    ),
    Row(&["demo", "7"], b"", 1, &[], &[0], 3, &[]),
];

/// The summary of the number's evening; the input isn't a script, and its first read would fail.
fn summary(alloc: Global, number: &str) -> Result<Vec<u8>, Fail> {
    let case = Case {
        words: &["demo", number],
        input: b"no script\n",
        cut: 4_096,
        reads: &[0],
        writes: &[],
    };
    let (status, text) = outcome(alloc, &case)?;
    if status != 0 {
        return Err(Fail::from("a demo ends with another status"));
    }
    Ok(text)
}

/// The place of the first line of a summary that isn't as said, if one is; the number of lines where one is missing.
fn first_wrong_line(text: &str) -> Option<usize> {
    let mut lines = text.lines();
    for (place, words) in WORDS.iter().enumerate() {
        let (least, most) = BOUNDS[place];
        let count = count_in(lines.next()?, words);
        match count {
            Some(count) if least <= count && count <= most => {}
            _ => return Some(place),
        }
    }
    lines.next().map(|_| WORDS.len())
}

/// The count behind the words of a line.
fn count_in(line: &str, words: &str) -> Option<u64> {
    line.strip_prefix(words)?.parse::<u64>().ok()
}

#[test]
fn a_number_makes_one_evening(rt: HostRuntime) -> Result<(), Fail> {
    let seven = summary(rt.alloc(), "7")?;
    let again = summary(rt.alloc(), "7")?;
    let other = summary(rt.alloc(), "999999")?;
    assert!(&rt; seven.as_slice() == again.as_slice());
    assert!(&rt; seven.as_slice() != other.as_slice());
    assert!(&rt; seven.as_slice().ends_with(b"\n"));
    Ok(())
}

#[test]
fn summaries_are_six_counts(rt: HostRuntime) -> Result<(), Fail> {
    for number in ["0", "7"] {
        let bytes = summary(rt.alloc(), number)?;
        let text = str::from_utf8(bytes.as_slice())?;
        assert_eq!(&rt; first_wrong_line(text), None, "{text}");
    }
    Ok(())
}

#[test]
fn other_words_make_none(rt: HostRuntime) -> Result<(), Fail> {
    expect_tables(&rt, rt.alloc(), &[("others", OTHERS)])
}
