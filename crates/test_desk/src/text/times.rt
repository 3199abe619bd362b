//! The times of a board line, and its greatest and least numbers.

use crate::text::games::{line_of, played, untimed};
use chess_model::Variant;
use std::test::Fail;
use style12_writer::{BoardView, Viewer};

/// White's and Black's remaining time and the time taken, in milliseconds, and what the line has from White's time on.
const TIMES: &[([i64; 2], u64, &str)] = &[
    ([0, 0], 0, "0 0 1 none (0:00) none 0"),
    ([999, 1_000], 999, "0 1 1 none (0:00) none 0"),
    ([1_999, 59_999], 1_000, "1 59 1 none (0:01) none 0"),
    ([120_500, 119_500], 9_999, "120 119 1 none (0:09) none 0"),
    ([-1, -999], 59_999, "0 0 1 none (0:59) none 0"),
    ([-1_000, -1_001], 60_000, "-1 -1 1 none (1:00) none 0"),
    ([-1_999, -2_000], 75_300, "-1 -2 1 none (1:15) none 0"),
    (
        [36_000_000, 600_000],
        3_599_999,
        "36000 600 1 none (59:59) none 0",
    ),
    (
        [300_000, 299_999],
        3_600_000,
        "300 299 1 none (60:00) none 0",
    ),
    (
        [9_223_372_036_854_775_807, -9_223_372_036_854_775_808],
        18_446_744_073_709_551_615,
        "9223372036854775 -9223372036854775 1 none (307445734561825:51) none 0",
    ),
];

/// What the line has before the times.
const BEFORE: &str =
    "<12> rnbqkbnr pppppppp -------- -------- -------- -------- PPPPPPPP RNBQKBNR W -1 1 1 1 1 0 1 Ann Ben 0 0 0 39 39 ";

const OBSERVER: Viewer = Viewer {
    relation: 0,
    flip: false,
};

/// Whether a board is shown by the line of these two pieces.
fn is_shown(view: &BoardView, viewer: Viewer, before: &str, end: &str) -> bool {
    line_of(view, viewer)
        .bytes()
        .strip_prefix(before.as_bytes())
        == Some(end.as_bytes())
}

#[test]
fn shows_times(rt: HostRuntime) -> Result<(), Fail> {
    let start = played(Variant::Chess, "").ok_or("a game")?;
    let mut view = untimed(start.face(), "Ann", "Ben").ok_or("names")?;
    for (remaining, taken, end) in TIMES {
        view.remaining = *remaining;
        view.taken = *taken;
        assert!(rt; is_shown(&view, OBSERVER, BEFORE, end), "{end}");
    }
    Ok(())
}

/// The greatest and the least relation, and the line.
const GREATEST: &[(i8, &str)] = &[
    (
        127,
        "<12> rnbqkbnr pppppppp -------- -------- -------- -------- PPPPPPPP RNBQKBNR W -1 1 1 1 1 65535 65535 Abcdefghijklmnopq Xyz 127 65535 65535 39 39 0 0 65535 none (0:00) none 1",
    ),
    (
        -128,
        "<12> rnbqkbnr pppppppp -------- -------- -------- -------- PPPPPPPP RNBQKBNR W -1 1 1 1 1 65535 65535 Abcdefghijklmnopq Xyz -128 65535 65535 39 39 0 0 65535 none (0:00) none 1",
    ),
];

#[test]
fn shows_the_greatest_numbers(rt: HostRuntime) -> Result<(), Fail> {
    let start = played(Variant::Chess, "").ok_or("a game")?;
    let mut view = untimed(start.face(), "Abcdefghijklmnopq", "Xyz").ok_or("names")?;
    view.game = 65_535;
    view.minutes = 65_535;
    view.increment = 65_535;
    view.face.quiet = 65_535;
    view.face.number = 65_535;
    for (relation, text) in GREATEST {
        let viewer = Viewer {
            relation: *relation,
            flip: true,
        };
        assert!(rt; is_shown(&view, viewer, "", text), "{relation}");
    }
    Ok(())
}
