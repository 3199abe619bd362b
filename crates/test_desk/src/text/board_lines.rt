//! Board lines of games that are played.

use crate::text::games::{line_of, played, untimed};
use chess_model::Variant;
use std::test::Fail;
use style12_writer::{BoardView, Viewer};
use test_steps::assert_rows;
use test_steps::boards::{FOOLS_MATE, KNIGHT_FOR_BEN, KNIGHT_ON_D2};

const OBSERVER: Viewer = Viewer {
    relation: 0,
    flip: false,
};

/// Chess games between White and Black, and the line of their last position as an observer sees it.
const CHESS: &[(&str, &str)] = &[
    (
        "",
        "<12> rnbqkbnr pppppppp -------- -------- -------- -------- PPPPPPPP RNBQKBNR W -1 1 1 1 1 0 1 White Black 0 0 0 39 39 0 0 1 none (0:00) none 0",
    ),
    (
        "e2e4",
        "<12> rnbqkbnr pppppppp -------- -------- ----P--- -------- PPPP-PPP RNBQKBNR B 4 1 1 1 1 0 1 White Black 0 0 0 39 39 0 0 1 P/e2-e4 (0:00) e4 0",
    ),
    // a single step is no double push
    (
        "h2h3",
        "<12> rnbqkbnr pppppppp -------- -------- -------- -------P PPPPPPP- RNBQKBNR B -1 1 1 1 1 0 1 White Black 0 0 0 39 39 0 0 1 P/h2-h3 (0:00) h3 0",
    ),
    // the file of a double push stands for one half-move alone
    (
        "a2a4 h7h5",
        "<12> rnbqkbnr ppppppp- -------- -------p P------- -------- -PPPPPPP RNBQKBNR W 7 1 1 1 1 0 1 White Black 0 0 0 39 39 0 0 2 P/h7-h5 (0:00) h5 0",
    ),
    (
        "a2a4 h7h5 b1c3",
        "<12> rnbqkbnr ppppppp- -------- -------p P------- --N----- -PPPPPPP R-BQKBNR B -1 1 1 1 1 1 1 White Black 0 0 0 39 39 0 0 2 N/b1-c3 (0:00) Nc3 0",
    ),
    (
        "e2e4 d7d5 e4d5 d8d5",
        "<12> rnb-kbnr ppp-pppp -------- ---q---- -------- -------- PPPP-PPP RNBQKBNR W -1 1 1 1 1 0 1 White Black 0 0 0 38 38 0 0 3 Q/d8-d5 (0:00) Qxd5 0",
    ),
    (
        "e2e4 a7a6 e4e5 d7d5",
        "<12> rnbqkbnr -pp-pppp p------- ---pP--- -------- -------- PPPP-PPP RNBQKBNR W 3 1 1 1 1 0 1 White Black 0 0 0 39 39 0 0 3 P/d7-d5 (0:00) d5 0",
    ),
    // en passant
    (
        "e2e4 a7a6 e4e5 d7d5 e5d6",
        "<12> rnbqkbnr -pp-pppp p--P---- -------- -------- -------- PPPP-PPP RNBQKBNR B -1 1 1 1 1 0 1 White Black 0 0 0 39 38 0 0 3 P/e5-d6 (0:00) exd6 0",
    ),
    // the king's move takes both rights away
    (
        "e2e4 e7e5 e1e2",
        "<12> rnbqkbnr pppp-ppp -------- ----p--- ----P--- -------- PPPPKPPP RNBQ-BNR B -1 0 0 1 1 1 1 White Black 0 0 0 39 39 0 0 2 K/e1-e2 (0:00) Ke2 0",
    ),
    // a rook's move takes one away, and its way back doesn't give it again
    (
        "a2a4 a7a5 a1a2 a8a7 a2a1",
        "<12> -nbqkbnr rppppppp -------- p------- P------- -------- -PPPPPPP RNBQKBNR B -1 1 0 1 0 3 1 White Black 0 0 0 39 39 0 0 3 R/a2-a1 (0:00) Ra1 0",
    ),
    (
        "g1f3 g8f6 g2g3 g7g6 f1g2 f8g7 O-O",
        "<12> rnbqk--r ppppppbp -----np- -------- -------- -----NP- PPPPPPBP RNBQ-RK- B -1 0 0 1 1 3 1 White Black 0 0 0 39 39 0 0 4 o-o (0:00) O-O 0",
    ),
    (
        "g1f3 g8f6 g2g3 g7g6 f1g2 f8g7 O-O O-O",
        "<12> rnbq-rk- ppppppbp -----np- -------- -------- -----NP- PPPPPPBP RNBQ-RK- W -1 0 0 0 0 4 1 White Black 0 0 0 39 39 0 0 5 o-o (0:00) O-O 0",
    ),
    (
        "d2d4 d7d5 b1c3 b8c6 c1f4 c8f5 d1d2 d8d7 O-O-O",
        "<12> r---kbnr pppqpppp --n----- ---p-b-- ---P-B-- --N----- PPPQPPPP --KR-BNR B -1 0 0 1 1 7 1 White Black 0 0 0 39 39 0 0 5 o-o-o (0:00) O-O-O 0",
    ),
    // a promoted queen counts 9
    (
        "a2a4 b7b5 a4b5 a7a6 b5a6 h7h6 a6a7 h6h5 a7b8q",
        "<12> rQbqkbnr --ppppp- -------- -------p -------- -------- -PPPPPPP RNBQKBNR B -1 1 1 1 1 0 1 White Black 0 0 0 47 34 0 0 5 P/a7-b8=Q (0:00) axb8=Q 0",
    ),
];

/// What clocks show: minutes, increment, the remaining times of White and Black, and the time taken, in milliseconds.
#[derive(Clone, Copy)]
struct Times(u16, u16, [i64; 2], u64);

const UNTIMED: Times = Times(0, 0, [0, 0], 0);

/// A game's variant and words, its players, its clocks, who looks at it, and the line.
#[derive(Clone, Copy)]
struct Row(
    Variant,
    &'static str,
    [&'static str; 2],
    Times,
    Viewer,
    &'static str,
);

fn timed(view: BoardView, times: Times) -> BoardView {
    let remaining = times.2;
    BoardView {
        minutes: times.0,
        increment: times.1,
        remaining,
        taken: times.3,
        ..view
    }
}

/// What is shown of these half-moves.
fn view_of(
    variant: Variant,
    words: &str,
    players: [&str; 2],
    times: Times,
) -> Result<BoardView, Fail> {
    let game = played(variant, words).ok_or("a move that isn't allowed")?;
    let view = untimed(game.face(), players[0], players[1]).ok_or("names")?;
    Ok(timed(view, times))
}

fn is_shown(row: &Row) -> Result<bool, Fail> {
    let view = view_of(row.0, row.1, row.2, row.3)?;
    Ok(line_of(&view, row.4).bytes() == row.5.as_bytes())
}

const PLAYERS: [&str; 2] = ["White", "Black"];

#[test]
fn shows_chess(rt: HostRuntime) -> Result<(), Fail> {
    for (words, text) in CHESS {
        let row = Row(Variant::Chess, words, PLAYERS, UNTIMED, OBSERVER, text);
        assert!(rt; is_shown(&row)?, "{words}");
    }
    Ok(())
}

/// White has a ninth pawn on the board.
const DROP: &[Row] = &[Row(
    Variant::Crazyhouse,
    "e2e4 d7d5 e4d5 b8c6 P@e4",
    PLAYERS,
    UNTIMED,
    OBSERVER,
    "<12> r-bqkbnr ppp-pppp --n----- ---P---- ----P--- -------- PPPP-PPP RNBQKBNR B -1 1 1 1 1 0 1 White Black 0 0 0 40 38 0 0 3 P/@@-e4 (0:00) P@e4 0",
)];

#[test]
fn shows_a_drop(rt: HostRuntime) -> Result<(), Fail> {
    assert_rows!(rt; DROP, |row| is_shown(row)?);
    Ok(())
}

const MARKS: &[Row] = &[
    Row(
        Variant::Chess,
        "d2d4 d7d5 g1f3 g8f6 b1d2",
        PLAYERS,
        UNTIMED,
        OBSERVER,
        KNIGHT_ON_D2,
    ),
    Row(
        Variant::Chess,
        "f2f3 e7e5 g2g4 d8h4",
        PLAYERS,
        UNTIMED,
        OBSERVER,
        FOOLS_MATE,
    ),
];

#[test]
fn shows_marks(rt: HostRuntime) -> Result<(), Fail> {
    assert_rows!(rt; MARKS, |row| is_shown(row)?);
    Ok(())
}

/// Viewers who play: to move or not, with the board as White or as Black sees it.
const WHITE_WAITS: Viewer = Viewer {
    relation: -1,
    flip: false,
};

const BLACK_WAITS: Viewer = Viewer {
    relation: -1,
    flip: true,
};

const BLACK_IS_TO_MOVE: Viewer = Viewer {
    relation: 1,
    flip: true,
};

const VIEWERS: &[Row] = &[
    Row(
        Variant::Chess,
        "",
        ["Alice", "Bob"],
        Times(5, 0, [300_000, 300_000], 0),
        BLACK_WAITS,
        "<12> rnbqkbnr pppppppp -------- -------- -------- -------- PPPPPPPP RNBQKBNR W -1 1 1 1 1 0 1 Alice Bob -1 5 0 39 39 300 300 1 none (0:00) none 1",
    ),
    Row(
        Variant::Bughouse,
        "e2e4 d7d5 e4d5",
        ["Ann", "Ben"],
        Times(2, 0, [119_000, 120_000], 1_000),
        WHITE_WAITS,
        "<12> rnbqkbnr ppp-pppp -------- ---P---- -------- -------- PPPP-PPP RNBQKBNR B -1 1 1 1 1 0 1 Ann Ben -1 2 0 39 38 119 120 2 P/e4-d5 (0:01) exd5 0",
    ),
];

#[test]
fn shows_viewers(rt: HostRuntime) -> Result<(), Fail> {
    assert_rows!(rt; VIEWERS, |row| is_shown(row)?);
    Ok(())
}

const CLOCKS: &[Row] = &[
    Row(
        Variant::Chess,
        "e2e4 e7e5 g1f3",
        ["Ann", "Ben"],
        Times(2, 12, [128_000, 120_000], 4_000),
        BLACK_IS_TO_MOVE,
        KNIGHT_FOR_BEN,
    ),
    Row(
        Variant::Chess,
        "e2e4 e7e5 g1f3",
        ["Ann", "Ben"],
        Times(2, 12, [128_000, 120_000], 4_000),
        WHITE_WAITS,
        "<12> rnbqkbnr pppp-ppp -------- ----p--- ----P--- -----N-- PPPP-PPP RNBQKB-R B -1 1 1 1 1 1 1 Ann Ben -1 2 12 39 39 128 120 2 N/g1-f3 (0:04) Nf3 0",
    ),
];

#[test]
fn shows_clocks(rt: HostRuntime) -> Result<(), Fail> {
    assert_rows!(rt; CLOCKS, |row| is_shown(row)?);
    Ok(())
}
