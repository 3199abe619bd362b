//! What each half-move is charged, by a clock that goes on from line to line: three games side by side, so that both
//! colours are played by sessions of odd and of even numbers. A charge is the time from the other's half-move, or from
//! a takeback, to the own half-move; and a flag falls at the moment at which it is called. Who acted at another moment,
//! as that at which it connected, would charge the other's thinking to somebody else, or call a flag in vain.

use crate::timed_stage::{Players, Said, Stage};
use crate::words::words_of;
use edge_traits::OpenGate;
use memory_edges::{MemKeeper, MemSink};
use serve_call::serve;
use std::alloc::{AllocError, Global};
use std::sync::Wait;
use std::test::Fail;
use std::thread::Threads;

/// Ann (1) plays Ben (2), and Dan (4) plays Cat (3), with 300 seconds each; Fay (6) plays Eve (5), with 60. These two
/// take two half-moves back, so that Fay thinks from 20 seconds on. Her flag falls 54 seconds behind Eve's half-move at
/// 30, and Eve calls it a millisecond too early and then in time. The moments are milliseconds.
const LINES: &[Said] = &[
    Said(1, 100, b"Ann\n"),
    Said(2, 200, b"Ben\n"),
    Said(3, 300, b"Cat\n"),
    Said(4, 400, b"Dan\n"),
    Said(5, 450, b"Eve\n"),
    Said(6, 480, b"Fay\n"),
    Said(1, 500, b"seek 5 0 white\n"),
    Said(2, 600, b"play 1\n"),
    Said(4, 700, b"seek 5 0 white\n"),
    Said(3, 800, b"play 1\n"),
    Said(6, 850, b"seek 1 0 white\n"),
    Said(5, 900, b"play 1\n"),
    Said(1, 1_000, b"e4\n"),
    Said(6, 1_100, b"c4\n"),
    Said(4, 1_500, b"d4\n"),
    Said(5, 1_600, b"c5\n"),
    Said(2, 2_000, b"e5\n"),
    Said(3, 3_000, b"d5\n"),
    Said(6, 6_600, b"Nc3\n"),
    Said(1, 12_000, b"Nf3\n"),
    Said(5, 14_600, b"Nc6\n"),
    Said(4, 16_000, b"Nf3\n"),
    Said(6, 17_000, b"takeback 2\n"),
    Said(5, 20_000, b"accept\n"),
    Said(6, 26_000, b"Nf3\n"),
    Said(5, 30_000, b"Nc6\n"),
    Said(2, 32_000, b"Nc6\n"),
    Said(1, 37_000, b"Bb5\n"),
    Said(3, 47_000, b"Nc6\n"),
    Said(4, 54_000, b"Bf4\n"),
    Said(2, 77_000, b"a6\n"),
    Said(5, 83_999, b"flag\n"),
    Said(5, 84_000, b"flag\n"),
    Said(3, 104_000, b"Bf5\n"),
];

/// What a player of the black men is shown of each half-move: the seconds that White and Black have left, the number of
/// the move that comes, the half-move, and what it took.
const BENS_BOARDS: &[&[u8]] = &[
    b" 300 300 1 P/e2-e4 (0:00) e4 ",
    b" 300 300 2 P/e7-e5 (0:00) e5 ",
    b" 290 300 2 N/g1-f3 (0:10) Nf3 ",
    b" 290 280 3 N/b8-c6 (0:20) Nc6 ",
    b" 285 280 3 B/f1-b5 (0:05) Bb5 ",
    b" 285 240 4 P/a7-a6 (0:40) a6 ",
];

const CATS_BOARDS: &[&[u8]] = &[
    b" 300 300 1 P/d2-d4 (0:00) d4 ",
    b" 300 300 2 P/d7-d5 (0:00) d5 ",
    b" 287 300 2 N/g1-f3 (0:13) Nf3 ",
    b" 287 269 3 N/b8-c6 (0:31) Nc6 ",
    b" 280 269 3 B/c1-f4 (0:07) Bf4 ",
    b" 280 219 4 B/c8-f5 (0:50) Bf5 ",
];

/// The takeback gives both their times back. Desk 3 has the games 5 and 6.
const EVES_BOARDS: &[&[u8]] = &[
    b" 60 60 1 P/c2-c4 (0:00) c4 ",
    b" 60 60 2 P/c7-c5 (0:00) c5 ",
    b" 55 60 2 N/b1-c3 (0:05) Nc3 ",
    b" 55 52 3 N/b8-c6 (0:08) Nc6 ",
    b"2 taken back.",
    b" 60 60 2 P/c7-c5 (0:00) c5 ",
    b" 54 60 2 N/g1-f3 (0:06) Nf3 ",
    b" 54 56 3 N/b8-c6 (0:04) Nc6 ",
    b"refused 14 NotFallen",
    b"{Game 5 (Fay vs. Eve) Fay forfeits on time} 0-1",
];

/// Where these bytes stand in a text, from a place on: the place behind them.
fn behind(text: &[u8], from: usize, bytes: &[u8]) -> Option<usize> {
    for place in from..text.len() {
        if text[place..].starts_with(bytes) {
            return place.checked_add(bytes.len());
        }
    }
    None
}

/// Whether all of these stand in a text, one behind the other.
fn shows(text: &Option<Vec<u8>>, boards: &[&[u8]]) -> bool {
    let Some(text) = text else {
        return false;
    };
    let mut from = 0;
    for board in boards {
        match behind(text.as_slice(), from, board) {
            Some(place) => from = place,
            None => return false,
        }
    }
    true
}

/// Serves the six. Gives the status, and whether Ben, Cat and Eve were shown their boards.
fn serve_six<T: Threads + Wait + Sync>(
    rt: &T,
    alloc: Global,
    stage: &Stage,
) -> Result<(u8, bool, bool, bool), AllocError> {
    let words = words_of(alloc, &["serve", "--port", "5000"])?;
    let mut door = Players::new(alloc, stage, 6);
    let mut keeper = MemKeeper::new(alloc, Vec::new(alloc));
    let mut sink = MemSink::new(alloc, Vec::new(alloc));
    let gate = OpenGate::new();
    let (status, _hall) = serve(
        rt,
        alloc,
        words.as_slice(),
        &mut door,
        stage,
        &mut keeper,
        &mut sink,
        &gate,
    );
    let Players { heard, .. } = door;
    Ok((
        status,
        shows(&heard[1], BENS_BOARDS),
        shows(&heard[2], CATS_BOARDS),
        shows(&heard[4], EVES_BOARDS),
    ))
}

#[test]
fn each_is_charged_its_own_time(rt: HostRuntime) -> Result<(), Fail> {
    let stage = Stage::new(LINES);
    assert!(rt; serve_six(&rt, rt.alloc(), &stage)? == (0, true, true, true));
    assert!(rt; stage.is_over());
    Ok(())
}
