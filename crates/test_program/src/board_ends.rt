//! The ends of games of `board`, and words that could be taken two ways. The board lines come from outside: from what
//! the Laws say of these games, and from the positions that Stockfish 15.1 prints for them.

use crate::running::{board, outcome};
use std::alloc::Global;
use std::test::Fail;
use test_steps::boards::{FOOLS_MATE, KNIGHT_ON_D2};

/// Words, and the lines that the text ends with which is written for them.
const ENDS: &[(&str, &[&str])] = &[
    (
        "f3 e5 g4 Qh4",
        &[
            FOOLS_MATE,
            "{Game 1 (White vs. Black) White checkmated} 0-1",
        ],
    ),
    (
        "f3 e5 g4 Qh4 a3",
        &[
            "{Game 1 (White vs. Black) White checkmated} 0-1",
            "refused 10 GameOver",
        ],
    ),
    (
        "f3 e5 g4 Qh4 P@e4 O-O e1e2",
        &[
            "{Game 1 (White vs. Black) White checkmated} 0-1",
            "refused 10 GameOver",
            "refused 10 GameOver",
            "refused 10 GameOver",
        ],
    ),
    // the shortest stalemate that is known, of ten moves (S. Loyd)
    (
        "e3 a5 Qh5 Ra6 Qxa5 h5 h4 Rah6 Qxc7 f6 Qxd7+ Kf7 Qxb7 Qd3 Qxb8 Qh7 Qxc8 Kg6 Qe6 Rh6",
        &[
            "<12> -----bnr ----p-pq ----Qpkr -------p -------P ----P--- PPPP-PP- RNB-KBNR B -1 1 1 0 0 2 1 White Black 0 0 0 39 29 0 0 10 Q/c8-e6 (0:00) Qe6 0",
            "{Game 1 (White vs. Black) drawn by stalemate} 1/2-1/2",
            "refused 10 GameOver",
        ],
    ),
    (
        "d4 d5 Nf3 Nf6 Nd2 Nbd2",
        &["refused 1 Ambiguous", KNIGHT_ON_D2],
    ),
    // a rook that came home brings no right back
    (
        "g1f3 g8f6 g2g3 g7g6 f1g2 f8g7 h1g1 a7a6 g1h1 a6a5 O-O",
        &["refused 3 CastleForbidden"],
    ),
    ("P@e4", &["refused 4 NoDrops"]),
];

/// Whether what `board` writes for these words, one a line, ends with these lines.
fn ends_with(alloc: Global, words: &str, lines: &[&str]) -> Result<bool, Fail> {
    let mut input = String::new(alloc);
    for word in words.split_whitespace() {
        input.push_str(word)?;
        input.push_str("\n")?;
    }
    let mut text = String::new(alloc);
    for line in lines {
        text.push_str(line)?;
        text.push_str("\n\r")?;
    }
    let (status, written) = outcome(alloc, &board(input.as_bytes()))?;
    Ok(status == 0 && written.as_slice().ends_with(text.as_bytes()))
}

#[test]
fn the_last_answers(rt: HostRuntime) -> Result<(), Fail> {
    for (words, lines) in ENDS {
        let told = ends_with(rt.alloc(), words, lines)?;
        assert!(rt; told, "{words}");
    }
    Ok(())
}
