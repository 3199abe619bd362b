//! Holdings lines.

use chess_model::Kind;
use holdings_drops::Holdings;
use std::test::Fail;
use style12_writer::{Draft, line_b1};

/// Lines: the game, the men of White and of Black in any order, the man that has come, and what is written.
const LINES: &[(u16, &str, &str, Option<Kind>, &str)] = &[
    (1, "", "", None, "<b1> game 1 white [] black []"),
    (
        1,
        "P",
        "",
        Some(Kind::Pawn),
        "<b1> game 1 white [P] black [] <- P",
    ),
    (
        1,
        "PPN",
        "",
        Some(Kind::Knight),
        "<b1> game 1 white [PPN] black [] <- N",
    ),
    (
        1,
        "NPP",
        "P",
        Some(Kind::Pawn),
        "<b1> game 1 white [PPN] black [P] <- P",
    ),
    (
        2,
        "",
        "B",
        Some(Kind::Bishop),
        "<b1> game 2 white [] black [B] <- B",
    ),
    (2, "R", "", None, "<b1> game 2 white [R] black []"),
    (
        256,
        "QRBNPQRBNP",
        "RQ",
        Some(Kind::Queen),
        "<b1> game 256 white [PPNNBBRRQQ] black [RQ] <- Q",
    ),
    (
        65_535,
        "",
        "RRRR",
        Some(Kind::Rook),
        "<b1> game 65535 white [] black [RRRR] <- R",
    ),
    (
        9,
        "QQRRRRBBBBNNNNPPPPPPPPPPPPPPPP",
        "QQRRRRBBBBNNNNPPPPPPPPPPPPPPPP",
        None,
        "<b1> game 9 white [PPPPPPPPPPPPPPPPNNNNBBBBRRRRQQ] black [PPPPPPPPPPPPPPPPNNNNBBBBRRRRQQ]",
    ),
];

/// The hand of these letters, if each is that of a kind.
fn hand(letters: &str) -> Option<Holdings> {
    let mut hand = Holdings::empty();
    for letter in letters.as_bytes() {
        let kind = kind_of(*letter)?;
        if hand.count(kind) == 255 {
            return None;
        }
        hand = hand.with_one_more(kind);
    }
    Some(hand)
}

fn kind_of(letter: u8) -> Option<Kind> {
    match letter {
        b'P' => Some(Kind::Pawn),
        b'N' => Some(Kind::Knight),
        b'B' => Some(Kind::Bishop),
        b'R' => Some(Kind::Rook),
        b'Q' => Some(Kind::Queen),
        _ => None,
    }
}

/// The line of hands that are written by letters.
fn line_of(game: u16, white: &str, black: &str, came: Option<Kind>) -> Result<Draft, Fail> {
    let white = hand(white).ok_or("White's hand")?;
    let black = hand(black).ok_or("Black's hand")?;
    Ok(line_b1(game, &white, &black, came))
}

#[test]
fn writes_hands(rt: HostRuntime) -> Result<(), Fail> {
    for (game, white, black, came, text) in LINES {
        let line = line_of(*game, white, black, *came)?;
        assert!(rt; line.bytes() == text.as_bytes(), "{text}");
    }
    Ok(())
}
