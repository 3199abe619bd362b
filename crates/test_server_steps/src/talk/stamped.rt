//! A game over a stamped link: which boards ask for an acknowledgement, and what a move is charged. The board lines are
//! those of style 12, written out by hand.

use crate::talk::comes::Comes;
use crate::talk::rows::Row;

/// Ben's answer when the game starts: the challenge, and then the start as Black sees it.
const START_BEN: &[u8] =
    b"Challenge: Ann 2 12 chess white\n\r{Game 1 (Ann vs. Ben) Creating 2 12 chess match.}\n\r<12> rnbqkbnr pppppppp -------- -------- -------- -------- PPPPPPPP RNBQKBNR W -1 1 1 1 1 0 1 Ann Ben -1 2 12 39 39 120 120 1 none (0:00) none 1\n\rfics% ";

/// The start as White sees it, who is to move and asked to acknowledge.
const START_ANN: &[u8] =
    b"\n\r{Game 1 (Ann vs. Ben) Creating 2 12 chess match.}\n\r<12> rnbqkbnr pppppppp -------- -------- -------- -------- PPPPPPPP RNBQKBNR W -1 1 1 1 1 0 1 Ann Ben 1 2 12 39 39 120 120 1 none (0:00) none 0\n\r[G]\0fics% ";

const FIRST_ANN: &[u8] =
    b"<12> rnbqkbnr pppppppp -------- -------- ----P--- -------- PPPP-PPP RNBQKBNR B 4 1 1 1 1 0 1 Ann Ben -1 2 12 39 39 120 120 1 P/e2-e4 (0:00) e4 0\n\rfics% ";

/// Ben sees both half-moves, and isn't asked, since his link isn't stamped.
const SECOND_BEN: &[u8] =
    b"<12> rnbqkbnr pppppppp -------- -------- ----P--- -------- PPPP-PPP RNBQKBNR B 4 1 1 1 1 0 1 Ann Ben 1 2 12 39 39 120 120 1 P/e2-e4 (0:00) e4 1\n\r<12> rnbqkbnr pppp-ppp -------- ----p--- ----P--- -------- PPPP-PPP RNBQKBNR W 4 1 1 1 1 0 1 Ann Ben -1 2 12 39 39 120 120 2 P/e7-e5 (0:00) e5 1\n\rfics% ";

const SECOND_ANN: &[u8] =
    b"\n\r<12> rnbqkbnr pppp-ppp -------- ----p--- ----P--- -------- PPPP-PPP RNBQKBNR W 4 1 1 1 1 0 1 Ann Ben 1 2 12 39 39 120 120 2 P/e7-e5 (0:00) e5 0\n\r[G]\0fics% ";

/// Three seconds on the server's clock, one and a half on the client's: those are charged, and twelve come on top.
const THIRD_ANN: &[u8] =
    b"<12> rnbqkbnr pppp-ppp -------- ----p--- ---PP--- -------- PPP--PPP RNBQKBNR B 3 1 1 1 1 0 1 Ann Ben -1 2 12 39 39 130 120 2 P/d2-d4 (0:01) d4 0\n\rfics% ";

/// Ann over a stamped link and Ben over a plain one, from their logins on.
pub const STAMPED_GAME: &[Row] = &[
    Row(1, 0, Comes::Stamped(b"TIMESTAMP|openseal|Linux|", 0), b""),
    Row(
        1,
        0,
        Comes::Stamped(b"Ann", 10),
        b"Entered as Ann.\n\rfics% ",
    ),
    Row(2, 0, Comes::Line(b"Ben"), b"Entered as Ben.\n\rfics% "),
    Row(
        1,
        0,
        Comes::Stamped(b"match Ben 2 12 white", 20),
        b"Ok.\n\rfics% ",
    ),
    Row(2, 1_000, Comes::Line(b"accept"), START_BEN),
    Row(1, 2_000, Comes::Quiet, START_ANN),
    Row(1, 2_000, Comes::Ack(900), b""),
    Row(1, 3_000, Comes::Stamped(b"e2e4", 1_000), FIRST_ANN),
    Row(2, 6_000, Comes::Line(b"e7e5"), SECOND_BEN),
    Row(1, 7_000, Comes::Quiet, SECOND_ANN),
    Row(1, 7_000, Comes::Ack(3_000), b""),
    Row(1, 9_000, Comes::Stamped(b"d2d4", 4_500), THIRD_ANN),
];
