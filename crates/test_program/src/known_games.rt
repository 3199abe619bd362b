//! Known games, word by word, with the answer to each word and to words that the rules refuse in between.
//!
//! The placements, rights, counts and numbers come from outside: from the positions that Stockfish 15.1 prints for
//! these half-moves. The short texts are the moves of the games' printed scores. Which word is refused, and why, was
//! said by hand.

use crate::running::{board, outcome};
use std::alloc::Global;
use std::process::Abort;
use std::test::Fail;

/// Anderssen against Kieseritzky, London 1851, to its mate: a word and its answer a row. A row without a word is a line
/// more of the answer before it.
const IMMORTAL: &str = "\
e2e5|refused 9 CannotReach
e7e5|refused 8 NoPiece
e4e5|refused 8 NoPiece
g1e2|refused 9 CannotReach
e2e4|<12> rnbqkbnr pppppppp -------- -------- ----P--- -------- PPPP-PPP RNBQKBNR B 4 1 1 1 1 0 1 White Black 0 0 0 39 39 0 0 1 P/e2-e4 (0:00) e4 0
e2e4|refused 8 NoPiece
e7e4|refused 9 CannotReach
b8d7|refused 9 CannotReach
e7e5|<12> rnbqkbnr pppp-ppp -------- ----p--- ----P--- -------- PPPP-PPP RNBQKBNR W 4 1 1 1 1 0 1 White Black 0 0 0 39 39 0 0 2 P/e7-e5 (0:00) e5 0
f2f4|<12> rnbqkbnr pppp-ppp -------- ----p--- ----PP-- -------- PPPP--PP RNBQKBNR B 5 1 1 1 1 0 1 White Black 0 0 0 39 39 0 0 2 P/f2-f4 (0:00) f4 0
e5f4|<12> rnbqkbnr pppp-ppp -------- -------- ----Pp-- -------- PPPP--PP RNBQKBNR W -1 1 1 1 1 0 1 White Black 0 0 0 38 39 0 0 3 P/e5-f4 (0:00) exf4 0
f1c4|<12> rnbqkbnr pppp-ppp -------- -------- --B-Pp-- -------- PPPP--PP RNBQK-NR B -1 1 1 1 1 1 1 White Black 0 0 0 38 39 0 0 3 B/f1-c4 (0:00) Bc4 0
d8h4|<12> rnb-kbnr pppp-ppp -------- -------- --B-Pp-q -------- PPPP--PP RNBQK-NR W -1 1 1 1 1 2 1 White Black 0 0 0 38 39 0 0 4 Q/d8-h4 (0:00) Qh4+ 0
a2a3|refused 2 LeavesKing
b1c3|refused 2 LeavesKing
e1e1|refused 9 CannotReach
e1f1|<12> rnb-kbnr pppp-ppp -------- -------- --B-Pp-q -------- PPPP--PP RNBQ-KNR B -1 0 0 1 1 3 1 White Black 0 0 0 38 39 0 0 4 K/e1-f1 (0:00) Kf1 0
b7b5|<12> rnb-kbnr p-pp-ppp -------- -p------ --B-Pp-q -------- PPPP--PP RNBQ-KNR W 1 0 0 1 1 0 1 White Black 0 0 0 38 39 0 0 5 P/b7-b5 (0:00) b5 0
e2e4|refused 8 NoPiece
c4b5|<12> rnb-kbnr p-pp-ppp -------- -B------ ----Pp-q -------- PPPP--PP RNBQ-KNR B -1 0 0 1 1 0 1 White Black 0 0 0 38 38 0 0 5 B/c4-b5 (0:00) Bxb5 0
g8f6|<12> rnb-kb-r p-pp-ppp -----n-- -B------ ----Pp-q -------- PPPP--PP RNBQ-KNR W -1 0 0 1 1 1 1 White Black 0 0 0 38 38 0 0 6 N/g8-f6 (0:00) Nf6 0
g1f3|<12> rnb-kb-r p-pp-ppp -----n-- -B------ ----Pp-q -----N-- PPPP--PP RNBQ-K-R B -1 0 0 1 1 2 1 White Black 0 0 0 38 38 0 0 6 N/g1-f3 (0:00) Nf3 0
h4h6|<12> rnb-kb-r p-pp-ppp -----n-q -B------ ----Pp-- -----N-- PPPP--PP RNBQ-K-R W -1 0 0 1 1 3 1 White Black 0 0 0 38 38 0 0 7 Q/h4-h6 (0:00) Qh6 0
d2d3|<12> rnb-kb-r p-pp-ppp -----n-q -B------ ----Pp-- ---P-N-- PPP---PP RNBQ-K-R B -1 0 0 1 1 0 1 White Black 0 0 0 38 38 0 0 7 P/d2-d3 (0:00) d3 0
f6h5|<12> rnb-kb-r p-pp-ppp -------q -B-----n ----Pp-- ---P-N-- PPP---PP RNBQ-K-R W -1 0 0 1 1 1 1 White Black 0 0 0 38 38 0 0 8 N/f6-h5 (0:00) Nh5 0
f3h4|<12> rnb-kb-r p-pp-ppp -------q -B-----n ----Pp-N ---P---- PPP---PP RNBQ-K-R B -1 0 0 1 1 2 1 White Black 0 0 0 38 38 0 0 8 N/f3-h4 (0:00) Nh4 0
h6g5|<12> rnb-kb-r p-pp-ppp -------- -B----qn ----Pp-N ---P---- PPP---PP RNBQ-K-R W -1 0 0 1 1 3 1 White Black 0 0 0 38 38 0 0 9 Q/h6-g5 (0:00) Qg5 0
h4f5|<12> rnb-kb-r p-pp-ppp -------- -B---Nqn ----Pp-- ---P---- PPP---PP RNBQ-K-R B -1 0 0 1 1 4 1 White Black 0 0 0 38 38 0 0 9 N/h4-f5 (0:00) Nf5 0
c7c6|<12> rnb-kb-r p--p-ppp --p----- -B---Nqn ----Pp-- ---P---- PPP---PP RNBQ-K-R W -1 0 0 1 1 0 1 White Black 0 0 0 38 38 0 0 10 P/c7-c6 (0:00) c6 0
g2g4|<12> rnb-kb-r p--p-ppp --p----- -B---Nqn ----PpP- ---P---- PPP----P RNBQ-K-R B 6 0 0 1 1 0 1 White Black 0 0 0 38 38 0 0 10 P/g2-g4 (0:00) g4 0
h5f6|<12> rnb-kb-r p--p-ppp --p--n-- -B---Nq- ----PpP- ---P---- PPP----P RNBQ-K-R W -1 0 0 1 1 1 1 White Black 0 0 0 38 38 0 0 11 N/h5-f6 (0:00) Nf6 0
h1g1|<12> rnb-kb-r p--p-ppp --p--n-- -B---Nq- ----PpP- ---P---- PPP----P RNBQ-KR- B -1 0 0 1 1 2 1 White Black 0 0 0 38 38 0 0 11 R/h1-g1 (0:00) Rg1 0
c6b5|<12> rnb-kb-r p--p-ppp -----n-- -p---Nq- ----PpP- ---P---- PPP----P RNBQ-KR- W -1 0 0 1 1 0 1 White Black 0 0 0 35 38 0 0 12 P/c6-b5 (0:00) cxb5 0
h2h4|<12> rnb-kb-r p--p-ppp -----n-- -p---Nq- ----PpPP ---P---- PPP----- RNBQ-KR- B 7 0 0 1 1 0 1 White Black 0 0 0 35 38 0 0 12 P/h2-h4 (0:00) h4 0
g5g6|<12> rnb-kb-r p--p-ppp -----nq- -p---N-- ----PpPP ---P---- PPP----- RNBQ-KR- W -1 0 0 1 1 1 1 White Black 0 0 0 35 38 0 0 13 Q/g5-g6 (0:00) Qg6 0
h4h5|<12> rnb-kb-r p--p-ppp -----nq- -p---N-P ----PpP- ---P---- PPP----- RNBQ-KR- B -1 0 0 1 1 0 1 White Black 0 0 0 35 38 0 0 13 P/h4-h5 (0:00) h5 0
g6g5|<12> rnb-kb-r p--p-ppp -----n-- -p---NqP ----PpP- ---P---- PPP----- RNBQ-KR- W -1 0 0 1 1 1 1 White Black 0 0 0 35 38 0 0 14 Q/g6-g5 (0:00) Qg5 0
d1f3|<12> rnb-kb-r p--p-ppp -----n-- -p---NqP ----PpP- ---P-Q-- PPP----- RNB--KR- B -1 0 0 1 1 2 1 White Black 0 0 0 35 38 0 0 14 Q/d1-f3 (0:00) Qf3 0
f6g8|<12> rnb-kbnr p--p-ppp -------- -p---NqP ----PpP- ---P-Q-- PPP----- RNB--KR- W -1 0 0 1 1 3 1 White Black 0 0 0 35 38 0 0 15 N/f6-g8 (0:00) Ng8 0
c1f4|<12> rnb-kbnr p--p-ppp -------- -p---NqP ----PBP- ---P-Q-- PPP----- RN---KR- B -1 0 0 1 1 0 1 White Black 0 0 0 35 37 0 0 15 B/c1-f4 (0:00) Bxf4 0
g5f6|<12> rnb-kbnr p--p-ppp -----q-- -p---N-P ----PBP- ---P-Q-- PPP----- RN---KR- W -1 0 0 1 1 1 1 White Black 0 0 0 35 37 0 0 16 Q/g5-f6 (0:00) Qf6 0
b1c3|<12> rnb-kbnr p--p-ppp -----q-- -p---N-P ----PBP- --NP-Q-- PPP----- R----KR- B -1 0 0 1 1 2 1 White Black 0 0 0 35 37 0 0 16 N/b1-c3 (0:00) Nc3 0
f8c5|<12> rnb-k-nr p--p-ppp -----q-- -pb--N-P ----PBP- --NP-Q-- PPP----- R----KR- W -1 0 0 1 1 3 1 White Black 0 0 0 35 37 0 0 17 B/f8-c5 (0:00) Bc5 0
c3d5|<12> rnb-k-nr p--p-ppp -----q-- -pbN-N-P ----PBP- ---P-Q-- PPP----- R----KR- B -1 0 0 1 1 4 1 White Black 0 0 0 35 37 0 0 17 N/c3-d5 (0:00) Nd5 0
f6b2|<12> rnb-k-nr p--p-ppp -------- -pbN-N-P ----PBP- ---P-Q-- PqP----- R----KR- W -1 0 0 1 1 0 1 White Black 0 0 0 34 37 0 0 18 Q/f6-b2 (0:00) Qxb2 0
f4d6|<12> rnb-k-nr p--p-ppp ---B---- -pbN-N-P ----P-P- ---P-Q-- PqP----- R----KR- B -1 0 0 1 1 1 1 White Black 0 0 0 34 37 0 0 18 B/f4-d6 (0:00) Bd6 0
c5g1|<12> rnb-k-nr p--p-ppp ---B---- -p-N-N-P ----P-P- ---P-Q-- PqP----- R----Kb- W -1 0 0 1 1 0 1 White Black 0 0 0 29 37 0 0 19 B/c5-g1 (0:00) Bxg1 0
e4e5|<12> rnb-k-nr p--p-ppp ---B---- -p-NPN-P ------P- ---P-Q-- PqP----- R----Kb- B -1 0 0 1 1 0 1 White Black 0 0 0 29 37 0 0 19 P/e4-e5 (0:00) e5 0
b2a1|<12> rnb-k-nr p--p-ppp ---B---- -p-NPN-P ------P- ---P-Q-- P-P----- q----Kb- W -1 0 0 1 1 0 1 White Black 0 0 0 24 37 0 0 20 Q/b2-a1 (0:00) Qxa1+ 0
f1e2|<12> rnb-k-nr p--p-ppp ---B---- -p-NPN-P ------P- ---P-Q-- P-P-K--- q-----b- B -1 0 0 1 1 1 1 White Black 0 0 0 24 37 0 0 20 K/f1-e2 (0:00) Ke2 0
b8a6|<12> r-b-k-nr p--p-ppp n--B---- -p-NPN-P ------P- ---P-Q-- P-P-K--- q-----b- W -1 0 0 1 1 2 1 White Black 0 0 0 24 37 0 0 21 N/b8-a6 (0:00) Na6 0
f5g7|<12> r-b-k-nr p--p-pNp n--B---- -p-NP--P ------P- ---P-Q-- P-P-K--- q-----b- B -1 0 0 1 1 0 1 White Black 0 0 0 24 36 0 0 21 N/f5-g7 (0:00) Nxg7+ 0
a6b8|refused 2 LeavesKing
e8e7|refused 2 LeavesKing
e8d8|<12> r-bk--nr p--p-pNp n--B---- -p-NP--P ------P- ---P-Q-- P-P-K--- q-----b- W -1 0 0 0 0 1 1 White Black 0 0 0 24 36 0 0 22 K/e8-d8 (0:00) Kd8 0
f3f6|<12> r-bk--nr p--p-pNp n--B-Q-- -p-NP--P ------P- ---P---- P-P-K--- q-----b- B -1 0 0 0 0 2 1 White Black 0 0 0 24 36 0 0 22 Q/f3-f6 (0:00) Qf6+ 0
a6b8|refused 2 LeavesKing
d8c8|refused 9 CannotReach
g8f6|<12> r-bk---r p--p-pNp n--B-n-- -p-NP--P ------P- ---P---- P-P-K--- q-----b- W -1 0 0 0 0 0 1 White Black 0 0 0 15 36 0 0 23 N/g8-f6 (0:00) Nxf6 0
d6e7|<12> r-bk---r p--pBpNp n----n-- -p-NP--P ------P- ---P---- P-P-K--- q-----b- B -1 0 0 0 0 1 1 White Black 0 0 0 15 36 0 0 23 B/d6-e7 (0:00) Be7# 0
|{Game 1 (White vs. Black) Black checkmated} 1-0
d8e7|refused 10 GameOver
f6d5|refused 10 GameOver
d8c8|refused 10 GameOver
e7d8|refused 10 GameOver
a6b8|refused 10 GameOver\
";

/// A pawn is taken en passant at once; later the same words are refused.
const EN_PASSANT: &str = "\
e2e4|<12> rnbqkbnr pppppppp -------- -------- ----P--- -------- PPPP-PPP RNBQKBNR B 4 1 1 1 1 0 1 White Black 0 0 0 39 39 0 0 1 P/e2-e4 (0:00) e4 0
a7a6|<12> rnbqkbnr -ppppppp p------- -------- ----P--- -------- PPPP-PPP RNBQKBNR W -1 1 1 1 1 0 1 White Black 0 0 0 39 39 0 0 2 P/a7-a6 (0:00) a6 0
e4e5|<12> rnbqkbnr -ppppppp p------- ----P--- -------- -------- PPPP-PPP RNBQKBNR B -1 1 1 1 1 0 1 White Black 0 0 0 39 39 0 0 2 P/e4-e5 (0:00) e5 0
d7d5|<12> rnbqkbnr -pp-pppp p------- ---pP--- -------- -------- PPPP-PPP RNBQKBNR W 3 1 1 1 1 0 1 White Black 0 0 0 39 39 0 0 3 P/d7-d5 (0:00) d5 0
e5f6|refused 9 CannotReach
e5e7|refused 9 CannotReach
e5d6|<12> rnbqkbnr -pp-pppp p--P---- -------- -------- -------- PPPP-PPP RNBQKBNR B -1 1 1 1 1 0 1 White Black 0 0 0 39 38 0 0 3 P/e5-d6 (0:00) exd6 0
c7d6|<12> rnbqkbnr -p--pppp p--p---- -------- -------- -------- PPPP-PPP RNBQKBNR W -1 1 1 1 1 0 1 White Black 0 0 0 38 38 0 0 4 P/c7-d6 (0:00) cxd6 0
d6d5|refused 8 NoPiece
b2b4|<12> rnbqkbnr -p--pppp p--p---- -------- -P------ -------- P-PP-PPP RNBQKBNR B 1 1 1 1 1 0 1 White Black 0 0 0 38 38 0 0 4 P/b2-b4 (0:00) b4 0
a6a5|<12> rnbqkbnr -p--pppp ---p---- p------- -P------ -------- P-PP-PPP RNBQKBNR W -1 1 1 1 1 0 1 White Black 0 0 0 38 38 0 0 5 P/a6-a5 (0:00) a5 0
b4b5|<12> rnbqkbnr -p--pppp ---p---- pP------ -------- -------- P-PP-PPP RNBQKBNR B -1 1 1 1 1 0 1 White Black 0 0 0 38 38 0 0 5 P/b4-b5 (0:00) b5 0
a5a4|<12> rnbqkbnr -p--pppp ---p---- -P------ p------- -------- P-PP-PPP RNBQKBNR W -1 1 1 1 1 0 1 White Black 0 0 0 38 38 0 0 6 P/a5-a4 (0:00) a4 0
b5a6|refused 9 CannotReach
b5c6|refused 9 CannotReach
c2c4|<12> rnbqkbnr -p--pppp ---p---- -P------ p-P----- -------- P--P-PPP RNBQKBNR B 2 1 1 1 1 0 1 White Black 0 0 0 38 38 0 0 6 P/c2-c4 (0:00) c4 0
a4a3|<12> rnbqkbnr -p--pppp ---p---- -P------ --P----- p------- P--P-PPP RNBQKBNR W -1 1 1 1 1 0 1 White Black 0 0 0 38 38 0 0 7 P/a4-a3 (0:00) a3 0\
";

/// En passant a half-move later.
const TOO_LATE: &str = "\
e2e4|<12> rnbqkbnr pppppppp -------- -------- ----P--- -------- PPPP-PPP RNBQKBNR B 4 1 1 1 1 0 1 White Black 0 0 0 39 39 0 0 1 P/e2-e4 (0:00) e4 0
a7a6|<12> rnbqkbnr -ppppppp p------- -------- ----P--- -------- PPPP-PPP RNBQKBNR W -1 1 1 1 1 0 1 White Black 0 0 0 39 39 0 0 2 P/a7-a6 (0:00) a6 0
e4e5|<12> rnbqkbnr -ppppppp p------- ----P--- -------- -------- PPPP-PPP RNBQKBNR B -1 1 1 1 1 0 1 White Black 0 0 0 39 39 0 0 2 P/e4-e5 (0:00) e5 0
d7d5|<12> rnbqkbnr -pp-pppp p------- ---pP--- -------- -------- PPPP-PPP RNBQKBNR W 3 1 1 1 1 0 1 White Black 0 0 0 39 39 0 0 3 P/d7-d5 (0:00) d5 0
h2h3|<12> rnbqkbnr -pp-pppp p------- ---pP--- -------- -------P PPPP-PP- RNBQKBNR B -1 1 1 1 1 0 1 White Black 0 0 0 39 39 0 0 3 P/h2-h3 (0:00) h3 0
h7h6|<12> rnbqkbnr -pp-ppp- p------p ---pP--- -------- -------P PPPP-PP- RNBQKBNR W -1 1 1 1 1 0 1 White Black 0 0 0 39 39 0 0 4 P/h7-h6 (0:00) h6 0
e5d6|refused 9 CannotReach\
";

/// A knight before its king.
const PINNED: &str = "\
e2e4|<12> rnbqkbnr pppppppp -------- -------- ----P--- -------- PPPP-PPP RNBQKBNR B 4 1 1 1 1 0 1 White Black 0 0 0 39 39 0 0 1 P/e2-e4 (0:00) e4 0
e7e5|<12> rnbqkbnr pppp-ppp -------- ----p--- ----P--- -------- PPPP-PPP RNBQKBNR W 4 1 1 1 1 0 1 White Black 0 0 0 39 39 0 0 2 P/e7-e5 (0:00) e5 0
b1c3|<12> rnbqkbnr pppp-ppp -------- ----p--- ----P--- --N----- PPPP-PPP R-BQKBNR B -1 1 1 1 1 1 1 White Black 0 0 0 39 39 0 0 2 N/b1-c3 (0:00) Nc3 0
f8b4|<12> rnbqk-nr pppp-ppp -------- ----p--- -b--P--- --N----- PPPP-PPP R-BQKBNR W -1 1 1 1 1 2 1 White Black 0 0 0 39 39 0 0 3 B/f8-b4 (0:00) Bb4 0
d2d3|<12> rnbqk-nr pppp-ppp -------- ----p--- -b--P--- --NP---- PPP--PPP R-BQKBNR B -1 1 1 1 1 0 1 White Black 0 0 0 39 39 0 0 3 P/d2-d3 (0:00) d3 0
a7a6|<12> rnbqk-nr -ppp-ppp p------- ----p--- -b--P--- --NP---- PPP--PPP R-BQKBNR W -1 1 1 1 1 0 1 White Black 0 0 0 39 39 0 0 4 P/a7-a6 (0:00) a6 0
c3d5|refused 2 LeavesKing
c3b5|refused 2 LeavesKing
d3d5|refused 9 CannotReach\
";

/// Rooks and kings that move and come back bring no right back.
const RIGHTS: &str = "\
a1a2|refused 9 CannotReach
e1e2|refused 9 CannotReach
d1d3|refused 9 CannotReach
g1f3|<12> rnbqkbnr pppppppp -------- -------- -------- -----N-- PPPPPPPP RNBQKB-R B -1 1 1 1 1 1 1 White Black 0 0 0 39 39 0 0 1 N/g1-f3 (0:00) Nf3 0
g8f6|<12> rnbqkb-r pppppppp -----n-- -------- -------- -----N-- PPPPPPPP RNBQKB-R W -1 1 1 1 1 2 1 White Black 0 0 0 39 39 0 0 2 N/g8-f6 (0:00) Nf6 0
g2g3|<12> rnbqkb-r pppppppp -----n-- -------- -------- -----NP- PPPPPP-P RNBQKB-R B -1 1 1 1 1 0 1 White Black 0 0 0 39 39 0 0 2 P/g2-g3 (0:00) g3 0
g7g6|<12> rnbqkb-r pppppp-p -----np- -------- -------- -----NP- PPPPPP-P RNBQKB-R W -1 1 1 1 1 0 1 White Black 0 0 0 39 39 0 0 3 P/g7-g6 (0:00) g6 0
f1g2|<12> rnbqkb-r pppppp-p -----np- -------- -------- -----NP- PPPPPPBP RNBQK--R B -1 1 1 1 1 1 1 White Black 0 0 0 39 39 0 0 3 B/f1-g2 (0:00) Bg2 0
f8g7|<12> rnbqk--r ppppppbp -----np- -------- -------- -----NP- PPPPPPBP RNBQK--R W -1 1 1 1 1 2 1 White Black 0 0 0 39 39 0 0 4 B/f8-g7 (0:00) Bg7 0
h1g1|<12> rnbqk--r ppppppbp -----np- -------- -------- -----NP- PPPPPPBP RNBQK-R- B -1 0 1 1 1 3 1 White Black 0 0 0 39 39 0 0 4 R/h1-g1 (0:00) Rg1 0
g8f6|refused 8 NoPiece
a7a6|<12> rnbqk--r -pppppbp p----np- -------- -------- -----NP- PPPPPPBP RNBQK-R- W -1 0 1 1 1 0 1 White Black 0 0 0 39 39 0 0 5 P/a7-a6 (0:00) a6 0
g1h1|<12> rnbqk--r -pppppbp p----np- -------- -------- -----NP- PPPPPPBP RNBQK--R B -1 0 1 1 1 1 1 White Black 0 0 0 39 39 0 0 5 R/g1-h1 (0:00) Rh1 0
a6a5|<12> rnbqk--r -pppppbp -----np- p------- -------- -----NP- PPPPPPBP RNBQK--R W -1 0 1 1 1 0 1 White Black 0 0 0 39 39 0 0 6 P/a6-a5 (0:00) a5 0
a2a4|<12> rnbqk--r -pppppbp -----np- p------- P------- -----NP- -PPPPPBP RNBQK--R B 0 0 1 1 1 0 1 White Black 0 0 0 39 39 0 0 6 P/a2-a4 (0:00) a4 0
a8a6|<12> -nbqk--r -pppppbp r----np- p------- P------- -----NP- -PPPPPBP RNBQK--R W -1 0 1 1 0 1 1 White Black 0 0 0 39 39 0 0 7 R/a8-a6 (0:00) Ra6 0
a1a3|<12> -nbqk--r -pppppbp r----np- p------- P------- R----NP- -PPPPPBP -NBQK--R B -1 0 0 1 0 2 1 White Black 0 0 0 39 39 0 0 7 R/a1-a3 (0:00) Ra3 0
a6a8|<12> rnbqk--r -pppppbp -----np- p------- P------- R----NP- -PPPPPBP -NBQK--R W -1 0 0 1 0 3 1 White Black 0 0 0 39 39 0 0 8 R/a6-a8 (0:00) Ra8 0
a3a1|<12> rnbqk--r -pppppbp -----np- p------- P------- -----NP- -PPPPPBP RNBQK--R B -1 0 0 1 0 4 1 White Black 0 0 0 39 39 0 0 8 R/a3-a1 (0:00) Ra1 0
e8e6|refused 9 CannotReach
e8f8|<12> rnbq-k-r -pppppbp -----np- p------- P------- -----NP- -PPPPPBP RNBQK--R W -1 0 0 0 0 5 1 White Black 0 0 0 39 39 0 0 9 K/e8-f8 (0:00) Kf8 0\
";

/// Feeds the words of a table and compares all that is written with its answers.
fn expect_game(rt: &impl Abort, alloc: Global, name: &str, table: &str) -> Result<(), Fail> {
    let (words, answers) = cut_table(alloc, table)?;
    assert!(rt; !answers.is_empty(), "{name}");
    let (status, written) = outcome(alloc, &board(words.as_bytes()))?;
    assert!(rt; status == 0, "{name}: status {status}");
    assert!(rt; written.as_slice() == answers.as_bytes(), "{name}");
    Ok(())
}

/// The words of a table, a line each, and its answers.
fn cut_table(alloc: Global, table: &str) -> Result<(String, String), Fail> {
    let mut words = String::new(alloc);
    let mut answers = String::new(alloc);
    for row in table.lines() {
        if let Some((word, answer)) = row.split_once('|') {
            words.push_str(word)?;
            words.push_str("\n")?;
            answers.push_str(answer)?;
            answers.push_str("\n\r")?;
        }
    }
    Ok((words, answers))
}

const GAMES: &[(&str, &str)] = &[
    ("the immortal game", IMMORTAL),
    ("en passant", EN_PASSANT),
    ("en passant too late", TOO_LATE),
    ("a pinned knight", PINNED),
    ("rights that do not come back", RIGHTS),
];

#[test]
fn known_games_are_answered(rt: HostRuntime) -> Result<(), Fail> {
    expect_games(&rt, rt.alloc())
}

fn expect_games(rt: &impl Abort, alloc: Global) -> Result<(), Fail> {
    for (name, table) in GAMES {
        expect_game(rt, alloc, name, table)?;
    }
    Ok(())
}

/// 1,200 half-moves of knights, and then each word is refused.
#[test]
fn no_word_after_1200_half_moves(rt: HostRuntime) -> Result<(), Fail> {
    let mut words = String::new(rt.alloc());
    for _round in 0..300 {
        words.push_str("g1f3\ng8f6\nf3g1\nf6g8\n")?;
    }
    let (status, written) = outcome(rt.alloc(), &board(words.as_bytes()))?;
    assert_eq!(rt; status, 0);
    assert!(rt; !contains_refusal(written.as_slice()));
    words.push_str("e2e4\ng1f3\ne2e5\n")?;
    let (status, written) = outcome(rt.alloc(), &board(words.as_bytes()))?;
    assert_eq!(rt; status, 0);
    assert!(rt;
        written.as_slice().ends_with(
            b"601 N/f6-g8 (0:00) Ng8 0\n\rrefused 12 TooManyMoves\n\rrefused 12 TooManyMoves\n\rrefused 12 TooManyMoves\n\r"
        )
    );
    Ok(())
}

/// Whether a line begins with `r`, as a refusal does and no board line.
fn contains_refusal(text: &[u8]) -> bool {
    text.first() == Some(&b'r') || text.windows(2).any(|pair| pair == b"\rr".as_slice())
}
