//! Lines of style 12 that tests of several crates expect, written out by hand.

/// The shortest mate, known as the fool's, at a board without clocks.
pub const FOOLS_MATE: &str =
    "<12> rnb-kbnr pppp-ppp -------- ----p--- ------Pq -----P-- PPPPP--P RNBQKBNR W -1 1 1 1 1 1 1 White Black 0 0 0 39 39 0 0 3 Q/d8-h4 (0:00) Qh4# 0";

/// The knight from b1 on d2, where the one from f3 could stand as well, at a board without clocks.
pub const KNIGHT_ON_D2: &str =
    "<12> rnbqkb-r ppp-pppp -----n-- ---p---- ---P---- -----N-- PPPNPPPP R-BQKB-R B -1 1 1 1 1 3 1 White Black 0 0 0 39 39 0 0 3 N/b1-d2 (0:00) Nbd2 0";

/// White's knight after e2e4 e7e5 and four seconds of the game of 2 minutes and 12 seconds, as Ben sees it, who has
/// Black.
pub const KNIGHT_FOR_BEN: &str =
    "<12> rnbqkbnr pppp-ppp -------- ----p--- ----P--- -----N-- PPPP-PPP RNBQKB-R B -1 1 1 1 1 1 1 Ann Ben 1 2 12 39 39 128 120 2 N/g1-f3 (0:04) Nf3 1";
