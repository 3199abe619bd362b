//! Lines that make offers at a desk, and the commands that they are read as.

/// A line, and what it is read as, in each row.
pub(crate) const LINES: &str = "\
draw|draw
DR|draw
d|refused 27
draw x|refused 28
abort|abort
ab|abort
abort now|refused 28
takeback|takeback 1
ta|takeback 1
takeback 1|takeback 1
take  2 |takeback 2
takeback 1200|takeback 1200
takeback 1201|refused 28
takeback 0|refused 28
takeback 01|refused 28
takeback -1|refused 28
takeback 1 2|refused 28
takeback all|refused 28
takeback 18446744073709551617|refused 28";
