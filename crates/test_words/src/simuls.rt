//! Lines of who gives a simul, and the commands that they are read as.

/// A line, and what it is read as, in each row, as in the table of all commands.
pub(crate) const LINES: &str = "\
simopen|simopen
SIMO|simopen
simopen 1|refused 28
simopen Ann|refused 28
simnext|simnext
 SimN |simnext
simnext 1|refused 28
simprev|simprev
simp|simprev
simprev now|refused 28
si|refused 27
sim|refused 27
SIM Ann|refused 27
simo |simopen
simul|refused 26
simopens|refused 26
goboard Ann|goboard Ann
GO  ann |goboard ann
gob abcdefghijklmnopq|goboard abcdefghijklmnopq
goboard abcdefghijklmnopqr|refused 28
goboard an|refused 28
goboard 1|refused 28
goboard Ann Ben|refused 28
goboard|refused 28
go|refused 28
g Ann|refused 27
goboards Ann|refused 26";
