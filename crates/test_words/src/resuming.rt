//! Lines about adjourned games, and the commands that they are read as.

/// A line, and what it is read as, in each row.
pub(crate) const LINES: &str = "\
adjourn|adjourn
 AD |adjourn
adj|adjourn
adjourn now|refused 28
adjourn Ann|refused 28
adjourns|refused 26
stored|stored
STO|stored
stored 1|refused 28
stored Ann|refused 28
st|refused 27
ST 12|refused 27
sty 12|style 12
store|stored
stores|refused 26
resume Ann|resume Ann
RESU  ann |resume ann
resume abcdefghijklmnopq|resume abcdefghijklmnopq
resume abcdefghijklmnopqr|refused 28
resume an|refused 28
resume 1|refused 28
resume Ann Ben|refused 28
resume|refused 28
resu|refused 28
res Ann|refused 27
resumed Ann|refused 26";
