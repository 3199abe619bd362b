//! Lines about looking on at games, and the commands that they are read as.

/// A line, and what it is read as, in each row, as in the table of all commands.
pub(crate) const LINES: &str = "\
refresh|refresh
REF|refresh
refresh now|refused 28
kibitz hi|kibitz hi
k  Hello  all |kibitz Hello  all
kibitz|refused 28
observe 1|observe 1
o 65535|observe 65535
observe 65536|refused 28
observe 01|refused 28
observe Ann|observe Ann
OB  ann |observe ann
observe an|refused 28
observe 1 2|refused 28
observe|refused 28
unobserve 1|unobserve 1
UNO 12|unobserve 12
unobserve 65536|refused 28
unobserve Ann|refused 28
unobserve|refused 28
style 1|style 1
Style  12 |style 12
style 2|refused 28
style 01|refused 28
style 1 12|refused 28
style|refused 28";
