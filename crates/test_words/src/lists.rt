//! Lines about lists of names, challenges and games, and the commands that they are read as.

/// A line, and what it is read as, in each row, as in the table of all commands.
pub(crate) const LINES: &str = "\
+censor Bob|+censor Bob
+CENSOR  bob |+censor bob
+ce bob|+censor bob
+c bob|refused 27
+|refused 27
+censor|refused 28
+censor an|refused 28
+censor 7|refused 28
+censor Bob Ann|refused 28
-censor Bob|-censor Bob
-ce bob|-censor bob
-c bob|refused 27
-censor|refused 28
+noplay Bob|+noplay Bob
+n Bob|+noplay Bob
+noplay abcdefghijklmnopq|+noplay abcdefghijklmnopq
+noplay abcdefghijklmnopqr|refused 28
+noplay|refused 28
-noplay Bob|-noplay Bob
-NO bob|-noplay bob
-noplay Bob Ann|refused 28
censor Bob|refused 26
noplay Bob|refused 26
pending|pending
PE|pending
pending Bob|refused 28
games|games
ga|games
GAM|games
g|refused 27
games 1|refused 28
gamess|refused 26";
