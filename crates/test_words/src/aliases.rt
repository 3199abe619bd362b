//! Aliases: what they make of lines, and how they are kept.

use crate::commands::{first_misread, is_read_as, tens};
use command_words::Aliases;
use fics_words::{Fail as Failed, Refusal};
use std::alloc::Global;
use std::test::Fail;
use test_steps::first_wrong;

/// The aliases of a player: a name and a text in each row.
const ALIASES: &str = "\
x|accept
y|x
go|match $1 $3 $2
nine|match $9 $8
all|register $@
twice|register $@ $@
gap|match $1 $2 unrated
zero|register $0$
first|$1
quit|flag
flag|flag
blank| quit 
abcdefghijklmno|resign
end|register a$";

/// Lines, and what they are read as with these aliases. Names are compared exactly, and a line is replaced once: `y`
/// becomes `x`, which is no command. A `$` that no digit from 1 to 9 and no `@` follows stands as it is, and the rest
/// isn't added then.
const EXPANDED: &str = "\
x Bob|accept Bob
  x   Bob  |accept Bob
x|accept
X Bob|refused 26
xx Bob|refused 26
y Bob|refused 26
go bob 0 5|match bob 5 0 chess
go  bob   0 5 more|match bob 5 0 chess
go bob|match bob 2 12 chess
go|refused 28
nine 1 2 3 4 5 6 7 w ann|match ann 2 12 chess white
all a  b|register a  b
all|refused 28
twice ab c|register ab c ab c
gap bob|match bob 2 12 chess
gap bob w|refused 28
zero hi|register $0$
end hi|register a$
first|nothing
first e2e4|move
first x|refused 26
quit|flag
QUIT|quit
flag now|refused 28
blank|quit
abcdefghijklmno|resign";

/// What a call has to answer: nothing where it is done, and else the refusal.
type Answer = Option<Refusal>;

/// A call of the aliases of a player, and what it has to come to.
enum Step {
    /// Each of these rows, a name and a text, is set, or refused.
    SetAll(&'static str, Answer),
    Set(&'static [u8], &'static [u8], Answer),
    Unset(&'static [u8], Answer),
    StandsFor(&'static [u8], &'static [u8]),
    /// The name stands for nothing.
    Nothing(&'static [u8]),
}

/// Makes a name stand for a text. It ensures nothing, so that nothing above it is proved over what that does.
fn set(aliases: &mut Aliases, name: &[u8], text: &[u8]) -> Result<(), Failed> {
    aliases.set(name, text)
}

/// Makes a name stand for nothing.
fn unset(aliases: &mut Aliases, name: &[u8]) -> Result<(), Refusal> {
    aliases.unset(name)
}

fn sets(aliases: &mut Aliases, name: &[u8], text: &[u8], answer: Answer) -> bool {
    match set(aliases, name, text) {
        Ok(()) => answer.is_none(),
        Err(Failed::Refused(cause)) => answer == Some(cause),
        Err(Failed::Memory) => false,
    }
}

fn sets_row(aliases: &mut Aliases, row: &str, answer: Answer) -> bool {
    match row.split_once('|') {
        Some((name, text)) => sets(aliases, name.as_bytes(), text.as_bytes(), answer),
        None => false,
    }
}

fn sets_all(aliases: &mut Aliases, rows: &str, answer: Answer) -> bool {
    for row in rows.lines() {
        if !sets_row(aliases, row, answer) {
            return false;
        }
    }
    true
}

fn unsets(aliases: &mut Aliases, name: &[u8], answer: Answer) -> bool {
    match unset(aliases, name) {
        Ok(()) => answer.is_none(),
        Err(cause) => answer == Some(cause),
    }
}

/// Whether a name stands for this text.
fn stands_for(aliases: &Aliases, name: &[u8], text: &[u8]) -> bool {
    match aliases.get(name) {
        Some(alias) => alias.text.bytes() == text,
        None => false,
    }
}

fn is_none(aliases: &Aliases, name: &[u8]) -> bool {
    aliases.get(name).is_none()
}

fn is_as_said(aliases: &mut Aliases, step: &Step) -> bool {
    match step {
        Step::SetAll(rows, answer) => sets_all(aliases, rows, *answer),
        Step::Set(name, text, answer) => sets(aliases, name, text, *answer),
        Step::Unset(name, answer) => unsets(aliases, name, *answer),
        Step::StandsFor(name, text) => stands_for(aliases, name, text),
        Step::Nothing(name) => is_none(aliases, name),
    }
}

/// The place of the first step that comes to something else, if one does.
fn first_failing(aliases: &mut Aliases, steps: &[Step]) -> Option<usize> {
    first_wrong!(steps, |step| is_as_said(aliases, step))
}

fn first_failing_anew(alloc: Global, steps: &[Step]) -> Option<usize> {
    let mut aliases = Aliases::new(alloc);
    first_failing(&mut aliases, steps)
}

/// The place of the first row that isn't read so with the aliases of a player, if one isn't.
fn first_misexpanded(alloc: Global) -> Result<Option<usize>, Fail> {
    let mut aliases = Aliases::new(alloc);
    first_misexpanded_with(alloc, &mut aliases)
}

fn first_misexpanded_with(alloc: Global, aliases: &mut Aliases) -> Result<Option<usize>, Fail> {
    if !sets_all(aliases, ALIASES, None) {
        return Ok(Some(usize::MAX));
    }
    first_misread(alloc, EXPANDED, aliases)
}

#[test]
fn aliases_are_expanded_once(rt: HostRuntime) -> Result<(), Fail> {
    assert_eq!(rt; first_misexpanded(rt.alloc())?, None);
    Ok(())
}

/// What stands before 500 bytes, and what the line is read as: with 9 bytes and twice 507 it isn't too long, but no
/// password is so long.
const LONG: &[(&str, &[u8])] = &[("l sevenxx", b"refused 28"), ("l sevenxxx", b"refused 29")];

/// Whether 500 bytes behind this front are read as that.
fn are_read_as(alloc: Global, aliases: &Aliases, front: &str, wanted: &[u8]) -> Result<bool, Fail> {
    let line = tens(alloc, front, 50)?;
    is_read_as(alloc, aliases, line.as_str(), wanted)
}

/// The place of the first long line that is read otherwise, if one is, or their number where the name isn't set.
fn first_long_misread(alloc: Global) -> Result<Option<usize>, Fail> {
    let mut aliases = Aliases::new(alloc);
    first_long_misread_with(alloc, &mut aliases)
}

fn first_long_misread_with(alloc: Global, aliases: &mut Aliases) -> Result<Option<usize>, Fail> {
    if !sets(aliases, b"l", b"register $@$@", None) {
        return Ok(Some(LONG.len()));
    }
    Ok(first_wrong!(
        LONG,
        |(front, wanted)| are_read_as(alloc, aliases, front, wanted)?
    ))
}

#[test]
fn a_line_after_its_alias_has_1023_bytes_at_most(rt: HostRuntime) -> Result<(), Fail> {
    assert_eq!(rt; first_long_misread(rt.alloc())?, None);
    Ok(())
}

/// Names and texts that make no alias.
const REFUSED: &str = "\
|flag
abcdefghijklmnop|flag
Go|flag
go2|flag
a b|flag
go|
go|a\tb";

/// The most aliases that a player has: 26 names of a letter, and six of two.
const THIRTY_TWO: &str = "\
a|quit\nb|quit\nc|quit\nd|quit\ne|quit\nf|quit\ng|quit\nh|quit\ni|quit\nj|quit\nk|quit\nl|quit\nm|quit
n|quit\no|quit\np|quit\nq|quit\nr|quit\ns|quit\nt|quit\nu|quit\nv|quit\nw|quit\nx|quit\ny|quit\nz|quit
xa|quit\nxb|quit\nxc|quit\nxd|quit\nxe|quit\nxf|quit";

/// A full list takes no other name, but takes a name that it has, or one in place of another.
const FILLED: &[Step] = &[
    Step::SetAll(REFUSED, Some(Refusal::BadArguments)),
    Step::SetAll(THIRTY_TWO, None),
    Step::Set(b"more", b"quit", Some(Refusal::ListFull)),
    Step::Set(b"xf", b"flag", None),
    Step::Unset(b"more", Some(Refusal::NotOnList)),
    Step::Unset(b"a", None),
    Step::Set(b"more", b"quit", None),
    Step::StandsFor(b"xf", b"flag"),
    Step::Nothing(b"XF"),
];

#[test]
fn a_player_has_32_aliases_at_most(rt: HostRuntime) {
    assert_eq!(rt; first_failing_anew(rt.alloc(), FILLED), None);
}
