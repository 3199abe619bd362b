//! Lines of players, and the commands that they are read as.

use crate::{lists, offers, resuming, simuls, watching};
use chess_model::{Colour, Terms, variant_word};
use command_words::{
    Aliases, Bare, ByName, ByNumber, Command, MaybeByName, OnChannel, Style, WithText, read_command,
};
use fics_words::{Fail as Failed, Handle, Line, Variable, write_number};
use memory::NoMemory;
use std::alloc::Global;
use std::test::Fail;
use test_steps::assert_rows;

/// A line, and what it is read as, in each row: a command with all its arguments, or a refusal's number.
const LINES: &str = "\
|nothing
   |nothing
e2e4|move
 O-O |move
e2e4+|move
E2E4|refused 26
b9|refused 26
accept|accept
a|accept
acc Ann|accept Ann
 A  Ann |accept Ann
accept Bob Ann|refused 28
accept 7|refused 28
a an|refused 28
acceptance|refused 26
decline|decline
de|decline
Decl Ann|decline Ann
decline an|refused 28
decline Ann Bob|refused 28
withdraw|withdraw
wi|withdraw
with Ann|withdraw Ann
withdraw 7|refused 28
withdraw Ann Bob|refused 28
flag|flag
f|flag
flag now|refused 28
Quit|quit
q|quit
quit now|refused 28
alias x tell Bob $@|alias x tell Bob $@
ALIAS   abcdefghijklmno   e4  |alias abcdefghijklmno e4
al x y|alias x y
alias|refused 28
alias x|refused 28
alias abcdefghijklmnop e4|refused 28
alias x1 e4|refused 28
alias X e4|refused 28
unalias x|unalias x
unal abcdefghijklmno|unalias abcdefghijklmno
unalias|refused 28
unalias X|refused 28
unalias x y|refused 28
un|refused 27
resign|resign
RESI|resign
RES|refused 27
resign x|refused 28
register secret|register secret
reg A  b |register A  b
REGISTER ~ $1 7|register ~ $1 7
register|refused 28
re|refused 27
r|refused 27
s|refused 27
RE x|refused 27
zz|refused 26
?|refused 26
1|refused 26
seek|seek 5 0 chess
see 3 2 crazyhouse|seek 3 2 crazyhouse
seek unrated w|seek 5 0 chess white
seek 0 600 unrated bughouse black|seek 0 600 bughouse black
seek fischer 0|seek 5 0 fischer 0
seek 5 0 fischer 518|seek 5 0 fischer 518
seek 3 2 unrated fischer   959 b|seek 3 2 fischer 959 black
seek 5 0 fischer|refused 28
seek 5 0 fischer 960|refused 28
seek 5 0 fischer 65536|refused 28
seek 5 0 fischer 05|refused 28
seek 5 0 fischer +5|refused 28
seek 5 0 fischer white|refused 28
seek 5 0 fischer 5 6|refused 28
seek 5 0 Fischer 5|refused 28
seek fischer 5 chess|refused 28
seek 5|refused 28
seek 5 0 rated|refused 28
seek 5 0 Chess|refused 28
seek 601 0|refused 28
unseek|unseek
uns 65535|unseek 65535
u 65535|refused 27
unseek 0|unseek 0
unseek 65536|refused 28
unseek 01|refused 28
unseek 1 2|refused 28
unseek x|refused 28
sought|sought
SO|sought
sought 1|refused 28
play 1|play 1
pl 65535|play 65535
play|refused 28
play 65536|refused 28
play 18446744073709551617|refused 28
play -1|refused 28
play ann|refused 28
who|who
wh|who
who ann|refused 28
s|refused 27
matches ann|refused 26
partner|partner
pa|partner
PARTN Ann|partner Ann
partner 7|refused 28
partner Ann Bob|refused 28
ptell hi|ptell hi
pt  Hello  all |ptell Hello  all
ptell|refused 28
p|refused 27
p 1|refused 27
tell Ann hi|tell Ann hi
t  ann  hi   there |tell ann hi   there
TE Ann ~ $1|tell Ann ~ $1
tell|refused 28
tell Ann|refused 28
tell an hi|refused 28
tell Ann7 hi|refused 28
tell 1 hi|tell 1 hi
T 0  hi  all|tell 0 hi  all
tell 255 hi|tell 255 hi
tell 1|refused 28
tell 00 hi|refused 28
tell 256 hi|refused 41
tell 256|refused 41
tell 18446744073709551617 hi|refused 41
tell 99999999999999999999999999 hi|refused 41
tell 0300 hi|refused 28
tell 256x hi|refused 28
tell +256 hi|refused 28
tells Ann hi|refused 26
+channel 1|+channel 1
+CH 0|+channel 0
-channel 255|-channel 255
-|refused 27
-channel|refused 28
+channel one|refused 28
+channel 1 2|refused 28
+channel 01|refused 28
+channel -1|refused 28
+channel 256|refused 41
-channel 256 x|refused 41
+channel 18446744073709551617|refused 41
inchannel 12|inchannel 12
in 3|inchannel 3
inchannel|refused 28
inchannel 12 now|refused 28
inchannel 300|refused 41
channel 1|refused 26
shout hi|shout hi
sh  Hello  all |shout Hello  all
shout|refused 28
set open 0|set open 0
set open 1|set open 1
SET  shout   0 |set shout 0
set shout 1|set shout 1
set seek 0|set seek 0
set seek 1|set seek 1
set|refused 28
set open|refused 28
set 1|refused 28
set open 2|refused 28
set open 00|refused 28
set open on|refused 28
set Open 1|refused 28
set tell 1|refused 28
set 1 open|refused 28
set ope 1|refused 28
set openness 1|refused 28
set open 1 1|refused 28
match ann|match ann 2 12 chess
MATCH Ann|match Ann 2 12 chess
mat ann 0 0|match ann 0 0 chess
m ANN|match ANN 2 12 chess
M ann w|match ann 2 12 chess white
match ann 5 0 white|match ann 5 0 chess white
m ann unrated crazyhouse b|match ann 2 12 crazyhouse black
ma ann 600 600|match ann 600 600 chess
match ann black|match ann 2 12 chess black
match ann chess|match ann 2 12 chess
match ben 2 12 fischer 0|match ben 2 12 fischer 0
match ann fischer 468 w|match ann 2 12 fischer 468 white
match ann fischer 7 3 0|refused 28
match ann fischer unrated|refused 28
match ann bughouse w|match ann 2 12 bughouse white
match ann 1 0 bughouse|match ann 1 0 bughouse
match ann unrated|match ann 2 12 chess
match ann unrated b|match ann 2 12 chess black
match ann 3 2 unrated|match ann 3 2 chess
match ann 3 2 unrated w|match ann 3 2 chess white
match ann 3 2 unrated crazyhouse white|match ann 3 2 crazyhouse white
match ann unrated chess b|match ann 2 12 chess black
  match   ann  3   2  |match ann 3 2 chess
match|refused 28
m|refused 28
match an|refused 28
match ann5|refused 28
match abcdefghijklmnopqr|refused 28
match 5 0|refused 28
match ann ben|refused 28
match ann 5|refused 28
match ann 5 white|refused 28
match ann 601 0|refused 28
match ann 0 601|refused 28
match ann 05 0|refused 28
match ann +5 0|refused 28
match ann -1 0|refused 28
match ann 5 0 3|refused 28
match ann 5,0|refused 28
match ann 18446744073709551621 0|refused 28
match ann unrated unrated|refused 28
match ann rated|refused 28
match ann 5 0 rated|refused 28
match ann unrated 5 0|refused 28
match ann chess unrated|refused 28
match ann w chess|refused 28
match ann chess crazyhouse|refused 28
match ann white black|refused 28
match ann Chess|refused 28
match ann WHITE|refused 28
match ann B|refused 28
match ann Unrated|refused 28
match ann fischer|refused 28
match ann 5 0 chess w x|refused 28
m bob 2 12 chess white unrated|refused 28";

/// The tables of lines, each with a name.
const TABLES: &[(&str, &str)] = &[
    ("reads_lines", LINES),
    ("reads_lines_about_lists", lists::LINES),
    ("reads_offers", offers::LINES),
    ("reads_lines_about_simuls", simuls::LINES),
    ("reads_lines_about_stored_games", resuming::LINES),
    ("reads_lines_about_looking_on", watching::LINES),
];

/// The place of the first row of a table that isn't read so where there is no alias, if one isn't.
fn first_misread_plainly(alloc: Global, rows: &str) -> Result<Option<usize>, Fail> {
    let none = Aliases::new(alloc);
    first_misread(alloc, rows, &none)
}

#[test]
fn reads_lines(rt: HostRuntime) -> Result<(), Fail> {
    for (name, rows) in TABLES {
        assert_eq!(rt; first_misread_plainly(rt.alloc(), rows)?, None, "{name}");
    }
    Ok(())
}

/// A text behind this front that is so many times ten bytes.
pub(crate) fn tens(alloc: Global, front: &str, times: usize) -> Result<String, Fail> {
    let mut line = String::new(alloc);
    put_tens(&mut line, front, times)?;
    Ok(line)
}

fn put_tens(line: &mut String, front: &str, times: usize) -> Result<(), NoMemory> {
    line.push_str(front)?;
    for _time in 0..times {
        line.push_str("ten bytes.")?;
    }
    Ok(())
}

/// Whether what stands behind this front may have 800 bytes, and not 801.
fn ends_at_800(alloc: Global, front: &str) -> Result<bool, Fail> {
    let mut line = tens(alloc, front, 80)?;
    is_last_read(alloc, &mut line)
}

/// Whether a line is read as it stands, and is refused with a byte more.
fn is_last_read(alloc: Global, line: &mut String) -> Result<bool, Fail> {
    if !is_read_plainly(alloc, line.as_str(), line.as_bytes())? {
        return Ok(false);
    }
    line.push('x')?;
    is_read_plainly(alloc, line.as_str(), b"refused 28")
}

fn is_read_plainly(alloc: Global, line: &str, wanted: &[u8]) -> Result<bool, Fail> {
    let none = Aliases::new(alloc);
    is_read_as(alloc, &none, line, wanted)
}

#[test]
fn a_password_has_800_bytes_at_most(rt: HostRuntime) -> Result<(), Fail> {
    assert!(rt; ends_at_800(rt.alloc(), "register ")?);
    Ok(())
}

/// What stands before a text that is said.
const FRONTS: &[&str] = &["tell Ann ", "shout ", "ptell ", "kibitz "];

#[test]
fn what_is_said_has_800_bytes_at_most(rt: HostRuntime) -> Result<(), Fail> {
    assert_rows!(rt; FRONTS, |front| ends_at_800(rt.alloc(), front)?);
    Ok(())
}

/// The place of the first row whose line isn't read as the row says, if there is one.
pub(crate) fn first_misread(
    alloc: Global,
    rows: &str,
    aliases: &Aliases,
) -> Result<Option<usize>, Fail> {
    for (place, row) in rows.lines().enumerate() {
        if !is_row_read(alloc, aliases, row)? {
            return Ok(Some(place));
        }
    }
    Ok(None)
}

/// Whether a row's line is read as the row says.
fn is_row_read(alloc: Global, aliases: &Aliases, row: &str) -> Result<bool, Fail> {
    let (line, wanted) = row.split_once('|').ok_or("a line and what it means")?;
    is_read_as(alloc, aliases, line, wanted.as_bytes())
}

/// Whether a line is read as that.
pub(crate) fn is_read_as(
    alloc: Global,
    aliases: &Aliases,
    line: &str,
    wanted: &[u8],
) -> Result<bool, Fail> {
    let line = Line::read(alloc, line.as_bytes())?.ok_or("a line")?;
    let command = command_of(alloc, &line, aliases);
    is_told(alloc, &command, wanted)
}

/// The command of a line. It ensures nothing, so that nothing above it is proved over what a line is read as.
fn command_of(alloc: Global, line: &Line, aliases: &Aliases) -> Result<Command, Failed> {
    read_command(alloc, line, aliases)
}

/// Whether what a line is read as is told so.
fn is_told(alloc: Global, read: &Result<Command, Failed>, wanted: &[u8]) -> Result<bool, Fail> {
    let mut text = Vec::new(alloc);
    tell_read(&mut text, read)?;
    Ok(text.as_slice() == wanted)
}

fn tell_read(text: &mut Vec<u8>, read: &Result<Command, Failed>) -> Result<(), NoMemory> {
    match read {
        Ok(command) => tell(text, command),
        Err(Failed::Refused(refusal)) => with_number(text, b"refused", u16::from(refusal.number())),
        Err(Failed::Memory) => Err(NoMemory),
    }
}

/// Puts the text of a command.
fn tell(text: &mut Vec<u8>, command: &Command) -> Result<(), NoMemory> {
    match command {
        Command::Nothing => put(text, b"nothing"),
        Command::Move(_) => put(text, b"move"),
        Command::Bare(which) => put(text, bare(*which)),
        Command::ByName(which, name) => with_text(text, by_name(*which), name.letters()),
        Command::MaybeByName(which, name) => with_maybe(text, maybe_by_name(*which), name),
        Command::WithText(which, said) => with_text(text, saying(*which), said.bytes()),
        Command::ByNumber(which, number) => with_number(text, by_number(*which), *number),
        Command::OnChannel(which, channel) => {
            with_number(text, on_channel(*which), u16::from(*channel))
        }
        Command::Alias { name, text: long } => {
            with_texts(text, b"alias", name.bytes(), long.bytes())
        }
        Command::Match(name, terms) => with_named_terms(text, name, terms),
        Command::ObserveGame(number) => with_number(text, b"observe", *number),
        Command::ObservePlayer(name) => with_text(text, b"observe", name.letters()),
        Command::Seek(terms) => with_terms(text, b"seek", terms),
        Command::Set(which, on) => with_text(text, set(*which), digit(*on)),
        Command::Style(style) => with_text(text, b"style", style_word(*style)),
        Command::Takeback(number) => with_number(text, b"takeback", *number),
        Command::Tell(name, said) => with_texts(text, b"tell", name.letters(), said.bytes()),
        Command::TellChannel(channel, said) => with_channel(text, *channel, said.bytes()),
        Command::Unalias(name) => with_text(text, b"unalias", name.bytes()),
        Command::Unseek(number) => with_maybe_number(text, b"unseek", *number),
    }
}

fn bare(which: Bare) -> &'static [u8] {
    match which {
        Bare::Abort => b"abort",
        Bare::Adjourn => b"adjourn",
        Bare::Draw => b"draw",
        Bare::Flag => b"flag",
        Bare::Games => b"games",
        Bare::Pending => b"pending",
        Bare::Quit => b"quit",
        Bare::Refresh => b"refresh",
        Bare::Resign => b"resign",
        Bare::SimNext => b"simnext",
        Bare::SimOpen => b"simopen",
        Bare::SimPrev => b"simprev",
        Bare::Sought => b"sought",
        Bare::Stored => b"stored",
        Bare::Who => b"who",
    }
}

fn by_name(which: ByName) -> &'static [u8] {
    match which {
        ByName::AddCensor => b"+censor",
        ByName::AddNoplay => b"+noplay",
        ByName::DropCensor => b"-censor",
        ByName::DropNoplay => b"-noplay",
        ByName::GoBoard => b"goboard",
        ByName::Resume => b"resume",
    }
}

fn maybe_by_name(which: MaybeByName) -> &'static [u8] {
    match which {
        MaybeByName::Accept => b"accept",
        MaybeByName::Decline => b"decline",
        MaybeByName::Partner => b"partner",
        MaybeByName::Withdraw => b"withdraw",
    }
}

fn saying(which: WithText) -> &'static [u8] {
    match which {
        WithText::Kibitz => b"kibitz",
        WithText::Ptell => b"ptell",
        WithText::Register => b"register",
        WithText::Shout => b"shout",
    }
}

fn by_number(which: ByNumber) -> &'static [u8] {
    match which {
        ByNumber::Play => b"play",
        ByNumber::Unobserve => b"unobserve",
    }
}

fn on_channel(which: OnChannel) -> &'static [u8] {
    match which {
        OnChannel::Ask => b"inchannel",
        OnChannel::Join => b"+channel",
        OnChannel::Leave => b"-channel",
    }
}

fn set(which: Variable) -> &'static [u8] {
    match which {
        Variable::Open => b"set open",
        Variable::Shout => b"set shout",
        Variable::Seek => b"set seek",
    }
}

/// How a style is typed.
fn style_word(style: Style) -> &'static [u8] {
    match style {
        Style::One => b"1",
        Style::Twelve => b"12",
    }
}

/// How a variable's value is typed.
fn digit(on: bool) -> &'static [u8] {
    if on { b"1" } else { b"0" }
}

fn put(text: &mut Vec<u8>, word: &[u8]) -> Result<(), NoMemory> {
    text.extend_from_slice(word)?;
    Ok(())
}

/// Puts a word, and another text behind it and a blank.
fn with_text(text: &mut Vec<u8>, word: &[u8], behind: &[u8]) -> Result<(), NoMemory> {
    put(text, word)?;
    put(text, b" ")?;
    put(text, behind)
}

fn with_texts(
    text: &mut Vec<u8>,
    word: &[u8],
    first: &[u8],
    second: &[u8],
) -> Result<(), NoMemory> {
    with_text(text, word, first)?;
    with_text(text, b"", second)
}

/// Puts a word and a handle behind it, if there is one.
fn with_maybe(text: &mut Vec<u8>, word: &[u8], name: &Option<Handle>) -> Result<(), NoMemory> {
    match name {
        None => put(text, word),
        Some(name) => with_text(text, word, name.letters()),
    }
}

/// Puts a word and a number behind it.
fn with_number(text: &mut Vec<u8>, word: &[u8], number: u16) -> Result<(), NoMemory> {
    with_text(text, word, b"")?;
    write_number(text, number as u64)
}

fn with_maybe_number(text: &mut Vec<u8>, word: &[u8], number: Option<u16>) -> Result<(), NoMemory> {
    match number {
        None => put(text, word),
        Some(number) => with_number(text, word, number),
    }
}

fn with_channel(text: &mut Vec<u8>, channel: u8, said: &[u8]) -> Result<(), NoMemory> {
    with_number(text, b"tell", u16::from(channel))?;
    with_text(text, b"", said)
}

fn with_named_terms(text: &mut Vec<u8>, name: &Handle, terms: &Terms) -> Result<(), NoMemory> {
    with_text(text, b"match", name.letters())?;
    with_terms(text, b"", terms)
}

/// Puts a word and all the terms of a game behind it.
fn with_terms(text: &mut Vec<u8>, word: &[u8], terms: &Terms) -> Result<(), NoMemory> {
    with_number(text, word, terms.minutes)?;
    with_number(text, b"", terms.increment)?;
    with_text(text, b"", variant_word(terms.variant).bytes())?;
    put(text, colour(terms.colour))
}

fn colour(asked: Option<Colour>) -> &'static [u8] {
    match asked {
        None => b"",
        Some(Colour::White) => b" white",
        Some(Colour::Black) => b" black",
    }
}
