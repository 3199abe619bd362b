//! Handles, lines, decimals and refusals, at values chosen by hand.

use fics_words::{Account, Fail, Handle, Line, Lines, Player, Refusal, read_number, write_number};
use memory::{Duplicate, NoMemory};
use std::alloc::Global;
use std::test::Fail as TestFail;
use test_steps::assert_rows;
use test_steps::limits::LINE_BYTES;

const HANDLES: &[&str] = &["Ann", "abc", "GuestABCD", "abcdefghijklmnopq", "ZZZ"];

const NO_HANDLES: &[&str] = &[
    "",
    "An",
    "abcdefghijklmnopqr",
    "Ann1",
    "An n",
    " Ann",
    "Ann\n",
    "J_R",
    "@nn",
    "[nn",
    "`nn",
    "{nn",
];

/// Whether these letters are read as a handle of theirs.
fn is_handle(letters: &[u8]) -> bool {
    match Handle::read(letters) {
        Some(handle) => handle.letters() == letters,
        None => false,
    }
}

fn is_none(letters: &[u8]) -> bool {
    Handle::read(letters).is_none()
}

#[test]
fn reads_handles(rt: HostRuntime) {
    assert_rows!(rt; HANDLES, |good| is_handle(good.as_bytes()));
    assert_rows!(rt; NO_HANDLES, |bad| is_none(bad.as_bytes()));
}

/// What two handles and their keys have to be.
enum Pair {
    /// The first has this key.
    Key(&'static [u8], &'static [u8]),
    SameKey(&'static [u8], &'static [u8]),
    KeyBefore(&'static [u8], &'static [u8]),
    Equal(&'static [u8], &'static [u8], bool),
}

const PAIRS: &[Pair] = &[
    Pair::Key(b"AnnaZ", b"annaz"),
    Pair::SameKey(b"AnnaZ", b"annAz"),
    Pair::KeyBefore(b"AnnaZ", b"Bert"),
    Pair::Equal(b"AnnaZ", b"annAz", false),
    Pair::Equal(b"AnnaZ", b"AnnaZ", true),
];

fn has_key(letters: &[u8], key: &[u8]) -> bool {
    match Handle::read(letters) {
        Some(handle) => handle.key().letters() == key,
        None => false,
    }
}

fn have_same_key(first: &[u8], second: &[u8]) -> bool {
    match (Handle::read(first), Handle::read(second)) {
        (Some(first), Some(second)) => first.key() == second.key(),
        _ => false,
    }
}

fn has_key_before(first: &[u8], second: &[u8]) -> bool {
    match (Handle::read(first), Handle::read(second)) {
        (Some(first), Some(second)) => first.key() < second.key(),
        _ => false,
    }
}

fn are_equal_handles(first: &[u8], second: &[u8], equal: bool) -> bool {
    match (Handle::read(first), Handle::read(second)) {
        (Some(first), Some(second)) => (first == second) == equal && (first != second) != equal,
        _ => false,
    }
}

fn is_pair(pair: &Pair) -> bool {
    match pair {
        Pair::Key(letters, key) => has_key(letters, key),
        Pair::SameKey(first, second) => have_same_key(first, second),
        Pair::KeyBefore(first, second) => has_key_before(first, second),
        Pair::Equal(first, second, equal) => are_equal_handles(first, second, *equal),
    }
}

#[test]
fn compares_handles_by_key(rt: HostRuntime) {
    assert_rows!(rt; PAIRS, |pair| is_pair(pair));
}

const LINES: &[&[u8]] = &[b"", b" ~", b"tell 1 hello", LONGEST];

const NO_LINES: &[&[u8]] = &[b"a\x7f", b"\x1f", b"a\n", b"\xe9", b"a\x00", TOO_LONG];

/// A line of the greatest length, and one that is longer.
const LONGEST: &[u8] = &[b'x'; LINE_BYTES];

const TOO_LONG: &[u8] = &[b'x'; LINE_BYTES + 1];

/// What is read of bytes. It ensures nothing, so that nothing above it is proved over what a line is.
fn read(alloc: Global, bytes: &[u8]) -> Result<Option<Line>, NoMemory> {
    Line::read(alloc, bytes)
}

fn has_bytes(line: &Line, bytes: &[u8]) -> Result<bool, NoMemory> {
    let copy = line.duplicate()?;
    Ok(line.bytes() == bytes && copy == *line)
}

/// Whether these bytes are read as a line of theirs, whose copy is the same.
fn is_line(alloc: Global, bytes: &[u8]) -> Result<bool, NoMemory> {
    match read(alloc, bytes)? {
        Some(line) => has_bytes(&line, bytes),
        None => Ok(false),
    }
}

fn is_no_line(alloc: Global, bytes: &[u8]) -> Result<bool, NoMemory> {
    Ok(read(alloc, bytes)?.is_none())
}

fn is_made_of_nothing(alloc: Global) -> bool {
    let made = Line::from_bytes(Vec::new(alloc));
    made.bytes().is_empty()
}

#[test]
fn reads_lines(rt: HostRuntime) -> Result<(), TestFail> {
    assert_rows!(rt; LINES, |good| is_line(rt.alloc(), good)?);
    assert_rows!(rt; NO_LINES, |bad| is_no_line(rt.alloc(), bad)?);
    assert!(rt; is_made_of_nothing(rt.alloc()));
    Ok(())
}

/// Puts a line behind others, and says whether it stands there, and where memory was wanted nothing more than before.
fn is_put(lines: &mut Lines, line: &Line) -> bool {
    let count = lines.len();
    let bytes = lines.count_bytes();
    match lines.push(line.bytes()) {
        Ok(()) => {
            lines.len() == count + 1
                && lines.count_bytes() == bytes + line.bytes().len()
                && lines.get(count) == Some(line.bytes())
        }
        Err(NoMemory) => lines.len() == count && lines.count_bytes() == bytes,
    }
}

/// Whether a line of these bytes is put so.
fn puts(alloc: Global, lines: &mut Lines, bytes: &[u8]) -> Result<bool, NoMemory> {
    match read(alloc, bytes)? {
        Some(line) => Ok(is_put(lines, &line)),
        None => Ok(false),
    }
}

/// Whether the lines of these bytes are put one after the other.
fn puts_all(alloc: Global, lines: &mut Lines, rows: &[&[u8]]) -> Result<bool, NoMemory> {
    for row in rows {
        if !puts(alloc, lines, row)? {
            return Ok(false);
        }
    }
    Ok(true)
}

/// Whether these are the lines of a block, in their order, and none behind them.
fn holds(lines: &Lines, rows: &[&[u8]]) -> bool {
    for (place, row) in rows.iter().enumerate() {
        if lines.get(place) != Some(*row) {
            return false;
        }
    }
    lines.len() == rows.len() && lines.get(rows.len()).is_none()
}

/// Whether lines that are put into a block are those that it holds.
fn are_in_block(alloc: Global, rows: &[&[u8]]) -> Result<bool, NoMemory> {
    let mut lines = Lines::new(alloc);
    are_put_and_held(alloc, &mut lines, rows)
}

fn are_put_and_held(alloc: Global, lines: &mut Lines, rows: &[&[u8]]) -> Result<bool, NoMemory> {
    Ok(puts_all(alloc, lines, rows)? && holds(lines, rows))
}

/// The lines of two blocks, and whether the blocks are equal.
type Blocks = (&'static [&'static [u8]], &'static [&'static [u8]], bool);

fn are_as_equal(alloc: Global, blocks: &Blocks) -> Result<bool, NoMemory> {
    let mut first = Lines::new(alloc);
    let mut second = Lines::new(alloc);
    are_put_as_equal(alloc, &mut first, &mut second, blocks)
}

fn are_put_as_equal(
    alloc: Global,
    first: &mut Lines,
    second: &mut Lines,
    blocks: &Blocks,
) -> Result<bool, NoMemory> {
    let put = puts_all(alloc, first, blocks.0)? && puts_all(alloc, second, blocks.1)?;
    Ok(put && (*first == *second) == blocks.2)
}

const BLOCKS: &[&[&[u8]]] = &[
    &[],
    &[b"", b" ~", b"tell 1 hello"],
    &[b"", LONGEST, b"", LONGEST, b"x"],
];

const COMPARED: &[Blocks] = &[
    (&[b"ab", b"c"], &[b"ab", b"c"], true),
    (&[b"ab", b"c"], &[b"a", b"bc"], false),
    (&[b"ab"], &[b"ab", b""], false),
];

#[test]
fn keeps_lines_in_one_block(rt: HostRuntime) -> Result<(), TestFail> {
    assert_rows!(rt; BLOCKS, |rows| are_in_block(rt.alloc(), rows)?);
    assert_rows!(rt; COMPARED, |blocks| are_as_equal(rt.alloc(), blocks)?);
    Ok(())
}

/// Texts, the most that they may say, and the number.
const NUMBERS: &[(&[u8], u64, Option<u64>)] = &[
    (b"0", 0, Some(0)),
    (b"7", 9, Some(7)),
    (b"65535", 65_535, Some(65_535)),
    (b"18446744073709551615", u64::MAX, Some(u64::MAX)),
    (b"", 9, None),
    (b"00", 9, None),
    (b"07", 9, None),
    (b"+7", 9, None),
    (b"-0", 9, None),
    (b"7 ", 9, None),
    (b"10", 9, None),
    (b"0x1", 9, None),
    (b"18446744073709551616", u64::MAX, None),
    (b"99999999999999999999999", u64::MAX, None),
    (b"\xff1", 9, None),
];

/// The number of a text. It ensures nothing, so that nothing above it is proved over what is read.
fn number(text: &[u8], most: u64) -> Option<u64> {
    read_number(text, most)
}

#[test]
fn reads_numbers(rt: HostRuntime) {
    assert_rows!(rt; NUMBERS, |(text, most, value)| number(text, *most) == *value);
}

/// Numbers, and what is written of them behind one another, each with a blank behind it.
const WRITTEN: &[u64] = &[0, 10, 9_999_999, u64::MAX];

fn write_all(out: &mut Vec<u8>, numbers: &[u64]) -> Result<(), NoMemory> {
    for n in numbers {
        write_number(out, *n)?;
        out.push(b' ')?;
    }
    Ok(())
}

/// Whether numbers are written so behind what stands there.
fn are_written(alloc: Global, numbers: &[u64], wanted: &[u8]) -> Result<bool, NoMemory> {
    let mut out = Vec::from_slice(alloc, b"n ")?;
    write_all(&mut out, numbers)?;
    Ok(out.as_slice() == wanted)
}

#[test]
fn writes_numbers(rt: HostRuntime) -> Result<(), TestFail> {
    let wanted = b"n 0 10 9999999 18446744073709551615 ";
    assert!(rt; are_written(rt.alloc(), WRITTEN, wanted)?);
    Ok(())
}

const REFUSALS: &[(Refusal, u8, &str)] = &[
    (Refusal::Ambiguous, 1, "Ambiguous"),
    (Refusal::LeavesKing, 2, "LeavesKing"),
    (Refusal::NoPiece, 8, "NoPiece"),
    (Refusal::CannotReach, 9, "CannotReach"),
    (Refusal::TooManyMoves, 12, "TooManyMoves"),
    (Refusal::NotPlaying, 20, "NotPlaying"),
    (Refusal::BadArguments, 28, "BadArguments"),
    (Refusal::NotInChannel, 39, "NotInChannel"),
    (Refusal::OnList, 51, "OnList"),
    (Refusal::BadByte, 56, "BadByte"),
    (Refusal::NoMoreMoves, 57, "NoMoreMoves"),
    (Refusal::NoEarlierMoves, 58, "NoEarlierMoves"),
    (Refusal::TourneyStarted, 59, "TourneyStarted"),
    (Refusal::TourneyFull, 60, "TourneyFull"),
    (Refusal::TooFewPlayers, 61, "TooFewPlayers"),
    (Refusal::TourneyNotStarted, 62, "TourneyNotStarted"),
    (Refusal::NoSuchRound, 63, "NoSuchRound"),
    (Refusal::NotPaired, 64, "NotPaired"),
    (Refusal::AlreadyReported, 65, "AlreadyReported"),
];

/// Whether a refusal has this number and name, and is what fails by it.
fn is_named(refusal: Refusal, number: u8, name: &str) -> bool {
    refusal.number() == number
        && refusal.name() == name
        && Fail::from(refusal) == Fail::Refused(refusal)
}

#[test]
fn names_refusals(rt: HostRuntime) {
    assert_rows!(rt; REFUSALS, |(refusal, number, name)| is_named(*refusal, *number, name));
    assert!(rt; Fail::from(NoMemory) == Fail::Memory);
}

fn is_account_copied(name: Handle) -> Result<bool, NoMemory> {
    let account = Account {
        name,
        digest: [7; 32],
    };
    Ok(account.duplicate()? == account)
}

fn is_player_copied(name: Handle) -> Result<bool, NoMemory> {
    let seat = Player {
        session: 5,
        name,
        registered: true,
    };
    Ok(seat.duplicate()? == seat)
}

fn is_handle_copied(name: Handle) -> Result<bool, NoMemory> {
    Ok(name.duplicate()? == name && name.key().duplicate()? == name.key())
}

#[test]
fn copies_players(rt: HostRuntime) -> Result<(), TestFail> {
    let name = Handle::read(b"Ann").ok_or("a handle")?;
    assert!(rt; is_account_copied(name)?);
    assert!(rt; is_player_copied(name)?);
    assert!(rt; is_handle_copied(name)?);
    Ok(())
}
