//! Seat lines, good and bad, with what each reads as.

use chess_model::{Colour, Terms, Variant, read_variant, variant_word};
use fics_words::{Handle, Line};
use memory::NoMemory;
use replay_core::{SeatLine, read_seat};
use std::alloc::Global;
use std::test::Fail;
use test_steps::assert_rows;

/// A line, and what it reads as: names, minutes, increment and variant.
const GOOD: &str = "\
seat Ann Ben 5 0 chess|Ann Ben|5|0|chess
seat Ann Ben 2 12 chess|Ann Ben|2|12|chess
seat ann BEN 0 600 crazyhouse|ann BEN|0|600|crazyhouse
seat zzz abcdefghijklmnopq 600 0 chess|zzz abcdefghijklmnopq|600|0|chess
seat Ann Anna 0 0 chess|Ann Anna|0|0|chess
seat seat chess 10 10 crazyhouse|seat chess|10|10|crazyhouse
seat bughouse crazyhouse 1 1 chess|bughouse crazyhouse|1|1|chess
seat Ann Ben 2 0 fischer 468|Ann Ben|2|0|fischer 468
seat fischer Ben 5 5 fischer 0|fischer Ben|5|5|fischer 0
seat Ann Ben 0 0 fischer 959|Ann Ben|0|0|fischer 959
seat Ann Ben Cat Dan 2 0 bughouse|Ann Ben Cat Dan|2|0|bughouse
seat abc abcd bcd abcdefghijklmnopq 600 600 bughouse|abc abcd bcd abcdefghijklmnopq|600|600|bughouse";

/// Each between brackets, so that blanks at the ends show.
const BAD: &str = "\
[]
[seat]
[seat ]
[seat 5 0 chess]
[seat Ann 5 0 chess]
[seat Ann Ben]
[seat Ann Ben 5]
[seat Ann Ben 5 0]
[seat Ann Ben 5 0 ]
[seat Ann Ben 5 chess]
[seat Ann Ben chess]
[seat Ann Ben Cat 5 0 chess]
[seat Ann Ben Cat Dan 5 0 chess]
[seat Ann Ben Cat Dan 5 0 crazyhouse]
[seat Ann Ben 5 0 bughouse]
[seat Ann Ben Cat 5 0 bughouse]
[seat Ann Ben Cat Dan Eve 5 0 bughouse]
[seat Ann Ann 5 0 chess]
[seat Ann aNN 5 0 crazyhouse]
[seat Ann Ben Cat ann 2 0 bughouse]
[seat Ann Ben Cat BEN 2 0 bughouse]
[seat Ann Ben Cat Cat 2 0 bughouse]
[seat An Ben 5 0 chess]
[seat Ann Be 5 0 chess]
[seat Ann abcdefghijklmnopqr 5 0 chess]
[seat Ann1 Ben 5 0 chess]
[seat Ann B-n 5 0 chess]
[seat Ann Ben 601 0 chess]
[seat Ann Ben 0 601 chess]
[seat Ann Ben 65541 0 chess]
[seat Ann Ben 05 0 chess]
[seat Ann Ben 5 00 chess]
[seat Ann Ben -5 0 chess]
[seat Ann Ben 5 0.5 chess]
[ seat Ann Ben 5 0 chess]
[seat  Ann Ben 5 0 chess]
[seat Ann  Ben 5 0 chess]
[seat Ann Ben  5 0 chess]
[seat Ann Ben 5 0  chess]
[seat Ann Ben 5 0 chess ]
[seatAnn Ben 5 0 chess]
[Seat Ann Ben 5 0 chess]
[seat Ann Ben 5 0 Chess]
[seat Ann Ben 5 0 blitz]
[seat Ann Ben 5 0 fischer]
[seat Ann Ben 5 0 fischer ]
[seat Ann Ben 5 0 fischer 960]
[seat Ann Ben 5 0 fischer 66054]
[seat Ann Ben 5 0 fischer 00]
[seat Ann Ben 5 0 fischer 012]
[seat Ann Ben 5 0 fischer -1]
[seat Ann Ben 5 0 fischer +1]
[seat Ann Ben 5 0 fischer  1]
[seat Ann Ben 5 0 fischer 1 ]
[seat Ann Ben 5 0 fischer1]
[seat Ann Ben 5 0 Fischer 1]
[seat Ann Ben Cat Dan 5 0 fischer 1]
[seat Ann Ben 5 0 chess white]
[0 1 > seat Ann Ben 5 0 chess]";

/// What is read of a line. It ensures nothing, so that nothing above it is proved over what a line reads as.
fn read(alloc: Global, line: &Line) -> Result<Option<SeatLine>, NoMemory> {
    read_seat(alloc, line)
}

/// The terms that a row has in three columns behind one another.
fn terms_of(minutes: &str, increment: &str, variant: &str) -> Result<Terms, Fail> {
    Ok(Terms {
        minutes: minutes.parse()?,
        increment: increment.parse()?,
        variant: variant_of(variant),
        colour: Some(Colour::White),
    })
}

fn are_called(handles: &[Handle], names: &str) -> bool {
    let mut words = names.split(' ');
    for handle in handles {
        if !is_called(handle, words.next()) {
            return false;
        }
    }
    words.next().is_none()
}

fn is_called(handle: &Handle, name: Option<&str>) -> bool {
    match name {
        Some(name) => handle.letters() == name.as_bytes(),
        None => false,
    }
}

fn is_seat(seat: &Option<SeatLine>, names: &str, terms: &Terms) -> bool {
    match seat {
        Some(seat) => seat.terms == *terms && are_called(seat.names.as_slice(), names),
        None => false,
    }
}

/// Whether a line reads as these players and terms.
fn is_read_so(alloc: Global, text: &str, names: &str, terms: &Terms) -> Result<bool, Fail> {
    let line = Line::read(alloc, text.as_bytes())?.ok_or("a line")?;
    let seat = read(alloc, &line)?;
    Ok(is_seat(&seat, names, terms))
}

fn is_row_read(alloc: Global, row: &str) -> Result<bool, Fail> {
    let mut fields = row.split('|');
    let text = fields.next().ok_or("a line")?;
    let names = fields.next().ok_or("names")?;
    let minutes = fields.next().ok_or("minutes")?;
    let increment = fields.next().ok_or("an increment")?;
    let variant = fields.next().ok_or("a variant")?;
    is_read_so(alloc, text, names, &terms_of(minutes, increment, variant)?)
}

#[test]
fn reads_good_lines(rt: HostRuntime) -> Result<(), Fail> {
    for row in GOOD.lines() {
        assert!(rt; is_row_read(rt.alloc(), row)?, "{row}");
    }
    Ok(())
}

/// What stands between brackets.
fn between_brackets(row: &str) -> Option<&str> {
    row.strip_prefix('[')?.strip_suffix(']')
}

fn is_refused(alloc: Global, row: &str) -> Result<bool, Fail> {
    let text = between_brackets(row).ok_or("brackets")?;
    let line = Line::read(alloc, text.as_bytes())?.ok_or("a line")?;
    let seat = read(alloc, &line)?;
    Ok(seat.is_none())
}

#[test]
fn refuses_bad_lines(rt: HostRuntime) -> Result<(), Fail> {
    for row in BAD.lines() {
        assert!(rt; is_refused(rt.alloc(), row)?, "{row}");
    }
    Ok(())
}

/// Words of variants, and the variants.
const VARIANTS: &[(&str, Variant)] = &[
    ("chess", Variant::Chess),
    ("crazyhouse", Variant::Crazyhouse),
    ("bughouse", Variant::Bughouse),
    ("fischer 0", Variant::Fischer(0)),
    ("fischer 9", Variant::Fischer(9)),
    ("fischer 10", Variant::Fischer(10)),
    ("fischer 99", Variant::Fischer(99)),
    ("fischer 100", Variant::Fischer(100)),
    ("fischer 518", Variant::Fischer(518)),
    ("fischer 959", Variant::Fischer(959)),
];

const NO_VARIANTS: &[&str] = &[
    "",
    "Chess",
    "chess ",
    "suicide",
    "bug",
    "fischer",
    "fischer ",
    "fischer 960",
    "fischer 01",
    "fischer 65536",
    "fischer 5a",
    "fischer\u{e9}",
];

fn is_word_of(word: &str, variant: Variant) -> bool {
    variant_word(variant).bytes() == word.as_bytes()
        && read_variant(word.as_bytes()) == Some(variant)
}

#[test]
fn names_variants(rt: HostRuntime) {
    assert_rows!(rt; VARIANTS, |(word, variant)| is_word_of(word, *variant));
    assert_rows!(rt; NO_VARIANTS, |word| read_variant(word.as_bytes()).is_none());
}

fn variant_of(word: &str) -> Variant {
    match word {
        "chess" => Variant::Chess,
        "crazyhouse" => Variant::Crazyhouse,
        "fischer 0" => Variant::Fischer(0),
        "fischer 468" => Variant::Fischer(468),
        "fischer 959" => Variant::Fischer(959),
        _ => Variant::Bughouse,
    }
}
