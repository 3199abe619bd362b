//! Stored games, by the bytes of their records, and their exports, both written out by hand.

ghost use Rattle.pgn_book.specs.Export.{IsExportable};

use crate::pgn::exported::joined;
use game_records::{Record, StoredGame, read_record};
use memory::NoMemory;
use pgn_book::{PgnGame, export, of_stored};
use std::alloc::Global;
use std::test::Fail;
use test_steps::assert_rows;

/// What a record begins with before the names: an untimed game of chess, and one of 5 minutes.
const UNTIMED: &[u8] = b"\x01\x47\x00\x00\x00\x00\x00";

const TIMED: &[u8] = b"\x01\x47\x00\x00\x05\x00\x00";

const NAMES: &[u8] = b"\x03Ann\x03Ben";

/// e2e4, e7e5 and g1f3 without charges, and the last one with a charge of 1,500 milliseconds.
const E4: &[u8] = b"\x18\xE0\x00";

const E5: &[u8] = b"\x69\x20\x00";

const NF3: &[u8] = b"\x0C\xA8\x00";

const NF3_CHARGED: &[u8] =
    b"\x0C\xA8\x01\x00\x00\x00\x00\x00\x00\x03\xE8\x00\x00\x00\x00\x00\x00\x09\xC4";

/// The quickest mate: f2f3, e7e5, g2g4, d8h4; and a2a3 behind it.
const MATE: &[u8] = b"\x1A\xA8\x00\x69\x20\x00\x1C\xF0\x00\x76\xF8\x00";

const A3: &[u8] = b"\x10\x80\x00";

/// The parts of a record, and the movetext of its export, if there is one.
type Row = (&'static [&'static [u8]], Option<&'static str>);

const ROWS: &[Row] = &[
    (&[UNTIMED, NAMES, b"\x00\x00"], Some("*")),
    (&[UNTIMED, NAMES, b"\x00\x01", E4], Some("1. e4 *")),
    (&[TIMED, NAMES, b"\x00\x02", E4, E5], Some("1. e4 e5 *")),
    (
        &[TIMED, NAMES, b"\x00\x03", E4, E5, NF3_CHARGED],
        Some("1. e4 e5 2. Nf3 *"),
    ),
    (
        &[UNTIMED, NAMES, b"\x00\x03", E4, E5, NF3],
        Some("1. e4 e5 2. Nf3 *"),
    ),
    (
        &[UNTIMED, NAMES, b"\x00\x04", MATE],
        Some("1. f3 e5 2. g4 Qh4# *"),
    ),
    // a charge that is missing, and one that is too many
    (&[TIMED, NAMES, b"\x00\x03", E4, E5, NF3], None),
    (&[UNTIMED, NAMES, b"\x00\x03", E4, E5, NF3_CHARGED], None),
    // half-moves that aren't allowed: e2e5, White's second in a row, and one behind the mate
    (&[UNTIMED, NAMES, b"\x00\x01\x19\x20\x00"], None),
    (&[UNTIMED, NAMES, b"\x00\x02", E4, NF3], None),
    (&[UNTIMED, NAMES, b"\x00\x05", MATE, A3], None),
    // crazyhouse, bughouse, and Fischer random with the array of chess
    (&[b"\x01\x47\x01\x00\x00\x00\x00", NAMES, b"\x00\x00"], None),
    (
        &[
            b"\x02\x47\x02\x00\x00\x00\x00",
            NAMES,
            b"\x03Cat\x03Dan\x00\x00",
        ],
        None,
    ),
    (
        &[b"\x03\x47\x02\x06\x00\x00\x00\x00", NAMES, b"\x00\x00"],
        None,
    ),
];

const TAGS: &str = "\
[Event \"?\"]
[Site \"?\"]
[Date \"????.??.??\"]
[Round \"?\"]
[White \"Ann\"]
[Black \"Ben\"]
[Result \"*\"]

";

/// Whether the parts are a game, and its export is that text.
fn is_as_said(alloc: Global, parts: &[&[u8]], movetext: Option<&str>) -> Result<bool, NoMemory> {
    let bytes = joined(alloc, parts)?;
    match read_record(alloc, bytes.as_slice())? {
        Some(Record::Game(game)) => is_exported(alloc, &game, movetext),
        _ => Ok(false),
    }
}

fn is_exported(alloc: Global, game: &StoredGame, movetext: Option<&str>) -> Result<bool, NoMemory> {
    match of_stored(alloc, game)? {
        Some(made) => is_text(alloc, &made, movetext),
        None => Ok(movetext.is_none()),
    }
}

fn is_text(alloc: Global, made: &PgnGame, movetext: Option<&str>) -> Result<bool, NoMemory>
    requires { IsExportable made.now }
{
    let Some(movetext) = movetext else {
        return Ok(false);
    };
    let text = export(alloc, made)?;
    are_lines(alloc, text.as_slice(), movetext)
}

/// Whether these are the lines of the tags, the movetext and the empty line behind it.
fn are_lines(alloc: Global, text: &[u8], movetext: &str) -> Result<bool, NoMemory> {
    let lines = joined(alloc, &[TAGS.as_bytes(), movetext.as_bytes(), b"\n\n"])?;
    Ok(text == lines.as_slice())
}

#[test]
fn chess_that_replays_is_exported(rt: HostRuntime) -> Result<(), Fail> {
    assert_rows!(rt; ROWS, |(parts, movetext)| is_as_said(rt.alloc(), parts, *movetext)?);
    Ok(())
}
