//! Stored games from rows.

use chess_model::{Kind, Move, Square, Terms, Variant};
use clock_ledger::Charge;
use collections::Listed;
use fics_words::Handle;
use game_records::{Half, HalfList, StoredGame};
use memory::NoMemory;
use std::alloc::Global;

/// Half-moves as rows write them: the number of the board and two squares, or a pawn that is dropped, as `1e2e4` and
/// `2P@e4`; with a sign behind it where it is charged, `-` with half a second, `+` with a second and `*` with four.
pub type Halves = &'static [&'static str];

/// When a charge begins, in milliseconds of another day.
const BEGIN: u64 = 3_000;

const TWO: &[&[u8]] = &[b"Ann", b"Ben"];

const FOUR: &[&[u8]] = &[b"Ann", b"Ben", b"Cat", b"Dan"];

fn at(word: &[u8], place: usize) -> u8 {
    word.get(place).copied().unwrap_or(b'0')
}

fn square(file: u8, rank: u8) -> Square {
    Square::on(file.wrapping_sub(b'a') % 8, rank.wrapping_sub(b'1') % 8)
}

fn move_of(word: &[u8]) -> Move {
    let to = square(at(word, 3), at(word, 4));
    if at(word, 2) == b'@' {
        return Move::Drop {
            kind: Kind::Pawn,
            to,
        };
    }
    Move::Plain {
        from: square(at(word, 1), at(word, 2)),
        to,
        promo: None,
    }
}

fn board_of(word: &[u8]) -> u8 {
    at(word, 0).wrapping_sub(b'0')
}

fn charge_of(word: &[u8]) -> Option<Charge> {
    let millis = match at(word, 5) {
        b'-' => 500,
        b'+' => 1_000,
        b'*' => 4_000,
        _ => return None,
    };
    Some(Charge {
        begin: BEGIN,
        end: BEGIN + millis,
        client: None,
    })
}

/// The half-move of a word.
pub fn half_of(word: &str) -> Half {
    let word = word.as_bytes();
    Half {
        board: board_of(word),
        what: move_of(word),
        charge: charge_of(word),
    }
}

/// The half-moves of words, over and over.
pub fn halves_of(alloc: Global, words: Halves, times: u16) -> Result<HalfList, NoMemory> {
    let mut halves = HalfList::new(alloc);
    for _time in 0..times {
        push_each(&mut halves, words)?;
    }
    Ok(halves)
}

/// Puts the half-moves of words behind the others.
pub fn push_each(halves: &mut HalfList, words: Halves) -> Result<(), NoMemory> {
    for word in words {
        push(halves, word)?;
    }
    Ok(())
}

/// Puts the half-move of a word behind the others.
fn push(halves: &mut HalfList, word: &str) -> Result<(), NoMemory> {
    let word = word.as_bytes();
    let board = board_of(word);
    let what = move_of(word);
    let charge = charge_of(word);
    halves.push(Half {
        board,
        what,
        charge,
    })?;
    Ok(())
}

/// The names that are handles.
fn names_of(alloc: Global, names: &[&[u8]]) -> Result<Listed<Handle>, NoMemory> {
    let mut handles = Listed::new(alloc);
    for name in names {
        if let Some(handle) = Handle::read(name) {
            handles.push(handle)?;
        }
    }
    Ok(handles)
}

/// Who plays a game of the variant: Ann and Ben, and Cat and Dan at the second board of a pair.
pub fn players(variant: Variant) -> &'static [&'static [u8]] {
    match variant {
        Variant::Bughouse => FOUR,
        _ => TWO,
    }
}

/// A game of so many minutes and seconds of increment by these players, whose half-moves are there.
pub fn stored(
    alloc: Global,
    clock: (u16, u16),
    variant: Variant,
    names: &[&[u8]],
    halves: HalfList,
) -> Result<StoredGame, NoMemory> {
    let names = names_of(alloc, names)?;
    Ok(StoredGame {
        terms: Terms {
            minutes: clock.0,
            increment: clock.1,
            variant,
            colour: None,
        },
        names,
        halves,
    })
}
