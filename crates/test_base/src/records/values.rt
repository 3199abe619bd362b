//! What records say.

use crate::records::texts::{ANN, CHESS, CRAZYHOUSE, FISCHER, PAIR};
use chess_model::{Kind, Move, Square, Terms, Variant};
use clock_ledger::Charge;
use fics_words::{Account, Handle};
use game_records::{Half, PackedHalf, Record, StoredGame, read_record};
use memory::NoMemory;
use std::alloc::Global;
use std::test::Fail;
use test_steps::assert_rows;
use test_steps::limits::{LAST_MOMENT, MINUTES};

/// A half-move, squares by their numbers.
#[derive(Clone, Copy)]
enum Said {
    Plain(u8, u8, Option<Kind>),
    Castle(bool),
    Drop(Kind, u8),
}

/// A board, a half-move and its charge.
type Step = (u8, Said, Option<Charge>);

/// A text, and the game that it says: minutes, increment, variant, names, half-moves.
struct Row {
    text: &'static [u8],
    minutes: u16,
    increment: u16,
    variant: Variant,
    names: &'static [&'static [u8]],
    steps: &'static [Step],
}

const ROWS: &[Row] = &[
    Row {
        text: CHESS,
        minutes: 0,
        increment: 0,
        variant: Variant::Chess,
        names: &[b"Ann", b"Ben"],
        steps: &[(1, Said::Plain(12, 28, None), None)],
    },
    Row {
        text: PAIR,
        minutes: 0,
        increment: 0,
        variant: Variant::Bughouse,
        names: &[b"Ann", b"Ben", b"Cat", b"Dan"],
        steps: &[(1, Said::Plain(12, 28, None), None)],
    },
    Row {
        text: FISCHER,
        minutes: 2,
        increment: 12,
        variant: Variant::Fischer(959),
        names: &[b"Ann", b"Ben"],
        steps: &[
            (1, Said::Castle(false), None),
            (1, Said::Castle(true), None),
        ],
    },
    Row {
        text: CRAZYHOUSE,
        minutes: MINUTES,
        increment: 1,
        variant: Variant::Crazyhouse,
        names: &[b"Ann", b"Ben"],
        steps: &[
            (1, Said::Plain(48, 56, Some(Kind::Queen)), None),
            (
                1,
                Said::Drop(Kind::Knight, 28),
                Some(Charge {
                    begin: 1_000,
                    end: LAST_MOMENT,
                    client: None,
                }),
            ),
            (
                1,
                Said::Plain(48, 56, Some(Kind::Rook)),
                Some(Charge {
                    begin: 2,
                    end: 3,
                    client: Some((0, 9_999_999)),
                }),
            ),
        ],
    },
];

fn square(number: u8) -> Square {
    Square::on(number % 8, number / 8 % 8)
}

fn move_of(said: Said) -> Move {
    match said {
        Said::Plain(from, to, promo) => Move::Plain {
            from: square(from),
            to: square(to),
            promo,
        },
        Said::Castle(long) => Move::Castle { long },
        Said::Drop(kind, to) => Move::Drop {
            kind,
            to: square(to),
        },
    }
}

fn is_half(half: &Half, step: &Step) -> bool {
    half.board == step.0 && half.what == move_of(step.1) && half.charge == step.2
}

fn are_halves(halves: &[PackedHalf], steps: &[Step]) -> bool {
    if halves.len() != steps.len() {
        return false;
    }
    for (half, step) in halves.iter().zip(steps) {
        if !is_half(&half.unpacked(), step) {
            return false;
        }
    }
    true
}

fn are_names(names: &[Handle], texts: &[&[u8]]) -> bool {
    if names.len() != texts.len() {
        return false;
    }
    for (name, text) in names.iter().zip(texts) {
        if name.letters() != *text {
            return false;
        }
    }
    true
}

fn are_terms(terms: &Terms, row: &Row) -> bool {
    terms.minutes == row.minutes
        && terms.increment == row.increment
        && terms.variant == row.variant
        && terms.colour.is_none()
}

fn is_game(game: &StoredGame, row: &Row) -> bool {
    are_terms(&game.terms, row)
        && are_names(game.names.as_slice(), row.names)
        && are_halves(game.halves.as_slice(), row.steps)
}

/// Whether the record is the game of the row.
fn is_of_row(record: &Option<Record>, row: &Row) -> bool {
    match record {
        Some(Record::Game(game)) => is_game(game, row),
        _ => false,
    }
}

fn read(alloc: Global, text: &[u8]) -> Result<Option<Record>, NoMemory> {
    read_record(alloc, text)
}

fn is_read(alloc: Global, row: &Row) -> Result<bool, NoMemory> {
    Ok(is_of_row(&read(alloc, row.text)?, row))
}

#[test]
fn games(rt: HostRuntime) -> Result<(), Fail> {
    assert_rows!(rt; ROWS, |row| is_read(rt.alloc(), row)?);
    Ok(())
}

fn is_ann(account: &Account) -> bool {
    account.name.letters() == b"Ann".as_slice() && account.digest.as_slice() == &ANN[6..]
}

fn says_ann(record: &Option<Record>) -> bool {
    match record {
        Some(Record::Account(account)) => is_ann(account),
        _ => false,
    }
}

fn is_ann_read(alloc: Global) -> Result<bool, NoMemory> {
    Ok(says_ann(&read(alloc, ANN)?))
}

#[test]
fn an_account(rt: HostRuntime) -> Result<(), Fail> {
    assert!(rt; is_ann_read(rt.alloc())?);
    Ok(())
}
