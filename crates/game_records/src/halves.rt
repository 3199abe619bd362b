//! Half-moves in records.
ghost use Rattle.std.specs.Prelude.{◌≡◌, ◌++◌, ◌∷◌, [], IfOk, OnOk};
ghost use Rattle.std.specs.List.{AllByRecursion};
ghost use Rattle.game_records.specs.Bounds.{AreSquares};
ghost use Rattle.game_records.specs.Reading.{board_in, behind_board, half_in, behind_half, halves_in, counted_halves};
ghost use Rattle.game_records.specs.Spelling.{board_text, half_text, halves_text};

use crate::charges::{behind_charge, charge_in, write_charge};
use crate::codes::{move_code, move_of};
use crate::half_list::HalfList;
use crate::numbers::{behind, byte_at, two_in, write_two};
use crate::packed::PackedHalf;
use crate::stored_game::Half;
use chess_model::Variant;
use memory::NoMemory;
use std::alloc::Global;

/// The most half-moves of a game, which are those of a pair.
const MOST: usize = 2_400;

/// Appends each half-move.
pub(crate) fn write_halves(
    out: &mut Vec<u8>,
    variant: Variant,
    halves: &[PackedHalf],
) -> Result<(), NoMemory>
    ensures { OnOk result (out.new.items ≡ out.old.items ++ halves_text variant halves.now) }
{
    for half in halves {
        write_half(out, variant, &half.unpacked())?;
    }
    Ok(())
}

/// Appends a half-move.
fn write_half(out: &mut Vec<u8>, variant: Variant, half: &Half) -> Result<(), NoMemory>
    ensures { OnOk result (out.new.items ≡ out.old.items ++ half_text variant half.now) }
{
    write_board(out, variant, half.board)?;
    write_two(out, move_code(half.what))?;
    write_charge(out, &half.charge)
}

/// Appends the board of a half-move, where the game is one of a pair.
fn write_board(out: &mut Vec<u8>, variant: Variant, board: u8) -> Result<(), NoMemory>
    ensures { OnOk result (out.new.items ≡ out.old.items ++ board_text variant board) }
{
    match variant {
        Variant::Chess => Ok(()),
        Variant::Crazyhouse => Ok(()),
        Variant::Fischer(_) => Ok(()),
        Variant::Bughouse => Ok(out.push(board)?),
    }
}

/// A count, of which no more than 2,400 is taken, and so many half-moves.
pub(crate) fn counted_halves(
    alloc: Global,
    variant: Variant,
    bytes: &[u8],
) -> Result<HalfList, NoMemory>
    ensures value { IfOk result (λ halves. halves ≡ counted_halves variant bytes.now) }
    ensures squares { IfOk result (λ halves. AllByRecursion (λ h. AreSquares h.what) halves) }
{
    let count = usize::from(two_in(bytes)).min(MOST);
    halves_in(alloc, variant, count, behind(bytes, 2))
}

/// So many half-moves.
#[tactic(auto, using(crate::proofs::HalvesBack::each_half, std::proofs::lemmas::Grind::common_steps))]
fn halves_in(
    alloc: Global,
    variant: Variant,
    count: usize,
    bytes: &[u8],
) -> Result<HalfList, NoMemory>
    ensures value { IfOk result (λ halves. halves ≡ halves_in variant count bytes.now) }
    ensures squares { IfOk result (λ halves. AllByRecursion (λ h. AreSquares h.what) halves) }
{
    let mut halves = HalfList::with_room(alloc, count)?;
    let mut rest = bytes;
    for _place in 0..count {
        push_half(&mut halves, variant, rest)?;
        rest = behind_half(variant, rest);
    }
    Ok(halves)
}

/// Puts the half-move that the bytes begin with behind the others.
fn push_half(halves: &mut HalfList, variant: Variant, bytes: &[u8]) -> Result<(), NoMemory>
    ensures { OnOk result (halves.new ≡ halves.old ++ half_in variant bytes.now ∷ []) }
{
    let board = board_in(variant, bytes);
    let text = behind_board(variant, bytes);
    let what = move_of(two_in(text));
    let charge = charge_in(behind(text, 2));
    halves.push(Half {
        board,
        what,
        charge,
    })?;
    Ok(())
}

/// The bytes behind the first half-move.
fn behind_half(variant: Variant, bytes: &[u8]) -> &[u8]
    ensures { result.now ≡ behind_half variant bytes.now }
{
    behind_charge(behind(behind_board(variant, bytes), 2))
}

/// The board of the first half-move: 1, where the game is none of a pair.
fn board_in(variant: Variant, bytes: &[u8]) -> u8
    ensures { result ≡ board_in variant bytes.now }
{
    match variant {
        Variant::Chess => 1,
        Variant::Crazyhouse => 1,
        Variant::Fischer(_) => 1,
        Variant::Bughouse => byte_at(bytes, 0),
    }
}

/// The bytes behind the board of the first half-move.
fn behind_board(variant: Variant, bytes: &[u8]) -> &[u8]
    ensures { result.now ≡ behind_board variant bytes.now }
{
    match variant {
        Variant::Chess => bytes,
        Variant::Crazyhouse => bytes,
        Variant::Fischer(_) => bytes,
        Variant::Bughouse => behind(bytes, 1),
    }
}
