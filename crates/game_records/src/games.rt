//! Games in records.
ghost use Rattle.std.specs.Prelude.{◌≡◌, ◌++◌, ◌<◌, ◌^◌, IfOk, IfSome, IfNone, OnOk, length};
ghost use Rattle.std.specs.List.{AllByRecursion};
ghost use Rattle.fics_words.specs.Handle.{IsHandle};
ghost use Rattle.game_records.specs.Bounds.{AreSquares, seats};
ghost use Rattle.game_records.specs.Reading.{variant_in, behind_variant, game_behind, game_in};
ghost use Rattle.game_records.specs.Spelling.{variant_text, game_text};

use crate::bounds::seats;
use crate::bytes::write_bytes;
use crate::halves::{counted_halves, write_halves};
use crate::names::{behind_names, names_in, write_names};
use crate::numbers::{behind, byte_at, two_in, write_two};
use crate::stored_game::StoredGame;
use chess_model::{Terms, Variant};
use memory::NoMemory;
use std::alloc::Global;

/// What the record of a game of a pair begins with.
const PAIR: u8 = 2;

/// What the record of a game of Fischer random begins with.
const FISCHER: u8 = 3;

/// Appends the game.
pub(crate) fn write_game(out: &mut Vec<u8>, game: &StoredGame) -> Result<(), NoMemory>
    requires { length game.now.halves < 2 ^ 16 }
    ensures { OnOk result (out.new.items ≡ out.old.items ++ game_text game.now) }
{
    write_variant(out, game.terms.variant)?;
    write_two(out, game.terms.minutes)?;
    write_two(out, game.terms.increment)?;
    write_names(out, game.names.as_slice())?;
    write_two(out, game.halves.len() as u16)?;
    write_halves(out, game.terms.variant, game.halves.as_slice())
}

/// Appends how a game of the variant begins.
fn write_variant(out: &mut Vec<u8>, variant: Variant) -> Result<(), NoMemory>
    ensures { OnOk result (out.new.items ≡ out.old.items ++ variant_text variant) }
{
    match variant {
        Variant::Chess => write_bytes(out, b"\x01\x47\x00"),
        Variant::Crazyhouse => write_bytes(out, b"\x01\x47\x01"),
        Variant::Bughouse => write_bytes(out, b"\x02\x47\x02"),
        Variant::Fischer(number) => {
            write_bytes(out, b"\x03\x47")?;
            write_two(out, number)
        }
    }
}

/// The game that the bytes may be the record of, where names are handles.
pub(crate) fn game_in(alloc: Global, bytes: &[u8]) -> Result<Option<StoredGame>, NoMemory>
    ensures value { IfOk result (λ read. IfSome read (λ game. game ≡ game_in bytes.now)) }
    ensures handles { IfOk result (λ read. IfSome read (λ game. AllByRecursion IsHandle game.names)) }
    ensures squares { IfOk result (λ read. IfSome read (λ game. AllByRecursion (λ h. AreSquares h.what) game.halves)) }
    ensures none { IfOk result (λ read. IfNone read (AllByRecursion IsHandle (game_in bytes.now).names → ⊥)) }
{
    game_behind(alloc, variant_in(bytes), behind_variant(bytes))
}

/// The game whose variant has been read.
fn game_behind(
    alloc: Global,
    variant: Variant,
    bytes: &[u8],
) -> Result<Option<StoredGame>, NoMemory>
    ensures value { IfOk result (λ read. IfSome read (λ game. game ≡ game_behind variant bytes.now)) }
    ensures handles { IfOk result (λ read. IfSome read (λ game. AllByRecursion IsHandle game.names)) }
    ensures squares { IfOk result (λ read. IfSome read (λ game. AllByRecursion (λ h. AreSquares h.what) game.halves)) }
    ensures none { IfOk result (λ read. IfNone read (AllByRecursion IsHandle (game_behind variant bytes.now).names
        → ⊥)) }
{
    let players = behind(bytes, 4);
    let Some(names) = names_in(alloc, seats(variant), players)? else {
        return Ok(None);
    };
    let halves = counted_halves(alloc, variant, behind_names(seats(variant), players))?;
    Ok(Some(StoredGame {
        terms: terms_in(variant, bytes),
        names,
        halves,
    }))
}

/// Minutes and increment.
fn terms_in(variant: Variant, bytes: &[u8]) -> Terms
    ensures { result ≡ (game_behind variant bytes.now).terms }
{
    Terms {
        minutes: two_in(bytes),
        increment: two_in(behind(bytes, 2)),
        variant,
        colour: None,
    }
}

/// The variant, by the first byte and what stands behind the second.
fn variant_in(bytes: &[u8]) -> Variant
    ensures { result ≡ variant_in bytes.now }
{
    if byte_at(bytes, 0) == FISCHER {
        return Variant::Fischer(two_in(behind(bytes, 2)));
    }
    if byte_at(bytes, 0) == PAIR {
        return Variant::Bughouse;
    }
    if byte_at(bytes, 2) == 1 {
        return Variant::Crazyhouse;
    }
    Variant::Chess
}

/// The bytes behind the variant.
fn behind_variant(bytes: &[u8]) -> &[u8]
    ensures { result.now ≡ behind_variant bytes.now }
{
    if byte_at(bytes, 0) == FISCHER {
        behind(bytes, 4)
    } else {
        behind(bytes, 3)
    }
}
