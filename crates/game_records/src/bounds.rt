//! Which games have a record.
ghost use Rattle.std.specs.Prelude.{◌≡◌, ◌≤◌, ◌↔◌, IsTrue};
ghost use Rattle.std.specs.List.{AllByRecursion};
ghost use Rattle.chess_model.specs.VariantWord.{IsNumbered};
ghost use Rattle.game_records.specs.Bounds.{AreHalves, AreStoredTerms, IsGame, IsHalf, boards, count_on_board, seats};

use crate::charges::is_charge;
use crate::codes::has_code;
use crate::packed::PackedHalf;
use crate::stored_game::{Half, StoredGame};
use chess_model::{ARRAYS, MOST_HALVES, MOST_TIME, Terms, Variant};

/// How many players a game of the variant has.
pub(crate) fn seats(variant: Variant) -> usize
    ensures value { result ≡ seats variant }
    ensures few { result ≤ 4 }
{
    2 * usize::from(boards(variant))
}

/// How many boards a game of the variant is played on.
fn boards(variant: Variant) -> u8
    ensures value { result ≡ boards variant }
    ensures few { result ≤ 2 }
{
    match variant {
        Variant::Chess => 1,
        Variant::Crazyhouse => 1,
        Variant::Fischer(_) => 1,
        Variant::Bughouse => 2,
    }
}

/// Whether the game has a record: its terms, players and half-moves keep the bounds of the format.
pub fn is_game(game: &StoredGame) -> bool
    ensures { IsTrue result ↔ IsGame game.now }
{
    are_stored_terms(&game.terms)
        && game.names.len() == seats(game.terms.variant)
        && are_halves(game.terms.variant, game.halves.as_slice())
}

/// Whether a stored game can have these terms.
fn are_stored_terms(terms: &Terms) -> bool
    ensures { IsTrue result ↔ AreStoredTerms terms.now }
{
    terms.minutes <= MOST_TIME
        && terms.increment <= MOST_TIME
        && is_numbered(terms.variant)
        && terms.colour.is_none()
}

/// Whether there is such an array.
fn is_numbered(variant: Variant) -> bool
    ensures { IsTrue result ↔ IsNumbered variant }
{
    match variant {
        Variant::Chess => true,
        Variant::Crazyhouse => true,
        Variant::Bughouse => true,
        Variant::Fischer(number) => number < ARRAYS,
    }
}

/// Whether a stored game can have these half-moves.
fn are_halves(variant: Variant, halves: &[PackedHalf]) -> bool
    ensures { IsTrue result ↔ AreHalves variant halves.now }
{
    halves.len() <= MOST_HALVES * usize::from(boards(variant))
        && count_on(1, halves) <= MOST_HALVES
        && count_on(2, halves) <= MOST_HALVES
        && each_is_half(variant, halves)
}

/// How many of the half-moves are of the board.
fn count_on(board: u8, halves: &[PackedHalf]) -> usize
    ensures { result ≡ count_on_board board halves.now }
{
    halves.iter().filter(|half| half.board() == board).count()
}

/// Whether each is a half-move that a game of the variant can have.
fn each_is_half(variant: Variant, halves: &[PackedHalf]) -> bool
    ensures { IsTrue result ↔ AllByRecursion (IsHalf variant) halves.now }
{
    halves.iter().all(|half| is_half(variant, half))
}

/// Whether a game of the variant can have the half-move.
fn is_half(variant: Variant, half: &PackedHalf) -> bool
    ensures { IsTrue result ↔ IsHalf variant half.now }
{
    let Half {
        board,
        what,
        charge,
    } = half.unpacked();
    1 <= board && board <= boards(variant) && has_code(what) && is_charge(&charge)
}
