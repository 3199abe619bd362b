//! What a position is worth where nothing is looked ahead.
ghost use Rattle.std.specs.Prelude.{◌≡◌, ◌≤◌, IfSome, IfNone};
ghost use Rattle.house_bot.specs.Value.{hand_worth, hand_material, material, balance, end_value, value};
ghost use Rattle.house_bot.specs.Searching.{IsOver, SearchGoesOn};

use chess_model::{Colour, Hand, State, Variant, material_of};
use holdings_drops::Holdings;
use variant_rules::Position;

/// What a mate counts for, the half-moves left aside.
const MATE: i32 = 100_000;

/// What the men in a hand count for: pawn 1, knight and bishop 3, rook 5, queen 9.
fn hand_worth(hand: Hand) -> u64
    ensures worth { result ≡ hand_worth hand }
    ensures most { result ≤ 5355 }
{
    u64::from(hand.pawns)
        + 3 * u64::from(hand.knights)
        + 3 * u64::from(hand.bishops)
        + 5 * u64::from(hand.rooks)
        + 9 * u64::from(hand.queens)
}

/// What a hand adds to the material: in crazyhouse what its men count for.
fn hand_material(variant: Variant, hand: Holdings) -> u64
    ensures worth { result ≡ hand_material variant hand }
    ensures most { result ≤ 5355 }
{
    match variant {
        Variant::Crazyhouse => hand_worth(hand.hand()),
        _ => 0,
    }
}

/// The material of a colour, on the board and in hand.
fn material(p: &Position, colour: Colour) -> u64
    ensures worth { result ≡ material p.now colour }
    ensures most { result ≤ 5931 }
{
    material_of(colour, p.men()) + hand_material(p.variant(), p.hand(colour))
}

/// The material of the player to move less that of the other.
fn balance(p: &Position) -> i32
    ensures { result ≡ balance p.now }
{
    let own = material(p, p.to_move());
    let other = material(p, p.to_move().opposite());
    own as i32 - other as i32
}

/// What a game that has ended is worth to the player to move, with `depth` half-moves left; none where it goes on.
fn end_value(state: State, depth: u8) -> Option<i32>
    ensures { result ≡ end_value state depth }
{
    match state {
        State::Mate => Some(-(MATE + i32::from(depth))),
        State::Stalemate => Some(0),
        State::Check => None,
        State::Safe => None,
    }
}

/// The value of a position in which the game has ended, or where no half-move is left to look at.
pub(crate) fn settled(p: &Position, depth: u8) -> Option<i32>
    ensures settled { IfSome result (λ worth. worth ≡ value depth p.now) }
    ensures over { IfSome result (λ worth. IsOver depth p.now) }
    ensures open { IfNone result (SearchGoesOn depth p.now) }
{
    if let Some(worth) = end_value(p.state(), depth) {
        return Some(worth);
    }
    if depth > 0 {
        return None;
    }
    Some(balance(p))
}
