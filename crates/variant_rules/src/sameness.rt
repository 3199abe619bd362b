//! Whether two positions are the same, as the claim of a position that stands for the third time asks (FIDE Laws,
//! 9.2.3): the men on the squares, marks of promotion aside, who is to move, the castling rights, and the en passant
//! square, which counts only where a capture on it is allowed.
ghost use Rattle.std.specs.Prelude.{◌≡◌};
ghost use Rattle.std.specs.List.{list_any};
ghost use Rattle.chess_model.specs.Claims.{same_man, same_placement, same_rights, same_square, may_pass, counted_en_passant, same_position};
ghost use Rattle.chess_model.specs.MoveList.{is_en_passant};
ghost use Rattle.chess_model.specs.Tests.{squares};

use crate::position::Position;
use bitboard_core::square_of;
use chess_model::{Kind, Man, Move, Rights, Square};

/// Whether two squares hold the same, marks of promotion aside.
fn is_same_man(a: Option<Man>, b: Option<Man>) -> bool
    ensures { result ≡ same_man a b }
{
    match (a, b) {
        (None, None) => true,
        (None, Some(_)) => false,
        (Some(_), None) => false,
        (Some(m), Some(n)) => m.colour.is_same(n.colour) && m.kind.is_same(n.kind),
    }
}

/// Whether all squares hold the same, marks of promotion aside.
fn is_same_placement(p: &Position, q: &Position) -> bool
    ensures { result ≡ same_placement p.now.men q.now.men }
{
    for n in 0..64 {
        let square = square_of(n);
        if !is_same_man(p.man(square), q.man(square)) {
            return false;
        }
    }
    true
}

fn is_same_rights(r: Rights, s: Rights) -> bool
    ensures { result ≡ same_rights r s }
{
    r.white_short == s.white_short
        && r.white_long == s.white_long
        && r.black_short == s.black_short
        && r.black_long == s.black_long
}

fn is_same_square(a: Option<Square>, b: Option<Square>) -> bool
    ensures { result ≡ same_square a b }
{
    match (a, b) {
        (None, None) => true,
        (None, Some(_)) => false,
        (Some(_), None) => false,
        (Some(s), Some(t)) => s.number() == t.number(),
    }
}

/// Whether a man on `from` that goes to `to` is a pawn that takes en passant.
fn is_en_passant(p: &Position, from: Square, to: Square) -> bool
    ensures { result ≡ is_en_passant p.now.men from to }
{
    match p.man(from) {
        Some(man) => {
            man.kind.is_same(Kind::Pawn) && (p.man(to).is_none() && from.file() != to.file())
        }
        None => false,
    }
}

/// Whether a pawn on `from` may take en passant on `to`.
fn may_pass(p: &Position, to: Square, from: Square) -> bool
    ensures { result ≡ may_pass p.now to from }
{
    is_en_passant(p, from, to)
        && p.allowed(Move::Plain {
            from,
            to,
            promo: None,
        })
}

/// Whether some pawn may take en passant on a square.
fn some_may_pass(p: &Position, to: Square) -> bool
    ensures { result ≡ list_any (may_pass p.now to) squares }
{
    for n in 0..64 {
        if may_pass(p, to, square_of(n)) {
            return true;
        }
    }
    false
}

/// The en passant square, where some pawn may take on it.
fn counted_en_passant(p: &Position) -> Option<Square>
    ensures { result ≡ counted_en_passant p.now }
{
    match p.en_passant() {
        Some(square) => {
            if some_may_pass(p, square) {
                Some(square)
            } else {
                None
            }
        }
        None => None,
    }
}

/// Whether two positions are the same, whatever half-moves led to them. Most differ in their men, so these come first.
#[tactic(auto, unfolding(chess_model::specs::Claims::same_position))]
pub fn is_same_position(p: &Position, q: &Position) -> bool
    ensures { result ≡ same_position p.now q.now }
{
    if !is_same_placement(p, q) {
        return false;
    }
    if !p.to_move().is_same(q.to_move()) || !is_same_rights(p.rights(), q.rights()) {
        return false;
    }
    is_same_square(counted_en_passant(p), counted_en_passant(q))
}
