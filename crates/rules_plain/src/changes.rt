//! What a half-move changes on the board.
ghost use Rattle.std.specs.Prelude.{◌≡◌, Option};
ghost use Rattle.chess_model.specs.MoveList.{is_pawn_kind, is_pawn, is_en_passant, taking_square, landed, two_moved, place_after, taken};

use crate::placement::{Men, man_on};
use crate::square::index_of;
use chess_model::{Colour, Kind, Man, Move, Square, Variant};
use rules_answers::{end_of_king, end_of_rook, home_of_king, home_of_rook};

fn is_pawn_of_kind(k: Kind) -> bool
    ensures { result ≡ is_pawn_kind k }
{
    match k {
        Kind::Pawn => true,
        _ => false,
    }
}

/// Whether a pawn stands there.
pub(crate) fn is_a_pawn(man: Option<Man>) -> bool
    ensures { result ≡ is_pawn man }
{
    match man {
        Some(m) => is_pawn_of_kind(m.kind),
        None => false,
    }
}

/// Whether a move from a to b takes en passant: a pawn changes its file to an empty square.
fn takes_en_passant(men: &Men, a: Square, b: Square) -> bool
    ensures { result ≡ is_en_passant men.now a b }
{
    is_a_pawn(man_on(men, a)) && man_on(men, b).is_none() && a.file() != b.file()
}

/// The square on which a move from a to b takes.
fn takes_on(men: &Men, a: Square, b: Square) -> Square
    ensures { result ≡ taking_square men.now a b }
{
    if takes_en_passant(men, a, b) {
        Square::on(b.file(), a.rank())
    } else {
        b
    }
}

/// The man that a half-move takes.
pub(crate) fn taken_by(men: &Men, m: &Move) -> Option<Man>
    ensures { result ≡ taken men.now m.now }
{
    match m {
        Move::Plain { from, to, promo: _ } => man_on(men, takes_on(men, *from, *to)),
        Move::Castle { long: _ } => None,
        Move::Drop { kind: _, to: _ } => None,
    }
}

/// What stands on the target of a move: the man that moved, or what a pawn became.
fn landed_man(man: Option<Man>, promo: Option<Kind>) -> Option<Man>
    ensures { result ≡ landed man promo }
{
    match (man, promo) {
        (Some(m), Some(kind)) => Some(Man {
            colour: m.colour,
            kind,
            promoted: true,
        }),
        (man, _) => man,
    }
}

fn with_plain(men: &Men, a: Square, b: Square, promo: Option<Kind>) -> Men
    ensures { result ≡ place_after Variant.Chess men.now Colour.White (Move.Plain a b promo) }
{
    let mut next = *men;
    next[index_of(takes_on(men, a, b))] = None;
    next[index_of(a)] = None;
    next[index_of(b)] = landed_man(man_on(men, a), promo);
    next
}

/// The men of two squares leave these and go to two others.
fn with_two_moved(men: &Men, a: Square, b: Square, x: Square, y: Square) -> Men
    ensures { result ≡ two_moved men.now a b x y }
{
    let mut next = *men;
    next[index_of(a)] = None;
    next[index_of(b)] = None;
    next[index_of(x)] = man_on(men, a);
    next[index_of(y)] = man_on(men, b);
    next
}

fn with_drop(men: &Men, c: Colour, kind: Kind, to: Square) -> Men
    ensures { result ≡ place_after Variant.Chess men.now c (Move.Drop kind to) }
{
    let mut next = *men;
    next[index_of(to)] = Some(Man {
        colour: c,
        kind,
        promoted: false,
    });
    next
}

/// The placement after a half-move of that colour.
pub(crate) fn with_move(men: &Men, v: Variant, c: Colour, m: &Move) -> Men
    ensures { result ≡ place_after v men.now c m.now }
{
    match m {
        Move::Plain { from, to, promo } => with_plain(men, *from, *to, *promo),
        Move::Castle { long } => with_two_moved(
            men,
            home_of_king(v, c),
            home_of_rook(v, c, *long),
            end_of_king(c, *long),
            end_of_rook(c, *long),
        ),
        Move::Drop { kind, to } => with_drop(men, c, *kind, *to),
    }
}
