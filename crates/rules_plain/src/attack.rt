//! Which squares a colour attacks.
ghost use Rattle.std.specs.Prelude.{◌↔◌, IsTrue};
ghost use Rattle.chess_model.specs.Attacked.{StrikesFrom, IsAttacked, IsInCheckOn, IsKingSafe};

use crate::placement::{Men, man_on};
use crate::reach::strikes;
use crate::square::numbered;
use chess_model::{Colour, Kind, Square};
use rules_answers::is_held_as_kind;

/// Whether a man of that colour stands on a and strikes s.
fn strikes_from(men: &Men, c: Colour, a: Square, s: Square) -> bool
    ensures { IsTrue result ↔ StrikesFrom men.now c a s }
{
    match man_on(men, a) {
        Some(m) => m.colour == c && strikes(men, c, m.kind, a, s),
        None => false,
    }
}

/// Whether some man of that colour strikes s.
#[tactic(auto, unfolding(chess_model::specs::Attacked::IsAttacked))]
pub(crate) fn is_attacked(men: &Men, c: Colour, s: Square) -> bool
    ensures { IsTrue result ↔ IsAttacked men.now c s }
{
    for a in 0..64 {
        if strikes_from(men, c, numbered(a), s) {
            return true;
        }
    }
    false
}

/// Whether a king of that colour stands on s under attack.
fn is_in_check_on(men: &Men, c: Colour, s: Square) -> bool
    ensures { IsTrue result ↔ IsInCheckOn men.now c s }
{
    is_held_as_kind(c, Kind::King, man_on(men, s)) && is_attacked(men, c.opposite(), s)
}

/// Whether no king of that colour stands on an attacked square.
pub(crate) fn is_king_safe(men: &Men, c: Colour) -> bool
    ensures { IsTrue result ↔ IsKingSafe men.now c }
{
    for s in 0..64 {
        if is_in_check_on(men, c, numbered(s)) {
            return false;
        }
    }
    true
}
