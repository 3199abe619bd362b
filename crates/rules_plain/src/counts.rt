//! The square passed by a double push, and the quiet count.
ghost use Rattle.std.specs.Prelude.{◌≡◌};
ghost use Rattle.chess_model.specs.RightsAndCounts.{passed_over, is_quiet};
ghost use Rattle.chess_model.specs.Next.{next_quiet};

use crate::changes::{is_a_pawn, taken_by};
use crate::placement::{Men, man_on};
use crate::square::{numbered, ranks_between};
use chess_model::{Move, Square};

/// The square that a half-move passes over, where it is a double push of a pawn.
pub(crate) fn passed_square(men: &Men, m: &Move) -> Option<Square>
    ensures { result ≡ passed_over men.now m.now }
{
    match m {
        Move::Plain { from, to, promo: _ } => {
            if is_a_pawn(man_on(men, *from)) && ranks_between(*from, *to) == 2 {
                Some(numbered((from.number() + to.number()) / 2))
            } else {
                None
            }
        }
        Move::Castle { long: _ } => None,
        Move::Drop { kind: _, to: _ } => None,
    }
}

/// Whether a half-move is neither a pawn's, nor a capture, nor a drop.
fn is_quiet_move(men: &Men, m: &Move) -> bool
    ensures { result ≡ is_quiet men.now m.now }
{
    match m {
        Move::Plain {
            from,
            to: _,
            promo: _,
        } => { !is_a_pawn(man_on(men, *from)) && taken_by(men, m).is_none() }
        Move::Castle { long: _ } => true,
        Move::Drop { kind: _, to: _ } => false,
    }
}

/// The quiet count after a half-move; it stays at 65,535.
pub(crate) fn quiet_after(men: &Men, quiet: u16, m: &Move) -> u16
    ensures { result ≡ next_quiet men.now quiet m.now }
{
    if is_quiet_move(men, m) {
        quiet.saturating_add(1)
    } else {
        0
    }
}
