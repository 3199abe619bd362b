//! Whether two half-moves are the same, their charges too.
ghost use Rattle.std.specs.Prelude.{◌≡◌};
ghost use Rattle.examine_board.specs.Same.{same_charge, same_half, same_move, same_promotion, same_spent, same_stamps};

use chess_model::{Kind, Move, Square};
use clock_ledger::Charge;
use game_records::Half;

/// Whether two half-moves are the same: the board, what was moved, and the charge.
pub(crate) fn is_same_half(one: &Half, other: &Half) -> bool
    ensures { result ≡ same_half one.now other.now }
{
    one.board == other.board
        && is_same_move(&one.what, &other.what)
        && is_same_charge(&one.charge, &other.charge)
}

fn is_same_move(one: &Move, other: &Move) -> bool
    ensures { result ≡ same_move one.now other.now }
{
    match one {
        Move::Plain { from, to, promo } => is_plain(*from, *to, *promo, other),
        Move::Castle { long } => is_castling(*long, other),
        Move::Drop { kind, to } => is_drop(*kind, *to, other),
    }
}

/// Whether a half-move goes from the one square to the other, and becomes that.
fn is_plain(from: Square, to: Square, promo: Option<Kind>, what: &Move) -> bool
    ensures { result ≡ same_move (Move.Plain from to promo) what.now }
{
    match what {
        Move::Plain {
            from: start,
            to: end,
            promo: becomes,
        } => {
            from.number() == start.number()
                && to.number() == end.number()
                && is_same_promotion(promo, *becomes)
        }
        Move::Castle { .. } => false,
        Move::Drop { .. } => false,
    }
}

/// Whether a half-move is that castling.
fn is_castling(long: bool, what: &Move) -> bool
    ensures { result ≡ same_move (Move.Castle long) what.now }
{
    match what {
        Move::Plain { .. } => false,
        Move::Castle { long: other } => long == *other,
        Move::Drop { .. } => false,
    }
}

/// Whether a half-move drops such a man on that square.
fn is_drop(kind: Kind, to: Square, what: &Move) -> bool
    ensures { result ≡ same_move (Move.Drop kind to) what.now }
{
    match what {
        Move::Plain { .. } => false,
        Move::Castle { .. } => false,
        Move::Drop { kind: man, to: end } => { kind.is_same(*man) && to.number() == end.number() }
    }
}

fn is_same_promotion(one: Option<Kind>, other: Option<Kind>) -> bool
    ensures { result ≡ same_promotion one other }
{
    match (one, other) {
        (None, None) => true,
        (Some(kind), Some(man)) => kind.is_same(man),
        _ => false,
    }
}

fn is_same_charge(one: &Option<Charge>, other: &Option<Charge>) -> bool
    ensures { result ≡ same_charge one.now other.now }
{
    match (one, other) {
        (None, None) => true,
        (Some(charge), Some(spent)) => is_same_spent(charge, spent),
        _ => false,
    }
}

fn is_same_spent(one: &Charge, other: &Charge) -> bool
    ensures { result ≡ same_spent one.now other.now }
{
    one.begin == other.begin && one.end == other.end && is_same_stamps(one.client, other.client)
}

fn is_same_stamps(one: Option<(u32, u32)>, other: Option<(u32, u32)>) -> bool
    ensures { result ≡ same_stamps one other }
{
    match (one, other) {
        (None, None) => true,
        (Some((seen, made)), Some((begin, end))) => seen == begin && made == end,
        _ => false,
    }
}
