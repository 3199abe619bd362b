//! The men in hand after a half-move.
ghost use Rattle.std.specs.Prelude.{◌≡◌, ◌+◌, ◌-◌, ◌<◌, ◌&&◌, cond};
ghost use Rattle.chess_model.specs.Holdings.{same_colour, same_kind, handed_kind, hands_over, is_drop_of, count_in, hand_of};
ghost use Rattle.chess_model.specs.Next.{gain, next_hand};
ghost use Rattle.chess_model.specs.Census.{men_in};

use crate::changes::taken_by;
use crate::placement::Men;
use chess_model::{Colour, Hand, Kind, Man, Move, Variant};

/// One man more; a king is dropped from the count.
fn with_one_more(hand: Hand, k: Kind) -> Hand
    requires { men_in hand < 255 }
    ensures { result ≡ hand_of (λ j. count_in hand j + cond (same_kind k j) 1 0) }
{
    let mut more = hand;
    match k {
        Kind::Pawn => more.pawns += 1,
        Kind::Knight => more.knights += 1,
        Kind::Bishop => more.bishops += 1,
        Kind::Rook => more.rooks += 1,
        Kind::Queen => more.queens += 1,
        Kind::King => {}
    }
    more
}

/// One man less, where there is one.
fn with_one_less(hand: Hand, k: Kind) -> Hand
    ensures { result ≡ hand_of (λ j. count_in hand j - cond (same_kind k j) 1 0) }
{
    let mut less = hand;
    match k {
        Kind::Pawn => less.pawns = hand.pawns.saturating_sub(1),
        Kind::Knight => less.knights = hand.knights.saturating_sub(1),
        Kind::Bishop => less.bishops = hand.bishops.saturating_sub(1),
        Kind::Rook => less.rooks = hand.rooks.saturating_sub(1),
        Kind::Queen => less.queens = hand.queens.saturating_sub(1),
        Kind::King => {}
    }
    less
}

/// The kind as which a captured man is handed over: a promoted one is a pawn again.
fn handed_over_as(m: Man) -> Kind
    ensures { result ≡ handed_kind m }
{
    if m.promoted { Kind::Pawn } else { m.kind }
}

/// The hand of the capturing colour in crazyhouse.
fn with_capture(hand: Hand, taken_man: Option<Man>) -> Hand
    requires { men_in hand < 255 }
    ensures { result ≡ hand_of (λ k. count_in hand k + cond (hands_over k taken_man) 1 0) }
{
    match taken_man {
        Some(m) => with_one_more(hand, handed_over_as(m)),
        None => hand,
    }
}

/// The hand of c after a half-move of the colour `by`, what it takes counted.
fn with_gain(v: Variant, hand: Hand, c: Colour, men: &Men, by: Colour, m: &Move) -> Hand
    requires { men_in hand < 255 }
    ensures { result ≡ hand_of (λ k. count_in hand k + gain v c k
        (record { before = men.now; by = by; what = m.now })) }
{
    match v {
        Variant::Crazyhouse => {
            if by.is_same(c) {
                with_capture(hand, taken_by(men, m))
            } else {
                hand
            }
        }
        Variant::Chess => hand,
        Variant::Bughouse => hand,
        Variant::Fischer(_) => hand,
    }
}

/// The hand of c after a half-move of the colour `by`, what it drops taken off.
fn with_drop_paid(hand: Hand, c: Colour, by: Colour, m: &Move) -> Hand
    ensures { result ≡ hand_of (λ k. count_in hand k - cond (same_colour by c && is_drop_of k m.now) 1 0) }
{
    match m {
        Move::Drop { kind, to: _ } => {
            if by.is_same(c) {
                with_one_less(hand, *kind)
            } else {
                hand
            }
        }
        Move::Plain {
            from: _,
            to: _,
            promo: _,
        } => hand,
        Move::Castle { long: _ } => hand,
    }
}

/// The hand of c after a half-move of the colour `by` on its board.
pub(crate) fn hand_next(v: Variant, hand: Hand, c: Colour, men: &Men, by: Colour, m: &Move) -> Hand
    requires { men_in hand < 255 }
    ensures { result ≡ next_hand v hand c (record { before = men.now; by = by; what = m.now }) }
{
    with_drop_paid(with_gain(v, hand, c, men, by, m), c, by, m)
}
