//! What a half-move changes: men, passed square, quiet count, rights and hands.
ghost use Rattle.std.specs.Prelude.{◌≡◌, ◌+◌, ◌-◌, ◌<◌, ◌&&◌, cond, Option, Some};
ghost use Rattle.chess_model.specs.Placement.{unpromoted};
ghost use Rattle.chess_model.specs.Men.{same_colour};
ghost use Rattle.chess_model.specs.MoveList.{is_pawn_kind, is_pawn, is_en_passant, taking_square, landed, two_moved, place_after, taken};
ghost use Rattle.chess_model.specs.Squares.{ranks_apart};
ghost use Rattle.chess_model.specs.RightsAndCounts.{passed_over, is_quiet, touches, keeps_right};
ghost use Rattle.chess_model.specs.Next.{next_quiet, next_rights, next_hand, gain};
ghost use Rattle.chess_model.specs.Holdings.{handed_kind, hands_over, is_drop_of, count_in, hand_of};
ghost use Rattle.chess_model.specs.Census.{men_in};

use bitboard_core::{Bits, square_of};
use chess_model::{Colour, Kind, Man, Move, Rights, Square, Variant};
use holdings_drops::Holdings;
use rules_answers::{end_of_king, end_of_rook, home_of_king, home_of_rook};

/// Whether a pawn stands there.
pub(crate) fn is_a_pawn(man: Option<Man>) -> bool
    ensures { result ≡ is_pawn man }
{
    match man {
        Some(m) => is_pawn_of_kind(m.kind),
        None => false,
    }
}

pub(crate) fn is_pawn_of_kind(k: Kind) -> bool
    ensures { result ≡ is_pawn_kind k }
{
    match k {
        Kind::Pawn => true,
        _ => false,
    }
}

/// Whether a move from a to b takes en passant: a pawn changes its file to an empty square.
pub(crate) fn takes_en_passant(men: &Bits, a: Square, b: Square) -> bool
    ensures { result ≡ is_en_passant men.now a b }
{
    is_a_pawn(men.man(a)) && men.man(b).is_none() && a.file() != b.file()
}

/// The square on which a move from a to b takes.
pub(crate) fn takes_on(men: &Bits, a: Square, b: Square) -> Square
    ensures { result ≡ taking_square men.now a b }
{
    if takes_en_passant(men, a, b) {
        Square::on(b.file(), a.rank())
    } else {
        b
    }
}

/// The man that a half-move takes.
pub(crate) fn taken_by(men: &Bits, m: &Move) -> Option<Man>
    ensures { result ≡ taken men.now m.now }
{
    match m {
        Move::Plain { from, to, promo: _ } => men.man(takes_on(men, *from, *to)),
        Move::Castle { long: _ } => None,
        Move::Drop { kind: _, to: _ } => None,
    }
}

/// What stands on the target of a move: the man that moved, or what a pawn became.
pub(crate) fn landed_man(man: Option<Man>, promo: Option<Kind>) -> Option<Man>
    ensures { result ≡ landed man promo }
{
    match (man, promo) {
        (Some(m), Some(kind)) => Some(Man {
            colour: m.colour,
            kind,
            promoted: true,
        }),
        (man, _) => man,
    }
}

fn move_man(men: &mut Bits, a: Square, b: Square, promo: Option<Kind>)
    ensures { men.new ≡ place_after Variant.Chess men.old Colour.White (Move.Plain a b promo) }
{
    let man = landed_man(men.man(a), promo);
    let square = takes_on(men, a, b);
    men.place(square, None);
    men.place(a, None);
    men.place(b, man);
}

/// The men of two squares leave these and go to two others.
fn move_two(men: &mut Bits, a: Square, b: Square, x: Square, y: Square)
    ensures { men.new ≡ two_moved men.old a b x y }
{
    let first = men.man(a);
    let second = men.man(b);
    men.place(a, None);
    men.place(b, None);
    men.place(x, first);
    men.place(y, second);
}

pub(crate) fn unpromoted_man(colour: Colour, kind: Kind) -> Man
    ensures { Some result ≡ unpromoted colour kind }
{
    Man {
        colour,
        kind,
        promoted: false,
    }
}

fn put_man(men: &mut Bits, c: Colour, kind: Kind, to: Square)
    ensures { men.new ≡ place_after Variant.Chess men.old c (Move.Drop kind to) }
{
    men.place(to, Some(unpromoted_man(c, kind)));
}

/// The placement becomes that after a half-move of that colour.
pub(crate) fn change_men(men: &mut Bits, v: Variant, c: Colour, m: &Move)
    ensures { men.new ≡ place_after v men.old c m.now }
{
    match m {
        Move::Plain { from, to, promo } => move_man(men, *from, *to, *promo),
        Move::Castle { long } => move_two(
            men,
            home_of_king(v, c),
            home_of_rook(v, c, *long),
            end_of_king(c, *long),
            end_of_rook(c, *long),
        ),
        Move::Drop { kind, to } => put_man(men, c, *kind, *to),
    }
}

fn ranks_between(a: Square, b: Square) -> u8
    ensures { result ≡ ranks_apart a b }
{
    a.rank().abs_diff(b.rank())
}

/// The square that a half-move passes over, where it is a double push of a pawn.
pub(crate) fn passed_square(men: &Bits, m: &Move) -> Option<Square>
    ensures { result ≡ passed_over men.now m.now }
{
    match m {
        Move::Plain { from, to, promo: _ } => {
            if is_a_pawn(men.man(*from)) && ranks_between(*from, *to) == 2 {
                Some(square_of((from.number() + to.number()) / 2))
            } else {
                None
            }
        }
        Move::Castle { long: _ } => None,
        Move::Drop { kind: _, to: _ } => None,
    }
}

/// Whether a half-move is neither a pawn's, nor a capture, nor a drop.
fn is_quiet_move(men: &Bits, m: &Move) -> bool
    ensures { result ≡ is_quiet men.now m.now }
{
    match m {
        Move::Plain {
            from,
            to: _,
            promo: _,
        } => { !is_a_pawn(men.man(*from)) && taken_by(men, m).is_none() }
        Move::Castle { long: _ } => true,
        Move::Drop { kind: _, to: _ } => false,
    }
}

/// The quiet count after a half-move; it stays at 65,535.
pub(crate) fn quiet_after(men: &Bits, quiet: u16, m: &Move) -> u16
    ensures { result ≡ next_quiet men.now quiet m.now }
{
    if is_quiet_move(men, m) {
        quiet.saturating_add(1)
    } else {
        0
    }
}

/// Whether a half-move of the colour `by` leaves or reaches the square s; castling leaves the king's home.
fn touches_square(v: Variant, by: Colour, m: &Move, s: Square) -> bool
    ensures { result ≡ touches v by m.now s }
{
    match m {
        Move::Plain { from, to, promo: _ } => *from == s || *to == s,
        Move::Castle { long: _ } => home_of_king(v, by) == s,
        Move::Drop { kind: _, to } => *to == s,
    }
}

/// Whether a half-move leaves the homes of that colour's king and rook alone.
fn keeps_right_of(v: Variant, c: Colour, long: bool, by: Colour, m: &Move) -> bool
    ensures { result ≡ keeps_right v c long by m.now }
{
    !touches_square(v, by, m, home_of_king(v, c))
        && !touches_square(v, by, m, home_of_rook(v, c, long))
}

/// What is left of the rights after a half-move of the colour `by`.
pub(crate) fn rights_left(v: Variant, rights: Rights, by: Colour, m: &Move) -> Rights
    ensures { result ≡ next_rights v rights by m.now }
{
    let white_short = rights.white_short && keeps_right_of(v, Colour::White, false, by, m);
    let white_long = rights.white_long && keeps_right_of(v, Colour::White, true, by, m);
    let black_short = rights.black_short && keeps_right_of(v, Colour::Black, false, by, m);
    let black_long = rights.black_long && keeps_right_of(v, Colour::Black, true, by, m);
    Rights {
        white_short,
        white_long,
        black_short,
        black_long,
    }
}

/// The kind as which a captured man is handed over: a promoted one is a pawn again.
fn handed_over_as(m: Man) -> Kind
    ensures { result ≡ handed_kind m }
{
    if m.promoted { Kind::Pawn } else { m.kind }
}

/// The hand of the capturing colour in crazyhouse.
fn with_capture(hand: Holdings, taken_man: Option<Man>) -> Holdings
    requires { men_in hand < 255 }
    ensures { result ≡ hand_of (λ k. count_in hand k + cond (hands_over k taken_man) 1 0) }
{
    match taken_man {
        Some(m) => hand.with_one_more(handed_over_as(m)),
        None => hand,
    }
}

/// The hand of c after a half-move of the colour `by`, what it takes counted.
fn with_gain(v: Variant, hand: Holdings, c: Colour, men: &Bits, by: Colour, m: &Move) -> Holdings
    requires { v ≡ Variant.Crazyhouse → men_in hand < 255 }
    ensures { result ≡ hand_of (λ k. count_in hand k
        + gain v c k (record { before = men.now; by = by; what = m.now })) }
{
    match v {
        Variant::Crazyhouse => {
            if by.is_same(c) {
                with_capture(hand, taken_by(men, m))
            } else {
                hand
            }
        }
        Variant::Chess => hand,
        Variant::Bughouse => hand,
        Variant::Fischer(_) => hand,
    }
}

/// The hand of c after a half-move of the colour `by`, what it drops taken off.
fn with_drop_paid(hand: Holdings, c: Colour, by: Colour, m: &Move) -> Holdings
    ensures { result ≡ hand_of (λ k. count_in hand k - cond (same_colour by c && is_drop_of k m.now) 1 0) }
{
    match m {
        Move::Drop { kind, to: _ } => {
            if by.is_same(c) {
                hand.with_one_less(*kind)
            } else {
                hand
            }
        }
        Move::Plain {
            from: _,
            to: _,
            promo: _,
        } => hand,
        Move::Castle { long: _ } => hand,
    }
}

/// The hand of c after a half-move of the colour `by` on its board.
pub(crate) fn hand_next(
    v: Variant,
    hand: Holdings,
    c: Colour,
    men: &Bits,
    by: Colour,
    m: &Move,
) -> Holdings
    requires { v ≡ Variant.Crazyhouse → men_in hand < 255 }
    ensures { result ≡ next_hand v hand c (record { before = men.now; by = by; what = m.now }) }
{
    with_drop_paid(with_gain(v, hand, c, men, by, m), c, by, m)
}
