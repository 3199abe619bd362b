//! The codes of half-moves.
ghost use Rattle.std.specs.Prelude.{◌≡◌, ◌<◌, ◌↔◌, ◌%◌, IsTrue};
ghost use Rattle.game_records.specs.Codes.{HasCode, MayBecome, MayBeDropped, promotion_code, kind_code, move_code};
ghost use Rattle.game_records.specs.Reading.{move_of, promotion_numbered, kind_of};

use chess_model::{Kind, Move, Square};

/// The code of castling short; that of castling long is the next.
const CASTLE: u16 = 0x8000;

/// The first code of a drop.
const DROP: u16 = 0x8100;

/// The code of a half-move.
pub(crate) fn move_code(what: Move) -> u16
    ensures { result ≡ move_code what }
{
    match what {
        Move::Plain { from, to, promo } => {
            u16::from(from.number()) * 512 + u16::from(to.number()) * 8 + promotion_code(promo)
        }
        Move::Castle { long } => CASTLE + u16::from(long),
        Move::Drop { kind, to } => DROP + kind_code(kind) * 64 + u16::from(to.number()),
    }
}

/// The half-move of a code.
#[tactic(auto, unfolding(crate::specs::Reading::move_of))]
pub(crate) fn move_of(code: u16) -> Move
    ensures { result ≡ move_of code }
{
    if code < CASTLE {
        return Move::Plain {
            from: square_of(code / 512),
            to: square_of(code / 8),
            promo: promotion_of(code % 8),
        };
    }
    if code < DROP {
        return Move::Castle {
            long: code == CASTLE + 1,
        };
    }
    let drop = code - DROP;
    Move::Drop {
        kind: kind_of(drop / 64),
        to: square_of(drop),
    }
}

/// Whether a half-move has a code.
pub(crate) fn has_code(what: Move) -> bool
    ensures { IsTrue result ↔ HasCode what }
{
    match what {
        Move::Plain { promo, .. } => may_become(promo),
        Move::Castle { .. } => true,
        Move::Drop { kind, .. } => may_be_dropped(kind),
    }
}

/// The square of the last six bits.
fn square_of(number: u16) -> Square
    ensures { result ≡ number % 64 }
{
    Square::on((number % 8) as u8, (number / 8 % 8) as u8)
}

fn may_become(promo: Option<Kind>) -> bool
    ensures { IsTrue result ↔ MayBecome promo }
{
    match promo {
        None => true,
        Some(Kind::Pawn) => false,
        Some(Kind::Knight) => true,
        Some(Kind::Bishop) => true,
        Some(Kind::Rook) => true,
        Some(Kind::Queen) => true,
        Some(Kind::King) => false,
    }
}

fn may_be_dropped(kind: Kind) -> bool
    ensures { IsTrue result ↔ MayBeDropped kind }
{
    match kind {
        Kind::Pawn => true,
        Kind::Knight => true,
        Kind::Bishop => true,
        Kind::Rook => true,
        Kind::Queen => true,
        Kind::King => false,
    }
}

fn promotion_code(promo: Option<Kind>) -> u16
    ensures value { result ≡ promotion_code promo }
    ensures small { result < 8 }
{
    match promo {
        None => 0,
        Some(Kind::Pawn) => 0,
        Some(Kind::Knight) => 1,
        Some(Kind::Bishop) => 2,
        Some(Kind::Rook) => 3,
        Some(Kind::Queen) => 4,
        Some(Kind::King) => 0,
    }
}

fn kind_code(kind: Kind) -> u16
    ensures value { result ≡ kind_code kind }
    ensures small { result < 8 }
{
    match kind {
        Kind::Pawn => 0,
        Kind::Knight => 1,
        Kind::Bishop => 2,
        Kind::Rook => 3,
        Kind::Queen => 4,
        Kind::King => 0,
    }
}

fn promotion_of(number: u16) -> Option<Kind>
    ensures { result ≡ promotion_numbered number }
{
    match number {
        1 => Some(Kind::Knight),
        2 => Some(Kind::Bishop),
        3 => Some(Kind::Rook),
        4 => Some(Kind::Queen),
        _ => None,
    }
}

fn kind_of(number: u16) -> Kind
    ensures { result ≡ kind_of number }
{
    match number {
        1 => Kind::Knight,
        2 => Kind::Bishop,
        3 => Kind::Rook,
        4 => Kind::Queen,
        _ => Kind::Pawn,
    }
}
