//! Where kings and rooks begin.

ghost use Rattle.std.specs.Prelude.{◌≡◌, ◌<◌, true, false};
ghost use Rattle.chess_model.specs.Limits.{arrays};
ghost use Rattle.chess_model.specs.FischerArrays.{first_file, last_file, numbered_rank};
ghost use Rattle.chess_model.specs.declared.man.Kind.{Kind};
ghost use Rattle.chess_model.specs.Placement.{king_file, rook_file};

use crate::home_files::{KING_FILES, LONG_ROOK_FILES, SHORT_ROOK_FILES};
use crate::limits::ARRAYS;
use crate::variant::Variant;

/// The file on which the kings of a variant begin, 0 for a to 7 for h.
pub fn file_of_king(v: Variant) -> u8
    ensures value { result ≡ king_file v }
    ensures within { result < 8 }
{
    match v {
        Variant::Chess => 4,
        Variant::Crazyhouse => 4,
        Variant::Bughouse => 4,
        Variant::Fischer(number) => numbered_king(number % ARRAYS),
    }
}

/// The file on which the rooks for long or short castling begin, 0 for a to 7 for h.
pub fn file_of_rook(v: Variant, long: bool) -> u8
    ensures value { result ≡ rook_file v long }
    ensures within { result < 8 }
{
    if long {
        file_of_long_rook(v)
    } else {
        file_of_short_rook(v)
    }
}

fn file_of_long_rook(v: Variant) -> u8
    ensures value { result ≡ rook_file v true }
    ensures within { result < 8 }
{
    match v {
        Variant::Chess => 0,
        Variant::Crazyhouse => 0,
        Variant::Bughouse => 0,
        Variant::Fischer(number) => numbered_long_rook(number % ARRAYS),
    }
}

fn file_of_short_rook(v: Variant) -> u8
    ensures value { result ≡ rook_file v false }
    ensures within { result < 8 }
{
    match v {
        Variant::Chess => 7,
        Variant::Crazyhouse => 7,
        Variant::Bughouse => 7,
        Variant::Fischer(number) => numbered_short_rook(number % ARRAYS),
    }
}

/// The file of the king in the array of that number.
fn numbered_king(number: u16) -> u8
    requires { number < arrays }
    ensures value { result ≡ first_file Kind.King (numbered_rank number) }
    ensures within { result < 8 }
{
    KING_FILES[number as usize]
}

/// The file of the rook for long castling in the array of that number.
fn numbered_long_rook(number: u16) -> u8
    requires { number < arrays }
    ensures value { result ≡ first_file Kind.Rook (numbered_rank number) }
    ensures within { result < 8 }
{
    LONG_ROOK_FILES[number as usize]
}

/// The file of the rook for short castling in the array of that number.
fn numbered_short_rook(number: u16) -> u8
    requires { number < arrays }
    ensures value { result ≡ last_file Kind.Rook (numbered_rank number) }
    ensures within { result < 8 }
{
    SHORT_ROOK_FILES[number as usize]
}
