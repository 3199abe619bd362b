//! The squares of a set, one after another.
ghost use Rattle.std.specs.Prelude.{◌≡◌, ℕ, ◌<◌, ◌≤◌, ◌↔◌, IsTrue};
ghost use Rattle.bitboard_core.specs.Sets.{Has};

use chess_model::Square;

/// The square of a number.
#[inline]
pub fn square_of(n: u8) -> Square
    requires { n < 64 }
    ensures { result ≡ n }
{
    Square::on(n % 8, n / 8)
}

/// The least square of a set from the number n on, or 64 where there is none.
#[inline]
pub fn next_square(set: u64, n: u8) -> u8
    ensures within { result ≤ 64 }
    ensures from { result < 64 → n ≤ result }
    ensures found { result < 64 → Has set result }
    ensures first { (k : ℕ) → n ≤ k → k < result → ¬ Has set k }
{
    if n >= 64 {
        return 64;
    }
    (set & (u64::MAX << n)).trailing_zeros() as u8
}

/// Whether a square is in a set.
#[inline]
pub fn has_square(set: u64, s: Square) -> bool
    ensures value { IsTrue result ↔ Has set s }
    ensures within { s < 64 }
{
    set >> s.number() & 1 == 1
}
