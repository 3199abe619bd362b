//! The squares of the board by their numbers.
ghost use Rattle.std.specs.Prelude.{◌≡◌, ℕ, ◌<◌, ◌↔◌, IsSome, IfSome};
ghost use Rattle.chess_model.specs.Squares.{file_of, rank_of, square_at};

use std::marker::Model;

/// A square of the board: 0 is a1, 1 is b1, 8 is a2 and 63 is h8 (FIDE Laws, 2.4).
#[derive(Clone, Copy, PartialEq, Eq)]
pub struct Square(u8);

impl Model for Square {
    ghost Value = { ℕ };

    ghost view = { λ s. s.0 };

    ghost invariant = { λ s. s.0 < 64 };

    ghost inverse = { λ n. record { 0 = n } };
}

impl Square {
    /// The square of that number, which there is exactly for the numbers 0 to 63.
    pub fn of(n: u8) -> Option<Square>
        ensures within { IsSome result ↔ (n < 64) }
        ensures value { IfSome result (λ s. s ≡ n) }
    {
        if n < 64 { Some(Square(n)) } else { None }
    }

    /// The number, from 0 to 63.
    pub fn number(self) -> u8
        ensures value { result ≡ self }
        ensures within { result < 64 }
    {
        self.0
    }

    /// The file, 0 for a to 7 for h.
    pub fn file(self) -> u8
        ensures value { result ≡ file_of self }
        ensures within { result < 8 }
    {
        self.0 % 8
    }

    /// The rank, 0 for the first to 7 for the eighth.
    pub fn rank(self) -> u8
        ensures value { result ≡ rank_of self }
        ensures within { result < 8 }
    {
        self.0 / 8
    }

    /// The square on a file and a rank, both counted from 0.
    pub fn on(file: u8, rank: u8) -> Square
        requires file { file < 8 }
        requires rank { rank < 8 }
        ensures { result ≡ square_at file rank }
    {
        Square(8 * rank + file)
    }
}
