//! The number of a desk.
ghost use Rattle.std.specs.Prelude.{◌≡◌, ◌-◌};
ghost use Rattle.fics_words.specs.Desks.{IsDesk};

use std::marker::Model;

/// The number of a desk of the hall, from 1 to 128. Contracts see that number.
#[derive(Clone, Copy)]
pub struct DeskNumber {
    number: u8,
}

impl Model for DeskNumber {
    ghost use Rattle.std.specs.Prelude.{ℕ};
    ghost use Rattle.fics_words.specs.Desks.{IsDesk};

    ghost Value = { ℕ };

    ghost view = { λ desk. desk.number };

    ghost invariant = { λ desk. IsDesk desk.number };

    ghost inverse = { λ number. record { number = number } };
}

impl DeskNumber {
    /// The desk of that number.
    pub fn new(number: u8) -> DeskNumber
        requires { IsDesk number }
        ensures { result ≡ number }
    {
        DeskNumber { number }
    }

    /// Its number.
    pub fn get(self) -> u8
        ensures value { result ≡ self }
        ensures desk { IsDesk result }
    {
        self.number
    }

    /// Its place in a list of all desks, counted from 0.
    pub fn place(self) -> usize
        ensures { result ≡ self - 1 }
    {
        self.number as usize - 1
    }
}
