//! A seek, and whose it is.
ghost use Rattle.std.specs.Prelude.{◌≡◌, Ok, not};
ghost use Rattle.seek_match.specs.Seeks.{is_by};

use chess_model::Terms;
use collections::Predicate;
use tables::Keyed;

/// A game that a player offers to whoever takes it: under which number, by which session, and on which terms.
#[derive(Clone, Copy)]
pub struct Seek {
    /// From 1 on.
    pub number: u16,
    pub by: u32,
    pub terms: Terms,
}

impl Seek {
    /// Whether the seek is by this player, and has the number, if one is given.
    pub(crate) fn is_by(&self, by: u32, number: Option<u16>) -> bool
        ensures { result ≡ is_by by number self.now }
    {
        match number {
            None => self.by == by,
            Some(number) => self.by == by && self.number == number,
        }
    }
}

impl Keyed<u16> for Seek {
    ghost key_of = { λ seek. seek.number };

    fn key(&self) -> u16 {
        self.number
    }
}

/// A seek that isn't by this player, or hasn't the number, if one is given.
#[derive(Clone, Copy)]
pub(crate) struct NotBy {
    pub(crate) by: u32,
    pub(crate) number: Option<u16>,
}

impl Predicate<Seek> for NotBy {
    ghost passes = { λ test seek. not (is_by test.by test.number seek) };

    fn passes(&self, seek: &Seek) -> bool {
        !seek.is_by(self.by, self.number)
    }
}
