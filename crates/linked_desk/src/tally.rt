//! How many offers and declines each seat has made.
ghost use Rattle.std.specs.Prelude.{◌≡◌, ◌<◌};
ghost use Rattle.linked_desk.specs.Tally.{count_of, counted, is_told_out, none_told};

use std::marker::Model;

/// How many offers and declines a seat may make.
const MOST_TOLD: u16 = 256;

/// The counts of the seats 0 to 3. Contracts see the list of them.
#[derive(Drop)]
pub(crate) struct Tally {
    first: u16,
    second: u16,
    third: u16,
    fourth: u16,
}

impl Model for Tally {
    ghost use Rattle.std.specs.Prelude.{List, ℕ, [], ◌∷◌};

    ghost Value = { List ℕ };

    ghost view = { λ t. t.first ∷ t.second ∷ t.third ∷ t.fourth ∷ [] };
}

impl Tally {
    /// No seat has made any.
    pub(crate) fn none() -> Tally
        ensures { result ≡ none_told }
    {
        Tally {
            first: 0,
            second: 0,
            third: 0,
            fourth: 0,
        }
    }

    /// Whether a seat may make no more.
    pub(crate) fn is_told_out(&self, seat: u8) -> bool
        ensures { result ≡ is_told_out self.now seat }
    {
        MOST_TOLD <= self.count_of(seat)
    }

    /// The count of a seat.
    fn count_of(&self, seat: u8) -> u16
        ensures { result ≡ count_of self.now seat }
    {
        match seat {
            0 => self.first,
            1 => self.second,
            2 => self.third,
            3 => self.fourth,
            _ => 0,
        }
    }

    /// A seat makes one more.
    pub(crate) fn count(&mut self, seat: u8)
        requires { count_of self.old seat < 256 }
        ensures { self.new ≡ counted self.old seat }
    {
        match seat {
            0 => self.first += 1,
            1 => self.second += 1,
            2 => self.third += 1,
            3 => self.fourth += 1,
            _ => {}
        }
    }
}
