//! The boards of a game, by number.
ghost use Rattle.std.specs.Prelude.{◌≡◌};
ghost use Rattle.fics_words.specs.Boards.{board_number, numbered_board, other_number};

/// A board of a game: the first one, or the second one of bughouse.
#[derive(Clone, Copy, PartialEq, Eq)]
pub enum BoardNumber {
    First,
    Second,
}

impl BoardNumber {
    /// The board that has this number in a record, 1 or 2; None for any other number.
    pub fn of(number: u8) -> Option<BoardNumber>
        ensures { result ≡ numbered_board number }
    {
        match number {
            1 => Some(BoardNumber::First),
            2 => Some(BoardNumber::Second),
            _ => None,
        }
    }

    /// Its number, 1 or 2.
    pub fn number(self) -> u8
        ensures { result ≡ board_number self }
    {
        match self {
            BoardNumber::First => 1,
            BoardNumber::Second => 2,
        }
    }

    /// The other board of a pair.
    pub fn other(self) -> BoardNumber
        ensures { result ≡ other_number self }
    {
        match self {
            BoardNumber::First => BoardNumber::Second,
            BoardNumber::Second => BoardNumber::First,
        }
    }
}
