//! Results of games, and what players have from them.

ghost use Rattle.std.specs.Prelude.{◌≡◌};
ghost use Rattle.tourney_desk.specs.Scores.{halves_from, is_by_player, white_halves, black_halves};

/// How a game ended.
#[derive(Clone, Copy, Debug, PartialEq, Eq)]
pub enum Score {
    /// White won.
    White,
    /// Nobody won.
    Draw,
    /// Black won.
    Black,
}

/// The result of a game of two players, who are given by their numbers in the tourney.
#[derive(Clone, Copy)]
pub struct Report {
    pub white: u8,
    pub black: u8,
    pub score: Score,
}

/// A row of the table: a player's number, how many results stand for that player, and the half-points from them, 2 for
/// a win and 1 for a draw.
#[derive(Clone, Copy, Debug, PartialEq, Eq)]
pub struct ScoreRow {
    pub player: u8,
    pub games: u8,
    pub halves: u8,
}

impl Score {
    /// What White has from it, in half-points.
    fn white_halves(self) -> u8
        ensures { result ≡ white_halves self }
    {
        match self {
            Score::White => 2,
            Score::Draw => 1,
            Score::Black => 0,
        }
    }

    /// What Black has from it, in half-points.
    fn black_halves(self) -> u8
        ensures { result ≡ black_halves self }
    {
        match self {
            Score::White => 0,
            Score::Draw => 1,
            Score::Black => 2,
        }
    }
}

impl Report {
    /// Whether it is the result of a game of this player.
    pub(crate) fn has_player(&self, player: u8) -> bool
        ensures { result ≡ is_by_player player self.now }
    {
        self.white == player || self.black == player
    }

    /// What the player has from it, in half-points.
    pub(crate) fn halves_from(&self, player: u8) -> u8
        ensures { result ≡ halves_from player self.now }
    {
        if self.white == player {
            return self.score.white_halves();
        }
        if self.black == player {
            return self.score.black_halves();
        }
        0
    }
}
