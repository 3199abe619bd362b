//! What players offer one another.
ghost use Rattle.std.specs.Prelude.{◌≡◌};
ghost use Rattle.offer_book.specs.Offers.{is_other_takeback, is_takeback};

/// What a player offers to all others at the desk.
#[derive(Clone, Copy, PartialEq, Eq)]
pub enum Offer {
    /// The game ends as a draw.
    Draw,
    /// The game ends without a result.
    Abort,
    /// The game ends without a result, and is kept to be resumed.
    Adjourn,
    /// So many half-moves are taken back.
    Takeback(u16),
}

/// An offer that stands, and the seat that made it.
#[derive(Clone, Copy)]
pub struct StandingOffer {
    pub seat: u8,
    pub offer: Offer,
}

impl Offer {
    /// Whether half-moves are to be taken back.
    pub(crate) fn is_takeback(self) -> bool
        ensures { result ≡ is_takeback self }
    {
        matches!(&self, Offer::Takeback(_))
    }

    /// Whether both are takebacks, of different numbers.
    pub(crate) fn is_other_takeback(self, other: Offer) -> bool
        ensures { result ≡ is_other_takeback self other }
    {
        self.is_takeback() && other.is_takeback() && other != self
    }
}
