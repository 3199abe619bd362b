//! The games to which a session goes for its news.
ghost use Rattle.std.specs.Prelude.{◌≡◌};
ghost use Rattle.session_asks.specs.Visits.{looking, playing};

use fics_words::DeskNumber;
use lobby_state::Place;

/// A game that a session plays or looks on at.
#[derive(Clone, Copy)]
pub struct Visit {
    pub desk: DeskNumber,
    /// The serial of the game at that desk.
    pub serial: u64,
    /// The session's seat; None where it looks on.
    pub seat: Option<u8>,
}

/// The visit of who plays at a place.
pub(crate) fn playing(place: &Place) -> Visit
    ensures { result ≡ playing place.now }
{
    Visit {
        desk: place.desk,
        serial: place.serial,
        seat: Some(place.seat),
    }
}

/// The visit of who looks on at the game of a place.
pub(crate) fn looking(place: &Place) -> Visit
    ensures { result ≡ looking place.now }
{
    Visit {
        desk: place.desk,
        serial: place.serial,
        seat: None,
    }
}
