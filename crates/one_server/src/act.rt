//! What a session asks of the server.
ghost use Rattle.std.specs.Prelude.{◌≡◌, min};
ghost use Rattle.clock_ledger.specs.Charges.{last_moment};

use clock_ledger::{LAST_MOMENT, Moment};
use fics_words::DeskNumber;
use linked_desk::DeskAct;
use lobby_state::{LobbyAct, PairAct};

/// An act, by the parts that it needs.
#[derive(Drop)]
pub enum Act {
    /// Needs the lobby alone.
    Lobby(LobbyAct),
    /// Needs the desk of that number alone; it is meant for the game of that serial.
    Desk {
        desk: DeskNumber,
        serial: u64,
        act: DeskAct,
    },
    /// Needs the lobby, and mostly a desk too.
    Pair(PairAct),
}

/// An act at its moment, in milliseconds.
#[derive(Drop)]
pub struct Timed {
    pub moment: u64,
    pub act: Act,
}

/// The moment of acts at which a clock shows so many milliseconds: cut to 2^48.
pub fn moment_of(shown: u64) -> Moment
    ensures { result ≡ min shown last_moment }
{
    Moment::new(shown.min(LAST_MOMENT))
}
