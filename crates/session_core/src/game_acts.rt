//! The acts at a game to which a session goes.
ghost use Rattle.std.specs.Prelude.{◌≡◌};
ghost use Rattle.lobby_state.specs.Desks.{IsDesk};
ghost use Rattle.session_core.specs.Session.{at_game, clear_at};

use linked_desk::DeskAct;
use lobby_state::PairAct;
use one_server::Act;
use session_asks::Visit;

/// An act at the game of a visit.
pub(crate) fn at_game(visit: &Visit, act: DeskAct) -> Act
    ensures value { result ≡ at_game visit.now act }
    ensures desk { IsDesk visit.now.desk }
{
    // the number is what says that there is such a desk
    let _number = visit.desk.get();
    Act::Desk {
        desk: visit.desk,
        serial: visit.serial,
        act,
    }
}

/// The act that gives up a game.
pub(crate) fn clear_at(visit: &Visit) -> Act
    ensures value { result ≡ clear_at visit.now }
    ensures desk { IsDesk visit.now.desk }
{
    // the number is what says that there is such a desk
    let _number = visit.desk.get();
    Act::Pair(PairAct::Clear {
        desk: visit.desk,
        serial: visit.serial,
    })
}
