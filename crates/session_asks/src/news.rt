//! The news of a game.
ghost use Rattle.std.specs.Prelude.{◌≡◌};
ghost use Rattle.lobby_state.specs.Desks.{IsDesk};
ghost use Rattle.session_asks.specs.News.{fetch_at, says_over};

use fics_words::DeskNumber;
use linked_desk::{DeskAct, DeskReply};
use one_server::{Act, Reply};

/// The act that asks the game of this serial at that desk for its news.
pub fn fetch_at(desk: DeskNumber, serial: u64) -> Act
    ensures value { result ≡ fetch_at desk serial }
    ensures desk { IsDesk desk }
{
    // the number is what says that there is such a desk
    let _number = desk.get();
    Act::Desk {
        desk,
        serial,
        act: DeskAct::Fetch,
    }
}

/// Whether nothing more will come from the game that answers so.
pub fn says_over(reply: &Reply) -> bool
    ensures { result ≡ says_over reply.now }
{
    match reply {
        Reply::Desk(DeskReply::Items { over, .. }) => *over,
        _ => false,
    }
}
