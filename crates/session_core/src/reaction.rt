//! What a session does about an offer where its player names nobody.
ghost use Rattle.std.specs.Prelude.{◌≡◌, false};
ghost use Rattle.linked_desk.specs.Acts.{FitsDeskAct};
ghost use Rattle.one_server.specs.Acts.{FitsAct};
ghost use Rattle.session_core.specs.Remembering.{asks_places};
ghost use Rattle.session_core.specs.Reactions.{in_lobby, is_no_offer, of_desk, says_no_offer};

use fics_words::Refusal;
use linked_desk::DeskAct;
use lobby_state::{LobbyAct, PairAct};
use one_server::{Act, Reply};

/// What a session does about an offer.
#[derive(Clone, Copy)]
pub enum Reaction {
    /// It accepts it.
    Accepting,
    /// It declines it.
    Declining,
}

/// The act at the desk, which answers the earliest offer there.
pub(crate) fn of_desk(reaction: Reaction) -> DeskAct
    ensures value { result ≡ of_desk reaction }
    ensures fits { FitsDeskAct result }
{
    match reaction {
        Reaction::Accepting => DeskAct::Accept,
        Reaction::Declining => DeskAct::Decline,
    }
}

/// The act in the lobby, which answers the oldest challenge.
pub(crate) fn in_lobby(reaction: Reaction) -> Act
    ensures value { result ≡ in_lobby reaction }
    ensures fits { FitsAct result }
    ensures asks { asks_places result ≡ false }
{
    match reaction {
        Reaction::Accepting => Act::Pair(PairAct::Accept(None)),
        Reaction::Declining => Act::Lobby(LobbyAct::Decline { name: None }),
    }
}

/// Whether a desk has no offer to answer.
pub(crate) fn says_no_offer(reply: &Reply) -> bool
    ensures { result ≡ says_no_offer reply.now }
{
    match reply {
        Reply::Refused(cause) => is_no_offer(*cause),
        _ => false,
    }
}

/// Whether there is no offer to answer.
fn is_no_offer(cause: Refusal) -> bool
    ensures { result ≡ is_no_offer cause }
{
    match cause {
        Refusal::NoSuchOffer => true,
        _ => false,
    }
}
