//! What a session is answered.

use fics_words::Refusal;
use linked_desk::DeskReply;
use lobby_state::LobbyReply;
use std::mem::size_of;

/// A reply, by the part of the server that gives it.
#[derive(Drop)]
pub enum Reply {
    /// Nothing was done, for this cause.
    Refused(Refusal),
    /// What the lobby answers to an act of its own.
    Lobby(LobbyReply),
    /// What a desk answers.
    Desk(DeskReply),
    /// What the lobby and a desk answer together.
    Pair(PairReply),
}

// A reply is moved from the server to the session. On its way there it is written in its place, and not handed on.
const _: () = prove!(size_of::<Reply>() <= 400);

impl Reply {
    ghost use Rattle.std.specs.Prelude.{◌≡◌};
    ghost use Rattle.one_server.specs.House.{no_parts};

    /// What stands in the place of a reply before it is written.
    pub fn blank() -> Reply
        ensures { result ≡ no_parts }
    {
        Reply::Pair(PairReply::Kept)
    }
}

/// What the lobby and a desk answer together.
#[derive(Clone, Copy)]
pub enum PairReply {
    /// A game has started, or goes on that was adjourned.
    Started,
    /// Another is asked to resume an adjourned game.
    Asked,
    /// There is nothing to clear at the desk.
    Kept,
    /// The caller has no place at the desk any more, at which others still look on.
    Freed,
    /// The desk is vacant.
    Cleared,
}
