//! What a server replies, in short.

use linked_desk::DeskReply;
use lobby_state::LobbyReply;
use one_server::{PairReply, Reply};

/// What a reply says, in short.
#[derive(Clone, Copy, PartialEq, Eq)]
pub enum Said {
    Refused(u8),
    Done,
    Entered,
    /// A password is asked for.
    NeedPassword,
    /// The number of a seek.
    Number(u16),
    /// So many lines of a list.
    Lines(usize),
    /// So many were told.
    Told(u16),
    /// Another is asked.
    Asked,
    Found,
    /// So many places.
    Places(usize),
    /// So many lines and so many places.
    Waiting(usize, usize),
    /// So many desks in use.
    Desks(usize),
    /// So many save orders.
    Orders(usize),
    /// So many items, and whether nothing more will come.
    Items(usize, bool),
    Started,
    Kept,
    Freed,
    Cleared,
}

/// What a reply says, in short.
pub fn in_short(reply: &Reply) -> Said {
    match reply {
        Reply::Refused(cause) => Said::Refused(cause.number()),
        Reply::Lobby(answer) => of_lobby(answer),
        Reply::Desk(answer) => of_desk(answer),
        Reply::Pair(answer) => of_pair(*answer),
    }
}

fn of_lobby(answer: &LobbyReply) -> Said {
    match answer {
        LobbyReply::Done => Said::Done,
        LobbyReply::Entered(_) => Said::Entered,
        LobbyReply::NeedPassword => Said::NeedPassword,
        LobbyReply::Number(number) => Said::Number(*number),
        LobbyReply::Lines(lines) => Said::Lines(lines.len()),
        LobbyReply::Told(count) => Said::Told(*count),
        LobbyReply::Asked => Said::Asked,
        LobbyReply::Found(_) => Said::Found,
        LobbyReply::Places(places) => Said::Places(places.len()),
        LobbyReply::Waiting { lines, places } => Said::Waiting(lines.len(), places.len()),
        LobbyReply::Desks(desks) => Said::Desks(desks.len()),
        LobbyReply::Orders(orders) => Said::Orders(orders.len()),
    }
}

fn of_desk(answer: &DeskReply) -> Said {
    match answer {
        DeskReply::Done => Said::Done,
        DeskReply::Items { items, over } => Said::Items(items.len(), *over),
    }
}

/// What lobby and desk answer together, in short.
pub fn of_pair(answer: PairReply) -> Said {
    match answer {
        PairReply::Started => Said::Started,
        PairReply::Asked => Said::Asked,
        PairReply::Kept => Said::Kept,
        PairReply::Freed => Said::Freed,
        PairReply::Cleared => Said::Cleared,
    }
}
