//! The name with which a session has entered, read from the history.

ghost use Rattle.std.specs.Prelude.{◌≡◌};
ghost use Rattle.cmd_demo.specs.Said.{name_by, name_in, name_told};

use fics_words::Handle;
use histories::Entry;
use lobby_state::LobbyReply;
use one_server::{Reply, Timed};

/// The name with which the session has entered: what its first entry of that kind was answered; none where it has none.
/// Looks no further than that entry.
pub(crate) fn name_in(session: u32, log: &[Entry<Timed, Reply>]) -> Option<Handle>
    ensures { result ≡ name_in session log.now }
{
    for entry in log {
        if let Some(name) = name_by(session, entry) {
            return Some(name);
        }
    }
    None
}

/// The name with which the session has entered by this entry, if it has.
fn name_by(session: u32, entry: &Entry<Timed, Reply>) -> Option<Handle>
    ensures { result ≡ name_by session entry.now }
{
    if entry.session != session {
        return None;
    }
    name_told(&entry.reply)
}

/// The name under which a session is in, if the reply tells that it is.
fn name_told(reply: &Reply) -> Option<Handle>
    ensures { result ≡ name_told reply.now }
{
    match reply {
        Reply::Lobby(LobbyReply::Entered(name)) => Some(*name),
        _ => None,
    }
}
