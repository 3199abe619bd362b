//! Who asked to enter.
ghost use Rattle.std.specs.Prelude.{◌≡◌, false};
ghost use Rattle.session_asks.specs.Entering.{admitted, is_entered, standing_in, password_of};

use crate::standing::Standing;
use fics_words::Handle;
use lobby_state::LobbyReply;
use one_server::Reply;

/// Where a session stands that asked to enter under this name, or as a guest, once it is answered.
pub fn admitted(name: Option<Handle>, reply: &Reply) -> Standing
    ensures stands { result ≡ admitted name reply.now }
    ensures inside { standing_in result ≡ is_entered reply.now }
{
    match reply {
        Reply::Lobby(LobbyReply::Entered(name)) => Standing::In(*name),
        Reply::Lobby(LobbyReply::NeedPassword) => password_of(name),
        _ => Standing::Login,
    }
}

/// The password of a handle is asked for; a guest has none.
fn password_of(name: Option<Handle>) -> Standing
    ensures stands { result ≡ password_of name }
    ensures outside { standing_in result ≡ false }
{
    match name {
        Some(name) => Standing::Password(name),
        None => Standing::Login,
    }
}
