//! A part of the server's state.

use linked_desk::Desk;
use lobby_state::Lobby;

/// The lobby or a desk. A state is a list of 129 parts, the lobby first and then the desks 1 to 128.
#[derive(Drop)]
pub enum Part {
    Lobby(Lobby),
    Desk(Desk),
}
