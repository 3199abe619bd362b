//! What steps of a server are made of.

use chess_model::Square;
use fics_words::{Fail, Handle, Refusal};
use lobby_state::Lobby;
use memory::NoMemory;
use one_server::OneServer;
use std::alloc::Global;

/// A server with an empty lobby.
#[tactic(auto, using(one_server::proofs::Opens::opening_is))]
pub fn server(alloc: Global) -> Result<OneServer, NoMemory> {
    OneServer::new(alloc, Lobby::new(alloc)?)
}

/// The handle of three letters.
pub fn handle(name: &[u8; 3]) -> Result<Handle, Fail> {
    match Handle::read(name) {
        Some(handle) => Ok(handle),
        None => Err(Fail::Refused(Refusal::BadHandle)),
    }
}

/// The square of that number, which counts the ranks from the first one and each from its file a.
pub fn square(number: u8) -> Result<Square, Fail> {
    match Square::of(number) {
        Some(square) => Ok(square),
        None => Err(Fail::Refused(Refusal::BadArguments)),
    }
}
