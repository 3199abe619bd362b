//! Stored games from rows.

use chess_model::Variant;
use game_records::StoredGame;
use memory::NoMemory;
use std::alloc::Global;
use test_steps::games::{Halves, halves_of, players, stored};

/// Minutes, seconds of increment, the variant, the half-moves, and how often they are made.
#[derive(Clone, Copy)]
pub struct Game(pub u16, pub u16, pub Variant, pub Halves, pub u16);

/// The game of a row.
pub fn game_of(alloc: Global, game: Game) -> Result<StoredGame, NoMemory> {
    let halves = halves_of(alloc, game.3, game.4)?;
    stored(alloc, (game.0, game.1), game.2, players(game.2), halves)
}
