//! Stored games from rows.

use chess_model::Variant;
use game_records::StoredGame;
use memory::NoMemory;
use std::alloc::Global;
use test_steps::games::{Halves, halves_of, players, stored};

/// Minutes, the variant, and the half-moves.
#[derive(Clone, Copy)]
pub struct Game(pub u16, pub Variant, pub Halves);

/// The game of a row.
pub fn game_of(alloc: Global, game: Game) -> Result<StoredGame, NoMemory> {
    let halves = halves_of(alloc, game.2, 1)?;
    stored(alloc, (game.0, 0), game.1, players(game.1), halves)
}
