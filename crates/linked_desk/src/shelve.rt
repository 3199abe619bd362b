//! A game as it is kept until its players resume it.
ghost use Rattle.std.specs.Prelude.{◌≡◌, ◌++◌, ◌∷◌, [], IfOk, OnOk};
ghost use Rattle.linked_desk.specs.Seating.{uncoloured};
ghost use Rattle.linked_desk.specs.Shelve.{names_seated, stored_of};

use crate::game::Game;
use chess_model::Terms;
use collections::Listed;
use fics_words::{Handle, Opponents, Seats};
use game_records::StoredGame;
use memory::NoMemory;
use std::alloc::Global;

impl Game {
    /// What is kept of the game.
    pub(crate) fn shelved(&self, alloc: Global) -> Result<StoredGame, NoMemory>
        ensures { IfOk result (λ game. game ≡ stored_of self.now) }
    {
        let names = names_in(alloc, &self.seats)?;
        let halves = self.boards.halves(alloc)?;
        Ok(StoredGame {
            terms: uncoloured(&self.terms),
            names,
            halves,
        })
    }
}

/// The players' names in the order of their seats.
fn names_in(alloc: Global, seats: &Seats) -> Result<Listed<Handle>, NoMemory>
    ensures { IfOk result (λ names. names ≡ names_seated seats.now) }
{
    let mut names = Listed::new(alloc);
    add_names(&mut names, &seats.first)?;
    if let Some(players) = &seats.second {
        add_names(&mut names, players)?;
    }
    Ok(names)
}

/// Adds the names of the players of a board.
fn add_names(names: &mut Listed<Handle>, players: &Opponents) -> Result<(), NoMemory>
    ensures { OnOk result (names.new ≡ names.old ++ players.now.white.name ∷ players.now.black.name ∷ []) }
{
    names.push(players.white.name)?;
    names.push(players.black.name)?;
    Ok(())
}

/// The terms without the colour that somebody asked for.
fn uncoloured(terms: &Terms) -> Terms
    ensures { result ≡ uncoloured terms.now }
{
    Terms {
        colour: None,
        ..*terms
    }
}
