//! The games for which desks are in use.
ghost use Rattle.std.specs.Prelude.{◌≡◌, IfOk, None, replicate};
ghost use Rattle.lobby_state.specs.Desks.{desks};

use chess_model::Terms;
use collections::Listed;
use fics_words::Seats;
use memory::NoMemory;
use std::alloc::Global;

/// The number of desks.
pub const DESKS: usize = 128;

/// The game for which a desk is in use.
#[derive(Clone, Copy)]
pub struct ListedGame {
    /// The number of the game among all that were started, from 1 on.
    pub serial: u64,
    pub terms: Terms,
    pub seats: Seats,
}

/// The list of all desks, where each is free.
pub(crate) fn no_games(alloc: Global) -> Result<Listed<Option<ListedGame>>, NoMemory>
    ensures { IfOk result (λ games. games ≡ replicate desks None) }
{
    nothing(alloc, DESKS)
}

/// A list of so many places with nothing in them.
fn nothing<T: Drop>(alloc: Global, count: usize) -> Result<Listed<Option<T>>, NoMemory>
    ensures { IfOk result (λ places. places ≡ replicate count None) }
{
    let mut places = Listed::new(alloc);
    for _place in 0..count {
        places.push(None)?;
    }
    Ok(places)
}
