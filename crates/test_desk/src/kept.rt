//! A stored game, as it goes on again.
ghost use Rattle.std.specs.Prelude.{◌≡◌, ◌++◌, ◌∷◌, [], IfOk, None, OnOk};
ghost use Rattle.linked_desk.specs.Seating.{AllDiffer, HasPairsFor, names_of, sessions_seated};
ghost use Rattle.linked_desk.specs.Shelve.{names_seated};

use crate::table::SERIAL;
use clock_ledger::Moment;
use collections::Listed;
use fics_words::{Handle, Opponents, Seats};
use game_records::StoredGame;
use linked_desk::Desk;
use memory::NoMemory;
use std::alloc::Global;

/// Restores a game at the vacant desk. It ensures nothing, so that nothing above it is proved over what that does.
pub fn restores(
    alloc: Global,
    desk: &mut Desk,
    game: &StoredGame,
    seats: &Seats,
    moment: u32,
) -> Result<bool, NoMemory>
    requires vacant { desk.old.game ≡ None }
    requires pairs { HasPairsFor game.now.terms seats.now }
    requires sessions { AllDiffer (sessions_seated seats.now) }
    requires names { AllDiffer (names_of seats.now) }
    requires players { names_seated seats.now ≡ game.now.names }
{
    desk.restore(alloc, SERIAL, game, seats, Moment::new(u64::from(moment)))
}

/// The players' names in the order of their seats.
pub fn names_in(alloc: Global, seats: &Seats) -> Result<Listed<Handle>, NoMemory>
    ensures { IfOk result (λ names. names ≡ names_seated seats.now) }
{
    let mut names = Listed::new(alloc);
    add_names(&mut names, &seats.first)?;
    if let Some(players) = &seats.second {
        add_names(&mut names, players)?;
    }
    Ok(names)
}

fn add_names(names: &mut Listed<Handle>, players: &Opponents) -> Result<(), NoMemory>
    ensures { OnOk result (names.new ≡ names.old ++ players.now.white.name ∷ players.now.black.name ∷ []) }
{
    names.push(players.white.name)?;
    names.push(players.black.name)?;
    Ok(())
}
