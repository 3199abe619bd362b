//! What holds of every shelf, as calls that do nothing: each says by its contract what was proved.
ghost use Rattle.lobby_shelf.specs.Facts.{IsShelf};
ghost use Rattle.lobby_shelf.specs.Laws.{FindsLeast, GamesAreFound, RequestsStand, SavedAreFirst};
ghost use Rattle.lobby_shelf.specs.Wanted.{OrdersLead};

use crate::game_shelf::GameShelf;
use fics_words::HandleKey;

/// What holds of every shelf: its games are at most 10,000, in the order of their numbers, and each replays.
pub fn shelves_are_sound(shelf: &GameShelf)
    ensures { IsShelf shelf.now }
{
    let _ = &shelf.games;
}

/// Games are found under their numbers, and an adjourned game gets the least number that is free.
pub fn games_are_found(shelf: &GameShelf)
    ensures { GamesAreFound shelf.now }
{
    let _ = &shelf.games;
}

/// Who is named in a Resume meets the game of least number that both have among its players.
pub fn the_least_is_found(shelf: &GameShelf, one: HandleKey, other: HandleKey)
    ensures { FindsLeast shelf.now one other }
{
    let _ = &shelf.games;
}

/// The orders that are told as saved are the first ones, and the rest stands as it stood.
pub fn saved_orders_are_the_first(shelf: &GameShelf)
    ensures { SavedAreFirst shelf.now }
{
    let _ = &shelf.games;
}

/// A request stands from when it is put until its game or its member goes.
pub fn requests_stand(shelf: &GameShelf)
    ensures { RequestsStand shelf.now }
{
    let _ = &shelf.games;
}

/// Each change of accounts and games makes the order that leads a store along.
pub fn orders_lead()
    ensures { OrdersLead }
{}
