//! What holds of the games of a store, as a call that does nothing: its contract says what was proved.
ghost use Rattle.cmd_pgn.specs.Games.{HasOneList};

/// A store has one list of its games: any two lists of them, in ascending order of their numbers, are the same.
pub fn a_store_has_one_list_of_games()
    ensures { HasOneList }
{}
