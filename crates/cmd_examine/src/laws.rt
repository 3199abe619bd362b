//! What holds of the games of a store, as a call that does nothing: its contract says what was proved.
ghost use Rattle.cmd_examine.specs.OneGame.{HasOneGame};

/// A store has one game of a number: any two that stand under the number's key are the same.
pub fn a_store_has_one_game_of_a_number()
    ensures { HasOneGame }
{}
