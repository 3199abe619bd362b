//! What the definitions mean for who examines a game, as calls that do nothing: what each ensures is the law.
ghost use Rattle.examine_board.specs.Laws.{KeepsTheMost, StepsAreUndone};

/// Steps back undo as many steps forward, and the other way round, and neither changes the half-moves.
#[tactic(auto, using(crate::proofs::Undone::steps_undone))]
pub fn steps_are_undone()
    ensures { StepsAreUndone }
{}

/// Of the half-moves on the boards `revert` keeps the most that are the stored game's, from the first one on.
#[tactic(auto, using(crate::proofs::Shared::share_is, crate::proofs::Shared::share_most))]
pub fn kept_half_moves_are_the_most()
    ensures { KeepsTheMost }
{}
