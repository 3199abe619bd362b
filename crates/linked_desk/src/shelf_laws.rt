//! What it means that a game is kept until its players resume it, as calls that do nothing.
ghost use Rattle.linked_desk.specs.ShelfLaws.{ResumingRestores, ShelvedGamesReplay};

/// A game that is sound can be played again as it is kept: its record has a spelling, the players of a pair are four,
/// each half-move may come after those before it, and the charges stand where they belong.
pub fn shelved_games_replay()
    ensures { ShelvedGamesReplay }
{}

/// A game that replays is restored as it is stored: with its terms, players, half-moves and charges, and with clocks
/// that run from the moment of resuming. So a game that was kept goes on from where it was left: each board has the
/// same position, men in hand and clocks.
#[tactic(auto, using(crate::proofs::Resuming::resuming_restores))]
pub fn resuming_restores()
    ensures { ResumingRestores }
{}
