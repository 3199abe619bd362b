//! What holds of the boards of a game, as calls that do nothing: what they ensure are the laws.
ghost use Rattle.desk_boards.specs.Laws.{AreReplayed, BoardsStaySound, EndsComeByMoves, HalvesAreTheBoards};

/// A record of the half-moves of boards has what these have, with their charges, and keeps the bounds of records.
#[tactic(auto, using(crate::proofs::SoundHalves::halves_told))]
pub fn halves_are_the_boards()
    ensures { HalvesAreTheBoards }
{}

/// Half-moves are played again exactly where they could have been played, and the boards have these and no others: so a
/// game is resumed on the boards with which it was left.
#[tactic(auto, using(crate::proofs::Restored::boards_replayed))]
pub fn boards_are_replayed()
    ensures { AreReplayed }
{}

/// The boards of a game are sound from the start on, whatever is played while no board is at an end, whatever clients
/// acknowledge, and whatever half-moves are taken back: their scores are true, a pair has one list of the half-moves of
/// both, and their half-moves can be played again.
pub fn boards_stay_sound()
    ensures { BoardsStaySound }
{}

/// A board ends by a half-move of its own: new boards go on, what is learnt of the partner's board ends nothing, and a
/// board from which half-moves were taken back goes on.
#[tactic(auto, using(crate::proofs::GoingOn::each_goes_on, crate::proofs::BackSound::goes_back))]
pub fn ends_come_by_moves()
    ensures { EndsComeByMoves }
{}
