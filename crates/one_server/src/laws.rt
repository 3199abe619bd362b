//! What holds in every state of every legal history, as calls that do nothing: what each ensures is the law.
ghost use Rattle.histories.specs.Laws.{LeavesOthers, RepliesLocally, ChangesLocally, RepliesCommute, StatesCommute};
ghost use Rattle.lobby_state.specs.Lobby.{LobbyState, opening};
ghost use Rattle.one_server.specs.House.{house};
ghost use Rattle.lobby_state.specs.WellFormed.{IsWellFormed};
ghost use Rattle.one_server.specs.Laws.{GoesOnWhileItRuns, HoldsInEachState, KeepsMen, KeepsTrueScores, LendsFirst};
ghost use Rattle.one_server.specs.Laws.{LendsSecond, ListsItsDesks, NamesItsWinners, NumbersItsOrders, RepliesWell};
ghost use Rattle.one_server.specs.Laws.{SeatsItsMembers, StoresWhatReplays};
ghost use Rattle.one_server.specs.ResumedGames.{ResumesAsLeft};
ghost use Rattle.one_server.specs.Whole.{IsOpening, IsWhole, opened_server};

use crate::house::House;
use histories::{acts_commute, acts_locally};

/// An act leaves every part that isn't its own as it was, its reply and what it leaves follow from its own parts alone,
/// and two acts without a common part may be made in either order.
pub fn acts_keep_to_their_parts()
    ensures others { LeavesOthers house }
    ensures replies { RepliesLocally house }
    ensures changes { ChangesLocally house }
    ensures replies_commute { RepliesCommute house }
    ensures states_commute { StatesCommute house }
{
    acts_locally::<House>();
    acts_commute::<House>();
}

/// A server opens with an empty lobby, and each of its states is whole: the lobby lists a desk as in use exactly where
/// it isn't vacant, and then with its serial, terms and seats; and each member's place is a seat of a desk in use
/// under that serial.
pub fn every_state_agrees()
    ensures empty { IsOpening opening }
    ensures opens { (lobby : LobbyState) → IsWellFormed lobby → IsOpening lobby → IsWhole (opened_server lobby) }
    ensures whole { HoldsInEachState IsWhole }
    ensures desks { HoldsInEachState ListsItsDesks }
    ensures members { HoldsInEachState SeatsItsMembers }
{}

/// In every state the list of each board is a true score of its game: each half-move was allowed after those before it,
/// charges stand where and for what they should, and each clock is its ledger's sum.
pub fn every_board_keeps_a_true_score()
    ensures { HoldsInEachState KeepsTrueScores }
{}

/// In every state the men of each game are whole: no half-move has made or lost one, by the boards and hands of one
/// board or of a pair.
pub fn every_game_keeps_its_men()
    ensures { HoldsInEachState KeepsMen }
{}

/// In every state no board of a game that runs is at an end, each game on the shelf can be played again as it is
/// stored, and the save orders stand in the order in which they were made.
pub fn every_stored_game_replays()
    ensures running { HoldsInEachState GoesOnWhileItRuns }
    ensures stored { HoldsInEachState StoresWhatReplays }
    ensures orders { HoldsInEachState NumbersItsOrders }
{}

/// In every state a Resume that is answered Started takes the stored game of least number in which both play off the
/// shelf, and restores it at a vacant desk: with its terms, names and half-moves with their charges, and so with its
/// positions, the men in hand and the clocks; these run again from the moment of the Resume.
pub fn resuming_restores()
    ensures { HoldsInEachState ResumesAsLeft }
{}

/// In every state each end that the viewers of a desk are told names a winner exactly where somebody won, so its line
/// can be written.
pub fn every_end_names_its_winner()
    ensures { HoldsInEachState NamesItsWinners }
{}

/// In a whole state the part that an act names is what `alone` asks for as its one part, and `together` as its first;
/// and the part that the act's plan names is what `together` asks for as its second.
pub fn parts_are_lent()
    ensures first { LendsFirst }
    ensures second { LendsSecond }
{}

/// Each reply of a legal history from a whole state tells places at desks 1 to 128 alone, and of each end the
/// winner exactly where somebody won: whoever prints it needs no check of it.
pub fn every_reply_can_be_told()
    ensures { RepliesWell }
{}
