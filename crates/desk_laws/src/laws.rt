//! What holds at every desk in every state, and of refusals, as calls that do nothing: what each ensures is the law.
ghost use Rattle.desk_laws.specs.LegalMoves.{AcceptsLegalMoves};
ghost use Rattle.desk_laws.specs.Refusals.{KeepsBoth, KeepsTheDesk, KeepsTheLobby};
ghost use Rattle.one_server.specs.Laws.{HoldsInEachState};

/// In every state each desk accepts exactly legal moves: what is accepted is said by the player who is to move at a
/// board of a game that runs, stands for exactly one legal half-move of the position there, and puts this one on the
/// board, charged up to the moment of the act if it is charged; each word that stands for exactly one is accepted from
/// that player; and each legal half-move is the one that its pretty text stands for.
pub fn desks_accept_exactly_legal_moves()
    ensures { HoldsInEachState AcceptsLegalMoves }
{}

/// A refused act changes nothing, at a desk, in the lobby or in both: a word that is no legal move leaves the boards
/// and the clocks as they were.
pub fn refused_acts_change_nothing()
    ensures desk { KeepsTheDesk }
    ensures lobby { KeepsTheLobby }
    ensures both { KeepsBoth }
{}
