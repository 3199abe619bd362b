//! What the definitions of the rules mean, in the words of the game. Each call does nothing: its contract is the law.

ghost use Rattle.chess_model.specs.Laws.{EachSquareIsKnown, AttackGoesBothWays, RightsNeverComeBack, CountsQuietMoves, NoMenAreMade, LegalListsGrow, TestsSayTheRules, WordsAreAnswered, MovesAreListed, StatesAreTold};
ghost use Rattle.chess_model.specs.FischerArrays.{FischerArrays};
ghost use Rattle.chess_model.specs.LegalPositions.{LegalPositionsAreSound, OtherBoardStays, ColoursAlternate, HomesAreInTheArray};
ghost use Rattle.chess_model.specs.Census.{CensusStays};
ghost use Rattle.chess_model.specs.Claims.{ThirdTimes};
ghost use Rattle.chess_model.specs.Examples.{WorkedExamples};
ghost use Rattle.chess_model.specs.WordExamples.{AllowedExamples, WordExamples};
ghost use Rattle.chess_model.specs.ResultExamples.{ResultExamples, ClaimExamples};

/// What an allowed half-move does to each square: the man that moves or comes stands on its target, the squares that
/// are left or taken on are empty, and every other square is as before.
#[tactic(auto, using(crate::proofs::ChessLaws::known_squares))]
pub fn each_square_is_known()
    ensures { EachSquareIsKnown }
{}

/// A square is attacked exactly where some kind of man, put on it with the other colour, would strike an attacking
/// man of that kind.
#[tactic(auto, using(crate::proofs::ChessLaws::attack_both_ways))]
pub fn attack_goes_both_ways()
    ensures { AttackGoesBothWays }
{}

/// A castling right that has gone never comes back.
pub fn rights_never_come_back()
    ensures { RightsNeverComeBack }
{}

/// The quiet count is 0 after a pawn's move, a capture or a drop, and grows by 1 after any other half-move.
#[tactic(auto, using(crate::proofs::ChessLaws::quiet_counted))]
pub fn quiet_moves_are_counted()
    ensures { CountsQuietMoves }
{}

/// No allowed half-move makes men: those on the board and in its two hands don't grow in number.
#[tactic(auto, using(crate::proofs::ChessLaws::men_not_made))]
pub fn no_men_are_made()
    ensures { NoMenAreMade }
{}

/// A legal list of half-moves stays legal with an allowed half-move at its end and without its last one.
#[tactic(auto, using(crate::proofs::LegalLists::legal_lists))]
pub fn legal_lists_grow()
    ensures { LegalListsGrow }
{}

/// The tests that compute which half-moves are allowed say what the relations say.
pub fn tests_say_the_rules()
    ensures { TestsSayTheRules }
{}

/// The answer to a word that computes is the one allowed match, or else the first refusal that applies.
pub fn words_are_answered()
    ensures { WordsAreAnswered }
{}

/// The list of allowed half-moves has exactly these, in their order.
#[tactic(auto, using(crate::proofs::MovesListed::moves_listed))]
pub fn moves_are_listed()
    ensures { MovesAreListed }
{}

/// Check, mate and stalemate are what the words of the rules say.
#[tactic(auto, using(crate::proofs::StatesTold::state_told))]
pub fn states_are_told()
    ensures { StatesAreTold }
{}

/// After every legal list of half-moves each colour has one king, the side that isn't to move isn't in check, king and
/// rook stand on their homes where a right stands, and an enemy pawn stands behind the en passant square, which is
/// empty. A capture takes an enemy man, and never a king.
#[tactic(auto, using(crate::proofs::SoundPositions::legal_sound))]
pub fn legal_positions_are_sound()
    ensures { LegalPositionsAreSound }
{}

/// A half-move of another board leaves this board alone, but for its hands.
#[tactic(auto, using(crate::proofs::Movers::other_board_stays))]
pub fn other_board_stays()
    ensures { OtherBoardStays }
{}

/// Of the half-moves of a board, counted from 0, those with an even number are White's.
#[tactic(auto, using(crate::proofs::Movers::colours_alternate))]
pub fn colours_alternate()
    ensures { ColoursAlternate }
{}

/// Each number from 0 to 959 has an array of Fischer random, no two have the same one, and 518 has the usual one.
#[tactic(auto, using(crate::proofs::HomeRanks::fischer_arrays))]
pub fn fischer_arrays_are_set_up()
    ensures { FischerArrays }
{}

/// The homes of kings and rooks are where these stand in the array.
#[tactic(auto, using(crate::proofs::Movers::homes_in_array))]
pub fn homes_are_in_the_array()
    ensures { HomesAreInTheArray }
{}

/// A position stands for the third time exactly where it has stood twice before.
#[tactic(auto, using(crate::proofs::Threefold::third_times))]
pub fn third_times_are_counted()
    ensures { ThirdTimes }
{}

/// No legal list of half-moves makes or loses a man, by colour and kind: in chess and in Fischer random with the
/// captured men, in crazyhouse with both hands, and in a pair of boards with the hands of both boards. A promoted man
/// counts as a pawn.
#[tactic(auto, using(crate::proofs::Censuses::census_kept))]
pub fn census_stays()
    ensures { CensusStays }
{}

/// What the definitions give in positions that everybody knows.
pub fn worked_examples()
    ensures { WorkedExamples }
{}

/// What is allowed and what is not: a pinned man, en passant, castling by the attacked squares, promotion.
pub fn worked_moves()
    ensures { AllowedExamples }
{}

/// What words stand for, and each refusal.
pub fn worked_words()
    ensures { WordExamples }
{}

/// Mates, stalemates, and positions that are neither, in chess, crazyhouse and bughouse.
pub fn worked_results()
    ensures { ResultExamples }
{}

/// What stands for the third time, and which en passant squares count for it.
pub fn worked_claims()
    ensures { ClaimExamples }
{}
