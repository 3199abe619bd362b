//! What the definitions mean for players, as calls that do nothing: what each ensures is the law.
ghost use Rattle.std.specs.Prelude.{◌≡◌, ◌≢◌, ℕ, ◌+◌, ◌<◌, ◌≤◌, ◌++◌, ◌∷◌, [], ◌↔◌, List, Ok, Err, Option, None, Some, IfSome, IsTrue, slice_get};
ghost use Rattle.std.specs.Option.{option_to_list};
ghost use Rattle.chess_model.specs.Limits.{most_halves};
ghost use Rattle.chess_model.specs.declared.man.Colour.{Colour};
ghost use Rattle.chess_model.specs.declared.moves.Move.{Move};
ghost use Rattle.chess_model.specs.declared.moves.MoveWord.{MoveWord};
ghost use Rattle.chess_model.specs.declared.variant.Terms.{Terms};
ghost use Rattle.chess_model.specs.Placement.{opposite};
ghost use Rattle.chess_model.specs.Allowed.{Allowed};
ghost use Rattle.chess_model.specs.Answer.{IsAnswer};
ghost use Rattle.chess_model.specs.MoveList.{HalfMove};
ghost use Rattle.clock_ledger.specs.Charges.{IsChargeable};
ghost use Rattle.clock_ledger.specs.Span.{IsStamp};
ghost use Rattle.game_board.specs.Acked.{acknowledged};
ghost use Rattle.game_board.specs.Board.{Board, new_board, to_move, mover_after, position_of};
ghost use Rattle.game_board.specs.BoardFace.{before_own};
ghost use Rattle.game_board.specs.Charges.{charges_of};
ghost use Rattle.game_board.specs.Flag.{StaysFallen, has_fallen};
ghost use Rattle.game_board.specs.Play.{move_answer, next_charge, play_after, with_half_move};
ghost use Rattle.game_board.specs.Learn.{partner_position, learnt};
ghost use Rattle.game_board.specs.Put.{takes_played, with_put};
ghost use Rattle.game_board.specs.Scoresheet.{IsTrueScore};
ghost use Rattle.game_board.specs.TakeBack.{take_back_after};

use crate::game_board::GameBoard;
use crate::played::Played;
use chess_model::{Colour, MoveWord, Variant};
use fics_words::Refusal;

/// The charges of the colours follow the list of half-moves: there are none at the start, and a half-move adds its
/// charge to the colour who was to move, and nothing to the other.
pub fn charges_follow_the_list(list: &[Played], next: &Played)
    ensures start { (c : Colour) → charges_of c [] ≡ [] }
    ensures own { (c : Colour) → mover_after list.now ≡ c → charges_of c (list.now ++ next.now ∷ [])
        ≡ charges_of c list.now ++ option_to_list next.now.charge }
    ensures other { (c : Colour) → mover_after list.now ≡ opposite c → charges_of c (list.now ++ next.now ∷ [])
        ≡ charges_of c list.now }
{}

/// A board with room takes from the colour to move exactly the words that have an answer by the rules, and takes
/// nothing from the other colour.
pub fn play_takes_exactly_the_answers(board: &GameBoard, colour: Colour, word: &MoveWord)
    ensures own { to_move board.now ≡ colour → board.now.played < most_halves →
        (m : Move) → (move_answer board.now colour word.now ≡ Ok m) ↔ IsAnswer (position_of board.now) word.now m }
    ensures other { to_move board.now ≢ colour → move_answer board.now colour word.now ≡ Err Refusal.NotYourTurn }
    ensures full { to_move board.now ≡ colour → board.now.played ≡ most_halves → move_answer board.now colour word.now
        ≡ Err Refusal.TooManyMoves }
{}

/// The next charge of a board, where there is one, keeps the client's own times exactly where the player to move
/// acknowledged the board since the half-move before and the move comes with a stamp; of several acknowledgements the
/// last one counts, and one of the other player changes nothing.
pub fn the_last_acknowledgement_counts()
    ensures last { (b : Board) (c : Colour) (first last : ℕ) → acknowledged (acknowledged b c first) c last
        ≡ acknowledged b c last }
    ensures other { (b : Board) (c : Colour) (stamp : ℕ) → to_move b ≢ c → acknowledged b c stamp ≡ b }
    ensures stamped { (b : Board) (c : Colour) (seen made moment : ℕ) → to_move b ≡ c →
        IfSome (next_charge (acknowledged b c seen) moment (Some made)) (λ charge. charge.client ≡ Some (seen, made)) }
    ensures unstamped { (b : Board) (moment : ℕ) → IfSome (next_charge b moment None)
        (λ charge. charge.client ≡ None) }
    ensures unseen { (b : Board) (moment : ℕ) (stamp : Option ℕ) → b.kept ≡ None → IfSome (next_charge b moment stamp)
        (λ charge. charge.client ≡ None) }
    ensures cleared { (b : Board) (m : Move) (moment : ℕ) (stamp : Option ℕ)
        → (with_half_move b m moment stamp).kept ≡ None }
{}

/// A clock that has fallen stays fallen while the same player thinks: at every later moment, whatever the clients
/// acknowledge, and whatever is played on the partner's board.
pub fn a_fallen_clock_stays_fallen()
    ensures later { (b : Board) (c : Colour) → StaysFallen b c }
    ensures acked { (b : Board) (c by : Colour) (stamp moment : ℕ)
        → has_fallen (acknowledged b by stamp) c moment ≡ has_fallen b c moment }
    ensures learnt { (b : Board) (c : Colour) (m : Move) (moment : ℕ)
        → has_fallen (learnt b m) c moment ≡ has_fallen b c moment }
{}

/// The list of a board is a true score of its game from the start on, whatever half-moves are put on it with charges
/// of another day, whatever words are played and whatever half-moves are taken back, at moments that don't fall, and
/// whatever clients acknowledge it: its half-moves are legal, the charges of those that were made on the board follow
/// from the moments at which they were made and those since which their players were thinking, the clocks follow from
/// all charges, and what it keeps of the clients' own times are stamps. On a board that wasn't resumed that is so of
/// each charge: it begins at the moment since which the player was thinking, and ends at the half-move's own.
pub fn scores_are_true()
    ensures start { (number : ℕ) (terms : Terms) (moment : ℕ) → IsTrueScore (new_board number terms moment) }
    ensures play { (b : Board) (c : Colour) (word : MoveWord) (moment : ℕ) (stamp : Option ℕ) → IsTrueScore b
        → b.begin ≤ moment → IfSome stamp IsStamp → IsTrueScore (play_after b moment stamp (move_answer b c word)) }
    ensures acked { (b : Board) (c : Colour) (stamp : ℕ) → IsTrueScore b → IsStamp stamp
        → IsTrueScore (acknowledged b c stamp) }
    ensures put { (b : Board) (p : Played) → IsTrueScore b → IsTrue (takes_played b p) → IfSome p.charge IsChargeable
        → IsTrueScore (with_put b p) }
    ensures take_back { (b : Board) (n moment : ℕ) → b.terms.variant ≢ Variant.Bughouse → IsTrueScore b
        → b.begin ≤ moment → IsTrueScore (take_back_after b n moment) }
    ensures learn { (b : Board) (m : Move) → b.terms.variant ≡ Variant.Bughouse → IsTrueScore b
        → Allowed (partner_position b) m → IsTrueScore (learnt b m) }
    ensures not_resumed { (b : Board) (s : IsTrueScore b) → b.resumed ≡ 0 → (k : ℕ) (p : Played)
        → slice_get b.list k ≡ Some p → IfSome p.charge (λ c. slice_get s.since k ≡ Some c.begin)
        × IfSome p.charge (λ c. slice_get s.moments (k + 1) ≡ Some c.end) }
{}

/// What a board shows as its last half-move is its own last one, read in the position before it: what was made on the
/// partner's board since then changes nothing of that.
#[tactic(auto, using(crate::proofs::OwnMoves::last_own))]
pub fn the_last_own_half_move_is_shown()
    ensures own { (number : ℕ) (before : List HalfMove) (m : Move)
        → before_own number (before ++ record { board = number; what = m } ∷ []) ≡ before }
    ensures other { (number other : ℕ) (before : List HalfMove) (m : Move) → other ≢ number
        → before_own number (before ++ record { board = other; what = m } ∷ []) ≡ before_own number before }
{}
