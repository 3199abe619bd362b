//! Words with a kind and a target, as `Nbd2`.
ghost use Rattle.std.specs.Prelude.{◌≡◌, ℕ, ◌<◌, ◌≤◌, ◌↔◌, IsTrue, IsFalse, ◌+◌, IfOk, IfErr, IfSome, IfNone};
ghost use Rattle.chess_model.specs.Answer.{IsAsGiven, IsAnswer, IsRefusal};
ghost use Rattle.chess_model.specs.Allowed.{Allowed};
ghost use Rattle.rules_answers.specs.NamedWords.{move_word_of, move_from, IsOrigin, IsChoiceFrom, IsExposedFrom};

use crate::asked::AskedBoard;
use crate::men::is_held_as_kind;
use crate::promotions::promotion_of;
use chess_model::{Kind, Move, Rejection, Square};

/// A word with a kind and a target.
#[derive(Drop)]
pub(crate) struct NamedWord {
    pub(crate) kind: Kind,
    pub(crate) file: Option<u8>,
    pub(crate) rank: Option<u8>,
    pub(crate) to: Square,
    pub(crate) promo: Option<Kind>,
}

fn is_as_given(given: Option<u8>, n: u8) -> bool
    ensures { IsTrue result ↔ IsAsGiven given n }
{
    match given {
        Some(wanted) => n == wanted,
        None => true,
    }
}

/// The square of a number.
fn square_of(n: u8) -> Square
    requires { n < 64 }
    ensures { result ≡ n }
{
    Square::on(n % 8, n / 8)
}

/// Whether the move is allowed.
pub(crate) fn is_allowed<B: AskedBoard>(board: &B, m: &Move) -> bool
    ensures { IsTrue result ↔ Allowed (B.position board.now) m.now }
{
    board.goes(m) && board.stays_safe(m)
}

/// Whether a man that the word names stands on a.
fn is_origin<B: AskedBoard>(board: &B, w: &NamedWord, a: Square) -> bool
    ensures { IsTrue result ↔ IsOrigin (B.position board.now) w.now a }
{
    if !is_held_as_kind(board.to_move(), w.kind, board.man_on(a)) {
        return false;
    }
    is_as_given(w.file, a.file()) && is_as_given(w.rank, a.rank())
}

/// The word's move from a.
fn move_from<B: AskedBoard>(board: &B, w: &NamedWord, a: Square) -> Move
    ensures { result ≡ move_from (B.position board.now) w.now a }
{
    Move::Plain {
        from: a,
        to: w.to,
        promo: promotion_of(board, a, w.to, w.promo),
    }
}

#[tactic(auto, unfolding(crate::specs::NamedWords::IsChoiceFrom))]
fn is_choice_from<B: AskedBoard>(board: &B, w: &NamedWord, a: Square) -> bool
    ensures { IsTrue result ↔ IsChoiceFrom (B.position board.now) w.now a }
{
    is_origin(board, w, a) && is_allowed(board, &move_from(board, w, a))
}

#[tactic(auto, unfolding(crate::specs::NamedWords::IsExposedFrom))]
fn is_exposed_from<B: AskedBoard>(board: &B, w: &NamedWord, a: Square) -> bool
    ensures { IsTrue result ↔ IsExposedFrom (B.position board.now) w.now a }
{
    if !is_origin(board, w, a) {
        return false;
    }
    let m = move_from(board, w, a);
    board.goes(&m) && !board.stays_safe(&m)
}

/// The least origin from the square number n on, from which the word's move is allowed.
fn first_choice<B: AskedBoard>(board: &B, w: &NamedWord, n: u8) -> Option<Square>
    ensures found { IfSome result (λ a. (n ≤ a) × IsChoiceFrom (B.position board.now) w.now a) }
    ensures first { IfSome result (λ a. (k : ℕ) → n ≤ k → k < a → ¬ IsChoiceFrom (B.position board.now) w.now k) }
    ensures none { IfNone result ((k : ℕ) → n ≤ k → k < 64 → ¬ IsChoiceFrom (B.position board.now) w.now k) }
{
    for a in n..64 {
        if is_choice_from(board, w, square_of(a)) {
            return Some(square_of(a));
        }
    }
    None
}

/// Whether some move of the word fails by the safety of the own king alone.
fn has_exposed<B: AskedBoard>(board: &B, w: &NamedWord) -> bool
    ensures some { IsTrue result → (a : ℕ) × IsExposedFrom (B.position board.now) w.now a }
    ensures none { IsFalse result → (k : ℕ) → k < 64 → ¬ IsExposedFrom (B.position board.now) w.now k }
{
    for a in 0..64 {
        if is_exposed_from(board, w, square_of(a)) {
            return true;
        }
    }
    false
}

/// Whether a man that the word names stands anywhere.
fn has_origin<B: AskedBoard>(board: &B, w: &NamedWord) -> bool
    ensures some { IsTrue result → (a : ℕ) × IsOrigin (B.position board.now) w.now a }
    ensures none { IsFalse result → (k : ℕ) → k < 64 → ¬ IsOrigin (B.position board.now) w.now k }
{
    for a in 0..64 {
        if is_origin(board, w, square_of(a)) {
            return true;
        }
    }
    false
}

/// The answer to a word with a kind and a target.
#[tactic(auto, using(crate::proofs::NamedAnswers::named_leaves_king, crate::proofs::NamedAnswers::named_out_of_reach))]
pub(crate) fn named_answer<B: AskedBoard>(board: &B, w: &NamedWord) -> Result<Move, Rejection>
    ensures answered { IfOk result (IsAnswer (B.position board.now) (move_word_of w.now)) }
    ensures refused { IfErr result (IsRefusal (B.position board.now) (move_word_of w.now)) }
{
    match first_choice(board, w, 0) {
        Some(a) => match first_choice(board, w, a.number() + 1) {
            Some(_second) => Err(Rejection::Ambiguous),
            None => Ok(move_from(board, w, a)),
        },
        None => {
            if has_exposed(board, w) {
                return Err(Rejection::LeavesKing);
            }
            if has_origin(board, w) {
                return Err(Rejection::CannotReach);
            }
            Err(Rejection::NoPiece)
        }
    }
}
