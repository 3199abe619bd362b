//! The boards of a game.
ghost use Rattle.std.specs.Prelude.{◌≡◌, ◌<◌, ◌≤◌, [], ◌∷◌, IfOk, IfSome, IsTrue, OnErr, length, slice_get};
ghost use Rattle.std.specs.Option.{option_copied, option_to_list};
ghost use Rattle.chess_model.specs.Limits.{most_halves};
ghost use Rattle.clock_ledger.specs.Charges.{IsChargeable};
ghost use Rattle.clock_ledger.specs.Span.{IsStamp};
ghost use Rattle.fics_words.specs.Effect.{first_cause, refusal_of, refused_by};
ghost use Rattle.game_board.specs.Board.{new_board};
ghost use Rattle.desk_boards.specs.Claims.{claim_at};
ghost use Rattle.desk_boards.specs.Replaying.{boards_put, own_takes};
ghost use Rattle.desk_boards.specs.TakenBack.{boards_taken_back, lacks_half_moves};
ghost use Rattle.fics_words.specs.Boards.{board_place};
ghost use Rattle.desk_boards.specs.Boards.{boards_acked, boards_after, flag_at, latest, new_boards, reply_at, word_at};

use crate::linked::play_linked;
use chess_model::{Colour, Man, MoveWord, Terms, Variant, Why};
use clock_ledger::Moment;
use fics_words::{BoardNumber, Refusal};
use game_board::{GameBoard, Played};
use memory::NoMemory;
use std::alloc::Global;
use std::marker::Model;

/// The boards of a game: one, or two in bughouse, of which each has learnt what was played on the other. Contracts see
/// them as their list.
#[derive(Drop)]
pub struct Boards {
    pub(crate) first: GameBoard,
    pub(crate) second: Option<GameBoard>,
}

impl Model for Boards {
    ghost use Rattle.std.specs.Prelude.{◌∷◌, IfSome, List};
    ghost use Rattle.std.specs.Option.{option_to_list};
    ghost use Rattle.game_board.specs.Board.{Board};
    ghost use Rattle.desk_boards.specs.Linked.{AreLinked};

    ghost Value = { List Board };

    ghost view = { λ b. b.first ∷ option_to_list b.second };

    ghost invariant = { λ b. IfSome b.second (AreLinked b.first) };
}

impl Boards {
    /// The boards at the start of a game: as many as the variant wants.
    pub fn start(alloc: Global, terms: Terms, moment: Moment) -> Result<Boards, NoMemory>
        ensures boards { IfOk result (λ boards. boards ≡ new_boards terms moment) }
        ensures order { IfOk result (λ boards. latest boards ≤ moment) }
    {
        let first = GameBoard::start(alloc, BoardNumber::First, terms, moment)?;
        match terms.variant {
            Variant::Bughouse => Boards::pair(alloc, first),
            Variant::Chess => Ok(Boards::single(first)),
            Variant::Crazyhouse => Ok(Boards::single(first)),
            Variant::Fischer(_) => Ok(Boards::single(first)),
        }
    }

    /// The one board of a game.
    fn single(first: GameBoard) -> Boards
        ensures { result ≡ first ∷ [] }
    {
        Boards {
            first,
            second: None,
        }
    }

    /// The boards at the start of a game of bughouse, the first of which is there.
    fn pair(alloc: Global, first: GameBoard) -> Result<Boards, NoMemory>
        requires start { first ≡ new_board 1 first.terms first.begin }
        requires variant { first.terms.variant ≡ Variant.Bughouse }
        ensures { IfOk result (λ boards. boards ≡ first ∷ new_board 2 first.terms first.begin ∷ []) }
    {
        let second = GameBoard::start(alloc, BoardNumber::Second, first.terms(), first.begin())?;
        Ok(Boards {
            first,
            second: Some(second),
        })
    }

    /// The first board, and the second if there is one.
    pub fn both(&self) -> (&GameBoard, Option<&GameBoard>)
        ensures { self.now ≡ result.0.now ∷ option_to_list (option_copied result.1) }
    {
        (&self.first, self.second.as_ref())
    }

    /// The board of that number, if the game has it.
    pub fn at(&self, board: BoardNumber) -> Option<&GameBoard>
        ensures { option_copied result ≡ slice_get self.now (board_place board) }
    {
        match board {
            BoardNumber::First => Some(&self.first),
            BoardNumber::Second => self.second.as_ref(),
        }
    }

    /// Plays a word of a colour at a board, with the stamp of its client if it has one, and gives the man that the
    /// half-move captures. The other board of a pair learns of it. Takes no memory.
    pub fn play(
        &mut self,
        board: BoardNumber,
        colour: Colour,
        word: &MoveWord,
        moment: Moment,
        stamp: Option<u32>,
    ) -> Result<Option<Man>, Refusal>
        requires order { latest self.old ≤ moment }
        requires stamp { IfSome stamp IsStamp }
        ensures refused { first_cause (refused_by (word_at (slice_get self.old (board_place board)) colour word.now))
            ≡ refusal_of result }
        ensures reply { result ≡ reply_at (slice_get self.old (board_place board))
            (word_at (slice_get self.old (board_place board)) colour word.now) }
        ensures after { self.new ≡ boards_after self.old board moment stamp
            (word_at (slice_get self.old (board_place board)) colour word.now) }
        ensures unchanged { OnErr result (self.new ≡ self.old) }
        ensures order { latest self.new ≤ moment }
    {
        match board {
            BoardNumber::First => match &mut self.second {
                Some(second) => play_linked(&mut self.first, second, colour, word, moment, stamp),
                None => self.first.play(colour, word, moment, stamp),
            },
            BoardNumber::Second => match &mut self.second {
                Some(second) => play_linked(second, &mut self.first, colour, word, moment, stamp),
                None => Err(Refusal::NotPlaying),
            },
        }
    }

    /// Puts a half-move on a board, with the charge that it has. The other board of a pair learns of it. Takes no
    /// memory.
    pub(crate) fn put(&mut self, board: BoardNumber, half: &Played)
        requires takes { IsTrue (own_takes (slice_get self.old (board_place board)) half.now) }
        requires short { IfSome (slice_get self.old (board_place board)) (λ b. length b.list < most_halves) }
        requires sound { IfSome half.now.charge IsChargeable }
        ensures after { self.new ≡ boards_put self.old board half.now }
    {
        self.lay(board, half);
    }

    /// The client of a colour acknowledges a board.
    pub fn acked(&mut self, board: BoardNumber, colour: Colour, stamp: u32)
        requires { IsStamp stamp }
        ensures after { self.new ≡ boards_acked self.old board colour stamp }
        ensures order { latest self.new ≡ latest self.old }
    {
        match board {
            BoardNumber::First => self.first.acked(colour, stamp),
            BoardNumber::Second => {
                if let Some(second) = &mut self.second {
                    second.acked(colour, stamp);
                }
            }
        }
    }

    /// The draw that may be claimed at a board, if there is one.
    pub fn claim(&self, board: BoardNumber) -> Option<Why>
        ensures { result ≡ claim_at (slice_get self.now (board_place board)) }
    {
        let board = self.at(board)?;
        match board.claim_draw() {
            Ok(why) => Some(why),
            Err(_) => None,
        }
    }

    /// Whether the first board lacks half-moves to take `n` back.
    pub fn lacks_half_moves(&self, n: u16) -> bool
        ensures { result ≡ lacks_half_moves self.now n }
    {
        n == 0 || self.first.list().len() < usize::from(n)
    }

    /// Takes the last `n` half-moves of the first board back, unless it is one of a pair.
    pub fn take_back(&mut self, n: u16, moment: Moment)
        requires order { latest self.old ≤ moment }
        ensures after { self.new ≡ boards_taken_back self.old n moment }
        ensures order { latest self.new ≤ moment }
    {
        match self.first.terms().variant {
            Variant::Chess => {
                let _ = self.first.take_back(n, moment);
            }
            Variant::Crazyhouse => {
                let _ = self.first.take_back(n, moment);
            }
            Variant::Bughouse => {}
            Variant::Fischer(_) => {
                let _ = self.first.take_back(n, moment);
            }
        }
    }

    /// What the flag that a colour calls at a board brings.
    pub fn flag(
        &self,
        board: BoardNumber,
        caller: Colour,
        moment: Moment,
    ) -> Result<Option<Colour>, Refusal>
        requires order { latest self.now ≤ moment }
        ensures { result ≡ flag_at (slice_get self.now (board_place board)) caller moment }
    {
        match board {
            BoardNumber::First => self.first.flag(caller, moment),
            BoardNumber::Second => match &self.second {
                Some(second) => second.flag(caller, moment),
                None => Err(Refusal::NotPlaying),
            },
        }
    }
}
