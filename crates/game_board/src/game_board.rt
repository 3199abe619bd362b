//! A game on one board with its clocks: playing, taking back, ending.
ghost use Rattle.std.specs.Prelude.{◌≡◌, ◌≢◌, Option, ◌<◌, ◌≤◌, IfOk, OnOk, OnErr, IfSome, length, option_and_then};
ghost use Rattle.chess_model.specs.Limits.{most_halves};
ghost use Rattle.clock_ledger.specs.declared.charges.Charge.{Charge};
ghost use Rattle.clock_ledger.specs.Charges.{IsChargeable, last_moment};
ghost use Rattle.clock_ledger.specs.Span.{IsStamp};
ghost use Rattle.chess_model.specs.Holdings.{same_colour};
ghost use Rattle.game_board.specs.Flag.{is_bare, has_only_king};
ghost use Rattle.chess_model.specs.Allowed.{Allowed, IsLegal};
ghost use Rattle.variant_rules.specs.States.{state_in};

use crate::board_face::face;
use crate::causes::answer_of;
use crate::played::{Made, Played, Step};
use chess_model::{
    Colour, Face, Kind, MOST_HALVES, Man, Move, MoveWord, Shown, State, Terms, Variant,
};
use clock_ledger::{Charge, ClockLedger, Moment};
use collections::Roomy;
use fics_words::{BoardNumber, Refusal};
use memory::NoMemory;
use std::alloc::Global;
use std::marker::Model;
use variant_rules::Position;

/// A game on one board with its clocks, from the start.
#[derive(Drop)]
pub struct GameBoard {
    pub(crate) number: BoardNumber,
    pub(crate) terms: Terms,
    pub(crate) position: Position,
    pub(crate) list: Roomy<Played, MOST_HALVES>,
    /// For each half-move of the list, what takes it back and what a printed board shows of it.
    pub(crate) steps: Roomy<Step, MOST_HALVES>,
    pub(crate) white: ClockLedger,
    pub(crate) black: ClockLedger,
    pub(crate) begin: Moment,
    /// The stamp with which the client of the player to move acknowledged the board, if it did so since `begin`.
    pub(crate) kept: Option<u32>,
    pub(crate) played: u16,
    /// How many half-moves of the list, the first ones, came with their charges.
    pub(crate) resumed: u16,
    /// The half-moves of this board and of the partner's, in their order.
    pub(crate) all: Roomy<Made, 2400>,
}

impl Model for GameBoard {
    ghost use Rattle.fics_words.specs.Boards.{board_number};
    ghost use Rattle.game_board.specs.Board.{Board, made};

    ghost Value = { Board };

    ghost use Rattle.game_board.specs.Holds.{HoldsBoard};

    ghost view = { λ g. record {
      number = board_number g.number;
      terms = g.terms;
      list = g.list;
      begin = g.begin;
      kept = g.kept;
      played = g.played;
      resumed = g.resumed;
      all = made g.all;
    } };

    ghost invariant = { HoldsBoard };
}

impl GameBoard {
    ghost use Rattle.fics_words.specs.Boards.{board_number};
    ghost use Rattle.game_board.specs.Acked.{acknowledged};
    ghost use Rattle.game_board.specs.Board.{half_moves, made, new_board, to_move, position_of, has_moved};
    ghost use Rattle.game_board.specs.BoardFace.{board_face, last_played, last_shown, last_taken};
    ghost use Rattle.game_board.specs.Charges.{clock_of, is_timed};
    ghost use Rattle.game_board.specs.Play.{captured_in, move_answer, next_charge, with_half_move, play_reply, play_after};
    ghost use Rattle.game_board.specs.Flag.{flag_answer, running, has_fallen, cannot_win};

    /// The board of that number at the start of a game, whose first player begins to think at `moment`. Room
    /// for all its half-moves and charges is taken here, and no later call takes memory.
    pub fn start(
        alloc: Global,
        number: BoardNumber,
        terms: Terms,
        moment: Moment,
    ) -> Result<GameBoard, NoMemory>
        ensures { IfOk result (λ b. b ≡ new_board (board_number number) terms moment) }
    {
        Ok(GameBoard {
            number,
            terms,
            position: Position::start(terms.variant),
            list: Roomy::new(alloc)?,
            steps: Roomy::new(alloc)?,
            white: ClockLedger::start(alloc, terms.minutes, terms.increment)?,
            black: ClockLedger::start(alloc, terms.minutes, terms.increment)?,
            begin: moment,
            kept: None,
            played: 0,
            resumed: 0,
            all: Roomy::new(alloc)?,
        })
    }

    /// The number of the board among those of the game.
    pub fn number(&self) -> BoardNumber
        ensures { board_number result ≡ self.now.number }
    {
        self.number
    }

    /// What the players agreed on.
    pub fn terms(&self) -> Terms
        ensures { result ≡ self.now.terms }
    {
        self.terms
    }

    /// The half-moves from the start, with their charges. Each was allowed after those before it, of both boards of a
    /// pair; but in bughouse there are no others.
    pub fn list(&self) -> &[Played]
        ensures list { result.now ≡ self.now.list }
        ensures legal { IsLegal self.now.terms.variant self.now.all }
        ensures alone { self.now.terms.variant ≢ Variant.Bughouse → self.now.all
            ≡ half_moves self.now.number self.now.list }
    {
        self.list.as_slice()
    }

    /// The half-moves of this board and of the partner's, in the order in which they were made.
    pub fn all(&self) -> &[Made]
        ensures { made result.now ≡ self.now.all }
    {
        self.all.as_slice()
    }

    /// The colour that is to move.
    pub fn to_move(&self) -> Colour
        ensures { result ≡ to_move self.now }
    {
        self.position.to_move()
    }

    /// How many half-moves were played on the board.
    pub fn played(&self) -> u16
        ensures value { result ≡ self.now.played }
        ensures most { self.now.played ≤ most_halves }
    {
        self.played
    }

    /// How many half-moves of the list, the first ones, came with their charges, as where an adjourned game is resumed.
    pub fn resumed(&self) -> u16
        ensures value { result ≡ self.now.resumed }
        ensures within { self.now.resumed ≤ length self.now.list }
    {
        self.resumed
    }

    /// The moment, in milliseconds, from which the player to move is thinking.
    pub fn begin(&self) -> Moment
        ensures { result ≡ self.now.begin }
    {
        self.begin
    }

    /// The clock of a colour. It doesn't count time that is running.
    pub fn ledger(&self, colour: Colour) -> &ClockLedger
        ensures { result.now ≡ clock_of self.now.terms colour self.now.list }
    {
        match colour {
            Colour::White => &self.white,
            Colour::Black => &self.black,
        }
    }

    /// The position on the board.
    pub fn position(&self) -> &Position
        ensures { result.now ≡ position_of self.now }
    {
        &self.position
    }

    /// What the position is for the player to move: check, mate or stalemate, or none of these.
    pub fn state(&self) -> State
        ensures { result ≡ state_in (position_of self.now) }
    {
        self.position().state()
    }

    /// What a printed board shows of the game, names and clocks aside.
    pub fn face(&self) -> Face
        ensures { result ≡ board_face self.now }
    {
        let last = self.last_shown();
        face(self.position(), self.list.len() as u16, last.as_ref())
    }

    /// What is shown of the last half-move, if there is one.
    fn last_shown(&self) -> Option<Shown>
        ensures { result ≡ last_shown self.now.terms.variant self.now.number self.now.all self.now.list }
    {
        let last = self.steps.as_slice().last()?;
        Some(last.shown)
    }

    /// The time that the last half-move is charged with, in milliseconds; 0 where it has no charge.
    pub fn last_taken(&self) -> u64
        ensures { result ≡ last_taken self.now.list }
    {
        match self.last_charge() {
            Some(charge) => charge.amount(),
            None => 0,
        }
    }

    /// The charge of the last half-move, if it has one.
    fn last_charge(&self) -> Option<Charge>
        ensures value { result ≡ option_and_then (λ p. p.charge) (last_played self.now.list) }
        ensures sound { IfSome result IsChargeable }
    {
        let last = self.list.as_slice().last()?;
        last.charge
    }

    /// Whether that colour is to move.
    fn is_to_move(&self, colour: Colour) -> bool
        ensures { result ≡ same_colour colour (to_move self.now) }
    {
        colour.is_same(self.to_move())
    }

    /// Whether that colour has made a half-move.
    pub(crate) fn has_moved(&self, colour: Colour) -> bool
        ensures { result ≡ has_moved colour self.now.list }
    {
        match colour {
            Colour::White => self.list.len() > 0,
            Colour::Black => self.list.len() > 1,
        }
    }

    /// Whether the game is played with clocks.
    pub(crate) fn is_timed(&self) -> bool
        ensures { result ≡ is_timed self.now.terms }
    {
        self.white.timed()
    }

    /// The charge of a half-move that is made now with this stamp of its client, if it has one.
    fn next_charge(&self, moment: Moment, stamp: Option<u32>) -> Option<Charge>
        ensures value { result ≡ next_charge self.now moment stamp }
        ensures kept { IfSome self.now.kept IsStamp }
        ensures timely { moment ≤ last_moment }
    {
        let end = moment.millis();
        let client = self.kept.zip(stamp);
        if !self.is_next_charged() {
            return None;
        }
        Some(Charge {
            begin: self.begin.millis(),
            end,
            client,
        })
    }

    /// The half-move that a word of a colour stands for now. Refuses with `NotYourTurn`, then `TooManyMoves` at 1,200
    /// half-moves, then as the rules answer the word.
    #[tactic(auto, unfolding(crate::specs::Play::move_answer))]
    pub fn resolve(&self, colour: Colour, word: &MoveWord) -> Result<Move, Refusal>
        ensures answer { result ≡ move_answer self.now colour word.now }
        ensures allowed { IfOk result (Allowed (position_of self.now)) }
        ensures room { OnOk result (self.now.played < most_halves) }
        ensures short { OnOk result (length self.now.list < most_halves) }
    {
        if !self.is_to_move(colour) {
            return Err(Refusal::NotYourTurn);
        }
        if usize::from(self.played) == MOST_HALVES {
            return Err(Refusal::TooManyMoves);
        }
        answer_of(self.position(), word)
    }

    /// Makes an allowed half-move at `moment`, with the client's stamp if there is one, as `play` does with the one
    /// that its word stands for, and gives the man that it captures.
    pub fn make(&mut self, what: &Move, moment: Moment, stamp: Option<u32>) -> Option<Man>
        requires allowed { Allowed (position_of self.old) what.now }
        requires room { self.old.played < most_halves }
        requires order { self.old.begin ≤ moment }
        requires stamp { IfSome stamp IsStamp }
        ensures captured { result ≡ captured_in self.old what.now }
        ensures after { self.new ≡ with_half_move self.old what.now moment stamp }
    {
        let charge = self.next_charge(moment, stamp);
        let captured = self.add(&Played {
            what: *what,
            charge,
        });
        self.begin = moment;
        captured
    }

    /// Plays a word of `colour` at `moment`, in milliseconds, and gives the man that the half-move captures. `stamp` is
    /// the client's own time of the move, below `STAMP_CYCLE`, where its link is stamped: with that of the board's
    /// acknowledgement it is kept in the charge. Refuses with `NotYourTurn`, then `TooManyMoves` at 1,200 half-moves,
    /// then as the rules answer the word; a refusal changes nothing.
    pub fn play(
        &mut self,
        colour: Colour,
        word: &MoveWord,
        moment: Moment,
        stamp: Option<u32>,
    ) -> Result<Option<Man>, Refusal>
        requires order { self.old.begin ≤ moment }
        requires stamp { IfSome stamp IsStamp }
        ensures reply { result ≡ play_reply self.old (move_answer self.old colour word.now) }
        ensures after { self.new ≡ play_after self.old moment stamp (move_answer self.old colour word.now) }
        ensures unchanged { OnErr result (self.new ≡ self.old) }
    {
        let what = self.resolve(colour, word)?;
        Ok(self.make(&what, moment, stamp))
    }

    /// The client of `colour` acknowledges the board with its own time, below `STAMP_CYCLE`. The last stamp of the
    /// player to move is kept until the next half-move; one of the other player changes nothing.
    pub fn acked(&mut self, colour: Colour, stamp: u32)
        requires { IsStamp stamp }
        ensures { self.new ≡ acknowledged self.old colour stamp }
    {
        if self.is_to_move(colour) {
            self.kept = Some(stamp);
        }
    }

    /// Calls the flag on the opponent of `caller` at `moment`, in milliseconds: gives the winner, or None for a draw.
    /// Refuses with `NotFallen` where the opponent has time left, the running time counted.
    #[tactic(auto, unfolding(crate::specs::Flag::flag_answer))]
    pub fn flag(&self, caller: Colour, moment: Moment) -> Result<Option<Colour>, Refusal>
        requires order { self.now.begin ≤ moment }
        ensures { result ≡ flag_answer self.now caller moment }
    {
        if !self.has_fallen(caller.opposite(), moment) {
            return Err(Refusal::NotFallen);
        }
        if self.cannot_win(caller, moment) {
            return Ok(None);
        }
        Ok(Some(caller))
    }

    /// The time that is running against a colour.
    fn running(&self, colour: Colour, moment: Moment) -> u64
        requires { self.now.begin ≤ moment }
        ensures value { result ≡ running self.now colour moment }
        ensures most { result ≤ moment }
    {
        if self.is_to_move(colour) && self.has_moved(colour) {
            moment.millis() - self.begin.millis()
        } else {
            0
        }
    }

    /// Whether a colour's clock has fallen.
    fn has_fallen(&self, colour: Colour, moment: Moment) -> bool
        requires order { self.now.begin ≤ moment }
        ensures { result ≡ has_fallen self.now colour moment }
    {
        if !self.is_timed() {
            return false;
        }
        self.ledger(colour).remaining() <= self.running(colour, moment) as i64
    }

    /// Whether the caller of a flag can't win by it.
    fn cannot_win(&self, caller: Colour, moment: Moment) -> bool
        requires order { self.now.begin ≤ moment }
        ensures { result ≡ cannot_win self.now caller moment }
    {
        if self.has_fallen(caller, moment) {
            return true;
        }
        match self.terms.variant {
            Variant::Chess => has_only_king(self.position(), caller),
            Variant::Crazyhouse => false,
            Variant::Bughouse => false,
            Variant::Fischer(_) => has_only_king(self.position(), caller),
        }
    }
}

/// Whether no man, a man of the other colour or a king stands there.
fn is_bare(colour: Colour, man: &Option<Man>) -> bool
    ensures { result ≡ is_bare colour man.now }
{
    match man {
        None => true,
        Some(man) => !man.colour.is_same(colour) || matches!(man.kind, Kind::King),
    }
}

/// Whether a colour has only a king.
fn has_only_king(position: &Position, colour: Colour) -> bool
    ensures { result ≡ has_only_king position.now.men colour }
{
    position.men().iter().all(|man| is_bare(colour, man))
}
