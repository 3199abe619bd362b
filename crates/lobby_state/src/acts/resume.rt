//! Resume: a member asks to go on with an adjourned game, and the plan of it is told.
ghost use Rattle.std.specs.Prelude.{◌≡◌, ◌<◌, ◌+◌, length};
ghost use Rattle.fics_words.specs.Effect.{answer_of};
ghost use Rattle.game_records.specs.Bounds.{seats};
ghost use Rattle.game_records.specs.Replays.{Replays};
ghost use Rattle.lobby_state.specs.Holds.{holds};
ghost use Rattle.lobby_state.specs.Pairing.{is_crowded};
ghost use Rattle.lobby_state.specs.Resume.{are_full_up, are_held, as_they_sat, seats_at_board, resuming_at, has_asked_for, is_held, playing_as};
ghost use Rattle.lobby_state.specs.Resume.{resume_effect, resuming, seated_as, would_start};

use crate::acts::Plan;
use crate::member::Member;
use crate::roster::Roster;
use crate::start_plan::MOST_GAMES;
use chess_model::Variant;
use collections::Predicate;
use fics_words::{DeskNumber, Handle, HandleKey, Opponents, Player, Refusal, Seats};
use lobby_shelf::Shelved;

impl Roster {
    /// What a Resume is to do. The causes of a refusal, in order: the session isn't a member; nobody has the handle, or
    /// that member is going; it is the session itself; no stored game has both among its players; a player whom it
    /// concerns has a place and gives no simul, or gives one where four play; where the game would start, one of its
    /// players has 32 places, or all desks are in use or 2^62 games were started; where the other would be asked, 512
    /// lines wait for it.
    pub(crate) fn resume_plan(&self, session: u32, key: HandleKey) -> Result<Plan, Refusal>
        ensures { result ≡ answer_of (resume_effect self.now session key) }
    {
        let Some(caller) = self.member(session) else {
            return Err(Refusal::NotIn);
        };
        let Some(other) = self.named(key) else {
            return Err(Refusal::NoSuchPlayer);
        };
        if other.session == session {
            return Err(Refusal::BadOpponent);
        }
        let Some(row) = self.shelf.least_of(caller.name.key(), key) else {
            return Err(Refusal::NoStored);
        };
        self.resume_row(caller, other, row)
    }

    /// The plan of a game of which the caller is a player: it starts where all other players ask for it.
    fn resume_row(&self, caller: &Member, other: &Member, row: &Shelved) -> Result<Plan, Refusal>
        requires { Replays row.now.game }
        ensures { result ≡ answer_of
            (resuming self.now (record { caller = caller.now; other = other.now; row = row.now })) }
    {
        if self.would_start(caller, row) {
            return self.go_on(row);
        }
        let variant = row.game.terms.variant;
        if is_held(caller, variant) || is_held(other, variant) {
            return Err(Refusal::Playing);
        }
        if other.is_full() {
            return Err(Refusal::QueueFull);
        }
        Ok(Plan::Ask {
            from: caller.session,
            to: other.session,
            number: row.number,
        })
    }

    /// Whether all players of the game but the caller ask for it.
    fn would_start(&self, caller: &Member, row: &Shelved) -> bool
        ensures { result ≡ would_start self.now caller.now row.now }
    {
        let asks = Asks {
            roster: self,
            number: row.number,
        };
        row.all_others(caller.name.key(), &asks)
    }

    /// Whether the player of this name is there and asks to resume the game of that number.
    fn has_asked_for(&self, number: u64, name: Handle) -> bool
        ensures { result ≡ has_asked_for self.now number name }
    {
        match self.with_handle(name.key()) {
            Some(member) => self.shelf.asks(member.session, number),
            None => false,
        }
    }

    /// The plan of the game at the least free desk.
    fn go_on(&self, row: &Shelved) -> Result<Plan, Refusal>
        requires { Replays row.now.game }
        ensures { result ≡ answer_of (resuming_at self.now row.now) }
    {
        let terms = row.game.terms;
        if self.are_held(terms.variant, &row.game.names) {
            return Err(Refusal::Playing);
        }
        if self.are_full_up(&row.game.names) {
            return Err(Refusal::SimulFull);
        }
        let Some(slot) = self.free_slot() else {
            return Err(Refusal::NoDesk);
        };
        if self.started >= MOST_GAMES {
            return Err(Refusal::NoDesk);
        }
        Ok(Plan::Resume {
            desk: DeskNumber::new(slot as u8 + 1),
            serial: self.started + 1,
            number: row.number,
            terms,
            seats: self.as_they_sat(&row.game.names, terms.variant),
        })
    }

    /// Whether one of those who play under these names can't begin such a game now.
    fn are_held(&self, variant: Variant, names: &[Handle]) -> bool
        ensures { result ≡ are_held self.now variant names.now }
    {
        names.iter().any(|name| self.is_held_as(variant, *name))
    }

    /// Whether the player of this name can't begin such a game now.
    fn is_held_as(&self, variant: Variant, name: Handle) -> bool
        ensures { result ≡ holds (is_held variant) (playing_as self.now name) }
    {
        match self.with_handle(name.key()) {
            Some(member) => is_held(member, variant),
            None => false,
        }
    }

    /// Whether one of those who play under these names has 32 places.
    fn are_full_up(&self, names: &[Handle]) -> bool
        ensures { result ≡ are_full_up self.now names.now }
    {
        names.iter().any(|name| self.is_full_up_as(*name))
    }

    /// Whether the player of this name has 32 places.
    fn is_full_up_as(&self, name: Handle) -> bool
        ensures { result ≡ holds is_crowded (playing_as self.now name) }
    {
        match self.with_handle(name.key()) {
            Some(member) => member.is_crowded(),
            None => false,
        }
    }

    /// The players in the order in which they sat.
    fn as_they_sat(&self, names: &[Handle], variant: Variant) -> Seats
        requires { length names.now ≡ seats variant }
        ensures { result ≡ as_they_sat self.now names.now variant }
    {
        let second = match variant {
            Variant::Bughouse => Some(self.board_of(names, 2)),
            Variant::Chess => None,
            Variant::Crazyhouse => None,
            Variant::Fischer(_) => None,
        };
        Seats {
            first: self.board_of(names, 0),
            second,
        }
    }

    /// The players of the board whose White has the seat of that number.
    fn board_of(&self, names: &[Handle], number: usize) -> Opponents
        requires { number + 1 < length names.now }
        ensures { result ≡ seats_at_board self.now names.now number }
    {
        Opponents {
            white: self.seated_as(names[number]),
            black: self.seated_as(names[number + 1]),
        }
    }

    /// The player of this name, who is registered where the name has an account by now.
    fn seated_as(&self, name: Handle) -> Player
        ensures { result ≡ seated_as self.now.accounts name (playing_as self.now name) }
    {
        match self.with_handle(name.key()) {
            None => Player {
                session: 0,
                name,
                registered: false,
            },
            Some(member) => Player {
                session: member.session,
                name,
                registered: self.accounts.get(member.name.key()).is_some(),
            },
        }
    }
}

/// A player who is there and asks to resume the game of that number.
#[derive(Clone, Copy)]
struct Asks<'a> {
    roster: &'a Roster,
    number: u64,
}

impl<'a> Predicate<Handle> for Asks<'a> {
    ghost passes = { λ test name. has_asked_for test.roster.now test.number name };

    fn passes(&self, name: &Handle) -> bool {
        self.roster.has_asked_for(self.number, *name)
    }
}

/// Whether the member can't begin a game of this variant now: it has a place and gives no simul, or it gives one, whose
/// games are of two.
fn is_held(member: &Member, variant: Variant) -> bool
    ensures { result ≡ is_held variant member.now }
{
    if member.is_busy() {
        return true;
    }
    match variant {
        Variant::Bughouse => member.gives(),
        Variant::Chess => false,
        Variant::Crazyhouse => false,
        Variant::Fischer(_) => false,
    }
}
