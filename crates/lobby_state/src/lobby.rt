//! The lobby itself: which act is carried out by which function, and that every lobby is well-formed.
ghost use Rattle.std.specs.Prelude.{◌≡◌, ◌≤◌, IfOk, IsOk, None, length, option_copied};
ghost use Rattle.fics_words.specs.Effect.{Takes};
ghost use Rattle.game_records.specs.Replays.{Replays};
ghost use Rattle.lobby_shelf.specs.Numbers.{stored_game};
ghost use Rattle.lobby_state.specs.Acts.{FitsLobby, LobbyNeedsNoMemory, lobby_effect};
ghost use Rattle.lobby_state.specs.Lobby.{game_at, opening, places_of, waiting_of};
ghost use Rattle.lobby_state.specs.Told.{lists_told};
ghost use Rattle.lobby_state.specs.Planned.{IsPlanned};
ghost use Rattle.lobby_state.specs.Plans.{committed, plan_of};
ghost use Rattle.lobby_state.specs.Registration.{loading_effect};
ghost use Rattle.lobby_state.specs.Reserve.{CanShelve, IsReady, shelved_in};
ghost use Rattle.lobby_state.specs.ShelfRoom.{numbers_of, storing_effect};

use crate::acts::{LobbyAct, LobbyReply, PairAct, Plan};
use crate::game::ListedGame;
use crate::reserve::Ready;
use crate::roster::Roster;
use crate::told::ReplyLists;
use fics_words::{Account, DeskNumber, Fail, Line, Refusal};
use lobby_shelf::{Shelved, StoredGame};
use memory::NoMemory;
use simul_control::Places;
use std::alloc::Global;
use std::marker::Model;

/// Who is registered and who is in the hall, which challenges stand, and which desks are in use. Every lobby is
/// well-formed.
pub struct Lobby {
    pub(crate) roster: Roster,
}

// One call for who drops a lobby: a derived destructor is proved again in each crate above, with those of its parts.
impl Drop for Lobby {
    fn drop(self) {
        let Lobby { roster } = self;
        drop(roster);
    }
}

impl Model for Lobby {
    ghost use Rattle.lobby_state.specs.Lobby.{LobbyState};
    ghost use Rattle.lobby_state.specs.WellFormed.{IsWellFormed};

    ghost Value = { LobbyState };

    ghost view = { λ lobby. lobby.roster };

    ghost invariant = { λ lobby. IsWellFormed lobby.roster };
}

impl Lobby {
    /// A lobby at its opening: nobody is registered or there, and each desk is free. It fails only when out of memory.
    pub fn new(alloc: Global) -> Result<Lobby, NoMemory>
        ensures { IfOk result (λ lobby. lobby ≡ opening) }
    {
        Ok(Lobby {
            roster: Roster::new(alloc)?,
        })
    }

    /// Puts an account behind the others, as one that was kept elsewhere. Refuses with `AlreadyRegistered` where its
    /// handle has an account, and else with `AccountsFull` where there are 4,096.
    pub fn add_account(&mut self, account: Account) -> Result<(), Fail>
        ensures { Takes (loading_effect self.old account) self.old self.new result }
    {
        self.roster.add_account(account)
    }

    /// Puts a game that was kept elsewhere on the shelf, under its number there, and makes no save order. Refuses with
    /// `ShelfFull` where stored games and desks in use are 10,000 together, and takes no memory.
    pub fn add_stored(&mut self, number: u64, game: StoredGame) -> Result<(), Fail>
        requires positive { 1 ≤ number }
        requires unused { stored_game self.old.shelf.games number ≡ None }
        requires replays { Replays game }
        ensures { Takes (storing_effect self.old number game) self.old self.new result }
    {
        self.roster.add_stored(number, game)
    }

    /// How many accounts there are, and how many stored games.
    pub fn sizes(&self) -> (u32, u32)
        ensures accounts { result.0 ≡ length self.now.accounts }
        ensures games { result.1 ≡ length self.now.shelf.games }
    {
        let accounts = self.roster.accounts.rows().len();
        let games = self.roster.shelf.games().len();
        (accounts as u32, games as u32)
    }

    /// The stored game of that number, if there is one.
    pub fn stored(&self, number: u64) -> Option<&StoredGame>
        ensures { option_copied result ≡ stored_game self.now.shelf.games number }
    {
        self.roster.shelf.stored(number)
    }

    /// The adjourned games on the shelf, in the order of their numbers.
    pub fn shelf(&self) -> &[Shelved]
        ensures { result.now ≡ self.now.shelf.games }
    {
        self.roster.shelf.games()
    }

    /// The numbers of the adjourned games on the shelf, from the least on. It fails only when out of memory.
    pub fn numbers(&self, alloc: Global) -> Result<Vec<u64>, NoMemory>
        ensures { IfOk result (λ numbers. numbers.items ≡ numbers_of self.now.shelf.games) }
    {
        let mut numbers = Vec::new(alloc);
        for row in self.roster.shelf.games() {
            numbers.push(row.number)?;
        }
        Ok(numbers)
    }

    /// The accounts, in the order in which they were made.
    pub fn accounts(&self) -> &[Account]
        ensures { result.now ≡ self.now.accounts }
    {
        self.roster.accounts.rows()
    }

    /// The places of the session: none where it isn't a member.
    pub fn places(&self, session: u32) -> Places
        ensures { result ≡ places_of self.now session }
    {
        self.roster.places(session)
    }

    /// The lines that wait for the session, the oldest first: none where it isn't a member.
    pub fn waiting(&self, session: u32) -> &[Line]
        ensures { result.now ≡ waiting_of self.now session }
    {
        self.roster.waiting(session)
    }

    /// The game for which the desk is in use, if it is.
    pub fn game(&self, desk: DeskNumber) -> Option<ListedGame>
        ensures { result ≡ game_at self.now desk }
    {
        self.roster.game(desk)
    }

    /// Carries out an act that needs the lobby alone. A refusal and running out of memory leave everything as it was.
    /// No lobby act asks for the moment.
    pub fn act(&mut self, session: u32, _moment: u64, act: &LobbyAct) -> Result<LobbyReply, Fail>
        requires { FitsLobby act.now }
        ensures { Takes (lobby_effect self.old session act.now) self.old self.new result }
    {
        self.roster.act(session, act)
    }

    /// A copy of the lists that an act will answer, made before the act; it fails only when out of memory.
    pub fn lists_ahead(&self, session: u32, act: &LobbyAct) -> Result<ReplyLists, NoMemory>
        ensures lists { IfOk result (λ lists. lists ≡ lists_told (lobby_effect self.now session act.now).reply) }
        ensures sure { LobbyNeedsNoMemory act.now → IsOk result }
    {
        self.roster.lists_ahead(session, act)
    }

    /// What an act that needs the lobby and a desk is to do, by the lobby alone.
    pub fn plan(&self, session: u32, act: &PairAct) -> Result<Plan, Refusal>
        ensures plan { result ≡ plan_of self.now session act.now }
        ensures planned { IfOk result (IsPlanned self.now) }
    {
        act.names_desk();
        self.roster.plan(session, act)
    }

    /// Makes ready what a plan needs of memory, and changes nothing; it fails only when out of memory. A game is given
    /// exactly where a Clear empties the desk of an adjourned game: it goes on the shelf.
    pub fn reserve(&self, plan: &Plan, shelved: Option<StoredGame>) -> Result<Ready, NoMemory>
        requires planned { IsPlanned self.now plan.now }
        requires shelving { CanShelve self.now plan.now shelved }
        ensures ready { IfOk result (IsReady self.now plan.now) }
        ensures game { IfOk result (λ ready. shelved_in ready ≡ shelved) }
    {
        self.roster.reserve(plan, shelved)
    }

    /// Carries out the lobby's share of a plan, and takes no memory. `cleared` says of a Clear whether the desk is
    /// vacant from now on; else it stays in use, and the caller alone gets up.
    pub fn commit(&mut self, plan: &Plan, ready: Ready, cleared: bool)
        requires planned { IsPlanned self.old plan.now }
        requires ready { IsReady self.old plan.now ready }
        ensures { self.new ≡ committed self.old plan.now (shelved_in ready) cleared }
    {
        self.roster.commit(plan, ready, cleared);
    }
}
