//! What a lobby keeps, and the look-ups in it.
ghost use Rattle.std.specs.Prelude.{◌≡◌, IfOk, option_copied};
ghost use Rattle.lobby_state.specs.Lobby.{holder_of, opening, member_of, named, places_of, waiting_of, free_slot, game_at, partner_in};

use crate::game::{ListedGame, no_games};
use crate::member::Member;
use crate::members::Members;
use channel_feed::Channels;
use collections::Listed;
use fics_words::{DeskNumber, HandleKey, Line};
use lobby_shelf::GameShelf;
use login_handles::Accounts;
use memory::NoMemory;
use partner_link::Partners;
use seek_match::{MatchBook, SeekBook};
use simul_control::Places;
use std::alloc::Global;
use std::marker::Model;

/// Who is registered and who is in the hall, which challenges and seeks stand, who is in which channel, who are
/// partners, which adjourned games lie on the shelf, and which desks are in use: the acts are carried out here, one
/// file an act. That they leave it well-formed, `Lobby` knows.
#[derive(Drop)]
pub(crate) struct Roster {
    pub(crate) alloc: Global,
    pub(crate) accounts: Accounts,
    pub(crate) members: Members,
    pub(crate) challenges: MatchBook,
    pub(crate) seeks: SeekBook,
    pub(crate) channels: Channels,
    pub(crate) partners: Partners,
    pub(crate) shelf: GameShelf,
    /// The game of each desk from 1 on, where it is in use.
    pub(crate) games: Listed<Option<ListedGame>>,
    /// How many games were started, which is the last serial.
    pub(crate) started: u64,
}

impl Model for Roster {
    ghost use Rattle.std.specs.Prelude.{◌≡◌, length};
    ghost use Rattle.lobby_state.specs.Desks.{desks};
    ghost use Rattle.lobby_state.specs.Lobby.{LobbyState};

    ghost Value = { LobbyState };

    ghost view = { λ roster. record {
      accounts = roster.accounts;
      members = roster.members;
      challenges = roster.challenges;
      seeks = roster.seeks;
      channels = roster.channels;
      partners = roster.partners;
      shelf = roster.shelf;
      games = roster.games;
      started = roster.started;
    } };

    ghost invariant = { λ roster. length roster.games ≡ desks };
}

impl Roster {
    /// Nobody is registered or there, and each desk is free. It fails only when out of memory.
    pub(crate) fn new(alloc: Global) -> Result<Roster, NoMemory>
        ensures { IfOk result (λ roster. roster ≡ opening) }
    {
        let members = Members::new(alloc)?;
        let games = no_games(alloc)?;
        let shelf = GameShelf::new(alloc)?;
        Ok(Roster {
            alloc,
            accounts: Accounts::new(alloc),
            members,
            challenges: MatchBook::new(alloc),
            seeks: SeekBook::new(alloc),
            channels: Channels::new(alloc),
            partners: Partners::new(alloc),
            shelf,
            games,
            started: 0,
        })
    }

    /// The places of the session: none where it isn't a member.
    pub(crate) fn places(&self, session: u32) -> Places
        ensures { result ≡ places_of self.now session }
    {
        match self.member(session) {
            Some(member) => member.places,
            None => Places::none(),
        }
    }

    /// The lines that wait for the session, the oldest first: none where it isn't a member.
    pub(crate) fn waiting(&self, session: u32) -> &[Line]
        ensures { result.now ≡ waiting_of self.now session }
    {
        match self.member(session) {
            Some(member) => member.waiting.lines(),
            None => &[],
        }
    }

    /// A copy of the lines that wait for the session; it fails only when out of memory.
    pub(crate) fn waiting_copy(&self, session: u32) -> Result<Listed<Line>, NoMemory>
        ensures { IfOk result (λ lines. lines ≡ waiting_of self.now session) }
    {
        match self.member(session) {
            Some(member) => member.waiting.copy(),
            None => Ok(Listed::new(self.alloc)),
        }
    }

    /// The game for which the desk is in use, if it is.
    pub(crate) fn game(&self, desk: DeskNumber) -> Option<ListedGame>
        ensures { result ≡ game_at self.now desk }
    {
        match self.games.get(desk.place()) {
            Some(game) => *game,
            None => None,
        }
    }

    /// The member of the session, if it has entered.
    pub(crate) fn member(&self, session: u32) -> Option<&Member>
        ensures { option_copied result ≡ member_of self.now session }
    {
        self.members.get(session)
    }

    /// The member that the handle names, if there is one and it isn't going.
    pub(crate) fn named(&self, key: HandleKey) -> Option<&Member>
        ensures { option_copied result ≡ named self.now key }
    {
        self.members.named(key)
    }

    /// The member that has the handle with this key, going or not.
    pub(crate) fn with_handle(&self, key: HandleKey) -> Option<&Member>
        ensures { option_copied result ≡ holder_of self.now key }
    {
        self.members.with_handle(key)
    }

    /// The session's partner, if it has one.
    pub(crate) fn partner_of(&self, session: u32) -> Option<u32>
        ensures { result ≡ partner_in self.now session }
    {
        self.partners.of(session)
    }

    /// Where the least free desk stands in the list of desks, if one is free.
    pub(crate) fn free_slot(&self) -> Option<usize>
        ensures { result ≡ free_slot self.now }
    {
        self.games.iter().position(|game| game.is_none())
    }
}
