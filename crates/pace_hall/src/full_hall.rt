//! A full hall: 4,096 accounts, their adjourned games, and members of whom each has seeks, challenges, requests and
//! channels.

ghost use Rattle.std.specs.Prelude.{IfOk};
ghost use Rattle.lobby_state.specs.Acts.{FitsLobby};
ghost use Rattle.lobby_state.specs.Planned.{IsPlanned};

use crate::shelf::{game_of, put};
use chess_model::{Terms, Variant};
use fics_words::{Account, Digest, Fail, Handle, HandleKey, Refusal, Variable};
use lobby_state::{Lobby, LobbyAct, LobbyReply, PairAct, Plan};
use std::alloc::Global;

/// The terms of all offers.
pub const TERMS: Terms = Terms {
    minutes: 5,
    increment: 3,
    variant: Variant::Chess,
    colour: None,
};

/// How many members come in: one less than the hall holds.
const MEMBERS: u32 = 255;

/// How many others each of them challenges, and asks to be its partner.
const ASKED: u32 = 16;

/// How many have an account.
const ACCOUNTS: u32 = 4_096;

/// How many adjourned games there are: one less than the shelf holds, so that a game can begin.
const GAMES: u32 = 9_999;

/// The digest of all passwords.
const DIGEST: Digest = [0; 32];

/// A lobby, and the keys of its members in the order of their sessions, which count from 1.
#[derive(Drop)]
pub struct FullHall {
    pub alloc: Global,
    pub lobby: Lobby,
    pub keys: Vec<HandleKey>,
}

impl FullHall {
    /// A hall with 4,096 accounts, 9,999 games of theirs that are adjourned, and 255 guests who don't want to hear of
    /// seeks, of whom each has three seeks, challenges 16 others, has asked 16 to be its partner, and is in 20
    /// channels.
    pub fn open(alloc: Global) -> Result<FullHall, Fail> {
        let mut hall = FullHall {
            alloc,
            lobby: Lobby::new(alloc)?,
            keys: Vec::new(alloc),
        };
        for number in 0..ACCOUNTS {
            let name = account_name(number)?;
            let digest = DIGEST;
            hall.lobby.add_account(Account { name, digest })?;
        }
        for number in 0..GAMES {
            let white = account_name(number)?;
            let black = account_name(number + 1 + number / ACCOUNTS)?;
            put(
                &mut hall.lobby,
                u64::from(number) + 1,
                game_of(alloc, white, black)?,
            )?;
        }
        for session in 1..=MEMBERS {
            let key = hall.enter(session)?;
            hall.keys.push(key)?;
            let which = Variable::Seek;
            hall.act(session, LobbyAct::Var { which, on: false })?;
        }
        for session in 1..=MEMBERS {
            hall.offer(session)?;
        }
        for session in 1..=MEMBERS {
            hall.act(session, LobbyAct::Fetch)?;
        }
        Ok(hall)
    }

    /// Makes an act that isn't refused.
    pub fn act(&mut self, session: u32, act: LobbyAct) -> Result<LobbyReply, Fail>
        requires { FitsLobby act }
    {
        self.lobby.act(session, 0, &act)
    }

    /// Makes an act whose plan is carried out, a Clear so that its desk is free.
    pub fn pair(&mut self, session: u32, act: PairAct) -> Result<(), Fail> {
        let planned = self.lobby.plan(session, &act);
        carry_out(&mut self.lobby, &planned)
    }

    /// The session comes in as a guest, and has this key.
    pub fn enter(&mut self, session: u32) -> Result<HandleKey, Fail> {
        self.enter_as(session, None, None)
    }

    /// The session comes in under the name of the account of this number.
    pub fn enter_by_account(&mut self, session: u32, number: u32) -> Result<HandleKey, Fail> {
        let name = account_name(number)?;
        self.enter_as(session, Some(name), Some(DIGEST))
    }

    fn enter_as(
        &mut self,
        session: u32,
        name: Option<Handle>,
        digest: Option<Digest>,
    ) -> Result<HandleKey, Fail> {
        let LobbyReply::Entered(name) = self.act(session, LobbyAct::Enter { name, digest })? else {
            return Err(Fail::Refused(Refusal::BadHandle));
        };
        Ok(name.key())
    }

    /// The key of the member of this session.
    pub fn key(&self, session: u32) -> Result<HandleKey, Fail> {
        match self.keys.get(session.wrapping_sub(1) as usize) {
            Some(key) => Ok(*key),
            None => Err(Fail::Refused(Refusal::NoSuchPlayer)),
        }
    }

    /// All that a member has standing.
    fn offer(&mut self, session: u32) -> Result<(), Fail> {
        for _ in 0..3 {
            self.act(session, LobbyAct::Post { terms: TERMS })?;
        }
        for number in 0..ASKED {
            let to = self.key(session.wrapping_add(number * 7) % MEMBERS + 1)?;
            self.act(session, LobbyAct::Match { to, terms: TERMS })?;
            self.act(session, LobbyAct::Partner { name: Some(to) })?;
        }
        for number in 0..20 {
            let channel = (session.wrapping_mul(20).wrapping_add(number) % 256) as u8;
            self.act(session, LobbyAct::Channel { channel, on: true })?;
        }
        Ok(())
    }
}

/// Carries out a plan, if there is one, a Clear so that its desk is free.
fn carry_out(lobby: &mut Lobby, planned: &Result<Plan, Refusal>) -> Result<(), Fail>
    requires { IfOk planned.now (IsPlanned lobby.old) }
{
    match planned {
        Ok(plan) => {
            let ready = lobby.reserve(plan, None)?;
            lobby.commit(plan, ready, true);
            Ok(())
        }
        Err(refusal) => Err(Fail::Refused(*refusal)),
    }
}

/// The name of the account of this number, which counts on from 0 behind the last one.
pub fn account_name(number: u32) -> Result<Handle, Fail> {
    let number = number % ACCOUNTS;
    let letters = [
        b'P',
        letter(number / 676),
        letter(number / 26),
        letter(number),
    ];
    match Handle::read(&letters) {
        Some(handle) => Ok(handle),
        None => Err(Fail::Refused(Refusal::BadHandle)),
    }
}

fn letter(number: u32) -> u8 {
    b'a' + (number % 26) as u8
}
