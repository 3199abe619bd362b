//! What is done in a full hall, by one member who has nothing standing.

ghost use Rattle.lobby_state.specs.Acts.{FitsLobby};

use crate::full_hall::{FullHall, TERMS, account_name};
use crate::shelf::{adjourns, game_of};
use fics_words::{DeskNumber, Fail, Line, Refusal};
use lobby_state::{LobbyAct, PairAct};
use std::alloc::Global;

/// What is done in a round, and undone.
#[derive(Clone, Copy, Debug, PartialEq, Eq)]
pub enum Deed {
    /// A guest comes in, and goes.
    Enter,
    /// The member challenges another, who fetches the line.
    Match,
    /// That challenge is accepted, and the desk cleared.
    Start,
    /// The member posts a seek, and takes it back.
    Post,
    /// The member asks another to be its partner, who fetches the line.
    Partner,
    /// The member joins a channel, and leaves it.
    Join,
    /// The member says something in a channel, which some twenty hear until as many lines wait as can.
    Tell,
    /// The member asks which adjourned games of its own there are.
    Stored,
    /// The member asks to go on with a game against somebody with whom it has none.
    Resume,
    /// Two members go on with a game of theirs, and it is adjourned again.
    Adjourn,
}

/// The session of the member who does it.
const DOER: u32 = 256;

/// Whom the doer plays and asks.
const OTHER: u32 = 7;

/// The channel of the doer.
const CHANNEL: u8 = 20;

/// The deed of this word, if it names one.
pub fn deed_of(word: &str) -> Option<Deed> {
    let words = [
        ("enter", Deed::Enter),
        ("match", Deed::Match),
        ("start", Deed::Start),
        ("post", Deed::Post),
        ("partner", Deed::Partner),
        ("join", Deed::Join),
        ("tell", Deed::Tell),
        ("stored", Deed::Stored),
        ("resume", Deed::Resume),
        ("adjourn", Deed::Adjourn),
    ];
    for (name, deed) in words {
        if word == name {
            return Some(deed);
        }
    }
    None
}

/// Does the deed so often in a full hall.
pub fn make_in_full_hall(alloc: Global, deed: Deed, rounds: u32) -> Result<(), Fail> {
    let mut hall = FullHall::open(alloc)?;
    if deed == Deed::Adjourn {
        hall.act(OTHER, LobbyAct::Bye)?;
        hall.enter_by_account(OTHER, 1)?;
    }
    if deed != Deed::Enter {
        let key = hall.enter_by_account(DOER, 0)?;
        hall.keys.push(key)?;
    }
    if deed == Deed::Tell {
        hall.act(DOER, channel(true))?;
    }
    for _ in 0..rounds {
        round(&mut hall, deed)?;
    }
    Ok(())
}

fn round(hall: &mut FullHall, deed: Deed) -> Result<(), Fail> {
    match deed {
        Deed::Enter => {
            hall.enter(DOER)?;
            hall.act(DOER, LobbyAct::Bye)?;
        }
        Deed::Match => challenge(hall)?,
        Deed::Start => {
            challenge(hall)?;
            let name = hall.key(DOER)?;
            hall.pair(OTHER, PairAct::Accept(Some(name)))?;
            let desk = DeskNumber::new(1);
            let clear = PairAct::Clear { desk, serial: 1 };
            hall.pair(DOER, clear)?;
        }
        Deed::Post => {
            hall.act(DOER, LobbyAct::Post { terms: TERMS })?;
            hall.act(DOER, LobbyAct::Unpost { number: None })?;
        }
        Deed::Partner => {
            let name = Some(hall.key(OTHER)?);
            hall.act(DOER, LobbyAct::Partner { name })?;
            hall.act(OTHER, LobbyAct::Fetch)?;
        }
        Deed::Join => {
            hall.act(DOER, channel(true))?;
            hall.act(DOER, channel(false))?;
        }
        Deed::Tell => tell(hall)?,
        Deed::Stored => {
            hall.act(DOER, LobbyAct::Stored)?;
        }
        Deed::Resume => {
            let _refused = hall
                .lobby
                .plan(DOER, &PairAct::Resume(hall.key(OTHER)?))
                .is_err();
        }
        Deed::Adjourn => adjourn(hall)?,
    }
    Ok(())
}

/// The two go on with their game, at desk 1, and it goes on the shelf again.
fn adjourn(hall: &mut FullHall) -> Result<(), Fail> {
    let (white, black) = (account_name(0)?, account_name(1)?);
    hall.pair(DOER, PairAct::Resume(black.key()))?;
    hall.act(OTHER, LobbyAct::Fetch)?;
    hall.pair(OTHER, PairAct::Resume(white.key()))?;
    let game = game_of(hall.alloc, white, black)?;
    if !adjourns(&mut hall.lobby, game) {
        return Err(Fail::Refused(Refusal::NoStored));
    }
    hall.act(DOER, LobbyAct::Fetch)?;
    Ok(())
}

/// The doer challenges the other, who fetches the line.
fn challenge(hall: &mut FullHall) -> Result<(), Fail> {
    let to = hall.key(OTHER)?;
    hall.act(DOER, LobbyAct::Match { to, terms: TERMS })?;
    hall.act(OTHER, LobbyAct::Fetch)?;
    Ok(())
}

fn tell(hall: &mut FullHall) -> Result<(), Fail> {
    let text = Line::from_bytes(Vec::from_slice(hall.alloc, b"hello")?);
    let channel = CHANNEL;
    hall.act(DOER, LobbyAct::TellChannel { channel, text })?;
    Ok(())
}

fn channel(on: bool) -> LobbyAct
    ensures { FitsLobby result }
{
    LobbyAct::Channel {
        channel: CHANNEL,
        on,
    }
}
