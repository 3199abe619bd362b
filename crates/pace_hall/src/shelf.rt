//! What members ask of the shelf of adjourned games, made many times over a lobby whose shelf has many.
//!
//! The words are `shelf WHAT GAMES ROUNDS`: `stored` lists the games of a member who has one of them, `resume` names a
//! player with whom the member has none, and `adjourn` starts a game and puts it on the shelf.

ghost use Rattle.std.specs.Prelude.{IfOk};
ghost use Rattle.game_records.specs.Replays.{Replays};

use chess_model::{Terms, Variant};
use collections::Listed;
use fics_words::{DeskNumber, Fail, Handle, HandleKey, Refusal};
use game_records::{HalfList, StoredGame, played_by_steps};
use lobby_state::{Lobby, LobbyAct, PairAct, Plan};
use memory::NoMemory;
use std::alloc::Global;

/// The terms of all games.
const CHESS: Terms = Terms {
    minutes: 10,
    increment: 0,
    variant: Variant::Chess,
    colour: None,
};

/// What is asked.
#[derive(Clone, Copy)]
pub enum Asked {
    Stored,
    Resume,
    Adjourn,
}

/// How often what is asked, and how many games lie on the shelf.
#[derive(Clone, Copy)]
pub struct ShelfJob {
    pub asked: Asked,
    pub games: u32,
    pub rounds: u32,
}

/// The job of these words, if they name one.
pub fn shelf_job_of(words: &[String]) -> Option<ShelfJob> {
    if words.len() != 4 || words[0].as_str() != "shelf" {
        return None;
    }
    Some(ShelfJob {
        asked: asked_of(words[1].as_str())?,
        games: words[2].as_str().parse::<u32>().ok()?,
        rounds: words[3].as_str().parse::<u32>().ok()?,
    })
}

fn asked_of(word: &str) -> Option<Asked> {
    if word == "stored" {
        return Some(Asked::Stored);
    }
    if word == "resume" {
        return Some(Asked::Resume);
    }
    if word == "adjourn" {
        return Some(Asked::Adjourn);
    }
    None
}

/// Does the job, and gives the number of its acts.
pub fn make_shelf(alloc: Global, job: ShelfJob) -> Result<u64, Fail> {
    let mut lobby = Lobby::new(alloc)?;
    let white = name_of(0, job.games)?;
    let black = name_of(1, job.games.saturating_add(1))?;
    for number in 0..job.games {
        let game = game_of(alloc, name_of(0, number + 1)?, name_of(1, number + 1)?)?;
        put(&mut lobby, u64::from(number) + 1, game)?;
    }
    enter(&mut lobby, 1, white)?;
    enter(&mut lobby, 2, black)?;
    for round in 0..job.rounds {
        match job.asked {
            Asked::Stored => {
                let _lines = lobby.act(1, 0, &LobbyAct::Stored)?;
            }
            Asked::Resume => {
                let _refused = lobby.plan(1, &PairAct::Resume(black.key())).is_err();
            }
            Asked::Adjourn => {
                if !starts(&mut lobby, black.key())
                    || !adjourns(&mut lobby, game_of(alloc, white, black)?)
                {
                    return Ok(u64::from(round));
                }
            }
        }
    }
    Ok(u64::from(job.rounds))
}

/// A name of five letters, by a side and a number.
fn name_of(side: u8, number: u32) -> Result<Handle, Fail> {
    let letters = [
        b'v' + side % 4,
        b'a' + (number / 17_576 % 26) as u8,
        b'a' + (number / 676 % 26) as u8,
        b'a' + (number / 26 % 26) as u8,
        b'a' + (number % 26) as u8,
    ];
    match Handle::read(&letters) {
        Some(handle) => Ok(handle),
        None => Err(Fail::Refused(Refusal::BadHandle)),
    }
}

/// A game of the two without a half-move.
pub fn game_of(alloc: Global, white: Handle, black: Handle) -> Result<StoredGame, NoMemory>
    ensures { IfOk result Replays }
{
    played_by_steps();
    let mut names = Listed::new(alloc);
    names.push(white)?;
    names.push(black)?;
    Ok(StoredGame {
        terms: CHESS,
        names,
        halves: HalfList::new(alloc),
    })
}

pub fn put(lobby: &mut Lobby, number: u64, game: StoredGame) -> Result<(), Fail>
    requires { Replays game }
{
    if number < 1 || lobby.stored(number).is_some() {
        return Ok(());
    }
    lobby.add_stored(number, game)
}

fn enter(lobby: &mut Lobby, session: u32, name: Handle) -> Result<(), Fail> {
    let act = LobbyAct::Enter {
        name: Some(name),
        digest: None,
    };
    let _entered = lobby.act(session, 0, &act)?;
    Ok(())
}

/// Whether the two start a game, at desk 1.
fn starts(lobby: &mut Lobby, to: HandleKey) -> bool {
    if lobby
        .act(1, 0, &LobbyAct::Match { to, terms: CHESS })
        .is_err()
    {
        return false;
    }
    let Ok(plan) = lobby.plan(2, &PairAct::Accept(None)) else {
        return false;
    };
    let Ok(ready) = lobby.reserve(&plan, None) else {
        return false;
    };
    lobby.commit(&plan, ready, false);
    true
}

/// Whether the game of desk 1 is cleared, and this one goes on the shelf.
pub fn adjourns(lobby: &mut Lobby, game: StoredGame) -> bool
    requires { Replays game }
{
    let desk = DeskNumber::new(1);
    let serial = match lobby.game(desk) {
        Some(started) => started.serial,
        None => 0,
    };
    let Ok(plan) = lobby.plan(1, &PairAct::Clear { desk, serial }) else {
        return false;
    };
    let Plan::Clear { desk, .. } = plan else {
        return false;
    };
    if lobby.game(desk).is_none() {
        return false;
    }
    let Ok(ready) = lobby.reserve(&plan, Some(game)) else {
        return false;
    };
    lobby.commit(&plan, ready, true);
    true
}
