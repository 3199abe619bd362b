//! Where a player plays, and where a game is played: the desk and the seat, and who isn't in.
ghost use Rattle.lobby_state.specs.Acts.{FitsLobby};

use crate::steps::{CHESS, DONE, STRANGE, Step, hall, is_as_expected};
use fics_words::{Fail as Refused, Handle};
use lobby_state::{Lobby, LobbyAct, LobbyReply};
use memory::NoMemory;
use std::alloc::Global;
use std::test::Fail;
use test_steps::first_wrong;

/// What was found: the number of the refusal, the desk and the seat.
#[derive(Clone, Copy, PartialEq, Eq)]
struct Found(u8, u8, u8);

/// What is asked, and what is found.
enum Looking {
    /// Asks for the game of this number.
    Number(u32, u16, Found),
    /// Asks for the player with this handle.
    Player(u32, [u8; 3], Found),
    /// A step of another kind.
    Other(Step),
}

use Looking::{Number, Other, Player};

/// Ann and Ben play at desk 1.
const STEPS: &[Looking] = &[
    Other(Step::Enter(1, *b"ann", DONE)),
    Other(Step::Enter(2, *b"ben", DONE)),
    Other(Step::Match(1, *b"ben", CHESS, DONE)),
    Other(Step::Start(2, 1, 1, 1)),
    Number(2, 1, Found(DONE, 1, 0)),
    Number(9, 1, Found(54, 0, 0)),
    Player(1, *b"BEN", Found(DONE, 1, 1)),
    Player(9, *b"ann", Found(54, 0, 0)),
    // who is going can't be named
    Other(Step::Going(1)),
    Player(2, *b"ann", Found(32, 0, 0)),
];

/// What an act finds. It ensures nothing, so that nothing above it is proved over what an act does.
fn looked_up(lobby: &mut Lobby, session: u32, act: &LobbyAct) -> Found
    requires { FitsLobby act.now }
{
    let reply = lobby.act(session, 0, act);
    match &reply {
        Ok(LobbyReply::Found(place)) => Found(DONE, place.desk.get(), place.seat),
        Ok(_) => Found(STRANGE, 0, 0),
        Err(Refused::Refused(cause)) => Found(cause.number(), 0, 0),
        Err(Refused::Memory) => Found(STRANGE, 0, 0),
    }
}

fn player_at(lobby: &mut Lobby, session: u32, letters: &[u8]) -> Found {
    match Handle::read(letters) {
        Some(name) => looked_up(lobby, session, &LobbyAct::Find { name: name.key() }),
        None => Found(STRANGE, 0, 0),
    }
}

fn is_found(lobby: &mut Lobby, step: &Looking) -> bool {
    match step {
        Number(session, number, found) => {
            looked_up(lobby, *session, &LobbyAct::FindGame { number: *number }) == *found
        }
        Player(session, name, found) => player_at(lobby, *session, name) == *found,
        Other(step) => is_as_expected(lobby, step),
    }
}

/// The place of the first step that finds something else, if one does.
fn first_lost(lobby: &mut Lobby, steps: &[Looking]) -> Option<usize> {
    first_wrong!(steps, |step| is_found(lobby, step))
}

/// The same at a new lobby.
fn first_lost_anew(alloc: Global, steps: &[Looking]) -> Result<Option<usize>, NoMemory> {
    let mut lobby = hall(alloc)?;
    Ok(first_lost(&mut lobby, steps))
}

#[test]
fn games_and_players_are_found(rt: HostRuntime) -> Result<(), Fail> {
    assert_eq!(rt; first_lost_anew(rt.alloc(), STEPS)?, None);
    Ok(())
}
