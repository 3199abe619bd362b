//! A game that is adjourned, saved by the steward, loaded into a new server and resumed there, by acts alone.

ghost use Rattle.one_server.specs.Whole.{IsOpening};

use clock_ledger::Moment;
use lobby_load::load;
use lobby_state::Lobby;
use memory::NoMemory;
use memory_edges::MemKeeper;
use one_server::OneServer;
use std::alloc::Global;
use steward_core::{StewardEnd, steward_turn};
use test_server_steps::{Does, Said, Step, first_failing, server};

/// Ann and Ben register and adjourn a game after e2e4.
const ADJOURNED: &[Step] = &[
    Step(0, 1, Does::Enter(*b"Ann"), Said::Entered),
    Step(0, 2, Does::Enter(*b"Ben"), Said::Entered),
    Step(0, 1, Does::Register(1), Said::Done),
    Step(0, 2, Does::Register(2), Said::Done),
    Step(0, 1, Does::Untimed(*b"Ben"), Said::Done),
    Step(0, 2, Does::Accept(None), Said::Started),
    Step(0, 1, Does::Move(1, 12, 28), Said::Done),
    Step(0, 1, Does::Adjourn(1), Said::Done),
    Step(0, 2, Does::AcceptOffer(1), Said::Done),
    Step(0, 2, Does::Items(1), Said::Items(5, true)),
    Step(0, 2, Does::Clear(1), Said::Freed),
    Step(0, 1, Does::Items(1), Said::Items(5, true)),
    Step(0, 1, Does::Clear(1), Said::Cleared),
];

/// They come back to a new server and resume: it is Black's move, and e2e4 was played.
const RESUMED: &[Step] = &[
    Step(0, 7, Does::Enter(*b"Ann"), Said::NeedPassword),
    Step(0, 7, Does::Login(*b"Ann", 1), Said::Entered),
    Step(0, 8, Does::Login(*b"Ben", 1), Said::Refused(23)),
    Step(0, 8, Does::Login(*b"Ben", 2), Said::Entered),
    Step(0, 7, Does::Register(1), Said::Refused(48)),
    Step(0, 7, Does::Stored, Said::Lines(1)),
    Step(0, 8, Does::Resume(*b"Ann"), Said::Asked),
    Step(0, 7, Does::Resume(*b"Ben"), Said::Started),
    Step(0, 7, Does::Stored, Said::Lines(0)),
    Step(0, 7, Does::Move(1, 11, 27), Said::Refused(11)),
    Step(0, 8, Does::Move(1, 52, 44), Said::Done),
    Step(0, 7, Does::Move(1, 28, 44), Said::Refused(9)),
    Step(0, 7, Does::Move(1, 28, 36), Said::Done),
];

#[test]
fn an_adjourned_game_is_resumed_elsewhere(rt: HostRuntime) -> Result<(), NoMemory> {
    assert_eq!(rt; first_wrong_place(rt.alloc())?, None);
    Ok(())
}

/// Where it first goes otherwise.
#[derive(Clone, Copy, Debug, PartialEq)]
enum Place {
    /// The step of that number before the game is saved.
    Before(usize),
    Saving,
    Loading,
    /// The step of that number behind it.
    Behind(usize),
}

/// Where the game isn't adjourned, saved, loaded and resumed as it has to be, if anywhere.
fn first_wrong_place(alloc: Global) -> Result<Option<Place>, NoMemory> {
    let mut keeper = MemKeeper::new(alloc, Vec::new(alloc));
    let server = server(alloc)?;
    match not_saved(alloc, server, &mut keeper) {
        Some(place) => Ok(Some(place)),
        None => not_resumed(alloc, &mut keeper),
    }
}

/// Where the game isn't adjourned, or the accounts and the game aren't saved in one turn, if anywhere.
fn not_saved(alloc: Global, mut server: OneServer, keeper: &mut MemKeeper) -> Option<Place> {
    if let Some(step) = first_failing(&mut server, ADJOURNED) {
        return Some(Place::Before(step));
    }
    match steward_turn(alloc, &mut server.seat(0), keeper, Moment::new(0)) {
        StewardEnd::Done(3) => None,
        _ => Some(Place::Saving),
    }
}

/// Where the game isn't resumed in a server that opens with what the keeper holds, if anywhere.
fn not_resumed(alloc: Global, keeper: &mut MemKeeper) -> Result<Option<Place>, NoMemory> {
    match load(alloc, keeper) {
        Ok(lobby) => not_going_on(alloc, lobby),
        Err(_) => Ok(Some(Place::Loading)),
    }
}

/// Where the game isn't resumed in a server that opens with this lobby, if anywhere.
fn not_going_on(alloc: Global, lobby: Lobby) -> Result<Option<Place>, NoMemory>
    requires { IsOpening lobby }
{
    let mut server = OneServer::new(alloc, lobby)?;
    Ok(first_failing(&mut server, RESUMED).map(Place::Behind))
}
