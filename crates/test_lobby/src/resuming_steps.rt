//! Steps of adjourned games, each with its expected answer. No game of these steps has a half-move.
ghost use Rattle.std.specs.Prelude.{IfOk, IfSome};
ghost use Rattle.game_records.specs.Replays.{Replays};

use crate::login_steps::registering;
use crate::seek_steps::tells;
use crate::steps::{
    CHESS, DONE, STRANGE, Step, acted, carried_out, desk_of, entering, hall, is_as_expected,
    key_of, lists_ahead, numbered,
};
use collections::Listed;
use fics_words::{Fail, Handle};
use game_records::{HalfList, StoredGame, played_by_steps};
use lobby_shelf::Order;
use lobby_state::{Lobby, LobbyAct, LobbyReply, PairAct, Plan};
use memory::NoMemory;
use std::alloc::Global;
use test_steps::first_wrong;

/// A step: the session that makes it, what it does, and what it has to answer; a number is that of the refusal.
#[derive(Clone, Copy)]
pub enum Resuming {
    /// A game of these two is put on the shelf under that number.
    Add(u64, [u8; 3], [u8; 3], u8),
    /// Games of Yan and Zoe of each number up to this one are put on the shelf, and each is taken.
    Fill(u64),
    /// Names this player in a Resume, and doesn't carry its plan out.
    Plans(u32, [u8; 3], u8),
    /// Asks this player to resume the game of that number.
    Asks(u32, [u8; 3], u64),
    /// Resumes the game of that number with this player: the desk, the serial and White's session.
    Starts(u32, [u8; 3], u64, u8, u64, u32),
    /// Clears a desk, and a game of these two goes on the shelf, where it has that number.
    Shelves(u32, u8, u64, [u8; 3], [u8; 3], u64),
    /// The member's own stored games are these lines.
    Stored(u32, &'static [&'static [u8]]),
    /// There are so many accounts, and so many stored games.
    Sizes(u32, u32),
    /// The numbers of the stored games, from the least on.
    Numbers(&'static [u64]),
    /// Makes an account.
    Register(u32, u8),
    /// So many sessions from 1 on come in under numbered names, and each makes an account.
    Registers(u32),
    /// The first orders are so many, and the first of them has this number.
    Orders(usize, u64),
    /// The orders up to this one are carried out.
    Saved(u64),
    /// A step of another kind.
    Other(Step),
}

/// The place of the first step that answers otherwise, if one does.
fn first_unlike(alloc: Global, lobby: &mut Lobby, steps: &[Resuming]) -> Option<usize> {
    first_wrong!(steps, |step| answers(alloc, lobby, step))
}

/// The same at a new lobby.
pub fn first_unlike_anew(alloc: Global, steps: &[Resuming]) -> Result<Option<usize>, NoMemory> {
    let mut lobby = hall(alloc)?;
    Ok(first_unlike(alloc, &mut lobby, steps))
}

fn answers(alloc: Global, lobby: &mut Lobby, step: &Resuming) -> bool {
    match step {
        Resuming::Add(number, white, black, refusal) => {
            adding(alloc, lobby, *number, white, black) == *refusal
        }
        Resuming::Fill(last) => fills(alloc, lobby, *last),
        Resuming::Plans(session, name, refusal) => plans(lobby, *session, name) == *refusal,
        Resuming::Asks(session, name, number) => {
            is_ask(&with_resume(lobby, *session, name), *session, *number)
        }
        Resuming::Starts(session, name, number, desk, serial, white) => {
            let plan = with_resume(lobby, *session, name);
            is_resume(&plan, *number, *desk, *serial, *white)
        }
        Resuming::Shelves(session, desk, serial, white, black, number) => {
            clears_with(alloc, lobby, *session, *desk, *serial, white, black)
                && has_stored(lobby, *number)
        }
        Resuming::Stored(session, rows) => tells(lobby, *session, &LobbyAct::Stored, rows),
        Resuming::Sizes(accounts, games) => has_sizes(lobby, *accounts, *games),
        Resuming::Numbers(numbers) => has_numbers(alloc, lobby, numbers),
        Resuming::Register(session, number) => registering(lobby, *session, 1) == *number,
        Resuming::Registers(count) => registers(lobby, *count),
        Resuming::Orders(count, first) => tells_orders(lobby, *count, *first),
        Resuming::Saved(upto) => acted(lobby, 0, &LobbyAct::Saved { upto: *upto }).is_ok(),
        Resuming::Other(step) => is_as_expected(lobby, step),
    }
}

fn has_sizes(lobby: &Lobby, accounts: u32, games: u32) -> bool {
    let sizes = lobby.sizes();
    sizes.0 == accounts && sizes.1 == games
}

fn has_numbers(alloc: Global, lobby: &Lobby, numbers: &[u64]) -> bool {
    match lobby.numbers(alloc) {
        Ok(told) => told.as_slice() == numbers,
        Err(NoMemory) => false,
    }
}

fn has_stored(lobby: &Lobby, number: u64) -> bool {
    lobby.stored(number).is_some()
}

/// A game of the two without a half-move.
fn game_of(alloc: Global, white: &[u8], black: &[u8]) -> Option<StoredGame>
    ensures { IfSome result Replays }
{
    let Some(white) = Handle::read(white) else {
        return None;
    };
    let Some(black) = Handle::read(black) else {
        return None;
    };
    two_of(alloc, white, black).ok()
}

fn two_of(alloc: Global, white: Handle, black: Handle) -> Result<StoredGame, NoMemory>
    ensures { IfOk result Replays }
{
    played_by_steps();
    let mut names = Listed::new(alloc);
    names.push(white)?;
    names.push(black)?;
    Ok(StoredGame {
        terms: CHESS,
        names,
        halves: HalfList::new(alloc),
    })
}

/// Puts a game of the two on the shelf.
fn adding(alloc: Global, lobby: &mut Lobby, number: u64, white: &[u8], black: &[u8]) -> u8 {
    match game_of(alloc, white, black) {
        Some(game) => putting(lobby, number, game),
        None => STRANGE,
    }
}

fn putting(lobby: &mut Lobby, number: u64, game: StoredGame) -> u8
    requires { Replays game }
{
    if number < 1 || lobby.stored(number).is_some() {
        return STRANGE;
    }
    match lobby.add_stored(number, game) {
        Ok(()) => DONE,
        Err(Fail::Refused(refusal)) => refusal.number(),
        Err(Fail::Memory) => STRANGE,
    }
}

fn fills(alloc: Global, lobby: &mut Lobby, last: u64) -> bool {
    for number in 0..last {
        if adding(alloc, lobby, number + 1, b"Yan", b"Zoe") != DONE {
            return false;
        }
    }
    true
}

/// The number of the refusal of a Resume that names this player.
fn plans(lobby: &Lobby, session: u32, letters: &[u8]) -> u8 {
    let Some(name) = key_of(letters) else {
        return STRANGE;
    };
    match lobby.plan(session, &PairAct::Resume(name)) {
        Ok(_) => DONE,
        Err(refusal) => refusal.number(),
    }
}

/// Carries out the plan of a Resume that names this player.
fn with_resume(lobby: &mut Lobby, session: u32, letters: &[u8]) -> Option<Plan> {
    match key_of(letters) {
        Some(name) => carried_out(lobby, session, &PairAct::Resume(name), false),
        None => None,
    }
}

/// Whether the session asks for the game of that number.
fn is_ask(plan: &Option<Plan>, session: u32, number: u64) -> bool {
    match plan {
        Some(
            Plan::Ask {
                from,
                number: game,
                ..
            },
        ) => *from == session && *game == number,
        _ => false,
    }
}

/// Whether the game of that number starts again.
fn is_resume(plan: &Option<Plan>, number: u64, desk: u8, serial: u64, white: u32) -> bool {
    match plan {
        Some(
            Plan::Resume {
                desk: at,
                serial: under,
                number: game,
                seats,
                ..
            },
        ) => {
            *game == number
                && at.get() == desk
                && *under == serial
                && seats.first.white.session == white
        }
        _ => false,
    }
}

/// Whether a desk is cleared, whose game goes on the shelf as one of these two.
fn clears_with(
    alloc: Global,
    lobby: &mut Lobby,
    session: u32,
    desk: u8,
    serial: u64,
    white: &[u8],
    black: &[u8],
) -> bool {
    match game_of(alloc, white, black) {
        Some(game) => shelves(lobby, session, desk, serial, game),
        None => false,
    }
}

fn shelves(lobby: &mut Lobby, session: u32, desk: u8, serial: u64, game: StoredGame) -> bool
    requires { Replays game }
{
    let Some(desk) = desk_of(desk) else {
        return false;
    };
    let Ok(plan) = lobby.plan(session, &PairAct::Clear { desk, serial }) else {
        return false;
    };
    let Plan::Clear { desk: at, .. } = plan else {
        return false;
    };
    if lobby.game(at).is_none() {
        return false;
    }
    let Ok(ready) = lobby.reserve(&plan, Some(game)) else {
        return false;
    };
    lobby.commit(&plan, ready, true);
    true
}

/// Whether so many sessions come in, and each makes an account.
fn registers(lobby: &mut Lobby, count: u32) -> bool {
    for n in 0..count {
        if entering(lobby, n + 1, &numbered(n)) != DONE || registering(lobby, n + 1, 1) != DONE {
            return false;
        }
    }
    true
}

/// Whether the first orders are so many, of which the first has this number and the others the next ones.
fn tells_orders(lobby: &mut Lobby, count: usize, first: u64) -> bool {
    let Ok(ahead) = lists_ahead(lobby, 0, &LobbyAct::Orders) else {
        return false;
    };
    match acted(lobby, 0, &LobbyAct::Orders) {
        Ok(LobbyReply::Orders(orders)) => {
            orders == ahead.orders && are_numbered(orders.as_slice(), count, first)
        }
        _ => false,
    }
}

fn are_numbered(orders: &[Order], count: usize, first: u64) -> bool {
    if orders.len() != count {
        return false;
    }
    for (place, order) in orders.iter().enumerate() {
        if order.number < first || order.number - first != place as u64 {
            return false;
        }
    }
    true
}
