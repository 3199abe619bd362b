//! Steps of a lobby, each with its expected answer.

ghost use Rattle.std.specs.Prelude.{IsTrue};
ghost use Rattle.lobby_state.specs.Acts.{FitsLobby};
ghost use Rattle.lobby_state.specs.Terms.{AreTerms};

use chess_model::{Colour, Terms, Variant};
use fics_words::{DeskNumber, Fail, Handle, HandleKey, Line, Refusal};
use lobby_state::{DeskInUse, Lobby, LobbyAct, LobbyReply, PairAct, Places, Plan, ReplyLists};
use memory::NoMemory;
use std::alloc::Global;
use test_steps::first_wrong;

/// Chess of 2 minutes and 12 seconds, without a named colour.
pub const CHESS: Terms = Terms {
    minutes: 2,
    increment: 12,
    variant: Variant::Chess,
    colour: None,
};

/// Crazyhouse of 3 minutes, in which the challenger asks for Black.
pub const HOUSE: Terms = Terms {
    minutes: 3,
    increment: 0,
    variant: Variant::Crazyhouse,
    colour: Some(Colour::Black),
};

/// Bughouse of 5 minutes.
pub const PAIRS: Terms = Terms {
    minutes: 5,
    increment: 0,
    variant: Variant::Bughouse,
    colour: None,
};

/// The number that stands for no refusal.
pub const DONE: u8 = 0;

/// The number that stands when out of memory, or for an answer of another kind than the step has.
pub const STRANGE: u8 = 255;

/// A step: the session that makes it, what it does, and what it has to answer; a number is that of the refusal.
#[derive(Clone, Copy)]
pub enum Step {
    Enter(u32, [u8; 3], u8),
    Match(u32, [u8; 3], Terms, u8),
    /// Asks for the plan of an acceptance, and doesn't carry it out.
    Ask(u32, Option<[u8; 3]>, u8),
    /// Accepts the oldest challenge: the desk, the serial and White's session.
    Start(u32, u8, u64, u32),
    /// Clears a desk, which is vacant afterwards or not.
    Clear(u32, u8, u64, bool),
    /// Takes so many lines.
    Fetch(u32, usize),
    /// Has this line in its queue at the place.
    Line(u32, usize, &'static [u8]),
    /// Has so many places, and the present one is this seat of this desk.
    Seated(u32, usize, u8, u8),
    /// Whether the desk is in use.
    InUse(u8, bool),
    /// The desks in use, each with its serial.
    Desks(&'static [(u8, u64)]),
    Going(u32),
    Bye(u32),
    /// Challenges so many times, and each time without a refusal.
    MatchTimes(u32, [u8; 3], Terms, u32),
}

/// The place of the first step that answers otherwise, if one does.
pub fn first_failing(lobby: &mut Lobby, steps: &[Step]) -> Option<usize> {
    first_wrong!(steps, |step| is_as_expected(lobby, step))
}

/// The same at a new lobby. A test that has no lobby of its own is proved in a tenth of the time.
pub fn first_failing_anew(alloc: Global, steps: &[Step]) -> Result<Option<usize>, NoMemory> {
    let mut lobby = hall(alloc)?;
    Ok(first_failing(&mut lobby, steps))
}

/// Whether the step answers as it has to.
pub fn is_as_expected(lobby: &mut Lobby, step: &Step) -> bool {
    match step {
        Step::Enter(session, name, number) => entering(lobby, *session, name) == *number,
        Step::Match(session, to, terms, number) => {
            challenging(lobby, *session, to, *terms) == *number
        }
        Step::Ask(session, name, number) => asking(lobby, *session, *name) == *number,
        Step::Start(session, desk, serial, white) => {
            starts(lobby, *session, *desk, *serial, *white)
        }
        Step::Clear(session, desk, serial, cleared) => {
            clears(lobby, *session, *desk, *serial, *cleared)
        }
        Step::Fetch(session, count) => fetches(lobby, *session, *count),
        Step::Line(session, place, text) => has_line(lobby, *session, *place, text),
        Step::Seated(session, count, desk, seat) => sits(lobby, *session, *count, *desk, *seat),
        Step::InUse(desk, expected) => is_in_use(lobby, *desk) == *expected,
        Step::Desks(rows) => tells_desks(lobby, rows),
        Step::Going(session) => acted(lobby, *session, &LobbyAct::Going).is_ok(),
        Step::Bye(session) => acted(lobby, *session, &LobbyAct::Bye).is_ok(),
        Step::MatchTimes(session, to, terms, times) => {
            challenges_times(lobby, *session, to, *terms, *times)
        }
    }
}

/// Makes an act. It ensures nothing, so that nothing above it is proved over what an act does.
pub fn acted(lobby: &mut Lobby, session: u32, act: &LobbyAct) -> Result<LobbyReply, Fail>
    requires { FitsLobby act.now }
{
    lobby.act(session, 0, act)
}

/// A lobby at its opening.
pub fn hall(alloc: Global) -> Result<Lobby, NoMemory> {
    Lobby::new(alloc)
}

/// A handle of three letters for each number below 676.
pub fn numbered(n: u32) -> [u8; 3] {
    [b'a' + (n / 26 % 26) as u8, b'a' + (n % 26) as u8, b'x']
}

/// The number of the refusal of an answer.
pub fn number_of(answer: &Result<LobbyReply, Fail>) -> u8 {
    match answer {
        Ok(_) => DONE,
        Err(Fail::Refused(refusal)) => refusal.number(),
        Err(Fail::Memory) => STRANGE,
    }
}

/// Enters, and is answered with the handle or a refusal.
pub fn entering(lobby: &mut Lobby, session: u32, letters: &[u8]) -> u8 {
    let Some(name) = Handle::read(letters) else {
        return STRANGE;
    };
    let act = LobbyAct::Enter {
        name: Some(name),
        digest: None,
    };
    number_if_entered(&acted(lobby, session, &act), letters)
}

/// The number of an answer that is an entrance under this handle, or a refusal.
fn number_if_entered(answer: &Result<LobbyReply, Fail>, letters: &[u8]) -> u8 {
    match answer {
        Ok(reply) if !is_entered(reply, letters) => STRANGE,
        _ => number_of(answer),
    }
}

fn is_entered(reply: &LobbyReply, letters: &[u8]) -> bool {
    match reply {
        LobbyReply::Entered(name) => name.letters() == letters,
        _ => false,
    }
}

pub fn key_of(letters: &[u8]) -> Option<HandleKey> {
    match Handle::read(letters) {
        Some(name) => Some(name.key()),
        None => None,
    }
}

/// Whether a game may have these terms.
pub fn are_terms(terms: &Terms) -> bool
    ensures { IsTrue result → AreTerms terms.now }
{
    if terms.minutes > 600 || terms.increment > 600 {
        return false;
    }
    match terms.variant {
        Variant::Chess => true,
        Variant::Crazyhouse => true,
        Variant::Bughouse => true,
        Variant::Fischer(number) => number < 960,
    }
}

/// Challenges the player with this handle.
pub fn challenging(lobby: &mut Lobby, session: u32, to: &[u8], terms: Terms) -> u8 {
    let Some(to) = key_of(to) else {
        return STRANGE;
    };
    if !are_terms(&terms) {
        return STRANGE;
    }
    number_if_done(&acted(lobby, session, &LobbyAct::Match { to, terms }))
}

fn challenges_times(lobby: &mut Lobby, session: u32, to: &[u8], terms: Terms, times: u32) -> bool {
    for _ in 0..times {
        if challenging(lobby, session, to, terms) != DONE {
            return false;
        }
    }
    true
}

/// The number of an answer that is Done, or a refusal.
pub fn number_if_done(answer: &Result<LobbyReply, Fail>) -> u8 {
    match answer {
        Ok(LobbyReply::Done) => DONE,
        Ok(_) => STRANGE,
        Err(_) => number_of(answer),
    }
}

fn planned(lobby: &Lobby, session: u32, act: &PairAct) -> Result<Plan, Refusal> {
    lobby.plan(session, act)
}

/// Asks for the plan of an acceptance.
pub fn asking(lobby: &Lobby, session: u32, name: Option<[u8; 3]>) -> u8 {
    let key = match name {
        Some(letters) => key_of(&letters),
        None => None,
    };
    match planned(lobby, session, &PairAct::Accept(key)) {
        Ok(_) => DONE,
        Err(refusal) => refusal.number(),
    }
}

/// Carries out the plan of an act, if it has one.
pub fn carried_out(lobby: &mut Lobby, session: u32, act: &PairAct, cleared: bool) -> Option<Plan> {
    let Ok(plan) = lobby.plan(session, act) else {
        return None;
    };
    let Ok(ready) = lobby.reserve(&plan, None) else {
        return None;
    };
    lobby.commit(&plan, ready, cleared);
    Some(plan)
}

/// Accepts the oldest challenge, and says whether this game starts.
pub fn starts(lobby: &mut Lobby, session: u32, desk: u8, serial: u64, white: u32) -> bool {
    let plan = carried_out(lobby, session, &PairAct::Accept(None), false);
    is_start(&plan, desk, serial, white)
}

/// Whether the plan starts this game.
pub fn is_start(plan: &Option<Plan>, desk: u8, serial: u64, white: u32) -> bool {
    match plan {
        Some(
            Plan::Start {
                desk: at,
                serial: under,
                seats,
                ..
            },
        ) => at.get() == desk && *under == serial && seats.first.white.session == white,
        _ => false,
    }
}

/// The desk of that number, if there is one.
pub fn desk_of(number: u8) -> Option<DeskNumber> {
    if number < 1 || number > 128 {
        return None;
    }
    Some(DeskNumber::new(number))
}

fn clears(lobby: &mut Lobby, session: u32, desk: u8, serial: u64, cleared: bool) -> bool {
    let Some(desk) = desk_of(desk) else {
        return false;
    };
    carried_out(lobby, session, &PairAct::Clear { desk, serial }, cleared).is_some()
}

/// The copy of the lists of an answer that is made before the act.
pub fn lists_ahead(lobby: &Lobby, session: u32, act: &LobbyAct) -> Result<ReplyLists, NoMemory> {
    lobby.lists_ahead(session, act)
}

/// Takes the lines that wait, and says whether they are so many, and those of which a copy was made before.
fn fetches(lobby: &mut Lobby, session: u32, count: usize) -> bool {
    let Ok(ahead) = lists_ahead(lobby, session, &LobbyAct::Fetch) else {
        return false;
    };
    match acted(lobby, session, &LobbyAct::Fetch) {
        Ok(LobbyReply::Waiting { lines, .. }) => {
            lines == ahead.waiting && lines.len() == count && lines_of(lobby, session).is_empty()
        }
        _ => false,
    }
}

/// The lines that wait for a session.
fn lines_of(lobby: &Lobby, session: u32) -> &[Line] {
    lobby.waiting(session)
}

fn has_line(lobby: &Lobby, session: u32, place: usize, text: &[u8]) -> bool {
    match lines_of(lobby, session).get(place) {
        Some(line) => line.bytes() == text,
        None => false,
    }
}

fn sits(lobby: &mut Lobby, session: u32, count: usize, desk: u8, seat: u8) -> bool {
    match acted(lobby, session, &LobbyAct::Where) {
        Ok(reply) => tells_seat(&reply, count, desk, seat),
        Err(_) => false,
    }
}

fn tells_seat(reply: &LobbyReply, count: usize, desk: u8, seat: u8) -> bool {
    match reply {
        LobbyReply::Places(places) => have_seat(places, count, desk, seat),
        _ => false,
    }
}

fn have_seat(places: &Places, count: usize, desk: u8, seat: u8) -> bool {
    if places.len() != count {
        return false;
    }
    match places.present() {
        Some(place) => place.desk.get() == desk && place.seat == seat,
        None => count == 0,
    }
}

fn is_in_use(lobby: &Lobby, desk: u8) -> bool {
    match desk_of(desk) {
        Some(desk) => lobby.game(desk).is_some(),
        None => false,
    }
}

/// Asks for the desks in use, and says whether they are these, and those of which a copy was made before.
fn tells_desks(lobby: &mut Lobby, rows: &[(u8, u64)]) -> bool {
    let Ok(ahead) = lists_ahead(lobby, 0, &LobbyAct::InUse) else {
        return false;
    };
    match acted(lobby, 0, &LobbyAct::InUse) {
        Ok(LobbyReply::Desks(desks)) => {
            are_rows(ahead.desks.as_slice(), rows) && are_rows(desks.as_slice(), rows)
        }
        _ => false,
    }
}

fn are_rows(desks: &[DeskInUse], rows: &[(u8, u64)]) -> bool {
    if desks.len() != rows.len() {
        return false;
    }
    for place in 0..desks.len() {
        if desks[place].desk.get() != rows[place].0 || desks[place].serial != rows[place].1 {
            return false;
        }
    }
    true
}
