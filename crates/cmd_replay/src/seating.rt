//! The acts that seat the players of a seat line.

ghost use Rattle.std.specs.Prelude.{◌≡◌, ◌≤◌, ◌∷◌, [], OnOk, length};
ghost use Rattle.lobby_state.specs.Terms.{AreTerms};
ghost use Rattle.one_server.specs.Acts.{FitsAct};
ghost use Rattle.replay_core.specs.SeatLine.{IsSeatLine, players_wanted};
ghost use Rattle.session_core.specs.Course.{act_at};
ghost use Rattle.cmd_replay.specs.Evening.{HasMade, second_accepts, asks_partner, challenging, enters_as, fetching, seating_acts};

use chess_model::{Terms, Variant};
use fics_words::Handle;
use lobby_state::{LobbyAct, PairAct};
use memory::NoMemory;
use one_server::{Act, OneServer};
use replay_core::SeatLine;

/// How many players a game of the variant has: two at each board.
pub(crate) fn players(variant: Variant) -> u32
    ensures count { result ≡ players_wanted variant }
    ensures few { result ≤ 4 }
{
    match variant {
        Variant::Chess => 2,
        Variant::Crazyhouse => 2,
        Variant::Bughouse => 4,
        Variant::Fischer(_) => 2,
    }
}

/// Seats the players of a seat line as the sessions from 1 on, all at moment 0: they enter in the order of their names;
/// four become partners, the first of the fourth and the second of the third; the first challenges the second, who
/// accepts; and all take what waits for them.
pub(crate) fn seat(server: &mut OneServer, line: &SeatLine) -> Result<(), NoMemory>
    requires { IsSeatLine line.now }
    ensures opening { server.new.opening ≡ server.old.opening }
    ensures made { OnOk result (HasMade (seating_acts line.now.names line.now.terms) server.old.log server.new.log) }
{
    let names = line.names.as_slice();
    match line.terms.variant {
        Variant::Chess => seat_two(server, names, line.terms),
        Variant::Crazyhouse => seat_two(server, names, line.terms),
        Variant::Bughouse => seat_four(server, names, line.terms),
        Variant::Fischer(_) => seat_two(server, names, line.terms),
    }
}

/// Seats two players.
fn seat_two(server: &mut OneServer, names: &[Handle], terms: Terms) -> Result<(), NoMemory>
    requires two { length names.now ≡ 2 }
    requires terms { AreTerms terms }
    ensures opening { server.new.opening ≡ server.old.opening }
    ensures made { OnOk result (HasMade (seating_acts names.now terms) server.old.log server.new.log) }
{
    let white = names[0];
    let black = names[1];
    enter(server, 1, white)?;
    enter(server, 2, black)?;
    start(server, black, terms)?;
    fetch(server, 1)?;
    fetch(server, 2)
}

/// Seats four players.
fn seat_four(server: &mut OneServer, names: &[Handle], terms: Terms) -> Result<(), NoMemory>
    requires four { length names.now ≡ 4 }
    requires terms { AreTerms terms }
    ensures opening { server.new.opening ≡ server.old.opening }
    ensures made { OnOk result (HasMade (seating_acts names.now terms) server.old.log server.new.log) }
{
    let one = names[0];
    let two = names[1];
    let three = names[2];
    let four = names[3];
    enter_four(server, one, two, three, four)?;
    link_four(server, one, two, three, four)?;
    start(server, two, terms)?;
    fetch_four(server)
}

/// Four players enter, in this order.
fn enter_four(
    server: &mut OneServer,
    one: Handle,
    two: Handle,
    three: Handle,
    four: Handle,
) -> Result<(), NoMemory>
    ensures opening { server.new.opening ≡ server.old.opening }
    ensures made { OnOk result (HasMade (enters_as 1 one ∷ enters_as 2 two ∷ enters_as 3 three ∷ enters_as 4 four ∷ [])
        server.old.log server.new.log) }
{
    enter(server, 1, one)?;
    enter(server, 2, two)?;
    enter(server, 3, three)?;
    enter(server, 4, four)
}

/// The first and the fourth ask one another to be partners, and then the second and the third.
fn link_four(
    server: &mut OneServer,
    one: Handle,
    two: Handle,
    three: Handle,
    four: Handle,
) -> Result<(), NoMemory>
    ensures opening { server.new.opening ≡ server.old.opening }
    ensures made { OnOk result (HasMade
        (asks_partner 1 four ∷ asks_partner 4 one ∷ asks_partner 2 three ∷ asks_partner 3 two ∷ [])
        server.old.log server.new.log) }
{
    ask(server, 1, four)?;
    ask(server, 4, one)?;
    ask(server, 2, three)?;
    ask(server, 3, two)
}

/// Four players take what waits for them.
fn fetch_four(server: &mut OneServer) -> Result<(), NoMemory>
    ensures opening { server.new.opening ≡ server.old.opening }
    ensures made { OnOk result (HasMade (fetching 1 ∷ fetching 2 ∷ fetching 3 ∷ fetching 4 ∷ [])
        server.old.log server.new.log) }
{
    fetch(server, 1)?;
    fetch(server, 2)?;
    fetch(server, 3)?;
    fetch(server, 4)
}

/// The first session challenges the second, which has this name, and the second accepts.
fn start(server: &mut OneServer, second: Handle, terms: Terms) -> Result<(), NoMemory>
    requires { AreTerms terms }
    ensures opening { server.new.opening ≡ server.old.opening }
    ensures made { OnOk result
        (HasMade (challenging second terms ∷ second_accepts ∷ []) server.old.log server.new.log) }
{
    let to = second.key();
    make(server, 1, Act::Lobby(LobbyAct::Match { to, terms }))?;
    make(server, 2, Act::Pair(PairAct::Accept(None)))
}

/// A session enters under the name.
fn enter(server: &mut OneServer, session: u32, name: Handle) -> Result<(), NoMemory>
    ensures opening { server.new.opening ≡ server.old.opening }
    ensures made { OnOk result (HasMade (enters_as session name ∷ []) server.old.log server.new.log) }
{
    let act = LobbyAct::Enter {
        name: Some(name),
        digest: None,
    };
    make(server, session, Act::Lobby(act))
}

/// A session asks the player of the name to be its partner.
fn ask(server: &mut OneServer, session: u32, name: Handle) -> Result<(), NoMemory>
    ensures opening { server.new.opening ≡ server.old.opening }
    ensures made { OnOk result (HasMade (asks_partner session name ∷ []) server.old.log server.new.log) }
{
    let key = name.key();
    make(
        server,
        session,
        Act::Lobby(LobbyAct::Partner { name: Some(key) }),
    )
}

/// A session takes what waits for it.
fn fetch(server: &mut OneServer, session: u32) -> Result<(), NoMemory>
    ensures opening { server.new.opening ≡ server.old.opening }
    ensures made { OnOk result (HasMade (fetching session ∷ []) server.old.log server.new.log) }
{
    make(server, session, Act::Lobby(LobbyAct::Fetch))
}

/// Makes an act of a session at moment 0; what it is answered isn't told to anybody.
fn make(server: &mut OneServer, session: u32, act: Act) -> Result<(), NoMemory>
    requires { FitsAct act }
    ensures opening { server.new.opening ≡ server.old.opening }
    ensures made { OnOk result (HasMade ((session, act_at 0 act) ∷ []) server.old.log server.new.log) }
{
    let _reply = server.run(session, 0, act)?;
    Ok(())
}
