//! Steps of a server, each with its expected reply. What makes them ensures nothing, so that a test is not proved over
//! what an act does.

ghost use Rattle.std.specs.Prelude.{◌≤◌, IfOk};
ghost use Rattle.chess_model.specs.VariantWord.{IsNumbered};
ghost use Rattle.linked_desk.specs.Acts.{FitsDeskAct};
ghost use Rattle.one_server.specs.Acts.{FitsAct};

use crate::parts::{handle, server, square};
use crate::said::{Said, in_short};
use chess_model::{Colour, Kind, MoveWord, Terms, Variant};
use fics_words::{DeskNumber, Fail, Refusal};
use linked_desk::{DeskAct, Offer};
use lobby_state::{LobbyAct, PairAct};
use memory::NoMemory;
use one_server::{Act, OneServer};
use std::alloc::Global;
use test_steps::first_wrong;

/// What a session does. Desk acts and Clears are for desk 1.
#[derive(Clone, Copy)]
pub enum Does {
    Enter([u8; 3]),
    Guest,
    /// Enters under this handle with a password, which is a number here.
    Login([u8; 3], u8),
    Register(u8),
    InUse,
    /// Challenges this player to a game of 2 minutes and 12 seconds with White.
    Match([u8; 3], Variant),
    /// Challenges this player to an untimed game of chess with White.
    Untimed([u8; 3]),
    Where,
    Lines,
    Going,
    Bye,
    Accept(Option<[u8; 3]>),
    /// Asks this player to resume, or resumes.
    Resume([u8; 3]),
    Stored,
    Orders,
    /// The orders up to that number are saved.
    Saved(u64),
    /// Clears desk 1 of the game of that serial.
    Clear(u64),
    /// Moves from a square to another, in the game of that serial.
    Move(u64, u8, u8),
    /// Moves a knight to a square, without naming its origin.
    Knight(u64, u8),
    /// Castles short.
    Castle(u64),
    /// Drops a pawn on a square.
    Drop(u64, u8),
    Adjourn(u64),
    AcceptOffer(u64),
    Resign(u64),
    Flag(u64),
    Items(u64),
    Leave(u64),
}

/// A step: the moment in milliseconds, the session, what it does, and what it has to be replied.
#[derive(Clone, Copy)]
pub struct Step(pub u32, pub u32, pub Does, pub Said);

/// The place of the first step that is replied otherwise, if one is.
pub fn first_failing(server: &mut OneServer, steps: &[Step]) -> Option<usize> {
    first_wrong!(steps, |step| is_as_expected(server, step))
}

/// The same at a new server. A test that has no server of its own is proved in a fraction of the time.
pub fn first_failing_anew(alloc: Global, steps: &[Step]) -> Result<Option<usize>, NoMemory> {
    let mut server = server(alloc)?;
    Ok(first_failing(&mut server, steps))
}

/// How many acts are made by these steps at a new server, if each is replied as it has to be.
pub fn made_anew(alloc: Global, steps: &[Step]) -> Result<Option<usize>, NoMemory> {
    let mut server = server(alloc)?;
    Ok(made_without(first_failing(&mut server, steps), &server))
}

/// How many acts were made, where no step failed.
fn made_without(failing: Option<usize>, server: &OneServer) -> Option<usize> {
    match failing {
        None => Some(made(server)),
        Some(_) => None,
    }
}

/// How many acts were made.
pub fn made(server: &OneServer) -> usize {
    server.history().len()
}

/// Whether a step is replied as it has to be.
pub fn is_as_expected(server: &mut OneServer, step: &Step) -> bool {
    match replied(server, step) {
        Ok(said) => said == step.3,
        Err(_) => false,
    }
}

fn replied(server: &mut OneServer, step: &Step) -> Result<Said, Fail> {
    let act = act_of(step.2)?;
    ran(server, step.1, step.0, act)
}

/// Makes an act, and says what it is replied. It ensures nothing, so that nothing above it is proved over what an act
/// does.
fn ran(server: &mut OneServer, session: u32, moment: u32, act: Act) -> Result<Said, Fail>
    requires { FitsAct act }
{
    let reply = server.run(session, u64::from(moment), act)?;
    Ok(in_short(&reply))
}

/// The act of what a session does.
fn act_of(does: Does) -> Result<Act, Fail>
    ensures { IfOk result FitsAct }
{
    match does {
        Does::Enter(name) => entering(Some(name), None),
        Does::Guest => entering(None, None),
        Does::Login(name, password) => entering(Some(name), Some(password)),
        Does::Register(password) => Ok(registering(password)),
        Does::InUse => Ok(Act::Lobby(LobbyAct::InUse)),
        Does::Match(to, variant) => challenging(&to, (2, 12), variant),
        Does::Untimed(to) => challenging(&to, (0, 0), Variant::Chess),
        Does::Where => Ok(Act::Lobby(LobbyAct::Where)),
        Does::Lines => Ok(Act::Lobby(LobbyAct::Fetch)),
        Does::Going => Ok(Act::Lobby(LobbyAct::Going)),
        Does::Bye => Ok(Act::Lobby(LobbyAct::Bye)),
        Does::Accept(name) => accepting(name),
        Does::Resume(name) => resuming(&name),
        Does::Stored => Ok(Act::Lobby(LobbyAct::Stored)),
        Does::Orders => Ok(Act::Lobby(LobbyAct::Orders)),
        Does::Saved(upto) => Ok(Act::Lobby(LobbyAct::Saved { upto })),
        Does::Clear(serial) => Ok(clearing(serial)),
        Does::Move(serial, from, to) => moving(serial, word(from, to)?),
        Does::Knight(serial, to) => moving(serial, knight_to(to)?),
        Does::Castle(serial) => moving(serial, MoveWord::Castle { long: false }),
        Does::Drop(serial, to) => moving(serial, pawn_drop(to)?),
        Does::Adjourn(serial) => Ok(adjourning(serial)),
        Does::AcceptOffer(serial) => Ok(at_desk(serial, DeskAct::Accept)),
        Does::Resign(serial) => Ok(at_desk(serial, DeskAct::Resign)),
        Does::Flag(serial) => Ok(at_desk(serial, DeskAct::Flag)),
        Does::Items(serial) => Ok(at_desk(serial, DeskAct::Fetch)),
        Does::Leave(serial) => Ok(at_desk(serial, DeskAct::Leave)),
    }
}

fn entering(letters: Option<[u8; 3]>, password: Option<u8>) -> Result<Act, Fail>
    ensures { IfOk result FitsAct }
{
    let name = match letters {
        Some(letters) => Some(handle(&letters)?),
        None => None,
    };
    let digest = match password {
        Some(number) => Some([number; 32]),
        None => None,
    };
    Ok(Act::Lobby(LobbyAct::Enter { name, digest }))
}

fn registering(password: u8) -> Act
    ensures { FitsAct result }
{
    let digest = [password; 32];
    Act::Lobby(LobbyAct::Register { digest })
}

/// A challenge by the player who has White, to a game of so many minutes and seconds of increment.
fn challenging(to: &[u8; 3], clock: (u16, u16), variant: Variant) -> Result<Act, Fail>
    requires minutes { clock.0 ≤ 600 }
    requires increment { clock.1 ≤ 600 }
    ensures { IfOk result FitsAct }
{
    let to = handle(to)?.key();
    let terms = Terms {
        minutes: clock.0,
        increment: clock.1,
        variant: numbered(variant)?,
        colour: Some(Colour::White),
    };
    Ok(Act::Lobby(LobbyAct::Match { to, terms }))
}

fn accepting(name: Option<[u8; 3]>) -> Result<Act, Fail>
    ensures { IfOk result FitsAct }
{
    let key = match name {
        Some(name) => Some(handle(&name)?.key()),
        None => None,
    };
    Ok(Act::Pair(PairAct::Accept(key)))
}

fn resuming(name: &[u8; 3]) -> Result<Act, Fail>
    ensures { IfOk result FitsAct }
{
    let key = handle(name)?.key();
    Ok(Act::Pair(PairAct::Resume(key)))
}

fn moving(serial: u64, word: MoveWord) -> Result<Act, Fail>
    ensures { IfOk result FitsAct }
{
    Ok(at_desk(serial, DeskAct::Move { word, stamp: None }))
}

fn adjourning(serial: u64) -> Act
    ensures { FitsAct result }
{
    let offer = Offer::Adjourn;
    at_desk(serial, DeskAct::Make { offer })
}

fn at_desk(serial: u64, act: DeskAct) -> Act
    requires { FitsDeskAct act }
    ensures { FitsAct result }
{
    let desk = DeskNumber::new(1);
    Act::Desk { desk, serial, act }
}

fn clearing(serial: u64) -> Act
    ensures { FitsAct result }
{
    let desk = DeskNumber::new(1);
    Act::Pair(PairAct::Clear { desk, serial })
}

/// The variant, unless it is Fischer random from an array that there isn't.
fn numbered(variant: Variant) -> Result<Variant, Fail>
    ensures { IfOk result IsNumbered }
{
    match variant {
        Variant::Chess => Ok(Variant::Chess),
        Variant::Crazyhouse => Ok(Variant::Crazyhouse),
        Variant::Bughouse => Ok(Variant::Bughouse),
        Variant::Fischer(number) => {
            if number >= 960 {
                return Err(Fail::Refused(Refusal::BadArguments));
            }
            Ok(Variant::Fischer(number))
        }
    }
}

fn word(from: u8, to: u8) -> Result<MoveWord, Fail> {
    let from = square(from)?;
    let to = square(to)?;
    Ok(MoveWord::Coordinate {
        from,
        to,
        promo: None,
    })
}

fn knight_to(to: u8) -> Result<MoveWord, Fail> {
    let to = square(to)?;
    Ok(MoveWord::Named {
        kind: Kind::Knight,
        file: None,
        rank: None,
        to,
        promo: None,
    })
}

fn pawn_drop(to: u8) -> Result<MoveWord, Fail> {
    let to = square(to)?;
    Ok(MoveWord::Drop {
        kind: Kind::Pawn,
        to,
    })
}
