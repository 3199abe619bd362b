//! A desk with two players, and steps at it, each with what it has to be given.
ghost use Rattle.std.specs.Prelude.{IfSome};
ghost use Rattle.clock_ledger.specs.Span.{IsStamp};
ghost use Rattle.linked_desk.specs.Acts.{FitsDeskAct};
ghost use Rattle.linked_desk.specs.Seating.{AllDiffer, HasPairsFor, names_of, sessions_seated};

use crate::four::four;
use chess_model::{MoveWord, Square, Terms, Variant};
use clock_ledger::{Moment, STAMP_CYCLE};
use fics_words::{DeskNumber, Fail, Handle, Opponents, Player, Refusal, Seats};
use linked_desk::{Desk, DeskAct, DeskReply, Ended};
use std::alloc::Global;
use std::process::Abort;
use test_steps::first_wrong;

/// The serial of the game in the tests.
pub const SERIAL: u64 = 7;
/// The session that plays White, and the one that plays Black.
pub const ANN: u32 = 1;

pub const BEN: u32 = 2;

/// A session that has no seat.
pub const STRANGER: u32 = 3;

/// What a session does at the desk.
#[derive(Clone, Copy)]
pub enum Does {
    /// Moves by two squares, as `e2e4`.
    Move(&'static str),
    /// Moves, with the client's stamp.
    Stamped(&'static str, u32),
    /// Its client acknowledges the board with this stamp.
    Acked(u32),
    Resign,
    Flag,
    Fetch,
    Leave,
}

/// What a step is given.
#[derive(Clone, Copy, PartialEq, Eq)]
pub enum Given {
    Done,
    /// So many items, and whether the game is over.
    Items(usize, bool),
    Refused(Refusal),
    /// Running out of memory, a word that the tests can't read, or a stamp that is none.
    Nothing,
}

/// A step: the moment in milliseconds, the session, what it does, and what it has to be given.
#[derive(Clone, Copy)]
pub struct Step(pub u32, pub u32, pub Does, pub Given);

/// Which players have accounts.
#[derive(Clone, Copy)]
pub enum Accounts {
    Nobody,
    Everybody,
}

/// The player of that session, whose account is there or not.
pub fn player(rt: &impl Abort, accounts: Accounts, session: u32, name: &str) -> Player {
    Player {
        session,
        name: Handle::read(name.as_bytes()).expect(rt, "a handle"),
        registered: has_account(accounts),
    }
}

fn has_account(accounts: Accounts) -> bool {
    match accounts {
        Accounts::Nobody => false,
        Accounts::Everybody => true,
    }
}

/// Who sits at a desk, and on which terms they play.
#[derive(Clone, Copy)]
pub struct Sitting {
    pub terms: Terms,
    pub seats: Seats,
}

/// Desk 1 with a game of chess between Ann and Ben that began at moment 0.
pub fn desk_with_game(rt: &impl Abort, alloc: Global, minutes: u16, increment: u16) -> Desk {
    let sitting = two(rt, Accounts::Nobody, minutes, increment);
    desk_with(rt, alloc, &sitting)
}

/// Desk 1 with a game that began so at moment 0.
pub fn desk_with(rt: &impl Abort, alloc: Global, sitting: &Sitting) -> Desk
    requires pairs { HasPairsFor sitting.now.terms sitting.now.seats }
    requires sessions { AllDiffer (sessions_seated sitting.now.seats) }
    requires names { AllDiffer (names_of sitting.now.seats) }
{
    let mut desk = Desk::vacant(DeskNumber::new(1));
    let started = desk.start(alloc, SERIAL, sitting.terms, &sitting.seats, Moment::new(0));
    assert!(rt; started.is_ok(), "there is memory");
    desk
}

/// Ann and Ben, who play chess.
fn two(rt: &impl Abort, accounts: Accounts, minutes: u16, increment: u16) -> Sitting
    ensures pairs { HasPairsFor result.terms result.seats }
    ensures sessions { AllDiffer (sessions_seated result.seats) }
    ensures names { AllDiffer (names_of result.seats) }
{
    let white = player(rt, accounts, ANN, "Ann");
    let black = player(rt, accounts, BEN, "Ben");
    assert!(rt; white.session != black.session, "two sessions");
    assert!(rt; white.name.key() != black.name.key(), "two names");
    Sitting {
        terms: Terms {
            minutes,
            increment,
            variant: Variant::Chess,
            colour: None,
        },
        seats: Seats {
            first: Opponents { white, black },
            second: None,
        },
    }
}

/// What stands at a desk as a test begins: nothing at desk 128, or a game at desk 1.
#[derive(Clone, Copy)]
pub enum Opening {
    Vacant,
    /// A game of chess between Ann and Ben with these minutes and this increment.
    Chess(u16, u16),
    /// An untimed game of bughouse of four.
    Pair,
    /// A game of chess between Ann and Ben, who have accounts, with these minutes and this increment.
    Members(u16, u16),
    /// An untimed game of bughouse of four who have accounts.
    PairOfMembers,
}

/// The desk with that, begun at moment 0.
pub fn desk_of(rt: &impl Abort, alloc: Global, opening: Opening) -> Desk {
    match opening {
        Opening::Vacant => Desk::vacant(DeskNumber::new(128)),
        _ => desk_with(rt, alloc, &who_sits(rt, opening)),
    }
}

/// Who sits there.
pub fn who_sits(rt: &impl Abort, opening: Opening) -> Sitting
    ensures pairs { HasPairsFor result.terms result.seats }
    ensures sessions { AllDiffer (sessions_seated result.seats) }
    ensures names { AllDiffer (names_of result.seats) }
{
    match opening {
        Opening::Vacant => two(rt, Accounts::Nobody, 0, 0),
        Opening::Chess(minutes, increment) => { two(rt, Accounts::Nobody, minutes, increment) }
        Opening::Pair => four(rt, Accounts::Nobody),
        Opening::Members(minutes, increment) => { two(rt, Accounts::Everybody, minutes, increment) }
        Opening::PairOfMembers => four(rt, Accounts::Everybody),
    }
}

/// The place of the first step at the game of that serial that is given something else, if one is.
pub fn first_failing(desk: &mut Desk, serial: u64, steps: &[Step]) -> Option<usize> {
    first_wrong!(steps, |step| is_given(desk, serial, step))
}

/// Whether a step at the game of that serial is given what it has to be.
fn is_given(desk: &mut Desk, serial: u64, step: &Step) -> bool {
    what_comes(desk, serial, step) == step.3
}

fn what_comes(desk: &mut Desk, serial: u64, step: &Step) -> Given {
    match act_of(step.2) {
        Some(act) => answered(desk, step.1, step.0, serial, &act),
        None => Given::Nothing,
    }
}

/// What an act is given.
pub fn answered(desk: &mut Desk, session: u32, moment: u32, serial: u64, act: &DeskAct) -> Given
    requires { FitsDeskAct act.now }
{
    in_short(&acted(desk, session, moment, serial, act))
}

/// Makes an act. It ensures nothing, so that nothing above it is proved over what an act does.
pub fn acted(
    desk: &mut Desk,
    session: u32,
    moment: u32,
    serial: u64,
    act: &DeskAct,
) -> Result<DeskReply, Fail>
    requires { FitsDeskAct act.now }
{
    desk.act(session, Moment::new(u64::from(moment)), serial, act)
}

fn in_short(answer: &Result<DeskReply, Fail>) -> Given {
    match answer {
        Ok(reply) => of_reply(reply),
        Err(Fail::Refused(cause)) => Given::Refused(*cause),
        Err(Fail::Memory) => Given::Nothing,
    }
}

fn of_reply(reply: &DeskReply) -> Given {
    match reply {
        DeskReply::Done => Given::Done,
        DeskReply::Items { items, over } => Given::Items(items.len(), *over),
    }
}

fn act_of(does: Does) -> Option<DeskAct>
    ensures { IfSome result FitsDeskAct }
{
    match does {
        Does::Move(text) => move_of(text.as_bytes(), None),
        Does::Stamped(text, stamp) => move_of(text.as_bytes(), Some(stamp_of(stamp)?)),
        Does::Acked(stamp) => Some(DeskAct::Acked {
            stamp: stamp_of(stamp)?,
        }),
        Does::Resign => Some(DeskAct::Resign),
        Does::Flag => Some(DeskAct::Flag),
        Does::Fetch => Some(DeskAct::Fetch),
        Does::Leave => Some(DeskAct::Leave),
    }
}

/// The number as a client's stamp.
fn stamp_of(number: u32) -> Option<u32>
    ensures { IfSome result IsStamp }
{
    if number < STAMP_CYCLE {
        Some(number)
    } else {
        None
    }
}

fn move_of(text: &[u8], stamp: Option<u32>) -> Option<DeskAct>
    requires { IfSome stamp IsStamp }
    ensures { IfSome result FitsDeskAct }
{
    let word = word_of(text)?;
    Some(DeskAct::Move { word, stamp })
}

fn word_of(text: &[u8]) -> Option<MoveWord> {
    match text {
        [a, b, c, d] => Some(MoveWord::Coordinate {
            from: square(*a, *b)?,
            to: square(*c, *d)?,
            promo: None,
        }),
        _ => None,
    }
}

fn square(file: u8, rank: u8) -> Option<Square> {
    if !(b'a'..=b'h').contains(&file) || !(b'1'..=b'8').contains(&rank) {
        return None;
    }
    Some(Square::on(file - b'a', rank - b'1'))
}

/// How the game ended, and how many viewers there are.
pub fn outcome(desk: &Desk) -> (Option<Ended>, usize) {
    (desk.ended(), desk.viewers())
}

/// Makes the desk vacant, if its game is over and has no viewer, and says whether it did.
pub fn cleared(desk: &mut Desk) -> bool {
    if desk.ended().is_none() || desk.viewers() > 0 {
        return false;
    }
    desk.clear();
    desk.serial().is_none()
}
