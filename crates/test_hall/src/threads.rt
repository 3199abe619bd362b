//! Four threads at one hall, and the server of one thread behind them in the order in which their parts came out.

ghost use Rattle.std.specs.Prelude.{◌<◌};

use crate::halls::{four_passes, hall};
use crate::replies::is_same;
use crate::steps::{Does, Game, Step, replied, reply_to};
use fics_words::Fail as Failure;
use hall_core::HallSeat;
use one_server::{OneServer, Reply};
use std::alloc::Global;
use std::sync::Wait;
use std::sync::atomic::{AtomicU64, Ordering};
use std::test::Fail;
use std::thread::{Threads, join};
use test_server_steps::{Said, server};
use turn_chain::Gate;

/// How many acts each thread makes.
const ACTS: u32 = 1000;

/// The gate of one session. All gates of a hall count the parts that come out by one counter.
#[derive(Drop)]
struct Turnstile<'a> {
    count: &'a AtomicU64,
    /// The count at the last part that came out for this session.
    last: AtomicU64,
}

impl Gate for Turnstile<'_> {
    fn at(&self, _session: u32, _part: u8) {
        let count = self.count.fetch_add(1, Ordering::SeqCst);
        self.last.store(count, Ordering::SeqCst);
    }
}

/// An act that was made: the count at the last of its parts that came out, and the reply.
#[derive(Drop)]
struct Made {
    count: u64,
    reply: Reply,
}

/// Four players sit down at two desks.
const SEATING: &[Step] = &[
    Step(0, 1, Does::Enter(*b"Ann"), Said::Entered),
    Step(0, 2, Does::Enter(*b"Ben"), Said::Entered),
    Step(0, 3, Does::Enter(*b"Cat"), Said::Entered),
    Step(0, 4, Does::Enter(*b"Dan"), Said::Entered),
    Step(0, 1, Does::Match(*b"Ben"), Said::Done),
    Step(0, 2, Does::Accept, Said::Started),
    Step(0, 3, Does::Match(*b"Dan"), Said::Done),
    Step(0, 4, Does::Accept, Said::Started),
];

/// What a session does as its act of this number, and at which game: it moves its knight out and back, looks at what
/// came at both desks and in the lobby, challenges somebody of the other game, and tries to accept, to clear and to
/// call the flag.
fn deed(session: u32, number: u32) -> (Game, Does) {
    let own = Game::of(session);
    match number % 10 {
        0 => (own, knight_out(session)),
        1 => (own, Does::Items),
        2 => (own, Does::Lines),
        3 => (own.other(), Does::Items),
        4 => (own, knight_back(session)),
        5 => (own, Does::Match(stranger(session))),
        6 => (own, Does::Clear),
        7 => (own, Does::Where),
        8 => (own, Does::Accept),
        _ => (own, Does::Flag),
    }
}

fn knight_out(session: u32) -> Does {
    if session == 1 || session == 3 {
        return Does::Move(6, 21);
    }
    Does::Move(62, 45)
}

fn knight_back(session: u32) -> Does {
    if session == 1 || session == 3 {
        return Does::Move(21, 6);
    }
    Does::Move(45, 62)
}

/// Somebody who plays at the other desk.
fn stranger(session: u32) -> [u8; 3] {
    match session {
        1 => *b"Cat",
        2 => *b"Dan",
        3 => *b"Ann",
        _ => *b"Ben",
    }
}

/// A session at its seat.
#[derive(Drop)]
struct Player<'a, R: Wait> {
    session: u32,
    seat: HallSeat<'a, Turnstile<'a>, R>,
    gate: &'a Turnstile<'a>,
}

/// What a thread made, or the want of memory that ended it.
type Work = Result<Vec<Made>, Failure>;

/// Makes the acts of a session, at a moment a millisecond.
fn work<R: Wait>(alloc: Global, mut player: Player<'_, R>) -> Work {
    made_by(alloc, &mut player)
}

fn made_by<R: Wait>(alloc: Global, player: &mut Player<'_, R>) -> Work {
    let mut made = Vec::new(alloc);
    for number in 0..ACTS {
        made.push(made_as(alloc, player, number)?)?;
    }
    Ok(made)
}

/// The act of a session with this number.
fn made_as<R: Wait>(
    alloc: Global,
    player: &mut Player<'_, R>,
    number: u32,
) -> Result<Made, Failure> {
    let (game, does) = deed(player.session, number);
    let reply = reply_to(&mut player.seat, alloc, number, game, does)?;
    let count = player.gate.last.load(Ordering::SeqCst);
    Ok(Made { count, reply })
}

/// Two sessions in threads of their own.
fn in_two<R: Threads + Wait + Sync>(
    rt: &R,
    alloc: Global,
    one: Player<'_, R>,
    two: Player<'_, R>,
) -> (Work, Work) {
    join(rt, move || work(alloc, one), move || work(alloc, two))
}

/// A gate that counts by this counter.
fn counting(count: &AtomicU64) -> Turnstile<'_> {
    Turnstile {
        count,
        last: AtomicU64::new(0),
    }
}

/// What four sessions made in threads of their own, once they have sat down.
fn in_four<R: Threads + Wait + Sync>(
    rt: &R,
    alloc: Global,
    seating: &[Step],
) -> Result<[Vec<Made>; 4], Failure> {
    let (hall, first) = hall(alloc)?;
    let (one, two, three, four) = four_passes(&hall, first);
    let count = AtomicU64::new(0);
    let (a, b, c, d) = (
        counting(&count),
        counting(&count),
        counting(&count),
        counting(&count),
    );
    let ann = seated_as(1, hall.seat(one, &a, rt), &a);
    let ben = seated_as(2, hall.seat(two, &b, rt), &b);
    let cat = seated_as(3, hall.seat(three, &c, rt), &c);
    let dan = seated_as(4, hall.seat(four, &d, rt), &d);
    sit_down_and_work(rt, alloc, ann, ben, cat, dan, seating)
}

/// Four players sit down, and then work.
fn sit_down_and_work<R: Threads + Wait + Sync>(
    rt: &R,
    alloc: Global,
    mut ann: Player<'_, R>,
    mut ben: Player<'_, R>,
    mut cat: Player<'_, R>,
    mut dan: Player<'_, R>,
    seating: &[Step],
) -> Result<[Vec<Made>; 4], Failure> {
    sit_down(alloc, &mut ann, &mut ben, &mut cat, &mut dan, seating)?;
    all_work(rt, alloc, ann, ben, cat, dan)
}

/// Four players sit down.
fn sit_down<R: Wait>(
    alloc: Global,
    ann: &mut Player<'_, R>,
    ben: &mut Player<'_, R>,
    cat: &mut Player<'_, R>,
    dan: &mut Player<'_, R>,
    steps: &[Step],
) -> Result<(), Failure> {
    for step in steps {
        let game = Game::of(step.1);
        let _said = match step.1 {
            1 => replied(&mut ann.seat, alloc, 0, game, step.2),
            2 => replied(&mut ben.seat, alloc, 0, game, step.2),
            3 => replied(&mut cat.seat, alloc, 0, game, step.2),
            _ => replied(&mut dan.seat, alloc, 0, game, step.2),
        }?;
    }
    Ok(())
}

/// Four sessions in threads of their own. Those of one game are in the two halves, so that they begin close together.
fn all_work<R: Threads + Wait + Sync>(
    rt: &R,
    alloc: Global,
    ann: Player<'_, R>,
    ben: Player<'_, R>,
    cat: Player<'_, R>,
    dan: Player<'_, R>,
) -> Result<[Vec<Made>; 4], Failure> {
    let ((one, three), (two, four)) = join(
        rt,
        move || in_two(rt, alloc, ann, cat),
        move || in_two(rt, alloc, ben, dan),
    );
    Ok([one?, two?, three?, four?])
}

fn seated_as<'a, R: Wait>(
    session: u32,
    seat: HallSeat<'a, Turnstile<'a>, R>,
    gate: &'a Turnstile<'a>,
) -> Player<'a, R> {
    Player {
        session,
        seat,
        gate,
    }
}

/// The count of the next act of a session, and the greatest number where none is left.
fn count_of(made: &Vec<Made>, next: u32) -> u64 {
    match made.get(next as usize) {
        Some(act) => act.count,
        None => u64::MAX,
    }
}

/// The place of the least of four counts.
fn least(counts: [u64; 4]) -> usize
    ensures { result < 4 }
{
    let [one, two, three, four] = counts;
    let (low, below) = if two < one { (two, 1) } else { (one, 0) };
    let (high, above) = if four < three { (four, 3) } else { (three, 2) };
    if high < low { above } else { below }
}

/// The same players sit down at the server of one thread.
fn sit_down_there(alloc: Global, server: &mut OneServer, steps: &[Step]) -> Result<(), Failure> {
    for step in steps {
        let mut seat = server.seat(step.1);
        let _said = replied(&mut seat, alloc, 0, Game::of(step.1), step.2)?;
    }
    Ok(())
}

/// Gives the acts to the server of one thread in the order in which their last parts came out, and counts those that it
/// answers as the hall did.
fn answered_alike(alloc: Global, seating: &[Step], made: &[Vec<Made>; 4]) -> Result<u32, Failure> {
    let mut server = server(alloc)?;
    alike_there(alloc, &mut server, seating, made)
}

fn alike_there(
    alloc: Global,
    server: &mut OneServer,
    seating: &[Step],
    made: &[Vec<Made>; 4],
) -> Result<u32, Failure> {
    sit_down_there(alloc, server, seating)?;
    let mut next = [0u32; 4];
    let mut alike = 0u32;
    for _ in 0..4 * ACTS {
        let counts = [
            count_of(&made[0], next[0]),
            count_of(&made[1], next[1]),
            count_of(&made[2], next[2]),
            count_of(&made[3], next[3]),
        ];
        let place = least(counts);
        let number = next[place];
        next[place] = number.wrapping_add(1);
        let act = made[place].get(number as usize);
        if is_answered(alloc, server, session_at(place), number, act)? {
            alike = alike.wrapping_add(1);
        }
    }
    Ok(alike)
}

/// The session whose acts stand at this place.
fn session_at(place: usize) -> u32 {
    match place {
        0 => 1,
        1 => 2,
        2 => 3,
        _ => 4,
    }
}

/// Whether the server of one thread answers an act of a session as it was answered.
fn is_answered(
    alloc: Global,
    server: &mut OneServer,
    session: u32,
    number: u32,
    made: Option<&Made>,
) -> Result<bool, Failure> {
    let (game, does) = deed(session, number);
    let mut seat = server.seat(session);
    let reply = reply_to(&mut seat, alloc, number, game, does)?;
    Ok(match made {
        Some(made) => is_same(&reply, &made.reply),
        None => false,
    })
}

#[test]
fn four_threads_are_answered_as_one_would_be(rt: HostRuntime) -> Result<(), Fail> {
    let made = in_four(&rt, rt.alloc(), SEATING)?;
    assert_eq!(rt; answered_alike(rt.alloc(), SEATING, &made)?, 4 * ACTS);
    Ok(())
}
