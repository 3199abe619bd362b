//! A gate at which another session makes acts at the same hall.

use crate::halls::{four_passes, hall};
use crate::steps::{Does, Game, Step, act_of, replied};
use fics_words::Fail as Failure;
use hall_core::{HallSeat, Ran};
use one_server::Runner;
use std::alloc::Global;
use std::cell::{Cell, RefCell};
use std::sync::Wait;
use std::test::Fail;
use test_server_steps::{Said, in_short};
use test_steps::first_wrong;
use turn_chain::{Gate, OpenGate};

/// How many tries are made at the gate.
const TRIES: usize = 4;

/// What a try came to.
#[derive(Clone, Copy, PartialEq, Eq)]
enum Came {
    Busy(u8),
    Done(Said),
}

/// The gate of Ann's seat: once desk 1 is out, Cat tries a Move there, a Move at desk 2, Where and Who.
#[derive(Drop)]
struct Visit<'a, R: Wait> {
    alloc: Global,
    cat: RefCell<HallSeat<'a, OpenGate, R>>,
    came: Cell<[Option<Came>; TRIES]>,
}

impl<R: Wait> Gate for Visit<'_, R> {
    fn at(&self, _session: u32, part: u8) {
        if part != 1 {
            return;
        }
        let Ok(mut cat) = self.cat.try_borrow_mut() else {
            return;
        };
        if let Ok(came) = tries(&mut cat, self.alloc) {
            self.came.set(came);
        }
    }
}

/// The tries of a session.
fn tries<R: Wait>(
    seat: &mut HallSeat<'_, OpenGate, R>,
    alloc: Global,
) -> Result<[Option<Came>; TRIES], Failure> {
    let there = tried(seat, alloc, Game::First, Does::Move(12, 28))?;
    let here = tried(seat, alloc, Game::Second, Does::Move(12, 28))?;
    let lobby = tried(seat, alloc, Game::Second, Does::Where)?;
    let players = tried(seat, alloc, Game::Second, Does::Who)?;
    Ok([Some(there), Some(here), Some(lobby), Some(players)])
}

fn tried<R: Wait>(
    seat: &mut HallSeat<'_, OpenGate, R>,
    alloc: Global,
    game: Game,
    does: Does,
) -> Result<Came, Failure> {
    let act = act_of(game, does)?;
    match seat.try_run(alloc, 3500, act)? {
        Ran::Done(reply) => Ok(Came::Done(in_short(&reply))),
        Ran::Busy(part, _) => Ok(Came::Busy(part)),
    }
}

/// Four players sit down at two desks. Then Ann moves at desk 1, and Cat makes her tries while that desk is out. Both
/// games go on where they stand after that.
const STEPS: &[Step] = &[
    Step(0, 1, Does::Enter(*b"Ann"), Said::Entered),
    Step(0, 2, Does::Enter(*b"Ben"), Said::Entered),
    Step(0, 3, Does::Enter(*b"Cat"), Said::Entered),
    Step(0, 4, Does::Enter(*b"Dan"), Said::Entered),
    Step(0, 1, Does::Match(*b"Ben"), Said::Done),
    Step(0, 2, Does::Accept, Said::Started),
    Step(0, 3, Does::Match(*b"Dan"), Said::Done),
    Step(0, 4, Does::Accept, Said::Started),
    Step(3000, 1, Does::Move(12, 28), Said::Done),
    Step(5000, 2, Does::Move(52, 36), Said::Done),
    Step(5000, 4, Does::Move(52, 36), Said::Done),
    Step(6000, 3, Does::Move(6, 21), Said::Done),
    Step(6000, 3, Does::Items, Said::Items(5, false)),
];

/// What Cat's tries came to, and the place of the first step that is replied otherwise, if one is.
fn visited<R: Wait>(
    rt: &R,
    alloc: Global,
    steps: &[Step],
) -> Result<([Option<Came>; TRIES], Option<usize>), Failure> {
    let (hall, first) = hall(alloc)?;
    let (one, two, three, four) = four_passes(&hall, first);
    let open = OpenGate::new();
    let gate = visited_by(alloc, hall.seat(three, &open, rt));
    let mut ann = hall.seat(one, &gate, rt);
    let mut ben = hall.seat(two, &open, rt);
    let mut dan = hall.seat(four, &open, rt);
    let differing = with_cat(alloc, &mut ann, &mut ben, &gate, &mut dan, steps);
    both(gate.came.get(), differing)
}

/// Both, where the second is one.
fn both(
    came: [Option<Came>; TRIES],
    differing: Result<Option<usize>, Failure>,
) -> Result<([Option<Came>; TRIES], Option<usize>), Failure> {
    Ok((came, differing?))
}

/// A gate at which Cat makes her tries from this seat.
fn visited_by<'a, R: Wait>(alloc: Global, cat: HallSeat<'a, OpenGate, R>) -> Visit<'a, R> {
    Visit {
        alloc,
        cat: RefCell::new(cat),
        came: Cell::new([None; TRIES]),
    }
}

/// The place of the first step of four players that is replied otherwise, if one is. Cat sits at the gate.
fn with_cat<A: Runner, B: Runner, R: Wait>(
    alloc: Global,
    ann: &mut A,
    ben: &mut B,
    gate: &Visit<'_, R>,
    dan: &mut B,
    steps: &[Step],
) -> Result<Option<usize>, Failure> {
    Ok(first_wrong!(steps, |Step(moment, session, does, expected)| {
        let said = match *session {
            1 => replied(ann, alloc, *moment, Game::First, *does),
            2 => replied(ben, alloc, *moment, Game::First, *does),
            3 => by_cat(gate, *moment, *does),
            _ => replied(dan, alloc, *moment, Game::Second, *does),
        };
        said? == *expected
    }))
}

/// What Cat is replied outside of Ann's acts.
fn by_cat<R: Wait>(gate: &Visit<'_, R>, moment: u32, does: Does) -> Result<Said, Failure> {
    match gate.cat.try_borrow_mut() {
        Ok(mut cat) => replied(&mut *cat, gate.alloc, moment, Game::Second, does),
        Err(_) => Err(Failure::Memory),
    }
}

#[test]
fn a_gate_inside_the_hall(rt: HostRuntime) -> Result<(), Fail> {
    let (came, differing) = visited(&rt, rt.alloc(), STEPS)?;
    assert_eq!(rt; differing, None);
    let expected = [
        Some(Came::Busy(1)),
        Some(Came::Done(Said::Done)),
        Some(Came::Done(Said::Places(1))),
        Some(Came::Done(Said::Lines(4))),
    ];
    assert!(rt; came == expected);
    Ok(())
}
