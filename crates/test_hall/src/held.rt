//! Schedules at a hall: a gate holds Ann in an act, and the others try theirs meanwhile.

ghost use Rattle.std.specs.Prelude.{◌≡◌};
ghost use Rattle.hall_core.specs.Passes.{first_pass};
ghost use Rattle.lobby_state.specs.Lobby.{opening};
ghost use Rattle.one_server.specs.Whole.{opened_server};

use crate::others::{Others, everyone_joined};
use crate::passes::{Guest, Here};
use crate::steps::{Does, Game, Step, act_of};
use fics_words::Fail as Failure;
use hall_core::{Hall, HallParts, HallPass, Ran};
use std::alloc::Global;
use std::cell::{Cell, RefCell};
use std::sync::Wait;
use test_server_steps::{Said, in_short};
use turn_chain::{Gate, OpenGate};

/// What a try comes to: the part that is busy, or what is replied.
#[derive(Clone, Copy, PartialEq, Eq)]
pub enum Came {
    Busy(u8),
    Done(Said),
}

/// A try: the moment in milliseconds, the session, what it tries, and what that has to come to.
#[derive(Clone, Copy)]
pub struct Try(pub u32, pub u32, pub Does, pub Came);

/// What is done while a part is out, and afterwards.
pub struct Schedule {
    /// What Ann does.
    pub held: Step,
    /// The part with which the gate holds her, once it is out: 0 is the lobby, another number that desk.
    pub part: u8,
    /// What the others try while she is held.
    pub meanwhile: &'static [Try],
    /// What is done once the gate is open.
    pub afterwards: &'static [Step],
}

/// What steps or tries came to.
#[derive(Clone, Copy, PartialEq, Eq)]
pub enum Went {
    /// All came to what they have to.
    AsSaid,
    /// None was made.
    Never,
    /// The one at this place came to something else.
    Otherwise(usize),
    /// One ran out of memory.
    Memory,
}

/// What a schedule came to: before Ann was held, while she was, in her own act, and afterwards.
#[derive(Clone, Copy, PartialEq, Eq)]
pub struct Course {
    pub before: Went,
    pub meanwhile: Went,
    pub held: Went,
    pub afterwards: Went,
}

/// The gate of Ann's seat, at which the others make their tries.
#[derive(Drop)]
struct Waiting<'a, 's, J: Here> {
    alloc: Global,
    others: RefCell<Others<'a, J>>,
    schedule: &'s Schedule,
    meanwhile: Cell<Went>,
}

impl<J: Here> Gate for Waiting<'_, '_, J> {
    /// The others make their tries while Ann has the part of the schedule.
    fn at(&self, _session: u32, part: u8) {
        if part != self.schedule.part {
            return;
        }
        let Ok(mut others) = self.others.try_borrow_mut() else {
            return;
        };
        self.meanwhile
            .set(tried(self.alloc, &mut others, self.schedule.meanwhile));
    }
}

/// What the tries come to.
fn tried<J: Here>(alloc: Global, others: &mut Others<'_, J>, tries: &[Try]) -> Went {
    for (place, row) in tries.iter().enumerate() {
        let Try(moment, session, does, expected) = *row;
        match try_as(
            alloc,
            others.guest(session),
            moment,
            Game::of(session),
            does,
        ) {
            Ok(came) => {
                if came != expected {
                    return Went::Otherwise(place);
                }
            }
            Err(_) => return Went::Memory,
        }
    }
    Went::AsSaid
}

/// What a try of a session comes to.
fn try_as<J: Here>(
    alloc: Global,
    guest: &mut Guest<'_, J>,
    moment: u32,
    game: Game,
    does: Does,
) -> Result<Came, Failure> {
    let act = act_of(game, does)?;
    match guest.try_run(alloc, u64::from(moment), act)? {
        Ran::Done(reply) => Ok(Came::Done(in_short(&reply))),
        Ran::Busy(part, _) => Ok(Came::Busy(part)),
    }
}

/// Whether a session is replied as a step says.
fn is_replied<J: Here, G: Gate, R: Wait>(
    rt: &R,
    alloc: Global,
    guest: &mut Guest<'_, J>,
    gate: &G,
    step: Step,
) -> Result<bool, Failure> {
    let Step(moment, session, does, expected) = step;
    let act = act_of(Game::of(session), does)?;
    let reply = guest.run(rt, alloc, gate, u64::from(moment), act)?;
    Ok(in_short(&reply) == expected)
}

/// What steps come to whose acts nobody holds.
fn stepped<J: Here, R: Wait>(
    rt: &R,
    alloc: Global,
    ann: &mut Guest<'_, J>,
    others: &mut Others<'_, J>,
    steps: &[Step],
) -> Went {
    let open = OpenGate::new();
    for (place, step) in steps.iter().enumerate() {
        let replied = if step.1 == 1 {
            is_replied(rt, alloc, ann, &open, *step)
        } else {
            is_replied(rt, alloc, others.guest(step.1), &open, *step)
        };
        match replied {
            Ok(true) => {}
            Ok(false) => return Went::Otherwise(place),
            Err(_) => return Went::Memory,
        }
    }
    Went::AsSaid
}

/// What a session came to that is replied as it has to, or isn't.
fn act_went(replied: Result<bool, Failure>) -> Went {
    match replied {
        Ok(true) => Went::AsSaid,
        Ok(false) => Went::Otherwise(0),
        Err(_) => Went::Memory,
    }
}

/// What a schedule comes to behind the steps that come before it. The sessions come back.
fn played<'a, J: Here, R: Wait>(
    rt: &R,
    alloc: Global,
    mut ann: Guest<'a, J>,
    mut others: Others<'a, J>,
    before: &[Step],
    schedule: &Schedule,
) -> (Course, Guest<'a, J>, Others<'a, J>) {
    let before = stepped(rt, alloc, &mut ann, &mut others, before);
    let gate = Waiting {
        alloc,
        others: RefCell::new(others),
        schedule,
        meanwhile: Cell::new(Went::Never),
    };
    let held = act_went(is_replied(rt, alloc, &mut ann, &gate, schedule.held));
    let Waiting {
        others,
        meanwhile,
        ..
    } = gate;
    let mut others = others.into_inner();
    let afterwards = stepped(rt, alloc, &mut ann, &mut others, schedule.afterwards);
    let course = Course {
        before,
        meanwhile: meanwhile.get(),
        held,
        afterwards,
    };
    (course, ann, others)
}

/// What a schedule comes to at a hall that has just opened, and what the hall gives back at its close. The first pass,
/// which is the steward's, makes no act. None where a session's number isn't that with which it was split.
pub fn given_back<J: Here, R: Wait>(
    rt: &R,
    alloc: Global,
    hall: Hall,
    first: HallPass,
    before: &[Step],
    schedule: &Schedule,
) -> Option<(Course, HallParts)>
    requires here { hall ≡ J.hall }
    requires fresh { first ≡ first_pass hall (opened_server opening) }
{
    let mut first = first;
    let ann = Guest::<J>::split_from(&hall, &mut first);
    let others = Others::<J>::split_from(&hall, &mut first);
    let (course, ann, others) = played(rt, alloc, ann, others, before, schedule);
    let first = everyone_joined(&hall, first, ann, others)?;
    Some((course, hall.close(first)))
}
