//! The loop that makes a session's acts.
ghost use Rattle.std.specs.Prelude.{◌≡◌, ◌≤◌, ◌<◌, IfOk, OnOk, OnErr};
ghost use Rattle.one_server.specs.Acts.{FitsAct};
ghost use Rattle.session_core.specs.Course.{Asks};
ghost use Rattle.session_core.specs.Going.{Answered, BrokeOff, WentOn};
ghost use Rattle.session_core.specs.Stages.{IsPosed, IsSet, Suits, acts_after, acts_left, continues, course_of};

use crate::next::Next;
use crate::session_memory::SessionMemory;
use crate::stage::Stage;
use crate::visiting::visit_all;
use clock_ledger::Moment;
use memory::NoMemory;
use one_server::{Act, Reply, Runner};
use std::alloc::Global;

/// Makes the acts of a course, all at `moment`, in milliseconds and at most 2^48, and appends what it writes. After
/// running out of memory the acts that were answered stay made, and what they have told is remembered: they are the
/// first ones of the course.
pub(crate) fn follow<R: Runner>(
    alloc: Global,
    r: &mut R,
    moment: Moment,
    memory: &mut SessionMemory,
    first: Next,
    out: &mut Vec<u8>,
) -> Result<(), NoMemory>
    requires ready { IsPosed memory.old first }
    ensures home { R.home r.new ≡ R.home r.old }
    ensures followed { OnOk result (Answered (course_of first memory.old) (λ text. text) moment
        (R.state r.old) out.old.items (R.state r.new) out.new.items memory.new) }
    ensures so_far { BrokeOff (course_of first memory.old) moment (R.state r.old) memory.old
        (R.state r.new) memory.new }
{
    // What is known of every runner is known from here on.
    let _session = r.session();
    let mut next = first;
    loop {
        match next {
            Next::End => return Ok(()),
            Next::Visits => return visit_all(alloc, r, moment, memory, out),
            Next::Ask(act, stage) => next = ask(alloc, r, moment, memory, act, stage, out)?,
        }
    }
}

/// Makes an act, and goes on by its reply.
fn ask<R: Runner>(
    alloc: Global,
    r: &mut R,
    moment: Moment,
    memory: &mut SessionMemory,
    act: Act,
    stage: Stage,
    out: &mut Vec<u8>,
) -> Result<Next, NoMemory>
    requires fits { FitsAct act }
    requires set { IsSet memory.old stage }
    requires suits { Suits act stage }
    ensures home { R.home r.new ≡ R.home r.old }
    ensures went { IfOk result (λ next. WentOn (Asks act (continues stage memory.old))
        (course_of next memory.new) moment (R.state r.old) memory.old out.old.items
        (R.state r.new) memory.new out.new.items) }
    ensures broke { OnErr result (BrokeOff (Asks act (continues stage memory.old)) moment (R.state r.old) memory.old
        (R.state r.new) memory.new) }
    ensures ready { IfOk result (IsPosed memory.new) }
    ensures fewer { IfOk result (λ next. acts_left next ≤ acts_after stage) }
{
    let mut reply = Reply::blank();
    r.run(alloc, moment, act, &mut reply)?;
    stage.next(memory, &reply, out)
}
