//! What a session does when it leaves.
ghost use Rattle.std.specs.Prelude.{◌≡◌, ◌≤◌, ◌<◌, [], true, OnOk};
ghost use Rattle.one_server.specs.Acts.{FitsAct};
ghost use Rattle.session_core.specs.Course.{Asks, nothing_told};
ghost use Rattle.session_core.specs.Going.{Left, LeftInPart, Passed, Went};
ghost use Rattle.session_core.specs.Memory.{is_gone};
ghost use Rattle.session_core.specs.Session.{leaving_course};
ghost use Rattle.session_core.specs.Stages.{HasGone, MayLeave, acts_of_leaving, acts_to_leave};
ghost use Rattle.session_core.specs.Stages.{leaves, leaving_of};

use crate::leaving_stage::{LeavingNext, LeavingStage, ask_going};
use crate::session_memory::SessionMemory;
use clock_ledger::Moment;
use lobby_state::LobbyReply;
use memory::NoMemory;
use one_server::{Act, Reply, Runner, answered};
use std::alloc::Global;

/// Makes the acts of leaving, all at `moment`, in milliseconds and at most 2^48: the member goes, leaves each of its
/// games, and those at which it looks on, and gives it up, and is gone. An act that runs out of memory is passed over,
/// the others are made, and then the answer is running out of memory. Where Going is passed over, the places are those
/// that the session remembers. Where the runner's mark is true, nothing but the giving up of a place can be passed
/// over.
pub(crate) fn leave<R: Runner>(
    alloc: Global,
    r: &mut R,
    moment: Moment,
    memory: &mut SessionMemory,
) -> Result<(), NoMemory>
    ensures home { R.home r.new ≡ R.home r.old }
    ensures left { OnOk result (Left (leaving_course memory.old) moment (R.state r.old) (R.state r.new) memory.new) }
    ensures part { LeftInPart (leaving_course memory.old) moment (R.state r.old) (R.state r.new) }
    ensures gone { is_gone memory.new ≡ true }
{
    // What is known of every runner is known from here on.
    let _session = r.session();
    let mut all = Ok(());
    let mut next = ask_going();
    loop {
        match next {
            LeavingNext::End => return all,
            LeavingNext::Ask(act, stage) => {
                let (done, then) = ask_or_pass(alloc, r, moment, memory, act, stage);
                all = all.and(done);
                next = then;
            }
        }
    }
}

/// Makes an act of leaving, and goes on by its reply, or past an act that ran out of memory.
fn ask_or_pass<R: Runner>(
    alloc: Global,
    r: &mut R,
    moment: Moment,
    memory: &mut SessionMemory,
    act: Act,
    stage: LeavingStage,
) -> (Result<(), NoMemory>, LeavingNext)
    requires { FitsAct act }
    ensures home { R.home r.new ≡ R.home r.old }
    ensures went { OnOk result.0
        (Went (Asks act (leaves stage memory.old)) (leaving_of result.1 memory.new) moment
        (R.state r.old) [] (R.state r.new) []) }
    ensures passed { Passed (Asks act (leaves stage memory.old)) (leaving_of result.1 memory.new) moment
        (R.state r.old) (R.state r.new) }
    ensures ready { MayLeave result.1 }
    ensures fewer { acts_to_leave result.1 ≤ acts_of_leaving stage }
    ensures gone { HasGone result.1 memory.new }
{
    match answered(r, alloc, moment, act) {
        Ok(reply) => (Ok(()), stage.next(memory, &reply)),
        Err(NoMemory) => (Err(NoMemory), stage.next(memory, &nothing_told())),
    }
}

/// The reply as which an act counts that was passed over.
fn nothing_told() -> Reply
    ensures { result ≡ nothing_told }
{
    Reply::Lobby(LobbyReply::Done)
}
