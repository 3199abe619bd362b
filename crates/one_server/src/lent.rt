//! The parts that an act is lent, and its step on them, for whoever keeps the parts apart.
ghost use Rattle.std.specs.Prelude.{◌≡◌, None, Some, IsOk, OnOk, OnErr};
ghost use Rattle.one_server.specs.Acts.{IsEvent, FitsAct, NeedsNoMemory, first_part, planned_desk, second_part};
ghost use Rattle.one_server.specs.House.{house_answer, house_one, house_two, pair_lobby, pair_reply};
ghost use Rattle.lobby_state.specs.Plans.{plan_of};
ghost use Rattle.one_server.specs.Lent.{IsFirstOf, AreBothOf};

use crate::act::{Act, Timed};
use crate::part::Part;
use crate::reply::Reply;
use crate::resuming::alone_step;
use crate::steps::{pair_step, put_desk, put_lobby};
use clock_ledger::Moment;
use lobby_state::{Lobby, PairAct};
use memory::NoMemory;
use std::alloc::Global;

/// The number of an act's first part: the desk of a desk act, and else 0, the lobby's.
pub fn first_part(act: &Act) -> u8
    ensures { result ≡ first_part act.now }
{
    match act {
        Act::Lobby(_) => 0,
        Act::Desk { desk, .. } => desk.get(),
        Act::Pair(_) => 0,
    }
}

/// The number of an act's second part, by its first: the desk of the plan that the lobby has for a pair act, if it has
/// one.
pub fn second_part(one: &Part, session: u32, act: &Act) -> Option<u8>
    requires { FitsAct act.now }
    ensures { result ≡ second_part one.now session act.now }
{
    let Part::Lobby(lobby) = one else {
        return None;
    };
    let Act::Pair(act) = act else {
        return None;
    };
    match lobby.plan(session, act) {
        Ok(plan) => Some(plan.desk()?.get()),
        Err(_) => None,
    }
}

/// Makes an act that has one part on that part, and writes its reply. Running out of memory changes nothing but what
/// stands in place of the reply, and an act that needs no memory of its own doesn't meet it.
pub fn alone(one: &mut Part, session: u32, timed: &Timed, reply: &mut Reply) -> Result<(), NoMemory>
    requires event { IsEvent timed.now }
    requires first { IsFirstOf one.old timed.now.act }
    requires single { second_part one.old session timed.now.act ≡ None }
    ensures reply { OnOk result (reply.new ≡ house_answer one.old None session timed.now.moment timed.now.act) }
    ensures after { OnOk result (one.new ≡ house_one one.old None session timed.now.moment timed.now.act) }
    ensures err { OnErr result (one.new ≡ one.old) }
    ensures sure { NeedsNoMemory timed.now.act → IsOk result }
{
    match one {
        Part::Lobby(lobby) => match &timed.act {
            Act::Lobby(act) => put_lobby(lobby, session, timed.moment, act, reply),
            Act::Pair(act) => put_planned(lobby, session, act, reply),
            Act::Desk { .. } => unreachable!(),
        },
        Part::Desk(desk) => match &timed.act {
            Act::Desk { serial, act, .. } => {
                let moment = Moment::new(timed.moment);
                put_desk(desk, session, moment, *serial, act, reply)
            }
            Act::Lobby(_) => unreachable!(),
            Act::Pair(_) => unreachable!(),
        },
    }
}

/// Makes a pair act whose plan has no desk, or that is refused, on the lobby, and writes its reply. Running out of
/// memory changes nothing but what stands in place of the reply.
fn put_planned(
    lobby: &mut Lobby,
    session: u32,
    act: &PairAct,
    reply: &mut Reply,
) -> Result<(), NoMemory>
    requires { planned_desk (plan_of lobby.old session act.now) ≡ None }
    ensures reply { OnOk result (reply.new ≡ pair_reply (plan_of lobby.old session act.now) None) }
    ensures after { OnOk result (lobby.new ≡ pair_lobby lobby.old (plan_of lobby.old session act.now) None) }
    ensures err { OnErr result (lobby.new ≡ lobby.old) }
{
    match lobby.plan(session, act) {
        Err(cause) => {
            *reply = Reply::Refused(cause);
            Ok(())
        }
        Ok(plan) => {
            *reply = Reply::Pair(alone_step(lobby, &plan)?);
            Ok(())
        }
    }
}

/// Makes an act that has two parts on the lobby and the desk of its plan, and writes its reply. Running out of memory
/// changes nothing but what stands in place of the reply.
pub fn together(
    alloc: Global,
    one: &mut Part,
    two: &mut Part,
    session: u32,
    timed: &Timed,
    reply: &mut Reply,
) -> Result<(), NoMemory>
    requires event { IsEvent timed.now }
    requires both { AreBothOf one.old two.old session timed.now.act }
    ensures reply { OnOk result
        (reply.new ≡ house_answer one.old (Some two.old) session timed.now.moment timed.now.act) }
    ensures one { OnOk result (one.new ≡ house_one one.old (Some two.old) session timed.now.moment timed.now.act) }
    ensures two { OnOk result (two.new ≡ house_two one.old two.old session timed.now.moment timed.now.act) }
    ensures err_one { OnErr result (one.new ≡ one.old) }
    ensures err_two { OnErr result (two.new ≡ two.old) }
{
    let Part::Lobby(lobby) = one else {
        unreachable!();
    };
    let Part::Desk(desk) = two else {
        unreachable!();
    };
    let Act::Pair(act) = &timed.act else {
        unreachable!();
    };
    let Ok(plan) = lobby.plan(session, act) else {
        unreachable!();
    };
    let moment = Moment::new(timed.moment);
    *reply = Reply::Pair(pair_step(alloc, lobby, desk, moment, &plan)?);
    Ok(())
}
