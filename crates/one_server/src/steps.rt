//! The three kinds of step: on the lobby alone, on a desk alone, and on both.
ghost use Rattle.std.specs.Prelude.{◌≡◌, IfOk, IsOk, OnOk, OnErr, true};
ghost use Rattle.linked_desk.specs.Acts.{FitsDeskAct, desk_answer, desk_after, needs_memory};
ghost use Rattle.lobby_state.specs.Acts.{FitsLobby, LobbyNeedsNoMemory, lobby_answer, lobby_after};
ghost use Rattle.lobby_state.specs.Planned.{IsPlanned};
ghost use Rattle.one_server.specs.Acts.{lobby_reply, desk_reply};
ghost use Rattle.one_server.specs.Plans.{CanCarry, plan_desk, plan_lobby, plan_reply};

use crate::clearing::clear_step;
use crate::reply::{PairReply, Reply};
use crate::resuming::{alone_step, restore};
use clock_ledger::Moment;
use fics_words::Fail;
use linked_desk::{Desk, DeskAct};
use lobby_state::{Lobby, LobbyAct, Plan, Ready};
use memory::NoMemory;
use std::alloc::Global;

/// Makes an act that needs the lobby alone, and writes its reply over what stands in its place. Running out of memory
/// changes nothing else, and acts that need none don't meet it.
pub(crate) fn put_lobby(
    lobby: &mut Lobby,
    session: u32,
    moment: u64,
    act: &LobbyAct,
    reply: &mut Reply,
) -> Result<(), NoMemory>
    requires { FitsLobby act.now }
    ensures reply { OnOk result (reply.new ≡ lobby_reply (lobby_answer lobby.old session act.now)) }
    ensures after { OnOk result (lobby.new ≡ lobby_after lobby.old session act.now) }
    ensures err { OnErr result (lobby.new ≡ lobby.old) }
    ensures sure { LobbyNeedsNoMemory act.now → IsOk result }
{
    match lobby.act(session, moment, act) {
        Ok(made) => {
            *reply = Reply::Lobby(made);
            Ok(())
        }
        Err(Fail::Refused(cause)) => {
            *reply = Reply::Refused(cause);
            Ok(())
        }
        Err(Fail::Memory) => Err(NoMemory),
    }
}

/// Makes an act at the game of that serial that needs its desk alone, and writes its reply over what stands in its
/// place. Running out of memory, which only acts that tell boards or items can meet, changes nothing else.
pub(crate) fn put_desk(
    desk: &mut Desk,
    session: u32,
    moment: Moment,
    serial: u64,
    act: &DeskAct,
    reply: &mut Reply,
) -> Result<(), NoMemory>
    requires fits { FitsDeskAct act.now }
    ensures reply { OnOk result (reply.new ≡ desk_reply (desk_answer desk.old session moment serial act.now)) }
    ensures after { OnOk result (desk.new ≡ desk_after desk.old session moment serial act.now) }
    ensures err { OnErr result (desk.new ≡ desk.old) }
    ensures memory { OnErr result (needs_memory act.now ≡ true) }
{
    match desk.act(session, moment, serial, act) {
        Ok(made) => {
            *reply = Reply::Desk(made);
            Ok(())
        }
        Err(Fail::Refused(cause)) => {
            *reply = Reply::Refused(cause);
            Ok(())
        }
        Err(Fail::Memory) => Err(NoMemory),
    }
}

/// Carries out a plan with its lobby and its desk: a game starts there, or goes on that leaves the shelf, or the caller
/// gives up its place. Want of memory changes neither.
pub(crate) fn pair_step(
    alloc: Global,
    lobby: &mut Lobby,
    desk: &mut Desk,
    moment: Moment,
    plan: &Plan,
) -> Result<PairReply, NoMemory>
    requires planned { IsPlanned lobby.old plan.now }
    requires ready { CanCarry lobby.old plan.now desk.old }
    ensures reply { IfOk result (λ reply. reply ≡ plan_reply plan.now desk.old) }
    ensures lobby { OnOk result (lobby.new ≡ plan_lobby lobby.old plan.now desk.old) }
    ensures desk { OnOk result (desk.new ≡ plan_desk lobby.old plan.now desk.old moment) }
    ensures err_lobby { OnErr result (lobby.new ≡ lobby.old) }
    ensures err_desk { OnErr result (desk.new ≡ desk.old) }
{
    match plan {
        Plan::Start {
            serial,
            terms,
            seats,
            ..
        } => {
            desk.start(alloc, *serial, *terms, seats, moment)?;
            lobby.commit(plan, Ready::Nothing, true);
            Ok(PairReply::Started)
        }
        Plan::Resume {
            serial,
            number,
            seats,
            ..
        } => {
            let ready = lobby.reserve(plan, None)?;
            restore(alloc, lobby, desk, moment, *serial, *number, seats)?;
            lobby.commit(plan, ready, true);
            Ok(PairReply::Started)
        }
        Plan::Clear { .. } => clear_step(alloc, lobby, desk, plan),
        Plan::Ask { .. } => alone_step(lobby, plan),
    }
}
