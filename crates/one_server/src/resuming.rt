//! A Resume: a game leaves the shelf and goes on at a desk, or another is asked to resume it.
ghost use Rattle.std.specs.Prelude.{◌≡◌, IfOk, OnOk, OnErr};
ghost use Rattle.lobby_state.specs.Planned.{IsPlanned};
ghost use Rattle.one_server.specs.Plans.{alone_lobby, alone_reply};
ghost use Rattle.one_server.specs.Resuming.{CanResumeAt, resume_desk};

use crate::reply::PairReply;
use clock_ledger::Moment;
use fics_words::Seats;
use linked_desk::Desk;
use lobby_state::{Lobby, Plan};
use memory::NoMemory;
use std::alloc::Global;

/// Restores the stored game of that number at the desk under this serial. Running out of memory leaves the desk vacant.
pub(crate) fn restore(
    alloc: Global,
    lobby: &Lobby,
    desk: &mut Desk,
    moment: Moment,
    serial: u64,
    number: u64,
    seats: &Seats,
) -> Result<(), NoMemory>
    requires ready { CanResumeAt lobby.now desk.old number seats.now }
    ensures ok { OnOk result (desk.new ≡ resume_desk lobby.now desk.old serial number seats.now moment) }
    ensures err { OnErr result (desk.new ≡ desk.old) }
{
    let Some(game) = lobby.stored(number) else {
        unreachable!();
    };
    let _replays = desk.restore(alloc, serial, game, seats, moment)?;
    Ok(())
}

/// Carries out a plan that needs the lobby alone: another is asked to resume. Running out of memory changes nothing.
pub(crate) fn alone_step(lobby: &mut Lobby, plan: &Plan) -> Result<PairReply, NoMemory>
    requires { IsPlanned lobby.old plan.now }
    ensures reply { IfOk result (λ reply. reply ≡ alone_reply plan.now) }
    ensures lobby { OnOk result (lobby.new ≡ alone_lobby lobby.old plan.now) }
    ensures err { OnErr result (lobby.new ≡ lobby.old) }
{
    match plan {
        Plan::Ask { .. } => {
            let ready = lobby.reserve(plan, None)?;
            lobby.commit(plan, ready, true);
            Ok(PairReply::Asked)
        }
        _ => Ok(PairReply::Kept),
    }
}
