//! A Clear: a player gives its place at a desk up, and a game that was adjourned goes on the shelf.
ghost use Rattle.std.specs.Prelude.{◌≡◌, ℕ, IfOk, OnOk, OnErr};
ghost use Rattle.lobby_state.specs.Planned.{IsPlanned};
ghost use Rattle.one_server.specs.Clearing.{IsClear, kept_at};
ghost use Rattle.one_server.specs.Desks.{has_ended};
ghost use Rattle.one_server.specs.Plans.{CanCarry, plan_desk, plan_lobby, plan_reply};

use crate::reply::PairReply;
use game_records::StoredGame;
use linked_desk::{Desk, Ended, Why};
use lobby_state::{Lobby, Plan, Ready};
use memory::NoMemory;
use std::alloc::Global;

/// Carries out a Clear, by which the caller gives up its place at the desk: nothing is done where no game of that
/// serial has ended there. Where nobody looks on any more the desk is cleared, and a game that was adjourned goes on
/// the shelf. Want of memory, which such a game alone can meet, changes neither.
pub(crate) fn clear_step(
    alloc: Global,
    lobby: &mut Lobby,
    desk: &mut Desk,
    plan: &Plan,
) -> Result<PairReply, NoMemory>
    requires clear { IsClear plan.now }
    requires planned { IsPlanned lobby.old plan.now }
    requires ready { CanCarry lobby.old plan.now desk.old }
    ensures reply { IfOk result (λ reply. reply ≡ plan_reply plan.now desk.old) }
    ensures lobby { OnOk result (lobby.new ≡ plan_lobby lobby.old plan.now desk.old) }
    ensures desk { (moment : ℕ) → OnOk result (desk.new ≡ plan_desk lobby.old plan.now desk.old moment) }
    ensures err_lobby { OnErr result (lobby.new ≡ lobby.old) }
    ensures err_desk { OnErr result (desk.new ≡ desk.old) }
{
    let Plan::Clear { serial, .. } = plan else {
        unreachable!();
    };
    if !has_ended(desk, *serial) {
        return Ok(PairReply::Kept);
    }
    if !desk.is_left() {
        lobby.commit(plan, Ready::Nothing, false);
        return Ok(PairReply::Freed);
    }
    let kept = kept_at(alloc, desk)?;
    let ready = lobby.reserve(plan, kept)?;
    lobby.commit(plan, ready, true);
    desk.clear();
    Ok(PairReply::Cleared)
}

/// The game that goes on the shelf once the desk is cleared: the one that was adjourned there.
fn kept_at(alloc: Global, desk: &Desk) -> Result<Option<StoredGame>, NoMemory>
    ensures { IfOk result (λ game. game ≡ kept_at desk.now) }
{
    match desk.ended() {
        Some(
            Ended {
                why: Why::Adjourned,
                ..
            },
        ) => Ok(Some(desk.shelve(alloc)?)),
        _ => Ok(None),
    }
}

/// Whether the game of that serial stands at the desk and has ended.
fn has_ended(desk: &Desk, serial: u64) -> bool
    ensures { result ≡ has_ended desk.now serial }
{
    let Some(present) = desk.serial() else {
        return false;
    };
    present == serial && desk.ended().is_some()
}
