//! The stages of leaving.
ghost use Rattle.std.specs.Prelude.{◌≡◌, ◌≤◌, ◌*◌, ◌+◌, length};
ghost use Rattle.session_core.specs.Memory.{MemoryState};
ghost use Rattle.session_core.specs.Session.{leave_games};
ghost use Rattle.session_core.specs.Stages.{HasGone, MayLeave, acts_of_leaving, acts_to_leave};
ghost use Rattle.session_core.specs.Stages.{leaves, leaving_of};

use crate::game_acts::{at_game, clear_at};
use crate::session_memory::SessionMemory;
use linked_desk::DeskAct;
use lobby_state::LobbyAct;
use one_server::{Act, Reply};
use session_asks::{Visit, VisitsLeft};

/// What stands between an act of leaving and its reply.
#[derive(Drop)]
pub(crate) enum LeavingStage {
    /// The member begins to leave.
    Going,
    /// A game is left, and these games come next.
    Leaving(Visit, VisitsLeft),
    /// A game is given up, and these games come next.
    Clearing(VisitsLeft),
    /// The member is gone.
    Gone,
}

/// What comes next: an act of leaving, and the stage at which its reply is awaited; or nothing more.
#[derive(Drop)]
pub(crate) enum LeavingNext {
    Ask(Act, LeavingStage),
    End,
}

impl LeavingStage {
    /// Goes on by the reply to the next act or the end.
    pub(crate) fn next(self, memory: &mut SessionMemory, reply: &Reply) -> LeavingNext
        ensures goes { leaving_of result memory.new ≡ leaves self memory.old reply.now }
        ensures ready { MayLeave result }
        ensures fewer { acts_to_leave result ≤ acts_of_leaving self }
        ensures gone { HasGone result memory.new }
    {
        match self {
            LeavingStage::Going => {
                memory.note(reply);
                leave_next(memory.visits())
            }
            LeavingStage::Leaving(visit, rest) => {
                LeavingNext::Ask(clear_at(&visit), LeavingStage::Clearing(rest))
            }
            LeavingStage::Clearing(rest) => leave_next(rest),
            LeavingStage::Gone => {
                memory.depart();
                LeavingNext::End
            }
        }
    }
}

/// The act that begins to leave.
pub(crate) fn ask_going() -> LeavingNext
    ensures { result ≡ LeavingNext.Ask (Act.Lobby LobbyAct.Going) LeavingStage.Going }
{
    LeavingNext::Ask(Act::Lobby(LobbyAct::Going), LeavingStage::Going)
}

/// The act that leaves the first of these games; behind the last one the member is gone.
fn leave_next(rest: VisitsLeft) -> LeavingNext
    ensures goes { (memory : MemoryState) → leaving_of result memory ≡ leave_games rest memory }
    ensures ready { MayLeave result }
    ensures fewer { acts_to_leave result ≤ 2 * length rest + 1 }
    ensures gone { (memory : MemoryState) → HasGone result memory }
{
    let mut rest = rest;
    match rest.pop() {
        None => LeavingNext::Ask(Act::Lobby(LobbyAct::Bye), LeavingStage::Gone),
        Some(visit) => {
            let act = at_game(&visit, DeskAct::Leave);
            LeavingNext::Ask(act, LeavingStage::Leaving(visit, rest))
        }
    }
}
