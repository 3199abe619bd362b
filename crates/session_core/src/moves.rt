//! How a session makes a half-move, and how who gives a simul then goes to its next place.
ghost use Rattle.std.specs.Prelude.{◌≡◌, ◌≤◌, IfOk, true};
ghost use Rattle.one_server.specs.Replies.{IsReply};
ghost use Rattle.session_core.specs.Memory.{has_entered, memory_told};
ghost use Rattle.session_core.specs.Session.{is_accepted, behind_half_move, moving, turns};
ghost use Rattle.session_core.specs.Stages.{FitsStamp, IsPosed, Settles, acts_left, course_of};

use crate::next::Next;
use crate::session_memory::SessionMemory;
use crate::stage::{Stage, ask_round, at_place};
use crate::texts::{put_refusal, put_shown};
use chess_model::MoveWord;
use fics_words::Refusal;
use linked_desk::{DeskAct, DeskReply};
use lobby_state::LobbyAct;
use memory::NoMemory;
use one_server::{Act, Reply};

/// The lobby has told the places: the half-move is made at the present one; without a place the session itself answers.
pub(crate) fn moving(
    word: MoveWord,
    stamp: Option<u32>,
    memory: &mut SessionMemory,
    reply: &Reply,
    out: &mut Vec<u8>,
) -> Result<Next, NoMemory>
    requires inside { has_entered memory.old ≡ true }
    requires stamp { FitsStamp stamp }
    ensures settles { IfOk result (λ next. Settles (moving word stamp (memory_told memory.old reply.now))
        (course_of next memory.new) out.old.items out.new.items) }
    ensures ready { IfOk result (IsPosed memory.new) }
    ensures fewer { IfOk result (λ next. acts_left next ≤ 3) }
    ensures after { memory.new ≡ memory_told memory.old reply.now }
    ensures stands { memory.new.standing ≡ memory.old.standing }
{
    memory.note(reply);
    let Some(place) = memory.present() else {
        put_refusal(Refusal::NotPlaying, out)?;
        return Ok(ask_round());
    };
    let act = at_place(&place, DeskAct::Move { word, stamp });
    Ok(Next::Ask(act, Stage::Moved(place.seat)))
}

/// The desk has answered the half-move of the player of this seat: the reply is printed, and the round comes; behind an
/// accepted half-move of who gives a simul the next place comes first.
pub(crate) fn moved(
    seat: u8,
    memory: &mut SessionMemory,
    reply: &Reply,
    out: &mut Vec<u8>,
) -> Result<Next, NoMemory>
    requires inside { has_entered memory.old ≡ true }
    requires fits { IsReply reply.now }
    ensures settles { IfOk result (λ next. Settles (behind_half_move seat reply.now memory.old)
        (course_of next memory.new) out.old.items out.new.items) }
    ensures ready { IfOk result (IsPosed memory.new) }
    ensures fewer { IfOk result (λ next. acts_left next ≤ 2) }
    ensures after { memory.new ≡ memory.old }
    ensures stands { memory.new.standing ≡ memory.old.standing }
{
    put_shown(&memory.reader(Some(seat)), reply, out)?;
    if turns(memory, reply) {
        return Ok(Next::Ask(Act::Lobby(LobbyAct::SimNext), Stage::Turning));
    }
    Ok(ask_round())
}

/// Whether the session goes to its next place: it gives a simul, and the desk has accepted its half-move.
fn turns(memory: &SessionMemory, reply: &Reply) -> bool
    ensures { result ≡ turns reply.now memory.now }
{
    is_accepted(reply) && memory.is_giving()
}

/// Whether the desk has accepted a half-move.
fn is_accepted(reply: &Reply) -> bool
    ensures { result ≡ is_accepted reply.now }
{
    match reply {
        Reply::Desk(DeskReply::Done) => true,
        _ => false,
    }
}
