//! How a session begins to look on at a game, ceases to, and says something about one.
ghost use Rattle.std.specs.Prelude.{◌≡◌, ◌≤◌, IfOk, false, length, true};
ghost use Rattle.fics_words.specs.Line.{most_text_bytes};
ghost use Rattle.lobby_state.specs.Acts.{FitsLobby};
ghost use Rattle.one_server.specs.Replies.{IsReply};
ghost use Rattle.session_core.specs.Memory.{has_entered};
ghost use Rattle.session_core.specs.Remembering.{asks_places};
ghost use Rattle.session_core.specs.Session.{finding, remark_of, remark_text, to_observe, to_remark, to_unobserve};
ghost use Rattle.session_core.specs.Session.{watched, watching};
ghost use Rattle.session_core.specs.Stages.{IsPosed, IsPrepared, Settles, acts_left};
ghost use Rattle.session_core.specs.Stages.{course_of, first_course};

use crate::first::First;
use crate::next::Next;
use crate::session_memory::SessionMemory;
use crate::stage::{Stage, answered, ask_round, at_place};
use crate::texts::{put_refusal, put_shown};
use fics_words::{Line, Refusal};
use linked_desk::{DeskAct, DeskReply};
use lobby_state::{LobbyAct, LobbyReply, Place, said_line};
use memory::NoMemory;
use one_server::{Act, Reply};
use session_asks::Standing;

/// Begins to look on at a game, for which the lobby is asked by this act; the session itself refuses with `ListFull`
/// where it looks on at 32 games.
pub(crate) fn observe(
    memory: &SessionMemory,
    act: LobbyAct,
    out: &mut Vec<u8>,
) -> Result<First, NoMemory>
    requires fits { FitsLobby act }
    requires asks { asks_places (Act.Lobby act) ≡ false }
    requires inside { has_entered memory.now ≡ true }
    ensures settles { IfOk result (λ first. Settles (to_observe act memory.now)
        (first_course first memory.now) out.old.items out.new.items) }
    ensures ready { IfOk result (IsPrepared memory.now) }
{
    if memory.is_full() {
        put_refusal(Refusal::ListFull, out)?;
        return Ok(First::Going(ask_round()));
    }
    Ok(First::Going(Next::Ask(Act::Lobby(act), Stage::Finding)))
}

/// Begins to look on no longer at the game of this number; the session itself refuses with `NotWatching` where it
/// doesn't look on at that desk.
pub(crate) fn unobserve(
    memory: &SessionMemory,
    number: u16,
    out: &mut Vec<u8>,
) -> Result<First, NoMemory>
    requires inside { has_entered memory.now ≡ true }
    ensures settles { IfOk result (λ first. Settles (to_unobserve number memory.now)
        (first_course first memory.now) out.old.items out.new.items) }
    ensures ready { IfOk result (IsPrepared memory.now) }
{
    let desk = (u32::from(number) + 1) / 2;
    let Some(place) = memory.observed_at(desk) else {
        put_refusal(Refusal::NotWatching, out)?;
        return Ok(First::Going(ask_round()));
    };
    let stage = Stage::Unwatching(place);
    Ok(First::Going(Next::Ask(at_place(&place, DeskAct::Unwatch), stage)))
}

/// Begins to say something about a game, at the present place or else where the session looks on.
pub(crate) fn remark(
    memory: &SessionMemory,
    text: &Line,
    out: &mut Vec<u8>,
) -> Result<First, NoMemory>
    requires text { length text.now ≤ most_text_bytes }
    requires inside { has_entered memory.now ≡ true }
    ensures settles { IfOk result (λ first. Settles (to_remark (remark_of text.now memory.now) memory.now)
        (first_course first memory.now) out.old.items out.new.items) }
    ensures ready { IfOk result (IsPrepared memory.now) }
{
    let act = DeskAct::Remark {
        text: remark_line(memory, text, out)?,
    };
    Ok(First::Going(Next::Ask(Act::Lobby(LobbyAct::Where), Stage::Remarking(act))))
}

/// The line of a remark: the session's own name, and what it says.
fn remark_line(memory: &SessionMemory, text: &Line, out: &Vec<u8>) -> Result<Line, NoMemory>
    requires { length text.now ≤ most_text_bytes }
    ensures { IfOk result (λ line. line ≡ remark_text memory.now.standing text.now) }
{
    let alloc = *out.allocator();
    match memory.standing() {
        Standing::In(name) => said_line(alloc, name, b" kibitzes: ", text.bytes()),
        _ => text.duplicate(),
    }
}

/// The lobby has answered where a game is played: there the session asks to look on. Any other reply is printed, and
/// the round comes.
pub(crate) fn found(
    memory: &mut SessionMemory,
    reply: &Reply,
    out: &mut Vec<u8>,
) -> Result<Next, NoMemory>
    requires inside { has_entered memory.old ≡ true }
    requires fits { IsReply reply.now }
    ensures settles { IfOk result (λ next. Settles (finding reply.now memory.old)
        (course_of next memory.new) out.old.items out.new.items) }
    ensures ready { IfOk result (IsPosed memory.new) }
    ensures fewer { IfOk result (λ next. acts_left next ≤ 2) }
    ensures after { memory.new ≡ memory.old }
    ensures stands { memory.new.standing ≡ memory.old.standing }
{
    match reply {
        Reply::Lobby(LobbyReply::Found(place)) => {
            Ok(Next::Ask(at_place(place, DeskAct::Watch), Stage::Watching(*place)))
        }
        _ => answered(memory, reply, out),
    }
}

/// The desk has answered whether the session looks on, which it remembers also where what it shows runs out of memory:
/// that is printed, and the round comes.
pub(crate) fn watched(
    place: Place,
    memory: &mut SessionMemory,
    reply: &Reply,
    out: &mut Vec<u8>,
) -> Result<Next, NoMemory>
    requires inside { has_entered memory.old ≡ true }
    requires fits { IsReply reply.now }
    ensures settles { IfOk result (λ next. Settles (watching place reply.now memory.old)
        (course_of next memory.new) out.old.items out.new.items) }
    ensures ready { IfOk result (IsPosed memory.new) }
    ensures fewer { IfOk result (λ next. acts_left next ≤ 1) }
    ensures after { memory.new ≡ watched place reply.now memory.old }
    ensures stands { memory.new.standing ≡ memory.old.standing }
{
    let reader = memory.reader(None);
    look_on(place, memory, reply);
    put_shown(&reader, reply, out)?;
    Ok(ask_round())
}

/// The session looks on where it is shown boards.
fn look_on(place: Place, memory: &mut SessionMemory, reply: &Reply)
    ensures after { memory.new ≡ watched place reply.now memory.old }
    ensures stands { memory.new.standing ≡ memory.old.standing }
{
    match reply {
        Reply::Desk(DeskReply::Items { .. }) => memory.observe(place),
        _ => {}
    }
}
