//! The stages of a session: all that it decides between an act and its reply, up to the visits of a round.
ghost use Rattle.std.specs.Prelude.{◌≡◌, ◌≤◌, ◌||◌, true, IfOk, Some};
ghost use Rattle.clock_ledger.specs.Span.{IsStamp};
ghost use Rattle.linked_desk.specs.Acts.{FitsDeskAct};
ghost use Rattle.lobby_state.specs.Desks.{IsDesk};
ghost use Rattle.one_server.specs.Replies.{IsReply};
ghost use Rattle.session_core.specs.Course.{Writes};
ghost use Rattle.session_core.specs.Remembering.{is_entered};
ghost use Rattle.session_core.specs.Memory.{has_entered, memory_told, without_observed};
ghost use Rattle.session_core.specs.Session.{acking, course_behind, at_place};
ghost use Rattle.session_core.specs.Session.{placing, reacted, reacting, rounding, remarking, shown};
ghost use Rattle.session_core.specs.Stages.{IsPosed, IsSet, Settles, acts_after, acts_left, continues};
ghost use Rattle.session_core.specs.Stages.{course_of, kept};
ghost use Rattle.session_core.specs.Texts.{waiting_text};

use crate::login::entered;
use crate::moves::{moved, moving};
use crate::next::Next;
use crate::reaction::{Reaction, in_lobby, of_desk, says_no_offer};
use crate::session_memory::SessionMemory;
use crate::texts::{put_refusal, put_reply, put_shown, put_waiting};
use crate::watching::{found, watched};
use chess_model::MoveWord;
use fics_words::{DeskNumber, Handle, Refusal};
use linked_desk::DeskAct;
use lobby_state::{LobbyAct, Place};
use memory::NoMemory;
use one_server::{Act, Reply};
use std::mem::size_of;

/// What stands between an act that an input makes and its reply.
#[derive(Drop)]
pub(crate) enum Stage {
    /// The session has asked to enter under this name, or as a guest.
    Entering(Option<Handle>),
    /// The lobby is asked for the present place, for this act there.
    Placing(DeskAct),
    /// The lobby is asked for the present place, for this half-move there; the word carries the stamp of its line.
    Moving { word: MoveWord, stamp: Option<u32> },
    /// The player of this seat has made a half-move.
    Moved(u8),
    /// Who gives a simul goes to its next place.
    Turning,
    /// The lobby is asked for the present place, to answer the earliest offer there.
    Reacting(Reaction),
    /// A desk is asked to answer an offer, and the lobby comes next where none stands there.
    Reacted(Reaction),
    /// An act is made whose reply is printed before the round.
    Answering,
    /// And one at a desk, which may show the game to the player of this seat.
    Showing(u8),
    /// The lobby is asked for the present place, for this act there, or else where the session looks on.
    Remarking(DeskAct),
    /// The lobby is asked where a game is played, for the session to look on.
    Finding,
    /// The session has asked to look on at the game of this place.
    Watching(Place),
    /// The session looks on no longer at the game of this place.
    Unwatching(Place),
    /// The lobby is asked for what is new.
    Rounding,
    /// The lobby is asked for the present place, for an acknowledgement with this stamp.
    AwaitingPlace(u32),
    /// An acknowledgement is made, and nothing follows.
    Acking,
}

// A stage is moved from each act to the next.
const _: () = prove!(size_of::<Stage>() <= 64);

impl Stage {
    /// Goes on by the reply: what follows it is written, up to the next act or the end.
    pub(crate) fn next(
        self,
        memory: &mut SessionMemory,
        reply: &Reply,
        out: &mut Vec<u8>,
    ) -> Result<Next, NoMemory>
        requires set { IsSet memory.old self }
        requires fits { IsReply reply.now }
        ensures settles { IfOk result (λ next. Settles (continues self memory.old reply.now)
            (course_of next memory.new) out.old.items out.new.items) }
        ensures ready { IfOk result (IsPosed memory.new) }
        ensures fewer { IfOk result (λ next. acts_left next ≤ acts_after self) }
        ensures after { memory.new ≡ kept self memory.old reply.now }
        ensures inside { has_entered memory.new ≡ (has_entered memory.old || is_entered reply.now) }
    {
        match self {
            Stage::Entering(name) => entered(name, memory, reply, out),
            Stage::Placing(act) => placed(act, memory, reply, out),
            Stage::Moving { word, stamp } => moving(word, stamp, memory, reply, out),
            Stage::Moved(seat) => moved(seat, memory, reply, out),
            Stage::Turning => Ok(ask_round()),
            Stage::Reacting(reaction) => Ok(reacting(reaction, memory, reply)),
            Stage::Reacted(reaction) => reacted(reaction, memory, reply, out),
            Stage::Answering => answered(memory, reply, out),
            Stage::Rounding => rounded(memory, reply, out),
            Stage::Showing(seat) => shown(seat, memory, reply, out),
            Stage::Remarking(act) => remarked(act, memory, reply, out),
            Stage::Finding => found(memory, reply, out),
            Stage::Watching(place) => watched(place, memory, reply, out),
            Stage::Unwatching(place) => unwatched(place.desk, memory, reply, out),
            Stage::AwaitingPlace(stamp) => Ok(acking(stamp, memory, reply)),
            Stage::Acking => Ok(Next::End),
        }
    }
}

/// The lobby has told the places: the act is made at the present one; without a place the session itself answers.
fn placed(
    act: DeskAct,
    memory: &mut SessionMemory,
    reply: &Reply,
    out: &mut Vec<u8>,
) -> Result<Next, NoMemory>
    requires inside { has_entered memory.old ≡ true }
    requires act { FitsDeskAct act }
    ensures settles { IfOk result (λ next. Settles (placing act (memory_told memory.old reply.now))
        (course_of next memory.new) out.old.items out.new.items) }
    ensures ready { IfOk result (IsPosed memory.new) }
    ensures fewer { IfOk result (λ next. acts_left next ≤ 2) }
    ensures after { memory.new ≡ memory_told memory.old reply.now }
    ensures stands { memory.new.standing ≡ memory.old.standing }
{
    memory.note(reply);
    let Some(place) = memory.present() else {
        put_refusal(Refusal::NotPlaying, out)?;
        return Ok(ask_round());
    };
    Ok(Next::Ask(at_place(&place, act), Stage::Showing(place.seat)))
}

/// The lobby has told the places: the act is made at the present one, or else at the first game at which the session
/// looks on; without either the session itself answers.
fn remarked(
    act: DeskAct,
    memory: &mut SessionMemory,
    reply: &Reply,
    out: &mut Vec<u8>,
) -> Result<Next, NoMemory>
    requires inside { has_entered memory.old ≡ true }
    requires act { FitsDeskAct act }
    ensures settles { IfOk result (λ next. Settles (remarking act (memory_told memory.old reply.now))
        (course_of next memory.new) out.old.items out.new.items) }
    ensures ready { IfOk result (IsPosed memory.new) }
    ensures fewer { IfOk result (λ next. acts_left next ≤ 2) }
    ensures after { memory.new ≡ memory_told memory.old reply.now }
    ensures stands { memory.new.standing ≡ memory.old.standing }
{
    memory.note(reply);
    let Some(place) = memory.remark_place() else {
        put_refusal(Refusal::NotPlaying, out)?;
        return Ok(ask_round());
    };
    Ok(Next::Ask(at_place(&place, act), Stage::Showing(place.seat)))
}

/// An act was made at a desk: its reply is printed for the player of this seat, and the round comes.
fn shown(
    seat: u8,
    memory: &mut SessionMemory,
    reply: &Reply,
    out: &mut Vec<u8>,
) -> Result<Next, NoMemory>
    requires inside { has_entered memory.old ≡ true }
    requires fits { IsReply reply.now }
    ensures settles { IfOk result (λ next. Settles (shown (Some seat) reply.now memory.old)
        (course_of next memory.new) out.old.items out.new.items) }
    ensures ready { IfOk result (IsPosed memory.new) }
    ensures fewer { IfOk result (λ next. acts_left next ≤ 1) }
    ensures after { memory.new ≡ memory.old }
    ensures stands { memory.new.standing ≡ memory.old.standing }
{
    put_shown(&memory.reader(Some(seat)), reply, out)?;
    Ok(ask_round())
}

/// The session looks on no longer at the game of this desk: the reply is printed, and the round comes.
fn unwatched(
    desk: DeskNumber,
    memory: &mut SessionMemory,
    reply: &Reply,
    out: &mut Vec<u8>,
) -> Result<Next, NoMemory>
    requires inside { has_entered memory.old ≡ true }
    ensures settles { IfOk result (λ next. Settles (course_behind reply.now (without_observed desk memory.old))
        (course_of next memory.new) out.old.items out.new.items) }
    ensures ready { IfOk result (IsPosed memory.new) }
    ensures fewer { IfOk result (λ next. acts_left next ≤ 1) }
    ensures after { memory.new ≡ without_observed desk memory.old }
    ensures stands { memory.new.standing ≡ memory.old.standing }
{
    memory.unobserve(desk);
    answered(memory, reply, out)
}

/// The lobby has told the places: the desk of the present one is asked first, and without a place the lobby alone.
fn reacting(reaction: Reaction, memory: &mut SessionMemory, reply: &Reply) -> Next
    requires inside { has_entered memory.old ≡ true }
    ensures goes { course_of result memory.new ≡ reacting reaction (memory_told memory.old reply.now) }
    ensures ready { IsPosed memory.new result }
    ensures fewer { acts_left result ≤ 3 }
    ensures after { memory.new ≡ memory_told memory.old reply.now }
    ensures stands { memory.new.standing ≡ memory.old.standing }
{
    memory.note(reply);
    match memory.present() {
        Some(place) => Next::Ask(
            at_place(&place, of_desk(reaction)),
            Stage::Reacted(reaction),
        ),
        None => Next::Ask(in_lobby(reaction), Stage::Answering),
    }
}

/// The desk has answered: where no offer stands there, the lobby is asked; else the reply is printed, and the round
/// comes.
fn reacted(
    reaction: Reaction,
    memory: &mut SessionMemory,
    reply: &Reply,
    out: &mut Vec<u8>,
) -> Result<Next, NoMemory>
    requires inside { has_entered memory.old ≡ true }
    ensures settles { IfOk result (λ next. Settles (reacted reaction reply.now memory.old)
        (course_of next memory.new) out.old.items out.new.items) }
    ensures ready { IfOk result (IsPosed memory.new) }
    ensures fewer { IfOk result (λ next. acts_left next ≤ 2) }
    ensures after { memory.new ≡ memory.old }
    ensures stands { memory.new.standing ≡ memory.old.standing }
{
    if says_no_offer(reply) {
        return Ok(Next::Ask(in_lobby(reaction), Stage::Answering));
    }
    answered(memory, reply, out)
}

/// The act of a command was made: its reply is printed, and the round comes.
pub(crate) fn answered(
    memory: &mut SessionMemory,
    reply: &Reply,
    out: &mut Vec<u8>,
) -> Result<Next, NoMemory>
    requires inside { has_entered memory.old ≡ true }
    ensures settles { IfOk result (λ next. Settles (course_behind reply.now memory.old)
        (course_of next memory.new) out.old.items out.new.items) }
    ensures ready { IfOk result (IsPosed memory.new) }
    ensures fewer { IfOk result (λ next. acts_left next ≤ 1) }
    ensures after { memory.new ≡ memory.old }
    ensures stands { memory.new.standing ≡ memory.old.standing }
{
    put_reply(reply, out)?;
    Ok(ask_round())
}

/// The lobby has told what waits there, and the places: the games are visited.
fn rounded(memory: &mut SessionMemory, reply: &Reply, out: &mut Vec<u8>) -> Result<Next, NoMemory>
    requires inside { has_entered memory.old ≡ true }
    ensures settles { IfOk result
        (λ next. Settles (Writes (waiting_text reply.now) (rounding (memory_told memory.old reply.now)))
        (course_of next memory.new) out.old.items out.new.items) }
    ensures ready { IfOk result (IsPosed memory.new) }
    ensures fewer { IfOk result (λ next. acts_left next ≤ 0) }
    ensures after { memory.new ≡ memory_told memory.old reply.now }
    ensures stands { memory.new.standing ≡ memory.old.standing }
{
    memory.note(reply);
    put_waiting(reply, out)?;
    Ok(Next::Visits)
}

/// The lobby has told the places: the acknowledgement is made at the present one, if there is any.
fn acking(stamp: u32, memory: &mut SessionMemory, reply: &Reply) -> Next
    requires inside { has_entered memory.old ≡ true }
    requires stamp { IsStamp stamp }
    ensures goes { course_of result memory.new ≡ acking stamp (memory_told memory.old reply.now) }
    ensures ready { IsPosed memory.new result }
    ensures fewer { acts_left result ≤ 1 }
    ensures after { memory.new ≡ memory_told memory.old reply.now }
    ensures stands { memory.new.standing ≡ memory.old.standing }
{
    memory.note(reply);
    match memory.present() {
        Some(place) => Next::Ask(at_place(&place, DeskAct::Acked { stamp }), Stage::Acking),
        None => Next::End,
    }
}

/// The act of the round, which asks the lobby for what is new.
pub(crate) fn ask_round() -> Next
    ensures { result ≡ Next.Ask (Act.Lobby LobbyAct.Fetch) Stage.Rounding }
{
    Next::Ask(Act::Lobby(LobbyAct::Fetch), Stage::Rounding)
}

/// The act that asks for the present place, before this stage.
pub(crate) fn ask_where(stage: Stage) -> Next
    ensures { result ≡ Next.Ask (Act.Lobby LobbyAct.Where) stage }
{
    Next::Ask(Act::Lobby(LobbyAct::Where), stage)
}

/// An act at the game of a place.
pub(crate) fn at_place(place: &Place, act: DeskAct) -> Act
    ensures value { result ≡ at_place place.now act }
    ensures desk { IsDesk place.now.desk }
{
    // the number is what says that there is such a desk
    let _number = place.desk.get();
    Act::Desk {
        desk: place.desk,
        serial: place.serial,
        act,
    }
}
