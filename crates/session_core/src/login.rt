//! How a session comes in.
ghost use Rattle.std.specs.Prelude.{◌≡◌, IfOk, None, Some, false};
ghost use Rattle.fics_words.specs.HandleTest.{handle_of};
ghost use Rattle.session_core.specs.Remembering.{ToldNothing, is_entered};
ghost use Rattle.session_core.specs.Login.{admitted, entered_as, entering_named, is_guest, name_course};
ghost use Rattle.session_core.specs.Login.{proving, turned_away};
ghost use Rattle.session_core.specs.Memory.{has_entered, stands_at};
ghost use Rattle.session_core.specs.Stages.{IsPrepared, Settles, course_of, first_course};

use crate::first::First;
use crate::next::Next;
use crate::session_memory::SessionMemory;
use crate::stage::Stage;
use crate::texts::{put_refusal, put_reply};
use fics_words::{Digest, Handle, Refusal};
use lobby_state::LobbyAct;
use login_handles::digest_of;
use memory::NoMemory;
use one_server::{Act, Reply};
use session_asks::{Standing, admitted};

/// A line where a name is asked for.
pub(crate) fn take_name(
    memory: &mut SessionMemory,
    text: &[u8],
    out: &mut Vec<u8>,
) -> Result<First, NoMemory>
    requires outside { has_entered memory.old ≡ false }
    ensures settles { IfOk result (λ first. Settles (name_course text.now memory.old) (first_course first memory.new)
        out.old.items out.new.items) }
    ensures ready { IfOk result (IsPrepared memory.new) }
    ensures told_nothing { ToldNothing memory.old memory.new }
{
    let [_, ..] = text else {
        return Ok(First::Going(Next::End));
    };
    if is_guest(text) {
        return Ok(First::Going(ask_to_enter(&None, None)));
    }
    take_handle(handle_of(text), memory, out)
}

/// The handle that a line is, where it is one.
fn take_handle(
    name: Option<Handle>,
    memory: &mut SessionMemory,
    out: &mut Vec<u8>,
) -> Result<First, NoMemory>
    requires outside { has_entered memory.old ≡ false }
    ensures settles { IfOk result (λ first. Settles (entering_named name memory.old) (first_course first memory.new)
        out.old.items out.new.items) }
    ensures ready { IfOk result (IsPrepared memory.new) }
    ensures told_nothing { ToldNothing memory.old memory.new }
{
    match name {
        Some(name) => Ok(First::Going(ask_to_enter(&Some(name), None))),
        None => turn_away(Refusal::BadHandle, memory, out),
    }
}

/// The handle of these bytes, if they are one.
#[tactic(auto, using(fics_words::proofs::HandleTests::handle_is))]
fn handle_of(bytes: &[u8]) -> Option<Handle>
    ensures { result ≡ handle_of bytes.now }
{
    Handle::read(bytes)
}

/// A line where the password of a name is asked for.
pub(crate) fn take_password(memory: &SessionMemory, name: Handle, text: &[u8]) -> First
    requires outside { has_entered memory.now ≡ false }
    ensures goes { first_course result memory.now ≡ proving name text.now memory.now }
    ensures ready { IsPrepared memory.now result }
{
    let [_, ..] = text else {
        return First::Going(Next::End);
    };
    First::Going(ask_to_enter(&Some(name), Some(digest_of(text))))
}

/// The act that asks to enter under this name, or as a guest.
fn ask_to_enter(name: &Option<Handle>, digest: Option<Digest>) -> Next
    ensures { result ≡ Next.Ask (Act.Lobby (LobbyAct.Enter name.now digest)) (Stage.Entering name.now) }
{
    let act = Act::Lobby(LobbyAct::Enter {
        name: *name,
        digest,
    });
    Next::Ask(act, Stage::Entering(*name))
}

/// The session refuses a line by itself, and begins anew.
pub(crate) fn turn_away(
    cause: Refusal,
    memory: &mut SessionMemory,
    out: &mut Vec<u8>,
) -> Result<First, NoMemory>
    requires outside { has_entered memory.old ≡ false }
    ensures settles { IfOk result (λ first. Settles (turned_away cause memory.old) (first_course first memory.new)
        out.old.items out.new.items) }
    ensures ready { IfOk result (IsPrepared memory.new) }
    ensures told_nothing { ToldNothing memory.old memory.new }
{
    memory.stand(Standing::Login);
    put_refusal(cause, out)?;
    Ok(First::Going(Next::End))
}

/// The lobby has answered: the session is in, is asked for the password, or begins anew.
pub(crate) fn entered(
    name: Option<Handle>,
    memory: &mut SessionMemory,
    reply: &Reply,
    out: &mut Vec<u8>,
) -> Result<Next, NoMemory>
    ensures settles { IfOk result (λ next. Settles (entered_as name reply.now memory.old)
        (course_of next memory.new) out.old.items out.new.items) }
    ensures end { IfOk result (λ next. next ≡ Next.End) }
    ensures after { memory.new ≡ stands_at (admitted name reply.now) memory.old }
    ensures inside { has_entered memory.new ≡ is_entered reply.now }
{
    memory.stand(admitted(name, reply));
    put_reply(reply, out)?;
    Ok(Next::End)
}

/// Whether the line asks to enter as a guest.
fn is_guest(text: &[u8]) -> bool
    ensures { result ≡ is_guest text.now }
{
    text.eq_ignore_ascii_case(b"guest")
}
