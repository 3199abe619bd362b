//! What an event of a script does: its session's part, at the one server.

ghost use Rattle.std.specs.Prelude.{◌≡◌, ◌≤◌, IfOk, OnOk, false};
ghost use Rattle.clock_ledger.specs.Charges.{last_moment};
ghost use Rattle.replay_core.specs.Script.{IsScriptLine};
ghost use Rattle.session_core.specs.Inputs.{FitsInput};
ghost use Rattle.session_core.specs.Memory.{is_gone};
ghost use Rattle.cmd_replay.specs.Evening.{EventAnswered, HasDone, HasGone, HasTaken, quit_of};

use crate::tagged::put_tagged;
use clock_ledger::Moment;
use line_reader::Incoming;
use memory::NoMemory;
use one_server::OneServer;
use replay_core::{ScriptEvent, ScriptLine};
use session_core::{Input, Session, Wrote};
use std::alloc::Global;

/// Lets a session do what the event of its line asks for, and appends what it is written under the session's number;
/// whether it was a `quit` that was answered.
pub(crate) fn answer_event(
    server: &mut OneServer,
    line: &ScriptLine,
    session: &mut Session,
    out: &mut Vec<u8>,
) -> Result<bool, NoMemory>
    requires { IsScriptLine line.now }
    ensures done { IfOk result (λ quit. HasDone line.now.event line.now.session line.now.moment server.old session.old
        out.old.items server.new session.new out.new.items) }
    ensures quit { IfOk result (λ quit. quit ≡ quit_of line.now.event session.new) }
{
    let alloc = *out.allocator();
    let wrote = do_event(alloc, server, line, session)?;
    put_tagged(line.session, wrote.bytes.as_slice(), out)?;
    Ok(wrote.quit)
}

/// Lets a session do what the event asks for: connect, leave, or take what comes from its player.
pub fn do_event(
    alloc: Global,
    server: &mut OneServer,
    line: &ScriptLine,
    session: &mut Session,
) -> Result<Wrote, NoMemory>
    requires { IsScriptLine line.now }
    ensures done { IfOk result (λ wrote. EventAnswered line.now.event line.now.session line.now.moment
        server.old session.old server.new session.new wrote.bytes.items) }
    ensures quit { IfOk result (λ wrote. wrote.quit ≡ quit_of line.now.event session.new) }
{
    let number = line.session;
    let moment = line.moment;
    match &line.event {
        ScriptEvent::Connect => Ok(unasked(session.open()?)),
        ScriptEvent::Cut => {
            leave_server(server, number, moment, session)?;
            Ok(unasked(Vec::new(alloc)))
        }
        ScriptEvent::Quiet => take_input(server, number, moment, session, Input::Quiet),
        ScriptEvent::Plain(text) => {
            let input = Input::Line(Incoming::Plain(text.duplicate()?));
            take_input(server, number, moment, session, input)
        }
        ScriptEvent::Stamped(stamp, text) => {
            let input = Input::Line(Incoming::Stamped(text.duplicate()?, *stamp));
            take_input(server, number, moment, session, input)
        }
        ScriptEvent::Ack(stamp) => {
            let input = Input::Line(Incoming::Ack(*stamp));
            take_input(server, number, moment, session, input)
        }
    }
}

/// What is written for an event that isn't answered as a line.
fn unasked(bytes: Vec<u8>) -> Wrote
    ensures bytes { result.bytes.items ≡ bytes.items }
    ensures quit { result.quit ≡ false }
{
    Wrote { bytes, quit: false }
}

/// Lets a session take what comes from its player.
fn take_input(
    server: &mut OneServer,
    number: u32,
    moment: u64,
    session: &mut Session,
    input: Input,
) -> Result<Wrote, NoMemory>
    requires moment { moment ≤ last_moment }
    requires fits { FitsInput input }
    ensures taken { IfOk result (λ wrote. HasTaken input number moment server.old session.old server.new session.new
        wrote.bytes.items) }
    ensures quit { IfOk result (λ wrote. wrote.quit ≡ is_gone session.new) }
{
    session.take(&mut server.seat(number), Moment::new(moment), input)
}

/// Makes a session leave.
pub(crate) fn leave_server(
    server: &mut OneServer,
    number: u32,
    moment: u64,
    session: &mut Session,
) -> Result<(), NoMemory>
    requires { moment ≤ last_moment }
    ensures { OnOk result (HasGone session.old number moment server.old server.new session.new) }
{
    session.leave(&mut server.seat(number), Moment::new(moment))
}
