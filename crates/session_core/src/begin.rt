//! How a session begins to answer an input, up to its first act.
ghost use Rattle.std.specs.Prelude.{◌≡◌, IfOk, None, true};
ghost use Rattle.session_core.specs.Inputs.{FitsInput, HasStamp, ack_course, asked_course, input_course, is_greeting};
ghost use Rattle.session_core.specs.Inputs.{line_course, quiet_course, refusing, stamp_on, text_course};
ghost use Rattle.session_core.specs.Memory.{has_entered};
ghost use Rattle.session_core.specs.Remembering.{ToldNothing};
ghost use Rattle.session_core.specs.Stages.{FitsStamp, IsPrepared, Settles, first_course};
ghost use Rattle.clock_ledger.specs.Span.{IsStamp};
ghost use Rattle.command_words.specs.Commands.{command_in};

use crate::command::begin_command;
use crate::first::First;
use crate::input::Input;
use crate::login::{take_name, take_password, turn_away};
use crate::next::Next;
use crate::session_memory::SessionMemory;
use crate::stage::{Stage, ask_round, ask_where};
use crate::texts::put_refusal;
use crate::way::way_of;
use command_words::read_command;
use fics_words::{Fail, Line, Refusal};
use line_reader::Incoming;
use memory::NoMemory;
use session_asks::{LinkMark, Standing};
use std::alloc::Global;

/// How the first line of a client begins that stamps its lines.
const GREETING: &[u8] = b"TIMESTAMP|";

/// Begins to answer an input: writes what stands before its first act.
pub(crate) fn begin(
    alloc: Global,
    memory: &mut SessionMemory,
    input: Input,
    out: &mut Vec<u8>,
) -> Result<First, NoMemory>
    requires { FitsInput input }
    ensures settles { IfOk result (λ first. Settles (input_course input memory.old) (first_course first memory.new)
        out.old.items out.new.items) }
    ensures ready { IfOk result (IsPrepared memory.new) }
    ensures told_nothing { ToldNothing memory.old memory.new }
{
    match input {
        Input::Quiet => Ok(begin_quiet(memory)),
        Input::Line(line) => begin_line(alloc, memory, line, out),
    }
}

/// A Quiet makes the round, once the session has entered.
fn begin_quiet(memory: &SessionMemory) -> First
    ensures goes { first_course result memory.now ≡ quiet_course memory.now.standing memory.now }
    ensures ready { IsPrepared memory.now result }
{
    match memory.standing() {
        Standing::In(_) => First::Going(ask_round()),
        _ => First::Going(Next::End),
    }
}

/// A line: the first one may be the greeting, which marks the link.
fn begin_line(
    alloc: Global,
    memory: &mut SessionMemory,
    line: Incoming,
    out: &mut Vec<u8>,
) -> Result<First, NoMemory>
    requires { HasStamp line }
    ensures settles { IfOk result (λ first. Settles (input_course (Input.Line line) memory.old)
        (first_course first memory.new) out.old.items out.new.items) }
    ensures ready { IfOk result (IsPrepared memory.new) }
    ensures told_nothing { ToldNothing memory.old memory.new }
{
    if is_greeting(memory.link(), &line) {
        memory.mark(LinkMark::Stamped);
        return Ok(First::Going(Next::End));
    }
    memory.pass_first();
    answer_line(alloc, memory, line, out)
}

/// A line that is no greeting.
fn answer_line(
    alloc: Global,
    memory: &mut SessionMemory,
    line: Incoming,
    out: &mut Vec<u8>,
) -> Result<First, NoMemory>
    requires { HasStamp line }
    ensures settles { IfOk result (λ first. Settles (line_course line memory.old) (first_course first memory.new)
        out.old.items out.new.items) }
    ensures ready { IfOk result (IsPrepared memory.new) }
    ensures told_nothing { ToldNothing memory.old memory.new }
{
    match line {
        Incoming::Plain(text) => answer_text(alloc, memory, &text, None, out),
        Incoming::Stamped(text, stamp) => {
            let stamp = stamp_on(memory.link(), stamp);
            answer_text(alloc, memory, &text, stamp, out)
        }
        Incoming::Ack(stamp) => Ok(begin_ack(memory, stamp)),
        Incoming::TooLong => refuse(Refusal::TooLong, memory, out),
        Incoming::BadByte => refuse(Refusal::BadByte, memory, out),
    }
}

/// A text, by where the session stands.
fn answer_text(
    alloc: Global,
    memory: &mut SessionMemory,
    text: &Line,
    stamp: Option<u32>,
    out: &mut Vec<u8>,
) -> Result<First, NoMemory>
    requires { FitsStamp stamp }
    ensures settles { IfOk result (λ first. Settles (text_course text.now stamp memory.old.standing memory.old)
        (first_course first memory.new) out.old.items out.new.items) }
    ensures ready { IfOk result (IsPrepared memory.new) }
    ensures told_nothing { ToldNothing memory.old memory.new }
{
    match memory.standing() {
        Standing::Login => take_name(memory, text.bytes(), out),
        Standing::Password(name) => Ok(take_password(memory, name, text.bytes())),
        Standing::In(_) => read_text(alloc, memory, text, stamp, out),
        Standing::Gone => Ok(First::Going(Next::End)),
    }
}

/// A text once the session has entered: a command, or the cause why it is none and the round.
fn read_text(
    alloc: Global,
    memory: &mut SessionMemory,
    text: &Line,
    stamp: Option<u32>,
    out: &mut Vec<u8>,
) -> Result<First, NoMemory>
    requires stamp { FitsStamp stamp }
    requires inside { has_entered memory.old ≡ true }
    ensures settles { IfOk result (λ first. Settles
        (asked_course (command_in memory.old.aliases text.now) stamp memory.old)
        (first_course first memory.new) out.old.items out.new.items) }
    ensures ready { IfOk result (IsPrepared memory.new) }
    ensures told_nothing { ToldNothing memory.old memory.new }
{
    match read_command(alloc, text, memory.aliases()) {
        Ok(command) => begin_command(memory, way_of(command), stamp, out),
        Err(Fail::Refused(cause)) => {
            put_refusal(cause, out)?;
            Ok(First::Going(ask_round()))
        }
        Err(Fail::Memory) => Err(NoMemory),
    }
}

/// An acknowledgement counts once the session has entered.
fn begin_ack(memory: &SessionMemory, stamp: u32) -> First
    requires { IsStamp stamp }
    ensures goes { first_course result memory.now ≡ ack_course stamp memory.now.standing memory.now }
    ensures ready { IsPrepared memory.now result }
{
    match memory.standing() {
        Standing::In(_) => First::Going(ask_where(Stage::AwaitingPlace(stamp))),
        _ => First::Going(Next::End),
    }
}

/// Refuses a line by the session itself.
fn refuse(cause: Refusal, memory: &mut SessionMemory, out: &mut Vec<u8>) -> Result<First, NoMemory>
    ensures settles { IfOk result (λ first. Settles (refusing cause memory.old.standing memory.old)
        (first_course first memory.new) out.old.items out.new.items) }
    ensures ready { IfOk result (IsPrepared memory.new) }
    ensures told_nothing { ToldNothing memory.old memory.new }
{
    match memory.standing() {
        Standing::In(_) => {
            put_refusal(cause, out)?;
            Ok(First::Going(ask_round()))
        }
        Standing::Gone => Ok(First::Going(Next::End)),
        _ => turn_away(cause, memory, out),
    }
}

/// The stamp that a move carries.
fn stamp_on(link: LinkMark, stamp: u32) -> Option<u32>
    ensures { result ≡ stamp_on link stamp }
{
    match link {
        LinkMark::Stamped => Some(stamp),
        _ => None,
    }
}

/// Whether a line is the greeting of a client that stamps its lines.
pub(crate) fn is_greeting(link: LinkMark, line: &Incoming) -> bool
    ensures { result ≡ is_greeting link line.now }
{
    let LinkMark::Fresh = link else {
        return false;
    };
    match line {
        Incoming::Stamped(text, _) => text.bytes().starts_with(GREETING),
        _ => false,
    }
}
