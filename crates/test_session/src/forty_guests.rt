//! An evening of forty guests from a seed: each types what is drawn for it, and what its session writes is compared,
//! line by line, with what the plain model of the folder `guests` answers.

ghost use Rattle.std.specs.Prelude.{IfOk};
ghost use Rattle.session_core.specs.Inputs.{FitsInput};

use crate::guests::{Draws, GUESTS, Model, Order, answered, drawn, name_of, typed};
use clock_ledger::Moment;
use fics_words::Line;
use line_reader::Incoming;
use one_server::OneServer;
use session_core::{Input, Session};
use std::alloc::Global;
use std::test::Fail;
use test_server_steps::server;

/// The seed of the evening.
const SEED: u64 = 20_261_128;

/// How many lines the guests type.
const LINES: usize = 2_000;

#[test]
fn an_evening_of_forty_guests(rt: HostRuntime) -> Result<(), Fail> {
    assert_eq!(rt; first_strange_anew(rt.alloc())?, None);
    Ok(())
}

/// The first answer that isn't the one to be expected, in words, if one is.
fn first_strange_anew(alloc: Global) -> Result<Option<String>, Fail> {
    let mut server = server(alloc)?;
    first_strange_at(alloc, &mut server)
}

fn first_strange_at(alloc: Global, server: &mut OneServer) -> Result<Option<String>, Fail> {
    let mut sessions = Vec::new(alloc);
    first_strange(alloc, server, &mut sessions)
}

fn first_strange(
    alloc: Global,
    server: &mut OneServer,
    sessions: &mut Vec<Session>,
) -> Result<Option<String>, Fail> {
    for guest in 0..GUESTS {
        sessions.push(Session::new(alloc))?;
        if let Some(strange) = strange_entry(alloc, server, sessions, guest)? {
            return Ok(Some(strange));
        }
    }
    let mut model = Model::new(alloc)?;
    first_strange_line(server, sessions, &mut model)
}

/// The answer to a guest who enters, if it isn't the one to be expected.
fn strange_entry(
    alloc: Global,
    server: &mut OneServer,
    sessions: &mut [Session],
    guest: usize,
) -> Result<Option<String>, Fail> {
    let wrote = takes(alloc, server, sessions, guest, "guest")?;
    let expected = greeting(alloc, guest)?;
    differing(alloc, "guest", &wrote, &expected)
}

fn greeting(alloc: Global, guest: usize) -> Result<String, Fail> {
    let name = name_of(alloc, guest)?;
    Ok(format!(in alloc; "Entered as {name}.\n\rfics% ")?)
}

/// The guests type their lines, and each answer is compared.
fn first_strange_line(
    server: &mut OneServer,
    sessions: &mut [Session],
    model: &mut Model,
) -> Result<Option<String>, Fail> {
    let mut draws = Draws::new(SEED);
    for _line in 0..LINES {
        let guest = draws.below(40) as usize;
        let order = drawn(&mut draws);
        if let Some(strange) = strange_answer(server, sessions, model, guest, order)? {
            return Ok(Some(strange));
        }
    }
    Ok(None)
}

/// The answer to a guest who types this, if it isn't the model's.
fn strange_answer(
    server: &mut OneServer,
    sessions: &mut [Session],
    model: &mut Model,
    guest: usize,
    order: Order,
) -> Result<Option<String>, Fail> {
    let line = typed(model.alloc, order)?;
    let wrote = takes(model.alloc, server, sessions, guest, line.as_str())?;
    let expected = expected(model, guest, order)?;
    differing(model.alloc, line.as_str(), &wrote, &expected)
}

/// What was written for a line, in words, where something else was to be expected.
fn differing(
    alloc: Global,
    line: &str,
    wrote: &[u8],
    expected: &str,
) -> Result<Option<String>, Fail> {
    if wrote == expected.as_bytes() {
        return Ok(None);
    }
    let wrote = str::from_utf8(wrote)?;
    Ok(Some(format!(in alloc; "{line}: {wrote} in place of {expected}")?))
}

/// The model's answer.
fn expected(model: &mut Model, guest: usize, order: Order) -> Result<String, Fail> {
    let lines = answered(model, guest, order)?;
    whole(model, guest, &lines)
}

/// The whole answer: its lines, those that waited, and the prompt.
fn whole(model: &mut Model, guest: usize, lines: &[String]) -> Result<String, Fail> {
    let mut text = String::new(model.alloc);
    put(&mut text, lines)?;
    let waited = model.take_waiting(guest);
    put(&mut text, &waited)?;
    text.push_str("fics% ")?;
    Ok(text)
}

fn put(text: &mut String, lines: &[String]) -> Result<(), Fail> {
    for line in lines {
        text.push_str(line.as_str())?;
        text.push_str("\n\r")?;
    }
    Ok(())
}

/// What the guest's session writes for a line.
fn takes(
    alloc: Global,
    server: &mut OneServer,
    sessions: &mut [Session],
    guest: usize,
    line: &str,
) -> Result<Vec<u8>, Fail> {
    let number = if guest < GUESTS { guest as u32 + 1 } else { 0 };
    let session = sessions.get_mut(guest).ok_or("a guest")?;
    writes(server, number, session, input_of(alloc, line)?)
}

fn writes(
    server: &mut OneServer,
    number: u32,
    session: &mut Session,
    input: Input,
) -> Result<Vec<u8>, Fail>
    requires { FitsInput input }
{
    let wrote = session.take(&mut server.seat(number), Moment::new(0), input)?;
    Ok(wrote.bytes)
}

fn input_of(alloc: Global, line: &str) -> Result<Input, Fail>
    ensures { IfOk result FitsInput }
{
    let line = Line::read(alloc, line.as_bytes())?.ok_or("a line")?;
    Ok(Input::Line(Incoming::Plain(line)))
}
