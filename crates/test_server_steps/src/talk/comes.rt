//! Inputs, and what a session writes for them.

ghost use Rattle.std.specs.Prelude.{IfOk};
ghost use Rattle.session_core.specs.Inputs.{FitsInput};

use clock_ledger::Moment;
use fics_words::{Fail, Line, Refusal};
use line_reader::Incoming;
use one_server::Runner;
use session_core::{Input, Session};
use std::alloc::Global;

/// The most of a client's stamp, and one more.
const STAMP_CYCLE: u32 = 10_000_000;

/// What comes from a player.
#[derive(Clone, Copy)]
pub enum Comes {
    Line(&'static [u8]),
    /// A line with the client's stamp.
    Stamped(&'static [u8], u32),
    /// The client has shown the board at this stamp.
    Ack(u32),
    TooLong,
    BadByte,
    Quiet,
}

/// What a session writes at its seat for what comes at a moment in milliseconds.
pub fn answered<R: Runner>(
    alloc: Global,
    seat: &mut R,
    session: &mut Session,
    moment: u32,
    comes: Comes,
) -> Result<Vec<u8>, Fail> {
    let input = input_of(alloc, comes)?;
    taken(seat, session, moment, input)
}

/// What a session writes at its seat for an input. It ensures nothing, so that nothing above it is proved over what a
/// session does.
pub fn taken<R: Runner>(
    seat: &mut R,
    session: &mut Session,
    moment: u32,
    input: Input,
) -> Result<Vec<u8>, Fail>
    requires { FitsInput input }
{
    let wrote = session.take(seat, Moment::new(u64::from(moment)), input)?;
    Ok(wrote.bytes)
}

/// The input of what comes.
pub fn input_of(alloc: Global, comes: Comes) -> Result<Input, Fail>
    ensures { IfOk result FitsInput }
{
    Ok(match comes {
        Comes::Line(text) => Input::Line(Incoming::Plain(line_of(alloc, text)?)),
        Comes::Stamped(text, stamp) => stamped(line_of(alloc, text)?, stamp)?,
        Comes::Ack(stamp) => acked(stamp)?,
        Comes::TooLong => Input::Line(Incoming::TooLong),
        Comes::BadByte => Input::Line(Incoming::BadByte),
        Comes::Quiet => Input::Quiet,
    })
}

fn stamped(line: Line, stamp: u32) -> Result<Input, Fail>
    ensures { IfOk result FitsInput }
{
    if stamp >= STAMP_CYCLE {
        return Err(Fail::Refused(Refusal::BadArguments));
    }
    Ok(Input::Line(Incoming::Stamped(line, stamp)))
}

fn acked(stamp: u32) -> Result<Input, Fail>
    ensures { IfOk result FitsInput }
{
    if stamp >= STAMP_CYCLE {
        return Err(Fail::Refused(Refusal::BadArguments));
    }
    Ok(Input::Line(Incoming::Ack(stamp)))
}

fn line_of(alloc: Global, text: &[u8]) -> Result<Line, Fail> {
    match Line::read(alloc, text)? {
        Some(line) => Ok(line),
        None => Err(Fail::Refused(Refusal::BadByte)),
    }
}
