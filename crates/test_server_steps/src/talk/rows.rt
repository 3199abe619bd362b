//! Rows of two sessions: what comes to each, and what each has to answer.
ghost use Rattle.session_core.specs.Inputs.{FitsInput};

use crate::server;
use crate::talk::comes::{Comes, answered, taken};
use fics_words::Fail;
use one_server::{OneServer, Runner};
use session_core::{Input, Session};
use std::alloc::Global;
use test_steps::first_wrong;

/// A row: the session, 1 or 2, the moment in milliseconds, what comes, and what the session has to answer.
#[derive(Clone, Copy)]
pub struct Row(pub u32, pub u32, pub Comes, pub &'static [u8]);

/// The place of the first row that two new sessions of a new server answer otherwise, if there is one.
pub fn first_failing(alloc: Global, rows: &[Row]) -> Result<Option<usize>, Fail> {
    let mut server = server(alloc)?;
    let mut one = Session::new(alloc);
    let mut two = Session::new(alloc);
    Ok(first_wrong!(
        rows,
        |row| is_answered(alloc, &mut server, &mut one, &mut two, row)?
    ))
}

/// Whether the session of a row answers at the server as the row says.
fn is_answered(
    alloc: Global,
    server: &mut OneServer,
    one: &mut Session,
    two: &mut Session,
    row: &Row,
) -> Result<bool, Fail> {
    let mut seat = server.seat(row.0);
    if row.0 == 1 {
        answers(alloc, &mut seat, one, row)
    } else {
        answers(alloc, &mut seat, two, row)
    }
}

/// Whether a session answers at its seat what the row says.
pub fn answers<R: Runner>(
    alloc: Global,
    seat: &mut R,
    session: &mut Session,
    row: &Row,
) -> Result<bool, Fail> {
    let bytes = answered(alloc, seat, session, row.1, row.2)?;
    Ok(bytes.as_slice() == row.3)
}

/// What the session of that number answers at the server to an input.
pub fn taken_at(
    server: &mut OneServer,
    number: u32,
    session: &mut Session,
    moment: u32,
    input: Input,
) -> Result<Vec<u8>, Fail>
    requires { FitsInput input }
{
    taken(&mut server.seat(number), session, moment, input)
}
