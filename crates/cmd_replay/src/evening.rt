//! An evening: what the lines of a script make of one server.

ghost use Rattle.std.specs.Prelude.{◌≡◌, ◌≢◌, ◌≤◌, ◌<◌, [], IfOk, IfNone, IfSome, OnOk, length, replicate};
ghost use Rattle.clock_ledger.specs.Charges.{last_moment};
ghost use Rattle.session_core.specs.Memory.{newcomer};
ghost use Rattle.cmd_replay.specs.Evening.{AfterLeaving, IsNextLine, IsNoNext, seated_from};

use crate::answering::{answer_event, leave_server};
use crate::seating::{players, seat};
use cmd_lines::LineHandler;
use collections::Listed;
use fics_words::{Handle, Line};
use lobby_state::Lobby;
use memory::NoMemory;
use one_server::OneServer;
use replay_core::{Attendance, ScriptLine, SeatLine, read_script, read_seat};
use session_core::Session;
use std::alloc::Global;
use std::marker::Model;

/// The most sessions that a script may have.
const SESSIONS: u32 = 64;

/// One server, how far a script has come, which is nowhere before its first line, and its sessions. Contracts see the
/// server, the order of the lines, the moment of the last of them, and what the sessions remember.
#[derive(Drop)]
pub struct Evening {
    alloc: Global,
    server: OneServer,
    order: Option<Attendance>,
    moment: u64,
    /// The sessions from 1 on, whether they have connected or not.
    sessions: Listed<Session>,
}

impl Model for Evening {
    ghost use Rattle.clock_ledger.specs.Charges.{last_moment};
    ghost use Rattle.std.specs.Prelude.{◌≡◌, ◌≤◌, length};
    ghost use Rattle.cmd_replay.specs.Evening.{EveningState};

    ghost Value = { EveningState };

    ghost view = { λ evening. record {
      server = evening.server;
      order = evening.order;
      moment = evening.moment;
      memories = evening.sessions;
    } };

    ghost invariant = { λ evening. record {
      moment : evening.moment ≤ last_moment;
      sessions : length evening.sessions ≡ 64;
    } };
}

impl Evening {
    ghost use Rattle.std.specs.Prelude.{◌≡◌, ◌≢◌, ◌<◌, [], None, Some, IfOk, OnOk, length};
    ghost use Rattle.fics_words.specs.Line.{IsLine};
    ghost use Rattle.cmd_lines.specs.Handling.{AfterAnswering, TakesLine};
    ghost use Rattle.replay_core.specs.SeatLine.{IsSeatLine, seat_text};
    ghost use Rattle.replay_core.specs.declared.seat_line.SeatLine.{SeatLine};
    ghost use Rattle.cmd_replay.specs.Evening.{KeepsOrder, Reached};

    /// An evening before its first line.
    #[tactic(auto, using(one_server::proofs::Opens::opening_is))]
    pub fn new(alloc: Global) -> Result<Evening, NoMemory>
        ensures { IfOk result (λ evening. Reached [] evening []) }
    {
        Ok(Evening {
            alloc,
            sessions: new_sessions(alloc)?,
            server: OneServer::new(alloc, Lobby::new(alloc)?)?,
            order: None,
            moment: 0,
        })
    }

    /// Takes the first line: a seat line, whose players it seats, or a session's line; false where it is neither.
    fn take_first(&mut self, line: &Line, out: &mut Vec<u8>) -> Result<bool, NoMemory>
        requires first { self.old.order ≡ None }
        requires some { 0 < length line.now }
        requires line { IsLine line.now }
        ensures { IfOk result
            (λ good. AfterAnswering Reached self.old line.now out.old.items self.new out.new.items good) }
    {
        let Some(seats) = read_seat(self.alloc, line)? else {
            return self.take_event(Attendance::new(0), line, out);
        };
        self.take_seats(&seats)?;
        Ok(true)
    }

    /// Seats the players of the seat line.
    fn take_seats(&mut self, seats: &SeatLine) -> Result<(), NoMemory>
        requires first { self.old.order ≡ None }
        requires spelled { IsSeatLine seats.now }
        requires some { 0 < length (seat_text seats.now) }
        requires short { IsLine (seat_text seats.now) }
        ensures { OnOk result (TakesLine Reached self.old (seat_text seats.now) self.new []) }
    {
        seat(&mut self.server, seats)?;
        let _history = self.server.history();
        self.order = Some(Attendance::new(players(seats.terms.variant)));
        let names = seats.names.as_slice();
        seat_sessions(self.alloc, &mut self.sessions, names);
        Ok(())
    }

    /// Lets a session take its line; false where the line is outside the grammar.
    fn take_event(
        &mut self,
        order: Attendance,
        line: &Line,
        out: &mut Vec<u8>,
    ) -> Result<bool, NoMemory>
        requires order { KeepsOrder order self.old.order }
        requires some { 0 < length line.now }
        requires line { IsLine line.now }
        requires no_seat { self.old.order ≡ None → (seat : SeatLine) → IsSeatLine seat → line.now ≢ seat_text seat }
        ensures { IfOk result
            (λ good. AfterAnswering Reached self.old line.now out.old.items self.new out.new.items good) }
    {
        let Some(next) = read_next(self.alloc, &order, line)? else {
            return Ok(false);
        };
        let place = next.session as usize - 1;
        let quit = answer_event(&mut self.server, &next, self.sessions.item_mut(place), out)?;
        let _history = self.server.history();
        let mut order = order;
        order.note(&next, quit);
        self.order = Some(order);
        self.moment = next.moment;
        Ok(true)
    }
}

impl LineHandler for Evening {
    ghost use Rattle.std.specs.Prelude.{codes};
    ghost use Rattle.cmd_replay.specs.Evening.{IsClosed, Reached};
    ghost use Rattle.cmd_replay.specs.EveningLinesProof.{reached_lines};

    ghost reached = { λ _. Reached };

    ghost closed = { IsClosed };

    ghost ending = { codes "\n" };

    ghost lines = { λ _. reached_lines };

    fn answer_line(&mut self, line: &[u8], out: &mut Vec<u8>) -> Result<bool, NoMemory> {
        let Some(line) = Line::read(self.alloc, line)? else {
            return Ok(false);
        };
        match self.order {
            None => self.take_first(&line, out),
            Some(order) => self.take_event(order, &line, out),
        }
    }

    fn close(&mut self) -> Result<(), NoMemory> {
        let Some(order) = self.order else {
            return Ok(());
        };
        close_sessions(&mut self.server, &mut self.sessions, &order, self.moment)?;
        let _history = self.server.history();
        Ok(())
    }

    fn ending(&self) -> &'static [u8] {
        b"\n"
    }
}

/// Reads the line of a session that may come next; none where the line isn't in the grammar here.
fn read_next(alloc: Global, order: &Attendance, line: &Line) -> Result<Option<ScriptLine>, NoMemory>
    ensures next { IfOk result (λ read. IfSome read (IsNextLine order.now line.now)) }
    ensures none { IfOk result (λ read. IfNone read (IsNoNext order.now line.now)) }
{
    let Some(next) = read_script(alloc, line)? else {
        return Ok(None);
    };
    if !order.may_come(&next) {
        return Ok(None);
    }
    Ok(Some(next))
}

/// The sessions from 1 on, all of them new.
fn new_sessions(alloc: Global) -> Result<Listed<Session>, NoMemory>
    ensures { IfOk result (λ sessions. sessions ≡ replicate 64 newcomer) }
{
    let mut sessions = Listed::new(alloc);
    for _place in 0..SESSIONS {
        sessions.push(Session::new(alloc))?;
    }
    Ok(sessions)
}

/// Makes those sessions leave that are here, in the order of their numbers.
fn close_sessions(
    server: &mut OneServer,
    sessions: &mut Listed<Session>,
    order: &Attendance,
    moment: u64,
) -> Result<(), NoMemory>
    requires moment { moment ≤ last_moment }
    requires sessions { length sessions.old ≡ 64 }
    ensures left { OnOk result (AfterLeaving order.now sessions.old moment 64 server.old server.new) }
    ensures count { length sessions.new ≡ 64 }
{
    for place in 0..SESSIONS {
        let session = place + 1;
        if order.is_here(session) {
            leave_server(server, session, moment, sessions.item_mut(place as usize))?;
        }
    }
    Ok(())
}

/// Seats the first sessions under these names, one after another.
fn seat_sessions(alloc: Global, sessions: &mut Listed<Session>, names: &[Handle])
    requires { length names.now ≤ length sessions.old }
    ensures { sessions.new ≡ seated_from 0 names.now sessions.old }
{
    for (place, name) in names.iter().enumerate() {
        *sessions.item_mut(place) = Session::seated(alloc, *name);
    }
}
