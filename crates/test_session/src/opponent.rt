//! A seat beside which the opponent says lines of a script.

ghost use Rattle.session_core.specs.Inputs.{FitsInput};
ghost use Rattle.test_session.specs.Beside.{Beside};

use clock_ledger::Moment;
use memory::NoMemory;
use one_server::{Act, OneServer, Reply, Runner};
use session_core::{Input, Session, Wrote};
use std::alloc::Global;
use test_server_steps::talk::{Comes, input_of};

/// The session of the player.
const PLAYER: u32 = 1;

/// The session of the opponent.
const OPPONENT: u32 = 2;

/// A line of the opponent, and its moment in milliseconds.
#[derive(Clone, Copy)]
pub struct Spoken(pub u32, pub &'static [u8]);

/// The opponent: its session, what it says, and how many lines it has said.
#[derive(Drop)]
struct Opponent {
    session: Session,
    lines: &'static [Spoken],
    said: usize,
}

impl Opponent {
    /// Says the next line at the server, where its moment is before this one.
    fn speak_before(
        &mut self,
        alloc: Global,
        server: &mut OneServer,
        moment: u64,
    ) -> Result<(), NoMemory>
        ensures { Beside server.old server.new }
    {
        // What is known of every server is known from here on.
        let _history = server.history();
        let Some(line) = next_before(self.lines, &mut self.said, moment) else {
            return Ok(());
        };
        let Ok(input) = input_of(alloc, Comes::Line(line.1)) else {
            return Err(NoMemory);
        };
        let _wrote = take(server, &mut self.session, line.0, input)?;
        Ok(())
    }
}

/// The next line, if it comes before this moment; it is said then.
fn next_before(lines: &[Spoken], said: &mut usize, moment: u64) -> Option<Spoken> {
    let line = *lines.get(*said)?;
    if u64::from(line.0) >= moment {
        return None;
    }
    *said = said.wrapping_add(1);
    Some(line)
}

/// The opponent's session takes an input.
fn take(
    server: &mut OneServer,
    session: &mut Session,
    moment: u32,
    input: Input,
) -> Result<Wrote, NoMemory>
    requires { FitsInput input }
    ensures { Beside server.old server.new }
{
    session.take(
        &mut server.seat(OPPONENT),
        Moment::new(u64::from(moment)),
        input,
    )
}

/// The seat of session 1, at whose server session 2 says its lines: before each act the next one, if its moment comes
/// before that of the act.
#[derive(Drop)]
pub struct OpposedSeat<'a> {
    server: &'a mut OneServer,
    opponent: Opponent,
}

impl<'a> OpposedSeat<'a> {
    /// A seat beside an opponent who hasn't entered.
    pub fn new(
        alloc: Global,
        server: &'a mut OneServer,
        lines: &'static [Spoken],
    ) -> OpposedSeat<'a> {
        OpposedSeat {
            server,
            opponent: Opponent {
                session: Session::new(alloc),
                lines,
                said: 0,
            },
        }
    }
}

impl Runner for OpposedSeat<'_> {
    ghost use Rattle.std.specs.Borrow.{GName};
    ghost use Rattle.test_session.specs.Beside.{opposed};

    ghost Home = { GName };

    ghost home = { λ s. s.server.ghost_name };

    ghost state = { λ s. opposed s.server.now };

    fn session(&self) -> u32 {
        let _history = self.server.history();
        PLAYER
    }

    fn run(
        &mut self,
        alloc: Global,
        moment: Moment,
        act: Act,
        reply: &mut Reply,
    ) -> Result<(), NoMemory> {
        match self.answered(alloc, moment, act) {
            Ok(made) => {
                *reply = made;
                Ok(())
            }
            Err(NoMemory) => Err(NoMemory),
        }
    }
}

impl OpposedSeat<'_> {
    ghost use Rattle.std.specs.Prelude.{◌≡◌};
    ghost use Rattle.one_server.specs.Acts.{FitsAct};
    ghost use Rattle.one_server.specs.Running.{Runs};
    ghost use Rattle.test_session.specs.Beside.{opposed};

    /// Makes an act behind those that the opponent has made by then, and gives its reply.
    fn answered(&mut self, alloc: Global, moment: Moment, act: Act) -> Result<Reply, NoMemory>
        requires { FitsAct act }
        ensures home { self.new.server.ghost_name ≡ self.old.server.ghost_name }
        ensures ran { Runs (opposed self.old.server.now) (record { moment = moment; act = act }) result
            (opposed self.new.server.now) }
    {
        self.opponent
            .speak_before(alloc, &mut *self.server, moment.millis())?;
        self.server.run(PLAYER, moment.millis(), act)
    }
}
