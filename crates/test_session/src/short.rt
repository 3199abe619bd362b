//! A session at a server that is short of memory.

use clock_ledger::Moment;
use memory::NoMemory;
use one_server::{Act, OneServer, Reply, Runner};
use std::alloc::Global;

/// A session's seat at which one act runs out of memory.
#[derive(Drop)]
pub struct ShortSeat<'a> {
    server: &'a mut OneServer,
    session: u32,
    /// How many acts come before the one that runs out of memory.
    before: u32,
}

impl<'a> ShortSeat<'a> {
    /// A seat at which the act behind `before` others runs out of memory.
    pub fn new(server: &'a mut OneServer, session: u32, before: u32) -> ShortSeat<'a> {
        ShortSeat {
            server,
            session,
            before,
        }
    }
}

impl Runner for ShortSeat<'_> {
    ghost use Rattle.std.specs.Borrow.{GName};
    ghost use Rattle.one_server.specs.Server.{seat_state};

    ghost Home = { GName };

    ghost home = { λ s. s.server.ghost_name };

    ghost state = { λ s. seat_state s.session s.server.now };

    fn session(&self) -> u32 {
        let _history = self.server.history();
        self.session
    }

    fn run(
        &mut self,
        _alloc: Global,
        moment: Moment,
        act: Act,
        reply: &mut Reply,
    ) -> Result<(), NoMemory> {
        let before = self.before;
        self.before = before.wrapping_sub(1);
        if before == 0 {
            let _history = self.server.history();
            return Err(NoMemory);
        }
        match self.server.run(self.session, moment.millis(), act) {
            Ok(made) => {
                *reply = made;
                Ok(())
            }
            Err(NoMemory) => Err(NoMemory),
        }
    }
}
