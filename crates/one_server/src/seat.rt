//! A session at the server of one thread.
ghost use Rattle.std.specs.Prelude.{◌≡◌};

use crate::act::Act;
use crate::reply::Reply;
use crate::runner::Runner;
use crate::server::OneServer;
use clock_ledger::Moment;
use memory::NoMemory;
use std::alloc::Global;

/// A session that makes its acts on a server that it was lent. It has seen the server's whole history.
#[derive(Drop)]
pub struct OneSeat<'a> {
    server: &'a mut OneServer,
    session: u32,
}

impl OneServer {
    /// A seat for a session, which borrows the server.
    pub fn seat(&mut self, session: u32) -> OneSeat<'_>
        ensures server { result.server.ghost_name ≡ self.entry.ghost_name }
        ensures value { result.server.now ≡ self.old }
        ensures session { result.session ≡ session }
    {
        OneSeat {
            server: self,
            session,
        }
    }
}

impl Runner for OneSeat<'_> {
    ghost use Rattle.std.specs.Borrow.{GName};
    ghost use Rattle.one_server.specs.Server.{seat_state};

    ghost Home = { GName };

    ghost home = { λ s. s.server.ghost_name };

    ghost state = { λ s. seat_state s.session s.server.now };

    fn session(&self) -> u32 {
        let _history = self.server.history();
        self.session
    }

    fn run(
        &mut self,
        _alloc: Global,
        moment: Moment,
        act: Act,
        reply: &mut Reply,
    ) -> Result<(), NoMemory> {
        match self.server.run(self.session, moment.millis(), act) {
            Ok(made) => {
                *reply = made;
                Ok(())
            }
            Err(NoMemory) => Err(NoMemory),
        }
    }
}
