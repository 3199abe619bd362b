//! A session at a hall.

ghost use Rattle.std.specs.Prelude.{◌≡◌, [], IfOk, IsOk, OnErr};
ghost use Rattle.one_server.specs.Acts.{IsEvent, NeedsNoMemory};
ghost use Rattle.one_server.specs.Running.{Made};
ghost use Rattle.hall_core.specs.Acts.{ActCameTo, OnlyRan};
ghost use Rattle.hall_core.specs.Passes.{runs_of};

use crate::hall::Hall;
use crate::pass::HallPass;
use crate::ran::Ran;
use clock_ledger::Moment;
use memory::NoMemory;
use one_server::{Act, Reply, Runner};
use std::alloc::Global;
use std::marker::Model;
use std::sync::Wait;
use turn_chain::Gate;

/// A session that makes its acts at a hall, with a pass of that hall. Contracts see it as its pass.
#[derive(Drop)]
pub struct HallSeat<'a, G: Gate, R: Wait> {
    hall: &'a Hall,
    pass: HallPass,
    gate: &'a G,
    rt: &'a R,
}

impl<'a, G: Gate, R: Wait> Model for HallSeat<'a, G, R> {
    ghost use Rattle.std.specs.Prelude.{◌≡◌};
    ghost use Rattle.hall_core.specs.Passes.{PassState};

    ghost Value = { PassState };

    ghost view = { λ s. s.pass };

    ghost invariant = { λ s. s.pass.home ≡ s.hall.now };
}

impl Hall {
    /// A seat at this hall for the session of a pass. Its acts wait for their turns, and the gate is told of each part.
    pub fn seat<'a, G: Gate, R: Wait>(
        &'a self,
        pass: HallPass,
        gate: &'a G,
        rt: &'a R,
    ) -> HallSeat<'a, G, R>
        requires { pass.home ≡ self.now }
        ensures { result ≡ pass }
    {
        HallSeat {
            hall: self,
            pass,
            gate,
            rt,
        }
    }
}

impl<G: Gate, R: Wait> HallSeat<'_, G, R> {
    /// Makes an act of the session at `moment`, in milliseconds, and waits for nobody, as `Hall::try_run` does. The
    /// gate isn't told.
    pub fn try_run(&mut self, alloc: Global, moment: u64, act: Act) -> Result<Ran, NoMemory>
        requires { IsEvent (record { moment = moment; act = act }) }
        ensures only { OnlyRan self.old self.new }
        ensures ok { IfOk result (λ ran. ActCameTo self.old (record { moment = moment; act = act }) ran self.new) }
        ensures err { OnErr result (Made (runs_of self.old) [] (runs_of self.new)) }
        ensures sure { NeedsNoMemory act → IsOk result }
    {
        self.hall.try_run(alloc, &mut self.pass, moment, act)
    }

    /// The pass of the seat, which can be joined.
    pub fn into_pass(self) -> HallPass
        ensures { result ≡ self.entry }
    {
        let HallSeat { pass, .. } = self;
        pass
    }
}

impl<G: Gate, R: Wait> Runner for HallSeat<'_, G, R> {
    ghost use Rattle.hall_core.specs.Passes.{Fixed, fixed_of};

    ghost Home = { Fixed };

    ghost home = { λ s. fixed_of s };

    ghost state = { λ s. runs_of s };

    fn session(&self) -> u32 {
        self.pass.session()
    }

    fn run(
        &mut self,
        alloc: Global,
        moment: Moment,
        act: Act,
        reply: &mut Reply,
    ) -> Result<(), NoMemory> {
        self.hall.run(
            self.rt,
            alloc,
            &mut self.pass,
            self.gate,
            moment.millis(),
            act,
            reply,
        )
    }
}
