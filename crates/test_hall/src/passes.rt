//! Sessions at a hall whose passes can all be joined again, also those that lay in a cell meanwhile.

ghost use Rattle.std.specs.Prelude.{◌≡◌, ◌<◌, ◌-◌, ◌^◌, ◌++◌, ◌∷◌, [], IfSome};
ghost use Rattle.std.specs.Prelude.{map};
ghost use Rattle.hall_core.specs.Passes.{pass_divided};
ghost use Rattle.one_server.specs.Acts.{IsEvent};
ghost use Rattle.turn_table.specs.Views.{joined_number};

use hall_core::{Hall, HallPass, Ran};
use memory::NoMemory;
use one_server::{Act, Reply};
use std::alloc::Global;
use std::marker::{Brand, Model, PhantomData};
use std::sync::Wait;
use turn_chain::Gate;

/// Which hall it is. A contract knows nothing of what lies in a cell but what its type says, so the type of a session
/// says it.
pub trait Here {
    ghost use Rattle.atomic_table.specs.Seated.{TableId};

    ghost hall: { TableId };
}

impl Here for Brand {
    ghost use Rattle.std.specs.Prelude.{[]};

    ghost hall = { record {
      words = 0;
      slots = 0;
      views_name = 0;
      atom = 0;
      block = 0;
      offset = 0;
      slot_names = [];
    } };
}

/// A session at the hall.
#[derive(Drop)]
pub struct Guest<'a, J: Here> {
    hall: &'a Hall,
    pass: HallPass,
    of: PhantomData<J>,
}

impl<'a, J: Here> Model for Guest<'a, J> {
    ghost use Rattle.std.specs.Prelude.{◌≡◌, []};
    ghost use Rattle.hall_core.specs.Passes.{PassState};

    ghost Value = { PassState };

    ghost view = { λ g. g.pass };

    ghost invariant = { λ g. (g.hall.now ≡ J.hall) × (g.pass.home ≡ J.hall) × (g.pass.joined ≡ []) };
}

impl<'a, J: Here> Guest<'a, J> {
    /// Another session, whose pass is split from the first one.
    pub fn split_from(hall: &'a Hall, first: &mut HallPass) -> Guest<'a, J>
        requires hall { hall.now ≡ J.hall }
        requires here { first.old.home ≡ J.hall }
        requires first { first.old.number ≡ 0 }
        requires room { first.old.splits < 2 ^ 32 - 1 }
        ensures { first.new ≡ pass_divided first.old }
    {
        Guest {
            hall,
            pass: hall.split(first),
            of: PhantomData,
        }
    }

    /// Makes an act of the session, and waits for its parts.
    pub fn run<G: Gate, R: Wait>(
        &mut self,
        rt: &R,
        alloc: Global,
        gate: &G,
        moment: u64,
        act: Act,
    ) -> Result<Reply, NoMemory>
        requires { IsEvent (record { moment = moment; act = act }) }
    {
        let mut reply = Reply::blank();
        self.hall
            .run(rt, alloc, &mut self.pass, gate, moment, act, &mut reply)?;
        Ok(reply)
    }

    /// Makes an act of the session, and waits for nobody.
    pub fn try_run(&mut self, alloc: Global, moment: u64, act: Act) -> Result<Ran, NoMemory>
        requires { IsEvent (record { moment = moment; act = act }) }
    {
        self.hall.try_run(alloc, &mut self.pass, moment, act)
    }

    /// Joins the session of this number into the first pass. It joins nothing, and answers None, where the session has
    /// another number.
    pub fn join_into(self, hall: &Hall, first: HallPass, number: u32) -> Option<HallPass>
        requires hall { hall.now ≡ J.hall }
        requires here { first.home ≡ J.hall }
        requires not_first { 0 < number }
        ensures same { IfSome result (λ after. after ≡ record first { joined = after.joined; seen = after.seen }) }
        ensures joined { IfSome result
            (λ after. map joined_number after.joined ≡ map joined_number first.joined ++ number ∷ []) }
    {
        let Guest { pass, .. } = self;
        if pass.session() != number {
            return None;
        }
        let mut first = first;
        hall.join(&mut first, pass);
        Some(first)
    }
}
