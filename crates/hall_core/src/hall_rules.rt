//! The server of one lobby and 128 desks makes its acts on the parts that it is lent. No act is known here by its name.

use crate::boxed_part::BoxedPart;
use histories::Served;
use memory::NoMemory;
use one_server::{self, Reply, Timed};
use std::alloc::Global;
use turn_chain::Steps;

/// The rules of the hall: those of the server of one thread, over parts as the hall keeps them.
pub struct HallRules;

impl Served for HallRules {
    ghost use Rattle.one_server.specs.House.{house};
    ghost use Rattle.one_server.specs.LawfulProof.{house_lawful};

    type Part = BoxedPart;

    type Act = Timed;

    type Reply = Reply;

    ghost core = { house };

    ghost lawful = { house_lawful };
}

impl Steps for HallRules {
    ghost use Rattle.one_server.specs.Acts.{NeedsNoMemory};

    ghost sure = { λ timed. NeedsNoMemory timed.act };

    fn first_part(act: &Timed) -> u8 {
        one_server::first_part(&act.act)
    }

    fn second_part(one: &BoxedPart, session: u32, act: &Timed) -> Option<u8> {
        one_server::second_part(&*one.part, session, &act.act)
    }

    fn alone(
        _alloc: Global,
        one: &mut BoxedPart,
        session: u32,
        act: &Timed,
        reply: &mut Reply,
    ) -> Result<(), NoMemory> {
        one_server::alone(&mut *one.part, session, act, reply)
    }

    fn together(
        alloc: Global,
        one: &mut BoxedPart,
        two: &mut BoxedPart,
        session: u32,
        act: &Timed,
        reply: &mut Reply,
    ) -> Result<(), NoMemory> {
        one_server::together(alloc, &mut *one.part, &mut *two.part, session, act, reply)
    }
}
