//! A server of parts that can make its acts.

use histories::Served;
use memory::NoMemory;
use std::alloc::Global;

/// A server of parts that can make each act on the parts that it is lent: on one part, or on two.
pub trait Steps: Served {
    ghost use Rattle.std.specs.Prelude.{◌≡◌, None, Some, IsOk, OnOk, OnErr};
    ghost use Rattle.turn_chain.specs.Lent.{IsFirst, AreBoth};

    /// The acts that never run out of memory.
    ghost sure: { Self.Act → Type 0 };

    /// The number of an act's first part.
    fn first_part(act: &Self::Act) -> u8
        requires fits { Self.core.fits act.now }
        ensures { result ≡ Self.core.first act.now };

    // What is found here to be done isn't kept for `together`: a plan of some two hundred bytes, carried along, costs
    // each act a hundred instructions, and few acts have two parts.
    /// The number of its second part, if it has one, by the first part's value.
    fn second_part(one: &Self::Part, session: u32, act: &Self::Act) -> Option<u8>
        requires fits { Self.core.fits act.now }
        requires first { IsFirst Self.core act.now one.now }
        ensures { result ≡ Self.core.second one.now session act.now };

    // A reply is written where who makes the act wants it: it may be large, and each step that handed it on by value
    // would copy all of it.
    /// Makes an act that has one part on that part, and writes its reply. Running out of memory changes nothing but
    /// what stands in place of the reply.
    fn alone(
        alloc: Global,
        one: &mut Self::Part,
        session: u32,
        act: &Self::Act,
        reply: &mut Self::Reply,
    ) -> Result<(), NoMemory>
        requires fits { Self.core.fits act.now }
        requires first { IsFirst Self.core act.now one.old }
        requires single { Self.core.second one.old session act.now ≡ None }
        ensures reply { OnOk result (reply.new ≡ Self.core.answer one.old None session act.now) }
        ensures after { OnOk result (one.new ≡ Self.core.one one.old None session act.now) }
        ensures err { OnErr result (one.new ≡ one.old) }
        ensures sure { sure act.now → IsOk result };

    /// Makes an act that has two parts on both, and writes its reply. Running out of memory changes nothing but what
    /// stands in place of the reply.
    fn together(
        alloc: Global,
        one: &mut Self::Part,
        two: &mut Self::Part,
        session: u32,
        act: &Self::Act,
        reply: &mut Self::Reply,
    ) -> Result<(), NoMemory>
        requires fits { Self.core.fits act.now }
        requires both { AreBoth Self.core session act.now one.old two.old }
        ensures reply { OnOk result (reply.new ≡ Self.core.answer one.old (Some two.old) session act.now) }
        ensures one { OnOk result (one.new ≡ Self.core.one one.old (Some two.old) session act.now) }
        ensures two { OnOk result (two.new ≡ Self.core.two one.old two.old session act.now) }
        ensures err_one { OnErr result (one.new ≡ one.old) }
        ensures err_two { OnErr result (two.new ≡ two.old) }
        ensures sure { sure act.now → IsOk result };
}
