//! One act of a pass, from its beginning to the parts given back.

ghost use Rattle.std.specs.Prelude.{◌≡◌, [], IfOk, IsOk, OnOk, OnErr};
ghost use Rattle.turn_chain.specs.Chain.{fixed, HasRun, HasNotRun, CameTo};

use crate::gate::tell;
use crate::last::{self, Lent};
use crate::steps::Steps;
use crate::tried::Tried;
use edge_traits::Gate;
use memory::NoMemory;
use std::alloc::Global;
use std::sync::Wait;
use turn_table::{Pass, Turns};

/// Makes an act, and waits for the turns of its parts. The gate is told of each part once it is out. The pass holds no
/// part, before and after. The reply is written over what stands in its place. Answers `NoMemory` only when out of
/// memory, and then there is no entry: the parts are as they were. An act that never runs out of memory is always made.
/// It may wait for ever.
pub fn run<S: Steps, G: Gate, R: Wait>(
    rt: &R,
    alloc: Global,
    table: &Turns<S>,
    pass: &mut Pass<S>,
    gate: &G,
    act: &S::Act,
    reply: &mut S::Reply,
) -> Result<(), NoMemory>
    requires here { pass.old.home ≡ table.now }
    requires idle { pass.old.view.held ≡ [] }
    requires fits { S.core.fits act.now }
    ensures here { pass.new.home ≡ pass.old.home }
    ensures idle { pass.new.view.held ≡ [] }
    ensures same { fixed pass.new.view ≡ fixed pass.old.view }
    ensures ok { OnOk result (HasRun S.core pass.old.view act.now reply.new pass.new.view) }
    ensures err { OnErr result (HasNotRun S.core pass.old.view pass.new.view) }
    ensures sure { S.sure act.now → IsOk result }
{
    table.begin(pass, act);
    let first = S::first_part(act);
    let value = table.take(rt, pass, first);
    tell(gate, pass, first);
    let second = S::second_part(&value, pass.number(), act);
    let one = Lent {
        number: first,
        value,
    };
    let Some(second) = second else {
        return last::alone(alloc, table, pass, one, act, reply);
    };
    let value = table.take(rt, pass, second);
    tell(gate, pass, second);
    let two = Lent {
        number: second,
        value,
    };
    last::together(alloc, table, pass, one, two, act, reply)
}

/// Makes an act, and waits for nobody. The pass holds no part, before and after. Where the act is made, its reply is
/// written over what stands in its place. `Busy` says that at a step of this call the turn word of that part, a part of
/// the act, was 1: another pass had the turn. The act comes back, there is no entry, and a part that was out is put
/// back as it was. Answers `NoMemory` only when out of memory, and then there is no entry either. An act that never
/// runs out of memory is made, or finds a part busy.
pub fn try_run<S: Steps>(
    alloc: Global,
    table: &Turns<S>,
    pass: &mut Pass<S>,
    act: S::Act,
    reply: &mut S::Reply,
) -> Result<Tried<S::Act>, NoMemory>
    requires here { pass.old.home ≡ table.now }
    requires idle { pass.old.view.held ≡ [] }
    requires fits { S.core.fits act }
    ensures here { pass.new.home ≡ pass.old.home }
    ensures idle { pass.new.view.held ≡ [] }
    ensures same { fixed pass.new.view ≡ fixed pass.old.view }
    ensures ok { IfOk result (λ tried. CameTo S.core pass.old.view act tried reply.new pass.new.view) }
    ensures err { OnErr result (HasNotRun S.core pass.old.view pass.new.view) }
    ensures sure { S.sure act → IsOk result }
{
    table.begin(pass, &act);
    let first = S::first_part(&act);
    let Some(value) = table.try_take(pass, first) else {
        return Ok(Tried::Busy { part: first, act });
    };
    let second = S::second_part(&value, pass.number(), &act);
    let one = Lent {
        number: first,
        value,
    };
    let Some(second) = second else {
        last::alone(alloc, table, pass, one, &act, reply)?;
        return Ok(Tried::Done);
    };
    let Some(value) = table.try_take(pass, second) else {
        table.give(pass, first, one.value);
        return Ok(Tried::Busy { part: second, act });
    };
    let two = Lent {
        number: second,
        value,
    };
    last::together(alloc, table, pass, one, two, &act, reply)?;
    Ok(Tried::Done)
}
