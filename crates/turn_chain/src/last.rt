//! The second half of an act: its parts are out, it is made on them, and they go back.

ghost use Rattle.std.specs.Prelude.{◌≡◌, [], ◌∷◌, None, Some, IsOk, OnOk, OnErr};
ghost use Rattle.turn_chain.specs.Chain.{fixed, HasRun, HasNotRun, Ready};

use crate::steps::Steps;
use memory::NoMemory;
use std::alloc::Global;
use turn_table::{Pass, Turns};

/// A part that is out of its slot, with its number.
#[derive(Drop)]
pub struct Lent<P> {
    /// The number of the part.
    pub number: u8,
    /// What it holds.
    pub value: P,
}

/// Makes an act that has one part, which is out, and writes its reply. After running out of memory the part goes back
/// as it was.
pub fn alone<S: Steps>(
    alloc: Global,
    table: &Turns<S>,
    pass: &mut Pass<S>,
    mut one: Lent<S::Part>,
    act: &S::Act,
    reply: &mut S::Reply,
) -> Result<(), NoMemory>
    requires here { pass.old.home ≡ table.now }
    requires fits { S.core.fits act.now }
    requires ready { Ready S.core pass.old.view act.now ((one.number, one.value) ∷ []) }
    requires first { one.number ≡ S.core.first act.now }
    requires single { S.core.second one.value pass.old.view.number act.now ≡ None }
    ensures here { pass.new.home ≡ pass.old.home }
    ensures idle { pass.new.view.held ≡ [] }
    ensures same { fixed pass.new.view ≡ fixed pass.old.view }
    ensures ok { OnOk result (HasRun S.core pass.old.view act.now reply.new pass.new.view) }
    ensures err { OnErr result (HasNotRun S.core pass.old.view pass.new.view) }
    ensures sure { S.sure act.now → IsOk result }
{
    let made = S::alone(alloc, &mut one.value, pass.number(), act, reply);
    match &made {
        Ok(_) => {
            table.commit(pass);
            table.give(pass, one.number, one.value);
            made
        }
        Err(_) => {
            table.give(pass, one.number, one.value); // nothing was made of it
            made
        }
    }
}

/// Makes an act that has two parts, which are out, and writes its reply. After running out of memory both go back as
/// they were.
pub fn together<S: Steps>(
    alloc: Global,
    table: &Turns<S>,
    pass: &mut Pass<S>,
    mut one: Lent<S::Part>,
    mut two: Lent<S::Part>,
    act: &S::Act,
    reply: &mut S::Reply,
) -> Result<(), NoMemory>
    requires here { pass.old.home ≡ table.now }
    requires fits { S.core.fits act.now }
    requires ready { Ready S.core pass.old.view act.now ((two.number, two.value) ∷ (one.number, one.value) ∷ []) }
    requires first { one.number ≡ S.core.first act.now }
    requires second { S.core.second one.value pass.old.view.number act.now ≡ Some two.number }
    ensures here { pass.new.home ≡ pass.old.home }
    ensures idle { pass.new.view.held ≡ [] }
    ensures same { fixed pass.new.view ≡ fixed pass.old.view }
    ensures ok { OnOk result (HasRun S.core pass.old.view act.now reply.new pass.new.view) }
    ensures err { OnErr result (HasNotRun S.core pass.old.view pass.new.view) }
    ensures sure { S.sure act.now → IsOk result }
{
    let made = S::together(
        alloc,
        &mut one.value,
        &mut two.value,
        pass.number(),
        act,
        reply,
    );
    match &made {
        Ok(_) => {
            table.commit(pass);
            table.give(pass, one.number, one.value);
            table.give(pass, two.number, two.value);
            made
        }
        Err(_) => {
            table.give(pass, one.number, one.value);
            table.give(pass, two.number, two.value);
            made
        }
    }
}
