//! What a pass knows of the history before the table closes.

ghost use Rattle.std.specs.Prelude.{◌≡◌, [], ◌∷◌, IfOk};
ghost use Rattle.histories.specs.History.{entry};
ghost use Rattle.turn_counters.specs.declared.bump.Bump.TheVariants.{First};

use crate::chained::made;
use memory::NoMemory;
use std::alloc::Global;
use std::sync::Wait;
use turn_chain::OpenGate;
use turn_counters::{Bump, Counters, bump_first};
use turn_table::{Pass, Turns};

/// A pass that was split makes one act and is joined, and the table stays open. The history that the first pass then
/// sees is that one entry.
pub fn one_act_seen<R: Wait>(
    rt: &R,
    alloc: Global,
) -> Result<(Turns<Counters>, Pass<Counters>), NoMemory>
    ensures { IfOk result (λ t. t.1.view.seen ≡ entry 1 First 1 ∷ []) }
{
    let (table, mut base) = Turns::<Counters>::new(alloc, Vec::from_array(alloc, [0, 0])?)?;
    let mut other = table.split(&mut base);
    bump_first(rt, &table, &mut other);
    table.join(&mut base, other);
    table.look(&mut base);
    Ok((table, base))
}

/// The same, and then the first pass makes an act over the table, which is still open: what that is answered.
pub fn act_behind_a_look<R: Wait>(rt: &R, alloc: Global) -> Result<u64, NoMemory> {
    let (table, mut base) = Turns::<Counters>::new(alloc, Vec::from_array(alloc, [0, 0])?)?;
    let mut other = table.split(&mut base);
    bump_first(rt, &table, &mut other);
    table.join(&mut base, other);
    table.look(&mut base);
    made(rt, alloc, &table, &mut base, &OpenGate::new(), &Bump::First)
}
