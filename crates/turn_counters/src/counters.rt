//! Two counters behind turns, and the acts on them.

ghost use Rattle.std.specs.Prelude.{◌≡◌, []};
ghost use Rattle.turn_counters.specs.Worked.{MadeOne};

use crate::bump::Bump;
use histories::Served;
use std::sync::Wait;
use turn_table::{Pass, Turns};

/// The server of two counters.
pub struct Counters;

impl Served for Counters {
    ghost use Rattle.turn_counters.specs.Counters.{counters, counters_lawful};

    type Part = u64;

    type Act = Bump;

    type Reply = u64;

    ghost core = { counters };

    ghost lawful = { counters_lawful };
}

/// Adds one to the first counter.
pub fn bump_first<R: Wait>(rt: &R, table: &Turns<Counters>, pass: &mut Pass<Counters>)
    requires here { pass.old.home ≡ table.now }
    requires idle { pass.old.view.held ≡ [] }
    ensures here { pass.new.home ≡ pass.old.home }
    ensures made { MadeOne Bump.First pass.old.view pass.new.view }
{
    table.begin(pass, &Bump::First);
    let value = table.take(rt, pass, 0);
    table.commit(pass);
    table.give(pass, 0, value.wrapping_add(1));
}

/// Adds one to both counters.
pub fn bump_both<R: Wait>(rt: &R, table: &Turns<Counters>, pass: &mut Pass<Counters>)
    requires here { pass.old.home ≡ table.now }
    requires idle { pass.old.view.held ≡ [] }
    ensures here { pass.new.home ≡ pass.old.home }
    ensures made { MadeOne Bump.Both pass.old.view pass.new.view }
{
    table.begin(pass, &Bump::Both);
    let first = table.take(rt, pass, 0);
    let second = table.take(rt, pass, 1);
    table.commit(pass);
    table.give(pass, 0, first.wrapping_add(1));
    table.give(pass, 1, second.wrapping_add(1));
}

/// Makes an act.
pub fn make<R: Wait>(rt: &R, table: &Turns<Counters>, pass: &mut Pass<Counters>, act: Bump)
    requires here { pass.old.home ≡ table.now }
    requires idle { pass.old.view.held ≡ [] }
    ensures here { pass.new.home ≡ pass.old.home }
    ensures made { MadeOne act pass.old.view pass.new.view }
{
    match act {
        Bump::First => bump_first(rt, table, pass),
        Bump::Both => bump_both(rt, table, pass),
    }
}
