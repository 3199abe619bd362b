//! Workers that add to two counters in threads.

ghost use Rattle.std.specs.Prelude.{◌≡◌, ◌*◌, [], IfOk};
ghost use Rattle.turn_workers.specs.Many.{MadeMany};

use memory::NoMemory;
use std::alloc::Global;
use std::sync::Wait;
use std::thread::{Threads, join};
use turn_counters::{Bump, Counters, make};
use turn_table::{Pass, Turns};

/// A worker: it makes one act so many times.
pub fn work<R: Wait>(
    rt: &R,
    table: &Turns<Counters>,
    mut pass: Pass<Counters>,
    act: Bump,
    count: u32,
) -> Pass<Counters>
    requires here { pass.home ≡ table.now }
    requires idle { pass.view.held ≡ [] }
    ensures here { result.home ≡ table.now }
    ensures made { MadeMany act count pass.view result.view }
{
    'acts: for _ in 0..count {
        make(rt, table, &mut pass, act);
    }
    pass
}

/// Two threads: one adds to the first counter so many times, the other to both. What the table then gives back.
pub fn two_counters<R: Threads + Wait + Sync>(
    rt: &R,
    alloc: Global,
    count: u32,
) -> Result<(u64, u64), NoMemory>
    ensures { IfOk result (λ r. (r.0 ≡ 2 * count) × (r.1 ≡ count)) }
{
    let (table, mut pass) = Turns::<Counters>::new(alloc, Vec::from_array(alloc, [0, 0])?)?;
    let one = table.split(&mut pass);
    let two = table.split(&mut pass);
    let (one, two) = in_two(rt, &table, (one, Bump::First), (two, Bump::Both), count);
    table.join(&mut pass, one);
    table.join(&mut pass, two);
    let parts = table.close(pass);
    Ok((parts[0], parts[1]))
}

/// Two workers in threads of their own.
fn in_two<R: Threads + Wait + Sync>(
    rt: &R,
    table: &Turns<Counters>,
    first: (Pass<Counters>, Bump),
    second: (Pass<Counters>, Bump),
    count: u32,
) -> (Pass<Counters>, Pass<Counters>)
    requires first { (first.0.home ≡ table.now) × (first.0.view.held ≡ []) }
    requires second { (second.0.home ≡ table.now) × (second.0.view.held ≡ []) }
    ensures first { (result.0.home ≡ table.now) × MadeMany first.1 count first.0.view result.0.view }
    ensures second { (result.1.home ≡ table.now) × MadeMany second.1 count second.0.view result.1.view }
{
    let (one, act) = first;
    let (two, other) = second;
    join(
        rt,
        move || -> Pass<Counters>
            requires { (one.home ≡ table.now) × (one.view.held ≡ []) }
            ensures { (result.home ≡ table.entry.now) × MadeMany act count one.view result.view }
        { work(rt, table, one, act, count) },
        move || -> Pass<Counters>
            requires { (two.home ≡ table.now) × (two.view.held ≡ []) }
            ensures { (result.home ≡ table.entry.now) × MadeMany other count two.view result.view }
        { work(rt, table, two, other, count) },
    )
}

/// Three threads: one adds to the first counter so many times, and two add to both.
pub fn three_counters<R: Threads + Wait + Sync>(
    rt: &R,
    alloc: Global,
    count: u32,
) -> Result<(u64, u64), NoMemory>
    ensures { IfOk result (λ r. (r.0 ≡ 3 * count) × (r.1 ≡ 2 * count)) }
{
    let (table, mut base) = Turns::<Counters>::new(alloc, Vec::from_array(alloc, [0, 0])?)?;
    let one = table.split(&mut base);
    let two = table.split(&mut base);
    let three = table.split(&mut base);
    let (one, (two, three)) = in_three(rt, &table, one, two, three, count);
    table.join(&mut base, one);
    table.join(&mut base, two);
    table.join(&mut base, three);
    let parts = table.close(base);
    Ok((parts[0], parts[1]))
}

/// Three workers in threads of their own: one on the first counter, two on both.
fn in_three<R: Threads + Wait + Sync>(
    rt: &R,
    table: &Turns<Counters>,
    one: Pass<Counters>,
    two: Pass<Counters>,
    three: Pass<Counters>,
    count: u32,
) -> (Pass<Counters>, (Pass<Counters>, Pass<Counters>))
    requires one { (one.home ≡ table.now) × (one.view.held ≡ []) }
    requires two { (two.home ≡ table.now) × (two.view.held ≡ []) }
    requires three { (three.home ≡ table.now) × (three.view.held ≡ []) }
    ensures one { (result.0.home ≡ table.now) × MadeMany Bump.First count one.view result.0.view }
    ensures two { (result.1.0.home ≡ table.now) × MadeMany Bump.Both count two.view result.1.0.view }
    ensures three { (result.1.1.home ≡ table.now) × MadeMany Bump.Both count three.view result.1.1.view }
{
    join(
        rt,
        move || -> Pass<Counters>
            requires { (one.home ≡ table.now) × (one.view.held ≡ []) }
            ensures { (result.home ≡ table.entry.now) × MadeMany Bump.First count one.view result.view }
        { work(rt, table, one, Bump::First, count) },
        move || -> (Pass<Counters>, Pass<Counters>)
            requires { (two.home ≡ table.now) × (two.view.held ≡ [])
                × (three.home ≡ table.now) × (three.view.held ≡ []) }
            ensures { (result.0.home ≡ table.entry.now) × MadeMany Bump.Both count two.view result.0.view
                × (result.1.home ≡ table.entry.now) × MadeMany Bump.Both count three.view result.1.view }
        { in_two(rt, table, (two, Bump::Both), (three, Bump::Both), count) },
    )
}
