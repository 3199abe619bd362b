//! Acts on two counters, made by the chain that every server of parts shares.

ghost use Rattle.std.specs.Prelude.{◌≡◌, []};

use memory::NoMemory;
use std::alloc::Global;
use std::cell::Cell;
use std::sync::Wait;
use turn_chain::{Gate, OpenGate, Tried, run, try_run};
use turn_counters::{Bump, Counters};
use turn_table::{Pass, Turns};

/// A gate that writes the parts down in their order, each as a digit one above its number.
#[derive(Drop)]
pub struct Order {
    digits: Cell<u64>,
}

impl Gate for Order {
    fn at(&self, _session: u32, part: u8) {
        let digits = self.digits.get().wrapping_mul(10);
        self.digits.set(digits.wrapping_add(part as u64 + 1));
    }
}

/// Three acts of one pass: on both counters, on the first, and on both. The replies, and the order in which the parts
/// came out.
pub fn three_acts<R: Wait>(rt: &R, alloc: Global) -> Result<([u64; 3], u64), NoMemory> {
    let (table, mut pass) = Turns::<Counters>::new(alloc, Vec::from_array(alloc, [0, 0])?)?;
    let order = Order {
        digits: Cell::new(0),
    };
    let one = made(rt, alloc, &table, &mut pass, &order, &Bump::Both)?;
    let two = made(rt, alloc, &table, &mut pass, &order, &Bump::First)?;
    let three = made(rt, alloc, &table, &mut pass, &order, &Bump::Both)?;
    Ok(([one, two, three], order.digits.get()))
}

/// Makes an act, and gives its reply.
pub(crate) fn made<G: Gate, R: Wait>(
    rt: &R,
    alloc: Global,
    table: &Turns<Counters>,
    pass: &mut Pass<Counters>,
    gate: &G,
    act: &Bump,
) -> Result<u64, NoMemory>
    requires here { pass.old.home ≡ table.now }
    requires idle { pass.old.view.held ≡ [] }
    ensures here { pass.new.home ≡ pass.old.home }
    ensures idle { pass.new.view.held ≡ [] }
{
    let mut reply = 0;
    run(rt, alloc, table, pass, gate, act, &mut reply)?;
    Ok(reply)
}

/// What a try came to: the reply that was written, or the part that was busy.
fn outcome(tried: Tried<Bump>, reply: u64) -> Result<u64, u8> {
    match tried {
        Tried::Done => Ok(reply),
        Tried::Busy { part, act: _ } => Err(part),
    }
}

/// While one pass has both counters, and then the second one alone, and then none, another pass tries an act on both.
/// What it comes to each time.
pub fn tries_beside<R: Wait>(rt: &R, alloc: Global) -> Result<[Result<u64, u8>; 3], NoMemory> {
    let (table, mut base) = Turns::<Counters>::new(alloc, Vec::from_array(alloc, [0, 0])?)?;
    let mut other = table.split(&mut base);
    let mut reply = 0;
    table.begin(&mut base, &Bump::Both);
    let first = table.take(rt, &mut base, 0);
    let second = table.take(rt, &mut base, 1);
    let held = outcome(
        try_run(alloc, &table, &mut other, Bump::Both, &mut reply)?,
        reply,
    );
    table.give(&mut base, 0, first);
    let half_held = outcome(
        try_run(alloc, &table, &mut other, Bump::Both, &mut reply)?,
        reply,
    );
    table.give(&mut base, 1, second);
    let free = outcome(
        try_run(alloc, &table, &mut other, Bump::Both, &mut reply)?,
        reply,
    );
    Ok([held, half_held, free])
}

/// An act that nobody stands beside, with the gate that holds nobody.
pub fn open_gate<R: Wait>(rt: &R, alloc: Global) -> Result<u64, NoMemory> {
    let (table, mut pass) = Turns::<Counters>::new(alloc, Vec::from_array(alloc, [4, 0])?)?;
    made(rt, alloc, &table, &mut pass, &OpenGate::new(), &Bump::First)
}
