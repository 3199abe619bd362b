//! Parts behind turns, run by threads. The program has three of them make 10,000 acts each, and prints what the two
//! counters hold in the end; the tests run two and fewer.
#![tactic(auto)]

#[cfg(test)]
mod tests;

use std::io;
use turn_workers::three_counters;

const ACTS: u32 = 10_000;

fn main(rt: HostRuntime) -> io::Result<()> {
    match three_counters(&rt, rt.alloc(), ACTS) {
        Ok((first, both)) => println!(rt; "{first} {both}"),
        Err(_) => println!(rt; "out of memory"),
    }
}
