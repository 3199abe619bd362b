//! What an act on two counters takes and does, for the chain that every server of parts shares.

use crate::bump::Bump;
use crate::counters::Counters;
use memory::NoMemory;
use std::alloc::Global;
use turn_chain::Steps;

impl Steps for Counters {
    ghost sure = { λ _. Unit {0} };

    fn first_part(_act: &Bump) -> u8 {
        0
    }

    fn second_part(_one: &u64, _session: u32, act: &Bump) -> Option<u8> {
        match act {
            Bump::First => None,
            Bump::Both => Some(1),
        }
    }

    fn alone(
        _alloc: Global,
        one: &mut u64,
        _session: u32,
        _act: &Bump,
        reply: &mut u64,
    ) -> Result<(), NoMemory> {
        *one = one.wrapping_add(1);
        *reply = *one;
        Ok(())
    }

    fn together(
        _alloc: Global,
        one: &mut u64,
        two: &mut u64,
        _session: u32,
        _act: &Bump,
        reply: &mut u64,
    ) -> Result<(), NoMemory> {
        *one = one.wrapping_add(1);
        *two = two.wrapping_add(1);
        *reply = *one;
        Ok(())
    }
}
