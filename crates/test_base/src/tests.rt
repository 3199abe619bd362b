//! The tests of the base crates, a test a table.
use crate::{Bump, Pair};
use memory::NoMemory;
use std::alloc::Global;
use std::test::Fail;
use test_steps::first_wrong;

/// Acts of sessions, and their replies.
const ACTS: &[(u32, Bump, u64)] = &[
    (1, Bump::Left, 1),
    (2, Bump::Both, 2),
    (1, Bump::Right, 2),
    (2, Bump::Left, 3),
];

fn run(pair: &mut Pair, session: u32, act: Bump) -> Result<u64, NoMemory> {
    pair.run(session, act)
}

/// The place of the first act with another reply, if there is one, or their number where the counters come to others.
fn first_wrong_of(pair: &mut Pair) -> Result<Option<usize>, NoMemory> {
    let wrong = first_wrong!(
        ACTS,
        |(session, act, reply)| run(pair, *session, *act)? == *reply
    );
    if wrong.is_none() && pair.both() != (3, 2) {
        return Ok(Some(ACTS.len()));
    }
    Ok(wrong)
}

fn first_wrong_anew(alloc: Global) -> Result<Option<usize>, NoMemory> {
    let mut pair = Pair::new(alloc);
    first_wrong_of(&mut pair)
}

#[test]
fn a_pair_counts(rt: HostRuntime) -> Result<(), Fail> {
    assert_eq!(rt; first_wrong_anew(rt.alloc())?, None);
    Ok(())
}
