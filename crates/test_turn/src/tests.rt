//! The tests of parts behind turns, with threads.
use std::test::Fail;
use turn_workers::{
    act_behind_a_look, one_act_seen, open_gate, three_acts, tries_beside, two_counters,
};

#[test]
fn two_threads_make_a_thousand_acts_each(rt: HostRuntime) -> Result<(), Fail> {
    let counters = two_counters(&rt, rt.alloc(), 1000)?;
    assert_eq!(rt; counters, (2000, 1000));
    Ok(())
}

#[test]
fn parts_come_out_in_the_order_of_the_acts(rt: HostRuntime) -> Result<(), Fail> {
    let (replies, order) = three_acts(&rt, rt.alloc())?;
    assert_eq!(rt; replies, [1, 2, 3]);
    assert_eq!(rt; order, 12112);
    assert_eq!(rt; open_gate(&rt, rt.alloc())?, 5);
    Ok(())
}

#[test]
fn a_busy_part_is_named_and_the_other_put_back(rt: HostRuntime) -> Result<(), Fail> {
    let tried = tries_beside(&rt, rt.alloc())?;
    assert_eq!(rt; tried, [Err(0), Err(1), Ok(1)]);
    Ok(())
}

#[test]
fn a_look_needs_no_close(rt: HostRuntime) -> Result<(), Fail> {
    let (_table, _pass) = one_act_seen(&rt, rt.alloc())?;
    assert_eq!(rt; act_behind_a_look(&rt, rt.alloc())?, 2);
    Ok(())
}
