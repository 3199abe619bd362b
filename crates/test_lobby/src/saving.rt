//! Save orders: what is ordered, how many are told at once, and which go when they are carried out.

use crate::resuming_steps::{Resuming, first_unlike_anew};
use std::test::Fail;

const SIXTEEN_AT_A_TIME_STEPS: &[Resuming] = &[
    Resuming::Orders(0, 1),
    Resuming::Registers(20),
    Resuming::Sizes(20, 0),
    Resuming::Orders(16, 1),
    Resuming::Orders(16, 1),
    Resuming::Register(20, 48),
    Resuming::Saved(3),
    Resuming::Orders(16, 4),
    Resuming::Saved(2),
    Resuming::Orders(16, 4),
    Resuming::Saved(16),
    Resuming::Orders(4, 17),
    Resuming::Saved(20),
    Resuming::Orders(0, 1),
    Resuming::Saved(99),
    Resuming::Orders(0, 1),
];

#[test]
fn saving(rt: HostRuntime) -> Result<(), Fail> {
    assert_eq!(rt;
        first_unlike_anew(rt.alloc(), SIXTEEN_AT_A_TIME_STEPS)?,
        None
    );
    Ok(())
}
