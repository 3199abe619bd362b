//! Clocks with figures by hand.
use clock_ledger::{Charge, ClockLedger, STAMP_CYCLE, span};
use std::alloc::Global;
use std::test::Fail;
use test_steps::first_wrong;

/// What a span comes to. It ensures nothing, so that nothing above it is proved over what is measured.
fn measured(begin: u32, end: u32) -> u32 {
    span(begin, end)
}

/// What a charge that ends after it begins amounts to.
fn amount(charge: &Charge) -> Option<u64> {
    if charge.begin > charge.end {
        return None;
    }
    Some(charge.amount())
}

/// The stamps of a client, and what the charge from 5,000 to 9,000 then amounts to.
const AMOUNTS: &[(Option<(u32, u32)>, u64)] = &[
    (None, 4_000),
    (Some((1_000, 6_000)), 4_000),
    (Some((1_000, 1_200)), 200),
    (Some((1_000, 1_000)), 0),
    (Some((9_999_900, 100)), 200),
];

/// The time that passed from 5,000 to 9,000 is 4,000, and a client's span counts where it is less.
#[test]
fn a_charge_is_the_smaller_span(rt: HostRuntime) {
    for (client, expected) in AMOUNTS {
        let charge = Charge {
            begin: 5_000,
            end: 9_000,
            client: *client,
        };
        assert!(rt;
            amount(&charge) == Some(*expected),
            "with the stamps {client:?}"
        );
    }
}

const SPANS: &[(u32, u32, u32)] = &[
    (0, 0, 0),
    (1_000, 6_000, 5_000),
    (9_999_999, 0, 1),
    (1, 0, 9_999_999),
];

#[test]
fn stamps_run_round(rt: HostRuntime) {
    for (begin, end, length) in SPANS {
        assert_eq!(rt; measured(*begin, *end), *length, "from {begin} to {end}");
    }
}

/// Minutes and increment, whether there are clocks then, and what they show at the start.
const STARTS: &[(u16, u16, bool, i64)] = &[
    (0, 0, false, 0),
    (0, 1, true, 10_000),
    (0, 600, true, 10_000),
    (2, 12, true, 120_000),
    (5, 0, true, 300_000),
    (600, 600, true, 36_000_000),
];

/// A clock of these terms.
fn new_clock(alloc: Global, minutes: u16, increment: u16) -> Result<ClockLedger, Fail> {
    Ok(ClockLedger::start(alloc, minutes, increment)?)
}

/// Whether there are clocks with these terms, and what they show at the start.
fn shown(alloc: Global, minutes: u16, increment: u16) -> Result<(bool, i64), Fail> {
    let clock = new_clock(alloc, minutes, increment)?;
    Ok((clock.timed(), clock.remaining()))
}

#[test]
fn the_start_follows_the_terms(rt: HostRuntime) -> Result<(), Fail> {
    for (minutes, increment, timed, remaining) in STARTS {
        assert!(rt;
            shown(rt.alloc(), *minutes, *increment)? == (*timed, *remaining),
            "at {minutes} {increment}"
        );
    }
    Ok(())
}

/// What comes to a clock.
enum Step {
    /// A charge from a moment to another, with the stamps of a client if it has them.
    Charges(u64, u64, Option<(u32, u32)>),
    /// The last charge is taken back.
    Backs,
    /// The clock shows that after so many charges.
    Shows(i64, usize),
}

use Step::{Backs, Charges, Shows};

/// Charges a clock, with moments and stamps that are such.
fn charge(clock: &mut ClockLedger, begin: u64, end: u64, client: Option<(u32, u32)>) -> bool {
    if clock.charges().len() > 10 || begin > end || end > 1 << 40 {
        return false;
    }
    match client {
        None => {
            clock.charge(Charge {
                begin,
                end,
                client: None,
            });
            true
        }
        Some((seen, made)) => charge_stamped(clock, begin, end, seen, made),
    }
}

fn charge_stamped(clock: &mut ClockLedger, begin: u64, end: u64, seen: u32, made: u32) -> bool {
    if clock.charges().len() > 10 || begin > end || end > 1 << 40 {
        return false;
    }
    if seen >= STAMP_CYCLE || made >= STAMP_CYCLE {
        return false;
    }
    clock.charge(Charge {
        begin,
        end,
        client: Some((seen, made)),
    });
    true
}

fn back(clock: &mut ClockLedger) -> bool {
    if clock.charges().is_empty() {
        return false;
    }
    clock.back();
    true
}

fn holds(clock: &mut ClockLedger, step: &Step) -> bool {
    match step {
        Charges(begin, end, client) => charge(clock, *begin, *end, *client),
        Backs => back(clock),
        Shows(remaining, many) => {
            clock.remaining() == *remaining && clock.charges().len() == *many
        }
    }
}

/// The place of the first step of a clock that isn't as it has to be, if one isn't.
fn first_failing(clock: &mut ClockLedger, steps: &[Step]) -> Option<usize> {
    first_wrong!(steps, |step| holds(clock, step))
}

/// A clock with these minutes and this increment.
struct Case {
    name: &'static str,
    minutes: u16,
    increment: u16,
    steps: &'static [Step],
}

const CASES: &[Case] = &[
    // 120,000 + 12,000 - 4,000, and all back with a takeback
    Case {
        name: "a_charge_gives_the_increment_and_takes_its_amount",
        minutes: 2,
        increment: 12,
        steps: &[
            Charges(5_000, 9_000, None),
            Shows(128_000, 1),
            Charges(9_500, 19_500, Some((1_000, 1_250))),
            Shows(139_750, 2),
            Backs,
            Shows(128_000, 1),
            Backs,
            Shows(120_000, 0),
        ],
    },
    // a minute and no increment, and 61.5 seconds of thought
    Case {
        name: "a_clock_goes_below_zero",
        minutes: 1,
        increment: 0,
        steps: &[Charges(1_000, 62_500, None), Shows(-1_500, 1)],
    },
    // without clocks the same thought takes nothing
    Case {
        name: "an_untimed_clock_stays_at_zero",
        minutes: 0,
        increment: 0,
        steps: &[Charges(1_000, 62_500, None), Shows(0, 1)],
    },
];

/// The place of the first step of a case that isn't as it has to be, if one isn't.
fn first_failing_of(alloc: Global, case: &Case) -> Result<Option<usize>, Fail> {
    let mut clock = new_clock(alloc, case.minutes, case.increment)?;
    Ok(first_failing(&mut clock, case.steps))
}

#[test]
fn clocks_are_charged(rt: HostRuntime) -> Result<(), Fail> {
    for case in CASES {
        assert_eq!(rt; first_failing_of(rt.alloc(), case)?, None, "{}", case.name);
    }
    Ok(())
}
