//! Numbers drawn from seeds, as another program computed them by the same rule.

use replay_core::Draws;
use std::process::Abort;
use std::test::Fail;

/// The bounds of draws, one after another.
const BOUNDS: &[u64] = &[2_000, 40, 32, 8, 16, 1, 1 << 63, 2_000];

/// A seed, and what it gives within these bounds.
const ROWS: &[(u64, &[u64])] = &[
    (0, &[1_807, 24, 17, 4, 13, 0, 169_888_184, 1_975]),
    (7, &[1_278, 31, 17, 1, 9, 0, 865_189_864, 1_764]),
    (999_999, &[418, 1, 1, 2, 5, 0, 1_320_843_721, 1_800]),
    (
        18_446_744_073_709_551_615,
        &[488, 23, 21, 2, 0, 0, 1_297_692_885, 1_047],
    ),
];

/// Whether the seed gives these numbers.
fn gives(seed: u64, numbers: &[u64]) -> bool {
    let mut draws = Draws::new(seed);
    for (bound, number) in BOUNDS.iter().zip(numbers) {
        let below = *bound;
        if below == 0 || draws.draw(below) != *number {
            return false;
        }
    }
    numbers.len() == BOUNDS.len()
}

#[test]
fn seeds_give_their_numbers(rt: HostRuntime) -> Result<(), Fail> {
    for (seed, numbers) in ROWS {
        assert!(rt; gives(*seed, numbers), "{seed}");
    }
    Ok(())
}
