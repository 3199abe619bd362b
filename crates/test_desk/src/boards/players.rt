//! Who may have played a game that is played again.

use chess_model::Variant::{self, Bughouse, Chess, Fischer};
use desk_boards::replays;
use memory::NoMemory;
use std::alloc::Global;
use std::process::Abort;
use std::test::Fail;
use test_steps::assert_rows;
use test_steps::games::{halves_of, stored};
use test_steps::limits::MINUTES;

/// Minutes, the variant, the names, and whether a game of them that hasn't begun is played again.
const ROWS: &[(u16, Variant, &[&[u8]], bool)] = &[
    (MINUTES, Chess, &[b"Ann", b"Ben"], true),
    (MINUTES + 1, Chess, &[b"Ann", b"Ben"], false),
    (0, Fischer(959), &[b"Ann", b"Ben"], true),
    (0, Fischer(960), &[b"Ann", b"Ben"], false),
    (0, Chess, &[b"Ann"], false),
    (0, Chess, &[b"Ann", b"Ben", b"Cat", b"Dan"], false),
    (0, Bughouse, &[b"Ann", b"Ben", b"Cat", b"Dan"], true),
    (0, Bughouse, &[b"Ann", b"Ben", b"Cat"], false),
    // the players of a pair are four, upper and lower case aside
    (0, Bughouse, &[b"Ann", b"Ben", b"Cat", b"Ben"], false),
    (0, Bughouse, &[b"Ann", b"Ben", b"aNN", b"Dan"], false),
    (0, Bughouse, &[b"Ann", b"Ben", b"Cat", b"caT"], false),
];

/// Whether a row's game is played again.
fn is_replayed(
    alloc: Global,
    minutes: u16,
    variant: Variant,
    names: &[&[u8]],
) -> Result<bool, NoMemory> {
    let halves = halves_of(alloc, &[], 1)?;
    let game = stored(alloc, (minutes, 0), variant, names, halves)?;
    replays(alloc, &game)
}

#[test]
fn a_pair_is_played_by_four(rt: HostRuntime) -> Result<(), Fail> {
    assert_rows!(rt; ROWS, |row| is_replayed(rt.alloc(), row.0, row.1, row.2)? == row.3);
    Ok(())
}
