//! Texts at which a reader asks for memory in each place where it does: as a piece is fed, at a move, and at the end
//! of a game with and without tags. A refused allocation is asked for once more: `rt try --test --fail-alloc N`
//! refuses the Nth one, and each text is to be read in full all the same.

use crate::pgn::telling::told;
use memory::NoMemory;
use std::alloc::Global;
use std::test::Fail;
use test_steps::assert_rows;

/// A text, where it is cut, and its games and the line on which it is bad.
type Row = (&'static [u8], usize, &'static [u8]);

const ROWS: &[Row] = &[
    // each tag is told, the last one twice
    (
        b"[Event \"a long event\"][Site \"b\"][Date \"1992.11.04\"][Round \"1\"]\n\
          [White \"Ann\"][Black \"Ben\"][Black \"Cat\"] 1. e4 e5 2. Nf3 Nc6 3. Bb5 1-0",
        60,
        b"a long event+e2e4e7e5g1f3b8c6f1b5\n",
    ),
    // none is, and the second game ends with the text
    (b"1. d4 d5 * e4 0-1", 4, b"?*d2d4d7d5\n?-e2e4\n"),
    // Black has no such move on the third line
    (b"1. e4 e5 *\n2. Nf3\n2. e4 *", 12, b"?*e2e4e7e5\n!3"),
];

fn is_told(alloc: Global, row: &Row) -> Result<bool, NoMemory> {
    let (text, cut, games) = *row;
    let given = told(alloc, text, cut)?;
    Ok(given.as_slice() == games)
}

#[test]
fn each_text_is_read(rt: HostRuntime) -> Result<(), Fail> {
    let alloc = rt.alloc();
    assert_rows!(rt; ROWS, |row| is_told(alloc, row)?);
    Ok(())
}
