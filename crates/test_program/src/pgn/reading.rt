//! Texts and what is read in them, wherever they are cut.

use crate::pgn::telling::told;
use memory::NoMemory;
use std::alloc::Global;
use std::test::Fail;
use test_steps::{assert_rows, least_wrong};

/// A text, and its games and the line on which it is bad.
type Row = (&'static [u8], &'static [u8]);

const ROWS: &[Row] = &[
    // what is passed over, and a move that isn't allowed
    (
        b"1.e4 e5 {open} 2. Nf3 $1 (2. f4) Nc6!? *",
        b"?*e2e4e7e5g1f3b8c6\n",
    ),
    (b"1. e4 e5 2. Ke3 *", b"!1"),
    (b"1. e4 e5 ;(\n2... Nf6 2. f4!? {\n} e4 0-1", b"!2"),
    // tags: the first text of a name counts, and the last text may be any
    (
        b"[Event \"a\\\"b\\\\\"]\n[Event \"d\"]{e}[Mode \"\"] 1/2-1/2 1-0",
        b"a\"b\\=\n?+\n",
    ),
    (b"[FEN \"8/8/8/8/8/8/8/8 w - - 0 1\"] *", b"!1"),
    // the mark of UTF-8, and lines that begin with a percent sign
    (b"\xEF\xBB\xBF%x [\n0-1", b"?-\n"),
    (b"\xEF\xBBx", b"!1"),
    (b"0-1 %x", b"?-\n!1"),
    // nothing
    (b"", b""),
    (b" \n;c", b""),
    // a word, a glyph, a text, a name, signs, parentheses and another byte that may not stand there
    (b"1-0\n\n*!\n", b"?+\n!3"),
    (b"\n$a\n*", b"!2"),
    (b"\n[Event \"a\x01\"]", b"!2"),
    (b"\n[Ev+nt \"a\"]", b"!2"),
    (b"\n\n1. e4 ]", b"!3"),
    (b"e4\n[Event \"a\"]", b"!2"),
    (b"\n)", b"!2"),
    (b"* }", b"?*\n!1"),
    // the end inside a game, a tag, a comment or a variation
    (b"1. e4\n", b"!2"),
    (b"[Event\n\"a\"", b"!2"),
    (b"* {a\n\nb", b"?*\n!3"),
    (b"(\n(a *)", b"!2"),
];

/// Where the row, cut in two, is read otherwise, if there is such a place.
fn first_wrong_cut(alloc: Global, row: &(&[u8], &[u8])) -> Result<Option<usize>, NoMemory> {
    Ok(least_wrong!(0..=row.0.len(), |cut| is_told(alloc, row.0, cut, row.1)?))
}

fn is_told(alloc: Global, text: &[u8], cut: usize, games: &[u8]) -> Result<bool, NoMemory> {
    let given = told(alloc, text, cut)?;
    Ok(given.as_slice() == games)
}

#[test]
fn each_cut(rt: HostRuntime) -> Result<(), Fail> {
    assert_rows!(rt; ROWS, |row| first_wrong_cut(rt.alloc(), row)?.is_none());
    Ok(())
}
