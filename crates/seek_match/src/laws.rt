//! A law of seeks, as a call that does nothing: it says by its contract what was proved.
ghost use Rattle.seek_match.specs.Seeks.{IsLeastUnused, next_number};

use crate::seek_book::SeekBook;

/// A new seek has the least positive number that no seek has.
pub fn next_number_is_least(book: &SeekBook)
    ensures { IsLeastUnused book.now (next_number book.now) }
{
    let _ = &book.rows;
}
