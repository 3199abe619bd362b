//! What the items that a session hasn't been given say when they are printed.

use linked_desk::{Desk, Item};
use style12_writer::{BoardView, end_line, is_decisive, line_b1};

/// The board that the last item shows that a session hasn't been given.
fn last_board(desk: &Desk, session: u32) -> Option<&BoardView> {
    match desk.ahead(session).last() {
        Some(Item::Board(view)) => Some(view),
        _ => None,
    }
}

/// The times on the board that the last item shows, in milliseconds.
pub fn last_clocks(desk: &Desk, session: u32) -> Option<[i64; 2]> {
    match last_board(desk, session) {
        Some(view) => Some(view.remaining),
        None => None,
    }
}

/// Whether the last item is an end, with a winner exactly where somebody won, and is told by that line.
pub fn ends_with_end(desk: &Desk, session: u32, text: &str) -> bool {
    match desk.ahead(session).last() {
        Some(item) => is_end(item, text.as_bytes()),
        None => false,
    }
}

/// Whether an item is an end, with a winner exactly where somebody won, and is told by that line.
fn is_end(item: &Item, text: &[u8]) -> bool {
    let Item::End {
        view,
        why,
        winner,
        own,
    } = item
    else {
        return false;
    };
    if winner.is_some() != is_decisive(*why) {
        return false;
    }
    end_line(view, *why, *winner, *own).bytes() == text
}

/// The place of the first item that a session hasn't been given and that isn't told by its row, if one isn't. A row is
/// the holdings line, the line of an end or a line of text as it is written, or `board`, `board` with the number of its
/// game, `talk` or `end`.
pub fn first_told_otherwise(desk: &Desk, session: u32, rows: &[&str]) -> Option<usize> {
    first_otherwise(desk.ahead(session), rows)
}

fn first_otherwise(items: &[Item], rows: &[&str]) -> Option<usize> {
    for (place, item) in items.iter().enumerate() {
        let Some(row) = rows.get(place) else {
            return Some(place);
        };
        if !is_told(item, row) {
            return Some(place);
        }
    }
    if items.len() < rows.len() {
        Some(items.len())
    } else {
        None
    }
}

fn is_told(item: &Item, row: &str) -> bool {
    let row = row.as_bytes();
    match item {
        Item::Board(view) => row == b"board".as_slice() || row == board_row(view.game),
        Item::Talk(line) => row == b"talk".as_slice() || line.bytes() == row,
        Item::End { .. } => row == b"end".as_slice() || is_end(item, row),
        Item::Hold {
            game,
            white,
            black,
            came,
        } => line_b1(*game, white, black, *came).bytes() == row,
    }
}

/// The row of a board with the number of its game.
fn board_row(game: u16) -> &'static [u8] {
    match game {
        1 => b"board 1",
        2 => b"board 2",
        _ => b"",
    }
}
