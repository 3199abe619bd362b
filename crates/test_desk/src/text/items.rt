//! Copies of items.

use crate::text::games::{played, untimed};
use chess_model::{Kind, Variant, Why};
use fics_words::Line;
use holdings_drops::Holdings;
use memory::Duplicate;
use std::alloc::Global;
use std::test::Fail;
use style12_writer::{BoardView, Item, ItemList, LineList};

/// A board, White's rook in hand, a line of talk, and an end by agreement.
fn four_items(alloc: Global, view: BoardView) -> Result<ItemList, Fail> {
    let talk = Line::read(alloc, TALK)?.ok_or("a line")?;
    let mut items = ItemList::new(alloc);
    items.push(Item::Board(view))?;
    items.push(Item::Hold {
        game: 7,
        white: rook(),
        black: Holdings::empty(),
        came: Some(Kind::Rook),
    })?;
    items.push(Item::Talk(talk))?;
    items.push(Item::End {
        view,
        why: Why::Agreed,
        winner: None,
        own: true,
    })?;
    Ok(items)
}

const TALK: &[u8] = b"Ann kibitzes: hello";

fn rook() -> Holdings {
    Holdings::empty().with_one_more(Kind::Rook)
}

fn is_board(item: &Item, expected: &BoardView) -> bool {
    match item {
        Item::Board(view) => view == expected,
        _ => false,
    }
}

fn is_hold(item: &Item) -> bool {
    match item {
        Item::Hold {
            game,
            white,
            black,
            came,
        } => {
            *game == 7
                && *white == rook()
                && *black == Holdings::empty()
                && *came == Some(Kind::Rook)
        }
        _ => false,
    }
}

fn is_talk(item: &Item) -> bool {
    match item {
        Item::Talk(line) => line.bytes() == TALK,
        _ => false,
    }
}

fn is_end(item: &Item, expected: &BoardView) -> bool {
    match item {
        Item::End {
            view,
            why,
            winner,
            own,
        } => view == expected && *why == Why::Agreed && winner.is_none() && *own,
        _ => false,
    }
}

#[test]
fn copies_items(rt: HostRuntime) -> Result<(), Fail> {
    let game = played(Variant::Chess, "e2e4").ok_or("a game")?;
    let view = untimed(game.face(), "Ann", "Ben").ok_or("names")?;
    let copies = four_items(rt.alloc(), view)?.duplicate()?;
    let [board, hold, talk, end] = copies.as_slice() else {
        return Err("four items".into());
    };
    assert!(rt; is_board(board, &view));
    assert!(rt; is_hold(hold));
    assert!(rt; is_talk(talk));
    assert!(rt; is_end(end, &view));
    Ok(())
}

#[test]
fn copies_lines(rt: HostRuntime) -> Result<(), Fail> {
    let mut lines = LineList::new(rt.alloc());
    lines.push(Line::read(rt.alloc(), b"one")?.ok_or("a line")?)?;
    lines.push(Line::read(rt.alloc(), b"")?.ok_or("a line")?)?;
    let copies = lines.duplicate()?;
    assert_eq!(rt; copies.len(), 2);
    for (copy, line) in copies.as_slice().iter().zip(lines.as_slice()) {
        assert_eq!(rt; copy.bytes(), line.bytes());
    }
    Ok(())
}
