//! What is shown of a game as it stands.
ghost use Rattle.std.specs.Prelude.{◌≡◌, ◌++◌, IfOk, OnOk};
ghost use Rattle.linked_desk.specs.Present.{present_boards, present_items};
ghost use Rattle.linked_desk.specs.Seating.{first_items};

use crate::game::Game;
use crate::hands::first_hands;
use crate::views::view_of;
use fics_words::{DeskNumber, Opponents};
use game_board::GameBoard;
use memory::NoMemory;
use style12_writer::{Item, ItemList};

impl Game {
    /// The boards.
    pub(crate) fn present_boards(&self, desk: DeskNumber) -> Result<ItemList, NoMemory>
        ensures { IfOk result (λ items. items ≡ present_boards desk self.now) }
    {
        let mut items = ItemList::new(self.alloc);
        let (first, second) = self.boards.both();
        items.push(Item::Board(view_of(desk, &self.seats.first, first)))?;
        if let Some(players) = &self.seats.second {
            if let Some(board) = second {
                items.push(Item::Board(view_of(desk, players, board)))?;
            }
        }
        Ok(items)
    }

    /// The boards, each with its hands behind it where the variant has them.
    pub(crate) fn present_items(&self, desk: DeskNumber) -> Result<ItemList, NoMemory>
        ensures { IfOk result (λ items. items ≡ present_items desk self.now) }
    {
        let mut items = ItemList::new(self.alloc);
        let (first, second) = self.boards.both();
        add_board(&mut items, desk, &self.seats.first, first)?;
        if let Some(players) = &self.seats.second {
            if let Some(board) = second {
                add_board(&mut items, desk, players, board)?;
            }
        }
        Ok(items)
    }
}

/// Adds a board, and its hands where the variant has them.
fn add_board(
    items: &mut ItemList,
    desk: DeskNumber,
    players: &Opponents,
    board: &GameBoard,
) -> Result<(), NoMemory>
    ensures { OnOk result (items.new ≡ items.old ++ first_items desk players.now board.now) }
{
    items.push(Item::Board(view_of(desk, players, board)))?;
    if let Some(hold) = first_hands(desk, board) {
        items.push(hold)?;
    }
    Ok(())
}
