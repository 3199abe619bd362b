//! What is shown of a game.
ghost use Rattle.std.specs.Prelude.{◌≡◌, ◌+◌, ◌<◌, ◌≤◌, ℕ, IfOk, option_map, slice_get};
ghost use Rattle.style12_writer.specs.declared.item.Item.TheVariants as item;
ghost use Rattle.fics_words.specs.Boards.{board_number, board_place};
ghost use Rattle.linked_desk.specs.Acts.{game_effect, items_told};
ghost use Rattle.linked_desk.specs.Desk.{game_number};
ghost use Rattle.linked_desk.specs.Views.{feed_with, view_of, views_of};

use crate::acts::DeskAct;
use crate::game::Game;
use chess_model::Colour;
use fics_words::{BoardNumber, DeskNumber, Opponents};
use game_board::GameBoard;
use memory::NoMemory;
use observer_feed::Feed;
use std::alloc::Global;
use style12_writer::{BoardView, Item, ItemList};

/// The number under which a board at a desk is shown.
pub(crate) fn game_number(desk: DeskNumber, board: BoardNumber) -> u16
    ensures { result ≡ game_number desk (board_number board) }
{
    2 * (u16::from(desk.get()) - 1) + u16::from(board.number())
}

/// All that the board line of a game shows.
#[tactic(auto, unfolding(crate::specs::Views::view_of))]
pub(crate) fn view_of(desk: DeskNumber, players: &Opponents, board: &GameBoard) -> BoardView
    ensures { result ≡ view_of desk players.now board.now }
{
    let terms = board.terms();
    let white_left = board.ledger(Colour::White).remaining();
    let black_left = board.ledger(Colour::Black).remaining();
    BoardView {
        face: board.face(),
        game: game_number(desk, board.number()),
        white: players.white.name,
        black: players.black.name,
        minutes: terms.minutes,
        increment: terms.increment,
        remaining: [white_left, black_left],
        taken: board.last_taken(),
    }
}

impl Game {
    /// A board as an item, if the game has it.
    pub(crate) fn board_item(&self, desk: DeskNumber, board: BoardNumber) -> Option<Item>
        ensures { result ≡ option_map item.Board (slice_get (views_of desk self.now) (board_place board)) }
    {
        Some(Item::Board(self.view(desk, board)?))
    }

    /// What is shown of a board, if the game has it.
    pub(crate) fn view(&self, desk: DeskNumber, board: BoardNumber) -> Option<BoardView>
        ensures { result ≡ slice_get (views_of desk self.now) (board_place board) }
    {
        let players = match board {
            BoardNumber::First => &self.seats.first,
            BoardNumber::Second => self.seats.second.as_ref()?,
        };
        let board = self.boards.at(board)?;
        Some(view_of(desk, players, board))
    }
}

/// Puts an item behind the others of a feed, if there is one, where there is room.
pub(crate) fn add_some(feed: &mut Feed<Item>, item: Option<Item>)
    requires { 0 < feed.old.room }
    ensures items { feed.new.items ≡ feed_with feed.old.items item }
    ensures viewers { feed.new.viewers ≡ feed.old.viewers }
    ensures room { feed.old.room ≤ feed.new.room + 1 }
{
    if let Some(item) = item {
        feed.add(item);
    }
}

impl Game {
    /// Copies of the items that an act would answer now, at whatever moment; none where it gives none.
    #[tactic(auto, using(crate::proofs::KeepsActs::no_items_at))]
    pub(crate) fn items_ahead(
        &self,
        alloc: Global,
        desk: DeskNumber,
        session: u32,
        act: &DeskAct,
    ) -> Result<ItemList, NoMemory>
        ensures { IfOk result (λ items. (moment : ℕ) → items
            ≡ items_told (game_effect desk self.now session moment act.now).reply) }
    {
        match act {
            DeskAct::Fetch => self.feed.copies_ahead(session),
            DeskAct::Watch => self.present_boards(desk),
            DeskAct::Show => self.present_items(desk),
            _ => Ok(ItemList::new(alloc)),
        }
    }
}
