//! How a game begins.
ghost use Rattle.std.specs.Prelude.{◌≡◌, ◌≢◌, ◌+◌, ◌≤◌, [], ◌∷◌, ◌++◌, false, length, map, IfOk, OnOk};
ghost use Rattle.fics_words.specs.Seats.{seat_list};
ghost use Rattle.offer_book.specs.Offers.{no_offers};
ghost use Rattle.observer_feed.specs.Feed.{empty_feed, is_viewer};
ghost use Rattle.fics_words.specs.Boards.{board_number};
ghost use Rattle.desk_boards.specs.Boards.{latest};
ghost use Rattle.linked_desk.specs.Seating.{AllDiffer, HasPairsFor, announcement, announcements, first_items, from_start, game_begins_at, news, game_opened, sessions_seated, shown_items};
ghost use Rattle.linked_desk.specs.Seats.{pairs_of};

use crate::game::{Game, ROOM_TO_END};
use crate::hands::first_hands;
use crate::occasion::Occasion;
use crate::tally::Tally;
use crate::views::{game_number, view_of};
use chess_model::Terms;
use clock_ledger::Moment;
use desk_boards::Boards;
use fics_words::{BoardNumber, DeskNumber, Line, Opponents, Seats};
use game_board::GameBoard;
use memory::NoMemory;
use observer_feed::{Backlog, Feed};
use offer_book::Offers;
use std::alloc::Global;
use style12_writer::{Item, continued_line, created_line};

/// A game that begins at a desk: each board is announced by a line and then shown, with its hands where the variant has
/// them, and the players are viewers from the start.
#[tactic(auto, using(crate::proofs::Opening::announced_first))]
pub(crate) fn opened(
    alloc: Global,
    desk: DeskNumber,
    serial: u64,
    terms: Terms,
    seats: &Seats,
    moment: Moment,
) -> Result<Game, NoMemory>
    requires sessions { AllDiffer (sessions_seated seats.now) }
    requires pairs { HasPairsFor terms seats.now }
    ensures { IfOk result (λ game. game ≡ game_opened desk serial terms seats.now moment) }
{
    let mut feed = announced(alloc, Occasion::Start, desk, &terms, seats)?;
    let boards = Boards::start(alloc, terms, moment)?;
    show_each(&mut feed, desk, seats, &boards);
    Ok(game_at(alloc, serial, terms, seats, boards, feed, moment))
}

/// A game that begins at these boards, where the players are told that.
pub(crate) fn game_at(
    alloc: Global,
    serial: u64,
    terms: Terms,
    seats: &Seats,
    boards: Boards,
    feed: Feed<Item>,
    moment: Moment,
) -> Game
    requires order { latest boards ≤ moment }
    requires viewers { feed.viewers ≡ map from_start (seat_list seats.now) }
    requires room { 4 ≤ feed.room }
    ensures { result ≡ game_begins_at serial terms seats.now boards feed.items moment }
{
    Game {
        alloc,
        serial,
        terms,
        seats: *seats,
        boards,
        feed,
        remarks: 0,
        last: moment,
        ended: None,
        offers: no_offers(seats),
        tally: Tally::none(),
    }
}

/// A feed that tells the players, who are its viewers from the start, that their games begin. There is room for what
/// is shown then, and for the end.
pub(crate) fn announced(
    alloc: Global,
    occasion: Occasion,
    desk: DeskNumber,
    terms: &Terms,
    seats: &Seats,
) -> Result<Feed<Item>, NoMemory>
    requires sessions { AllDiffer (sessions_seated seats.now) }
    ensures items { IfOk result (λ feed. feed.items ≡ announcements occasion desk terms.now seats.now) }
    ensures viewers { IfOk result (λ feed. feed.viewers ≡ map from_start (seat_list seats.now)) }
    ensures room { IfOk result (λ feed. 8 ≤ feed.room) }
{
    let mut feed = Feed::new(alloc);
    announce(&mut feed, alloc, occasion, desk, terms, seats)?;
    Ok(feed)
}

/// Takes the room in an empty feed, makes the players its viewers and tells that a game begins at each board.
fn announce(
    feed: &mut Feed<Item>,
    alloc: Global,
    occasion: Occasion,
    desk: DeskNumber,
    terms: &Terms,
    seats: &Seats,
) -> Result<(), NoMemory>
    requires sessions { AllDiffer (sessions_seated seats.now) }
    requires empty { feed.old ≡ empty_feed }
    ensures items { OnOk result (feed.new.items ≡ announcements occasion desk terms.now seats.now) }
    ensures viewers { OnOk result (feed.new.viewers ≡ map from_start (seat_list seats.now)) }
    ensures room { OnOk result (8 ≤ feed.new.room) }
{
    feed.reserve(6 + ROOM_TO_END)?;
    add_players(feed, seats)?;
    let first = BoardNumber::First;
    feed.add(announcement(alloc, occasion, desk, terms, first, &seats.first)?);
    if let Some(players) = &seats.second {
        let second = BoardNumber::Second;
        feed.add(announcement(alloc, occasion, desk, terms, second, players)?);
    }
    Ok(())
}

/// Shows each board at the beginning.
pub(crate) fn show_each(feed: &mut Feed<Item>, desk: DeskNumber, seats: &Seats, boards: &Boards)
    requires room { 4 ≤ feed.old.room }
    ensures items { feed.new.items ≡ feed.old.items ++ shown_items desk (pairs_of seats.now) boards.now }
    ensures viewers { feed.new.viewers ≡ feed.old.viewers }
    ensures room { feed.old.room ≤ feed.new.room + 4 }
{
    let (first, second) = boards.both();
    show(feed, desk, &seats.first, first);
    if let Some(players) = &seats.second {
        if let Some(board) = second {
            show(feed, desk, players, board);
        }
    }
}

/// Shows a board at the beginning, with its hands where the variant has them.
fn show(feed: &mut Feed<Item>, desk: DeskNumber, players: &Opponents, board: &GameBoard)
    requires room { 2 ≤ feed.old.room }
    ensures items { feed.new.items ≡ feed.old.items ++ first_items desk players.now board.now }
    ensures viewers { feed.new.viewers ≡ feed.old.viewers }
    ensures room { feed.old.room ≤ feed.new.room + 2 }
{
    feed.add(Item::Board(view_of(desk, players, board)));
    if let Some(hold) = first_hands(desk, board) {
        feed.add(hold);
    }
}

/// The line that tells that a game begins at a board.
fn announcement(
    alloc: Global,
    occasion: Occasion,
    desk: DeskNumber,
    terms: &Terms,
    board: BoardNumber,
    players: &Opponents,
) -> Result<Item, NoMemory>
    ensures { IfOk result (λ item. item ≡ announcement occasion desk terms.now (board_number board) players.now) }
{
    let game = game_number(desk, board);
    Ok(Item::Talk(news(alloc, occasion, game, players, terms)?))
}

/// The text of that line.
fn news(
    alloc: Global,
    occasion: Occasion,
    game: u16,
    players: &Opponents,
    terms: &Terms,
) -> Result<Line, NoMemory>
    ensures { IfOk result (λ line. line ≡ news occasion game players.now.white.name players.now.black.name terms.now) }
{
    match occasion {
        Occasion::Start => created_line(
            alloc,
            game,
            &players.white.name,
            &players.black.name,
            terms,
        ),
        Occasion::Resumption => {
            continued_line(alloc, game, &players.white.name, &players.black.name, terms)
        }
    }
}

/// The players are viewers from the start, where nobody looks on yet.
fn add_players(feed: &mut Feed<Item>, seats: &Seats) -> Result<(), NoMemory>
    requires sessions { AllDiffer (sessions_seated seats.now) }
    requires nobody { feed.old.viewers ≡ [] }
    ensures { OnOk result (feed.new ≡ record feed.old { viewers = map from_start (seat_list seats.now) }) }
{
    add_pair(feed, &seats.first)?;
    if let Some(players) = &seats.second {
        add_pair(feed, players)?;
    }
    Ok(())
}

/// The two players of a board are viewers from the start.
fn add_pair(feed: &mut Feed<Item>, players: &Opponents) -> Result<(), NoMemory>
    requires white { is_viewer feed.old.viewers players.now.white.session ≡ false }
    requires black { is_viewer feed.old.viewers players.now.black.session ≡ false }
    requires two { players.now.white.session ≢ players.now.black.session }
    ensures { OnOk result (feed.new ≡ record feed.old {
      viewers = feed.old.viewers ++ from_start players.now.white ∷ from_start players.now.black ∷ [];
    }) }
{
    feed.begin(players.white.session, Backlog::FromStart)?;
    feed.begin(players.black.session, Backlog::FromStart)?;
    Ok(())
}

/// Nothing is offered in any of the seats.
fn no_offers(seats: &Seats) -> Offers
    ensures { result ≡ no_offers (length (seat_list seats.now)) }
{
    match &seats.second {
        None => Offers::new(2),
        Some(_) => Offers::new(4),
    }
}
