//! Whether two replies are the same, item by item.

use linked_desk::DeskReply;
use lobby_state::{DeskInUse, LobbyReply, Place};
use one_server::Reply;
use style12_writer::Item;
use test_server_steps::of_pair;

/// Whether two replies are the same.
pub fn is_same(one: &Reply, other: &Reply) -> bool {
    match one {
        Reply::Refused(cause) => match other {
            Reply::Refused(another) => cause.number() == another.number(),
            _ => false,
        },
        Reply::Lobby(answer) => match other {
            Reply::Lobby(another) => is_same_in_lobby(answer, another),
            _ => false,
        },
        Reply::Desk(answer) => match other {
            Reply::Desk(another) => is_same_at_desk(answer, another),
            _ => false,
        },
        Reply::Pair(answer) => match other {
            Reply::Pair(another) => of_pair(*answer) == of_pair(*another),
            _ => false,
        },
    }
}

fn is_same_in_lobby(one: &LobbyReply, other: &LobbyReply) -> bool {
    match (one, other) {
        (LobbyReply::Done, LobbyReply::Done) => true,
        (LobbyReply::NeedPassword, LobbyReply::NeedPassword) => true,
        (LobbyReply::Asked, LobbyReply::Asked) => true,
        (LobbyReply::Entered(name), LobbyReply::Entered(another)) => name == another,
        (LobbyReply::Number(number), LobbyReply::Number(another)) => number == another,
        (LobbyReply::Told(count), LobbyReply::Told(another)) => count == another,
        (LobbyReply::Lines(lines), LobbyReply::Lines(others)) => lines == others,
        (LobbyReply::Desks(desks), LobbyReply::Desks(others)) => {
            are_same_desks(desks.as_slice(), others.as_slice())
        }
        (LobbyReply::Orders(orders), LobbyReply::Orders(others)) => orders == others,
        _ => is_same_place(one, other),
    }
}

/// Whether two replies tell the same places.
fn is_same_place(one: &LobbyReply, other: &LobbyReply) -> bool {
    match (one, other) {
        (LobbyReply::Found(place), LobbyReply::Found(another)) => is_same_seat(place, another),
        (LobbyReply::Places(places), LobbyReply::Places(others)) => places == others,
        (
            LobbyReply::Waiting { lines, places },
            LobbyReply::Waiting {
                lines: others,
                places: another,
            },
        ) => lines == others && places == another,
        _ => false,
    }
}

/// Whether two places are one seat of one game.
fn is_same_seat(one: &Place, other: &Place) -> bool {
    one.desk.get() == other.desk.get() && one.serial == other.serial && one.seat == other.seat
}

/// Whether two lists of desks in use are the same.
fn are_same_desks(desks: &[DeskInUse], others: &[DeskInUse]) -> bool {
    for (place, row) in desks.iter().enumerate() {
        let Some(other) = others.get(place) else {
            return false;
        };
        if row.desk.get() != other.desk.get() || row.serial != other.serial {
            return false;
        }
    }
    desks.len() == others.len()
}

fn is_same_at_desk(one: &DeskReply, other: &DeskReply) -> bool {
    match one {
        DeskReply::Done => match other {
            DeskReply::Done => true,
            DeskReply::Items { .. } => false,
        },
        DeskReply::Items { items, over } => match other {
            DeskReply::Done => false,
            DeskReply::Items {
                items: others,
                over: another,
            } => over == another && are_same(items.as_slice(), others.as_slice()),
        },
    }
}

fn are_same(items: &[Item], others: &[Item]) -> bool {
    for (place, item) in items.iter().enumerate() {
        let Some(other) = others.get(place) else {
            return false;
        };
        if !is_same_item(item, other) {
            return false;
        }
    }
    items.len() == others.len()
}

fn is_same_item(one: &Item, other: &Item) -> bool {
    match one {
        Item::Board(view) => match other {
            Item::Board(another) => view == another,
            _ => false,
        },
        Item::Hold {
            game,
            white,
            black,
            came,
        } => match other {
            Item::Hold {
                game: number,
                white: first,
                black: second,
                came: comer,
            } => game == number && white == first && black == second && came == comer,
            _ => false,
        },
        Item::Talk(line) => match other {
            Item::Talk(another) => line == another,
            _ => false,
        },
        Item::End {
            view,
            winner,
            own,
            ..
        } => match other {
            Item::End {
                view: sight,
                winner: victor,
                own: here,
                ..
            } => view == sight && winner == victor && own == here,
            _ => false,
        },
    }
}
