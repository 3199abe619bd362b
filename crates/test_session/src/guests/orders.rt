//! What a guest types, drawn at random, and how it is typed.

use crate::guests::draws::Draws;
use crate::guests::names::name_of;
use memory::NoMemory;
use std::alloc::Global;

/// How many guests there are. The name behind the last one's is nobody's.
pub const GUESTS: usize = 40;

/// The terms that guests ask for, as they are typed and as lines have them.
pub const TERMS: [&str; 4] = [
    "5 0 chess",
    "3 2 crazyhouse",
    "2 12 chess white",
    "1 1 crazyhouse black",
];

/// A list of names.
#[derive(Clone, Copy, PartialEq, Eq)]
pub enum Names {
    Censor,
    Noplay,
}

/// A variable.
#[derive(Clone, Copy, PartialEq, Eq)]
pub enum Wish {
    Open,
    Shout,
    Seek,
}

/// What a guest types. Players are told by the places of their names, terms by their places above, and texts by
/// numbers.
#[derive(Clone, Copy)]
pub enum Order {
    Seek(usize),
    Unseek(Option<u64>),
    Sought,
    Who,
    Games,
    Tell(usize, u64),
    TellChannel(u64, u64),
    Shout(u64),
    Join(u64),
    Leave(u64),
    InChannel(u64),
    Match(usize, usize),
    Decline(Option<usize>),
    Withdraw(Option<usize>),
    Pending,
    Set(Wish, bool),
    Put(Names, usize),
    Take(Names, usize),
    Partner(Option<usize>),
    Ptell(u64),
    Nothing,
}

/// The next thing that a guest types.
pub fn drawn(draws: &mut Draws) -> Order {
    match draws.below(24) {
        0 => Order::Seek(terms(draws)),
        1 => Order::Unseek(number(draws)),
        2 => Order::Sought,
        3 => Order::Who,
        4 => Order::Games,
        5 => Order::TellChannel(draws.below(6), draws.below(90)),
        6 => Order::Shout(draws.below(90)),
        7 => Order::Join(draws.below(6)),
        8 => Order::Leave(draws.below(6)),
        9 => Order::InChannel(draws.below(6)),
        10 => Order::Decline(somebody(draws)),
        11 => Order::Withdraw(somebody(draws)),
        12 => Order::Pending,
        13 => Order::Put(either_list(draws), player(draws)),
        14 => Order::Take(either_list(draws), player(draws)),
        15 => Order::Partner(somebody(draws)),
        16 => Order::Ptell(draws.below(90)),
        17 => Order::Set(any_wish(draws), draws.below(3) > 0),
        18 => Order::Nothing,
        _ => aimed(draws),
    }
}

/// A tell, a challenge or an ask to one of few, so that these meet.
fn aimed(draws: &mut Draws) -> Order {
    match draws.below(4) {
        0 => Order::Tell(player(draws), draws.below(90)),
        1 => Order::Partner(Some(few(draws))),
        2 => Order::Put(either_list(draws), few(draws)),
        _ => Order::Match(few(draws), terms(draws)),
    }
}

fn few(draws: &mut Draws) -> usize {
    draws.below(7) as usize
}

fn terms(draws: &mut Draws) -> usize {
    draws.below(4) as usize
}

/// A guest, or nobody.
fn player(draws: &mut Draws) -> usize {
    draws.below(41) as usize
}

fn somebody(draws: &mut Draws) -> Option<usize> {
    if draws.below(3) == 0 {
        return None;
    }
    Some(few(draws))
}

fn number(draws: &mut Draws) -> Option<u64> {
    if draws.below(3) == 0 {
        return None;
    }
    Some(draws.below(20).saturating_add(1))
}

fn either_list(draws: &mut Draws) -> Names {
    if draws.below(2) == 0 {
        Names::Censor
    } else {
        Names::Noplay
    }
}

fn any_wish(draws: &mut Draws) -> Wish {
    match draws.below(3) {
        0 => Wish::Open,
        1 => Wish::Shout,
        _ => Wish::Seek,
    }
}

/// The line of what is typed.
pub fn typed(alloc: Global, order: Order) -> Result<String, NoMemory> {
    match order {
        Order::Seek(terms) => with_word(alloc, "seek", terms_of(terms)),
        Order::Unseek(None) => with_word(alloc, "unseek", ""),
        Order::Unseek(Some(number)) => with_number(alloc, "unseek", number),
        Order::Sought => with_word(alloc, "sought", ""),
        Order::Who => with_word(alloc, "who", ""),
        Order::Games => with_word(alloc, "games", ""),
        Order::Tell(player, text) => {
            let name = name_of(alloc, player)?;
            Ok(format!(in alloc; "tell {name} text {text}")?)
        }
        Order::TellChannel(channel, text) => Ok(format!(in alloc; "t {channel} text {text}")?),
        Order::Shout(text) => with_number(alloc, "shout text", text),
        Order::Join(channel) => with_number(alloc, "+channel", channel),
        Order::Leave(channel) => with_number(alloc, "-channel", channel),
        Order::InChannel(channel) => with_number(alloc, "inchannel", channel),
        Order::Match(player, terms) => {
            let name = name_of(alloc, player)?;
            let terms = terms_of(terms);
            Ok(format!(in alloc; "match {name} {terms}")?)
        }
        Order::Decline(player) => with_player(alloc, "decline", player),
        Order::Withdraw(player) => with_player(alloc, "withdraw", player),
        Order::Pending => with_word(alloc, "pending", ""),
        Order::Set(wish, on) => with_word(alloc, wish_word(wish), if on { "1" } else { "0" }),
        Order::Put(Names::Censor, player) => with_player(alloc, "+censor", Some(player)),
        Order::Put(Names::Noplay, player) => with_player(alloc, "+noplay", Some(player)),
        Order::Take(Names::Censor, player) => with_player(alloc, "-censor", Some(player)),
        Order::Take(Names::Noplay, player) => with_player(alloc, "-noplay", Some(player)),
        Order::Partner(player) => with_player(alloc, "partner", player),
        Order::Ptell(text) => with_number(alloc, "ptell text", text),
        Order::Nothing => with_word(alloc, "", ""),
    }
}

pub fn terms_of(terms: usize) -> &'static str {
    match TERMS.get(terms) {
        Some(words) => *words,
        None => "",
    }
}

fn wish_word(wish: Wish) -> &'static str {
    match wish {
        Wish::Open => "set open",
        Wish::Shout => "set shout",
        Wish::Seek => "set seek",
    }
}

fn with_word(alloc: Global, front: &str, word: &str) -> Result<String, NoMemory> {
    Ok(format!(in alloc; "{front} {word}")?)
}

fn with_number(alloc: Global, front: &str, number: u64) -> Result<String, NoMemory> {
    Ok(format!(in alloc; "{front} {number}")?)
}

fn with_player(alloc: Global, front: &str, player: Option<usize>) -> Result<String, NoMemory> {
    let Some(player) = player else {
        return with_word(alloc, front, "");
    };
    let name = name_of(alloc, player)?;
    Ok(format!(in alloc; "{front} {name}")?)
}
