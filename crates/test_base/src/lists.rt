//! Each call of the lists once where there is memory, with figures by hand: a list of cards goes through a table of
//! steps.
use collections::{Change, Listed, Predicate, Reserved, Roomy, find, position};
use memory::{Duplicate, NoMemory};
use std::alloc::Global;
use std::mem;
use std::test::Fail;
use test_steps::first_wrong;

#[derive(PartialEq, Eq, Drop)]
struct Card {
    number: u32,
}

impl Duplicate for Card {
    fn duplicate(&self) -> Result<Self, NoMemory> {
        Ok(Card {
            number: self.number,
        })
    }
}

#[derive(Clone, Copy)]
struct AtLeast(u32);

impl Predicate<Card> for AtLeast {
    ghost use Rattle.std.specs.Prelude.{nat_le};

    ghost passes = { λ least card. nat_le least.0 card.number };

    fn passes(&self, item: &Card) -> bool {
        self.0 <= item.number
    }
}

#[derive(Clone, Copy)]
struct Cleared;

impl Change<Card> for Cleared {
    ghost changed = { λ _ _. record { number = 0 } };

    fn change(&self, item: &mut Card) {
        item.number = 0;
    }
}

/// A call of a list, and what it has to answer or to leave. A list fails at a call that it doesn't have.
enum Step {
    Push(u32),
    Set(usize, u32),
    /// Keeps the cards from the number on.
    Keep(u32),
    Clear,
    /// The place of the first card from the number on.
    Position(u32, Option<usize>),
    /// The first card from the number on.
    Find(u32, Option<u32>),
    Remove(usize, u32),
    Pop(u32),
    /// All cards are taken, which are these; none is left.
    Take(&'static [u32]),
    Len(usize),
    Holds(&'static [u32]),
    /// The other list becomes a copy, which is equal, with the same room left.
    Copy,
    /// The other list is cut.
    TruncateOther(usize),
    OtherHolds(&'static [u32]),
    /// The cards of the other list come behind the own ones, and it is left with none.
    Append,
    Full(bool),
    Reserve(usize),
    Room(usize),
}

fn numbered(number: u32) -> Card {
    Card { number }
}

/// Whether the cards have these numbers.
fn have(cards: &[Card], numbers: &[u32]) -> bool {
    if cards.len() != numbers.len() {
        return false;
    }
    for (card, number) in cards.iter().zip(numbers) {
        if card.number != *number {
            return false;
        }
    }
    true
}

fn has(card: Option<&Card>, number: Option<u32>) -> bool {
    match (card, number) {
        (Some(card), Some(number)) => card.number == number,
        (None, None) => true,
        _ => false,
    }
}

fn was(card: Option<Card>, number: u32) -> bool {
    match card {
        Some(card) => card.number == number,
        None => false,
    }
}

fn sets(cards: &mut Listed<Card>, place: usize, number: u32) -> bool {
    if place >= cards.len() {
        return false;
    }
    *cards.item_mut(place) = numbered(number);
    true
}

fn removes(cards: &mut Listed<Card>, place: usize, number: u32) -> bool {
    place < cards.len() && cards.remove(place).number == number
}

fn takes(cards: &mut Listed<Card>, numbers: &[u32]) -> bool {
    let all = cards.take();
    cards.is_empty() && have(&all, numbers)
}

fn copies(cards: &Listed<Card>, other: &mut Listed<Card>) -> bool {
    match cards.duplicate() {
        Ok(copy) => drop(mem::replace(other, copy)),
        Err(_) => return false,
    }
    *other == *cards
}

/// What changes the list, or both.
fn changes(cards: &mut Listed<Card>, other: &mut Listed<Card>, step: &Step) -> bool {
    match step {
        Step::Keep(least) => cards.retain(&AtLeast(*least)),
        Step::Clear => cards.change_each(&Cleared),
        Step::TruncateOther(count) => other.truncate(*count),
        Step::Append => return cards.append(other).is_ok() && other.is_empty(),
        _ => return false,
    }
    true
}

fn is_as_said(cards: &mut Listed<Card>, other: &mut Listed<Card>, step: &Step) -> bool {
    match step {
        Step::Push(number) => cards.push(numbered(*number)).is_ok(),
        Step::Set(place, number) => sets(cards, *place, *number),
        Step::Position(least, place) => position(cards, &AtLeast(*least)) == *place,
        Step::Find(least, number) => has(find(cards, &AtLeast(*least)), *number),
        Step::Remove(place, number) => removes(cards, *place, *number),
        Step::Pop(number) => was(cards.pop(), *number),
        Step::Take(numbers) => takes(cards, numbers),
        Step::Len(count) => cards.len() == *count,
        Step::Holds(numbers) => have(cards, numbers),
        Step::Copy => copies(cards, other),
        Step::OtherHolds(numbers) => have(other, numbers),
        _ => changes(cards, other, step),
    }
}

/// The place of the first step at which the lists go otherwise, if they do.
fn first_wrong_of(
    cards: &mut Listed<Card>,
    other: &mut Listed<Card>,
    steps: &[Step],
) -> Option<usize> {
    first_wrong!(steps, |step| is_as_said(cards, other, step))
}

fn first_wrong_anew(alloc: Global, steps: &[Step]) -> Option<usize> {
    let mut cards = Listed::new(alloc);
    let mut other = Listed::new(alloc);
    first_wrong_of(&mut cards, &mut other, steps)
}

const GROWN: &[Step] = &[
    Step::Push(5),
    Step::Push(2),
    Step::Push(9),
    Step::Holds(&[5, 2, 9]),
    Step::Position(6, Some(2)),
    Step::Position(4, Some(0)),
    Step::Position(10, None),
    Step::Find(3, Some(5)),
    Step::Find(10, None),
    Step::Len(3),
    Step::Set(1, 7),
    Step::Holds(&[5, 7, 9]),
    Step::Copy,
    Step::Len(3),
    Step::Remove(0, 5),
    Step::Pop(9),
    Step::Holds(&[7]),
    Step::OtherHolds(&[5, 7, 9]),
];

#[test]
fn a_list_grows_and_is_looked_up(rt: HostRuntime) {
    assert_eq!(rt; first_wrong_anew(rt.alloc(), GROWN), None);
}

const JOINED: &[Step] = &[
    Step::Push(5),
    Step::Push(2),
    Step::Push(9),
    Step::Copy,
    Step::Keep(5),
    Step::Holds(&[5, 9]),
    Step::TruncateOther(2),
    Step::Append,
    Step::Holds(&[5, 9, 5, 2]),
    Step::Clear,
    Step::Take(&[0, 0, 0, 0]),
];

#[test]
fn a_list_is_kept_changed_joined_and_taken(rt: HostRuntime) {
    assert_eq!(rt; first_wrong_anew(rt.alloc(), JOINED), None);
}

fn fills(cards: &mut Roomy<Card, 3>, number: u32) -> bool {
    if cards.len() >= 3 {
        return false;
    }
    cards.push(numbered(number));
    true
}

fn keeps_of_full(cards: &mut Roomy<Card, 3>, least: u32) -> bool {
    cards.retain(&AtLeast(least));
    true
}

fn is_twin_of_full(cards: &Roomy<Card, 3>) -> bool {
    match cards.duplicate() {
        Ok(copy) => copy == *cards && copy.is_full() == cards.is_full(),
        Err(_) => false,
    }
}

fn empties(cards: &mut Roomy<Card, 3>, numbers: &[u32]) -> bool {
    match cards.take() {
        Ok(taken) => cards.is_empty() && have(&taken, numbers),
        Err(_) => false,
    }
}

fn is_roomy_as_said(cards: &mut Roomy<Card, 3>, step: &Step) -> bool {
    match step {
        Step::Push(number) => fills(cards, *number),
        Step::Full(is_full) => cards.is_full() == *is_full,
        Step::Holds(numbers) => have(cards, numbers),
        Step::Copy => is_twin_of_full(cards),
        Step::Keep(least) => keeps_of_full(cards, *least),
        Step::Pop(number) => was(cards.pop(), *number),
        Step::Len(count) => cards.len() == *count,
        Step::Take(numbers) => empties(cards, numbers),
        _ => false,
    }
}

fn first_wrong_of_roomy(cards: &mut Roomy<Card, 3>) -> Option<usize> {
    first_wrong!(FILLED, |step| is_roomy_as_said(cards, step))
}

fn first_wrong_roomy(alloc: Global) -> Result<Option<usize>, NoMemory> {
    let mut cards = Roomy::new(alloc)?;
    Ok(first_wrong_of_roomy(&mut cards))
}

const FILLED: &[Step] = &[
    Step::Push(5),
    Step::Push(2),
    Step::Full(false),
    Step::Push(9),
    Step::Full(true),
    Step::Holds(&[5, 2, 9]),
    Step::Copy,
    Step::Keep(5),
    Step::Pop(9),
    Step::Len(1),
    Step::Take(&[5]),
];

#[test]
fn a_roomy_list_fills(rt: HostRuntime) -> Result<(), Fail> {
    assert_eq!(rt; first_wrong_roomy(rt.alloc())?, None);
    Ok(())
}

fn uses_room(cards: &mut Reserved<Card>, number: u32) -> bool {
    if cards.room() == 0 {
        return false;
    }
    cards.push(numbered(number));
    true
}

fn removes_reserved(cards: &mut Reserved<Card>, place: usize, number: u32) -> bool {
    place < cards.len() && cards.remove(place).number == number
}

fn clears_reserved(cards: &mut Reserved<Card>) -> bool {
    cards.change_each(&Cleared);
    true
}

fn is_twin_of_reserved(cards: &Reserved<Card>) -> bool {
    match cards.duplicate() {
        Ok(copy) => copy.as_slice() == cards.as_slice() && copy.room() == cards.room(),
        Err(_) => false,
    }
}

fn takes_reserved(cards: &mut Reserved<Card>, numbers: &[u32]) -> bool {
    let taken = cards.take();
    cards.is_empty() && have(&taken, numbers)
}

fn is_reserved_as_said(cards: &mut Reserved<Card>, step: &Step) -> bool {
    match step {
        Step::Room(room) => cards.room() == *room,
        Step::Reserve(more) => cards.reserve(*more).is_ok(),
        Step::Push(number) => uses_room(cards, *number),
        Step::Holds(numbers) => have(cards, numbers),
        Step::Copy => is_twin_of_reserved(cards),
        Step::Remove(place, number) => removes_reserved(cards, *place, *number),
        Step::Clear => clears_reserved(cards),
        Step::Take(numbers) => takes_reserved(cards, numbers),
        _ => false,
    }
}

fn first_wrong_of_reserved(cards: &mut Reserved<Card>) -> Option<usize> {
    first_wrong!(USED_UP, |step| is_reserved_as_said(cards, step))
}

fn first_wrong_reserved(alloc: Global) -> Option<usize> {
    let mut cards = Reserved::new(alloc);
    first_wrong_of_reserved(&mut cards)
}

const USED_UP: &[Step] = &[
    Step::Room(0),
    Step::Reserve(3),
    Step::Push(5),
    Step::Push(2),
    Step::Room(1),
    Step::Reserve(2),
    Step::Room(2),
    Step::Reserve(1),
    Step::Room(2),
    Step::Push(9),
    Step::Holds(&[5, 2, 9]),
    Step::Room(1),
    Step::Copy,
    Step::Remove(1, 2),
    Step::Clear,
    Step::Take(&[0, 0]),
    Step::Room(0),
];

#[test]
fn reserved_room_is_used_up(rt: HostRuntime) {
    assert_eq!(rt; first_wrong_reserved(rt.alloc()), None);
}
