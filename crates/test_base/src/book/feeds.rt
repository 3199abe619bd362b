//! A feed and its viewers: sessions 1 to 3, and items that are numbered from 0 in the order of adding.

use fics_words::{Fail, Refusal};
use memory::{Duplicate, NoMemory};
use observer_feed::{Backlog, Feed};
use std::alloc::Global;
use test_steps::first_wrong;

/// What is told, by its number.
#[derive(Drop)]
struct Said {
    number: u32,
}

impl Duplicate for Said {
    fn duplicate(&self) -> Result<Said, NoMemory> {
        Ok(Said {
            number: self.number,
        })
    }
}

/// What a call has to answer.
#[derive(Clone, Copy, PartialEq, Eq)]
enum Answer {
    Done,
    Refused(Refusal),
    NoMemory,
}

/// A call, and what it has to answer.
#[derive(Clone, Copy)]
enum Step {
    Add(u32),
    Watch(u32, Backlog, Answer),
    Unwatch(u32, Answer),
    Forget(u32),
    /// A session fetches the items from the first number on, up to the one before the second.
    Fetch(u32, u32, u32),
    FetchesNothing(u32, Answer),
    /// How many items a session hasn't been given then.
    Ahead(u32, usize),
    /// How many viewers there are then.
    Viewers(usize),
}

const STEPS: &[Step] = &[
    Step::FetchesNothing(1, Answer::Refused(Refusal::NotWatching)),
    Step::Watch(1, Backlog::FromNow, Answer::Done),
    Step::Watch(
        1,
        Backlog::FromStart,
        Answer::Refused(Refusal::AlreadyWatching),
    ),
    Step::Fetch(1, 0, 0),
    Step::Add(0),
    Step::Add(1),
    Step::Ahead(1, 2),
    // nothing is given twice
    Step::Fetch(1, 0, 2),
    Step::Fetch(1, 2, 2),
    Step::Watch(2, Backlog::FromStart, Answer::Done),
    Step::Watch(3, Backlog::FromNow, Answer::Done),
    Step::Add(2),
    Step::Fetch(2, 0, 3),
    Step::Fetch(3, 2, 3),
    Step::Ahead(1, 1),
    Step::Viewers(3),
    Step::Unwatch(2, Answer::Done),
    Step::Unwatch(2, Answer::Refused(Refusal::NotWatching)),
    Step::Ahead(2, 0),
    Step::Add(3),
    Step::FetchesNothing(2, Answer::Refused(Refusal::NotWatching)),
    // who comes again begins anew
    Step::Watch(2, Backlog::FromNow, Answer::Done),
    Step::Add(4),
    Step::Fetch(1, 2, 5),
    Step::Fetch(3, 3, 5),
    Step::Fetch(2, 4, 5),
    Step::Forget(3),
    Step::Forget(3),
    Step::Viewers(2),
];

fn answer_of(answer: Result<(), Fail>) -> Answer {
    match answer {
        Ok(()) => Answer::Done,
        Err(Fail::Refused(cause)) => Answer::Refused(cause),
        Err(Fail::Memory) => Answer::NoMemory,
    }
}

fn watched(feed: &mut Feed<Said>, session: u32, told: Backlog) -> Answer {
    answer_of(feed.watch(session, told))
}

fn unwatched(feed: &mut Feed<Said>, session: u32) -> Answer {
    match feed.unwatch(session) {
        Ok(()) => Answer::Done,
        Err(cause) => Answer::Refused(cause),
    }
}

fn adds(feed: &mut Feed<Said>, number: u32) -> bool {
    if feed.reserve(1).is_err() {
        return false;
    }
    feed.add(Said { number });
    true
}

fn forgets(feed: &mut Feed<Said>, session: u32) -> bool {
    feed.forget(session);
    true
}

/// Whether the items have the numbers from `first` on, up to the one before `end`.
fn are_from(items: &[Said], first: u32, end: u32) -> bool {
    let mut next = first;
    for item in items {
        if item.number != next {
            return false;
        }
        next = next.saturating_add(1);
    }
    next == end
}

fn fetches(feed: &mut Feed<Said>, session: u32, first: u32, end: u32) -> bool {
    match feed.since(session) {
        Ok(items) => are_from(items.as_slice(), first, end),
        Err(_) => false,
    }
}

fn fetches_nothing(feed: &mut Feed<Said>, session: u32, answer: Answer) -> bool {
    match feed.since(session) {
        Ok(_) => false,
        Err(cause) => answer_of(Err(cause)) == answer,
    }
}

fn is_as_expected(feed: &mut Feed<Said>, step: &Step) -> bool {
    match step {
        Step::Add(number) => adds(feed, *number),
        Step::Watch(session, told, answer) => watched(feed, *session, *told) == *answer,
        Step::Unwatch(session, answer) => unwatched(feed, *session) == *answer,
        Step::Forget(session) => forgets(feed, *session),
        Step::Fetch(session, first, end) => fetches(feed, *session, *first, *end),
        Step::FetchesNothing(session, answer) => fetches_nothing(feed, *session, *answer),
        Step::Ahead(session, count) => feed.ahead(*session).len() == *count,
        Step::Viewers(count) => feed.viewers() == *count,
    }
}

/// The place of the first step that answers otherwise, if one does.
fn first_failing(feed: &mut Feed<Said>) -> Option<usize> {
    first_wrong!(STEPS, |step| is_as_expected(feed, step))
}

fn first_failing_anew(alloc: Global) -> Option<usize> {
    let mut feed = Feed::new(alloc);
    first_failing(&mut feed)
}

#[test]
fn viewers_are_given_each_item_once(rt: HostRuntime) {
    assert_eq!(rt; first_failing_anew(rt.alloc()), None);
}
