//! Channels and lists of names.

use channel_feed::{Channels, NameList};
use fics_words::{Fail, Handle, Refusal};
use std::alloc::Global;
use test_steps::first_wrong;

/// What a call has to answer: nothing where it is done, and else the refusal; `TooLong` stands for want of memory.
type Answer = Option<Refusal>;

/// A call of a player, and what it has to answer.
#[derive(Clone, Copy)]
enum Step {
    Join(u32, u8, Answer),
    Leave(u32, u8, Answer),
    Forget(u32),
    Has(u32, u8, bool),
}

const STEPS: &[Step] = &[
    Step::Has(1, 0, false),
    Step::Join(1, 0, None),
    Step::Join(1, 0, Some(Refusal::OnList)),
    Step::Join(2, 0, None),
    Step::Join(1, 255, None),
    Step::Leave(1, 7, Some(Refusal::NotInChannel)),
    Step::Leave(1, 0, None),
    Step::Leave(1, 0, Some(Refusal::NotInChannel)),
    Step::Has(1, 0, false),
    Step::Has(1, 255, true),
    Step::Has(2, 0, true),
    Step::Forget(1),
    Step::Has(1, 255, false),
    Step::Has(2, 0, true),
];

fn cause_of(answer: Result<(), Fail>) -> Answer {
    match answer {
        Ok(()) => None,
        Err(Fail::Refused(cause)) => Some(cause),
        Err(Fail::Memory) => Some(Refusal::TooLong),
    }
}

fn joined(channels: &mut Channels, who: u32, channel: u8) -> Answer {
    cause_of(channels.join(who, channel))
}

fn left(channels: &mut Channels, who: u32, channel: u8) -> Answer {
    match channels.leave(who, channel) {
        Ok(()) => None,
        Err(cause) => Some(cause),
    }
}

fn forgets(channels: &mut Channels, who: u32) -> bool {
    channels.forget(who);
    true
}

fn is_as_expected(channels: &mut Channels, step: &Step) -> bool {
    match step {
        Step::Join(who, channel, answer) => joined(channels, *who, *channel) == *answer,
        Step::Leave(who, channel, answer) => left(channels, *who, *channel) == *answer,
        Step::Forget(who) => forgets(channels, *who),
        Step::Has(who, channel, is_in) => channels.has(*who, *channel) == *is_in,
    }
}

/// The place of the first step that answers otherwise, if one does.
fn first_failing(channels: &mut Channels) -> Option<usize> {
    first_wrong!(STEPS, |step| is_as_expected(channels, step))
}

fn first_failing_anew(alloc: Global) -> Option<usize> {
    let mut channels = Channels::new(alloc);
    first_failing(&mut channels)
}

#[test]
fn players_come_and_go(rt: HostRuntime) {
    assert_eq!(rt; first_failing_anew(rt.alloc()), None);
}

/// The channel, from 0 on, at which the list of a player is full who joins one after the other.
fn first_full(channels: &mut Channels) -> Option<u8> {
    for channel in 0..30 {
        let answer = joined(channels, 1, channel);
        if answer.is_some() {
            return is_full(answer).then_some(channel);
        }
    }
    None
}

fn is_full(answer: Answer) -> bool {
    matches!(answer, Some(Refusal::ListFull))
}

/// The channel at which the list of a player is full, where the one before it is on the list.
fn first_full_anew(alloc: Global) -> Option<u8> {
    let mut channels = Channels::new(alloc);
    let full = first_full(&mut channels);
    if channels.has(1, 19) { full } else { None }
}

#[test]
fn twenty_channels_are_the_most(rt: HostRuntime) {
    assert_eq!(rt; first_full_anew(rt.alloc()), Some(20));
}

/// A call of a list of names, and what it has to answer.
#[derive(Clone, Copy)]
enum NameStep {
    /// The handle of this number is added.
    Add(u8, Answer),
    Remove(&'static [u8], Answer),
}

const NAME_STEPS: &[NameStep] = &[
    NameStep::Add(0, None),
    NameStep::Add(0, Some(Refusal::OnList)),
    NameStep::Remove(b"AaX", None),
    NameStep::Remove(b"aax", Some(Refusal::NotOnList)),
];

/// Adds a handle of three letters for each number below 676.
fn added(names: &mut NameList, n: u8) -> Answer {
    match Handle::read(&[b'a' + n / 26, b'a' + n % 26, b'x']) {
        Some(name) => cause_of(names.add(name.key())),
        None => Some(Refusal::BadHandle),
    }
}

fn removed(names: &mut NameList, letters: &[u8]) -> Answer {
    let Some(name) = Handle::read(letters) else {
        return Some(Refusal::BadHandle);
    };
    match names.remove(name.key()) {
        Ok(()) => None,
        Err(cause) => Some(cause),
    }
}

/// The number, from 0 on, of the name at which a list is full.
fn first_name_too_many(names: &mut NameList) -> Option<u8> {
    for n in 0..120 {
        let answer = added(names, n);
        if answer.is_some() {
            return is_full(answer).then_some(n);
        }
    }
    None
}

fn first_name_too_many_anew(alloc: Global) -> Option<u8> {
    let mut names = NameList::new(alloc);
    first_name_too_many(&mut names)
}

#[test]
fn a_hundred_names_are_the_most(rt: HostRuntime) {
    assert_eq!(rt; first_name_too_many_anew(rt.alloc()), Some(100));
}

fn is_name_as_expected(names: &mut NameList, step: &NameStep) -> bool {
    match step {
        NameStep::Add(n, answer) => added(names, *n) == *answer,
        NameStep::Remove(letters, answer) => removed(names, letters) == *answer,
    }
}

fn first_name_failing(names: &mut NameList) -> Option<usize> {
    first_wrong!(NAME_STEPS, |step| is_name_as_expected(names, step))
}

fn first_name_failing_anew(alloc: Global) -> Option<usize> {
    let mut names = NameList::new(alloc);
    first_name_failing(&mut names)
}

#[test]
fn names_know_no_capitals(rt: HostRuntime) {
    assert_eq!(rt; first_name_failing_anew(rt.alloc()), None);
}
