//! Lines that wait for a player.

use channel_feed::Waiting;
use fics_words::Line;
use std::alloc::Global;
use test_steps::first_wrong;

/// Texts of lines, in order.
type Texts = &'static [&'static [u8]];

/// A call of the lines that wait, and what it has to answer.
#[derive(Clone, Copy)]
enum Step {
    /// A line comes behind the others, and waits.
    Put(&'static [u8]),
    TakeBack,
    /// All are taken, which are these.
    TakeAll(Texts),
    Wait(Texts),
}

const TAKEN: &[Step] = &[
    Step::Put(b"first"),
    Step::Put(b"second"),
    Step::TakeAll(&[b"first", b"second"]),
    Step::Wait(&[]),
];

const TAKEN_BACK: &[Step] = &[
    Step::TakeBack,
    Step::Put(b"first"),
    Step::Put(b"second"),
    Step::TakeBack,
    Step::Wait(&[b"first"]),
];

fn waits(waiting: &mut Waiting, line: Line) -> bool {
    match waiting.push(line) {
        Ok(waits) => waits,
        Err(_) => false,
    }
}

/// Puts a line of this text behind the others, and says whether it waits now.
fn puts(alloc: Global, waiting: &mut Waiting, text: &[u8]) -> bool {
    match Line::read(alloc, text) {
        Ok(Some(line)) => waits(waiting, line),
        _ => false,
    }
}

fn takes_back(waiting: &mut Waiting) -> bool {
    waiting.take_back();
    true
}

fn have(lines: &[Line], texts: Texts) -> bool {
    if lines.len() != texts.len() {
        return false;
    }
    for (line, text) in lines.iter().zip(texts) {
        if line.bytes() != *text {
            return false;
        }
    }
    true
}

fn takes_all(waiting: &mut Waiting, texts: Texts) -> bool {
    let lines = waiting.take_all();
    have(&lines, texts)
}

fn is_as_said(alloc: Global, waiting: &mut Waiting, step: &Step) -> bool {
    match step {
        Step::Put(text) => puts(alloc, waiting, text),
        Step::TakeBack => takes_back(waiting),
        Step::TakeAll(texts) => takes_all(waiting, texts),
        Step::Wait(texts) => have(waiting.lines(), texts),
    }
}

fn first_failing(alloc: Global, waiting: &mut Waiting, steps: &[Step]) -> Option<usize> {
    first_wrong!(steps, |step| is_as_said(alloc, waiting, step))
}

/// The place of the first step that answers otherwise, if one does.
fn first_failing_anew(alloc: Global, steps: &[Step]) -> Option<usize> {
    let mut waiting = Waiting::new(alloc);
    first_failing(alloc, &mut waiting, steps)
}

#[test]
fn lines_wait_in_order(rt: HostRuntime) {
    assert_eq!(rt; first_failing_anew(rt.alloc(), TAKEN), None);
}

#[test]
fn the_last_line_is_taken_back(rt: HostRuntime) {
    assert_eq!(rt; first_failing_anew(rt.alloc(), TAKEN_BACK), None);
}

/// How many lines of one letter come to wait, where 520 are put.
fn count_of_waiting(alloc: Global, waiting: &mut Waiting) -> usize {
    let mut count = 0usize;
    for _ in 0..520 {
        if puts(alloc, waiting, b"a") {
            count = count.saturating_add(1);
        }
    }
    count
}

/// How many lines come to wait, and how many wait then.
fn counts_of_waiting(alloc: Global) -> (usize, usize) {
    let mut waiting = Waiting::new(alloc);
    let count = count_of_waiting(alloc, &mut waiting);
    (count, waiting.lines().len())
}

#[test]
fn more_than_512_lines_never_wait(rt: HostRuntime) {
    let (count, waiting) = counts_of_waiting(rt.alloc());
    assert_eq!(rt; count, 512);
    assert_eq!(rt; waiting, 512);
}
