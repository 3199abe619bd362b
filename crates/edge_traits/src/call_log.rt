//! The calls that a keeper had.

use crate::keeper::Kept;
use std::marker::Model;
use std::snapshot::Snapshot;

/// What a keeper is asked to do.
#[derive(Clone, Copy)]
pub enum Request {
    Load,
    Put,
    Remove,
}

/// A call of a keeper: what it was asked to do, and what became of that.
#[derive(Clone, Copy)]
pub struct Note {
    pub request: Request,
    pub answer: Kept,
}

/// The calls so far, the last one outermost.
#[derive(Drop)]
enum Past {
    None,
    Then(Snapshot<Past>, Note),
}

/// The calls that a keeper had, each with its answer, from the first one on. Contracts alone see them all: at run time
/// it holds the last one, so noting a call takes no memory and can't fail.
#[derive(Drop)]
pub struct CallLog {
    past: Past,
}

impl Model for CallLog {
    ghost use Rattle.std.specs.Prelude.{List};
    ghost use Rattle.edge_traits.specs.declared.call_log.Note.{Note};
    ghost use Rattle.edge_traits.specs.CallLog.{notes_in};

    ghost Value = { List Note };

    ghost view = { λ log. notes_in log.past };
}

impl CallLog {
    ghost use Rattle.std.specs.Prelude.{◌≡◌, []};
    ghost use Rattle.edge_traits.specs.Calls.{noted};

    /// No call yet.
    pub fn new() -> CallLog
        ensures { result ≡ [] }
    {
        CallLog { past: Past::None }
    }

    /// Notes one more call, and gives its answer.
    pub fn note(&mut self, request: Request, answer: Kept) -> Kept
        ensures answer { result ≡ answer }
        ensures noted { self.new ≡ noted self.old request answer }
    {
        let before = Snapshot::of(&self.past);
        self.past = Past::Then(before, Note { request, answer });
        answer
    }
}
