//! What is counted of a history.

ghost use Rattle.std.specs.Prelude.{◌≡◌, count_by};
ghost use Rattle.cmd_demo.specs.Summary.{is_half_move, is_made, is_refused, is_start, refuses, starts};

use histories::Entry;
use linked_desk::{DeskAct, DeskReply};
use one_server::{Act, PairReply, Reply, Timed};

/// How many games started, by the entries of a history.
pub(crate) fn games(log: &[Entry<Timed, Reply>]) -> usize
    ensures { result ≡ count_by is_start log.now }
{
    let mut count = 0;
    for entry in log {
        if starts(&entry.reply) {
            count += 1;
        }
    }
    count
}

/// How many half-moves were made.
pub(crate) fn half_moves(log: &[Entry<Timed, Reply>]) -> usize
    ensures { result ≡ count_by is_made log.now }
{
    let mut count = 0;
    for entry in log {
        if is_half_move(&entry.act.act, &entry.reply) {
            count += 1;
        }
    }
    count
}

/// How many acts were refused.
pub(crate) fn refusals(log: &[Entry<Timed, Reply>]) -> usize
    ensures { result ≡ count_by is_refused log.now }
{
    let mut count = 0;
    for entry in log {
        if refuses(&entry.reply) {
            count += 1;
        }
    }
    count
}

/// Whether a game has started.
fn starts(reply: &Reply) -> bool
    ensures { result ≡ starts reply.now }
{
    matches!(reply, Reply::Pair(PairReply::Started))
}

/// Whether an act so answered is a half-move that was made.
fn is_half_move(act: &Act, reply: &Reply) -> bool
    ensures { result ≡ is_half_move act.now reply.now }
{
    match act {
        Act::Desk {
            act: DeskAct::Move { .. },
            ..
        } => matches!(reply, Reply::Desk(DeskReply::Done)),
        _ => false,
    }
}

/// Whether an act was refused.
fn refuses(reply: &Reply) -> bool
    ensures { result ≡ refuses reply.now }
{
    matches!(reply, Reply::Refused(_))
}
