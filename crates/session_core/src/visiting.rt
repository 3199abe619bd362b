//! The visits of a round: each game of the session is asked for its news.
ghost use Rattle.std.specs.Prelude.{◌≡◌, ◌++◌, ℕ, List, ◌∷◌, IfOk, OnErr, OnOk, true};
ghost use Rattle.one_server.specs.Replies.{IsReply};
ghost use Rattle.session_core.specs.Course.{Course};
ghost use Rattle.session_core.specs.Going.{Answered, BrokeOff, WentOn};
ghost use Rattle.session_core.specs.Memory.{MemoryState, has_entered, reader_in};
ghost use Rattle.session_core.specs.Session.{forgets, given_up, rounding, says_over, visits};
ghost use Rattle.session_core.specs.Stages.{kept_behind};
ghost use Rattle.session_core.specs.Texts.{news_text};
ghost use Rattle.session_asks.specs.declared.visit.Visit.{Visit};

use crate::game_acts::clear_at;
use crate::session_memory::SessionMemory;
use crate::texts::put_news;
use clock_ledger::Moment;
use memory::NoMemory;
use one_server::{Reply, Runner, answered};
use session_asks::{Visit, fetch_at, says_over};
use std::alloc::Global;

/// Visits the games that the session plays and those at which it looks on, all at `moment`, in milliseconds and at most
/// 2^48, and appends their news; where nothing more will come from a game it is given up.
pub(crate) fn visit_all<R: Runner>(
    alloc: Global,
    r: &mut R,
    moment: Moment,
    memory: &mut SessionMemory,
    out: &mut Vec<u8>,
) -> Result<(), NoMemory>
    requires inside { has_entered memory.old ≡ true }
    ensures home { R.home r.new ≡ R.home r.old }
    ensures followed { OnOk result (Answered (rounding memory.old) (λ text. text) moment
        (R.state r.old) out.old.items (R.state r.new) out.new.items memory.new) }
    ensures so_far { BrokeOff (rounding memory.old) moment (R.state r.old) memory.old (R.state r.new) memory.new }
{
    // What is known of every runner is known from here on.
    let _session = r.session();
    let mut rest = memory.visits();
    while let Some(visit) = rest.pop() {
        visit_game(alloc, r, moment, memory, &visit, out)?;
    }
    Ok(())
}

/// Visits a game.
fn visit_game<R: Runner>(
    alloc: Global,
    r: &mut R,
    moment: Moment,
    memory: &mut SessionMemory,
    visit: &Visit,
    out: &mut Vec<u8>,
) -> Result<(), NoMemory>
    requires { has_entered memory.old ≡ true }
    ensures home { R.home r.new ≡ R.home r.old }
    ensures went { (rest : List Visit) → OnOk result
        (WentOn (visits (visit.now ∷ rest) memory.old) (visits rest memory.new) moment
        (R.state r.old) memory.old out.old.items (R.state r.new) memory.new out.new.items) }
    ensures broke { (rest : List Visit) → OnErr result
        (BrokeOff (visits (visit.now ∷ rest) memory.old) moment (R.state r.old) memory.old (R.state r.new) memory.new) }
    ensures inside { has_entered memory.new ≡ true }
{
    let over = ask_news(alloc, r, moment, memory, visit, out)?;
    if !over {
        return Ok(());
    }
    give_up(alloc, r, moment, visit)
}

/// Asks a game for its news and appends them, and says whether nothing more will come: then it is still to be given up.
fn ask_news<R: Runner>(
    alloc: Global,
    r: &mut R,
    moment: Moment,
    memory: &mut SessionMemory,
    visit: &Visit,
    out: &mut Vec<u8>,
) -> Result<bool, NoMemory>
    requires { has_entered memory.old ≡ true }
    ensures home { R.home r.new ≡ R.home r.old }
    ensures went { (rest : List Visit) → IfOk result (λ over.
        WentOn (visits (visit.now ∷ rest) memory.old) (given_up visit.now over (visits rest memory.new)) moment
        (R.state r.old) memory.old out.old.items (R.state r.new) memory.new out.new.items) }
    ensures broke { (rest : List Visit) → OnErr result
        (BrokeOff (visits (visit.now ∷ rest) memory.old) moment (R.state r.old) memory.old (R.state r.new) memory.new) }
    ensures inside { has_entered memory.new ≡ true }
{
    let mut reply = Reply::blank();
    let act = fetch_at(visit.desk, visit.serial);
    r.run(alloc, moment, act, &mut reply)?;
    tell_news(visit, memory, &reply, out)
}

/// Gives up a game from which nothing more will come.
fn give_up<R: Runner>(
    alloc: Global,
    r: &mut R,
    moment: Moment,
    visit: &Visit,
) -> Result<(), NoMemory>
    ensures home { R.home r.new ≡ R.home r.old }
    ensures went { (rest : Course) (memory : MemoryState) (out : List ℕ) → has_entered memory ≡ true → OnOk result
        (WentOn (given_up visit.now true rest) rest moment (R.state r.old) memory out (R.state r.new) memory out) }
    ensures broke { (rest : Course) (memory : MemoryState) → OnErr result
        (BrokeOff (given_up visit.now true rest) moment (R.state r.old) memory (R.state r.new) memory) }
{
    let _cleared = answered(r, alloc, moment, clear_at(visit))?;
    Ok(())
}

/// Appends the news of a game, and says whether nothing more will come: then the session looks on there no longer.
fn tell_news(
    visit: &Visit,
    memory: &mut SessionMemory,
    reply: &Reply,
    out: &mut Vec<u8>,
) -> Result<bool, NoMemory>
    requires fits { IsReply reply.now }
    ensures over { IfOk result (λ over. over ≡ says_over reply.now) }
    ensures text { IfOk result (λ over. out.new.items
        ≡ out.old.items ++ news_text (reader_in memory.old visit.now.seat) reply.now) }
    ensures after { memory.new ≡ kept_behind visit.now result memory.old reply.now }
    ensures stands { memory.new.standing ≡ memory.old.standing }
{
    put_news(&memory.reader(visit.seat), reply, out)?;
    if says_over(reply) {
        forget(memory, visit);
        return Ok(true);
    }
    Ok(false)
}

/// Of a game that is given up the session remembers nothing: it looks on there no longer; of its places the lobby
/// tells.
fn forget(memory: &mut SessionMemory, visit: &Visit)
    ensures after { memory.new ≡ forgets visit.now.seat visit.now.desk memory.old }
    ensures stands { memory.new.standing ≡ memory.old.standing }
{
    match visit.seat {
        Some(_) => {}
        None => memory.unobserve(visit.desk),
    }
}
