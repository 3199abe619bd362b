//! The parts behind their turns.

ghost use Rattle.std.specs.Prelude.{◌≡◌, ◌≢◌, ℕ, ◌-◌, ◌^◌, ◌<◌, ◌≤◌, [], Some, slice_get, vec_len, IfOk, IfNone, IfSome, OnSome};
ghost use Rattle.std.specs.declared.option.Option.{Option};
ghost use Rattle.histories.specs.History.{IsPrefix, calls_of, state, Legal};
ghost use Rattle.turn_table.specs.declared.view.Joined.{Joined};
ghost use Rattle.turn_table.specs.Views.{In, Holds, HoldsState, Looks, Knows, looked, begun, taken_out, tried, AllOut, done, given_back, divided, split_from, joined_with, new_view};
ghost use Rattle.turn_table.specs.Passes.{busy_more, with_busy, AllJoined, Committed};

use crate::law::{Joining, Law, Opening, Slot, Splitting};
use crate::pass::Pass;
use crate::view::View;
use crate::{edges, patience, steps};
use atomic_table::Table;
use histories::Served;
use memory::NoMemory;
use std::alloc::Global;
use std::marker::{Brand, Model};
use std::snapshot::Snapshot;
use std::sync::Wait;
use std::thread;
use std::time::Duration;

/// What the word of a turn shows while a pass has it.
const TAKEN: u32 = 1;

/// The parts of a server, each behind a turn. Contracts see which table it is.
#[derive(Drop)]
pub struct Turns<S: Served> {
    table: Table<Slot<S>, View<S::Part, S::Act, S::Reply>, Opening<S>, Law<S>, Global>,
    room: Vec<S::Part>,
}

impl<S: Served> Model for Turns<S> {
    ghost use Rattle.std.specs.Prelude.{◌≡◌, ◌+◌, ◌≤◌, [], length, vec_capacity};
    ghost use Rattle.atomic_table.specs.Seated.{TableId, table_id_coded};

    ghost Value = { TableId };

    ghost coded = { table_id_coded };

    ghost view = { λ t. t.table.shared.table_id };

    ghost invariant = { λ t. (t.table.shared.table_id.words ≡ t.table.shared.table_id.slots + 1)
        × (length t.table.shared.key.value.items ≡ t.table.shared.table_id.slots) × (t.room.items ≡ [])
        × (t.table.shared.table_id.slots ≤ vec_capacity t.room) };
}

impl<S: Served> Turns<S> {
    /// Puts parts behind turns, and gives the first pass. There are 1 to 255 parts. Answers `NoMemory` when out of
    /// memory alone; no other call of a table takes memory.
    pub fn new(alloc: Global, parts: Vec<S::Part>) -> Result<(Turns<S>, Pass<S>), NoMemory>
        requires some { 0 < vec_len parts }
        requires few { vec_len parts ≤ 255 }
        requires whole { S.core.whole parts.items }
        ensures here { IfOk result (λ t. t.1.home ≡ t.0) }
        ensures opens { IfOk result (λ t. t.1.view ≡ new_view parts.items) }
    {
        let told = Snapshot::of(&parts);
        let count = parts.len();
        let room = Vec::with_capacity(alloc, count)?;
        let slots = edges::filled(alloc, parts)?;
        let words = edges::zeros();
        let (table, seat) = edges::opened::<S>(alloc, &words[..count + 1], slots, &told)?;
        let turns = Turns { table, room };
        let pass = Pass {
            seat,
            number: 0,
            splits: 0,
            last: 0,
            before: 0,
        };
        Ok((turns, pass))
    }

    /// Looks at the history: the pass then sees all of it so far, and nothing else changes. It begins with what the
    /// pass had seen, and each part that the pass holds is its state's. It is legal; it has as the pass's own entries
    /// the calls that it made, and as the entries of each pass that was joined into it that one's calls. Seen by the
    /// first pass, it has no entry of a number that wasn't split: once all are joined, it has none but the calls of
    /// these passes.
    pub fn look(&self, pass: &mut Pass<S>)
        requires here { pass.old.home ≡ self.now }
        ensures here { pass.new.home ≡ pass.old.home }
        ensures looked { pass.new.view ≡ looked pass.old.view pass.new.view.seen }
        ensures seen { Looks S.core pass.old.view pass.new.view.seen }
        ensures held { HoldsState S.core pass.new.view }
    {
        let count = self.table.slot_count();
        steps::look::<S>(&self.table.shared, &mut pass.seat, count);
    }

    /// Begins an act: the pass sees the history so far, and may take the act's first part. It holds no part, and an act
    /// that was begun before it and not committed is forgotten.
    pub fn begin(&self, pass: &mut Pass<S>, act: &S::Act)
        requires here { pass.old.home ≡ self.now }
        requires idle { pass.old.view.held ≡ [] }
        requires fits { S.core.fits act.now }
        ensures here { pass.new.home ≡ pass.old.home }
        ensures begun { pass.new.view ≡ begun S.core pass.old.view act.now pass.new.view.seen }
        ensures seen { Looks S.core pass.old.view pass.new.view.seen }
    {
        let count = self.table.slot_count();
        steps::begin::<S, Brand>(&self.table.shared, &mut pass.seat, count, act);
    }

    /// Tries the turn of a part once, and gives the part where the turn was free. None says that the turn word was 1 at
    /// the step of this try, which the list of busy tries then shows. The part is one that the act has, that isn't held
    /// and wasn't given back in this act.
    pub fn try_take(&self, pass: &mut Pass<S>, part: u8) -> Option<S::Part>
        requires here { pass.old.home ≡ self.now }
        requires may { In part pass.old.view.may }
        requires not_held { Holds pass.old.view part → ⊥ }
        ensures here { pass.new.home ≡ pass.old.home }
        ensures busy { IfNone result (pass.new.view ≡ tried pass.old.view part) }
        ensures taken { IfSome result (λ p. pass.new.view ≡ taken_out S.core pass.old.view part p pass.new.view.seen) }
        ensures seen { OnSome result (Looks S.core pass.old.view pass.new.view.seen) }
        ensures value { IfSome result (λ p. slice_get (state S.core pass.old.view.opening pass.new.view.seen) part
            ≡ Some p) }
        ensures held { OnSome result (HoldsState S.core pass.new.view) }
    {
        let value = steps::try_take::<S>(&self.table.shared, &mut pass.seat, part as usize)?;
        pass.before = pass.last;
        pass.last = part;
        Some(value)
    }

    /// Takes a part: tries until its turn is free, on the conditions of `try_take`. It may wait for ever.
    pub fn take<R: Wait>(&self, rt: &R, pass: &mut Pass<S>, part: u8) -> S::Part
        requires here { pass.old.home ≡ self.now }
        requires may { In part pass.old.view.may }
        requires not_held { Holds pass.old.view part → ⊥ }
        ensures here { pass.new.home ≡ pass.old.home }
        ensures taken { pass.new.view ≡ with_busy pass.new.view.busy
            (taken_out S.core pass.old.view part result pass.new.view.seen) }
        ensures tries { (n : ℕ) × (pass.new.view.busy ≡ busy_more n part pass.old.view.busy) }
        ensures seen { Looks S.core pass.old.view pass.new.view.seen }
        ensures value { slice_get (state S.core pass.old.view.opening pass.new.view.seen) part ≡ Some result }
        ensures held { HoldsState S.core pass.new.view }
    {
        let mut tries: u32 = 0;
        for _ in rt.forever() {
            if let Some(value) = self.try_take(pass, part) {
                return value;
            }
            if let Some(sleep) = self.rest(pass, part, tries) {
                self.table
                    .shared
                    .park_timeout(rt, part as usize, TAKEN, sleep);
            }
            tries = tries.saturating_add(1);
        }
        unreachable!()
    }

    /// Lets some time go by after so many tries in vain of a part's turn: looks at the turn's word at first, and then
    /// gives the processor up. Answers how long the pass may sleep, once it has tried for long.
    fn rest(&self, pass: &Pass<S>, part: u8, tries: u32) -> Option<Duration>
        requires here { pass.now.home ≡ self.now }
        requires may { In part pass.now.view.may }
        ensures there { part < self.now.words }
    {
        // What holds of every pass is known from here on.
        let _number = pass.number;
        let sleep = patience::sleep_after(tries);
        if tries == 0 {
            patience::watch::<S>(&self.table.shared, part as usize);
        } else if sleep.is_none() {
            thread::yield_now();
        }
        sleep
    }

    /// Commits the act in flight: it becomes one entry of the history, the last that the pass then sees. All its parts
    /// are out, and it wasn't committed before.
    pub fn commit(&self, pass: &mut Pass<S>)
        requires here { pass.old.home ≡ self.now }
        requires out { (a : S.Act) × (p : S.Part) × (o : Option S.Part) × AllOut S.core pass.old.view a p o }
        ensures here { pass.new.home ≡ pass.old.home }
        ensures done { (a : S.Act) (p : S.Part) (o : Option S.Part) → AllOut S.core pass.old.view a p o
            → Committed S.core pass.old.view a p o pass.new.view }
    {
        let count = self.table.slot_count();
        steps::commit::<S>(&self.table.shared, &mut pass.seat, count);
    }

    /// Gives a part back, with its turn. The value is the one that the view names: the part as it was taken, or after
    /// the commit the one that the act leaves.
    pub fn give(&self, pass: &mut Pass<S>, part: u8, value: S::Part)
        requires here { pass.old.home ≡ self.now }
        requires named { In (part, value) pass.old.view.held }
        ensures here { pass.new.home ≡ pass.old.home }
        ensures given { pass.new.view ≡ given_back pass.old.view part }
    {
        let next = steps::bring::<S>(&mut pass.seat, pass.last, pass.before, part);
        pass.last = next;
        steps::give::<S>(&self.table.shared, &mut pass.seat, part as usize, value);
    }

    /// Splits a new pass from the first one, fewer than 2^32 - 1 times. It has seen as much, which is legal, and made
    /// nothing: there is no entry of its own in what it has seen.
    pub fn split(&self, pass: &mut Pass<S>) -> Pass<S>
        requires here { pass.old.home ≡ self.now }
        requires first { pass.old.view.number ≡ 0 }
        requires room { pass.old.view.splits < 2 ^ 32 - 1 }
        ensures here { (pass.new.home ≡ pass.old.home) × (result.home ≡ pass.old.home) }
        ensures counted { pass.new.view ≡ divided pass.old.view }
        ensures new { result.view ≡ split_from pass.old.view }
        ensures legal { Legal S.core result.view.opening result.view.seen }
        ensures no_entry { calls_of result.view.number result.view.seen ≡ [] }
    {
        pass.splits += 1;
        let seat = self.table.shared.split_seat::<Splitting>(&mut pass.seat);
        Pass {
            seat,
            number: pass.splits,
            splits: 0,
            last: 0,
            before: 0,
        }
    }

    /// Joins another pass into this one, which keeps its number and its calls, and looks at the history, which begins
    /// with what either of the two had seen. Neither holds a part, and the other isn't the first pass.
    pub fn join(&self, pass: &mut Pass<S>, other: Pass<S>)
        requires here { (pass.old.home ≡ self.now) × (other.home ≡ self.now) }
        requires idle { pass.old.view.held ≡ [] }
        requires other_idle { other.view.held ≡ [] }
        requires other_not_first { other.view.number ≢ 0 }
        ensures here { pass.new.home ≡ pass.old.home }
        ensures joined { pass.new.view ≡ joined_with pass.old.view other.view pass.new.view.seen }
        ensures seen { IsPrefix pass.old.view.seen pass.new.view.seen }
        ensures other_seen { IsPrefix other.view.seen pass.new.view.seen }
        ensures known { Knows S.core pass.new.view }
    {
        let Pass { seat, .. } = other;
        let count = self.table.slot_count();
        self.table.shared.join_seat::<Joining>(&mut pass.seat, seat);
        steps::look::<S>(&self.table.shared, &mut pass.seat, count);
    }

    /// Gives the parts back, once every pass that was split was joined into the first one, which holds no part. They
    /// are the state of all that the first pass has seen, and this is the whole history: it has the calls of the passes
    /// and no others.
    pub fn close(self, pass: Pass<S>) -> Vec<S::Part>
        requires here { pass.home ≡ self }
        requires first { pass.view.number ≡ 0 }
        requires idle { pass.view.held ≡ [] }
        requires all_joined { AllJoined pass.view }
        ensures parts { result.items ≡ state S.core pass.view.opening pass.view.seen }
        ensures legal { Legal S.core pass.view.opening pass.view.seen }
        ensures own { calls_of 0 pass.view.seen ≡ pass.view.made }
        ensures joined { (j : Joined S.Act S.Reply) → In j pass.view.joined → calls_of j.number pass.view.seen
            ≡ j.calls }
        ensures no_others { (m : ℕ) → pass.view.splits < m → calls_of m pass.view.seen ≡ [] }
    {
        let Turns { table, room } = self;
        let Pass { seat, .. } = pass;
        edges::emptied(table.close_with(seat), room)
    }
}
