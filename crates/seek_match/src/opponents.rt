//! With whom a player has challenges, so that these are found without a walk over all.
ghost use Rattle.std.specs.Prelude.{◌≡◌, ◌==◌, None, OnErr, OnOk, not};
ghost use Rattle.std.specs.List.{filter, find};
ghost use Rattle.seek_match.specs.Opponents.{Lists, SaysTheSame, Unlists, opponents_of};

use collections::{Change, Listed, Predicate};
use memory::NoMemory;
use std::alloc::Global;
use tables::{Keyed, Parted, Table};

/// A player and others, by their sessions: those whom it challenges, or those who challenge it.
#[derive(Drop)]
pub(crate) struct Opponents {
    who: u32,
    others: Listed<u32>,
}

/// The others, as the part of a row that is lent.
struct Others;

impl Keyed<u32> for Opponents {
    ghost key_of = { λ row. row.who };

    fn key(&self) -> u32 {
        self.who
    }
}

impl Parted<Listed<u32>, Others> for Opponents {
    ghost part = { λ row. row.others };

    ghost with_part = { λ row others. record row { others = others } };

    fn part_mut(&mut self) -> &mut Listed<u32> {
        &mut self.others
    }
}

/// Every other but this one.
#[derive(Clone, Copy)]
struct Another(u32);

impl Predicate<u32> for Another {
    ghost passes = { λ test other. not (other == test.0) };

    fn passes(&self, other: &u32) -> bool {
        *other != self.0
    }
}

/// This one is among the others no more.
#[derive(Clone, Copy)]
struct Without(u32);

impl Change<Opponents> for Without {
    ghost changed = { λ gone row. record row { others = filter (λ other. not (other == gone.0)) row.others } };

    fn change(&self, row: &mut Opponents) {
        let another = Another(self.0);
        row.others.retain(&another);
    }
}

/// The others in the row of this player; none where it has no row.
pub(crate) fn opponents_of(rows: &Table<u32, Opponents>, who: u32) -> &[u32]
    ensures { result.now ≡ opponents_of rows.now who }
{
    match rows.get(who) {
        Some(row) => row.others.as_slice(),
        None => &[],
    }
}

/// Puts the other into the row of this player. Running out of memory changes nothing of what the rows say.
pub(crate) fn list(
    alloc: Global,
    rows: &mut Table<u32, Opponents>,
    who: u32,
    other: u32,
) -> Result<(), NoMemory>
    ensures ok { OnOk result (Lists who other rows.old rows.new) }
    ensures err { OnErr result (SaysTheSame rows.old rows.new) }
{
    let Some(place) = rows.place(who) else {
        return list_first(alloc, rows, who, other);
    };
    rows.part_mut::<Listed<u32>, Others>(place).push(other)?;
    Ok(())
}

/// The same of a player who has no row.
fn list_first(
    alloc: Global,
    rows: &mut Table<u32, Opponents>,
    who: u32,
    other: u32,
) -> Result<(), NoMemory>
    requires { find (λ row. who == row.who) rows.old ≡ None }
    ensures ok { OnOk result (Lists who other rows.old rows.new) }
    ensures err { OnErr result (SaysTheSame rows.old rows.new) }
{
    let mut others = Listed::new(alloc);
    others.push(other)?;
    rows.push(Opponents { who, others })?;
    Ok(())
}

/// Takes the other out of the row of this player, and the row away where no other is left. It takes no memory.
pub(crate) fn unlist(rows: &mut Table<u32, Opponents>, who: u32, other: u32)
    ensures { Unlists who other rows.old rows.new }
{
    rows.change(who, &Without(other));
    if opponents_of(rows, who).is_empty() {
        rows.remove(who);
        rows.shrink();
    }
}
