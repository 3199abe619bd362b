//! The steps of a pass on the words and slots.

ghost use Rattle.std.specs.Prelude.{◌≡◌, ◌==◌, ◌<◌, true, Some, None, [], ◌∷◌, map, length, MatchOption};
ghost use Rattle.std.specs.declared.option.Option.{Option};
ghost use Rattle.atomic_table.specs.Table.{rest};
ghost use Rattle.turn_table.specs.Views.{In, Holds, AllOut, given_back, let_go};
ghost use Rattle.turn_table.specs.Plays.{LooksOn, BeginsAct, FindsBusy, CommitsAct};
ghost use Rattle.turn_table.specs.Passes.{IsAt, SameSeat, TookPart, Topped, out};

use crate::law::{Beginning, Committing, Giving, Looking, Meant, Stand, Taking, Token};
use histories::Served;

/// Looks at the history: all of it so far is seen.
pub fn look<S: Served>(table: &Stand<S>, seat: &mut Token<S>, count: usize)
    requires table { IsAt seat.old.table_id table.now.table_id (length table.now.key.value.items) }
    requires count { count ≡ table.now.table_id.slots }
    requires alive { seat.old.me.0.live ≡ true }
    ensures same { SameSeat seat.old seat.new }
    ensures looked { LooksOn S.core seat.old.me seat.new.me }
{
    table.load::<Looking<S>>(seat, count);
}

/// Begins an act: the history so far is seen.
pub fn begin<S: Served, M: Meant<S::Act>>(
    table: &Stand<S>,
    seat: &mut Token<S>,
    count: usize,
    act: &S::Act,
)
    requires table { IsAt seat.old.table_id table.now.table_id (length table.now.key.value.items) }
    requires count { count ≡ table.now.table_id.slots }
    requires alive { seat.old.me.0.live ≡ true }
    requires idle { seat.old.me.0.held ≡ [] }
    requires fits { S.core.fits act.now }
    requires meant { M.meant ≡ Some act.now }
    ensures same { SameSeat seat.old seat.new }
    ensures begun { BeginsAct S.core seat.old.me act.now seat.new.me }
{
    table.load::<Beginning<S, M>>(seat, count);
}

/// Tries the turn of a part once. Where it was free, the part comes with it.
pub fn try_take<S: Served>(table: &Stand<S>, seat: &mut Token<S>, part: usize) -> Option<S::Part>
    requires table { IsAt seat.old.table_id table.now.table_id (length table.now.key.value.items) }
    requires alive { seat.old.me.0.live ≡ true }
    requires may { In part seat.old.me.0.may }
    requires not_held { Holds seat.old.me.0 part → ⊥ }
    requires there { part < table.now.table_id.slots }
    ensures same { SameSeat seat.old seat.new }
    ensures taken { MatchOption result (FindsBusy S.core seat.old.me part seat.new.me)
        (λ p. TookPart S.core seat.old.me part p seat.new.me) }
{
    if table.compare_exchange::<Taking<S>>(seat, part, 0, 1) != 0 {
        return None;
    }
    let found = table.exchange(seat, part, None);
    let Some(value) = found else { unreachable!() };
    Some(value)
}

/// Commits the act in flight.
pub fn commit<S: Served>(table: &Stand<S>, seat: &mut Token<S>, count: usize)
    requires table { IsAt seat.old.table_id table.now.table_id (length table.now.key.value.items) }
    requires count { count ≡ table.now.table_id.slots }
    requires alive { seat.old.me.0.live ≡ true }
    requires out { (a : S.Act) × (p : S.Part) × (o : Option S.Part) × AllOut S.core seat.old.me.0 a p o }
    ensures same { SameSeat seat.old seat.new }
    ensures done { (a : S.Act) (p : S.Part) (o : Option S.Part) → AllOut S.core seat.old.me.0 a p o
        → CommitsAct S.core seat.old.me a p o seat.new.me }
{
    table.fetch_add::<Committing<S>>(seat, count, 1);
}

/// Brings the slot of a part that is out to the front, and answers which part is in front once that one is given.
pub fn bring<S: Served>(seat: &mut Token<S>, last: u8, before: u8, part: u8) -> u8
    requires order { Topped last before seat.old.me.0.held }
    requires out { seat.old.me.1 ≡ map out seat.old.me.0.held }
    requires held { Holds seat.old.me.0 part }
    ensures same { SameSeat seat.old seat.new }
    ensures front { seat.new.me ≡ (seat.old.me.0, (part, None) ∷ map out (let_go part seat.old.me.0.held)) }
    ensures next { Topped result before (let_go part seat.old.me.0.held) }
{
    if last == part {
        return before;
    }
    seat.turn();
    last
}

/// Gives the part that was taken last back, with its turn.
pub fn give<S: Served>(table: &Stand<S>, seat: &mut Token<S>, part: usize, value: S::Part)
    requires table { IsAt seat.old.table_id table.now.table_id (length table.now.key.value.items) }
    requires alive { seat.old.me.0.live ≡ true }
    requires named { In (part, value) seat.old.me.0.held }
    requires last { seat.old.me.1 ≡ (part, None) ∷ rest seat.old.me.1 }
    requires there { part < table.now.table_id.slots }
    ensures same { SameSeat seat.old seat.new }
    ensures given { seat.new.me ≡ (given_back seat.old.me.0 part, rest seat.old.me.1) }
{
    let none = table.exchange(seat, part, Some(value));
    let None = none else { unreachable!() };
    table.store::<Giving<S>>(seat, part, 0);
}
