//! The rule of the turns as the table's rule, and the kinds of its steps. No value of these types is made.

use crate::view::View;
use atomic_table::{Join, Play, Seat, Shared, Split, TableRule};
use histories::Served;
use std::marker::{Brand, PhantomData};
use std::snapshot::Snapshot;

/// What the table is told when it is made: the opening parts.
pub type Opening<S> = Snapshot<Vec<<S as Served>::Part>>;

/// What a slot holds: its part, or nothing while a pass has the part.
pub type Slot<S> = Option<<S as Served>::Part>;

/// What a pass of a server knows.
pub type Known<S> = View<<S as Served>::Part, <S as Served>::Act, <S as Served>::Reply>;

/// The words and slots, as threads share them.
pub type Stand<S> = Shared<Slot<S>, Known<S>, Opening<S>, Law<S>>;

/// What a pass steps with.
pub type Token<S> = Seat<Slot<S>, Known<S>>;

/// The rule of the turns.
pub struct Law<S> {
    served: PhantomData<S>,
}

impl<S: Served> TableRule<Option<S::Part>, View<S::Part, S::Act, S::Reply>, Snapshot<Vec<S::Part>>>
    for Law<S> {
    ghost use Rattle.turn_table.specs.Rule.{Ruled};
    ghost use Rattle.turn_table.specs.Views.{new_view};

    ghost holds = { λ told. Ruled S.core told.value.items };

    ghost first = { λ told. new_view told.value.items };
}

/// The history is looked at.
pub struct Looking<S> {
    of: PhantomData<S>,
}

impl<S: Served> Play<Option<S::Part>, View<S::Part, S::Act, S::Reply>> for Looking<S> {
    ghost use Rattle.turn_table.specs.Plays.{Sees};

    ghost then = { Sees S.core };
}

/// Which act a beginning is of. Each call picks it.
pub trait Meant<A> {
    ghost use Rattle.std.specs.declared.option.Option.{Option};

    ghost meant: { Option A };
}

impl<A> Meant<A> for Brand {
    ghost use Rattle.std.specs.Prelude.{None};

    ghost meant = { None };
}

/// An act is begun.
pub struct Beginning<S, M> {
    of: PhantomData<(S, M)>,
}

impl<S: Served, M: Meant<S::Act>> Play<Option<S::Part>, View<S::Part, S::Act, S::Reply>>
    for Beginning<S, M> {
    ghost use Rattle.turn_table.specs.Plays.{BeginsTurn};

    ghost then = { BeginsTurn S.core M.meant };
}

/// A turn is tried.
pub struct Taking<S> {
    of: PhantomData<S>,
}

impl<S: Served> Play<Option<S::Part>, View<S::Part, S::Act, S::Reply>> for Taking<S> {
    ghost use Rattle.turn_table.specs.Plays.{TurnTakes};

    ghost then = { TurnTakes S.core };
}

/// An act is committed.
pub struct Committing<S> {
    of: PhantomData<S>,
}

impl<S: Served> Play<Option<S::Part>, View<S::Part, S::Act, S::Reply>> for Committing<S> {
    ghost use Rattle.turn_table.specs.Plays.{Commits};

    ghost then = { Commits S.core };
}

/// A turn is given.
pub struct Giving<S> {
    of: PhantomData<S>,
}

impl<S: Served> Play<Option<S::Part>, View<S::Part, S::Act, S::Reply>> for Giving<S> {
    ghost use Rattle.turn_table.specs.Plays.{GivesTurn};

    ghost then = { GivesTurn S.core };
}

/// A pass is split.
pub struct Splitting;

impl<P, A, R> Split<View<P, A, R>> for Splitting {
    ghost use Rattle.turn_table.specs.Views.{divided, split_from};

    ghost left = { divided };

    ghost right = { split_from };
}

/// A pass is joined into another one.
pub struct Joining;

impl<P, A, R> Join<View<P, A, R>> for Joining {
    ghost use Rattle.turn_table.specs.Views.{merged, spent_view};

    ghost both = { merged };

    ghost spent = { spent_view };
}
