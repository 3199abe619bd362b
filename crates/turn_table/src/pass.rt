//! A pass: what one caller steps with.

ghost use Rattle.std.specs.Prelude.{◌≡◌};

use crate::law::Token;
use histories::Served;
use std::marker::Model;

/// What one caller steps with, and what it knows. Contracts see which table it is of, and its view.
#[derive(Drop)]
pub struct Pass<S: Served> {
    pub(crate) seat: Token<S>,
    pub(crate) number: u32,
    pub(crate) splits: u32,
    pub(crate) last: u8,
    pub(crate) before: u8,
}

impl<S: Served> Model for Pass<S> {
    ghost use Rattle.turn_table.specs.Passes.{PassStanding, Sound};

    ghost Value = { PassStanding S.Part S.Act S.Reply };

    ghost view = { λ p. record { home = p.seat.table_id; view = p.seat.me.0 } };

    ghost invariant = { λ p. Sound S.core p.seat.table_id.slots p.number p.splits p.last p.before p.seat.me };
}

impl<S: Served> Pass<S> {
    /// 0 for the pass that the table opened with, else the number that its split drew.
    pub fn number(&self) -> u32
        ensures { result ≡ self.now.view.number }
    {
        self.number
    }
}
