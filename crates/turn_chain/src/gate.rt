//! The telling of a gate, at which a test can hold an act.

ghost use Rattle.turn_table.specs.Views.{Holds};

use edge_traits::Gate;
use histories::Served;
use turn_table::Pass;

/// Tells the gate of a part that is out.
pub(crate) fn tell<S: Served, G: Gate>(gate: &G, pass: &Pass<S>, part: u8)
    requires out { Holds pass.now.view part }
{
    gate.at(pass.number(), part);
}
