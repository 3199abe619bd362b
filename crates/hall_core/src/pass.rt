//! A pass: what one session of a hall makes its acts with.

ghost use Rattle.std.specs.Prelude.{◌≡◌};

use crate::hall_rules::HallRules;
use std::marker::Model;
use turn_table::Pass;

/// What one session of a hall makes its acts with. It holds no part between two acts. Contracts see which hall it is
/// of, its number, what it has seen and made, the passes that were split from it and joined into it, and whether it was
/// noted that memory ran out.
#[derive(Drop)]
pub struct HallPass {
    pub(crate) pass: Pass<HallRules>,
    pub(crate) short: bool,
}

impl Model for HallPass {
    ghost use Rattle.hall_core.specs.Passes.{PassState, pass_state, IsHallPass};

    ghost Value = { PassState };

    ghost view = { λ p. pass_state p.pass p.short };

    ghost invariant = { λ p. IsHallPass p.pass };
}

impl HallPass {
    ghost use Rattle.hall_core.specs.Passes.{pass_noted, runs_of};
    ghost use Rattle.one_server.specs.Running.{IsKnown};

    /// The session's number: 0 for the pass that the hall opened with, else the number that its split drew. Numbers are
    /// never used again.
    pub fn session(&self) -> u32
        ensures number { result ≡ self.now.number }
        ensures known { IsKnown (runs_of self.now) }
    {
        self.pass.number()
    }

    /// Notes whether memory ran out where the pass was used, for whoever gets it next. A new pass says that it didn't.
    pub fn note_short(&mut self, short: bool)
        ensures { self.new ≡ pass_noted short self.old }
    {
        self.short = short;
    }

    /// Whether it was noted that memory ran out where the pass was used.
    pub fn is_short(&self) -> bool
        ensures { result ≡ self.now.short }
    {
        self.short
    }
}
