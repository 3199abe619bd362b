//! Whether memory ran out.

/// Whether something ran out of memory so far: a worker, or a turn of the steward.
#[derive(Clone, Copy)]
pub enum Supply {
    Enough,
    Short,
}

impl Supply {
    ghost use Rattle.std.specs.Prelude.{◌≡◌};
    ghost use Rattle.serve_turn.specs.Turns.{supply_then};

    /// Whether something ran out of memory, once something did or didn't that came behind.
    pub fn then(self, before: Supply) -> Supply
        ensures { result ≡ supply_then self before }
    {
        match self {
            Supply::Enough => before,
            Supply::Short => Supply::Short,
        }
    }
}
