//! A clock that shows the moments of a script.

use edge_traits::Clock;
use std::cell::Cell;

/// A clock that shows these moments one after the other, and behind the last one a later one.
#[derive(Drop)]
pub struct ScriptClock {
    moments: &'static [u64],
    /// How often it was asked.
    asked: Cell<usize>,
}

/// The moment behind the last one of a script.
const AFTERWARDS: u64 = 100_000;

impl ScriptClock {
    /// A clock before its first moment.
    pub fn new(moments: &'static [u64]) -> ScriptClock {
        ScriptClock {
            moments,
            asked: Cell::new(0),
        }
    }
}

impl Clock for ScriptClock {
    ghost use Rattle.std.specs.Prelude.{true};

    ghost shows = { λ clock moment. true };

    fn now(&self) -> u64 {
        let place = self.asked.get();
        self.asked.set(place.wrapping_add(1));
        match self.moments.get(place) {
            Some(moment) => *moment,
            None => AFTERWARDS,
        }
    }
}
