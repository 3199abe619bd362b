//! Laws of demos, in words that a reader needs no proof for.

ghost use Rattle.std.specs.Prelude.{◌≡◌, ℕ};
ghost use Rattle.histories.specs.History.{Legal};
ghost use Rattle.one_server.specs.House.{house};
ghost use Rattle.one_server.specs.Running.{Log};
ghost use Rattle.cmd_replay.specs.Evening.{opening_parts};
ghost use Rattle.cmd_demo.specs.Demo.{IsDemo};

/// A number makes one history, and that is legal.
pub fn one_demo()
    ensures same { (number : ℕ) (log other : Log) → IsDemo number log → IsDemo number other → log ≡ other }
    ensures legal { (number : ℕ) (log : Log) → IsDemo number log → Legal house opening_parts log }
{}
