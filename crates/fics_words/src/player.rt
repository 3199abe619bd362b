//! Players in their seats.

ghost use Rattle.std.specs.Prelude.{◌≡◌};

use crate::handle::Handle;
use memory::{Duplicate, NoMemory};

/// A player at a board: the session that plays, under which name, and whether the name has an account.
#[derive(Clone, Copy, Debug, PartialEq, Eq)]
pub struct Player {
    pub session: u32,
    pub name: Handle,
    pub registered: bool,
}

impl Duplicate for Player {
    /// Takes no memory.
    fn duplicate(&self) -> Result<Player, NoMemory>
        ensures { result ≡ Ok self.now }
    {
        Ok(*self)
    }
}
