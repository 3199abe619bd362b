//! Registered players.

ghost use Rattle.std.specs.Prelude.{◌≡◌};

use crate::handle::Handle;
use memory::{Duplicate, NoMemory};

/// The SHA-256 digest of a password.
pub type Digest = [u8; 32];

/// A registered player: the handle in the spelling in which it was registered, and its password's digest.
#[derive(Clone, Copy, Debug, PartialEq, Eq)]
pub struct Account {
    pub name: Handle,
    pub digest: Digest,
}

impl Duplicate for Account {
    /// Takes no memory.
    fn duplicate(&self) -> Result<Account, NoMemory>
        ensures { result ≡ Ok self.now }
    {
        Ok(*self)
    }
}
