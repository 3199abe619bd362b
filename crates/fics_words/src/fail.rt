//! The two ways in which a call can fail.

ghost use Rattle.std.specs.Prelude.{◌≡◌};
ghost use Rattle.fics_words.specs.declared.fail.Fail.TheVariants.{Memory, Refused};

use crate::refusal::Refusal;
use memory::NoMemory;
use std::alloc::{AllocError, AllocFailed};
use thiserror::Error;

/// A call was refused for a cause of the rules, or when out of memory.
#[derive(Clone, Copy, Debug, PartialEq, Eq, Error)]
pub enum Fail {
    /// The cause is one of the rules.
    #[error("refused {0:?}")]
    Refused(Refusal),
    /// Running out of memory, and nothing else.
    #[error("out of memory")]
    Memory,
}

impl From<Refusal> for Fail {
    ghost from_gives = { λ refusal fail. fail ≡ Refused refusal };

    fn from(refusal: Refusal) -> Fail {
        Fail::Refused(refusal)
    }
}

impl From<NoMemory> for Fail {
    ghost from_gives = { λ _ fail. fail ≡ Memory };

    fn from(_want: NoMemory) -> Fail {
        Fail::Memory
    }
}

impl From<AllocError> for Fail {
    ghost from_gives = { λ _ fail. fail ≡ Memory };

    fn from(_want: AllocError) -> Fail {
        Fail::Memory
    }
}

impl<T: Drop> From<AllocFailed<T>> for Fail {
    ghost from_gives = { λ _ fail. fail ≡ Memory };

    fn from(_want: AllocFailed<T>) -> Fail {
        Fail::Memory
    }
}
