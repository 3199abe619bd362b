//! Running out of memory as an answer, and exact copies.
//!
//! The contract: `duplicate` gives a value equal to the one that it copies, or `NoMemory` and nothing else.
#![tactic(auto)]

ghost use Rattle.std.specs.Prelude.{◌≡◌, IfOk};

use std::alloc::{AllocError, AllocFailed};
use thiserror::Error;

/// A call was refused the memory that it asked for. No other answer hides behind it.
#[derive(Clone, Copy, Debug, PartialEq, Eq, Error)]
#[error("out of memory")]
pub struct NoMemory;

impl From<AllocError> for NoMemory {
    fn from(_refused: AllocError) -> NoMemory {
        NoMemory
    }
}

impl<T: Drop> From<AllocFailed<T>> for NoMemory {
    fn from(_refused: AllocFailed<T>) -> NoMemory {
        NoMemory
    }
}

/// A type whose values can be copied exactly, where there is memory for the copy.
pub trait Duplicate: Sized {
    /// Gives a value equal to this one; answers `NoMemory` only when out of memory.
    fn duplicate(&self) -> Result<Self, NoMemory>
        ensures { IfOk result (λ copy. copy ≡ self.now) };
}
