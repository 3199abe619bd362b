//! Exact copies of a row of items.
ghost use Rattle.std.specs.Prelude.{◌≡◌, ◌≤◌, ◌<◌, IfOk, vec_capacity};

use memory::{Duplicate, NoMemory};
use std::alloc::Global;

/// A vector of exact copies of `items`, in a block with room for `capacity`.
pub(crate) fn duplicates<T: Duplicate + Drop>(
    alloc: Global,
    items: &[T],
    capacity: usize,
) -> Result<Vec<T>, NoMemory>
    ensures items { IfOk result (λ copies. copies.items ≡ items.now) }
    ensures room { IfOk result (λ copies. capacity ≤ vec_capacity copies) }
{
    let mut copies = Vec::with_capacity(alloc, capacity)?;
    for item in items {
        copies.push(item.duplicate()?)?;
    }
    Ok(copies)
}
