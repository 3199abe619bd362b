//! Save orders.

ghost use Rattle.std.specs.Prelude.{◌≡◌, nat_lt, IfOk};

use collections::Predicate;
use game_records::Bytes;
use memory::{Duplicate, NoMemory};

/// What a store is to do: to put a record under a key, or to remove the one that it has there.
#[derive(Drop, PartialEq, Eq)]
pub struct Order {
    /// Orders are numbered from 1 on, in the order in which they were made.
    pub number: u64,
    pub key: Bytes,
    /// The record; without one the key is removed.
    pub bytes: Option<Bytes>,
}

impl Duplicate for Order {
    fn duplicate(&self) -> Result<Order, NoMemory> {
        Ok(Order {
            number: self.number,
            key: self.key.duplicate()?,
            bytes: twin(&self.bytes)?,
        })
    }
}

/// A copy of the record, where there is one.
fn twin(bytes: &Option<Bytes>) -> Result<Option<Bytes>, NoMemory>
    ensures { IfOk result (λ copy. copy ≡ bytes.now) }
{
    match bytes {
        None => Ok(None),
        Some(bytes) => Ok(Some(bytes.duplicate()?)),
    }
}

/// An order whose number is greater than this one.
#[derive(Clone, Copy)]
pub(crate) struct Unsaved(pub(crate) u64);

impl Predicate<Order> for Unsaved {
    ghost passes = { λ test order. nat_lt test.0 order.number };

    fn passes(&self, order: &Order) -> bool {
        order.number > self.0
    }
}
