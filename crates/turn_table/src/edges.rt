//! The table's two ends: the slots before it opens, and after it closed.

ghost use Rattle.std.specs.Prelude.{◌≡◌, ℕ, ◌+◌, ◌≤◌, [], Some, map, length, slice_index, vec_capacity, IfOk};
ghost use Rattle.std.specs.Mem.Slots.{slots_items, slots_len, IsFull};
ghost use Rattle.turn_table.specs.Passes.{AllThere};
ghost use Rattle.turn_table.specs.Views.{new_view};

use crate::law::{Law, Opening, Slot, Token};
use crate::view::View;
use atomic_table::{Closed, Table};
use histories::Served;
use memory::NoMemory;
use std::alloc::{AllocError, Global};

/// As many words as a table of 255 parts has.
pub fn zeros() -> [u64; 256]
    ensures { (k : ℕ) → slice_index result k ≡ 0 }
{
    [0; 256]
}

/// The slots of a table: each has its part.
pub fn filled<P: Drop>(alloc: Global, parts: Vec<P>) -> Result<Vec<Option<P>>, AllocError>
    ensures { IfOk result (λ slots. slots.items ≡ map Some parts.items) }
{
    parts.into_iter().map(Some).collect(alloc)
}

/// The table of a server, with each part at home and no turn taken, and its first seat.
pub fn opened<S: Served>(
    alloc: Global,
    words: &[u64],
    slots: Vec<Slot<S>>,
    told: &Opening<S>,
) -> Result<
    (
        Table<Slot<S>, View<S::Part, S::Act, S::Reply>, Opening<S>, Law<S>, Global>,
        Token<S>,
    ),
    NoMemory,
>
    requires long { length words.now ≡ length told.now.value.items + 1 }
    requires zeros { (k : ℕ) → slice_index words.now k ≡ 0 }
    requires parts { slots.items ≡ map Some told.now.value.items }
    requires whole { S.core.whole told.now.value.items }
    ensures table { IfOk result (λ t. (t.0.shared.table_id.words ≡ length words.now)
        × (t.0.shared.table_id.slots ≡ length told.now.value.items) × (t.0.shared.key ≡ told.now)) }
    ensures seat { IfOk result (λ t. (t.1.table_id ≡ t.0.shared.table_id)
        × (t.1.me ≡ (new_view told.now.value.items, []))) }
{
    let made = Table::new(alloc, words, slots, told);
    let Ok(made) = made else {
        return Err(NoMemory);
    };
    Ok(made)
}

/// The parts of a table that was closed, in the room that was kept for them.
pub fn emptied<P: Drop>(mut closed: Closed<Option<P>, Global>, mut room: Vec<P>) -> Vec<P>
    requires full { IsFull closed.slots }
    requires there { AllThere (slots_items closed.slots) }
    requires room { (room.items ≡ []) × (slots_len closed.slots ≤ vec_capacity room) }
    ensures { map Some result.items ≡ slots_items closed.slots }
{
    let count = closed.slot_count();
    for k in 0..count {
        let Some(part) = closed.take(k) else {
            unreachable!()
        };
        room.push_reserved(part);
    }
    closed.free();
    room
}
