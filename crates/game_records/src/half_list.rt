//! The half-moves of a stored game as a list.
ghost use Rattle.std.specs.Prelude.{◌≡◌, [], ◌∷◌, ◌++◌, IfOk, OnErr, OnOk, length};

use crate::packed::PackedHalf;
use crate::stored_game::Half;
use memory::NoMemory;
use std::alloc::Global;
use std::marker::Model;

/// The half-moves of a stored game, which contracts see as the list of them.
#[derive(Drop)]
pub struct HalfList {
    halves: Vec<PackedHalf>,
}

impl Model for HalfList {
    ghost use Rattle.std.specs.Prelude.{List};
    ghost use Rattle.game_records.specs.declared.stored_game.Half.{Half};

    ghost Value = { List Half };

    ghost view = { λ list. list.halves.items };
}

impl HalfList {
    /// The empty list, which takes no memory.
    pub fn new(alloc: Global) -> HalfList
        ensures { result ≡ [] }
    {
        HalfList {
            halves: Vec::new(alloc),
        }
    }

    /// The empty list, with the room for so many half-moves and no more. It fails only when out of memory.
    pub fn with_room(alloc: Global, count: usize) -> Result<HalfList, NoMemory>
        ensures { IfOk result (λ list. list ≡ []) }
    {
        Ok(HalfList {
            halves: Vec::with_capacity(alloc, count)?,
        })
    }

    /// The number of half-moves.
    pub fn len(&self) -> usize
        ensures { result ≡ length self.now }
    {
        self.halves.len()
    }

    /// The half-moves, for std's methods on slices.
    pub fn as_slice(&self) -> &[PackedHalf]
        ensures { result.now ≡ self.now }
    {
        self.halves.as_slice()
    }

    /// Puts a half-move behind the others. Running out of memory leaves the list as it is.
    pub fn push(&mut self, half: Half) -> Result<(), NoMemory>
        ensures ok { OnOk result (self.new ≡ self.old ++ half ∷ []) }
        ensures err { OnErr result (self.new ≡ self.old) }
    {
        self.halves.push(PackedHalf::of(&half))?;
        Ok(())
    }
}
