//! How many men a position can have.
ghost use Rattle.std.specs.Prelude.{◌≡◌, ◌≢◌, ◌≤◌, length};
ghost use Rattle.chess_model.specs.Census.{all_men};

use crate::position::Position;
use chess_model::Variant;

impl Position {
    /// There are 64 squares, and where no man comes from another board no more men on them and in the two hands than
    /// two sets have: 32.
    pub fn has_two_sets(&self)
        ensures squares { length self.now.men ≡ 64 }
        ensures men { self.now.variant ≢ Variant.Bughouse → all_men self.now ≤ 32 }
    {
        let _men = self.men.squares();
    }
}
