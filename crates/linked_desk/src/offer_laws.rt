//! What offers at a desk mean to players, as calls that do nothing.
ghost use Rattle.std.specs.Prelude.{ℕ, Option, Some};
ghost use Rattle.chess_model.specs.declared.moves.MoveWord.{MoveWord};
ghost use Rattle.linked_desk.specs.Desk.{GameState};
ghost use Rattle.linked_desk.specs.OfferLaws.{IsCleared};
ghost use Rattle.linked_desk.specs.Playing.{moved_by};

/// No offer outlives the opponent's move: after it the opponent's offers at that board are gone, and every takeback.
#[tactic(auto, using(crate::proofs::ClearedOffers::cleared_by_move))]
pub fn half_moves_clear_offers()
    ensures { (desk : ℕ) (g : GameState) (moment seat : ℕ) (word : MoveWord) (stamp : Option ℕ)
        → IsCleared (moved_by desk g moment (Some seat) word stamp).offers.standing seat }
{}
