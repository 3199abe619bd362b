//! What a board learns of the other one of a pair.
ghost use Rattle.std.specs.Prelude.{◌≡◌, ◌≢◌, ◌+◌, ◌<◌, IfSome, length};
ghost use Rattle.chess_model.specs.Limits.{most_halves};
ghost use Rattle.chess_model.specs.Allowed.{Allowed};
ghost use Rattle.chess_model.specs.Holdings.{count_in, handed_kind};
ghost use Rattle.chess_model.specs.Position.{hand_of_side};
ghost use Rattle.game_board.specs.Learn.{captured_there, partner_position, learnt, with_captured};

use crate::game_board::GameBoard;
use crate::played::Made;
use chess_model::{Kind, Man, Move, Variant};
use variant_rules::Position;

impl GameBoard {
    /// Learns of a half-move on the other board of a game of bughouse, which captured this man there, if it did: the
    /// man comes into the hand of its own colour, a promoted one as a pawn. Takes no memory.
    pub fn learn(&mut self, what: Move, man: Option<Man>)
        requires variant { self.old.terms.variant ≡ Variant.Bughouse }
        requires allowed { Allowed (partner_position self.old) what }
        requires captured { man ≡ captured_there self.old what }
        requires room { length self.old.all < length self.old.list + most_halves }
        ensures { self.new ≡ learnt self.old what }
    {
        give(&mut self.position, man);
        self.all.push(Made {
            board: self.number.other(),
            what,
        });
    }
}

/// Puts a captured man, if there is one, into the hand of its own colour.
fn give(position: &mut Position, man: Option<Man>)
    requires variant { position.old.variant ≡ Variant.Bughouse }
    requires not_king { IfSome man (λ m. handed_kind m ≢ Kind.King) }
    requires room { IfSome man (λ m. count_in (hand_of_side position.old m.colour) (handed_kind m) < 16) }
    ensures { position.new ≡ with_captured position.old man }
{
    if let Some(man) = man {
        position.receive(man.colour, handed_over_as(man));
    }
}

/// The kind as which a captured man is handed over: a promoted one is a pawn again.
pub fn handed_over_as(man: Man) -> Kind
    ensures { result ≡ handed_kind man }
{
    if man.promoted { Kind::Pawn } else { man.kind }
}
