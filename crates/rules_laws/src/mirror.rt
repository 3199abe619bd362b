//! That the rules know no colour. The call does nothing: its contract is the law.

ghost use Rattle.rules_laws.specs.Mirror.{ColoursMayBeExchanged};

/// With the colours exchanged and the board turned over, each half-move is allowed exactly where it was.
#[tactic(auto, using(crate::proofs::MirrorHolds::colours_exchanged))]
pub fn colours_may_be_exchanged()
    ensures { ColoursMayBeExchanged }
{}
