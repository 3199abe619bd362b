//! What leaving a desk means to players, as a call that does nothing.
ghost use Rattle.linked_desk.specs.LeaveLaws.{LeavingAdjournsOrLoses};

/// Who leaves a running game of one board whose players have accounts adjourns it; else the other team wins.
#[tactic(auto, using(crate::proofs::Leaving::leaving_adjourns_or_loses))]
pub fn leaving_adjourns_or_loses()
    ensures { LeavingAdjournsOrLoses }
{}
