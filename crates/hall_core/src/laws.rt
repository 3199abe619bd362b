//! What acts without a common part are to one another, as a call that does nothing: what it ensures is the law.

ghost use Rattle.hall_core.specs.Apart.{ApartCommute, DesksCommute, LobbyCommutes, NobodyCanTell, PairCommutes};

/// Two acts that have no common part may be made in either order: each gets the same reply, and the state after both is
/// the same. Such are two acts at two desks, an act of the lobby alone and one at a desk, and an act of the lobby with
/// the desk of its plan and one at another desk. So nobody can tell in which order two such acts stand behind one
/// another in the history of a hall.
pub fn acts_apart_commute()
    ensures apart { ApartCommute }
    ensures desks { DesksCommute }
    ensures lobby { LobbyCommutes }
    ensures pairs { PairCommutes }
    ensures order { NobodyCanTell }
{}
