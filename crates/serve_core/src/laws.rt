//! What holds of each link that came to a server, and of the steward's acts, as calls that do nothing: what each
//! ensures is the law.
ghost use Rattle.serve_core.specs.EndLaws.{GoodEndsHadEnough, LeavesNoGame, ShortEndsHadNot, StoresAll};
ghost use Rattle.serve_core.specs.Laws.{EachComesBack};
ghost use Rattle.serve_core.specs.StewardLaws.{MakesEachTurn, MakesStewardsActs, MakesTurns};

/// Where memory was enough, which the pass that is given back tells, the link of each session came back under its
/// number with what it had to give, taken or left, was written the opening or counted a fault, and unless it counted
/// one all that came over it, up to its end or up to an answered quit, was answered in full. So no link was hung up
/// unserved, none was exchanged for another, and no line was dropped.
#[tactic(auto, using(crate::proofs::Returning::each_comes_back))]
pub fn each_link_comes_back_as_its_own()
    ensures { EachComesBack }
{}

/// All that session 0 makes are acts of a steward: turns, one for each Quiet of the door and one more. Where memory was
/// enough and the keeper counted no fault each of them was done, and asked once which desks are in use.
pub fn the_steward_makes_each_turn()
    ensures acts { MakesStewardsActs }
    ensures turns { MakesTurns }
    ensures done { MakesEachTurn }
{}

/// The pass that is given back tells whether memory ran out: where serving ended well it didn't, and where it ended for
/// want of memory it did.
pub fn want_of_memory_is_told()
    ensures enough { GoodEndsHadEnough }
    ensures short { ShortEndsHadNot }
{}

/// Where serving ended well no game is lost: none that is over, and at which nobody looks on, is left at a desk, so
/// each that was adjourned is on the shelf; and a keeper that tells its table holds each account and each game on the
/// shelf.
pub fn no_game_is_lost()
    ensures desks { LeavesNoGame }
    ensures store { StoresAll }
{}
