//! What holds of every giver's turns, as calls that do nothing: each says by its contract what was proved.
ghost use Rattle.simul_control.specs.Laws.{ComeRound, UndoEachOther};

use crate::places::Places;

/// As many turns as there are places, either way, come back to the place where they began.
pub fn turns_come_round(places: &Places)
    ensures { ComeRound places.now }
{
    let _count = places.len();
}

/// A turn to the previous place undoes a turn to the next one, and the other way round.
pub fn ways_undo_each_other(places: &Places)
    ensures { UndoEachOther places.now }
{
    let _count = places.len();
}
