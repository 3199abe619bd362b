//! Those of six players at a hall whom the gate doesn't hold.

ghost use Rattle.std.specs.Prelude.{◌≡◌, [], IfSome};
ghost use Rattle.hall_core.specs.Passes.{EveryoneJoined};

use crate::passes::{Guest, Here};
use hall_core::{Hall, HallPass};

/// The sessions 2 to 6 of a hall.
#[derive(Drop)]
pub struct Others<'a, J: Here> {
    ben: Guest<'a, J>,
    cat: Guest<'a, J>,
    dan: Guest<'a, J>,
    eve: Guest<'a, J>,
    fay: Guest<'a, J>,
}

impl<'a, J: Here> Others<'a, J> {
    /// The next five sessions, whose passes are split from the first one.
    pub fn split_from(hall: &'a Hall, first: &mut HallPass) -> Others<'a, J>
        requires hall { hall.now ≡ J.hall }
        requires here { first.old.home ≡ J.hall }
        requires first { first.old.number ≡ 0 }
        requires second { first.old.splits ≡ 1 }
        ensures here { first.new.home ≡ J.hall }
        ensures number { first.new.number ≡ 0 }
        ensures joined { first.new.joined ≡ first.old.joined }
        ensures splits { first.new.splits ≡ 6 }
    {
        Others {
            ben: Guest::split_from(hall, first),
            cat: Guest::split_from(hall, first),
            dan: Guest::split_from(hall, first),
            eve: Guest::split_from(hall, first),
            fay: Guest::split_from(hall, first),
        }
    }

    /// The guest of this session.
    pub fn guest(&mut self, session: u32) -> &mut Guest<'a, J> {
        match session {
            2 => &mut self.ben,
            3 => &mut self.cat,
            4 => &mut self.dan,
            5 => &mut self.eve,
            _ => &mut self.fay,
        }
    }
}

/// Joins the six sessions of a hall into the first pass. It answers None where a session has another number than it was
/// split with.
pub fn everyone_joined<J: Here>(
    hall: &Hall,
    first: HallPass,
    ann: Guest<'_, J>,
    others: Others<'_, J>,
) -> Option<HallPass>
    requires hall { hall.now ≡ J.hall }
    requires here { first.home ≡ J.hall }
    requires split { first.splits ≡ 6 }
    requires alone { first.joined ≡ [] }
    ensures here { IfSome result (λ pass. pass.home ≡ J.hall) }
    ensures number { IfSome result (λ pass. pass.number ≡ first.number) }
    ensures everyone { IfSome result EveryoneJoined }
{
    let Others {
        ben,
        cat,
        dan,
        eve,
        fay,
    } = others;
    let first = ann.join_into(hall, first, 1)?;
    let first = ben.join_into(hall, first, 2)?;
    let first = cat.join_into(hall, first, 3)?;
    let first = dan.join_into(hall, first, 4)?;
    let first = eve.join_into(hall, first, 5)?;
    fay.join_into(hall, first, 6)
}
