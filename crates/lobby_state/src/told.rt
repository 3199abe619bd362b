//! The lists that replies tell.
ghost use Rattle.std.specs.Prelude.{◌≡◌};
ghost use Rattle.lobby_state.specs.Told.{no_lists};

use crate::desk_in_use::DeskInUse;
use collections::Listed;
use fics_words::{Line, Lines};
use lobby_shelf::Order;
use std::alloc::Global;

/// The lists that a reply tells, one field for each kind of list; a list that it doesn't tell is empty. A copy of them
/// is made before the act, so that whoever keeps the reply too needs no memory after it.
#[derive(Drop)]
pub struct ReplyLists {
    /// What whoever asked is told.
    pub lines: Lines,
    /// The lines that waited for a member.
    pub waiting: Listed<Line>,
    pub desks: Listed<DeskInUse>,
    pub orders: Listed<Order>,
}

impl ReplyLists {
    /// No lists, which take no memory.
    pub fn none(alloc: Global) -> ReplyLists
        ensures { result ≡ no_lists }
    {
        ReplyLists {
            lines: Lines::new(alloc),
            waiting: Listed::new(alloc),
            desks: Listed::new(alloc),
            orders: Listed::new(alloc),
        }
    }
}
