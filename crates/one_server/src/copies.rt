//! Copies of what an act will answer, made before the act, so that running out of memory for them changes nothing.
ghost use Rattle.std.specs.Prelude.{◌≡◌, IfOk};
ghost use Rattle.one_server.specs.Copies.{AreOf, ListsFor, ItemsFor};

use crate::act::Act;
use crate::part::Part;
use crate::reply::Reply;
use linked_desk::ItemList;
use lobby_state::ReplyLists;
use memory::NoMemory;
use std::alloc::Global;

/// Copies of the lists that the lobby and of the items that a desk will answer an act; empty where it answers none.
#[derive(Drop)]
pub(crate) struct Copies {
    pub(crate) lists: ReplyLists,
    pub(crate) items: ItemList,
}

impl Copies {
    /// The copies for an act, by the part that it needs first.
    pub(crate) fn ahead(
        alloc: Global,
        one: &Part,
        session: u32,
        act: &Act,
    ) -> Result<Copies, NoMemory>
        ensures lists { IfOk result (λ copies. ListsFor one.now session act.now copies.lists) }
        ensures items { IfOk result (λ copies. ItemsFor one.now session act.now copies.items) }
    {
        let lists = lists_ahead(alloc, one, session, act)?;
        let items = items_ahead(alloc, one, session, act)?;
        Ok(Copies { lists, items })
    }

    /// A reply equal to this one, made of the copies of what it lists.
    pub(crate) fn twin(self, reply: &Reply) -> Reply
        requires { AreOf self reply.now }
        ensures { result ≡ reply.now }
    {
        match reply {
            Reply::Refused(cause) => Reply::Refused(*cause),
            Reply::Lobby(answer) => Reply::Lobby(answer.twin(self.lists)),
            Reply::Desk(answer) => Reply::Desk(answer.twin(self.items)),
            Reply::Pair(answer) => Reply::Pair(*answer),
        }
    }
}

/// The lists that the lobby will answer.
fn lists_ahead(alloc: Global, one: &Part, session: u32, act: &Act) -> Result<ReplyLists, NoMemory>
    ensures { IfOk result (λ lists. ListsFor one.now session act.now lists) }
{
    let Part::Lobby(lobby) = one else {
        return Ok(ReplyLists::none(alloc));
    };
    match act {
        Act::Lobby(act) => lobby.lists_ahead(session, act),
        _ => Ok(ReplyLists::none(alloc)),
    }
}

/// The items that a desk will answer.
fn items_ahead(alloc: Global, one: &Part, session: u32, act: &Act) -> Result<ItemList, NoMemory>
    ensures { IfOk result (λ items. ItemsFor one.now session act.now items) }
{
    let Part::Desk(desk) = one else {
        return Ok(ItemList::new(alloc));
    };
    match act {
        Act::Desk { serial, act, .. } => desk.items_ahead(alloc, session, *serial, act),
        _ => Ok(ItemList::new(alloc)),
    }
}
