//! Orders: a steward asks for the first save orders.
ghost use Rattle.std.specs.Prelude.{◌≡◌, IfOk};
ghost use Rattle.fics_words.specs.Effect.{Takes};
ghost use Rattle.lobby_shelf.specs.Shelf.{orders_told};
ghost use Rattle.lobby_state.specs.Orders.{orders_effect};

use crate::acts::LobbyReply;
use crate::roster::Roster;
use collections::Listed;
use fics_words::Fail;
use lobby_shelf::Order;
use memory::NoMemory;

impl Roster {
    /// The first 16 save orders, or all where there are no more. It is never refused.
    pub(crate) fn orders(&self) -> Result<LobbyReply, Fail>
        ensures { Takes (orders_effect self.now) self.now self.now result }
    {
        let orders = self.orders_copy()?;
        Ok(LobbyReply::Orders(orders))
    }

    /// The list of them.
    pub(crate) fn orders_copy(&self) -> Result<Listed<Order>, NoMemory>
        ensures { IfOk result (λ orders. orders ≡ orders_told self.now.shelf) }
    {
        self.shelf.orders_told()
    }
}
