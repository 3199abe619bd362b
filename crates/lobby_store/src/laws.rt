//! What holds of lobbies and stores, as calls that do nothing: each says by its contract what was proved.
ghost use Rattle.lobby_store.specs.Agreeing.{ActsLeadAlong};

/// Every act of a lobby leads a store along, but for one that tells save orders as saved: a table that, with the orders
/// carried out, was what the lobby wants still is so; and so does every plan that is carried out.
pub fn acts_lead_along()
    ensures { ActsLeadAlong }
{}
