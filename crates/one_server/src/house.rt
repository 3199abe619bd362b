//! The server of one lobby and 128 desks, as a server of parts.

use crate::act::Timed;
use crate::part::Part;
use crate::reply::Reply;
use histories::Served;

/// The server whose parts are the lobby and the desks 1 to 128.
pub struct House;

impl Served for House {
    ghost use Rattle.one_server.specs.House.{house};
    ghost use Rattle.one_server.specs.LawfulProof.{house_lawful};

    type Part = Part;

    type Act = Timed;

    type Reply = Reply;

    ghost core = { house };

    ghost lawful = { house_lawful };
}
