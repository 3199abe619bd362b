//! A part of the hall as it lies behind its turn: apart, since who takes a turn moves what lies there, and a lobby has
//! more than half a kilobyte.

ghost use Rattle.std.specs.Prelude.{◌≡◌, IfOk};

use memory::NoMemory;
use one_server::Part;
use std::alloc::Global;
use std::marker::Model;

/// A part as it lies behind its turn. Contracts see the part.
#[derive(Drop)]
pub struct BoxedPart {
    pub(crate) part: Box<Part>,
}

impl Model for BoxedPart {
    ghost use Rattle.one_server.specs.declared.part.Part.{Part};

    ghost Value = { Part };

    ghost view = { λ boxed. boxed.part.value };
}

impl BoxedPart {
    /// Puts a part in its place.
    pub(crate) fn new(alloc: Global, part: Part) -> Result<BoxedPart, NoMemory>
        ensures { IfOk result (λ boxed. boxed ≡ part) }
    {
        let Ok(part) = Box::new(alloc, part) else {
            return Err(NoMemory);
        };
        Ok(BoxedPart { part })
    }

    /// Gives the part back, which takes no memory.
    pub(crate) fn into_part(self) -> Part
        ensures { result ≡ self }
    {
        let BoxedPart { part } = self;
        Box::into_inner(part)
    }
}
