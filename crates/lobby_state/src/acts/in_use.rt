//! InUse: a steward asks which desks are in use.
ghost use Rattle.std.specs.Prelude.{◌≡◌, IfOk};
ghost use Rattle.fics_words.specs.Effect.{Takes};
ghost use Rattle.lobby_state.specs.InUse.{desks_in_use, in_use_effect};

use crate::acts::LobbyReply;
use crate::desk_in_use::DeskInUse;
use crate::game::DESKS;
use crate::roster::Roster;
use collections::Listed;
use fics_words::{DeskNumber, Fail};
use memory::NoMemory;

impl Roster {
    /// The desks in use with their serials. It is never refused.
    pub(crate) fn in_use(&self) -> Result<LobbyReply, Fail>
        ensures { Takes (in_use_effect self.now) self.now self.now result }
    {
        let desks = self.desks_in_use()?;
        Ok(LobbyReply::Desks(desks))
    }

    /// The list of them, in ascending order.
    pub(crate) fn desks_in_use(&self) -> Result<Listed<DeskInUse>, NoMemory>
        ensures { IfOk result (λ rows. rows ≡ desks_in_use self.now) }
    {
        let mut rows = Listed::new(self.alloc);
        for slot in 0..DESKS {
            let desk = DeskNumber::new(slot as u8 + 1);
            if let Some(game) = self.game(desk) {
                rows.push(DeskInUse {
                    desk,
                    serial: game.serial,
                })?;
            }
        }
        Ok(rows)
    }
}
