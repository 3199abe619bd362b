//! Register: a member makes an account of its handle.
ghost use Rattle.std.specs.Prelude.{◌+◌, ◌<◌, ◌^◌};
ghost use Rattle.fics_words.specs.Effect.{Takes};
ghost use Rattle.lobby_state.specs.Registration.{loading_effect, registration_effect};

use crate::acts::LobbyReply;
use crate::roster::Roster;
use fics_words::{Account, Digest, Fail, Refusal};

impl Roster {
    /// The member's handle has an account from now on, and a save order puts it into the store. The causes of a
    /// refusal, in order: the session isn't a member; the handle has an account; there are 4,096 accounts.
    pub(crate) fn register(&mut self, session: u32, digest: Digest) -> Result<LobbyReply, Fail>
        requires count { self.old.shelf.made + 1 < 2 ^ 64 }
        ensures { Takes (registration_effect self.old session digest) self.old self.new result }
    {
        let Some(member) = self.member(session) else {
            return Err(Fail::Refused(Refusal::NotIn));
        };
        let account = Account {
            name: member.name,
            digest,
        };
        let saving = self.shelf.saving_of_account(&account)?;
        self.accounts.add(account.name, account.digest)?;
        self.shelf.order(saving);
        Ok(LobbyReply::Done)
    }

    /// An account that was kept elsewhere stands behind the others. The causes of a refusal, in order: its handle has
    /// an account; there are 4,096 accounts.
    pub(crate) fn add_account(&mut self, account: Account) -> Result<(), Fail>
        ensures { Takes (loading_effect self.old account) self.old self.new result }
    {
        self.accounts.add(account.name, account.digest)
    }
}
