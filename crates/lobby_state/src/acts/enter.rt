//! Enter: a session comes in under a handle, or as a guest.
ghost use Rattle.std.specs.Prelude.{◌≡◌, ◌<◌, ◌++◌, None, length, map};
ghost use Rattle.fics_words.specs.Effect.{Takes};
ghost use Rattle.fics_words.specs.Handle.{key_of};
ghost use Rattle.lobby_state.specs.Enter.{enter_effect, entering, entrant_of, guest_in};
ghost use Rattle.lobby_state.specs.Lobby.{holder_of, member_of, most_members};

use crate::acts::LobbyReply;
use crate::member::Member;
use crate::members::{MOST_MEMBERS, Members};
use crate::roster::Roster;
use fics_words::{Digest, Fail, Handle, HandleKey, Refusal};
use login_handles::{Accounts, Check, NamesInUse, guest_name};

/// Who asks to come in: under which handle, and what its account says of the password.
#[derive(Clone, Copy)]
pub(crate) struct Entrant {
    pub(crate) name: Handle,
    pub(crate) check: Check,
}

/// The names that members and accounts have.
#[derive(Clone, Copy)]
struct NamesTaken<'a> {
    members: &'a Members,
    accounts: &'a Accounts,
}

impl<'a> NamesInUse for NamesTaken<'a> {
    ghost keys = { λ names. map (λ member. key_of member.name) names.members.now
        ++ map (λ account. key_of account.name) names.accounts.now };

    fn has(&self, key: HandleKey) -> bool {
        self.members.with_handle(key).is_some() || self.accounts.get(key).is_some()
    }
}

impl Roster {
    /// The session becomes a member, where no password is missing. The causes of a refusal, in order: there are 256
    /// members; this session has entered, or a member has the handle; the digest isn't that of the handle's account.
    pub(crate) fn enter(
        &mut self,
        session: u32,
        name: Option<Handle>,
        digest: Option<Digest>,
    ) -> Result<LobbyReply, Fail>
        ensures { Takes (enter_effect self.old session name digest) self.old self.new result }
    {
        if self.members.len() >= MOST_MEMBERS {
            return Err(Fail::Refused(Refusal::HallFull));
        }
        let entrant = self.entrant(name, digest);
        if self.member(session).is_some() || self.with_handle(entrant.name.key()).is_some() {
            return Err(Fail::Refused(Refusal::HandleTaken));
        }
        match entrant.check {
            Check::Wrong => Err(Fail::Refused(Refusal::WrongPassword)),
            Check::NeedPassword => Ok(LobbyReply::NeedPassword),
            Check::Free => self.come_in(session, entrant.name),
            Check::Right => self.come_in(session, entrant.name),
        }
    }

    /// The session stands behind the other members.
    fn come_in(&mut self, session: u32, name: Handle) -> Result<LobbyReply, Fail>
        requires room { length self.old.members < most_members }
        requires new { member_of self.old session ≡ None }
        requires handle { holder_of self.old (key_of name) ≡ None }
        ensures { Takes (entering self.old session name) self.old self.new result }
    {
        let member = Member::new(self.alloc, session, name);
        self.members.push(member)?;
        Ok(LobbyReply::Entered(name))
    }

    /// Who asks to come in: a guest under the next name; or whoever gives a handle, which has its account's spelling
    /// where it has an account.
    fn entrant(&self, name: Option<Handle>, digest: Option<Digest>) -> Entrant
        requires { length self.now.members < most_members }
        ensures { result ≡ entrant_of self.now name digest }
    {
        let Some(name) = name else {
            return Entrant {
                name: self.next_guest(),
                check: Check::Free,
            };
        };
        let check = self.accounts.check(name.key(), digest);
        match self.accounts.get(name.key()) {
            Some(account) => Entrant {
                name: account.name,
                check,
            },
            None => Entrant { name, check },
        }
    }

    /// The least name of a guest that no member and no account has.
    fn next_guest(&self) -> Handle
        requires { length self.now.members < most_members }
        ensures { result ≡ guest_in self.now }
    {
        // The accounts are what says that they are few.
        let _accounts = self.accounts.rows();
        guest_name(&NamesTaken {
            members: &self.members,
            accounts: &self.accounts,
        })
    }
}
