//! List: a member puts a name on one of its two lists, or takes it off; and what the lists keep away.
ghost use Rattle.std.specs.Prelude.{◌≡◌, Some};
ghost use Rattle.fics_words.specs.Effect.{Takes};
ghost use Rattle.lobby_state.specs.NameList.{avoids, censors, change_among, list_effect, names_with};

use crate::acts::LobbyReply;
use crate::member::Member;
use crate::members::Members;
use crate::roster::Roster;
use channel_feed::NameList;
use fics_words::{Fail, HandleKey, Refusal};

/// A list of names of a member, by FICS's names.
#[derive(Clone, Copy)]
pub enum WhichList {
    /// Those who can't tell the member anything, nor play with it.
    Censor,
    /// Those who can't play with the member.
    Noplay,
}

impl Member {
    /// Whether the member doesn't hear the other, which is on its censor list.
    pub(crate) fn censors(&self, other: &Member) -> bool
        ensures { result ≡ censors (Some other.now) self.now }
    {
        self.censor.has(other.name.key())
    }

    /// Whether the member doesn't play with the other, which is on one of its lists.
    pub(crate) fn avoids(&self, other: &Member) -> bool
        ensures { result ≡ avoids (Some other.now) self.now }
    {
        let key = other.name.key();
        self.noplay.has(key) || self.censor.has(key)
    }
}

impl Roster {
    /// The member puts the name on that list, or takes it off where `on` is false, which takes no memory. The causes of
    /// a refusal, in order: the session isn't a member; the name is on the list, and 100 names are; or, where it is
    /// taken off, it isn't on the list.
    pub(crate) fn list(
        &mut self,
        session: u32,
        which: WhichList,
        name: HandleKey,
        on: bool,
    ) -> Result<LobbyReply, Fail>
        ensures { Takes (list_effect self.old session which name on) self.old self.new result }
    {
        if self.member(session).is_none() {
            return Err(Fail::Refused(Refusal::NotIn));
        }
        change_list(&mut self.members, session, which, name, on)?;
        Ok(LobbyReply::Done)
    }
}

/// The session's member puts the name on that list, or takes it off; nothing changes where it is no member.
fn change_list(
    members: &mut Members,
    session: u32,
    which: WhichList,
    name: HandleKey,
    on: bool,
) -> Result<(), Fail>
    ensures { Takes (change_among session which name on members.old) members.old members.new result }
{
    let Some(place) = members.place(session) else {
        return Ok(());
    };
    match which {
        WhichList::Censor => change_names(members.censor_mut(place), name, on),
        WhichList::Noplay => change_names(members.noplay_mut(place), name, on),
    }
}

/// Puts the name on the list, or takes it off. Refuses with `OnList` where it is on it, and else with `ListFull` where
/// 100 are; and where it is taken off, which takes no memory, with `NotOnList` where it isn't on it.
fn change_names(names: &mut NameList, name: HandleKey, on: bool) -> Result<(), Fail>
    ensures { Takes (names_with names.old name on) names.old names.new result }
{
    if on {
        return names.add(name);
    }
    names.remove(name)?;
    Ok(())
}
