//! Match: a member challenges another to a game.
ghost use Rattle.std.specs.Prelude.{◌≡◌, IfOk, OnErr, OnOk};
ghost use Rattle.channel_feed.specs.Waiting.{with_line as with_one_more};
ghost use Rattle.fics_words.specs.Effect.{Takes, first_cause};
ghost use Rattle.tables.specs.Rows.{change_first};
ghost use Rattle.lobby_state.specs.Lobby.{is_named};
ghost use Rattle.lobby_state.specs.Match.{challenge_words, challenged_by, match_causes, match_effect, member_with_line};
ghost use Rattle.seek_match.specs.Matches.{with_challenge};

use crate::acts::LobbyReply;
use crate::inbox::Inbox;
use crate::member::Member;
use crate::members::Members;
use crate::pairing::is_simul_of_four;
use crate::roster::Roster;
use crate::terms::with_terms;
use chess_model::Terms;
use fics_words::{Fail, Handle, HandleKey, Line, Refusal};
use memory::NoMemory;
use seek_match::{Challenge, MatchBook};
use std::alloc::Global;

impl Roster {
    /// The session challenges the named player. The causes of a refusal, in order: the session isn't a member; nobody
    /// has the handle, or that member is going; it is the session itself, or in bughouse its partner; one of the two
    /// has a place and gives no simul; the other has `open` off, or has the member on one of its lists; in bughouse
    /// one of the two gives a simul, or one has no partner; 512 lines wait for the other.
    pub(crate) fn challenge(
        &mut self,
        session: u32,
        to: HandleKey,
        terms: Terms,
    ) -> Result<LobbyReply, Fail>
        ensures { Takes (match_effect self.old session to terms) self.old self.new result }
    {
        let Some(caller) = self.member(session) else {
            return Err(Fail::Refused(Refusal::NotIn));
        };
        let Some(other) = self.named(to) else {
            return Err(Fail::Refused(Refusal::NoSuchPlayer));
        };
        if let Some(refusal) = self.challenge_refusal(session, caller, other, terms) {
            return Err(Fail::Refused(refusal));
        }
        let challenge = Challenge {
            from: caller.session,
            to: other.session,
            terms,
        };
        let name = caller.name;
        self.stand_challenge(name, to, challenge)?;
        Ok(LobbyReply::Done)
    }

    /// Why the session, which is the caller's, can't challenge the other, if it can't.
    fn challenge_refusal(
        &self,
        session: u32,
        caller: &Member,
        other: &Member,
        terms: Terms,
    ) -> Option<Refusal>
        ensures { result ≡ first_cause (match_causes self.now session caller.now other.now terms) }
    {
        if other.session == session || self.are_partners(caller, other, terms) {
            return Some(Refusal::BadOpponent);
        }
        if caller.is_busy() || other.is_busy() {
            return Some(Refusal::Playing);
        }
        if !other.wants.matches || other.avoids(caller) {
            return Some(Refusal::Refuses);
        }
        if is_simul_of_four(caller, other, terms) {
            return Some(Refusal::NotInVariant);
        }
        if self.lack_partner(caller, other, terms) {
            return Some(Refusal::NoPartner);
        }
        if other.is_full() {
            return Some(Refusal::QueueFull);
        }
        None
    }

    /// The challenge by the member of that name stands, and whom the key names is told.
    fn stand_challenge(
        &mut self,
        name: Handle,
        to: HandleKey,
        challenge: Challenge,
    ) -> Result<(), NoMemory>
        ensures ok { OnOk result (self.new ≡ challenged_by self.old name to challenge) }
        ensures err { OnErr result (self.new ≡ self.old) }
    {
        let line = challenge_line(self.alloc, name, challenge.terms)?;
        put_and_tell_named(&mut self.challenges, challenge, &mut self.members, to, line)
    }
}

/// The challenge stands, and the line of it waits for the member that the key names.
fn put_and_tell_named(
    challenges: &mut MatchBook,
    challenge: Challenge,
    members: &mut Members,
    to: HandleKey,
    line: Line,
) -> Result<(), NoMemory>
    ensures put { OnOk result (challenges.new ≡ with_challenge challenge challenges.old) }
    ensures told { OnOk result (members.new ≡ change_first (is_named to) (member_with_line line) members.old) }
    ensures err { OnErr result (challenges.new ≡ challenges.old) }
    ensures untold { OnErr result (members.new ≡ members.old) }
{
    let Some(place) = members.place_named(to) else {
        challenges.put(challenge)?;
        return Ok(());
    };
    put_and_tell(challenges, challenge, members.waiting_mut(place), line)?;
    Ok(())
}

/// The challenge stands, and the line of it waits behind these. Where memory runs out behind the line, it is taken
/// back.
fn put_and_tell(
    challenges: &mut MatchBook,
    challenge: Challenge,
    waiting: &mut Inbox,
    line: Line,
) -> Result<(), NoMemory>
    ensures put { OnOk result (challenges.new ≡ with_challenge challenge challenges.old) }
    ensures told { OnOk result (waiting.new ≡ with_one_more line waiting.old) }
    ensures err { OnErr result (challenges.new ≡ challenges.old) }
    ensures untold { OnErr result (waiting.new ≡ waiting.old) }
{
    let is_told = waiting.push(line)?;
    if let Err(NoMemory) = challenges.put(challenge) {
        if is_told {
            waiting.take_back();
        }
        return Err(NoMemory);
    }
    Ok(())
}

/// The line that a challenge sends, `Challenge: H M I V C`: who challenges, the minutes, the increment in seconds, the
/// variant, and the colour where the challenger asks for one.
fn challenge_line(alloc: Global, name: Handle, terms: Terms) -> Result<Line, NoMemory>
    ensures { IfOk result (λ line. line ≡ challenge_words name terms) }
{
    let text = challenge_text(alloc, name.letters(), terms)?;
    Ok(Line::from_bytes(text))
}

/// The bytes of that line, for a challenger with these letters.
fn challenge_text(alloc: Global, letters: &[u8], terms: Terms) -> Result<Vec<u8>, NoMemory>
    ensures { IfOk result (λ text. text.items ≡ challenge_words letters.now terms) }
{
    with_terms(alloc, b"Challenge: ", letters, terms)
}
