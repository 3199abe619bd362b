//! Pending: a member asks which challenges to it and by it stand.
ghost use Rattle.std.specs.Prelude.{◌≡◌, ◌∷◌, ◌++◌, [], IfOk, OnOk};
ghost use Rattle.fics_words.specs.Effect.{Takes};
ghost use Rattle.lobby_state.specs.Pending.{is_on_side, other_of, pending_effect, pending_line, pending_lines, pending_words, side_lines, side_words};

use crate::acts::LobbyReply;
use crate::roster::Roster;
use crate::terms::put_terms;
use chess_model::Terms;
use fics_words::{Fail, Lines, Refusal};
use memory::NoMemory;
use seek_match::Challenge;

/// On which side of a challenge the member stands that asks.
#[derive(Clone, Copy)]
pub(crate) enum ChallengeSide {
    /// Another challenges the member.
    FromOthers,
    /// The member challenges another.
    ToOthers,
}

impl Roster {
    /// The lines of the challenges to the member and then of those by it, both in the order in which they were made. It
    /// is refused where the session isn't a member.
    pub(crate) fn pending(&self, session: u32) -> Result<LobbyReply, Fail>
        ensures { Takes (pending_effect self.now session) self.now self.now result }
    {
        if self.member(session).is_none() {
            return Err(Fail::Refused(Refusal::NotIn));
        }
        let lines = self.pending_lines(session)?;
        Ok(LobbyReply::Lines(lines))
    }

    /// The list of these lines.
    pub(crate) fn pending_lines(&self, session: u32) -> Result<Lines, NoMemory>
        ensures { IfOk result (λ lines. lines ≡ pending_lines self.now session) }
    {
        let mut lines = Lines::new(self.alloc);
        let mut text = Vec::new(self.alloc);
        self.put_side(&mut lines, &mut text, session, ChallengeSide::FromOthers)?;
        self.put_side(&mut lines, &mut text, session, ChallengeSide::ToOthers)?;
        Ok(lines)
    }

    /// Appends the lines of the challenges on this side of the session. Each is written in `text` first.
    fn put_side(
        &self,
        lines: &mut Lines,
        text: &mut Vec<u8>,
        session: u32,
        side: ChallengeSide,
    ) -> Result<(), NoMemory>
        ensures { OnOk result (lines.new ≡ lines.old ++ side_lines self.now session side self.now.challenges) }
    {
        for challenge in self.challenges.rows() {
            self.put_on_side(lines, text, session, side, *challenge)?;
        }
        Ok(())
    }

    /// Appends the line of a challenge, where it is on this side of the session.
    fn put_on_side(
        &self,
        lines: &mut Lines,
        text: &mut Vec<u8>,
        session: u32,
        side: ChallengeSide,
        challenge: Challenge,
    ) -> Result<(), NoMemory>
        ensures { OnOk result (lines.new ≡ lines.old ++ side_lines self.now session side (challenge ∷ [])) }
    {
        if is_on_side(side, session, challenge) {
            return self.put_challenge(lines, text, side, challenge);
        }
        Ok(())
    }

    /// Appends the line of a challenge, `from H M I V C` or `to H M I V C`: the other, and on which terms.
    fn put_challenge(
        &self,
        lines: &mut Lines,
        text: &mut Vec<u8>,
        side: ChallengeSide,
        challenge: Challenge,
    ) -> Result<(), NoMemory>
        ensures { OnOk result (lines.new ≡ lines.old ++ pending_line self.now side challenge ∷ []) }
    {
        let letters = self.letters_of(other_of(side, challenge));
        write_challenge(text, side, letters, challenge.terms)?;
        lines.push(text.as_slice())
    }
}

/// Whether the challenge is on this side of the session.
fn is_on_side(side: ChallengeSide, session: u32, challenge: Challenge) -> bool
    ensures { result ≡ is_on_side side session challenge }
{
    match side {
        ChallengeSide::FromOthers => challenge.to == session,
        ChallengeSide::ToOthers => challenge.from == session,
    }
}

/// The session of the other.
fn other_of(side: ChallengeSide, challenge: Challenge) -> u32
    ensures { result ≡ other_of side challenge }
{
    match side {
        ChallengeSide::FromOthers => challenge.from,
        ChallengeSide::ToOthers => challenge.to,
    }
}

/// How the line of such a challenge begins.
fn side_words(side: ChallengeSide) -> &'static [u8]
    ensures { result.now ≡ side_words side }
{
    match side {
        ChallengeSide::FromOthers => b"from ",
        ChallengeSide::ToOthers => b"to ",
    }
}

/// Writes the line of a challenge, where the other has these letters, in place of what the text has.
fn write_challenge(
    text: &mut Vec<u8>,
    side: ChallengeSide,
    letters: &[u8],
    terms: Terms,
) -> Result<(), NoMemory>
    ensures { OnOk result (text.new.items ≡ pending_words side letters.now terms) }
{
    text.clear();
    text.extend_from_slice(side_words(side))?;
    text.extend_from_slice(letters)?;
    text.push(b' ')?;
    put_terms(terms, text)
}
