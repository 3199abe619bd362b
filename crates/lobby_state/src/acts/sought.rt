//! Sought: a member asks which seeks stand.
ghost use Rattle.std.specs.Prelude.{◌≡◌, ◌≤◌, ◌∷◌, ◌++◌, [], IfOk, OnOk, All, length};
ghost use Rattle.fics_words.specs.Effect.{Takes};
ghost use Rattle.fics_words.specs.Line.{IsPrintable};
ghost use Rattle.fics_words.specs.Handle.{most_handle_letters};
ghost use Rattle.lobby_state.specs.Lobby.{member_of};
ghost use Rattle.lobby_state.specs.Sought.{name_in, sought_effect, sought_line, sought_lines, sought_words};

use crate::acts::LobbyReply;
use crate::roster::Roster;
use crate::terms::put_terms;
use fics_words::{Fail, Lines, Refusal, write_number};
use memory::NoMemory;
use seek_match::Seek;

impl Roster {
    /// The lines of the seeks, in the order of their numbers. It is refused where the session isn't a member.
    pub(crate) fn sought(&self, session: u32) -> Result<LobbyReply, Fail>
        ensures { Takes (sought_effect self.now session) self.now self.now result }
    {
        if self.member(session).is_none() {
            return Err(Fail::Refused(Refusal::NotIn));
        }
        let lines = self.sought_lines()?;
        Ok(LobbyReply::Lines(lines))
    }

    /// The list of these lines.
    pub(crate) fn sought_lines(&self) -> Result<Lines, NoMemory>
        ensures { IfOk result (λ lines. lines ≡ sought_lines self.now) }
    {
        let mut lines = Lines::new(self.alloc);
        let mut text = Vec::new(self.alloc);
        for seek in self.seeks.rows() {
            self.put_seek(&mut lines, &mut text, *seek)?;
        }
        Ok(lines)
    }

    /// Appends the line of a seek, `N H M I V C`: its number, whose it is, and on which terms. It is written in `text`
    /// first.
    fn put_seek(&self, lines: &mut Lines, text: &mut Vec<u8>, seek: Seek) -> Result<(), NoMemory>
        ensures { OnOk result (lines.new ≡ lines.old ++ sought_line self.now seek ∷ []) }
    {
        write_seek(text, self.letters_of(seek.by), seek)?;
        lines.push(text.as_slice())
    }

    /// The letters of the session's handle; none where it isn't a member.
    pub(crate) fn letters_of(&self, session: u32) -> &[u8]
        ensures letters { result.now ≡ name_in (member_of self.now session) }
        ensures short { length result.now ≤ most_handle_letters }
        ensures shows { All IsPrintable result.now }
    {
        match self.member(session) {
            Some(member) => member.name.letters(),
            None => &[],
        }
    }
}

/// Writes the line of a seek, by a player with these letters, in place of what the text has.
fn write_seek(text: &mut Vec<u8>, letters: &[u8], seek: Seek) -> Result<(), NoMemory>
    ensures { OnOk result (text.new.items ≡ sought_words letters.now seek) }
{
    text.clear();
    write_number(text, u64::from(seek.number))?;
    text.push(b' ')?;
    text.extend_from_slice(letters)?;
    text.push(b' ')?;
    put_terms(seek.terms, text)
}
