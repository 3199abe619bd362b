//! Stored: a member asks which adjourned games of its own wait to be resumed.
ghost use Rattle.std.specs.Prelude.{◌≡◌, ◌*◌, ◌≤◌, ◌++◌, IfOk, OnOk, All, length};
ghost use Rattle.fics_words.specs.Effect.{Takes};
ghost use Rattle.fics_words.specs.Line.{IsLine, IsPrintable};
ghost use Rattle.lobby_state.specs.Stored.{names_words, stored_effect, stored_lines, stored_words, lines_for};

use crate::acts::LobbyReply;
use crate::roster::Roster;
use crate::terms::put_terms;
use chess_model::Terms;
use fics_words::{Fail, Handle, HandleKey, Lines, Refusal, write_number};
use memory::NoMemory;

impl Roster {
    /// The lines of the member's own games, in the order of their numbers. It is refused where the session isn't a
    /// member.
    pub(crate) fn stored(&self, session: u32) -> Result<LobbyReply, Fail>
        ensures { Takes (stored_effect self.now session) self.now self.now result }
    {
        if self.member(session).is_none() {
            return Err(Fail::Refused(Refusal::NotIn));
        }
        let lines = self.stored_lines(session)?;
        Ok(LobbyReply::Lines(lines))
    }

    /// The list of these lines; none where the session isn't a member.
    pub(crate) fn stored_lines(&self, session: u32) -> Result<Lines, NoMemory>
        ensures { IfOk result (λ lines. lines ≡ stored_lines self.now session) }
    {
        match self.member(session) {
            Some(member) => self.lines_for(member.name.key()),
            None => Ok(Lines::new(self.alloc)),
        }
    }

    /// The lines of the games that the handle with this key plays in.
    fn lines_for(&self, key: HandleKey) -> Result<Lines, NoMemory>
        ensures { IfOk result (λ lines. lines ≡ lines_for self.now.shelf.games key) }
    {
        let mut lines = Lines::new(self.alloc);
        let mut text = Vec::new(self.alloc);
        let mut games = self.shelf.of_player(key);
        while let Some(row) = games.next() {
            write_stored(&mut text, row.number, &row.game.names, row.game.terms)?;
            lines.push(text.as_slice())?;
        }
        Ok(lines)
    }
}

/// Writes the line of a stored game, `N W B M I V`, and of a pair `N W B C D M I V`, in place of what the text has: its
/// number, its players in the order of their seats, and its terms.
fn write_stored(
    text: &mut Vec<u8>,
    number: u64,
    names: &[Handle],
    terms: Terms,
) -> Result<(), NoMemory>
    requires players { length names.now ≤ 4 }
    ensures words { OnOk result (text.new.items ≡ stored_words number names.now terms) }
    ensures line { OnOk result (IsLine text.new.items) }
{
    text.clear();
    write_number(text, number)?;
    put_names(text, names)?;
    text.push(b' ')?;
    put_terms(terms, text)?;
    Ok(())
}

/// Appends the names, each behind a blank.
fn put_names(text: &mut Vec<u8>, names: &[Handle]) -> Result<(), NoMemory>
    ensures words { OnOk result (text.new.items ≡ text.old.items ++ names_words names.now) }
    ensures short { OnOk result (length (names_words names.now) ≤ 18 * length names.now) }
    ensures shows { OnOk result (All IsPrintable (names_words names.now)) }
{
    for name in names {
        text.push(b' ')?;
        text.extend_from_slice(name.letters())?;
    }
    Ok(())
}
