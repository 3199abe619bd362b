//! Games: a member asks which games there are.
ghost use Rattle.std.specs.Prelude.{◌≡◌, ◌≤◌, ◌∷◌, ◌++◌, [], IfOk, OnOk, Some};
ghost use Rattle.fics_words.specs.Effect.{Takes};
ghost use Rattle.lobby_state.specs.Games.{board_line, board_words, game_number, games_effect, games_lines, lines_at, second_line};

use crate::acts::LobbyReply;
use crate::game::{DESKS, ListedGame};
use crate::roster::Roster;
use crate::terms::put_terms;
use chess_model::Terms;
use fics_words::{DeskNumber, Fail, Lines, Opponents, Refusal, write_number};
use memory::NoMemory;

impl Roster {
    /// The lines of all games, in the order of their numbers, one a board. It is refused where the session isn't a
    /// member.
    pub(crate) fn games(&self, session: u32) -> Result<LobbyReply, Fail>
        ensures { Takes (games_effect self.now session) self.now self.now result }
    {
        if self.member(session).is_none() {
            return Err(Fail::Refused(Refusal::NotIn));
        }
        let lines = self.games_lines()?;
        Ok(LobbyReply::Lines(lines))
    }

    /// The list of these lines.
    pub(crate) fn games_lines(&self) -> Result<Lines, NoMemory>
        ensures { IfOk result (λ lines. lines ≡ games_lines self.now) }
    {
        let mut lines = Lines::new(self.alloc);
        let mut text = Vec::new(self.alloc);
        for slot in 0..DESKS {
            let desk = DeskNumber::new(slot as u8 + 1);
            put_desk(&mut lines, &mut text, desk, self.game(desk))?;
        }
        Ok(lines)
    }
}

/// Appends the lines of the desk, where it is in use. Each is written in `text` first.
fn put_desk(
    lines: &mut Lines,
    text: &mut Vec<u8>,
    desk: DeskNumber,
    game: Option<ListedGame>,
) -> Result<(), NoMemory>
    ensures { OnOk result (lines.new ≡ lines.old ++ lines_at desk game) }
{
    match game {
        None => Ok(()),
        Some(game) => put_game(lines, text, desk, &game),
    }
}

/// Appends the lines of the desk in use for that game.
fn put_game(
    lines: &mut Lines,
    text: &mut Vec<u8>,
    desk: DeskNumber,
    game: &ListedGame,
) -> Result<(), NoMemory>
    ensures { OnOk result (lines.new ≡ lines.old ++ lines_at desk (Some game.now)) }
{
    put_board(
        lines,
        text,
        game_number(desk, 1),
        game.terms,
        game.seats.first,
    )?;
    put_second(
        lines,
        text,
        game_number(desk, 2),
        game.terms,
        game.seats.second,
    )
}

/// Appends the line of the second board, where there is one.
fn put_second(
    lines: &mut Lines,
    text: &mut Vec<u8>,
    number: u16,
    terms: Terms,
    second: Option<Opponents>,
) -> Result<(), NoMemory>
    ensures { OnOk result (lines.new ≡ lines.old ++ second_line number terms second) }
{
    match second {
        None => Ok(()),
        Some(opponents) => put_board(lines, text, number, terms, opponents),
    }
}

/// The number of the game at that desk's first or second board.
fn game_number(desk: DeskNumber, board: u16) -> u16
    requires { board ≤ 2 }
    ensures { result ≡ game_number desk board }
{
    2 * (u16::from(desk.get()) - 1) + board
}

/// Appends the line of a board, `G W B M I V`: the game's number, who has White and who has Black, and the terms
/// without a colour.
fn put_board(
    lines: &mut Lines,
    text: &mut Vec<u8>,
    number: u16,
    terms: Terms,
    opponents: Opponents,
) -> Result<(), NoMemory>
    ensures { OnOk result (lines.new ≡ lines.old ++ board_line number terms opponents ∷ []) }
{
    let white = opponents.white.name.letters();
    let black = opponents.black.name.letters();
    write_board(text, number, white, black, terms)?;
    lines.push(text.as_slice())
}

/// Writes that line, for players with these letters, in place of what the text has.
fn write_board(
    text: &mut Vec<u8>,
    number: u16,
    white: &[u8],
    black: &[u8],
    terms: Terms,
) -> Result<(), NoMemory>
    ensures { OnOk result (text.new.items ≡ board_words number white.now black.now terms) }
{
    text.clear();
    write_number(text, u64::from(number))?;
    text.push(b' ')?;
    text.extend_from_slice(white)?;
    text.push(b' ')?;
    text.extend_from_slice(black)?;
    text.push(b' ')?;
    let uncoloured = Terms {
        colour: None,
        ..terms
    };
    put_terms(uncoloured, text)
}
