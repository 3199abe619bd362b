//! The texts of answers, each line ended by a line feed.

ghost use Rattle.std.specs.Prelude.{◌≡◌, ◌++◌, ◌<◌, ◌+◌, All, OnOk, codes, decimal, length};
ghost use Rattle.std.specs.List.{flat_map};
ghost use Rattle.tourney_desk.specs.Pairing.{IsOfPlayers};
ghost use Rattle.cmd_tourney.specs.Texts.{name_at, pair_text, rounds_text, row_text, rows_text};

use fics_words::write_number;
use memory::NoMemory;
use tourney_desk::{ScoreRow, Tourney};

/// The end of each line.
pub(crate) const LINE_END: &[u8] = b"\n";

/// Appends the line that tells what was done.
pub(crate) fn put_done(out: &mut Vec<u8>) -> Result<(), NoMemory>
    ensures { OnOk result (out.new.items ≡ out.old.items ++ codes "Ok.\n") }
{
    out.extend_from_slice(b"Ok.\n")?;
    Ok(())
}

/// Appends the number of rounds.
pub(crate) fn put_rounds(rounds: u8, out: &mut Vec<u8>) -> Result<(), NoMemory>
    ensures { OnOk result (out.new.items ≡ out.old.items ++ rounds_text rounds) }
{
    out.extend_from_slice(b"rounds ")?;
    write_number(out, u64::from(rounds))?;
    out.extend_from_slice(LINE_END)?;
    Ok(())
}

/// Appends the lines of pairs, which name White and Black.
pub(crate) fn put_pairs(
    tourney: &Tourney,
    pairs: &[(u8, u8)],
    out: &mut Vec<u8>,
) -> Result<(), NoMemory>
    requires { All (IsOfPlayers (length tourney.now.players)) pairs.now }
    ensures { OnOk result (out.new.items ≡ out.old.items ++ flat_map (pair_text tourney.now.players) pairs.now) }
{
    for pair in pairs {
        put_pair(tourney, *pair, out)?;
    }
    Ok(())
}

/// Appends the line of a pair.
fn put_pair(tourney: &Tourney, pair: (u8, u8), out: &mut Vec<u8>) -> Result<(), NoMemory>
    requires white { pair.0 < length tourney.now.players }
    requires black { pair.1 < length tourney.now.players }
    ensures { OnOk result (out.new.items ≡ out.old.items ++ pair_text tourney.now.players pair) }
{
    put_name(tourney, pair.0, out)?;
    out.extend_from_slice(b" - ")?;
    put_name(tourney, pair.1, out)?;
    out.extend_from_slice(LINE_END)?;
    Ok(())
}

/// Appends the name of a player.
fn put_name(tourney: &Tourney, player: u8, out: &mut Vec<u8>) -> Result<(), NoMemory>
    requires { player < length tourney.now.players }
    ensures { OnOk result (out.new.items ≡ out.old.items ++ name_at tourney.now.players player) }
{
    let name = tourney.name(player);
    out.extend_from_slice(name.letters())?;
    Ok(())
}

/// Appends the lines of the table, with places from 1 on.
pub(crate) fn put_rows(
    tourney: &Tourney,
    rows: &[ScoreRow],
    out: &mut Vec<u8>,
) -> Result<(), NoMemory>
    requires { All (λ row. row.player < length tourney.now.players) rows.now }
    ensures { OnOk result (out.new.items ≡ out.old.items ++ rows_text tourney.now.players 1 rows.now) }
{
    for index in 0..rows.len() {
        put_row(tourney, index as u64 + 1, &rows[index], out)?;
    }
    Ok(())
}

/// Appends the line of a row of the table.
fn put_row(tourney: &Tourney, place: u64, row: &ScoreRow, out: &mut Vec<u8>) -> Result<(), NoMemory>
    requires { row.now.player < length tourney.now.players }
    ensures { OnOk result (out.new.items ≡ out.old.items ++ row_text tourney.now.players place row.now) }
{
    put_field(place, out)?;
    put_name(tourney, row.player, out)?;
    out.extend_from_slice(b" ")?;
    put_field(u64::from(row.games), out)?;
    write_number(out, u64::from(row.halves))?;
    out.extend_from_slice(LINE_END)?;
    Ok(())
}

/// Appends a number and a blank.
fn put_field(number: u64, out: &mut Vec<u8>) -> Result<(), NoMemory>
    ensures { OnOk result (out.new.items ≡ out.old.items ++ (decimal number ++ codes " ")) }
{
    write_number(out, number)?;
    out.extend_from_slice(b" ")?;
    Ok(())
}
