//! Laws of the words of commands and of terms.

ghost use Rattle.std.specs.Prelude.{◌≡◌};
ghost use Rattle.command_words.specs.TermReading.{AreReadAsSpelled};
ghost use Rattle.command_words.specs.Words.{commands};
ghost use Rattle.command_words.specs.declared.rows.TheConstants.{ROWS};

/// The table of the code has the commands of the definition, row by row: each with its name, its short form and what it
/// takes.
pub fn the_table_has_the_commands()
    ensures { ROWS.now ≡ commands }
{}

/// Words are read as terms exactly where they spell them; so no words spell two terms.
pub fn terms_are_read_as_spelled()
    ensures { AreReadAsSpelled }
{}
