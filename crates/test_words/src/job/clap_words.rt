//! The same command lines as `clap` reads them.

use clap::builder::ValueParser;
use clap::{Arg, ArgMatches, Command, Error};
use std::alloc::{AllocError, Global};
use std::test::Fail;

/// Whether `clap` reads the words as what a row says.
pub(crate) fn is_clap_reading(alloc: Global, words: &[String], named: &str) -> Result<bool, Fail> {
    let mut all = Vec::new(alloc);
    put_all(&mut all, words)?;
    is_line_said(alloc, &all, named)
}

/// Puts the program's name and the words behind it.
fn put_all<'a>(all: &mut Vec<&'a str>, words: &'a [String]) -> Result<(), AllocError> {
    all.push("ficsd")?;
    for word in words {
        all.push(word.as_str())?;
    }
    Ok(())
}

fn is_line_said(alloc: Global, all: &[&str], named: &str) -> Result<bool, Fail> {
    let line = command_line(alloc)?;
    let matches = matches_of(line, all);
    is_said(alloc, &matches, named)
}

/// Calls of `clap`. They ensure nothing, so that nothing above them is proved over what it does.
fn matches_of<'a>(line: Command<'a>, all: &'a [&'a str]) -> Result<ArgMatches<'a>, Error> {
    line.try_get_matches_from(all)
}

fn value<'a>(options: &ArgMatches<'a>, id: &str) -> Option<&'a str> {
    options.get_str(id)
}

fn command<'a>(alloc: Global, name: &'a str) -> Command<'a> {
    Command::new(alloc, name)
}

fn with_arg<'a>(word: Command<'a>, arg: Arg<'a>) -> Result<Command<'a>, AllocError> {
    word.arg(arg)
}

/// The line with a word more, where there is memory for that.
fn with_word<'a>(
    line: Command<'a>,
    word: Result<Command<'a>, AllocError>,
) -> Result<Command<'a>, AllocError> {
    match word {
        Ok(word) => line.subcommand(word),
        Err(lack) => Err(lack),
    }
}

/// What stands behind a word, and has to.
fn place<'a>(alloc: Global, id: &'a str, values: ValueParser<'a>) -> Arg<'a> {
    Arg::new(alloc, id).required(true).value_parser(values)
}

fn option<'a>(alloc: Global, id: &'a str, required: bool, values: ValueParser<'a>) -> Arg<'a> {
    Arg::new(alloc, id)
        .long(id)
        .required(required)
        .value_parser(values)
}

fn with_default<'a>(arg: Arg<'a>, value: &'a str) -> Arg<'a> {
    arg.default_value(value)
}

fn is_said(
    alloc: Global,
    matches: &Result<ArgMatches<'_>, Error>,
    named: &str,
) -> Result<bool, Fail> {
    match matches {
        Ok(matches) => is_command_said(alloc, matches, named),
        Err(_) => Ok(named == "-"),
    }
}

fn is_command_said(alloc: Global, matches: &ArgMatches<'_>, named: &str) -> Result<bool, Fail> {
    let Some((name, options)) = matches.subcommand() else {
        return Ok(named == "-");
    };
    let said = said(alloc, name, options)?;
    Ok(said.as_str() == named)
}

/// A command and what its options say, in the words of a row.
fn said(alloc: Global, name: &str, options: &ArgMatches<'_>) -> Result<String, Fail> {
    if name == "serve" {
        return serve_text(alloc, options);
    }
    if name == "examine" {
        return examine_text(alloc, options);
    }
    if name == "bot" {
        return with_value(alloc, name, options, "depth");
    }
    if name == "demo" {
        return with_value(alloc, name, options, "number");
    }
    if name == "check" || name == "pgn" {
        return with_value(alloc, name, options, "store");
    }
    Ok(String::from_str(alloc, name)?)
}

fn with_value(
    alloc: Global,
    name: &str,
    options: &ArgMatches<'_>,
    id: &str,
) -> Result<String, Fail> {
    let value = value(options, id).ok_or("a value")?;
    Ok(format!(in alloc; "{name} {value}")?)
}

/// What the options of `serve` say.
fn serve_text(alloc: Global, options: &ArgMatches<'_>) -> Result<String, Fail> {
    let port = value(options, "port").ok_or("a port")?;
    let bind = value(options, "bind").ok_or("an address")?;
    let store = value(options, "store").unwrap_or("-");
    let count = value(options, "count").unwrap_or("-");
    Ok(format!(in alloc; "serve {port} {bind} {store} {count}")?)
}

/// What the options of `examine` say.
fn examine_text(alloc: Global, options: &ArgMatches<'_>) -> Result<String, Fail> {
    let store = value(options, "store").ok_or("a store")?;
    let game = value(options, "game").ok_or("a game")?;
    Ok(format!(in alloc; "examine {store} {game}")?)
}

/// The program's command line.
fn command_line<'a>(alloc: Global) -> Result<Command<'a>, AllocError> {
    let line = with_word(command(alloc, "ficsd"), Ok(command(alloc, "board")))?;
    let line = with_word(line, Ok(command(alloc, "replay")))?;
    let line = with_word(line, Ok(command(alloc, "tourney")))?;
    let line = with_word(line, Ok(command(alloc, "tidy")))?;
    let line = with_word(line, bot_line(alloc))?;
    let line = with_word(line, demo_line(alloc))?;
    let line = with_word(line, stored_line(alloc, "check"))?;
    let line = with_word(line, stored_line(alloc, "pgn"))?;
    let line = with_word(line, examine_line(alloc))?;
    with_word(line, serve_line(alloc))
}

/// The word behind `bot`.
fn bot_line<'a>(alloc: Global) -> Result<Command<'a>, AllocError> {
    let depth = place(alloc, "depth", ValueParser::Unsigned(0, 4));
    with_arg(command(alloc, "bot"), depth)
}

/// The word behind `demo`.
fn demo_line<'a>(alloc: Global) -> Result<Command<'a>, AllocError> {
    let number = place(alloc, "number", ValueParser::Unsigned(0, 999_999));
    with_arg(command(alloc, "demo"), number)
}

/// The option that names a store.
fn store_option<'a>(alloc: Global, required: bool) -> Arg<'a> {
    option(alloc, "store", required, ValueParser::NonEmptyString)
}

/// The option of a word that is over a store alone.
fn stored_line<'a>(alloc: Global, name: &'a str) -> Result<Command<'a>, AllocError> {
    with_arg(command(alloc, name), store_option(alloc, true))
}

fn game_option<'a>(alloc: Global) -> Arg<'a> {
    let values = ValueParser::Unsigned(1, 18_446_744_073_709_551_615);
    option(alloc, "game", true, values)
}

/// The options of `examine`.
fn examine_line<'a>(alloc: Global) -> Result<Command<'a>, AllocError> {
    let line = stored_line(alloc, "examine")?;
    with_arg(line, game_option(alloc))
}

fn port_option<'a>(alloc: Global) -> Arg<'a> {
    option(alloc, "port", true, ValueParser::Unsigned(1, 65_535))
}

fn bind_option<'a>(alloc: Global) -> Arg<'a> {
    let bind = option(alloc, "bind", false, ValueParser::NonEmptyString);
    with_default(bind, "127.0.0.1")
}

fn count_option<'a>(alloc: Global) -> Arg<'a> {
    let values = ValueParser::Unsigned(1, 2_147_483_648);
    option(alloc, "count", false, values)
}

/// The options of `serve`.
fn serve_line<'a>(alloc: Global) -> Result<Command<'a>, AllocError> {
    let line = with_arg(command(alloc, "serve"), port_option(alloc))?;
    let line = with_arg(line, bind_option(alloc))?;
    let line = with_arg(line, store_option(alloc, false))?;
    with_arg(line, count_option(alloc))
}
