//! Lists of words and what they name: `read_job` against what the grammar says, and against `clap`.

use crate::job::clap_words::is_clap_reading;
use cmd_job::{Job, JobFail, read_job};
use memory::NoMemory;
use std::alloc::{AllocError, Global};
use std::test::Fail;

/// The words, and behind the arrow what they name: a command with its values, those of `serve` in the order port,
/// address, store, count; `-` where they name nothing, or no store or count.
const ROWS: &str = "\
board => board
replay => replay
tourney => tourney
tidy => tidy
bot 0 => bot 0
bot 4 => bot 4
demo 0 => demo 0
demo 7 => demo 7
demo 999999 => demo 999999
Board => -
Tourney => -
board board => -
board --port 5000 => -
replay x => -
tourney 4 => -
tidy games.pgn => -
tourney --port 5000 => -
bot => -
bot 5 => -
bot -1 => -
bot x => -
bot 1 2 => -
bot --depth 1 => -
bot --depth=1 => -
Bot 1 => -
bot1 => -
bored => -
--help => -
--version => -
-h => -
help => -
serve => -
serve --port 5000 => serve 5000 127.0.0.1 - -
serve --port=5000 => serve 5000 127.0.0.1 - -
serve --port 1 => serve 1 127.0.0.1 - -
serve --port 65535 => serve 65535 127.0.0.1 - -
serve --port 0 => -
serve --port 65536 => -
serve --port -1 => -
serve --port=-1 => -
serve --port x => -
serve --port => -
serve --port= => -
serve 5000 => -
serve -p 5000 => -
serve --po 5000 => -
serve --ports 5000 => -
serve --Port 5000 => -
serve port 5000 => -
serve --bind 0.0.0.0 => -
serve --bind 0.0.0.0 --port 5000 => serve 5000 0.0.0.0 - -
serve --port 5000 --bind=0.0.0.0 => serve 5000 0.0.0.0 - -
serve --port=5000 --bind=a=b => serve 5000 a=b - -
serve --port 5000 --bind => -
serve --port 5000 --bind= => -
serve --port 5000 --bind -x => -
serve --port 5000 --bind --count => -
serve --port 5000 --bind a b => -
serve --port 5000 --port 5001 => -
serve --port 5000 --port=5000 => -
serve --port 5000 --bind a --bind a => -
serve --count 1 --port 5000 => serve 5000 127.0.0.1 - 1
serve --count=2147483648 --bind b --port 5000 => serve 5000 b - 2147483648
serve --count 2147483649 --port 5000 => -
serve --count 0 --port 5000 => -
serve --count 5 --count 5 --port 5000 => -
serve --port 5000 serve => -
serve board => -
demo => -
demo 1000000 => -
demo -1 => -
demo x => -
demo 7 8 => -
demo --number 7 => -
demo --number=7 => -
Demo 7 => -
demo7 => -
demo --store x => -
board --store x => -
check --store x => check x
check --store=x => check x
check --store a=b => check a=b
check => -
check x => -
check --store => -
check --store= => -
check --store -x => -
check --store x y => -
check --store x --store y => -
check --store x --store=x => -
check --store x --game 1 => -
check --store x --port 5000 => -
check --store x --bind a => -
check --store x --count 1 => -
Check --store x => -
pgn --store games.db => pgn games.db
pgn --store=x => pgn x
pgn => -
pgn --store x --game 1 => -
pgn --store x --store x => -
examine --store x --game 1 => examine x 1
examine --game=2 --store=x => examine x 2
examine --game 18446744073709551615 --store x => examine x 18446744073709551615
examine --store x --game 0 => -
examine --store x --game 18446744073709551616 => -
examine --store x --game y => -
examine --store x --game -1 => -
examine --store x --game => -
examine --store x => -
examine --game 1 => -
examine --store x --game 1 --game 1 => -
examine --store x --game 1 --count 1 => -
examine --store x --game 1 forward => -
serve --port 5000 --store x => serve 5000 127.0.0.1 x -
serve --store=x --count 3 --bind b --port 5000 => serve 5000 b x 3
serve --port 5000 --store => -
serve --port 5000 --store= => -
serve --port 5000 --store -x => -
serve --port 5000 --store x --store y => -
serve --port 5000 --game 1 => -
serve --store x => -
";

/// Texts that the other reader takes for numbers or for the end of the options, and this program doesn't.
const STRICT: &str = "\
bot 04 => -
bot +4 => -
bot -- 4 => -
demo 07 => -
demo +7 => -
demo -- 7 => -
serve --port 05000 => -
serve --port +5000 => -
serve --port 5000 --count 01 => -
serve --port 5000 -- => -
examine --store x --game 01 => -
examine --store x --game +1 => -
check --store x -- => -
";

/// What is read of words. It ensures nothing, so that nothing above it is proved over what the words name.
fn read(alloc: Global, words: &[String]) -> Result<Job, JobFail> {
    read_job(alloc, words)
}

/// Whether what was read is what a row says.
fn is_named(alloc: Global, read: &Result<Job, JobFail>, named: &str) -> Result<bool, Fail> {
    match read {
        Ok(job) => is_job(alloc, job, named),
        Err(JobFail::Usage) => Ok(named == "-"),
        Err(JobFail::Memory) => Err(NoMemory.into()),
    }
}

fn is_job(alloc: Global, job: &Job, named: &str) -> Result<bool, Fail> {
    let said = spoken(alloc, job)?;
    Ok(said.as_str() == named)
}

/// What a job is, as a row says it.
fn spoken(alloc: Global, job: &Job) -> Result<String, AllocError> {
    match job {
        Job::Board => String::from_str(alloc, "board"),
        Job::Replay => String::from_str(alloc, "replay"),
        Job::Tourney => String::from_str(alloc, "tourney"),
        Job::Tidy => String::from_str(alloc, "tidy"),
        Job::Bot { depth } => format!(in alloc; "bot {depth}"),
        Job::Demo { number } => format!(in alloc; "demo {number}"),
        Job::Check { store } => format!(in alloc; "check {store}"),
        Job::Pgn { store } => format!(in alloc; "pgn {store}"),
        Job::Examine { store, game } => format!(in alloc; "examine {store} {game}"),
        Job::Serve {
            port,
            bind,
            store,
            count,
        } => {
            let counted = count_text(alloc, *count)?;
            let store = store_text(store);
            format!(in alloc; "serve {port} {bind} {store} {counted}")
        }
    }
}

fn store_text(store: &Option<String>) -> &str {
    match store {
        Some(store) => store.as_str(),
        None => "-",
    }
}

/// The number of connections, as a row says it.
fn count_text(alloc: Global, count: Option<u64>) -> Result<String, AllocError> {
    match count {
        Some(count) => format!(in alloc; "{count}"),
        None => String::from_str(alloc, "-"),
    }
}

/// Puts a word behind others.
fn put_word(alloc: Global, words: &mut Vec<String>, word: &str) -> Result<(), Fail> {
    let word = String::from_str(alloc, word)?;
    words.push(word)?;
    Ok(())
}

/// Puts the words of a row, which blanks part.
fn put_words(alloc: Global, words: &mut Vec<String>, text: &str) -> Result<(), Fail> {
    for word in text.split_whitespace() {
        put_word(alloc, words, word)?;
    }
    Ok(())
}

fn is_row_named(alloc: Global, row: &str) -> Result<bool, Fail> {
    let (text, named) = row.split_once(" => ").ok_or("words and what they name")?;
    let mut words = Vec::new(alloc);
    put_words(alloc, &mut words, text)?;
    is_named(alloc, &read(alloc, &words), named)
}

/// The first row of a table whose words name something else, if there is one.
fn first_misnamed(alloc: Global, table: &'static str) -> Result<Option<&'static str>, Fail> {
    for row in table.lines() {
        if !is_row_named(alloc, row)? {
            return Ok(Some(row));
        }
    }
    Ok(None)
}

#[test]
fn words_name_what_the_grammar_says(rt: HostRuntime) -> Result<(), Fail> {
    assert_eq!(rt; first_misnamed(rt.alloc(), ROWS)?, None);
    assert_eq!(rt; first_misnamed(rt.alloc(), STRICT)?, None);
    Ok(())
}

/// Whether the other reader says the same of a row.
fn is_row_said(alloc: Global, row: &str) -> Result<bool, Fail> {
    let (text, named) = row.split_once(" => ").ok_or("words and what they name")?;
    let mut words = Vec::new(alloc);
    put_words(alloc, &mut words, text)?;
    is_clap_reading(alloc, &words, named)
}

fn first_otherwise(alloc: Global) -> Result<Option<&'static str>, Fail> {
    for row in ROWS.lines() {
        if !is_row_said(alloc, row)? {
            return Ok(Some(row));
        }
    }
    Ok(None)
}

#[test]
fn another_reader_of_command_lines_says_the_same(rt: HostRuntime) -> Result<(), Fail> {
    assert_eq!(rt; first_otherwise(rt.alloc())?, None);
    Ok(())
}

/// Whether an empty word behind these words makes them name nothing.
fn is_nothing_before_empty(alloc: Global, text: &str) -> Result<bool, Fail> {
    let mut words = Vec::new(alloc);
    put_words(alloc, &mut words, text)?;
    put_word(alloc, &mut words, "")?;
    Ok(is_nothing(alloc, &words))
}

fn is_nothing(alloc: Global, words: &[String]) -> bool {
    matches!(&read(alloc, words), Err(JobFail::Usage))
}

#[test]
fn no_word_and_an_empty_word_name_nothing(rt: HostRuntime) -> Result<(), Fail> {
    assert!(rt; is_nothing(rt.alloc(), &[]));
    assert!(rt; is_nothing_before_empty(rt.alloc(), "")?);
    assert!(rt; is_nothing_before_empty(rt.alloc(), "serve --port 5000 --bind")?);
    Ok(())
}
