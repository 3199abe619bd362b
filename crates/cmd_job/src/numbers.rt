//! The numbers among the words.

ghost use Rattle.std.specs.Prelude.{ℕ, Option, IfSome, IfNone, Some, option_copied};
ghost use Rattle.cmd_job.specs.Jobs.{IsCount, IsDemoNumber, IsDepth, IsGameGiven, IsPort, NumberFrom1};

use fics_words::read_number;

/// The highest port.
const MOST_PORT: u64 = 65_535;

/// The most connections of one run: 2^31.
const MOST_COUNT: u64 = 2_147_483_648;

/// The most half-moves that the bot looks ahead.
const MOST_DEPTH: u64 = 4;

/// Reads how many half-moves the bot looks ahead: 0 to 4.
pub(crate) fn read_depth(text: &str) -> Option<u8>
    ensures some { IfSome result (IsDepth text.now) }
    ensures none { IfNone result ((depth : ℕ) → IsDepth text.now depth → ⊥) }
{
    let number = read_number(text.as_bytes(), MOST_DEPTH)?;
    Some(number as u8)
}

/// The highest number from which an evening is made.
const MOST_DEMO: u64 = 999_999;

/// Reads the number from which an evening is made: 0 to 999,999.
pub(crate) fn read_demo_number(text: &str) -> Option<u32>
    ensures some { IfSome result (IsDemoNumber text.now) }
    ensures none { IfNone result ((number : ℕ) → IsDemoNumber text.now number → ⊥) }
{
    let number = read_number(text.as_bytes(), MOST_DEMO)?;
    Some(number as u32)
}

/// Reads the port, which has to be there: 1 to 65,535.
pub(crate) fn read_port(text: Option<&str>) -> Option<u16>
    ensures some { IfSome result (IsPort (option_copied text.entry)) }
    ensures none { IfNone result ((port : ℕ) → IsPort (option_copied text.entry) port → ⊥) }
{
    let number = read_positive(text?, MOST_PORT)?;
    Some(number as u16)
}

/// Reads the number of connections, where it is there: 1 to 2^31.
pub(crate) fn read_count(text: Option<&str>) -> Option<Option<u64>>
    ensures some { IfSome result (IsCount (option_copied text.entry)) }
    ensures none { IfNone result ((count : Option ℕ) → IsCount (option_copied text.entry) count → ⊥) }
{
    let Some(text) = text else {
        return Some(None);
    };
    let number = read_positive(text, MOST_COUNT)?;
    Some(Some(number))
}

/// Reads the number of a stored game, which has to be there: 1 to 2^64 - 1.
pub(crate) fn read_game(text: Option<&str>) -> Option<u64>
    ensures some { IfSome result (IsGameGiven (option_copied text.entry)) }
    ensures none { IfNone result ((game : ℕ) → IsGameGiven (option_copied text.entry) game → ⊥) }
{
    read_positive(text?, u64::MAX)
}

/// Reads a decimal from 1 to the limit.
fn read_positive(text: &str, most: u64) -> Option<u64>
    ensures some { IfSome result (NumberFrom1 most text.now) }
    ensures none { IfNone result ((n : ℕ) → NumberFrom1 most text.now n → ⊥) }
{
    let number = read_number(text.as_bytes(), most)?;
    if number == 0 {
        return None;
    }
    Some(number)
}
