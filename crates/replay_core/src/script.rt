//! The lines of a replay script.

ghost use Rattle.std.specs.Prelude.{◌≡◌, ◌≢◌, ◌∷◌, IfOk, IfSome, IfNone, SomeIff, ℕ, List, decimal};
ghost use Rattle.fics_words.specs.Line.{IsLine};
ghost use Rattle.clock_ledger.specs.Span.{IsStamp};
ghost use Rattle.replay_core.specs.Script.{IsScriptEvent, IsScriptLine, event_text, script_text};
ghost use Rattle.fics_words.specs.Blank.{blank};
ghost use Rattle.replay_core.specs.declared.script.ScriptEvent.{ScriptEvent};

use crate::words::cut_number;
use clock_ledger::LAST_MOMENT;
use fics_words::{Line, read_number};
use memory::NoMemory;
use std::alloc::Global;

/// The most sessions that a script may have.
pub(crate) const MOST_SESSIONS: usize = 64;

/// The last stamp before a client's clock starts again, in milliseconds.
const LAST_STAMP: u64 = 9_999_999;

/// What comes from a session.
#[derive(Drop, PartialEq)]
pub enum ScriptEvent {
    /// The session connects.
    Connect,
    /// Its link ends.
    Cut,
    /// Nothing came for a while.
    Quiet,
    /// A line that carries no stamp.
    Plain(Line),
    /// A line with the client's clock in milliseconds, below 10,000,000.
    Stamped(u32, Line),
    /// The acknowledgement of a board, with the client's clock.
    Ack(u32),
}

/// One line of a script.
#[derive(Drop, PartialEq)]
pub struct ScriptLine {
    /// When it happens, in milliseconds, at most 2^48.
    pub moment: u64,
    /// The session that it comes from, 1 to 64.
    pub session: u32,
    pub event: ScriptEvent,
}

/// Reads a line of a script: `T S +`, `T S > TEXT`, `T S * N TEXT`, `T S ! N`, `T S ?` or `T S -`. It gives the line
/// exactly where these bytes are its one spelling: decimals have no leading zeros, one blank parts two words, and a
/// TEXT is all that follows its blank, which may be nothing.
pub fn read_script(alloc: Global, line: &Line) -> Result<Option<ScriptLine>, NoMemory>
    ensures spelled { IfOk result (λ read. IfSome read (λ value. line.now ≡ script_text value)) }
    ensures in_range { IfOk result (λ read. IfSome read IsScriptLine) }
    ensures none { IfOk result (λ read. IfNone read
        ((value : ScriptLine) → IsScriptLine value → line.now ≢ script_text value)) }
{
    let Some((moment, rest)) = cut_number(line.bytes(), LAST_MOMENT) else {
        return Ok(None);
    };
    let Some((session, rest)) = cut_number(rest, MOST_SESSIONS as u64) else {
        return Ok(None);
    };
    if session == 0 {
        return Ok(None);
    }
    let Some(event) = read_event(alloc, rest)? else {
        return Ok(None);
    };
    Ok(Some(ScriptLine {
        moment,
        session: session as u32,
        event,
    }))
}

/// Reads what stands behind the session's number.
fn read_event(alloc: Global, bytes: &[u8]) -> Result<Option<ScriptEvent>, NoMemory>
    ensures spelled { IfOk result (λ read. IfSome read (λ event. bytes.now ≡ event_text event)) }
    ensures in_range { IfOk result (λ read. IfSome read IsScriptEvent) }
    ensures none { IfOk result (λ read. IfNone read
        ((event : ScriptEvent) → IsScriptEvent event → bytes.now ≢ event_text event)) }
{
    match bytes {
        b"+" => Ok(Some(ScriptEvent::Connect)),
        b"-" => Ok(Some(ScriptEvent::Cut)),
        b"?" => Ok(Some(ScriptEvent::Quiet)),
        [b'>', b' ', text @ ..] => read_plain(alloc, text),
        [b'*', b' ', rest @ ..] => read_stamped(alloc, rest),
        [b'!', b' ', stamp @ ..] => Ok(read_ack(stamp)),
        _ => Ok(None),
    }
}

/// A line that carries no stamp.
fn read_plain(alloc: Global, text: &[u8]) -> Result<Option<ScriptEvent>, NoMemory>
    ensures plain { IfOk result (λ read. SomeIff read (IsLine text.now) (ScriptEvent.Plain text.now)) }
{
    let Some(text) = Line::read(alloc, text)? else {
        return Ok(None);
    };
    Ok(Some(ScriptEvent::Plain(text)))
}

/// A line behind its stamp.
fn read_stamped(alloc: Global, bytes: &[u8]) -> Result<Option<ScriptEvent>, NoMemory>
    ensures spelled { IfOk result (λ read. IfSome read (λ event. 0x2A ∷ blank ∷ bytes.now ≡ event_text event)) }
    ensures in_range { IfOk result (λ read. IfSome read IsScriptEvent) }
    ensures none { IfOk result (λ read. IfNone read
        ((stamp : ℕ) (text : List ℕ) → IsScriptEvent (ScriptEvent.Stamped stamp text) → 0x2A ∷ blank
        ∷ bytes.now ≢ event_text (ScriptEvent.Stamped stamp text))) }
{
    let Some((stamp, text)) = cut_number(bytes, LAST_STAMP) else {
        return Ok(None);
    };
    let Some(text) = Line::read(alloc, text)? else {
        return Ok(None);
    };
    Ok(Some(ScriptEvent::Stamped(stamp as u32, text)))
}

/// An acknowledgement, whose stamp is all of the bytes.
fn read_ack(stamp: &[u8]) -> Option<ScriptEvent>
    ensures spelled { IfSome result (λ event. 0x21 ∷ blank ∷ stamp.now ≡ event_text event) }
    ensures in_range { IfSome result IsScriptEvent }
    ensures none { IfNone result ((value : ℕ) → IsStamp value → stamp.now ≢ decimal value) }
{
    let stamp = read_number(stamp, LAST_STAMP)?;
    Some(ScriptEvent::Ack(stamp as u32))
}
