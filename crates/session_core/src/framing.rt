//! How what a session writes stands in its answer.
ghost use Rattle.std.specs.Prelude.{◌≡◌, IfOk};
ghost use Rattle.session_core.specs.Inputs.{framed, framing_of, is_ack, is_unanswered, unasked};

use crate::begin::is_greeting;
use crate::input::Input;
use crate::session_memory::SessionMemory;
use crate::texts::{LINE_END, prompt_of, put_between};
use line_reader::Incoming;
use memory::NoMemory;
use session_asks::Standing;
use std::alloc::Global;

/// How a text stands in an answer.
#[derive(Clone, Copy)]
pub enum Framing {
    /// As it is: what isn't answered writes nothing.
    Bare,
    /// With the prompt behind it.
    Answer,
    /// On lines of its own, with the prompt behind it; where there is none nothing is written.
    News,
}

/// How the text of an input stands in the answer.
pub(crate) fn framing_of(input: &Input, memory: &SessionMemory) -> Framing
    ensures { result ≡ framing_of input.now memory.now }
{
    match input {
        Input::Quiet => Framing::News,
        Input::Line(line) => {
            if is_unanswered(memory, line) {
                Framing::Bare
            } else {
                Framing::Answer
            }
        }
    }
}

/// The answer of a text, where the session then stands so.
pub(crate) fn framed(
    alloc: Global,
    framing: Framing,
    standing: Standing,
    text: Vec<u8>,
) -> Result<Vec<u8>, NoMemory>
    ensures { IfOk result (λ bytes. bytes.items ≡ framed framing standing text.items) }
{
    match framing {
        Framing::Bare => Ok(text),
        Framing::Answer => {
            let mut text = text;
            text.extend_from_slice(prompt_of(standing))?;
            Ok(text)
        }
        Framing::News => unasked(alloc, text.as_slice(), standing),
    }
}

/// News that come without a line; nothing where there are none.
fn unasked(alloc: Global, news: &[u8], standing: Standing) -> Result<Vec<u8>, NoMemory>
    ensures { IfOk result (λ bytes. bytes.items ≡ unasked news.now standing) }
{
    let mut bytes = Vec::new(alloc);
    if news.is_empty() {
        return Ok(bytes);
    }
    put_between(LINE_END, news, prompt_of(standing), &mut bytes)?;
    Ok(bytes)
}

/// Whether a line isn't answered.
fn is_unanswered(memory: &SessionMemory, line: &Incoming) -> bool
    ensures { result ≡ is_unanswered memory.now line.now }
{
    is_greeting(memory.link(), line) || is_ack(line) || memory.is_gone()
}

/// Whether a line is an acknowledgement.
fn is_ack(line: &Incoming) -> bool
    ensures { result ≡ is_ack line.now }
{
    match line {
        Incoming::Ack(_) => true,
        _ => false,
    }
}
