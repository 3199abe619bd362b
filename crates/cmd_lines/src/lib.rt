//! The lines of an input, answered as they come.
//!
//! A command is a `Feeder`: it is fed the bytes of its input, in whatever pieces they come, and says, as relations,
//! which bytes bring it where, which text is due for them, and where a line is outside its grammar. The contract of
//! `answer_pieces`: the source is read to its end, and exactly what is due for its bytes is written, and then what
//! the command writes in closing; at the first line outside the grammar, what is due up to it; each other end comes
//! where it is stated to come.
//!
//! A command that answers lines is a `LineHandler`: it says, as a relation, which lines bring it where and which text
//! is due for them. A machine, which is a feeder, cuts the bytes into lines and has each answered: `answer_lines`.
//! Where a command is a `LineAnswerer`, a function from where it stands and a line to its answer, `answer_each`
//! writes the text that this function makes of the lines; a `ClosingAnswerer` has a text for the input's end too,
//! which `answer_each_and_close` writes behind the last line.
#![tactic(auto)]

mod answering;
mod by_function;
mod by_lines;
mod closing;
mod end;
mod feeder;
mod laws;
mod line_handler;
mod machine;
mod stop;
mod words;

pub use answering::{answer_pieces, send};
pub use by_function::{LineAnswerer, answer_each, answer_from};
pub use by_lines::answer_lines;
pub use closing::{ClosingAnswerer, answer_each_and_close};
pub use end::{End, status};
pub use feeder::Feeder;
pub use laws::lines;
pub use line_handler::LineHandler;
pub use machine::refuse_line;
pub use stop::Stop;
pub use words::{cut, put_refusal};
