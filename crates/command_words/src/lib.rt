//! Reading the lines that players type: aliases, the rule of command words, and each command's arguments.
//!
//! The contract: `read_command` gives the command of `specs/Commands.antt` for the line, or the first refusal that
//! holds, and nothing but running out of memory stands in its place. Which word is which command says
//! `specs/Words.antt`; the table of the code (`rows.rt`) has the same rows, by the law `the_table_has_the_commands`.
#![tactic(auto)]

mod aliases;
mod arguments;
mod blanks;
mod command;
mod commands;
mod expansion;
mod laws;
mod naming;
mod numbers;
mod reading;
mod rows;
mod shapes;
mod style;
mod terms;
mod variables;

pub use aliases::{Alias, Aliases};
pub use command::Command;
pub use laws::{terms_are_read_as_spelled, the_table_has_the_commands};
pub use reading::read_command;
pub use rows::{Bare, ByName, ByNumber, CommandRow, MaybeByName, OnChannel, ROWS, WithText};
pub use style::Style;
pub use variables::{VARIABLES, Values, VariableRow};
