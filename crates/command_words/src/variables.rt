//! The table of the variables that `set` sets, a row each, and what they take. What each says stands above the row of
//! `set` in the table of commands.

use fics_words::Variable;

/// Which variable it is, by the values that it takes.
#[derive(Clone, Copy)]
pub enum Values {
    /// 0 and 1: it is off or on.
    OnOff(Variable),
}

/// A variable: its name, with blanks behind it, and what it takes.
#[derive(Clone, Copy)]
pub struct VariableRow(pub [u8; 9], pub Values);

/// The variables.
pub const VARIABLES: &[VariableRow] = &[
    VariableRow(*b"open     ", Values::OnOff(Variable::Open)),
    VariableRow(*b"shout    ", Values::OnOff(Variable::Shout)),
    VariableRow(*b"seek     ", Values::OnOff(Variable::Seek)),
];
