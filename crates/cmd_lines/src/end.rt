//! The ways in which the reading of an input ends.

ghost use Rattle.std.specs.Prelude.{◌≡◌};
ghost use Rattle.cmd_lines.specs.Ends.{status_of};

/// How the reading of an input ended.
#[derive(Clone, Copy, Debug, PartialEq, Eq)]
pub enum End {
    /// The input was read to its end, and every line of it was answered.
    Done,
    /// A read failed.
    ReadFault,
    /// A write failed.
    WriteFault,
    /// Running out of memory.
    Memory,
    /// A line is outside the grammar.
    BadLine,
    /// So many reads were made as one run makes.
    Spent,
}

/// The number with which the program ends.
pub fn status(end: End) -> u8
    ensures { result ≡ status_of end }
{
    match end {
        End::Done => 0,
        End::ReadFault => 2,
        End::WriteFault => 3,
        End::Memory => 6,
        End::BadLine => 7,
        End::Spent => 9,
    }
}
