//! Why a link is served no longer.

/// Why a link is served no longer.
#[derive(Clone, Copy, Debug, PartialEq, Eq)]
pub enum LinkEnd {
    /// The player asked to quit, and was answered.
    Quit,
    /// The link said that nothing more comes.
    End,
    /// A read failed, which the link counted.
    ReadFault,
    /// A write failed, which the link counted.
    WriteFault,
    /// The link was read 2^40 times, and each read gave a byte or a pause.
    Spent,
    /// Memory ran out, also in an act of leaving.
    Memory,
}
