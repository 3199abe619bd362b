//! How boards are printed.

/// How boards are printed.
#[derive(Clone, Copy)]
pub enum Style {
    /// The ranks on eight lines, and a line of text: style 1 of FICS in short.
    One,
    /// A line that clients read: style 12 of FICS.
    Twelve,
}
