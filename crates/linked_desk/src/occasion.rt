//! On which occasion a game begins.

/// On which occasion a game begins at a desk.
#[derive(Clone, Copy)]
pub(crate) enum Occasion {
    /// At its start.
    Start,
    /// Where it was adjourned.
    Resumption,
}
