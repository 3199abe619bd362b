//! The two ways round a simul.

/// Which way a giver turns in the circle of its places.
#[derive(Clone, Copy)]
pub enum Direction {
    /// To the place that came next, and from the last one to the first.
    Next,
    /// To the place that came before, and from the first one to the last.
    Previous,
}
