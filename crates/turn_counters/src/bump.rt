//! What a session asks of two counters.

/// An act: it adds one to the first counter, or to both.
#[derive(Clone, Copy, PartialEq, Eq, Debug)]
pub enum Bump {
    First,
    Both,
}
