//! What a session asks of two counters.

/// An act: which counters it adds one to.
#[derive(Clone, Copy, PartialEq, Eq, Debug)]
pub enum Bump {
    Left,
    Right,
    Both,
}
