//! One entry of a history.

/// An act that a session made, and the reply that it got.
#[derive(Drop)]
pub struct Entry<A, R> {
    /// Who made the act.
    pub session: u32,
    /// The act.
    pub act: A,
    /// What the session was answered.
    pub reply: R,
}
