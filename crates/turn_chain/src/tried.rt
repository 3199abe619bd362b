//! What a call that waits for nobody came to.

/// What a call that waits for nobody came to.
#[derive(Drop)]
pub enum Tried<A> {
    /// The act was made, and its reply written.
    Done,
    /// The turn of this part of the act was another pass's. The act wasn't made, and comes back.
    Busy { part: u8, act: A },
}
