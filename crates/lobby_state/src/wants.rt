//! What a member wants to hear.

/// What a member wants others to send; a new member wants all of it.
#[derive(Clone, Copy)]
pub struct Wants {
    /// To be challenged: FICS's variable `open`.
    pub matches: bool,
    /// To hear what others shout: FICS's variable `shout`.
    pub shouts: bool,
    /// To hear of seeks: FICS's variable `seek`.
    pub seeks: bool,
}
