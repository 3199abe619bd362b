//! The variables that `set` sets, by FICS's names.

/// A variable of a player, on or off.
#[derive(Clone, Copy)]
pub enum Variable {
    /// Whether the player can be challenged.
    Open,
    /// Whether the player hears what others shout.
    Shout,
    /// Whether the player hears of seeks.
    Seek,
}
