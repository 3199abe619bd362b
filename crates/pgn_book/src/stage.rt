//! What has come of a game.
ghost use Rattle.std.specs.Prelude.{◌≡◌};

use crate::text::Text;

/// Where the next piece stands in a game.
#[derive(Drop)]
pub(crate) enum GameStage {
    /// Before its first piece.
    Before,
    /// Behind a tag.
    Tags,
    /// Behind `[`.
    Opened,
    /// Behind the name of a tag.
    Named(Text),
    /// Behind the text of a tag.
    Told,
    /// In the moves.
    Moves,
}

impl GameStage {
    /// The same stage once more.
    pub(crate) fn copy(&self) -> GameStage
        ensures { result ≡ self.now }
    {
        match self {
            GameStage::Before => GameStage::Before,
            GameStage::Tags => GameStage::Tags,
            GameStage::Opened => GameStage::Opened,
            GameStage::Named(name) => GameStage::Named(name.copy()),
            GameStage::Told => GameStage::Told,
            GameStage::Moves => GameStage::Moves,
        }
    }
}
