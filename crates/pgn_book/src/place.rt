//! Where the next byte stands.
ghost use Rattle.std.specs.Prelude.{◌≡◌};

use crate::text::Text;

/// Where the next byte stands among the pieces of a text.
#[derive(Drop)]
pub(crate) enum PlaceInText {
    /// Before the first byte.
    Start,
    /// Behind the first byte of the mark of UTF-8.
    AfterOne,
    /// Behind the second one.
    AfterTwo,
    /// Between pieces, `fresh` at the beginning of a line.
    Between { fresh: bool },
    /// In the rest of a line that is skipped.
    InLine,
    /// In braces, which are skipped.
    InBraces,
    /// In a word, or with `glyph` in one behind `$`.
    InWord { glyph: bool, word: Text },
    /// In quotes.
    InQuotes(Text),
    /// Behind a stroke in quotes.
    InStroke(Text),
}

impl PlaceInText {
    /// The same place once more.
    pub(crate) fn copy(&self) -> PlaceInText
        ensures { result ≡ self.now }
    {
        match self {
            PlaceInText::Start => PlaceInText::Start,
            PlaceInText::AfterOne => PlaceInText::AfterOne,
            PlaceInText::AfterTwo => PlaceInText::AfterTwo,
            PlaceInText::Between { fresh } => PlaceInText::Between { fresh: *fresh },
            PlaceInText::InLine => PlaceInText::InLine,
            PlaceInText::InBraces => PlaceInText::InBraces,
            PlaceInText::InWord { glyph, word } => PlaceInText::InWord {
                glyph: *glyph,
                word: word.copy(),
            },
            PlaceInText::InQuotes(text) => PlaceInText::InQuotes(text.copy()),
            PlaceInText::InStroke(text) => PlaceInText::InStroke(text.copy()),
        }
    }
}
