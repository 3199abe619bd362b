//! Whose seeks stay as a game starts.
ghost use Rattle.std.specs.Prelude.{not};
ghost use Rattle.lobby_state.specs.Start.{is_seek_of_seated};

use collections::Predicate;
use fics_words::Seats;
use seek_match::Seek;

/// A seek that isn't by a player of the game.
#[derive(Clone, Copy)]
pub(crate) struct ByUnseated(pub(crate) Seats);

impl Predicate<Seek> for ByUnseated {
    ghost passes = { λ test seek. not (is_seek_of_seated test.0 seek) };

    fn passes(&self, seek: &Seek) -> bool {
        self.0.number(seek.by).is_none()
    }
}
