//! What a table finds its rows by.
ghost use Rattle.std.specs.Prelude.{◌≡◌};
ghost use Rattle.std.specs.Borrow.{Lends, sem};

/// A row with a key.
pub trait Keyed<K> {
    /// The key.
    ghost key_of: { Self → K };

    /// The key of this row.
    fn key(&self) -> K
        ensures { result ≡ key_of self.now };
}

/// A row that lends a part of it. `W` says which, where a row has several parts of one type.
pub trait Parted<P, W> {
    /// The part.
    ghost part: { Self → P };

    /// The row with another part.
    ghost with_part: { Self → P → Self };

    /// The part of this row, to be changed.
    fn part_mut(&mut self) -> &mut P
        ensures* writes_back { sem 𝓛 (Lends Self.row P.row self.entry result (with_part self.old)) }
        ensures value { result.now ≡ part self.old };
}
