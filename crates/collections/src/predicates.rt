//! Tests of items, and the look-ups by them.
ghost use Rattle.std.specs.Prelude.{◌≡◌, Bool, option_copied};
ghost use Rattle.std.specs.List.{position, find};

/// A question about an item, with one answer for each item.
pub trait Predicate<T> {
    /// The items that pass.
    ghost passes: { Self → T → Bool };

    /// Whether `item` passes.
    fn passes(&self, item: &T) -> bool
        ensures { result ≡ passes self.now item.now };
}

/// The place of the first item that passes `test`, counted from 0, or `None` where none does.
pub fn position<T, P: Predicate<T>>(items: &[T], test: &P) -> Option<usize>
    ensures { result ≡ position (P.passes test.now) items.now }
{
    items.iter().position(|item| test.passes(item))
}

/// The first item that passes `test`, or `None` where none does.
pub fn find<'a, T, P: Predicate<T>>(items: &'a [T], test: &P) -> Option<&'a T>
    ensures { option_copied result ≡ find (P.passes test.now) items.now }
{
    items.iter().find(|item| test.passes(item))
}
